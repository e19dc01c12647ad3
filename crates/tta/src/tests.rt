//! Each command over files and an output in memory, where all goes well and where something fails,
//! and what needs units of its own or values of several crates.

mod failing;
mod handed_in;
mod host;
mod lowering;
mod passes;
mod placement;
mod region;
mod texts;
mod turns;

use host::Host;
use std::test::Fail;
use texts::ONE_BUS;

const TEXTS: [(&str, &str); 2] = [("M", ONE_BUS), ("P", "proc main\nout 7\nhalt\nend\n")];

// Whether an image has 51 bytes, and the bits of the code at its end.
fn is_image(image: &[u8]) -> bool {
    image.len() == 51 && image.ends_with(&[0x83, 0x98, 0x04])
}

#[test]
fn constant_is_compiled(rt: HostRuntime) -> Result<(), Fail> {
    let image = Host::new(rt.alloc(), &TEXTS, b"").written(&["build", "M", "P", "OUT"])?;
    assert!(rt; is_image(image.as_slice()));
    Ok(())
}

//! Numbers and places, put at the end of a text.

ghost use Rattle.std.specs.Prelude.{◌≡◌, ◌++◌, OnOk};
ghost use Rattle.tta_stages.specs.Words.{count_text, home_text, pair_text};

use itoa::Buffer;
use std::alloc::AllocError;
use tta_arch::Machine;
use tta_disasm::{file_name, push_place};

/// Puts a number, and what it counts before it.
pub fn push_count(out: &mut Vec<u8>, what: &[u8], n: u128) -> Result<(), AllocError>
    ensures { OnOk result (out.new.items ≡ out.old.items ++ count_text what.now n) }
{
    let mut buffer = Buffer::new();
    out.extend_from_slice(what)?;
    out.extend_from_slice(buffer.format(n).as_bytes())
}

/// Puts a register of a file.
fn push_register(out: &mut Vec<u8>, m: &Machine, register: (u8, u8)) -> Result<(), AllocError>
    ensures { OnOk result (out.new.items ≡ out.old.items ++ pair_text m.now register) }
{
    push_place(out, file_name(m, register.0), register.1)
}

/// Puts a home register, as the register of the machine that it is.
pub fn push_home(
    out: &mut Vec<u8>,
    m: &Machine,
    homes: &[(u8, u8)],
    k: u32,
) -> Result<(), AllocError>
    ensures { OnOk result (out.new.items ≡ out.old.items ++ home_text m.now homes.now k) }
{
    match homes.get(k as usize) {
        Some(register) => push_register(out, m, *register),
        None => Ok(()),
    }
}

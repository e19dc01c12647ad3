//! Each call of the files and each put of a line fails in turn, for each command. The status gives
//! the first fault, no file changes but a prefix of the one that is written, and the output has
//! the lines before the fault and half of the next. Where none fails, each command ends well.

use super::host::{BEFORE, Host, none_other};
use super::texts::{ONE_BUS, THREE_BUSES};
use std::alloc::{AllocError, Global};
use std::test::Fail;
use tta_tool::Status;

/// On three buses, two registers change places and are output.
const SWAP: &str = "1 -> R.1 , ... , ... ;\n\
     2 -> R.2 , ... , ... ;\n\
     R.1 -> R.2 , R.2 -> R.1 , ... ;\n\
     R.1 -> IO.t.out , ... , ... ;\n\
     R.2 -> IO.t.out , ... , ... ;\n\
     0 -> gcu.t.halt , ... , ... ;\n\
     ... , ... , ... ;\n\
     ... , ... , ... ;\n";

/// Puts the first data word out, and stores 9 in the second.
const PROGRAM: &str = "proc main\na = load 0\nout a\nstore 1 9\nhalt\nend\n";

/// The texts that the commands read.
const TEXTS: [(&str, &str); 7] = [
    ("M", THREE_BUSES),
    ("A", SWAP),
    ("P", PROGRAM),
    ("I", "0000000a\n"),
    ("GO", "go 20\nwhere\n"),
    ("S", ONE_BUS),
    ("C", "proc main\nout 7\nhalt\nend\n"),
];

/// The commands that write.
const WRITING: [&[&str]; 3] = [
    &["build", "S", "C", "OUT"],
    &["asm", "M", "A", "OUT"],
    &["dis", "M", "IMG", "OUT"],
];

/// A command that prints, and its lines, one a put.
type Printing = (&'static [&'static str], &'static [&'static str]);

const EXEC: Printing = (
    &["exec", "M", "P", "I", "9"],
    &["10\n", "halted\n", "mem 0 10\n", "mem 1 9\n", "steps 4\n"],
);

const RUN: Printing = (
    &["run", "M", "IMG", "I", "20"],
    &["2\n", "1\n", "halted\n", "mem 0 10\n", "cycles 8\n"],
);

const DEBUG: Printing = (
    &["debug", "M", "IMG", "I", "GO"],
    &["out 2\n", "out 1\n", "halted cycle 8\n", "halted cycle 8\n"],
);

const CHECK: Printing = (&["check", "M", "IMG"], &["safe\n"]);

const SAMPLE: Printing = (
    &["sample", "0", "3", "M"],
    &[
        "lines 24\n",
        "words 19\n",
        "steps 98\n",
        "cycles 124\n",
        "outputs 24\n",
        "equal yes\n",
    ],
);

/// The commands that print.
const PRINTING: [Printing; 5] = [EXEC, RUN, DEBUG, CHECK, SAMPLE];

/// Those whose first three words are files.
const READING: [Printing; 3] = [EXEC, RUN, DEBUG];

// The image of the swap.
fn swap_image(alloc: Global) -> Result<Vec<u8>, AllocError> {
    Host::new(alloc, &TEXTS, b"").written(&["asm", "M", "A", "OUT"])
}

// How a command that writes these bytes ends where this call fails, and what it leaves in `OUT`.
fn fault_at(call: u64, whole: &[u8]) -> (Status, &[u8]) {
    match call {
        1 => (Status::ReadFault { word: 1 }, BEFORE),
        2 => (Status::ReadFault { word: 2 }, BEFORE),
        3 => (Status::WriteFault, &whole[..whole.len() / 2]),
        _ => (Status::Ok, whole),
    }
}

// Whether a command that writes reports that this call fails, and leaves the files so.
fn fails_at_call(
    alloc: Global,
    image: &[u8],
    words: &[&str],
    call: u64,
) -> Result<bool, AllocError> {
    let mut host = Host::new(alloc, &TEXTS, image);
    let whole = host.written(words)?;
    let (fault, left) = fault_at(call, whole.as_slice());
    host.failing_call = call;
    host.leaves(words, fault, left, b"")
}

// Puts the lines before the put that fails at the end, and the first half of its line, or all lines
// where none fails.
fn add_taken(taken: &mut Vec<u8>, lines: &[&str], failing: usize) -> Result<(), AllocError> {
    for (i, line) in lines.iter().enumerate() {
        if failing == 0 || i + 1 < failing {
            taken.extend_from_slice(line.as_bytes())?;
        }
        if i + 1 == failing {
            taken.extend_from_slice(&line.as_bytes()[..line.len() / 2])?;
        }
    }
    Ok(())
}

// Whether a command that prints reports that this put fails, or ends well where none does.
fn fails_at_put(
    alloc: Global,
    image: &[u8],
    printing: Printing,
    put: usize,
) -> Result<bool, AllocError> {
    let (words, lines) = printing;
    let mut taken = Vec::new(alloc);
    add_taken(&mut taken, lines, put)?;
    let mut host = Host::new(alloc, &TEXTS, image);
    host.failing_put = put as u64;
    let ending = if put == 0 {
        Status::Ok
    } else {
        Status::WriteFault
    };
    host.leaves(words, ending, BEFORE, taken.as_slice())
}

// Whether a command that writes reports each of its calls that fails.
fn fails_at_each_call(alloc: Global, image: &[u8], words: &[&str]) -> Result<bool, AllocError> {
    for call in 1..5 {
        if !fails_at_call(alloc, image, words, call)? {
            return Ok(false);
        }
    }
    Ok(true)
}

// Whether a command that prints reports each of its first three reads that fails.
fn fails_at_each_read(alloc: Global, image: &[u8], words: &[&str]) -> Result<bool, AllocError> {
    let mut host = Host::new(alloc, &TEXTS, image);
    for word in 1..4u8 {
        host.failing_call = u64::from(word);
        if !host.prints(words, Status::ReadFault { word }, "")? {
            return Ok(false);
        }
    }
    Ok(true)
}

// Whether a command that prints ends well, and reports each of its puts that fails.
fn fails_at_each_put(alloc: Global, image: &[u8], printing: Printing) -> Result<bool, AllocError> {
    for i in 0..printing.1.len() {
        if !fails_at_put(alloc, image, printing, i + 1)? {
            return Ok(false);
        }
    }
    fails_at_put(alloc, image, printing, 0)
}

// The place of the first command that writes and does not report its calls so.
fn first_other_call(alloc: Global, image: &[u8]) -> Result<Option<usize>, AllocError> {
    for (i, words) in WRITING.iter().enumerate() {
        if !fails_at_each_call(alloc, image, words)? {
            return Ok(Some(i));
        }
    }
    Ok(None)
}

// The place of the first command that prints and does not report its reads so.
fn first_other_read(alloc: Global, image: &[u8]) -> Result<Option<usize>, AllocError> {
    for (i, (words, _)) in READING.iter().enumerate() {
        if !fails_at_each_read(alloc, image, words)? {
            return Ok(Some(i));
        }
    }
    Ok(None)
}

// The place of the first command that prints and does not report its puts so.
fn first_other_put(alloc: Global, image: &[u8]) -> Result<Option<usize>, AllocError> {
    for (i, printing) in PRINTING.iter().enumerate() {
        if !fails_at_each_put(alloc, image, *printing)? {
            return Ok(Some(i));
        }
    }
    Ok(None)
}

#[test]
fn writing_commands_fail_at_each_call(rt: HostRuntime) -> Result<(), Fail> {
    let image = swap_image(rt.alloc())?;
    none_other(first_other_call(rt.alloc(), image.as_slice()))
}

#[test]
fn printing_commands_fail_at_each_call(rt: HostRuntime) -> Result<(), Fail> {
    let image = swap_image(rt.alloc())?;
    none_other(first_other_read(rt.alloc(), image.as_slice()))
}

#[test]
fn printing_commands_fail_at_each_put(rt: HostRuntime) -> Result<(), Fail> {
    let image = swap_image(rt.alloc())?;
    none_other(first_other_put(rt.alloc(), image.as_slice()))
}

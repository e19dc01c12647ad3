//! The lines that a debugger replies.

ghost use Rattle.std.specs.Prelude.{◌≡◌, ◌+◌, ◌≤◌, ◌++◌, codes, decimal, length, is_err};
ghost use Rattle.arrayvec.specs.ArrayString.{array_string_len};
ghost use Rattle.tta_ports.specs.Faults.{CountsFault};
ghost use Rattle.tta_ports.specs.Sink.{PutsBytes};
ghost use Rattle.tta_report.specs.Replies.{reply_text, due_text};

use crate::text::{ROOM, push_number};
use arrayvec::{ArrayString, ArrayVec};
use tta_ports::{Failed, Sink};

/// A line of what a debugger replies. Every number is printed in decimal.
#[derive(Clone, Copy, Debug, PartialEq, Eq)]
pub enum Reply {
    /// The command was carried out: `ok`.
    Done,
    /// The session ends: `bye`.
    Bye,
    /// A place has this word: `W`.
    Value(u32),
    /// A place has no word yet: `unset`.
    Unset,
    /// A cycle output this word: `out W`.
    Out(u32),
    /// The run goes on at this address, after so many cycles: `at PC cycle C`.
    At { pc: u32, cycle: u64 },
    /// The run has halted after so many cycles: `halted cycle C`.
    Halted { cycle: u64 },
    /// The machine has faulted, after so many cycles without a fault: `fault CODE cycle C`.
    Fault { code: u8, cycle: u64 },
    /// The next cycle waits for a word of the input: `waiting at PC cycle C`.
    Waiting { pc: u32, cycle: u64 },
    /// The command was refused: `refused CODE`.
    Refused(u8),
}

/// Puts the number of cycles after a text.
fn push_cycle(text: &mut ArrayString<ROOM>, cycle: u64)
    requires { array_string_len text.old ≤ 31 }
    ensures bytes { text.new.bytes ≡ text.old.bytes ++ codes " cycle " ++ decimal cycle }
    ensures room { array_string_len text.new ≤ 58 }
{
    text.push_str(" cycle ");
    push_number(text, cycle);
}

/// Puts an address and the number of cycles after a text.
fn push_place(text: &mut ArrayString<ROOM>, pc: u32, cycle: u64)
    requires { array_string_len text.old ≤ 11 }
    ensures bytes { text.new.bytes
        ≡ text.old.bytes ++ decimal pc ++ codes " cycle " ++ decimal cycle }
    ensures room { array_string_len text.new ≤ 58 }
{
    push_number(text, u64::from(pc));
    push_cycle(text, cycle);
}

/// Puts what a reply says of a run into an empty text.
fn push_reply(text: &mut ArrayString<ROOM>, reply: &Reply)
    requires { array_string_len text.old ≡ 0 }
    ensures bytes { text.new.bytes ++ codes "\n" ≡ reply_text reply.now }
    ensures room { array_string_len text.new ≤ 58 }
{
    match reply {
        Reply::Done => text.push_str("ok"),
        Reply::Bye => text.push_str("bye"),
        Reply::Value(word) => push_number(text, u64::from(*word)),
        Reply::Unset => text.push_str("unset"),
        Reply::Out(word) => {
            text.push_str("out ");
            push_number(text, u64::from(*word));
        }
        Reply::At { pc, cycle } => {
            text.push_str("at ");
            push_place(text, *pc, *cycle);
        }
        Reply::Halted { cycle } => {
            text.push_str("halted");
            push_cycle(text, *cycle);
        }
        Reply::Fault { code, cycle } => {
            text.push_str("fault ");
            push_place(text, u32::from(*code), *cycle);
        }
        Reply::Waiting { pc, cycle } => {
            text.push_str("waiting at ");
            push_place(text, *pc, *cycle);
        }
        Reply::Refused(code) => {
            text.push_str("refused ");
            push_number(text, u64::from(*code));
        }
    }
}

/// A reply with its end.
fn text_of_reply(reply: &Reply) -> ArrayString<ROOM>
    ensures { result.bytes ≡ reply_text reply.now }
{
    let mut text = ArrayString::new();
    push_reply(&mut text, reply);
    text.push_str("\n");
    text
}

/// Puts a reply, which ends with a newline, in one piece. It takes no memory.
///
/// It answers `Failed` where the sink does, which has then taken a prefix of the line.
pub fn put_reply<S: Sink>(sink: &mut S, reply: &Reply) -> Result<(), Failed>
    ensures grows { PutsBytes (reply_text reply.now) (S.output sink.old).taken
        (S.output sink.new).taken result }
    ensures cause { CountsFault (is_err result) (S.output sink.old).faults
        (S.output sink.new).faults }
{
    let text = text_of_reply(reply);
    sink.put(text.as_bytes())
}

/// What follows the name of a unit in the line of a result that is due.
fn due_end(cycle: u64, value: u32) -> ArrayString<ROOM>
    ensures { result.bytes
        ≡ codes " due " ++ decimal cycle ++ codes " value " ++ decimal value ++ codes "\n" }
{
    let mut text = ArrayString::new();
    text.push_str(" due ");
    push_number(&mut text, cycle);
    text.push_str(" value ");
    push_number(&mut text, u64::from(value));
    text.push_str("\n");
    text
}

/// Puts the line of a result that is due, with the name of its unit, in one piece. It takes no
/// memory.
///
/// It answers `Failed` where the sink does, which has then taken a prefix of the line.
pub fn put_due<S: Sink>(sink: &mut S, unit: &[u8], cycle: u64, value: u32) -> Result<(), Failed>
    requires { length unit.now ≤ 64 }
    ensures grows { PutsBytes (due_text unit.now cycle value)
        (S.output sink.old).taken (S.output sink.new).taken result }
    ensures cause { CountsFault (is_err result) (S.output sink.old).faults
        (S.output sink.new).faults }
{
    let end = due_end(cycle, value);
    let mut line: ArrayVec<u8, 128> = ArrayVec::new();
    line.try_extend_from_slice(unit).unwrap();
    line.try_extend_from_slice(end.as_bytes()).unwrap();
    sink.put(line.as_slice())
}

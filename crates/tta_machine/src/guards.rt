//! The declaration of a guard.

ghost use Rattle.std.specs.Prelude.{◌≡◌, ◌==◌, ◌<◌, ◌||◌, false, length, map, nat_le, not};
ghost use Rattle.std.specs.Prelude.{option_map, slice_get};
ghost use Rattle.std.specs.List.{list_any};
ghost use Rattle.tta_parse.specs.Lines.{plain};
ghost use Rattle.tta_parse.specs.Taken.{Takes};
ghost use Rattle.tta_machine.specs.Forms.{guard_form};
ghost use Rattle.tta_machine.specs.Declarations.{take_guard};
ghost use Rattle.tta_machine.specs.Guards.{guard_of};
ghost use Rattle.tta_arch.specs.Joins.{is_same};
ghost use Rattle.tta_arch.specs.Rules.{same_guard};
ghost use Rattle.tta_machine.specs.Seen.{formed, guard_seen};

use crate::draft::Draft;
use crate::forms::GuardForm;
use crate::limits::MOST_GUARDS;
use crate::refusal::{LineError, Refusal};
use crate::syntax;
use tta_arch::{File, Guard, GuardRef};
use tta_list::entry_at;
use tta_parse::Word;

impl Draft {
    /// Takes a guard by the words after `guard`. It is refused as `Syntax` where they have
    /// another form, as `Unknown` where its bus or its file is not there, as `Twice` where the same
    /// guard stands on the bus already, and as `Range` where the file's width is not 1, the file
    /// has no such register, or 64 guards are there.
    pub fn take_guard(&mut self, words: &[Word]) -> Result<(), LineError>
        ensures { Takes self.new result
            (formed (guard_form (map plain words.now)) (take_guard self.old)) }
    {
        match syntax::guard_form(words) {
            Some(form) => self.add_guard(&form),
            None => Err(LineError::Refused(Refusal::Syntax)),
        }
    }

    /// Puts a guard after the others, where nothing refuses it.
    #[tactic(auto, unfolding(crate::specs::Declarations::take_guard))]
    fn add_guard(&mut self, form: &GuardForm) -> Result<(), LineError>
        ensures { Takes self.new result (take_guard self.old (guard_seen form.now)) }
    {
        let Some(bus) = self.bus_named(form.bus) else {
            return Err(LineError::Refused(Refusal::Unknown));
        };
        let Some(file) = self.file_named(form.file) else {
            return Err(LineError::Refused(Refusal::Unknown));
        };
        let Some((width, size)) = shape_at(self.files.as_slice(), file) else {
            return Err(LineError::Refused(Refusal::Unknown));
        };
        if has_guard(self.guards.as_slice(), bus, file, form.index, form.inverted) {
            return Err(LineError::Refused(Refusal::Twice));
        }
        if is_outside(width, size, form.index, self.guards.as_slice()) {
            return Err(LineError::Refused(Refusal::Range));
        }
        let index = form.index as u8;
        let inverted = form.inverted;
        let on = GuardRef {
            file,
            index,
            inverted,
        };
        match self.guards.push(Guard { bus, on }) {
            Ok(()) => Ok(()),
            Err(_) => Err(LineError::NoMemory),
        }
    }
}

/// Whether the file does not hold one bit, it has no such register, or there are 64 guards.
fn is_outside(width: u8, size: u8, index: u32, guards: &[Guard]) -> bool
    ensures value { result ≡ (not (width == 1) || nat_le size index
        || nat_le 64 (length guards.now)) }
    ensures index { result ≡ false → index < size }
{
    width != 1 || index >= u32::from(size) || guards.len() >= MOST_GUARDS
}

/// The width and the size of the file at a place.
fn shape_at(files: &[File], place: u8) -> Option<(u8, u8)>
    ensures { result ≡ option_map (λ f. (f.width, f.size)) (slice_get files.now place) }
{
    match entry_at(files, place) {
        Some(file) => Some((file.width, file.size)),
        None => None,
    }
}

/// Whether there is a guard of this bus, this register and this sense.
fn has_guard(guards: &[Guard], bus: u8, file: u8, index: u32, inverted: bool) -> bool
    ensures { let added = guard_of bus file index inverted in
        result ≡ list_any (λ g. same_guard g added) guards.now }
{
    guards
        .iter()
        .any(|guard| is_guard(*guard, bus, file, index, inverted))
}

/// Whether a guard is that of this bus, this register and this sense.
fn is_guard(guard: Guard, bus: u8, file: u8, index: u32, inverted: bool) -> bool
    ensures { result ≡ same_guard guard (guard_of bus file index inverted) }
{
    guard.bus == bus
        && guard.on.file == file
        && u32::from(guard.on.index) == index
        && is_same(guard.on.inverted, inverted)
}

/// Whether two senses are one.
fn is_same(a: bool, b: bool) -> bool
    ensures { result ≡ is_same a b }
{
    a == b
}

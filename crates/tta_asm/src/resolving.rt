//! What the names of a slot or a long immediate stand for in a machine.

ghost use Rattle.std.specs.Prelude.{◌≡◌, IfOk, IfSome, Ok, is_some, not, option_map, slice_get};
ghost use Rattle.std.specs.Prelude.{true};
ghost use Rattle.tta_parse.specs.Names.{named_in};
ghost use Rattle.tta_parse.specs.Steps.{◌>>?◌, refuse_if};
ghost use Rattle.tta_ops.specs.Set.{stated};
ghost use Rattle.tta_arch.specs.Joins.{joins};
ghost use Rattle.tta_code.specs.Legal.{is_long};
ghost use Rattle.tta_asm.specs.declared.refusal.AsmRefusal.TheVariants.{NoConnection, Range};
ghost use Rattle.tta_asm.specs.Parts.{parts_of};
ghost use Rattle.tta_asm.specs.Resolving.{guard_at, guard_of, fits_bus, move_of, action_of};
ghost use Rattle.tta_asm.specs.Resolving.{template_at, long_of};
ghost use Rattle.tta_asm.specs.Seen.{guard_seen, move_seen, long_seen};

mod dests;
mod sources;

use crate::forms::{GuardForm, LongForm, MoveForm};
use crate::labels::Label;
use crate::parts::Part;
use crate::places::{bus_at, file_at};
use crate::refusal::AsmRefusal;
use crate::resolving::dests::dest_of;
use crate::resolving::sources::{source_of, word_of};
use crate::target::Target;
use tta_arch::{GuardRef, Machine, Source};
use tta_code::{Long, Move};
use tta_parse::Names;

/// The register of a guard, where the part is a file of width 1 that has it.
fn guard_at(m: &Machine, form: &GuardForm, part: Part) -> Option<GuardRef>
    ensures { result ≡ guard_at m.now (guard_seen form.now) part }
{
    let Part::File(file) = part else {
        return None;
    };
    let f = file_at(m, file)?;
    if f.width == 1 && form.index < u32::from(f.size) {
        Some(GuardRef {
            file,
            index: form.index as u8,
            inverted: form.inverted,
        })
    } else {
        None
    }
}

/// The guard of a form, if there is one, where the machine has its register.
fn guard_of(target: &Target, form: &Option<GuardForm>) -> Option<Option<GuardRef>>
    ensures { result ≡ guard_of target.now.machine.now (option_map guard_seen form.now) }
{
    let Some(g) = form else {
        return Some(None);
    };
    let part = target.part(g.file)?;
    let on = guard_at(target.machine, g, part)?;
    Some(Some(on))
}

/// Whether the short field of a bus holds the source, where it is a word.
fn fits_bus(m: &Machine, bus: u8, src: Source) -> bool
    ensures { result ≡ fits_bus m.now bus src }
{
    let Source::Value(word) = src else {
        return true;
    };
    match bus_at(m, bus) {
        Some(b) => b.holds(word),
        None => false,
    }
}

/// A move, unless its word does not fit this bus, which is refused as `Range`, or the bus does not
/// join its ends or does not have its guard, which is refused as `NoConnection`.
fn checked(target: &Target, bus: u8, v: Move) -> Result<Move, AsmRefusal>
    ensures { let m = target.now.machine.now in
        result ≡ refuse_if (not (fits_bus m bus v.src)) Range
        (refuse_if (not (joins m bus v.src v.dst v.guard)) NoConnection (Ok v)) }
{
    if !fits_bus(target.machine, bus, v.src) {
        return Err(AsmRefusal::Range);
    }
    if !target
        .net
        .joins(target.machine, bus, &v.src, &v.dst, &v.guard)
    {
        return Err(AsmRefusal::NoConnection);
    }
    Ok(v)
}

/// The move of a form on this bus.
///
/// It is refused as `Unknown` where the machine has no such guard, then no such destination, then
/// no such source; as `Label` where a name that stands for a word is no label; as `Range` where the
/// word does not fit the bus; and as `NoConnection` where the bus does not join the ends or does
/// not have the guard.
#[tactic(auto, unfolding(crate::specs::Resolving::move_of))]
fn move_of(
    target: &Target,
    labels: &Names<Label>,
    bus: u8,
    form: &MoveForm,
) -> Result<Move, AsmRefusal>
    ensures { result ≡ move_of (stated unit_meaning target.now.units.now)
        target.now.machine.now labels.now bus (move_seen form.now) }
{
    let guard = guard_of(target, &form.guard);
    let dst = dest_of(target, &form.dst);
    let (Some(guard), Some(dst)) = (guard, dst) else {
        return Err(AsmRefusal::Unknown);
    };
    match source_of(target, labels, &form.src) {
        Ok(src) => checked(target, bus, Move { guard, src, dst }),
        Err(refusal) => Err(refusal),
    }
}

/// The move of a slot on this bus, if it has one. It is refused as `move_of` refuses it.
pub fn action_of(
    target: &Target,
    labels: &Names<Label>,
    bus: u8,
    form: &Option<MoveForm>,
) -> Result<Option<Move>, AsmRefusal>
    ensures { result ≡ action_of (stated unit_meaning target.now.units.now)
        target.now.machine.now labels.now bus (option_map move_seen form.now) }
{
    let Some(form) = form else {
        return Ok(None);
    };
    match move_of(target, labels, bus, form) {
        Ok(v) => Ok(Some(v)),
        Err(refusal) => Err(refusal),
    }
}

/// The template that a part is.
fn template_at(part: Part) -> Option<u8>
    ensures { result ≡ template_at part }
{
    match part {
        Part::Template(template) => Some(template),
        _ => None,
    }
}

/// The template of this name.
fn template_named(target: &Target, name: &[u8]) -> Option<u8>
    ensures value { result
        ≡ (named_in (parts_of target.now.machine.now) name.now >>? template_at) }
    ensures there { IfSome result
        (λ k. is_some (slice_get target.now.machine.now.templates k) ≡ true) }
{
    let part = target.part(name)?;
    template_at(part)
}

/// The long immediate of a form. It is refused as `Unknown` where the machine has no such
/// template, and as `Label` where a name that stands for the word is no label.
#[tactic(auto, unfolding(crate::specs::Resolving::long_of))]
pub fn long_of(target: &Target, labels: &Names<Label>, form: &LongForm) -> Result<Long, AsmRefusal>
    ensures value { result ≡ long_of target.now.machine.now labels.now (long_seen form.now) }
    ensures long { IfOk result (λ l. is_long target.now.machine.now l ≡ true) }
{
    let template = template_named(target, form.template).ok_or(AsmRefusal::Unknown)?;
    let value = word_of(labels, &form.value)?;
    Ok(Long { template, value })
}

//! What is told of the counts of a run, as text.

ghost use Rattle.std.specs.Prelude.{◌≡◌, ◌≤◌, ◌<◌, ◌++◌, length, slice_get, All, IfOk, IfSome};
ghost use Rattle.std.specs.Prelude.{OnOk};
ghost use Rattle.std.specs.Option.{option_copied};
ghost use Rattle.tta_ops.specs.Set.{stated};
ghost use Rattle.tta_code.specs.Legal.{IsLegalCode};
ghost use Rattle.tta_profile.specs.Counts.{most_buses};
ghost use Rattle.tta_profile.specs.Report.{passed_text, all_passed_text, hot_text, hot_at_text};
ghost use Rattle.tta_profile.specs.Report.{hottest_text, told_text, IsReport, bus_name};
ghost use Rattle.tta_profile.specs.Report.{is_guarded, count_text, times_text, outside_text};

use crate::counts::Counts;
use crate::hot::{Hot, hottest};
use crate::sums::cycles_sum;
use crate::uses::{Profiled, push_number, push_share, push_uses};
use std::alloc::{AllocError, Global};
use tta_arch::Machine;
use tta_code::{Code, Instruction, Move};
use tta_disasm::push_instruction;
use tta_ops::UnitSet;

/// The name of a bus, and no bytes where the machine has no such bus.
fn bus_name(m: &Machine, bus: usize) -> &[u8]
    ensures { result.now ≡ bus_name m.now bus }
{
    match m.buses.as_slice().get(bus) {
        None => b"",
        Some(b) => b.name.as_bytes(),
    }
}

/// Whether a slot has a move with a guard.
fn is_guarded(slot: Option<Move>) -> bool
    ensures { result ≡ is_guarded slot }
{
    match slot {
        None => false,
        Some(v) => v.guard.is_some(),
    }
}

/// Puts how often the move of a bus was passed over.
#[tactic(auto, unfolding(crate::specs::Report::count_text))]
fn push_count(out: &mut Vec<u8>, name: &[u8], n: u64) -> Result<(), AllocError>
    ensures { OnOk result (out.new.items ≡ out.old.items ++ count_text name.now n) }
{
    out.extend_from_slice(b" passed ")?;
    out.extend_from_slice(name)?;
    out.extend_from_slice(b" ")?;
    push_number(out, u128::from(n))
}

/// The same, if it has a guard.
fn push_passed(
    out: &mut Vec<u8>,
    profiled: &Profiled<'_>,
    address: u32,
    bus: usize,
    slot: Option<Move>,
) -> Result<(), AllocError>
    requires low { bus < most_buses }
    requires few { address < 65536 }
    ensures { OnOk result (out.new.items ≡ out.old.items
        ++ passed_text profiled.now.m.now profiled.now.counts.now address bus slot) }
{
    if is_guarded(slot) {
        let passed = profiled.counts.passed(address as usize, bus);
        push_count(out, bus_name(profiled.m, bus), passed)
    } else {
        Ok(())
    }
}

/// Puts how often each move of an instruction was passed over that has a guard.
fn push_all_passed(
    out: &mut Vec<u8>,
    profiled: &Profiled<'_>,
    address: u32,
    slots: &[Option<Move>],
) -> Result<(), AllocError>
    requires low { length slots.now ≤ most_buses }
    requires few { address < 65536 }
    ensures { OnOk result (out.new.items ≡ out.old.items
        ++ all_passed_text profiled.now.m.now profiled.now.counts.now address slots.now) }
{
    for (bus, slot) in slots.iter().enumerate() {
        push_passed(out, profiled, address, bus, *slot)?;
    }
    Ok(())
}

/// Puts how often an instruction was carried out.
#[tactic(auto, unfolding(crate::specs::Report::times_text))]
fn push_times(out: &mut Vec<u8>, profiled: &Profiled<'_>, address: u32) -> Result<(), AllocError>
    ensures { OnOk result (out.new.items ≡ out.old.items
        ++ times_text profiled.now.counts.now profiled.now.whole address) }
{
    out.extend_from_slice(b"at ")?;
    push_number(out, u128::from(address))?;
    out.extend_from_slice(b" times ")?;
    push_share(
        out,
        u128::from(profiled.counts.times(address)),
        profiled.whole,
    )
}

/// Puts how many accesses were outside, if some were.
#[tactic(auto, unfolding(crate::specs::Report::outside_text))]
fn push_outside(out: &mut Vec<u8>, n: u128) -> Result<(), AllocError>
    ensures { OnOk result (out.new.items ≡ out.old.items ++ outside_text n) }
{
    if n == 0 {
        return Ok(());
    }
    out.extend_from_slice(b" outside ")?;
    push_number(out, n)
}

/// Puts an instruction: its address, how often it was carried out, what was passed over, its accesses
/// outside the spaces, and its assembly.
#[tactic(auto, unfolding(crate::specs::Report::hot_text))]
fn push_hot(
    out: &mut Vec<u8>,
    units: &UnitSet,
    profiled: &Profiled<'_>,
    address: u32,
    i: &Instruction,
) -> Result<(), AllocError>
    requires low { length i.now.moves ≤ most_buses }
    requires few { address < 65536 }
    ensures { let U = stated unit_meaning units.now in
        OnOk result (out.new.items ≡ out.old.items
        ++ hot_text U profiled.now.m.now profiled.now.counts.now profiled.now.whole address i.now) }
{
    push_times(out, profiled, address)?;
    push_all_passed(out, profiled, address, i.moves.as_slice())?;
    push_outside(out, profiled.counts.outside(address))?;
    out.extend_from_slice(b" : ")?;
    push_instruction(out, units, profiled.m, i)
}

/// The instruction of an address, if there is one.
fn instruction_at(words: &[Instruction], address: u32) -> Option<&Instruction>
    requires low { All (λ i. length i.moves ≤ most_buses) words.now }
    ensures is { option_copied result ≡ slice_get words.now address }
    ensures low { IfSome result (λ i. length i.now.moves ≤ most_buses) }
    ensures within { IfSome result (λ i. address < length words.now) }
{
    words.get(address as usize)
}

/// Puts the instruction of an address.
fn push_hot_at(
    out: &mut Vec<u8>,
    units: &UnitSet,
    profiled: &Profiled<'_>,
    h: Hot,
) -> Result<(), AllocError>
    requires few { length profiled.now.words.now ≤ 65536 }
    requires low { All (λ i. length i.moves ≤ most_buses) profiled.now.words.now }
    ensures { let U = stated unit_meaning units.now in
        OnOk result (out.new.items ≡ out.old.items
        ++ hot_at_text U profiled.now.m.now profiled.now.counts.now profiled.now.words.now
        profiled.now.whole h) }
{
    match instruction_at(profiled.words, h.address) {
        Some(i) => push_hot(out, units, profiled, h.address, i),
        None => Ok(()),
    }
}

/// Puts instructions in this order.
fn push_hottest(
    out: &mut Vec<u8>,
    units: &UnitSet,
    profiled: &Profiled<'_>,
    order: &[Hot],
) -> Result<(), AllocError>
    requires few { length profiled.now.words.now ≤ 65536 }
    requires low { All (λ i. length i.moves ≤ most_buses) profiled.now.words.now }
    ensures { let U = stated unit_meaning units.now in
        OnOk result (out.new.items ≡ out.old.items ++ hottest_text U
        profiled.now.m.now profiled.now.counts.now profiled.now.words.now
        profiled.now.whole order.now) }
{
    for h in order {
        push_hot_at(out, units, profiled, *h)?;
    }
    Ok(())
}

/// Puts all that is told, with the instructions in this order.
#[tactic(auto, unfolding(crate::specs::Report::told_text))]
fn push_told(
    out: &mut Vec<u8>,
    units: &UnitSet,
    profiled: &Profiled<'_>,
    order: &[Hot],
) -> Result<(), AllocError>
    requires few { length profiled.now.words.now ≤ 65536 }
    requires low { All (λ i. length i.moves ≤ most_buses) profiled.now.words.now }
    ensures { let U = stated unit_meaning units.now in
        OnOk result (out.new.items ≡ out.old.items ++ told_text U
        profiled.now.m.now profiled.now.words.now profiled.now.counts.now
        profiled.now.whole order.now) }
{
    push_uses(out, profiled)?;
    push_hottest(out, units, profiled, order)
}

/// The instructions of legal code.
pub fn words_of<'a>(m: &Machine, code: &'a Code) -> &'a [Instruction]
    requires { IsLegalCode m.now code.now }
    ensures words { result.now ≡ code.now.words }
    ensures few { length result.now ≤ 65536 }
    ensures low { All (λ i. length i.moves ≤ most_buses) result.now }
{
    // A machine has at most 65,536 addresses, and legal code no more instructions.
    let fits = code.words.len() <= m.addresses() as usize;
    prove!(fits);
    code.words.as_slice()
}

/// What is told of the counts of a run of code, as text: how many cycles it made, how many moves each
/// bus carried, how many operations each unit started, and the instructions that were carried out,
/// the hottest first. It fails only where there is no memory.
pub fn tell_counts(
    alloc: Global,
    m: &Machine,
    units: &UnitSet,
    code: &Code,
    counts: &Counts,
) -> Result<Vec<u8>, AllocError>
    requires legal { IsLegalCode m.now code.now }
    requires size { length counts.now.executed ≡ length code.now.words }
    ensures { let U = stated unit_meaning units.now in
        IfOk result (λ v. IsReport U m.now code.now.words counts.now v.items) }
{
    let words = words_of(m, code);
    let order = hottest(alloc, counts)?;
    let profiled = Profiled {
        m,
        words,
        counts,
        whole: cycles_sum(counts.executed()),
    };
    let mut out = Vec::new(alloc);
    push_told(&mut out, units, &profiled, order.as_slice())?;
    Ok(out)
}

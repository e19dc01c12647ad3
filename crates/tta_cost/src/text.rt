//! What is told of a machine's circuit, as text.

ghost use Rattle.std.specs.Prelude.{◌≡◌, ◌++◌, List, [], ℕ, IfOk, OnOk, length};
ghost use Rattle.tta_code.specs.Legal.{IsLegalCode};
ghost use Rattle.tta_cost.specs.CostText as t;
ghost use Rattle.tta_cost.specs.Laws.{DepthsAre};
ghost use Rattle.tta_cost.specs.Operations.{operation_depths};
ghost use Rattle.tta_hardware.specs.Hardware as h;
ghost use Rattle.tta_ops.specs.Set.{stated};

use crate::lines::{end_line, push_count, push_pair};
use crate::on::On;
use crate::operations::operation_depths;
use crate::parts::Parts;
use crate::spaces::parts_of;
use std::alloc::{AllocError, Global};
use tta_arch::{BusFields, File, Layout, Machine};
use tta_code::Whole;
use tta_measure::{CHOICE, Cost, EQUAL, GATE, PRODUCT, QUOTIENT, READ, SHIFT, SUM};
use tta_ops::UnitSet;

/// Puts how many bits a memory has.
#[tactic(auto, unfolding(crate::specs::CostText::memory_text))]
fn push_memory(out: &mut Vec<u8>, name: &[u8], bits: u64) -> Result<(), AllocError>
    ensures { OnOk result (out.new.items ≡ out.old.items ++ t.memory_text name.now bits) }
{
    out.extend_from_slice(b"memory ")?;
    out.extend_from_slice(name)?;
    push_count(out, b" bits ", bits)?;
    end_line(out)
}

/// How many moves of a cycle all files let read them.
#[tactic(auto, unfolding(tta_measure::specs::Cost::plus))]
fn reads(files: &[File]) -> u64
    ensures { result ≡ t.reads files.now }
{
    match files {
        [] => 0,
        [f, rest @ ..] => u64::from(f.read).saturating_add(reads(rest)),
    }
}

/// How many moves of a cycle they let write them.
#[tactic(auto, unfolding(tta_measure::specs::Cost::plus))]
fn writes(files: &[File]) -> u64
    ensures { result ≡ t.writes files.now }
{
    match files {
        [] => 0,
        [f, rest @ ..] => u64::from(f.write).saturating_add(writes(rest)),
    }
}

/// From how many sources buses take words, bus by bus.
#[tactic(auto, unfolding(tta_measure::specs::Cost::plus))]
fn source_joints(buses: &[BusFields]) -> u64
    ensures { result ≡ t.source_joints buses.now }
{
    match buses {
        [] => 0,
        [f, rest @ ..] => (f.sources.len() as u64).saturating_add(source_joints(rest)),
    }
}

/// To how many destinations they bring them.
#[tactic(auto, unfolding(tta_measure::specs::Cost::plus))]
fn dest_joints(buses: &[BusFields]) -> u64
    ensures { result ≡ t.dest_joints buses.now }
{
    match buses {
        [] => 0,
        [f, rest @ ..] => (f.dests.len() as u64).saturating_add(dest_joints(rest)),
    }
}

/// Puts the width of an instruction.
#[tactic(auto, unfolding(crate::specs::CostText::instruction_text))]
fn push_instruction(out: &mut Vec<u8>, width: u32) -> Result<(), AllocError>
    ensures { OnOk result (out.new.items ≡ out.old.items ++ t.instruction_text width) }
{
    push_count(out, b"instruction ", u64::from(width))?;
    end_line(out)
}

/// Puts the ports of files.
fn push_ports(out: &mut Vec<u8>, files: &[File]) -> Result<(), AllocError>
    ensures { OnOk result (out.new.items ≡ out.old.items ++ t.ports_text files.now) }
{
    push_pair(out, b"ports read ", reads(files), b" write ", writes(files))
}

/// Puts the joints of buses.
fn push_joints(out: &mut Vec<u8>, buses: &[BusFields]) -> Result<(), AllocError>
    ensures { OnOk result (out.new.items ≡ out.old.items ++ t.joints_text buses.now) }
{
    let sources = source_joints(buses);
    let dests = dest_joints(buses);
    push_pair(out, b"joints sources ", sources, b" destinations ", dests)
}

/// Puts what is told of a machine besides its circuit.
#[tactic(auto, unfolding(crate::specs::CostText::machine_text))]
fn push_machine(out: &mut Vec<u8>, on: &On<'_>) -> Result<(), AllocError>
    ensures { OnOk result (out.new.items ≡ out.old.items ++ t.machine_text on.now.m.now) }
{
    let m = on.m;
    push_instruction(out, on.layout.width())?;
    push_ports(out, m.files.as_slice())?;
    push_joints(out, on.layout.buses.as_slice())
}

/// Puts a part.
#[tactic(auto, unfolding(crate::specs::CostText::part_text))]
fn push_part(out: &mut Vec<u8>, name: &[u8], cost: Cost) -> Result<(), AllocError>
    ensures { OnOk result (out.new.items ≡ out.old.items ++ t.part_text name.now cost) }
{
    out.extend_from_slice(b"part ")?;
    out.extend_from_slice(name)?;
    push_count(out, b" bits ", cost.bits)?;
    push_count(out, b" choices ", cost.choices)?;
    push_count(out, b" depth ", cost.depth)?;
    end_line(out)
}

/// Puts the parts that move words.
#[tactic(auto, unfolding(crate::specs::CostText::moving_text))]
fn push_moving(out: &mut Vec<u8>, parts: &Parts) -> Result<(), AllocError>
    ensures { OnOk result (out.new.items ≡ out.old.items ++ t.moving_text parts.now) }
{
    push_part(out, b"instruction", parts.instruction)?;
    push_part(out, b"buses", parts.buses)?;
    push_part(out, b"files", parts.files)?;
    push_part(out, b"immediates", parts.immediates)
}

/// Puts those that work on them.
#[tactic(auto, unfolding(crate::specs::CostText::working_text))]
fn push_working(out: &mut Vec<u8>, parts: &Parts) -> Result<(), AllocError>
    ensures { OnOk result (out.new.items ≡ out.old.items ++ t.working_text parts.now) }
{
    push_part(out, b"operands", parts.operands)?;
    push_part(out, b"results", parts.results)?;
    push_part(out, b"control", parts.control)?;
    push_part(out, b"spaces", parts.spaces)
}

/// Puts all parts, and all of them together.
#[tactic(auto, unfolding(crate::specs::CostText::parts_text))]
fn push_parts(out: &mut Vec<u8>, parts: &Parts) -> Result<(), AllocError>
    ensures { OnOk result (out.new.items ≡ out.old.items ++ t.parts_text parts.now) }
{
    push_moving(out, parts)?;
    push_working(out, parts)?;
    push_part(out, b"all", parts.all())
}

/// Puts the depths of what takes longer than a sum.
#[tactic(auto, unfolding(crate::specs::CostText::long_text))]
fn push_long(out: &mut Vec<u8>) -> Result<(), AllocError>
    ensures { OnOk result (out.new.items ≡ out.old.items ++ t.long_text) }
{
    push_count(out, b" shift ", SHIFT)?;
    push_count(out, b" product ", PRODUCT)?;
    push_count(out, b" quotient ", QUOTIENT)?;
    push_count(out, b" memory ", READ)?;
    end_line(out)
}

/// Puts the depths of gates, and of what tells equal words.
#[tactic(auto, unfolding(crate::specs::CostText::short_text))]
fn push_short(out: &mut Vec<u8>) -> Result<(), AllocError>
    ensures { OnOk result (out.new.items ≡ out.old.items ++ t.short_text) }
{
    push_count(out, b" gate ", GATE)?;
    push_count(out, b" equal ", EQUAL)?;
    push_count(out, b" sum ", SUM)
}

/// Puts the depths of what the longest path goes through.
#[tactic(auto, unfolding(crate::specs::CostText::table_text))]
fn push_table(out: &mut Vec<u8>) -> Result<(), AllocError>
    ensures { OnOk result (out.new.items ≡ out.old.items ++ t.table_text) }
{
    push_count(out, b"depths choice ", CHOICE)?;
    push_short(out)?;
    push_long(out)
}

/// Puts the memories, where the code has so many words.
#[tactic(auto, unfolding(crate::specs::CostText::spaces_text))]
fn push_spaces(out: &mut Vec<u8>, on: &On<'_>, words: u32) -> Result<(), AllocError>
    ensures { OnOk result (out.new.items ≡ out.old.items ++ t.spaces_text on.now.m.now words) }
{
    let m = on.m;
    let bits = u64::from(on.layout.width());
    push_memory(out, b"code", bits * u64::from(words))?;
    push_memory(out, b"data", 32 * u64::from(m.data_words))?;
    push_memory(out, b"frame", 32 * u64::from(m.frame_words))
}

/// Puts what is told of the circuit of a machine whose code has so many words.
#[tactic(auto, unfolding(crate::specs::CostText::circuit_text))]
fn push_circuit(alloc: Global, out: &mut Vec<u8>, on: &On<'_>, words: u32) -> Result<(), AllocError>
    ensures { OnOk result (out.new.items ≡ out.old.items
        ++ t.circuit_text on.now.applied.now on.now.m.now words) }
{
    let parts = parts_of(alloc, on)?;
    push_spaces(out, on, words)?;
    push_parts(out, &parts)?;
    push_table(out)
}

/// Puts all that is told of a machine whose code has so many words.
#[tactic(auto, unfolding(crate::specs::CostText::told_text))]
fn push_told(alloc: Global, out: &mut Vec<u8>, on: &On<'_>, words: u32) -> Result<(), AllocError>
    ensures { OnOk result
        (out.new.items ≡ out.old.items ++ t.told_text on.now.applied.now on.now.m.now words) }
{
    push_machine(out, on)?;
    push_circuit(alloc, out, on, words)
}

/// What is told of the circuit of a machine whose code has so many words.
fn tell(alloc: Global, m: &Machine, units: &UnitSet, words: u32) -> Result<Vec<u8>, AllocError>
    ensures { let U = stated unit_meaning units.now in
        IfOk result (λ v. v.items ≡ t.told_text (operation_depths U) m.now words) }
{
    let layout = Layout::of(alloc, m)?;
    let applied = operation_depths(alloc, units)?;
    let on = On {
        m,
        layout: &layout,
        applied: applied.as_slice(),
    };
    let mut out = Vec::new(alloc);
    push_told(alloc, &mut out, &on, words)?;
    Ok(out)
}

/// What the circuit of a machine without code is made of, as text, whatever its data space begins with.
/// It fails only where there is no memory.
pub fn tell_machine(alloc: Global, m: &Machine, units: &UnitSet) -> Result<Vec<u8>, AllocError>
    ensures { let U = stated unit_meaning units.now in
        (DATA : List ℕ) → length DATA ≡ m.now.data_words
        → IfOk result (λ v. v.items ≡ t.cost_text U m.now (h.circuit_with m.now [] DATA)) }
{
    tell(alloc, m, units, 0)
}

/// How many words code has.
fn word_count(m: &Machine, whole: &Whole) -> u32
    requires legal { IsLegalCode m.now whole.now.code }
    ensures { result ≡ length whole.now.code.words }
{
    // An address has at most 16 bits by the rules of a machine.
    m.rules();
    whole.code.words.len() as u32
}

/// What the circuit of a machine with code is made of, as text, whatever its data space begins with.
/// It fails only where there is no memory.
pub fn tell_code(
    alloc: Global,
    m: &Machine,
    units: &UnitSet,
    whole: &Whole,
) -> Result<Vec<u8>, AllocError>
    requires legal { IsLegalCode m.now whole.now.code }
    ensures { let U = stated unit_meaning units.now in
        (DATA : List ℕ) → length DATA ≡ m.now.data_words
        → IfOk result (λ v. v.items ≡ t.cost_text U m.now (h.circuit_of m.now whole.now.code DATA)) }
{
    tell(alloc, m, units, word_count(m, whole))
}

/// The depths that are counted with are those of the circuit: those of inputs and registers are 0, and
/// that of a wire is that of its word.
pub fn depths_are()
    ensures { DepthsAre }
{}

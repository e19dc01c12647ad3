//! The number of the fault that the next cycle meets.

ghost use Rattle.std.specs.Prelude.{◌≡◌, ◌+◌, ◌≤◌, ◌<◌, ◌^◌, ◌++◌, map, length, OnOk};
ghost use Rattle.std.specs.List.{range_with_len};
ghost use Rattle.tta_circuit.specs.Circuit as c;
ghost use Rattle.tta_hardware.specs.Chains.{any_of, first_of};
ghost use Rattle.tta_hardware.specs.Signals as s;
ghost use Rattle.tta_names.specs.Names.{text_of};
ghost use Rattle.tta_rtl.specs.Texts.{choices};
ghost use Rattle.tta_trap.specs.Watches as t;
ghost use Rattle.tta_trap_rtl.specs.Texts.{case_number, case_test, case_text, fault_text, finding_at, lack_at};

use crate::findings::{Finding, push_finding_at};
use crate::lacks::push_lack_at;
use crate::names::start_watch;
use crate::numbers::{
    CLASHING_RESULTS, CONTROL_IN_DELAY, FAULT_WIDTH, MISSING_OPERAND, NO_INSTRUCTION, UNSET_PORT,
    UNSET_REGISTER,
};
use crate::reads::Lack;
use std::alloc::AllocError;
use tta_arch::{Bus, Machine, Unit};
use tta_names::{Watch, push_watch};
use tta_rtl::{On, push_underway_name};
use tta_verilog::{push_constant, push_text};

/// A cause of a fault.
#[derive(Clone, Copy)]
pub enum Case {
    /// The address is past the end of the code.
    Outside,
    /// A move reads what has no word.
    Lacks(Lack),
    /// An operation finds what it should not.
    Finds(Finding),
    /// A control move acts while an earlier one is under way.
    Jumps,
}

/// Puts whether the address is not below so many instructions.
#[tactic(auto, unfolding(tta_verilog::specs::Expressions::between, tta_verilog::specs::Expressions::negated))]
fn push_not_below(out: &mut Vec<u8>, m: &Machine, words: usize) -> Result<(), AllocError>
    ensures { OnOk result (out.new.items ≡ out.old.items ++ text_of m.now
        (c.Not (c.Below (c.Signal s.Pc) (c.Const m.now.control.address words)))) }
{
    push_text(out, b"!((n_pc)<(")?;
    push_constant(out, u32::from(m.control.address), words as u64)?;
    push_text(out, b"))")
}

/// Puts whether the address is past the end of code of so many instructions.
#[tactic(auto, unfolding(tta_verilog::specs::Expressions::between))]
fn push_outside(out: &mut Vec<u8>, m: &Machine, words: usize) -> Result<(), AllocError>
    ensures { OnOk result
        (out.new.items ≡ out.old.items ++ text_of m.now (t.is_outside m.now words)) }
{
    if words == m.addresses() as usize {
        return push_watch(out, m, Watch::IsPast);
    }
    push_text(out, b"(")?;
    push_watch(out, m, Watch::IsPast)?;
    push_text(out, b")||(")?;
    push_not_below(out, m, words)?;
    push_text(out, b")")
}

/// Puts whether a move reads what has no word, on one of these buses from one on.
#[tactic(auto, unfolding(tta_verilog::specs::Expressions::between))]
fn push_lacking_from(
    out: &mut Vec<u8>,
    m: &Machine,
    lack: Lack,
    bus: usize,
    buses: &[Bus],
) -> Result<(), AllocError>
    requires room { bus + length buses.now < 2 ^ 64 }
    ensures { OnOk result (out.new.items ≡ out.old.items ++ text_of m.now
        (any_of (map (λ b. c.Signal (s.Watches (lack_at lack b)))
        (range_with_len bus (length buses.now))))) }
{
    match buses {
        [] => push_constant(out, 1, 0),
        [_, rest @ ..] => {
            push_text(out, b"(")?;
            push_lack_at(out, m, lack, bus)?;
            push_text(out, b")||(")?;
            push_lacking_from(out, m, lack, bus + 1, rest)?;
            push_text(out, b")")
        }
    }
}

/// Puts whether an operation finds what it should not, in one of these units from one on.
#[tactic(auto, unfolding(tta_verilog::specs::Expressions::between))]
fn push_finding_from(
    out: &mut Vec<u8>,
    m: &Machine,
    finding: Finding,
    unit: u8,
    units: &[Unit],
) -> Result<(), AllocError>
    requires few { unit + length units.now ≤ 255 }
    ensures { OnOk result (out.new.items ≡ out.old.items ++ text_of m.now
        (any_of (map (λ u. c.Signal (s.Watches (finding_at finding u)))
        (range_with_len unit (length units.now))))) }
{
    match units {
        [] => push_constant(out, 1, 0),
        [_, rest @ ..] => {
            push_text(out, b"(")?;
            push_finding_at(out, m, finding, unit)?;
            push_text(out, b")||(")?;
            push_finding_from(out, m, finding, unit + 1, rest)?;
            push_text(out, b")")
        }
    }
}

/// Puts whether a control move takes effect in so many cycles or one of those after them.
#[tactic(auto, unfolding(tta_verilog::specs::Expressions::between, tta_rtl::specs::Kept::underway_name))]
fn push_underway_from(
    out: &mut Vec<u8>,
    m: &Machine,
    delay: u8,
    count: u8,
) -> Result<(), AllocError>
    requires few { delay + count ≤ 255 }
    ensures { OnOk result (out.new.items ≡ out.old.items ++ text_of m.now
        (any_of (map (λ d. c.Signal (s.Underway d)) (range_with_len delay count)))) }
{
    if count == 0 {
        return push_constant(out, 1, 0);
    }
    push_text(out, b"(")?;
    push_underway_name(out, u64::from(delay))?;
    push_text(out, b")||(")?;
    push_underway_from(out, m, delay + 1, count - 1)?;
    push_text(out, b")")
}

/// Puts whether a control move is under way.
fn push_some_underway(out: &mut Vec<u8>, m: &Machine) -> Result<(), AllocError>
    ensures { let M = m.now in OnOk result (out.new.items ≡ out.old.items ++ text_of M
        (any_of (map (λ d. c.Signal (s.Underway d)) (range_with_len 1 M.control.delay)))) }
{
    push_underway_from(out, m, 1, m.control.delay)
}

/// Puts whether a control move acts while an earlier one is under way.
#[tactic(auto, unfolding(tta_verilog::specs::Expressions::between))]
fn push_jumps_again(out: &mut Vec<u8>, m: &Machine) -> Result<(), AllocError>
    ensures { OnOk result
        (out.new.items ≡ out.old.items ++ text_of m.now (t.jumps_again m.now)) }
{
    push_text(out, b"(n_controls)&&(")?;
    push_some_underway(out, m)?;
    push_text(out, b")")
}

/// Puts whether a cause of a fault is there.
fn push_test(out: &mut Vec<u8>, m: &Machine, words: usize, case: Case) -> Result<(), AllocError>
    ensures { OnOk result
        (out.new.items ≡ out.old.items ++ text_of m.now (case_test m.now words case)) }
{
    match case {
        Case::Outside => push_outside(out, m, words),
        Case::Lacks(lack) => push_lacking_from(out, m, lack, 0, m.buses.as_slice()),
        Case::Finds(finding) => push_finding_from(out, m, finding, 0, m.units.as_slice()),
        Case::Jumps => push_jumps_again(out, m),
    }
}

/// The number of a fault.
fn number_of(case: Case) -> u64
    ensures { result ≡ case_number case }
{
    match case {
        Case::Outside => NO_INSTRUCTION,
        Case::Lacks(Lack::Register) => UNSET_REGISTER,
        Case::Lacks(Lack::Port) => UNSET_PORT,
        Case::Finds(Finding::Operand) => MISSING_OPERAND,
        Case::Finds(Finding::Clash) => CLASHING_RESULTS,
        Case::Jumps => CONTROL_IN_DELAY,
    }
}

/// Puts the number of a fault after the test whether its cause is there, as a choice begins.
#[tactic(auto, unfolding(tta_rtl::specs::Texts::choice_start, crate::specs::Texts::case_text))]
fn push_case(out: &mut Vec<u8>, m: &Machine, words: usize, case: Case) -> Result<(), AllocError>
    ensures { OnOk result (out.new.items ≡ out.old.items ++ case_text m.now words case) }
{
    push_text(out, b"(")?;
    push_test(out, m, words, case)?;
    push_text(out, b")?(")?;
    push_constant(out, FAULT_WIDTH, number_of(case))?;
    push_text(out, b"):")
}

/// Puts the numbers of all faults, each after the test whether its cause is there.
fn push_cases(out: &mut Vec<u8>, m: &Machine, words: usize) -> Result<(), AllocError>
    ensures { OnOk result
        (out.new.items ≡ out.old.items ++ choices m.now (t.fault_choices m.now words)) }
{
    push_case(out, m, words, Case::Outside)?;
    push_case(out, m, words, Case::Lacks(Lack::Register))?;
    push_case(out, m, words, Case::Lacks(Lack::Port))?;
    push_case(out, m, words, Case::Finds(Finding::Operand))?;
    push_case(out, m, words, Case::Finds(Finding::Clash))?;
    push_case(out, m, words, Case::Jumps)
}

/// Puts the number of the first of these whose cause is there, or 0.
fn push_first_case(out: &mut Vec<u8>, m: &Machine, words: usize) -> Result<(), AllocError>
    ensures { OnOk result (out.new.items ≡ out.old.items ++ text_of m.now
        (first_of (t.fault_choices m.now words) (c.Const 7 0))) }
{
    push_cases(out, m, words)?;
    push_constant(out, FAULT_WIDTH, 0)
}

/// Puts the number of the fault that the next cycle meets, or 0.
#[tactic(auto, unfolding(tta_verilog::specs::Expressions::between, tta_verilog::specs::Expressions::choice))]
fn push_fault_number(out: &mut Vec<u8>, m: &Machine, words: usize) -> Result<(), AllocError>
    ensures { OnOk result
        (out.new.items ≡ out.old.items ++ text_of m.now (t.fault_now m.now words)) }
{
    push_text(out, b"((reset)||(n_halted))?(")?;
    push_constant(out, FAULT_WIDTH, 0)?;
    push_text(out, b"):")?;
    push_first_case(out, m, words)
}

/// Puts the wire of that number, with code of so many instructions.
#[tactic(auto, unfolding(tta_rtl::specs::Texts::wire_start, tta_verilog::specs::Circuits::wire_line, crate::specs::Texts::fault_text))]
pub fn push_fault(out: &mut Vec<u8>, on: &On<'_>, words: usize) -> Result<(), AllocError>
    ensures { OnOk result
        (out.new.items ≡ out.old.items ++ fault_text on.now.m.now words) }
{
    start_watch(out, on.m, Watch::Fault, 7)?;
    push_fault_number(out, on.m, words)?;
    push_text(out, b";\n")
}

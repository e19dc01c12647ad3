//! Building code.

ghost use Rattle.std.specs.Prelude.{◌≡◌, None, IfOk, IfErr};
ghost use Rattle.tta_ops.specs.Set.{stated};
ghost use Rattle.tta_arch.specs.Over as arch;
ghost use Rattle.tta_program.specs.Over as program;
ghost use Rattle.tta_program.specs.Program.{first_outside};
ghost use Rattle.tta_build.specs.Value.{IsCompiled};
ghost use Rattle.tta_build.specs.Parts.{IsCodeFor};
ghost use Rattle.tta_build.specs.Statement.{IsBuilt, HasCause};

use crate::covered_code::compile_covered;
use crate::data_order::data_in_order;
use crate::direct::compile_direct;
use crate::direct_pair::is_direct;
use crate::error::BuildError;
use crate::value::Compiled;
use std::alloc::Global;
use tta_arch::Machine;
use tta_code::Whole;
use tta_connect::{Net, TargetMachine};
use tta_ops::UnitSet;
use tta_program::Program;

/// Code that was built, with its data.
#[derive(Drop)]
pub struct Built {
    pub whole: Whole,
}

/// What the compiler makes of a program, from its basic blocks to its code. `build` writes this code,
/// and has its causes.
pub fn compile(
    alloc: Global,
    m: &Machine,
    p: &Program,
    units: &UnitSet,
) -> Result<Compiled, BuildError>
    requires { arch.StandsOver (stated unit_meaning units.now) m.now }
    ensures value { let U = stated unit_meaning units.now in
        IfOk result (λ r. IsCompiled U m.now p.now r) }
    ensures code { let U = stated unit_meaning units.now in
        IfOk result (λ r. IsCodeFor U m.now p.now r.code) }
    ensures cause { let U = stated unit_meaning units.now in
        IfErr result (λ e. HasCause U m.now p.now e) }
{
    let net = Net::of(alloc, m)?;
    let on = TargetMachine {
        machine: m,
        net: &net,
    };
    if is_direct(&on, p) {
        return compile_direct(alloc, &on, p);
    }
    compile_covered(alloc, &on, p, units)
}

/// Code for a machine that does what a program does: from every memory, for every input and for
/// every bound it never faults, it halts where the program does and only there, with the same
/// memory and output, and it waits where the program does.
///
/// Of a direct pair nothing is asked but that the code has room: the program is `main` alone, its
/// steps before `end` only output constants and halt, and the machine brings these constants to its
/// output. Of any other pair the machine has to keep the rules of coverage (`NotCovered`), its
/// usable units have to offer what the program's steps need (`NoUnit`), and its frame space has to
/// have the words that the program needs (`FrameFull`), in this order; and the code must not have
/// more instructions than the machine has addresses (`CodeFull`). It never has more than the plain
/// code: home registers in turn, each block's list after the passes, by first fit.
pub fn build(alloc: Global, m: &Machine, p: &Program, units: &UnitSet) -> Result<Built, BuildError>
    requires machine { arch.StandsOver (stated unit_meaning units.now) m.now }
    requires program { program.StandsOver (stated unit_meaning units.now) p.now }
    requires inside { first_outside m.now.data_words p.now.init ≡ None }
    ensures built { IfOk result (λ b. IsBuilt (stated unit_meaning units.now) m.now p.now b.whole) }
    ensures cause { IfErr result (λ e. HasCause (stated unit_meaning units.now) m.now p.now e) }
{
    let Compiled { code, .. } = compile(alloc, m, p, units)?;
    let init = data_in_order(alloc, p)?;
    Ok(Built {
        whole: Whole { code, init },
    })
}

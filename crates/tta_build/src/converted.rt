//! Building code of a program as it stands, or of the converted program.

ghost use Rattle.std.specs.Prelude.{◌≡◌, None, IfOk, IfErr};
ghost use Rattle.tta_ops.specs.Set.{stated};
ghost use Rattle.tta_arch.specs.Over as arch;
ghost use Rattle.tta_program.specs.Over as program;
ghost use Rattle.tta_program.specs.Program.{first_outside};
ghost use Rattle.tta_build.specs.Converted.{IsBuiltWith, HasCauseWith};

use crate::error::BuildError;
use crate::program::{Built, build};
use std::alloc::Global;
use tta_arch::Machine;
use tta_ifconv::convert;
use tta_ops::UnitSet;
use tta_program::Program;

/// Code for a machine that does what a program does: as `build`, of the program as it stands or,
/// where it `converts`, of the converted program, in which each branch over one copy is a copy
/// under the opposite condition. Of that a cycle takes at most twice as many steps as the program
/// has, and the code is packed for the converted program. It is refused as `build` refuses the
/// program, but for code that has no room: that is the code of the converted program, whose plain
/// code does not fit either.
pub fn build_with(
    alloc: Global,
    m: &Machine,
    p: &Program,
    units: &UnitSet,
    converts: bool,
) -> Result<Built, BuildError>
    requires machine { arch.StandsOver (stated unit_meaning units.now) m.now }
    requires program { program.StandsOver (stated unit_meaning units.now) p.now }
    requires inside { first_outside m.now.data_words p.now.init ≡ None }
    ensures built { let U = stated unit_meaning units.now in
        IfOk result (λ b. IsBuiltWith converts U m.now p.now b.whole) }
    ensures cause { let U = stated unit_meaning units.now in
        IfErr result (λ e. HasCauseWith converts U m.now p.now e) }
{
    if !converts {
        return build(alloc, m, p, units);
    }
    p.rules();
    let q = convert(alloc, p)?;
    match build(alloc, m, &q, units) {
        Ok(built) => Ok(built),
        Err(error) => Err(error),
    }
}

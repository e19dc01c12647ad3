//! The view of a run of a program: its code is built as `build` does, and then run.

ghost use Rattle.std.specs.Prelude.{◌≡◌, ◌+◌, ◌<◌, ◌^◌, ℕ, List, [], None, length, IfOk};
ghost use Rattle.tta_list.specs.Laid.{over};
ghost use Rattle.tta_ops.specs.Set.{stated};
ghost use Rattle.tta_arch.specs.Over as machines;
ghost use Rattle.tta_program.specs.Over as programs;
ghost use Rattle.tta_program.specs.Program.{data_of};
ghost use Rattle.tta_code.specs.Cycle.{State, start};
ghost use Rattle.tta_sim.specs.Held.{Stands, IsRunOf};
ghost use Rattle.tta_stages.specs.Stages.{AreStages};
ghost use Rattle.tta_stages.specs.Text.{stages_text};
ghost use Rattle.tta_origins.specs.Statement.{origins_text};
ghost use Rattle.tta_play.specs.Statement.{page_after};
ghost use Rattle.tta_load.specs.Held.{MadeEnds, no_memory};
ghost use Rattle.tta_inspect.specs.Spans.{first_of};
ghost use Rattle.tta_inspect.specs.Stages.{IsCauseOf};
ghost use Rattle.tta_inspect.specs.Runs.{IsCompiledShown, IsProgramShown};

use crate::names::RunRequest;
use crate::staging::ending_of;
use crate::view::RunView;
use std::alloc::{AllocError, Global};
use tta_block_profile::{Compiled, profile_blocks};
use tta_load::{Given, MachineFile, Status};
use tta_ops::UnitSet;
use tta_origins::tell_origins;
use tta_play::{ProgramTexts, Span, play_after};
use tta_profile::Basis;
use tta_program::{Program, lay_lines};
use tta_sim::Sim;
use tta_stages::{stages_of, tell_stages};
use tta_waves::waves;

/// Loads the code of a program for a run from data words, with the program's data laid over them.
fn load_compiled(alloc: Global, on: &Compiled<'_>, memory: Vec<u32>) -> Result<Sim, AllocError>
    requires size { length memory.items ≡ on.now.m.now.data_words }
    requires stages { AreStages (stated unit_meaning on.now.units.now) on.now.m.now on.now.p.now
        on.now.stages.now }
    ensures start { IfOk result (λ r. (input : List ℕ)
        → Stands r (start on.now.m.now (over (data_of on.now.p.now) memory.items) input)) }
    ensures loaded { IfOk result (λ r. IsRunOf on.now.m.now on.now.stages.now.code r) }
{
    let mut laid = memory;
    lay_lines(on.p, &mut laid);
    Sim::load(alloc, on.m, &on.stages.code, laid)
}

/// The page that plays a run of the code of a program, with what is told of its stages, and of the lines and
/// variables of each block of the code.
fn play_program(
    alloc: Global,
    on: &Compiled<'_>,
    sim: &mut Sim,
    words: &[u32],
    span: Span,
) -> Result<Vec<u8>, AllocError>
    requires loaded { IsRunOf on.now.m.now on.now.stages.now.code sim.old }
    requires few { sim.old.cycle + span.first + span.bound < 2 ^ 62 }
    requires stages { AreStages (stated unit_meaning on.now.units.now) on.now.m.now on.now.p.now
        on.now.stages.now }
    requires program { programs.StandsOver (stated unit_meaning on.now.units.now) on.now.p.now }
    ensures { let U = stated unit_meaning on.now.units.now in
        let told = stages_text U on.now.m.now on.now.p.now on.now.stages.now in
        let origins = origins_text on.now.m.now on.now.p.now on.now.stages.now in
        (s : State) → Stands sim.old s → s.pending ≡ None → s.rest ≡ words.now
        → IfOk result (λ v. v.items ≡ page_after U on.now.m.now on.now.stages.now.code told
        origins s span.first span.bound) }
{
    let basis = Basis {
        m: on.m,
        code: &on.stages.code,
        units: on.units,
    };
    let stages = tell_stages(alloc, on.m, on.p, on.units, on.stages)?;
    let origins = tell_origins(alloc, on)?;
    let told = ProgramTexts {
        stages: stages.as_slice(),
        origins: origins.as_slice(),
    };
    play_after(alloc, &basis, &told, sim, words, span)
}

/// The view of a run of the code of a program.
fn text_of_blocks(
    alloc: Global,
    on: &Compiled<'_>,
    view: RunView,
    sim: &mut Sim,
    words: &[u32],
    bound: u64,
) -> Result<Vec<u8>, Status>
    requires loaded { IsRunOf on.now.m.now on.now.stages.now.code sim.old }
    requires few { sim.old.cycle + first_of view + bound < 2 ^ 62 }
    requires stages { AreStages (stated unit_meaning on.now.units.now) on.now.m.now on.now.p.now
        on.now.stages.now }
    requires program { programs.StandsOver (stated unit_meaning on.now.units.now) on.now.p.now }
    ensures { let U = stated unit_meaning on.now.units.now in
        (s : State) → Stands sim.old s → s.written ≡ [] → s.pending ≡ None → s.rest ≡ words.now
        → MadeEnds (IsCompiledShown U view on.now.m.now on.now.p.now on.now.stages.now s bound)
        no_memory (λ v. v.items) result }
{
    let basis = Basis {
        m: on.m,
        code: &on.stages.code,
        units: on.units,
    };
    let text = match view {
        RunView::Profile => profile_blocks(alloc, on, sim, words, bound),
        RunView::Play => play_program(alloc, on, sim, words, Span { first: 0, bound }),
        RunView::PlayAfter(first) => play_program(alloc, on, sim, words, Span { first, bound }),
        RunView::Waves => waves(alloc, &basis, sim, words, bound),
    };
    match text {
        Ok(text) => Ok(text),
        Err(_) => Err(Status::NoMemory),
    }
}

/// The view of a run of the code of a program from what it is given.
fn text_of_compiled(
    alloc: Global,
    on: &Compiled<'_>,
    given: Given,
    request: &RunRequest<'_>,
) -> Result<Vec<u8>, Status>
    requires bound { request.now.bound < 2 ^ 48 }
    requires early { first_of request.now.view < 2 ^ 48 }
    requires size { length given.memory.items ≡ on.now.m.now.data_words }
    requires stages { AreStages (stated unit_meaning on.now.units.now) on.now.m.now on.now.p.now
        on.now.stages.now }
    requires program { programs.StandsOver (stated unit_meaning on.now.units.now) on.now.p.now }
    ensures { let U = stated unit_meaning on.now.units.now in
        MadeEnds (IsCompiledShown U request.now.view on.now.m.now on.now.p.now on.now.stages.now
        (start on.now.m.now (over (data_of on.now.p.now) given.memory.items) given.words.items)
        request.now.bound) no_memory (λ v. v.items) result }
{
    let Given { memory, words } = given;
    match load_compiled(alloc, on, memory) {
        Ok(mut sim) => {
            let words = words.as_slice();
            text_of_blocks(alloc, on, request.view, &mut sim, words, request.bound)
        }
        Err(_) => Err(Status::NoMemory),
    }
}

/// The view of a run of a program on a machine from what it is given: its code is built and run.
pub fn text_of_program(
    alloc: Global,
    units: &UnitSet,
    file: &MachineFile,
    program: &Program,
    given: Given,
    request: &RunRequest<'_>,
) -> Result<Vec<u8>, Status>
    requires bound { request.now.bound < 2 ^ 48 }
    requires early { first_of request.now.view < 2 ^ 48 }
    requires size { length given.memory.items ≡ file.now.machine.data_words }
    requires machine { machines.StandsOver (stated unit_meaning units.now) file.now.machine }
    requires program { programs.StandsOver (stated unit_meaning units.now) program.now }
    ensures { let U = stated unit_meaning units.now in
        MadeEnds (IsProgramShown U request.now.view request.now.bound file.now program.now
        given.memory.items given.words.items) (IsCauseOf U file.now.machine program.now)
        (λ v. v.items) result }
{
    match stages_of(alloc, &file.machine, program, units) {
        Ok(stages) => {
            let on = Compiled {
                m: &file.machine,
                p: program,
                units,
                stages: &stages,
            };
            text_of_compiled(alloc, &on, given, request)
        }
        Err(error) => Err(ending_of(error, units, &file.machine, program)),
    }
}

//! The commands.

ghost use Rattle.std.specs.Prelude.{map, Some};
ghost use Rattle.std.specs.String.{string_bytes};
ghost use Rattle.tta_ops.specs.Set.{stated};
ghost use Rattle.tta_tool.specs.Request.{asked, request_of};
ghost use Rattle.tta_tool.specs.Command.{Ends};

use crate::asm::assemble_image;
use crate::build::build_image;
use crate::checking::check_image;
use crate::debugging::debug_image;
use crate::dis::show_image;
use crate::exec::exec_program;
use crate::ifconv::convert_program;
use crate::request::Request;
use crate::running::run_image;
use crate::sampling::sample_on;
use std::alloc::Global;
use tta_load::Status;
use tta_net_command::run_net;
use tta_ops::UnitSet;
use tta_ports::{Files, Sink};

/// Carries out what is asked for.
fn carry_out<F: Files, S: Sink>(
    alloc: Global,
    request: &Request<'_>,
    units: &UnitSet,
    files: &mut F,
    sink: &mut S,
) -> Status
    ensures { Ends (stated unit_meaning units.now) (Some (asked request.now))
        (F.world files.old) (F.world files.new) (S.output sink.old) (S.output sink.new) result }
{
    match request {
        Request::Build(request) => build_image(alloc, units, files, request),
        Request::Asm(names) => assemble_image(alloc, units, files, names),
        Request::Dis(names) => show_image(alloc, units, files, names),
        Request::Check(names) => check_image(alloc, units, files, sink, names),
        Request::Exec(run) => exec_program(alloc, units, files, sink, run),
        Request::Run(run) => run_image(alloc, units, files, sink, run),
        Request::Debug(session) => debug_image(alloc, units, files, sink, session),
        Request::Sample(sample) => sample_on(alloc, units, files, sink, sample),
        Request::Ifconv(names) => convert_program(alloc, units, files, names),
        Request::Net(net) => run_net(alloc, units, files, sink, net),
    }
}

/// Carries out the command that the words ask for, the first of them the command's name, over these
/// operation units, files and output.
///
/// `build M P OUT` compiles the program of the file P for the machine of the file M and makes OUT
/// hold the image. Where it is refused, every file is as it was, but after a fault of the write OUT
/// may hold a prefix of an image. It outputs nothing.
///
/// `build M P OUT convert` does the same with the converted program, in which each branch over one
/// copy is a copy under the opposite condition. `ifconv P OUT` makes OUT hold the printed text of
/// the converted program, and is otherwise as `build`.
///
/// `asm M A OUT` reads the assembly of the file A for the machine of the file M and makes OUT hold
/// the image of its code. `dis M IMG OUT` makes OUT hold the canonical assembly of the image in the
/// file IMG. Both are otherwise as `build`.
///
/// `check M IMG` tells of the code of the image in the file IMG whether any run of it on the machine of
/// the file M can fault. It outputs the line `safe` where none can, and else nothing. It changes no
/// file.
///
/// `exec M P IN N` runs the program of the file P for at most N steps, from the words of the file
/// IN in the data space of the machine of the file M. It outputs each word as it comes, then how
/// the run ended, the data words that are not 0 and the number of steps. Where it is refused, it
/// outputs nothing. It changes no file.
///
/// `run M IMG IN N` runs the code of the image in the file IMG on the machine of the file M for at
/// most N cycles, and is otherwise as `exec`, with the number of cycles in place of that of steps.
///
/// `debug M IMG IN SCRIPT` carries out the commands of the file SCRIPT over the run of such code, and
/// outputs their replies. It changes no file.
///
/// `sample SEED LINES M` makes the program of a seed with so many body lines, compiles it for the
/// machine of the file M, runs both from data words of 0, and outputs a summary. It changes no file.
///
/// `net N LINKS` with three words M, IMG and IN for each of one to eight cores runs the code of each
/// image on its machine. The outputs of a core are the input of the core that the file LINKS names. In
/// a round each core by its number makes one cycle; it makes at most N rounds, and stops after the
/// first in which no core ran. It outputs of each core its number, the words that it has output, and
/// how its last turn ended. It changes no file.
///
/// `exec`, `run` and `debug` may have one more word, the file of the input, which is read last. Where
/// a run takes a word of the input and none is left, it waits.
pub fn tool<F: Files, S: Sink>(
    alloc: Global,
    words: &Vec<String>,
    units: &UnitSet,
    files: &mut F,
    sink: &mut S,
) -> Status
    ensures ends { Ends (stated unit_meaning units.now)
        (request_of (map (λ w. string_bytes w) words.now.items))
        (F.world files.old) (F.world files.new) (S.output sink.old) (S.output sink.new) result }
{
    match Request::of(words) {
        Some(request) => carry_out(alloc, &request, units, files, sink),
        None => Status::Usage,
    }
}

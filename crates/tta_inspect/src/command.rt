//! Putting the view that the words ask for.

ghost use Rattle.std.specs.Prelude.{◌≡◌, map, true, Some, IfOk};
ghost use Rattle.std.specs.String.{string_bytes};
ghost use Rattle.tta_ops.specs.Set.{stated};
ghost use Rattle.tta_code.specs.Legal.{IsLegalCode};
ghost use Rattle.tta_code.specs.Whole.{fits};
ghost use Rattle.tta_load.specs.Held.{MadeEnds, no_memory};
ghost use Rattle.tta_inspect.specs.Request.{OfMachine, OfInfo, asked, request_of};
ghost use Rattle.tta_inspect.specs.Views.{machine_view, told_of};
ghost use Rattle.tta_inspect.specs.Command.{Ends, Shows};

use crate::costing::{put_cost, tell_cost};
use crate::drawing::put_picture;
use crate::joining::put_net;
use crate::names::{InfoRequest, MachineRequest};
use crate::prompting::prompt_image;
use crate::request::Request;
use crate::running::run_subject;
use crate::staging::put_stages;
use crate::view::View;
use crate::writing::put_circuit;
use std::alloc::{AllocError, Global};
use tta_draw::draw_machine;
use tta_info::{tell_image, tell_machine};
use tta_load::{CodePair, MachineFile, Status, image_pair, machine_file, put_made};
use tta_ops::UnitSet;
use tta_ports::{Files, Sink};
use tta_stdin::Lines;

/// The text of a view of a machine. It fails only where there is no memory.
fn view_text(
    alloc: Global,
    units: &UnitSet,
    file: &MachineFile,
    view: View,
) -> Result<Vec<u8>, AllocError>
    ensures { let U = stated unit_meaning units.now in
        IfOk result (λ v. v.items ≡ machine_view U view file.now) }
{
    match view {
        View::Picture => draw_machine(alloc, &file.machine, units),
        View::Info => tell_machine(alloc, &file.machine),
        View::Cost => tell_cost(alloc, units, file),
    }
}

/// The text of a view of a machine.
fn text_of_machine(
    alloc: Global,
    units: &UnitSet,
    file: &MachineFile,
    view: View,
) -> Result<Vec<u8>, Status>
    ensures { let U = stated unit_meaning units.now in
        MadeEnds (λ text. text ≡ machine_view U view file.now) no_memory (λ v. v.items) result }
{
    match view_text(alloc, units, file, view) {
        Ok(text) => Ok(text),
        Err(_) => Err(Status::NoMemory),
    }
}

/// What is told of an image for a machine.
fn text_of_image(alloc: Global, pair: &CodePair) -> Result<Vec<u8>, Status>
    requires legal { IsLegalCode pair.now.file.machine pair.now.whole.code }
    requires inside { fits pair.now.file.machine.data_words pair.now.whole.init ≡ true }
    ensures { MadeEnds (λ text. text ≡ told_of pair.now.file pair.now.whole) no_memory
        (λ v. v.items) result }
{
    match tell_image(alloc, &pair.file.machine, &pair.file.digest, &pair.whole) {
        Ok(text) => Ok(text),
        Err(_) => Err(Status::NoMemory),
    }
}

/// Puts a view of the machine of the file that word 1 names.
fn put_machine<F: Files, S: Sink>(
    alloc: Global,
    units: &UnitSet,
    files: &mut F,
    sink: &mut S,
    names: &MachineRequest<'_>,
) -> Status
    ensures { Ends (stated unit_meaning units.now)
        (Some (OfMachine names.now.view names.now.machine.now))
        (F.world files.old) (F.world files.new) (S.output sink.old) (S.output sink.new) result }
{
    match machine_file(alloc, units, files, names.machine, 1) {
        Ok(file) => {
            let made = text_of_machine(alloc, units, &file, names.view);
            put_made(sink, made)
        }
        Err(status) => status,
    }
}

/// Puts what is told of the image that word 2 names, for the machine that word 1 names.
fn put_info<F: Files, S: Sink>(
    alloc: Global,
    units: &UnitSet,
    files: &mut F,
    sink: &mut S,
    names: &InfoRequest<'_>,
) -> Status
    ensures { Ends (stated unit_meaning units.now)
        (Some (OfInfo names.now.machine.now names.now.image.now))
        (F.world files.old) (F.world files.new) (S.output sink.old) (S.output sink.new) result }
{
    match image_pair(alloc, units, files, names.machine, names.image) {
        Ok(pair) => {
            let made = text_of_image(alloc, &pair);
            put_made(sink, made)
        }
        Err(status) => status,
    }
}

/// Carries out what is asked for.
fn carry_out<F: Files, L: Lines, S: Sink>(
    alloc: Global,
    request: &Request<'_>,
    units: &UnitSet,
    files: &mut F,
    lines: &mut L,
    sink: &mut S,
) -> Status
    ensures { Shows (stated unit_meaning units.now) (Some (asked request.now))
        (F.world files.old) (F.world files.new) (L.come lines.old) (L.come lines.new)
        (S.output sink.old) (S.output sink.new) result }
{
    match request {
        Request::Machine(names) => put_machine(alloc, units, files, sink, names),
        Request::Info(names) => put_info(alloc, units, files, sink, names),
        Request::Picture(names) => put_picture(alloc, units, files, sink, names),
        Request::Run(run) => run_subject(alloc, units, files, sink, run),
        Request::Prompt(names) => prompt_image(alloc, units, files, lines, sink, names),
        Request::Stages(names) => put_stages(alloc, units, files, sink, names),
        Request::Rtl(names) => put_circuit(alloc, units, files, sink, names),
        Request::Cost(names) => put_cost(alloc, units, files, sink, names),
        Request::Net(request) => put_net(alloc, units, files, sink, request),
    }
}

/// Carries out the command that the words ask for, the first of them the command's name, over these
/// operation units, files, lines and output.
///
/// `picture M` outputs the picture of the machine of the file M, and `picture M IMG` that of the code
/// of the image in the file IMG for it; `picture M P` that of the code that `build` makes of the program
/// of the file P, with its blocks and their lines beside it. `info M` outputs what is told of that
/// machine: the bits of the fields of its instructions, the words that fit into them, what its buses
/// join, its registers, and what `build` chooses on it or the rule that it breaks; and `info M IMG` what
/// is told of that image: how many instructions, bytes and data it has, and its digest.
///
/// `profile M IMG IN N` runs the code of that image for at most N cycles, from the words of the file IN
/// in the machine's data space, and outputs where the cycles go: how many moves each bus carried, how
/// many operations each unit started, and the instructions that were carried out, the hottest first.
/// `play M IMG IN N` outputs a page of HTML that plays the first N cycles, or 400 where N is more; with
/// `from K` behind it plays those after the first K.
/// `waves M IMG IN N` outputs a value change dump of the machine's signals over the first N cycles, or
/// 65,536 where N is more. All three may have one more word behind N, the file of the input. They take a
/// program P in the place of the image: its code is built as `build` does and run, and `profile` tells of
/// its blocks in the place of instructions, the costliest first.
///
/// `stages M P` outputs what `build` does on the way from the program of the file P to code for the
/// machine of the file M: blocks, homes, register code, the lists of each block, and the code.
///
/// `rtl M IMG` outputs the circuit of that machine with the code and data of that image, as a module of
/// Verilog; and `rtl M P` that with the code that `build` makes of that program, and its data. With the word
/// `rom=file` behind it the module takes the words of the code from the file `code.hex`, which is what is
/// output with `rom=words`. With `faults`, which may stand before `rom=file`, the module tells the first
/// fault and stops there. With `modules`, which may stand there too, divisions and operations of one's own
/// that take several cycles are made by modules beside it.
/// `rtl net DEPTHS LINKS M IMG IN ..` outputs the circuits of cores, three files for each, that are joined
/// by queues as the links of the file LINKS say, with as many words in each queue as DEPTHS says.
///
/// `cost M` outputs what the circuit of that machine is made of, part by part: bits of registers, choices
/// between two bits, and the longest path; and `cost M F` that with the code of the image, or of the
/// program, of the file F, as `rtl M F` takes it.
///
/// The output takes a text in one piece, and nothing where there is none. No file changes.
///
/// `prompt M IMG IN` carries out a session of the debugger over such a run: each line that comes is a
/// command, and the output takes what is replied to it before the next line is asked for. It may have one
/// more word, the file of the input.
pub fn show<F: Files, L: Lines, S: Sink>(
    alloc: Global,
    words: &Vec<String>,
    units: &UnitSet,
    files: &mut F,
    lines: &mut L,
    sink: &mut S,
) -> Status
    ensures ends { Shows (stated unit_meaning units.now)
        (request_of (map (λ w. string_bytes w) words.now.items))
        (F.world files.old) (F.world files.new) (L.come lines.old) (L.come lines.new)
        (S.output sink.old) (S.output sink.new) result }
{
    match Request::of(words) {
        Some(request) => carry_out(alloc, &request, units, files, lines, sink),
        None => Status::Usage,
    }
}

//! The files of a net: the links of its cores, and three for each core.

ghost use Rattle.std.specs.Prelude.{◌≡◌, ◌+◌, ◌*◌, ◌≤◌, ◌<◌, ◌^◌, length, map, IfOk};
ghost use Rattle.std.specs.String.{string_bytes};
ghost use Rattle.tta_ops.specs.Set.{stated};
ghost use Rattle.tta_list.specs.Laid.{over};
ghost use Rattle.tta_code.specs.Legal.{IsLegalCode};
ghost use Rattle.tta_code.specs.Whole.{data_in};
ghost use Rattle.tta_net.specs.Loaded.{CanLoad};
ghost use Rattle.tta_load.specs.Held.{TakesBytes, FileEnds};
ghost use Rattle.tta_load.specs.Machines.{IsDescribed, RefusesMachine};
ghost use Rattle.tta_load.specs.Images.{IsImageFor, RefusesImage};
ghost use Rattle.tta_load.specs.Inputs.{Fills, RefusesInput};
ghost use Rattle.tta_net_command.specs.CoreFiles.{AreLinks, RefusesLinks, name_of, word_of, as_core};
ghost use Rattle.tta_net_command.specs.CoreFiles.{CoreFileEnds, CorePairEnds, CoreEnds};

use crate::request::FILES;
use std::alloc::Global;
use tta_code::{Whole, lay};
use tta_load::{
    CodePair, MachineFile, Status, data_words, input_file, machine_file, read_file, whole_file,
};
use tta_net::Core;
use tta_ops::UnitSet;
use tta_ports::Files;
use tta_topology::{LinksError, read_links};

// ---- links

/// The links of so many cores that a file's bytes are: which core feeds each.
fn links_of(alloc: Global, bytes: &[u8], count: u8) -> Result<Vec<Option<u8>>, Status>
    requires short { length bytes.now ≤ 2 ^ 24 }
    requires few { count ≤ 8 }
    ensures takes { TakesBytes (AreLinks count) (RefusesLinks count) bytes.now
        (λ v. v.items) result }
    ensures count { IfOk result (λ v. length v.items ≡ count) }
{
    match read_links(alloc, bytes, count) {
        Ok(feeds) => Ok(feeds),
        Err(LinksError::Refused { line, code }) => Err(Status::BadLinks { line, code }),
        Err(LinksError::NoMemory) => Err(Status::NoMemory),
    }
}

/// The links of so many cores that the file of word 2 holds.
pub fn links_file<F: Files>(
    alloc: Global,
    files: &mut F,
    name: &str,
    count: u8,
) -> Result<Vec<Option<u8>>, Status>
    requires few { count ≤ 8 }
    ensures ends { FileEnds (AreLinks count) (RefusesLinks count) name.now 2
        (F.world files.old) (F.world files.new) (λ v. v.items) result }
    ensures count { IfOk result (λ v. length v.items ≡ count) }
{
    let bytes = read_file(files, name, 2)?;
    links_of(alloc, bytes.as_slice(), count)
}

// ---- one file of a core

/// The number of the refusal of the words of a core's data space.
const BAD_WORDS: u8 = 85;

/// How the command ends where the file of a core that a word names is not taken: a refusal is told by
/// the word and the number of the refusal.
fn as_core(word: u8, told: Status) -> Status
    ensures { result ≡ as_core word told }
{
    match told {
        Status::BadMachine { code, .. } => Status::BadCore { word, code },
        Status::BadImage { code, .. } => Status::BadCore { word, code },
        Status::BadInput { .. } => Status::BadCore {
            word,
            code: BAD_WORDS,
        },
        other => other,
    }
}

/// The name of a core's file: its machine is the first (0), its image the second (1), and the words of
/// its data space are the third (2).
fn name_at(names: &[String], core: u8, part: u8) -> &str
    requires { 3 * core + part < length names.now }
    ensures { result.now ≡ name_of (map (λ w. string_bytes w) names.now) core part }
{
    names[FILES * usize::from(core) + usize::from(part)].as_str()
}

/// The word of the command line that has it.
fn word_at(core: u8, part: u8) -> u8
    requires core { core < 8 }
    requires part { part < 3 }
    ensures { result ≡ word_of core part }
{
    FILES as u8 * core + part + 3
}

/// The machine of a core's file that a word names.
fn core_machine<F: Files>(
    alloc: Global,
    units: &UnitSet,
    files: &mut F,
    name: &str,
    word: u8,
) -> Result<MachineFile, Status>
    ensures { let U = stated unit_meaning units.now in
        CoreFileEnds (IsDescribed U) (RefusesMachine U) name.now word
        (F.world files.old) (F.world files.new) (λ f. f) result }
{
    match machine_file(alloc, units, files, name, word) {
        Ok(file) => Ok(file),
        Err(told) => Err(as_core(word, told)),
    }
}

/// The code with its data of a core's file that a word names, for the core's machine.
fn core_code<F: Files>(
    alloc: Global,
    files: &mut F,
    name: &str,
    word: u8,
    file: &MachineFile,
) -> Result<Whole, Status>
    ensures { CoreFileEnds (IsImageFor file.now) (RefusesImage file.now) name.now word
        (F.world files.old) (F.world files.new) (λ w. w) result }
{
    match whole_file(alloc, files, name, word, file) {
        Ok(whole) => Ok(whole),
        Err(told) => Err(as_core(word, told)),
    }
}

/// The words of a core's file that a word names, which fill a data space of so many.
fn core_words<F: Files>(
    alloc: Global,
    files: &mut F,
    name: &str,
    word: u8,
    space: u32,
) -> Result<Vec<u32>, Status>
    ensures ends { CoreFileEnds (Fills space) (RefusesInput space) name.now word
        (F.world files.old) (F.world files.new) (λ v. v.items) result }
    ensures whole { IfOk result (λ v. length v.items ≡ space) }
{
    match input_file(alloc, files, name, word, space) {
        Ok(words) => Ok(words),
        Err(told) => Err(as_core(word, told)),
    }
}

// ---- one core

/// A core, and the words of its data space at first.
#[derive(Drop)]
pub struct CoreFile {
    pub core: Core,
    pub memory: Vec<u32>,
}

/// The machine of a core, and the code with its data for it.
fn core_pair<F: Files>(
    alloc: Global,
    units: &UnitSet,
    files: &mut F,
    names: &[String],
    core: u8,
) -> Result<CodePair, Status>
    requires few { core < 8 }
    requires names { 3 * core + 2 < length names.now }
    ensures ends { let U = stated unit_meaning units.now in
        CorePairEnds U (map (λ w. string_bytes w) names.now) core
        (F.world files.old) (F.world files.new) (λ p. p.file) (λ p. p.whole) result }
    ensures legal { IfOk result (λ p. IsLegalCode p.file.machine p.whole.code) }
{
    let machine = name_at(names, core, 0);
    let image = name_at(names, core, 1);
    let file = core_machine(alloc, units, files, machine, word_at(core, 0))?;
    let whole = core_code(alloc, files, image, word_at(core, 1), &file)?;
    Ok(CodePair { file, whole })
}

/// A machine with code for it as a core, with the data of the code laid over the words of its data
/// space.
fn put_together(pair: CodePair, words: Vec<u32>) -> CoreFile
    requires size { length words.items ≡ pair.file.machine.data_words }
    requires legal { IsLegalCode pair.file.machine pair.whole.code }
    ensures core { result.core
        ≡ record { machine = pair.file.machine; code = pair.whole.code } }
    ensures memory { result.memory.items ≡ over (data_in pair.whole) words.items }
    ensures load { CanLoad result.core result.memory.items }
{
    let mut memory = words;
    lay(pair.whole.init.as_slice(), &mut memory);
    let CodePair { file, whole } = pair;
    let MachineFile { machine, .. } = file;
    let Whole { code, .. } = whole;
    let core = Core { machine, code };
    CoreFile { core, memory }
}

/// The core of three files, whose names are these.
pub fn core_file<F: Files>(
    alloc: Global,
    units: &UnitSet,
    files: &mut F,
    names: &[String],
    core: u8,
) -> Result<CoreFile, Status>
    requires few { core < 8 }
    requires names { 3 * core + 2 < length names.now }
    ensures ends { let U = stated unit_meaning units.now in
        CoreEnds U (map (λ w. string_bytes w) names.now) core
        (F.world files.old) (F.world files.new) (λ c. c.core) (λ c. c.memory.items) result }
    ensures load { IfOk result (λ c. CanLoad c.core c.memory.items) }
{
    let pair = core_pair(alloc, units, files, names, core)?;
    let space = data_words(&pair.file.machine);
    let input = name_at(names, core, 2);
    let words = core_words(alloc, files, input, word_at(core, 2), space)?;
    Ok(put_together(pair, words))
}

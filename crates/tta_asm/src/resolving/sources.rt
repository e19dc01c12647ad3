//! What values and sources stand for.

ghost use Rattle.std.specs.Prelude.{◌≡◌, Some, is_some};
ghost use Rattle.tta_parse.specs.Names.{named_in};
ghost use Rattle.tta_parse.specs.Steps.{◌>>?◌, only_if};
ghost use Rattle.tta_arch.specs.declared.ends.Source.TheVariants.{Ra};
ghost use Rattle.tta_asm.specs.declared.parts.Part.TheVariants.{File, Imm};
ghost use Rattle.tta_asm.specs.Parts.{parts_of};
ghost use Rattle.tta_asm.specs.Resolving.{word_of, source_at, result_of, source_of};
ghost use Rattle.tta_asm.specs.Seen.{value_seen, source_seen};

use crate::forms::{SourceForm, ValueForm};
use crate::labels::Label;
use crate::parts::Part;
use crate::places::{file_at, imm_at, index_below, unit_at};
use crate::refusal::AsmRefusal;
use crate::target::Target;
use tta_arch::{Machine, Source};
use tta_parse::Names;

/// The word of a value. It is refused as `Label` where a name is no label.
pub fn word_of(labels: &Names<Label>, value: &ValueForm) -> Result<u32, AsmRefusal>
    ensures { result ≡ word_of labels.now (value_seen value.now) }
{
    match *value {
        ValueForm::Constant(word) => Ok(word),
        ValueForm::Label(name) => match labels.get(name) {
            Some(label) => Ok(label.address),
            None => Err(AsmRefusal::Label),
        },
    }
}

/// The register of a file that has this index.
fn file_register(m: &Machine, index: u32, file: u8) -> Option<Source>
    ensures { result ≡ source_at m.now index (File file) }
{
    let f = file_at(m, file)?;
    match index_below(index, f.size) {
        Some(index) => Some(Source::Reg { file, index }),
        None => None,
    }
}

/// The register of an immediate unit that has this index.
fn imm_register(m: &Machine, index: u32, unit: u8) -> Option<Source>
    ensures { result ≡ source_at m.now index (Imm unit) }
{
    let i = imm_at(m, unit)?;
    match index_below(index, i.size) {
        Some(index) => Some(Source::Imm { unit, index }),
        None => None,
    }
}

/// The register of a file or of an immediate unit that has this index.
fn source_at(m: &Machine, index: u32, part: Part) -> Option<Source>
    ensures { result ≡ source_at m.now index part }
{
    match part {
        Part::File(file) => file_register(m, index, file),
        Part::Imm(unit) => imm_register(m, index, unit),
        _ => None,
    }
}

/// The result port of a unit that has one.
fn result_of(m: &Machine, part: Part) -> Option<Source>
    ensures { result ≡ result_of m.now part }
{
    let Part::Unit(unit) = part else {
        return None;
    };
    match unit_at(m, unit) {
        Some(u) if u.result.is_some() => Some(Source::Shown { unit }),
        _ => None,
    }
}

/// The register of this index in the file or immediate unit of this name.
fn source_named(target: &Target, name: &[u8], index: u32) -> Option<Source>
    ensures { result ≡ (named_in (parts_of target.now.machine.now) name.now
        >>? source_at target.now.machine.now index) }
{
    let part = target.part(name)?;
    source_at(target.machine, index, part)
}

/// The result port of the unit of this name.
fn result_named(target: &Target, name: &[u8]) -> Option<Source>
    ensures { result ≡ (named_in (parts_of target.now.machine.now) name.now
        >>? result_of target.now.machine.now) }
{
    let part = target.part(name)?;
    result_of(target.machine, part)
}

/// The source of a form. It is refused as `Label` where a name that stands for a word is no label,
/// and as `Unknown` where the machine has no such source.
pub fn source_of(
    target: &Target,
    labels: &Names<Label>,
    form: &SourceForm,
) -> Result<Source, AsmRefusal>
    ensures { result ≡ source_of target.now.machine.now labels.now (source_seen form.now) }
{
    match *form {
        SourceForm::Value(value) => match word_of(labels, &value) {
            Ok(word) => Ok(Source::Value(word)),
            Err(refusal) => Err(refusal),
        },
        SourceForm::Place { name, index } => {
            source_named(target, name, index).ok_or(AsmRefusal::Unknown)
        }
        SourceForm::Shown { unit } => result_named(target, unit).ok_or(AsmRefusal::Unknown),
        SourceForm::Ra => return_address(target.machine).ok_or(AsmRefusal::Unknown),
    }
}

/// The return address, where it can be read.
fn return_address(m: &Machine) -> Option<Source>
    ensures { result ≡ only_if (is_some m.now.control.ra) (Some Ra) }
{
    if m.control.ra.is_some() {
        Some(Source::Ra)
    } else {
        None
    }
}

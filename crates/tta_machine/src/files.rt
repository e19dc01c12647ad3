//! The declarations of files and immediate units.

ghost use Rattle.std.specs.Prelude.{◌≡◌, ◌<◌, ◌≤◌, false, map, not, ◌||◌, ◌==◌, nat_le, length};
ghost use Rattle.tta_parse.specs.Lines.{plain};
ghost use Rattle.tta_parse.specs.Taken.{Takes};
ghost use Rattle.tta_machine.specs.Forms.{file_form, imm_form};
ghost use Rattle.tta_machine.specs.Declarations.{take_file, take_imm};
ghost use Rattle.tta_machine.specs.Draft.{is_too_long};
ghost use Rattle.tta_arch.specs.Rules.{is_from_to};
ghost use Rattle.tta_machine.specs.Seen.{formed};

use crate::draft::{Draft, Named};
use crate::forms::FileForm;
use crate::limits::{
    MOST_FILES, MOST_IMM_REGISTERS, MOST_IMMS, MOST_PORTS, MOST_REGISTERS, WORD_BITS, is_from_to,
    is_too_long,
};
use crate::lookups::add_part;
use crate::refusal::{LineError, Refusal};
use crate::syntax;
use std::alloc::Global;
use tta_arch::{File, ImmUnit};
use tta_list::Name;
use tta_parse::Word;

impl Draft {
    /// Takes an immediate unit by the words after `imm`. It is refused as `Syntax` where they
    /// have another form, as `Unknown` where its socket is no output socket, as `Twice` where its
    /// name is taken, and as `Range` where it has no register or more than 16, its name is too
    /// long, or 4 immediate units are there.
    #[tactic(auto, unfolding(crate::specs::Declarations::take_imm))]
    pub fn take_imm(&mut self, alloc: Global, words: &[Word]) -> Result<(), LineError>
        ensures { Takes self.new result
            (formed (imm_form (map plain words.now)) (take_imm self.old)) }
    {
        let Some(form) = syntax::imm_form(words) else {
            return Err(LineError::Refused(Refusal::Syntax));
        };
        let Some(out) = self.socket_named(false, form.out) else {
            return Err(LineError::Refused(Refusal::Unknown));
        };
        if self.is_taken(form.name) {
            return Err(LineError::Refused(Refusal::Twice));
        }
        if !is_from_to(1, MOST_IMM_REGISTERS, form.size)
            || is_too_long(form.name)
            || self.imms.len() >= MOST_IMMS
        {
            return Err(LineError::Refused(Refusal::Range));
        }
        let place = Named::Imm(self.imms.len() as u8);
        let size = form.size as u8;
        let Ok(name) = Name::new(alloc, form.name) else {
            return Err(LineError::NoMemory);
        };
        let imm = ImmUnit { name, size, out };
        add_part(
            alloc,
            &mut self.names,
            &mut self.imms,
            form.name,
            place,
            imm,
        )
    }

    /// Takes a file by the words after `file`. It is refused as `Syntax` where they have
    /// another form, as `Unknown` where its sockets are no output and no input socket, as `Twice`
    /// where its name is taken, and as `Range` where a register has other than 1 or 32 bits, it has
    /// no register or more than 64, a cycle has no read or write of it or more than 16, its name is
    /// too long, or 8 files are there.
    #[tactic(auto, unfolding(crate::specs::Declarations::take_file))]
    pub fn take_file(&mut self, alloc: Global, words: &[Word]) -> Result<(), LineError>
        ensures { Takes self.new result
            (formed (file_form (map plain words.now)) (take_file self.old)) }
    {
        let Some(form) = syntax::file_form(words) else {
            return Err(LineError::Refused(Refusal::Syntax));
        };
        let out = self.socket_named(false, form.out);
        let (Some(out), Some(into)) = (out, self.socket_named(true, form.into)) else {
            return Err(LineError::Refused(Refusal::Unknown));
        };
        if self.is_taken(form.name) {
            return Err(LineError::Refused(Refusal::Twice));
        }
        if is_outside(&form, self.files.as_slice()) {
            return Err(LineError::Refused(Refusal::Range));
        }
        let place = Named::File(self.files.len() as u8);
        let Ok(name) = Name::new(alloc, form.name) else {
            return Err(LineError::NoMemory);
        };
        let file = File {
            name,
            width: form.width as u8,
            size: form.size as u8,
            read: form.read as u8,
            write: form.write as u8,
            out,
            into,
        };
        add_part(
            alloc,
            &mut self.names,
            &mut self.files,
            form.name,
            place,
            file,
        )
    }
}

/// Whether a number of a file is outside its range, its name is too long or there are 8 files.
fn is_outside(form: &FileForm, files: &[File]) -> bool
    ensures value { result ≡ (not (form.now.width == 1 || form.now.width == 32)
        || not (is_from_to 1 64 form.now.size) || not (is_from_to 1 16 form.now.read)
        || not (is_from_to 1 16 form.now.write) || is_too_long form.now.name.now
        || nat_le 8 (length files.now)) }
    ensures width { result ≡ false → form.now.width ≤ 32 }
    ensures size { result ≡ false → form.now.size ≤ 64 }
    ensures read { result ≡ false → form.now.read ≤ 16 }
    ensures write { result ≡ false → form.now.write ≤ 16 }
    ensures few { result ≡ false → length files.now < 8 }
{
    !(form.width == 1 || form.width == WORD_BITS)
        || !is_from_to(1, MOST_REGISTERS, form.size)
        || !is_from_to(1, MOST_PORTS, form.read)
        || !is_from_to(1, MOST_PORTS, form.write)
        || is_too_long(form.name)
        || files.len() >= MOST_FILES
}

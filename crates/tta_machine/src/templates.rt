//! The declaration of a template.

ghost use Rattle.std.specs.Prelude.{◌≡◌, ◌<◌, false, length, map, option_map, slice_get};
ghost use Rattle.std.specs.Prelude.{OnOk, IfErr};
ghost use Rattle.tta_parse.specs.Lines.{plain};
ghost use Rattle.tta_parse.specs.declared.line_error.LineError.TheVariants.{NoMemory};
ghost use Rattle.tta_parse.specs.Taken.{Takes};
ghost use Rattle.tta_machine.specs.Forms.{template_form};
ghost use Rattle.tta_machine.specs.Declarations.{take_template};
ghost use Rattle.tta_machine.specs.Draft.{is_taken};
ghost use Rattle.tta_machine.specs.Kept.{IsDraft};
ghost use Rattle.tta_machine.specs.Seen.{formed};
ghost use Rattle.tta_machine.specs.Templates.{with_template};

use crate::draft::{Draft, Named};
use crate::limits::{MOST_TEMPLATES, is_too_long};
use crate::refusal::{LineError, Refusal};
use crate::syntax;
use std::alloc::Global;
use tta_arch::{ImmUnit, Template};
use tta_list::{Name, entry_at};
use tta_parse::Word;

impl Draft {
    /// Takes a template, at this line, by the words after `template`. It is refused as `Syntax`
    /// where they have another form, as `Unknown` where its immediate unit or one of its buses is
    /// not there, as `Twice` where its name is taken or a bus stands twice, and as `Range` where
    /// the unit has no such register, its name is too long, or 8 templates are there.
    #[tactic(auto, unfolding(crate::specs::Declarations::take_template))]
    pub fn take_template(
        &mut self,
        alloc: Global,
        line: u32,
        words: &[Word],
    ) -> Result<(), LineError>
        requires { IsDraft self.old }
        ensures { Takes self.new result
            (formed (template_form (map plain words.now)) (take_template line self.old)) }
    {
        let Some(form) = syntax::template_form(words) else {
            return Err(LineError::Refused(Refusal::Syntax));
        };
        let Some(imm) = self.imm_named(form.imm) else {
            return Err(LineError::Refused(Refusal::Unknown));
        };
        let Some(size) = size_at(self.imms.as_slice(), imm) else {
            return Err(LineError::Refused(Refusal::Unknown));
        };
        let Some(set) = self.set_named(form.buses) else {
            return Err(LineError::Refused(Refusal::Unknown));
        };
        if self.is_taken(form.name) {
            return Err(LineError::Refused(Refusal::Twice));
        }
        let Some(buses) = set else {
            return Err(LineError::Refused(Refusal::Twice));
        };
        if form.index >= u32::from(size)
            || is_too_long(form.name)
            || self.templates.len() >= MOST_TEMPLATES
        {
            return Err(LineError::Refused(Refusal::Range));
        }
        let template = Template {
            name: Name::new(alloc, form.name)?,
            imm,
            reg: form.index as u8,
            buses,
        };
        self.add_template(alloc, line, template)
    }

    /// Puts a template after the others, with its line and its name.
    fn add_template(
        &mut self,
        alloc: Global,
        line: u32,
        template: Template,
    ) -> Result<(), LineError>
        requires free { is_taken self.old template.name ≡ false }
        requires few { length self.old.templates < 8 }
        ensures added { OnOk result (self.new ≡ with_template self.old line template) }
        ensures memory { IfErr result (λ e. e ≡ NoMemory) }
    {
        self.template_lines.push(line)?;
        let place = Named::Template(self.templates.len() as u8);
        self.names.add(alloc, template.name.as_bytes(), place)?;
        self.templates.push(template)?;
        Ok(())
    }
}

/// How many registers the immediate unit at a place has.
fn size_at(imms: &[ImmUnit], place: u8) -> Option<u8>
    ensures { result ≡ option_map (λ i. i.size) (slice_get imms.now place) }
{
    match entry_at(imms, place) {
        Some(imm) => Some(imm.size),
        None => None,
    }
}

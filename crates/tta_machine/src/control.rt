//! The declarations of control and of the spaces.

ghost use Rattle.std.specs.Prelude.{◌≡◌, map, is_some, nat_lt, Ok};
ghost use Rattle.tta_parse.specs.Steps.{refuse_if};
ghost use Rattle.tta_parse.specs.Lines.{plain};
ghost use Rattle.tta_parse.specs.Taken.{Takes};
ghost use Rattle.tta_machine.specs.Forms.{control_form, space_form};
ghost use Rattle.tta_machine.specs.Declarations.{take_control, take_space};
ghost use Rattle.tta_machine.specs.declared.refusal.Refusal.TheVariants.{Twice, Range};
ghost use Rattle.tta_machine.specs.Seen.{formed};

use crate::draft::Draft;
use crate::limits::{MOST_ADDRESS_BITS, MOST_DELAY, is_from_to};
use crate::refusal::{LineError, Refusal};
use crate::syntax;
use tta_arch::Control;
use tta_parse::Word;

/// How many words a data space has at most.
const MOST_DATA_WORDS: u32 = 1 << 20;

/// How many words a frame space has at most.
const MOST_FRAME_WORDS: u32 = 65_536;

impl Draft {
    /// Takes control by the words after `control`. It is refused as `Syntax` where they have
    /// another form, as `Unknown` where the socket of one of its ports is not there in the port's
    /// direction, as `Twice` where control is there already, and as `Range` where its delay is over
    /// 4 or an address has no bit or more than 16.
    #[tactic(auto, unfolding(crate::specs::Declarations::take_control))]
    pub fn take_control(&mut self, words: &[Word]) -> Result<(), LineError>
        ensures { Takes self.new result
            (formed (control_form (map plain words.now)) (take_control self.old)) }
    {
        let Some(form) = syntax::control_form(words) else {
            return Err(LineError::Refused(Refusal::Syntax));
        };
        let trigger = self.socket_named(true, form.trigger);
        let (Some(trigger), Some(ra)) = (trigger, self.port_named(false, form.ra)) else {
            return Err(LineError::Refused(Refusal::Unknown));
        };
        if self.control.is_some() {
            return Err(LineError::Refused(Refusal::Twice));
        }
        if form.delay > MOST_DELAY || !is_from_to(1, MOST_ADDRESS_BITS, form.address) {
            return Err(LineError::Refused(Refusal::Range));
        }
        self.control = Some(Control {
            delay: form.delay as u8,
            address: form.address as u8,
            trigger,
            ra,
        });
        Ok(())
    }

    /// Takes how many words a space has, by the words after `space`. It is refused as `Syntax`
    /// where they have another form, as `Twice` where that is declared already, and as `Range`
    /// where the data space has more than 2^20 words or the frame space more than 65,536.
    #[tactic(auto, unfolding(crate::specs::Declarations::take_space))]
    pub fn take_space(&mut self, words: &[Word]) -> Result<(), LineError>
        ensures { Takes self.new result
            (formed (space_form (map plain words.now)) (take_space self.old)) }
    {
        let Some(form) = syntax::space_form(words) else {
            return Err(LineError::Refused(Refusal::Syntax));
        };
        if form.is_data {
            self.data_words = Some(words_once(self.data_words, MOST_DATA_WORDS, form.size)?);
        } else {
            self.frame_words = Some(words_once(self.frame_words, MOST_FRAME_WORDS, form.size)?);
        }
        Ok(())
    }
}

/// The words of a space that has none declared yet.
fn words_once(declared: Option<u32>, most: u32, size: u32) -> Result<u32, Refusal>
    ensures { result ≡ refuse_if (is_some declared) Twice (
        refuse_if (nat_lt most size) Range (Ok size)) }
{
    if declared.is_some() {
        return Err(Refusal::Twice);
    }
    if size > most {
        return Err(Refusal::Range);
    }
    Ok(size)
}

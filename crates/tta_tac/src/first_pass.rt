//! What each line of a program's text does to the draft.

ghost use Rattle.std.specs.Prelude.{◌≡◌, ◌≤◌, ◌+◌, ◌||◌, false, None};
ghost use Rattle.std.specs.Prelude.{is_some, length, map, IfOk, OnOk};
ghost use Rattle.tta_parse.specs.Lines.{plain, texts};
ghost use Rattle.tta_parse.specs.Names.{named_in};
ghost use Rattle.tta_parse.specs.Taken.{Takes};
ghost use Rattle.tta_ops.specs.Set.{stated};
ghost use Rattle.tta_tac.specs.Draft.{draft_seen, proc_seen, nothing};
ghost use Rattle.tta_tac.specs.DraftRules.{IsDraft};
ghost use Rattle.tta_tac.specs.FirstPass.{take_line, take_form, take_proc, take_label, take_step};
ghost use Rattle.tta_tac.specs.FirstPass.{has_twice, with_fresh, labelled};
ghost use Rattle.tta_tac.specs.FirstPass.{take_data};
ghost use Rattle.tta_tac.specs.Seen.{form_seen};

use crate::begun::MOST_LINES;
use crate::declarations::declare_names;
use crate::draft::{Draft, DraftProc};
use crate::forms::Form;
use crate::initial::InitialData;
use crate::operations::check_op;
use crate::params::{has_twice, is_main_with_params, new_proc};
use crate::refusal::{LineError, Refusal};
use crate::steps::{has_many_args, is_end, step_of};
use crate::syntax::form_of;
use std::alloc::{AllocError, Global};
use tta_list::Items;
use tta_ops::UnitSet;
use tta_parse::{Names, Word};

/// A procedure has at most this many parameters.
const MOST_PARAMS: usize = 8;

impl<'t> Draft<'t> {
    /// The draft before the first line. It takes no memory.
    pub fn new(alloc: Global) -> Self
        ensures value { draft_seen result ≡ nothing }
        ensures rules { IsDraft (draft_seen result) }
    {
        Draft {
            names: Names::new(alloc),
            procs: Items::new(alloc),
            begun: None,
            init: InitialData::new(alloc),
            lines: 0,
        }
    }

    /// Takes the words of a line. A blank one changes nothing, and words that are none of the forms
    /// are refused as `Syntax`; else it is as `take_form` says.
    #[tactic(auto, unfolding(crate::specs::FirstPass::take_line))]
    pub fn take_line(
        &mut self,
        alloc: Global,
        units: &UnitSet,
        line: u32,
        words: &[Word<'t>],
    ) -> Result<(), LineError>
        requires { IsDraft (draft_seen self.old) }
        ensures says { Takes (draft_seen self.new) result (take_line (stated unit_meaning units.now)
            line (draft_seen self.old) (map plain words.now)) }
        ensures rules { OnOk result (IsDraft (draft_seen self.new)) }
    {
        let [key, words @ ..] = words else {
            return Ok(());
        };
        let Some(form) = form_of(key, words) else {
            return Err(LineError::Refused(Refusal::Syntax));
        };
        self.take_form(alloc, units, line, &form)
    }

    /// Takes a line that is not blank. It is refused with the first refusal that it has, in the
    /// order `Syntax`, `UnknownOp`, `Arity`, `Twice`, `TooMany`. After an `Err` the draft is of no
    /// more use.
    pub fn take_form(
        &mut self,
        alloc: Global,
        units: &UnitSet,
        line: u32,
        form: &Form<'_, 't>,
    ) -> Result<(), LineError>
        requires { IsDraft (draft_seen self.old) }
        ensures says { Takes (draft_seen self.new) result (take_form (stated unit_meaning units.now)
            (draft_seen self.old) line (form_seen form.now)) }
        ensures rules { OnOk result (IsDraft (draft_seen self.new)) }
    {
        if let Form::Proc { name, params } = *form {
            return self.take_proc(alloc, line, name, params);
        }
        if let Form::Data { address, value } = *form {
            return self.take_data(line, address, value);
        }
        let Some(proc) = self.begun.take() else {
            return Err(LineError::Refused(Refusal::Syntax));
        };
        if let Form::Label { name } = *form {
            return self.take_label(alloc, proc, name);
        }
        self.take_step(alloc, units, proc, line, form)
    }

    /// Takes a word of data. It is refused as `Syntax` where a procedure has begun and not ended,
    /// as `Twice` where its address has a word already, and as `TooMany` where 65,536 lines were
    /// read.
    fn take_data(&mut self, line: u32, address: u32, value: u32) -> Result<(), LineError>
        requires { IsDraft (draft_seen self.old) }
        ensures { Takes (draft_seen self.new) result
            (take_data (draft_seen self.old) line address value) }
    {
        if self.begun.is_some() {
            return Err(LineError::Refused(Refusal::Syntax));
        }
        if self.init.has(address) {
            return Err(LineError::Refused(Refusal::Twice));
        }
        if self.lines >= MOST_LINES {
            return Err(LineError::Refused(Refusal::TooMany));
        }
        self.init.add(address, value, line)?;
        self.lines += 1;
        Ok(())
    }

    /// Begins a procedure. It is refused as `Syntax` where one has begun and not ended, as `Arity`
    /// where `main` has parameters, as `Twice` where its name or a parameter is there already, and
    /// as `TooMany` where it has more than eight parameters or 65,536 lines were read.
    #[tactic(auto, using(crate::proofs::Seen::procs_seen_length))]
    fn take_proc(
        &mut self,
        alloc: Global,
        line: u32,
        name: &'t [u8],
        params: &[Word<'t>],
    ) -> Result<(), LineError>
        requires { IsDraft (draft_seen self.old) }
        ensures { Takes (draft_seen self.new) result
            (take_proc (draft_seen self.old) line name.now (texts params.now)) }
    {
        if self.begun.is_some() {
            return Err(LineError::Refused(Refusal::Syntax));
        }
        if is_main_with_params(name, params) {
            return Err(LineError::Refused(Refusal::Arity));
        }
        if self.is_taken(alloc, name, params)? {
            return Err(LineError::Refused(Refusal::Twice));
        }
        if self.lines >= MOST_LINES || params.len() > MOST_PARAMS {
            return Err(LineError::Refused(Refusal::TooMany));
        }
        self.begin(alloc, line, name, params)?;
        Ok(())
    }

    /// Begins a procedure that is not refused.
    #[tactic(auto, using(crate::proofs::Seen::procs_seen_length))]
    fn begin(
        &mut self,
        alloc: Global,
        line: u32,
        name: &'t [u8],
        params: &[Word<'t>],
    ) -> Result<(), AllocError>
        requires lines { self.old.lines ≤ 65535 }
        requires procs { length self.old.procs ≤ 65535 }
        requires fresh { named_in self.old.names name.now ≡ None }
        requires few { length params.now ≤ 8 }
        requires once { has_twice (texts params.now) ≡ false }
        ensures { OnOk result (draft_seen self.new ≡
            with_fresh (draft_seen self.old) line name.now (texts params.now)) }
    {
        let number = self.procs.len() as u32;
        self.names.add(alloc, name, number)?;
        let proc = new_proc(alloc, line, params)?;
        self.put_back(proc);
        Ok(())
    }

    /// Puts a procedure that has not ended into the draft, after one line more.
    pub fn put_back(&mut self, proc: DraftProc<'t>)
        requires { self.old.lines ≤ 65535 }
        ensures { draft_seen self.new ≡ labelled (draft_seen self.old) (proc_seen proc.entry) }
    {
        self.begun = Some(proc);
        self.lines += 1;
    }

    /// Whether a procedure has this name already, or a parameter stands twice.
    fn is_taken(&self, alloc: Global, name: &[u8], params: &[Word]) -> Result<bool, AllocError>
        ensures { let named = is_some (named_in self.now.names name.now) in
            IfOk result (λ taken. taken ≡ (named || has_twice (texts params.now))) }
    {
        if self.names.get(name).is_some() {
            return Ok(true);
        }
        let twice = has_twice(alloc, params)?;
        Ok(twice)
    }
}

//! The first line of a procedure: its name and its parameters.

ghost use Rattle.std.specs.Prelude.{◌≡◌, ◌≤◌, ◌&&◌, false, nat_lt, [], IfOk};
ghost use Rattle.std.specs.Prelude.{codes, bytes_eq, length};
ghost use Rattle.tta_parse.specs.Lines.{texts};
ghost use Rattle.tta_tac.specs.Draft.{proc_seen};
ghost use Rattle.tta_tac.specs.FirstPass.{has_twice, numbered};

use crate::draft::DraftProc;
use std::alloc::{AllocError, Global};
use tta_list::Items;
use tta_parse::{Names, Word};

/// Whether a name stands twice among words that are names. It takes time that is linear in the
/// words, and memory for their texts; an `Err` is want of it.
pub fn has_twice(alloc: Global, words: &[Word]) -> Result<bool, AllocError>
    ensures { IfOk result (λ twice. twice ≡ has_twice (texts words.now)) }
{
    let mut seen = Names::new(alloc);
    sees_twice(alloc, words, &mut seen)
}

/// Whether a name stands twice among words, of which none was seen before.
fn sees_twice(alloc: Global, words: &[Word], seen: &mut Names<()>) -> Result<bool, AllocError>
    requires { seen.old ≡ [] }
    ensures { IfOk result (λ twice. twice ≡ has_twice (texts words.now)) }
{
    for word in words {
        if seen.get(word.text).is_some() {
            return Ok(true);
        }
        seen.add(alloc, word.text, ())?;
    }
    Ok(false)
}

/// Names that differ as variables, numbered from 0. An `Err` is out of memory.
pub fn numbered(alloc: Global, words: &[Word]) -> Result<Names<u32>, AllocError>
    requires few { length words.now ≤ 8 }
    requires once { has_twice (texts words.now) ≡ false }
    ensures { IfOk result (λ vars. vars ≡ numbered 0 (texts words.now)) }
{
    let mut vars = Names::new(alloc);
    for word in words {
        let number = vars.len() as u32;
        vars.add(alloc, word.text, number)?;
    }
    Ok(vars)
}

/// Whether a procedure is `main` and has parameters, which it may not.
#[tactic(auto, using(crate::proofs::Seen::texts_length))]
pub fn is_main_with_params(name: &[u8], params: &[Word]) -> bool
    ensures { let count = length (texts params.now) in
        result ≡ (bytes_eq name.now (codes "main") && nat_lt 0 count) }
{
    name == b"main".as_slice() && params.len() > 0
}

/// A procedure of which only the first line was read. An `Err` is out of memory.
#[tactic(auto, using(crate::proofs::Seen::texts_length))]
pub fn new_proc<'t>(alloc: Global, line: u32, params: &[Word]) -> Result<DraftProc<'t>, AllocError>
    requires few { length params.now ≤ 8 }
    requires once { has_twice (texts params.now) ≡ false }
    ensures { IfOk result (λ q. proc_seen q ≡ record {
      line = line;
      params = length (texts params.now);
      vars = numbered 0 (texts params.now);
      labels = [];
      steps = [];
      lines = [];
    }) }
{
    let vars = numbered(alloc, params)?;
    Ok(DraftProc {
        line,
        params: params.len() as u32,
        vars,
        labels: Names::new(alloc),
        steps: Items::new(alloc),
        lines: Items::new(alloc),
    })
}

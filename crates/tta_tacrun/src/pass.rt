//! Operands, and the arguments of a call.

ghost use Rattle.std.specs.Prelude.{◌≡◌, ◌≢◌, ◌<◌, ◌≤◌, [], length, map, slice_index_or, slice_set};
ghost use Rattle.tta_program.specs.Sequential.{operand};
ghost use Rattle.tta_tacrun.specs.Calls.{begun};

use crate::cells::Cells;
use tta_program::Src;

/// The word that an operand stands for.
pub fn value_of(variables: &Cells, s: Src) -> u32
    ensures { result ≡ operand variables.now s }
{
    match s {
        Src::Var(x) => variables.get(x as usize),
        Src::Word(word) => word,
    }
}

/// Makes the variables of a procedure those that it begins with, the arguments being read from
/// the variables of its caller.
pub fn pass(variables: &mut Vec<Cells>, caller: usize, callee: usize, args: &[Src])
    requires caller { caller < length variables.old.items }
    requires callee { callee < length variables.old.items }
    requires other { callee ≢ caller }
    requires fit { length args.now ≤ length (slice_index_or variables.old.items callee []) }
    ensures { let words = map (operand (slice_index_or variables.old.items caller [])) args.now in
        let size = length (slice_index_or variables.old.items callee []) in
        variables.new.items ≡ slice_set variables.old.items callee (begun words size) }
{
    variables[callee].clear();
    for (i, s) in args.iter().enumerate() {
        let word = value_of(&variables[caller], *s);
        variables[callee].set(i, word);
    }
}

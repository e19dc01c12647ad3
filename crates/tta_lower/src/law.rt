//! What holds of the register code of every program.

ghost use Rattle.tta_lower.specs.Law.{LowersWell};
ghost use Rattle.tta_lower.specs.LoweringInput.{AnswersKnow};

/// Register code that is made in the given way has the program's meaning and is closed, and asks for
/// no more than the program.
pub fn lowers_well()
    ensures { LowersWell }
{}

/// What blocks, liveness and homes answer is all that lowering has to know.
pub fn answers_know()
    ensures { AnswersKnow }
{}

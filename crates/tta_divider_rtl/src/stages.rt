//! How many digits stages make.

ghost use Rattle.std.specs.Prelude.{◌≡◌, ◌≤◌, ◌+◌};
ghost use Rattle.tta_divider.specs.Divider as d;

/// How many digits are made before a stage.
#[tactic(auto, unfolding(tta_divider::specs::Divider::made_before))]
fn made_before(stages: u32, stage: u32) -> u32
    requires { stages ≤ 255 × stage ≤ 256 }
    ensures { result ≡ d.made_before stages stage }
{
    32 * stage / (stages + 1)
}

/// How many digits a stage makes.
pub fn made_by(stages: u32, stage: u32) -> u32
    requires { stages ≤ 255 × stage ≤ stages }
    ensures value { result ≡ d.made_by stages stage }
    ensures few { result ≤ 32 }
{
    made_before(stages, stage + 1) - made_before(stages, stage)
}

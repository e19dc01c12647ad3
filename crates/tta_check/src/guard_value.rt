//! Guards whose value is settled.

ghost use Rattle.std.specs.Prelude.{◌≡◌};
ghost use Rattle.tta_check.specs.Steps.{same_register, may};

use tta_arch::GuardRef;

/// A guard with its value: whether it lets its move act.
#[derive(Clone, Copy, Debug)]
pub struct GuardValue {
    pub guard: GuardRef,
    pub acts: bool,
}

/// Whether two guards are of one register.
fn same_register(g: GuardRef, h: GuardRef) -> bool
    ensures { result ≡ same_register g h }
{
    g.file == h.file && g.index == h.index
}

/// Whether a guard's move may act, or may not, where another guard is settled.
pub fn may(settled: Option<GuardValue>, guard: Option<GuardRef>, acts: bool) -> bool
    ensures { result ≡ may settled guard acts }
{
    let Some(g) = guard else {
        return acts;
    };
    match settled {
        None => true,
        Some(s) => {
            if same_register(g, s.guard) {
                acts == ((g.inverted == s.guard.inverted) == s.acts)
            } else {
                true
            }
        }
    }
}

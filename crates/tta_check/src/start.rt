//! What an instruction starts.

ghost use Rattle.std.specs.Prelude.{◌≡◌, ◌<◌, ◌^◌, IsTrue};
ghost use Rattle.std.specs.Option.{option_map};
ghost use Rattle.tta_check.specs.Steps.{aged, port_after, has_latency};

use crate::guard_value::{GuardValue, may};
use crate::state::Port;
use tta_arch::GuardRef;

/// A start of an operation with a result: the guard that may stop it, and its latency in cycles.
#[derive(Clone, Copy, Debug)]
pub struct Start {
    pub guard: Option<GuardRef>,
    pub latency: u8,
}

/// What is kept of a unit one cycle later.
fn aged(port: Port) -> Port
    ensures { result ≡ aged port }
{
    Port {
        early: if 16 <= port.early {
            port.early
        } else {
            port.early.saturating_sub(1)
        },
        late: port.late / 2,
    }
}

/// A word with this bit alone.
fn one_bit(bit: u8) -> u32
    requires { bit < 32 }
    ensures { result ≡ 2 ^ bit }
{
    1 << bit
}

/// What is kept of a unit after a cycle.
pub fn port_after(settled: Option<GuardValue>, start: Option<Start>, port: Port) -> Port
    requires { IsTrue (has_latency start) }
    ensures { result ≡ port_after settled (option_map (λ s. (s.guard, s.latency)) start) port }
{
    let old = aged(port);
    match start {
        None => old,
        Some(s) => Port {
            early: if may(settled, s.guard, false) {
                old.early
            } else {
                old.early.min(s.latency - 1)
            },
            late: if may(settled, s.guard, true) {
                old.late | one_bit(s.latency - 1)
            } else {
                old.late
            },
        },
    }
}

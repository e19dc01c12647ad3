//! Conditions.

ghost use Rattle.std.specs.Prelude.{◌≡◌, option_map};
ghost use Rattle.tta_ops.specs.Set.{stated};
ghost use Rattle.tta_ops.specs.Units.{named};
ghost use Rattle.tta_program.specs.Sequential.{holds, is_odd};

use tta_ops::{OpId, UnitSet};
use tta_program::Rel;

/// The operation of a name. A look at the operation that was found last comes before the search
/// by name, which takes longer.
fn find_again(units: &UnitSet, name: &[u8], last: &mut OpId) -> Option<OpId>
    ensures { option_map (λ op. op.0) result ≡ named (stated unit_meaning units.now) name.now }
{
    let op = *last;
    if (op.0 as usize) < units.len() && units.name(op).as_bytes() == name {
        return Some(op);
    }
    let found = units.find_bytes(name);
    if let Some(op) = found {
        *last = op;
    }
    found
}

/// Whether the operation of a name is odd on two words. It is not where no unit offers it.
fn is_odd_at(units: &UnitSet, name: &[u8], last: &mut OpId, a: u32, b: u32) -> bool
    ensures { result ≡ is_odd (stated unit_meaning units.now) name.now a b }
{
    match find_again(units, name, last) {
        Some(op) => units.apply(op, a, b) % 2 == 1,
        None => false,
    }
}

/// The operations that conditions ask, as they were found last. Their names are looked at each
/// time, so nothing hangs on them but time.
#[derive(Clone, Copy)]
pub struct Relations {
    eq: OpId,
    lt: OpId,
    ltu: OpId,
}

impl Relations {
    /// Relations that rest on the first operation, before the units are asked.
    pub fn new() -> Self {
        Relations {
            eq: OpId(0),
            lt: OpId(0),
            ltu: OpId(0),
        }
    }

    /// Whether a condition holds on two words.
    pub fn is_held(&mut self, units: &UnitSet, rel: Rel, a: u32, b: u32) -> bool
        ensures { result ≡ holds (stated unit_meaning units.now) rel a b }
    {
        match rel {
            Rel::Eq => is_odd_at(units, b"eq".as_slice(), &mut self.eq, a, b),
            Rel::Ne => !is_odd_at(units, b"eq".as_slice(), &mut self.eq, a, b),
            Rel::Lt => is_odd_at(units, b"lt".as_slice(), &mut self.lt, a, b),
            Rel::Ge => !is_odd_at(units, b"lt".as_slice(), &mut self.lt, a, b),
            Rel::Ltu => is_odd_at(units, b"ltu".as_slice(), &mut self.ltu, a, b),
            Rel::Geu => !is_odd_at(units, b"ltu".as_slice(), &mut self.ltu, a, b),
        }
    }
}

//! What is kept of two things. These are written for all types that may be dropped, since a proof of
//! what drops a trail or a program's lists by the names of their parts takes long.

ghost use Rattle.std.specs.Prelude.{◌≡◌, if◌then◌else◌, Ok, Err, IfOk, IfErr};

/// A thing, and another that could have failed: both, or how the other failed.
pub fn beside<T: Drop, U, E>(first: T, other: Result<U, E>) -> Result<(T, U), E>
    ensures first { IfOk result (λ r. r.0 ≡ first) }
    ensures other { IfOk result (λ r. other ≡ Ok r.1) }
    ensures failed { IfErr result (λ e. other ≡ Err e) }
{
    match other {
        Ok(other) => Ok((first, other)),
        Err(e) => Err(e),
    }
}

/// The other of two things where it is taken, and else the first.
pub fn chosen<T: Drop>(takes_other: bool, first: T, other: T) -> T
    ensures { result ≡ (if takes_other then other else first) }
{
    if takes_other { other } else { first }
}

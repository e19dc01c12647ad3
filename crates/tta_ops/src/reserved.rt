//! The words that machine and program texts keep for themselves.

ghost use Rattle.std.specs.Prelude.{◌≡◌, length};
ghost use Rattle.tta_ops.specs.Reserved as spec;

/// Whether machine and program texts keep a word for themselves, so that no unit may call an
/// operation by it, and no name of a program is it.
#[tactic(auto, using(crate::proofs::ReservedWords::of_lengths))]
pub fn is_reserved(name: &[u8]) -> bool
    ensures { result ≡ spec.is_reserved name.now }
{
    match name.len() {
        2 => is_reserved_of_two(name),
        3 => is_reserved_of_three(name),
        4 => is_reserved_of_four(name),
        5 => name == b"store".as_slice(),
        6 => name == b"return".as_slice(),
        _ => false,
    }
}

/// Whether a name of two letters is a reserved word.
#[tactic(auto, using(crate::proofs::ReservedWords::of_two))]
fn is_reserved_of_two(name: &[u8]) -> bool
    requires { length name.now ≡ 2 }
    ensures { result ≡ spec.is_reserved name.now }
{
    name == b"if".as_slice() || name == b"in".as_slice()
}

/// Whether a name of three letters is a reserved word.
#[tactic(auto, using(crate::proofs::ReservedWords::of_three))]
fn is_reserved_of_three(name: &[u8]) -> bool
    requires { length name.now ≡ 3 }
    ensures { result ≡ spec.is_reserved name.now }
{
    name == b"ldw".as_slice()
        || name == b"stw".as_slice()
        || name == b"ldf".as_slice()
        || name == b"stf".as_slice()
        || name == b"end".as_slice()
        || name == b"out".as_slice()
}

/// Whether a name of four letters is a reserved word.
#[tactic(auto, using(crate::proofs::ReservedWords::of_four))]
fn is_reserved_of_four(name: &[u8]) -> bool
    requires { length name.now ≡ 4 }
    ensures { result ≡ spec.is_reserved name.now }
{
    name == b"jump".as_slice()
        || name == b"proc".as_slice()
        || name == b"goto".as_slice()
        || name == b"when".as_slice()
        || name == b"data".as_slice()
        || name == b"load".as_slice()
        || name == b"call".as_slice()
        || name == b"halt".as_slice()
}

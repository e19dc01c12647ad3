//! Program points: where walks stand.

ghost use Rattle.std.specs.Prelude.{◌≡◌, ◌+◌, ◌<◌, ◌^◌};
ghost use Rattle.std.specs.Option.{option_map};
ghost use Rattle.tta_check.specs.ProgramPoints.{under_after, point_of, leads};
ghost use Rattle.tta_check.specs.Tables.{same_kind, same_under, same_point};
ghost use Rattle.tta_check.specs.Going.{kind_as, under_as, point_as, event_as};

/// What control is made to do.
#[derive(Clone, Copy, Debug)]
pub enum Kind {
    Jumps,
    Calls,
    Halts,
}

/// What control is made to do, and the word that is moved to it.
#[derive(Clone, Copy, Debug)]
pub struct Event {
    pub kind: Kind,
    pub word: u32,
}

/// A control move under way.
#[derive(Clone, Copy, Debug)]
pub struct Under {
    /// How many instructions after this one are carried out before it takes effect.
    pub left: u8,
    pub event: Event,
}

/// A program point: an address, and the control move under way.
#[derive(Clone, Copy, Debug)]
pub struct ProgramPoint {
    pub address: u32,
    pub under: Option<Under>,
}

/// What is under way after control is triggered, or is not.
pub fn under_after(delay: u8, under: Option<Under>, event: Option<Event>) -> Option<Under>
    ensures { option_map under_as result
        ≡ under_after delay (option_map under_as under) (option_map event_as event) }
{
    match event {
        None => under,
        Some(e) => Some(Under {
            left: delay,
            event: e,
        }),
    }
}

/// Where walks go on with this control move under way after an instruction, if they do.
pub fn point_after(address: u32, under: Option<Under>) -> Option<ProgramPoint>
    requires { address + 1 < 2 ^ 32 }
    ensures { option_map point_as result ≡ point_of address (option_map under_as under) }
{
    let Some(u) = under else {
        return Some(ProgramPoint {
            address: address + 1,
            under: None,
        });
    };
    if u.left == 0 {
        return leads(u.event);
    }
    Some(ProgramPoint {
        address: address + 1,
        under: Some(Under {
            left: u.left - 1,
            event: u.event,
        }),
    })
}

/// Where a control move leads that takes effect.
fn leads(event: Event) -> Option<ProgramPoint>
    ensures { option_map point_as result ≡ leads (kind_as event.kind) event.word }
{
    match event.kind {
        Kind::Jumps | Kind::Calls => Some(ProgramPoint {
            address: event.word,
            under: None,
        }),
        Kind::Halts => None,
    }
}

/// Whether two kinds are one.
fn same_kind(a: Kind, b: Kind) -> bool
    ensures { result ≡ same_kind (kind_as a) (kind_as b) }
{
    match a {
        Kind::Jumps => matches!(b, Kind::Jumps),
        Kind::Calls => matches!(b, Kind::Calls),
        Kind::Halts => matches!(b, Kind::Halts),
    }
}

/// Whether the same control move is under way.
fn same_under(a: Option<Under>, b: Option<Under>) -> bool
    ensures { result ≡ same_under (option_map under_as a) (option_map under_as b) }
{
    match a {
        None => b.is_none(),
        Some(u) => match b {
            None => false,
            Some(v) => {
                u.left == v.left
                    && (same_kind(u.event.kind, v.event.kind) && u.event.word == v.event.word)
            }
        },
    }
}

/// Whether two program points are one.
pub fn same_point(a: ProgramPoint, b: ProgramPoint) -> bool
    ensures { result ≡ same_point (point_as a) (point_as b) }
{
    a.address == b.address && same_under(a.under, b.under)
}

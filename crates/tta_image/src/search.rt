//! Where sources and destinations stand in the lists of a bus. The lists are in order, so a search
//! need not walk them.

ghost use Rattle.std.specs.Prelude.{◌≡◌, nat_lt};
ghost use Rattle.std.specs.List.{position};
ghost use Rattle.tta_arch.specs.Fields.{same_source, same_dest};
ghost use Rattle.tta_image.specs.Ranks.{source_rank, dest_rank, Rising, IsPlaceOf};

use tta_arch::{Dest, Source};

/// How far apart the ranks of two parts stand: more than one part has registers or operations.
const APART: u32 = 256;

/// The first rank of what comes second: of immediate units, or of the ports of units.
const SECOND: u32 = 4096;

/// The first rank of result ports.
const RESULTS: u32 = 8192;

/// The first rank of what comes last: the return address and words, or what control can do.
const LAST: u32 = 16_384;

/// Whether two sources are one.
fn same_source(a: Source, b: Source) -> bool
    ensures { result ≡ same_source a b }
{
    match (a, b) {
        (Source::Reg { file: f, index: i }, Source::Reg { file: g, index: j }) => f == g && i == j,
        (Source::Imm { unit: f, index: i }, Source::Imm { unit: g, index: j }) => f == g && i == j,
        (Source::Shown { unit: u }, Source::Shown { unit: v }) => u == v,
        (Source::Ra, Source::Ra) => true,
        (Source::Value(x), Source::Value(y)) => x == y,
        _ => false,
    }
}

/// Whether two destinations are one.
fn same_dest(a: Dest, b: Dest) -> bool
    ensures { result ≡ same_dest a b }
{
    match (a, b) {
        (Dest::Reg { file: f, index: i }, Dest::Reg { file: g, index: j }) => f == g && i == j,
        (Dest::Operand { unit: u }, Dest::Operand { unit: v }) => u == v,
        (Dest::Trigger { unit: u, op: i }, Dest::Trigger { unit: v, op: j }) => u == v && i == j,
        (Dest::Jump, Dest::Jump) | (Dest::Call, Dest::Call) | (Dest::Halt, Dest::Halt) => true,
        _ => false,
    }
}

/// A number that says where a source stands in the order.
fn source_rank(src: Source) -> u32
    ensures { result ≡ source_rank src }
{
    match src {
        Source::Reg { file, index } => u32::from(file) * APART + u32::from(index),
        Source::Imm { unit, index } => SECOND + u32::from(unit) * APART + u32::from(index),
        Source::Shown { unit } => RESULTS + u32::from(unit),
        Source::Ra => LAST,
        Source::Value(_) => LAST + 1,
    }
}

/// A number that says where a destination stands in the order.
fn dest_rank(dst: Dest) -> u32
    ensures { result ≡ dest_rank dst }
{
    match dst {
        Dest::Reg { file, index } => u32::from(file) * APART + u32::from(index),
        Dest::Operand { unit } => SECOND + u32::from(unit) * APART,
        Dest::Trigger { unit, op } => SECOND + u32::from(unit) * APART + 1 + u32::from(op),
        Dest::Jump => LAST,
        Dest::Call => LAST + 1,
        Dest::Halt => LAST + 2,
    }
}

/// How many of some sources have a lower rank.
fn sources_below(sources: &[Source], rank: u32) -> usize
    requires rising { Rising source_rank 0 sources.now 16385 }
    ensures { IsPlaceOf source_rank rank sources.now result }
{
    sources.partition_point(
        |s: &Source| -> bool
            ensures { result ≡ nat_lt (source_rank s.now) rank }
        { source_rank(*s) < rank },
    )
}

/// How many of some destinations have a lower rank.
fn dests_below(dests: &[Dest], rank: u32) -> usize
    requires rising { Rising dest_rank 0 dests.now 16387 }
    ensures { IsPlaceOf dest_rank rank dests.now result }
{
    dests.partition_point(
        |d: &Dest| -> bool
            ensures { result ≡ nat_lt (dest_rank d.now) rank }
        { dest_rank(*d) < rank },
    )
}

/// Where a source stands in a list that is in order, found by its rank.
fn search_source(sources: &[Source], src: Source) -> Option<usize>
    requires rising { Rising source_rank 0 sources.now 16385 }
    ensures { result ≡ position (same_source src) sources.now }
{
    let place = sources_below(sources, source_rank(src));
    match sources.get(place) {
        Some(s) if same_source(src, *s) => Some(place),
        _ => None,
    }
}

/// Where a destination stands in a list that is in order, found by its rank.
fn search_dest(dests: &[Dest], dst: Dest) -> Option<usize>
    requires rising { Rising dest_rank 0 dests.now 16387 }
    ensures { result ≡ position (same_dest dst) dests.now }
{
    let place = dests_below(dests, dest_rank(dst));
    match dests.get(place) {
        Some(d) if same_dest(dst, *d) => Some(place),
        _ => None,
    }
}

/// Where a source stands in a list that is in order. The place at which to look first is handed
/// in; where the source stands elsewhere, it is searched for.
pub fn place_of_source(sources: &[Source], first: usize, src: Source) -> Option<usize>
    requires rising { Rising source_rank 0 sources.now 16385 }
    ensures { result ≡ position (same_source src) sources.now }
{
    match sources.get(first) {
        Some(s) if same_source(src, *s) => Some(first),
        _ => search_source(sources, src),
    }
}

/// Where a destination stands in a list that is in order. The place at which to look first is
/// handed in; where the destination stands elsewhere, it is searched for.
pub fn place_of_dest(dests: &[Dest], first: usize, dst: Dest) -> Option<usize>
    requires rising { Rising dest_rank 0 dests.now 16387 }
    ensures { result ≡ position (same_dest dst) dests.now }
{
    match dests.get(first) {
        Some(d) if same_dest(dst, *d) => Some(first),
        _ => search_dest(dests, dst),
    }
}

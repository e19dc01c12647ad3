//! Texts of a page for which there is room.

ghost use Rattle.std.specs.Prelude.{◌≡◌, ◌++◌, ℕ, List, length};
ghost use Rattle.tta_pages.specs.Room.{Fits, within};

/// Takes away what was put after the first `from` bytes, if there is no room for so many. It answers how
/// much room is left, none if it took that away.
pub fn fit(out: &mut Vec<u8>, from: usize, room: usize) -> Option<usize>
    ensures { (before text : List ℕ) → out.old.items ≡ before ++ text → length before ≡ from
        → Fits room before text out.new.items result }
{
    let made = out.len().saturating_sub(from);
    if made > room {
        out.truncate(from);
        return None;
    }
    Some(room - made)
}

/// Takes away what was put after the first `from` bytes, if there is no room for so many.
pub fn keep_within(out: &mut Vec<u8>, from: usize, room: usize)
    ensures { (before text : List ℕ) → out.old.items ≡ before ++ text → length before ≡ from
        → out.new.items ≡ before ++ within room text }
{
    if out.len().saturating_sub(from) > room {
        out.truncate(from);
    }
}

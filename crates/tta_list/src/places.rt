//! The entry at a place.

ghost use Rattle.std.specs.Prelude.{◌≡◌, option_map, slice_get};

/// The entry at a place of a list, where the list has one there.
pub fn entry_at<T>(entries: &[T], place: u8) -> Option<&T>
    ensures { option_map (λ e. e.now) result ≡ slice_get entries.now place }
{
    entries.get(usize::from(place))
}

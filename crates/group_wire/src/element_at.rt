//! The element at a place.

ghost use Rattle.std.specs.Prelude.{◌≡◌, slice_get, option_copied};

/// The element at a place, counted from 0, if there is one. It takes no memory.
pub fn at<T>(items: &[T], place: usize) -> Option<&T>
    ensures { option_copied result ≡ slice_get items.now place }
{
    items.get(place)
}

// The front of a table or of an input.
ghost use Rattle.std.specs.Prelude.{◌≡◌, ◌≤◌, length, take};

// The first `count` places, or all where there are fewer.
pub fn first<T>(places: &[T], count: usize) -> &[T]
    ensures value { result.now ≡ take count places.now }
    ensures bound { length result.now ≤ count }
{
    places.get(..count).unwrap_or(places)
}

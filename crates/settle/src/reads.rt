// Parts of slices, for every number: what is not there is left out.
ghost use Rattle.std.specs.Prelude.{◌≡◌, take};

// The first n entries, or all where there are fewer.
pub(crate) fn first<T>(slice: &[T], n: usize) -> &[T]
    ensures { result.now ≡ take n slice.now }
{
    slice.get(..n).unwrap_or(slice)
}

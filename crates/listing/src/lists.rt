// Lists of numbers: one copied over another, and the first numbers of one.
ghost use Rattle.std.specs.Prelude.{◌≡◌, ◌+◌, ◌≤◌, ◌<◌, length};
ghost use Rattle.listing.specs.Held.{put};
ghost use Rattle.listing.specs.Listing.{between};

// Copies the numbers over a list, from a place on.
pub fn copy(numbers: &[u16], from: usize, list: &mut [u16])
    requires { from + length numbers.now ≤ length list.old }
    ensures { list.new ≡ put from numbers.now list.old }
{
    // Not by `copy_from_slice`: the library for C would need `memmove` then.
    for (i, &number) in numbers.iter().enumerate() {
        list[from + i] = number;
    }
}

// The first n numbers of a list.
pub fn first<'a>(numbers: &'a [u16], n: usize) -> &'a [u16]
    requires { n ≤ length numbers.now }
    ensures { result.now ≡ between 0 n numbers.now }
{
    &numbers[0..n]
}

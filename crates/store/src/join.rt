// Numbers that rise: how many are below a number, and a number joined to them.
ghost use Rattle.std.specs.Prelude.{◌≡◌, ◌+◌, ◌≤◌, ◌<◌, length};
ghost use Rattle.pattern.specs.Rising.{Rising};
ghost use Rattle.listing.specs.Held.{over};
ghost use Rattle.listing.specs.Limits.{max_size};
ghost use Rattle.store.specs.Store.{joined, Cut};

use listing::lists::copy;
use listing::wide::wide;

// How many numbers come before the first that is not below c.
pub fn below(numbers: &[u16], c: usize) -> usize
    ensures { Cut c result numbers.now }
{
    numbers
        .iter()
        .position(|x| c <= wide(*x))
        .unwrap_or(numbers.len())
}

// Writes the numbers with r among them at the head of a list, and replies how many they are.
pub fn join(numbers: &[u16], r: usize, list: &mut [u16]) -> usize
    requires { Rising max_size numbers.now × (r < max_size) × (max_size ≤ length list.old) }
    ensures { (result ≡ length (joined max_size r numbers.now))
        × (list.new ≡ over (joined max_size r numbers.now) list.old) }
{
    let n = numbers.len();
    let q = below(numbers, r);
    let rest = q + below(&numbers[q..n], r + 1);
    copy(&numbers[0..q], 0, list);
    list[q] = r as u16;
    copy(&numbers[rest..n], q + 1, list);
    q + 1 + (n - rest)
}

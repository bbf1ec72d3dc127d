// The places of an order's numbers, in a scratch list that has one for each number.
ghost use Rattle.std.specs.Prelude.{◌≡◌, ℕ, ◌≤◌, ◌<◌, length};
ghost use Rattle.pattern.specs.Places.{at, Once};
ghost use Rattle.pattern.specs.Series.{greatest};
ghost use Rattle.listing.specs.Limits.{max_size};
ghost use Rattle.register.specs.Order.{Placed};

use crate::Register;
use listing::wide::wide;

// What stands in the scratch list for a number that has no place. An Option would double the list, and a call has 8 KiB of stack.
pub const NOWHERE: u16 = 1000;

// The place of each number, where each stands once.
pub fn place_all(m: usize, numbers: &[u16], places: &mut [u16; Register::MAX_SIZE])
    requires { (m ≤ max_size) × (m ≤ length numbers.now) × Once (at numbers.now) m m }
    ensures { Placed m (at numbers.now) places.new }
{
    for (t, number) in numbers[..m].iter().enumerate() {
        places[wide(*number)] = t as u16;
    }
}

// The greatest place of a row.
pub fn top_place(places: &[u16; Register::MAX_SIZE], rows: &[u16]) -> usize
    requires { (k : ℕ) → k < length rows.now → at rows.now k < max_size }
    ensures { result ≡ greatest (at places.now) rows.now }
{
    rows.iter()
        .map(|row| wide(places[wide(*row)]))
        .max()
        .unwrap_or(0)
}

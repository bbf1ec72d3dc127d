// Marks set and asked, at the places of numbers.
ghost use Rattle.std.specs.Prelude.{◌≡◌, ℕ, ◌≤◌, ◌<◌, length};
ghost use Rattle.pattern.specs.Places.{at};
ghost use Rattle.pattern.specs.Series.{numbers};
ghost use Rattle.listing.specs.Held.{over};
ghost use Rattle.listing.specs.Limits.{max_size, max_mark};
ghost use Rattle.register.specs.Marks.{flagged};
ghost use Rattle.judge.specs.Reach.{Markable, WithPlaces, stands_at};
ghost use Rattle.judge.specs.Sets.{counted};

use listing::wide::wide;
use register::Register;
use register::marks::Marks;

// How many of the numbers have a marked place.
pub fn hits(
    marks: &[bool; Marks::ROOM],
    numbers: &[u16],
    places: &[u16; Register::MAX_SIZE],
) -> usize
    requires { Markable places.now numbers.now }
    ensures { result ≡ counted (λ k. flagged marks.now (at places.now (at numbers.now k))) (length numbers.now) }
{
    let mut sum = 0;
    for &x in numbers {
        if marks[wide(places[wide(x)])] {
            sum += 1;
        }
    }
    sum
}

// Writes the numbers below m that have a marked place, but for place p, over the beginning of a list, in rising order. Replies how
// many they are.
pub fn lay(
    marks: &[bool; Marks::ROOM],
    m: usize,
    places: &[u16; Register::MAX_SIZE],
    p: usize,
    list: &mut [u16],
) -> usize
    requires { (m ≤ max_size) × (m ≤ length list.old) × ((x : ℕ) → x < m → at places.now x < max_mark) }
    ensures { (result ≡ length (numbers (stands_at (flagged marks.now) (at places.now) p) m))
        × (list.new ≡ over (numbers (stands_at (flagged marks.now) (at places.now) p) m) list.old) }
{
    let mut n = 0;
    for (x, &place) in places[..m].iter().enumerate() {
        let t = wide(place);
        if marks[t] && t != p {
            list[n] = x as u16;
            n += 1;
        }
    }
    n
}

// Marks the places of the numbers.
pub fn mark_places(
    numbers: &[u16],
    places: &[u16; Register::MAX_SIZE],
    marks: &mut [bool; Marks::ROOM],
)
    requires { Markable places.now numbers.now }
    ensures { (length marks.new ≡ max_mark)
        × WithPlaces (flagged marks.old) (flagged marks.new) (at places.now) numbers.now }
{
    for &x in numbers {
        marks[wide(places[wide(x)])] = true;
    }
}

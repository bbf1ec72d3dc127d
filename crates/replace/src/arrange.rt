// The order's lists changed: laid afresh from the places of their numbers, or with one pair moved to the last place.
ghost use Rattle.std.specs.Prelude.{List, ◌≡◌, ℕ, ◌≤◌, ◌<◌, length, take};
ghost use Rattle.pattern.specs.Places.{at};
ghost use Rattle.pattern.specs.Verdict.{to_last};
ghost use Rattle.listing.specs.Held.{over};
ghost use Rattle.listing.specs.Limits.{max_size};
ghost use Rattle.register.specs.Order.{Placed};

use listing::wide::wide;
use register::Register;

// Each number at its place.
pub fn lay_order(m: usize, places: &[u16; Register::MAX_SIZE], numbers: &mut [u16])
    requires { (m ≤ max_size) × (m ≤ length numbers.old) × ((x : ℕ) → x < m → at places.now x < m) }
    ensures { (order : List ℕ) → length order ≡ m → Placed m (at order) places.now → numbers.new ≡ over order numbers.old }
{
    for (x, place) in places[..m].iter().enumerate() {
        numbers[wide(*place)] = x as u16;
    }
}

// What stands at place t goes to the last of m places.
pub fn move_last(m: usize, t: usize, list: &mut [u16])
    requires { (t < m) × (m ≤ length list.old) }
    ensures { list.new ≡ over (to_last t (take m list.old)) list.old }
{
    let x = list[t];
    list.copy_within(t + 1..m, t);
    list[m - 1] = x;
}

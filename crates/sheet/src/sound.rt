// Whether the order of a sheet without faults is sound, in two scratch lists: the places of its rows, and of each column the
// greatest place among its rows.
ghost use Rattle.std.specs.Prelude.{[], ◌≡◌, ℕ, suc, ◌+◌, ◌≤◌, ◌<◌, length};
ghost use Rattle.pattern.specs.Order.{Sound};
ghost use Rattle.pattern.specs.Pattern.{column, Entry};
ghost use Rattle.pattern.specs.Places.{at, Once};
ghost use Rattle.pattern.specs.Series.{greatest};
ghost use Rattle.listing.specs.Limits.{max_size};
ghost use Rattle.listing.specs.Says.{Told, Says};
ghost use Rattle.register.specs.Order.{Placed};
ghost use Rattle.sheet.specs.Number.{got};
ghost use Rattle.sheet.specs.Passes.{thing, Got};
ghost use Rattle.sheet.specs.Reading.{rows_at, columns_at, order_at};
ghost use Rattle.sheet.specs.Sheet.{firsts, seconds};

use crate::items::{known, known_pair};
use crate::number::Step;
use register::Register;
use register::places::NOWHERE;

// Enters the place of each row of the order. False where one has a place already. It is `enter` of `register` for numbers that lie in
// bytes: to be one function over both it would need an iterator over the bytes with laws of its own.
fn enter(bytes: &[u8], place: usize, m: u32, places: &mut [u16; Register::MAX_SIZE]) -> bool
    requires got { (m ≤ max_size) × Got [] (order_at bytes.now m place) }
    requires none_placed { (x : ℕ) → x < max_size → at places.old x ≡ max_size }
    ensures { Told result
        (Placed m (at (firsts (thing [] (order_at bytes.now m place)))) places.new)
        (¬ Once (at (firsts (thing [] (order_at bytes.now m place)))) m m) }
{
    let mut at = place;
    for t in 0..m {
        let pair = known_pair(bytes, at);
        if places[pair.row as usize] < NOWHERE {
            return false;
        }
        places[pair.row as usize] = t as u16;
        at = pair.next;
    }
    true
}

// Of n rows, one more than the greatest place, and 0 where there is none; and the place after them in the bytes.
fn top(bytes: &[u8], place: usize, n: u32, places: &[u16; Register::MAX_SIZE]) -> Step
    requires { Got [] (rows_at bytes.now max_size n place)
        × ((k : ℕ) → k < n → at places.now (at (thing [] (rows_at bytes.now max_size n place)) k) < max_size) }
    ensures { (rows_at bytes.now max_size n place ≡ got (thing [] (rows_at bytes.now max_size n place)) result.next)
        × (result.value ≡ greatest (λ (x : ℕ). suc (at places.now x)) (thing [] (rows_at bytes.now max_size n place))) }
{
    let mut at = place;
    let mut least = 0;
    let mut top = 0;
    for _ in 0..n {
        let gap = known(bytes, at);
        let r = least + gap.value;
        top = top.max(places[r as usize] as u32 + 1);
        least = r + 1;
        at = gap.next;
    }
    Step {
        value: top,
        next: at,
    }
}

// The same of every column, in a list.
fn tops(
    bytes: &[u8],
    place: usize,
    m: u32,
    places: &[u16; Register::MAX_SIZE],
    tops: &mut [u16; Register::MAX_SIZE],
)
    requires { (m ≤ max_size) × Got [] (columns_at bytes.now m place) × ((x : ℕ) → x < m → at places.now x < m) }
    ensures { (c : ℕ) → c < m → at tops.new c
        ≡ greatest (λ (x : ℕ). suc (at places.now x)) (column (thing [] (columns_at bytes.now m place)) c) }
{
    let mut at = place;
    for entry in &mut tops[..m as usize] {
        let n = known(bytes, at);
        let step = top(bytes, n.next, n.value, places);
        *entry = step.value as u16;
        at = step.next;
    }
}

// Whether each column of the order stands at the greatest place of its rows.
fn agree(bytes: &[u8], place: usize, m: u32, tops: &[u16; Register::MAX_SIZE]) -> bool
    requires { (m ≤ max_size) × Got [] (order_at bytes.now m place) }
    ensures { Says result
        ((t : ℕ) → t < m → at tops.now (at (seconds (thing [] (order_at bytes.now m place))) t) ≡ t + 1) }
{
    let mut at = place;
    for t in 0..m {
        let pair = known_pair(bytes, at);
        if tops[pair.column as usize] != (t + 1) as u16 {
            return false;
        }
        at = pair.next;
    }
    true
}

// Whether the order is sound for the columns; these and the order begin at the two places.
pub fn sound(bytes: &[u8], m: u32, columns: usize, order: usize) -> bool
    requires { (m ≤ max_size) × Got [] (columns_at bytes.now m columns) × Got [] (order_at bytes.now m order) }
    ensures { Says result
        (Sound (Entry (thing [] (columns_at bytes.now m columns))) m
        (at (firsts (thing [] (order_at bytes.now m order)))) (at (seconds (thing [] (order_at bytes.now m order))))) }
{
    let mut places = [NOWHERE; Register::MAX_SIZE];
    if !enter(bytes, order, m, &mut places) {
        return false;
    }
    let mut tops_of = [0u16; Register::MAX_SIZE];
    tops(bytes, columns, m, &places, &mut tops_of);
    agree(bytes, order, m, &tops_of)
}

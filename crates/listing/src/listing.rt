// One listing, by columns or by rows: its parts, and whether it is well formed.
ghost use Rattle.std.specs.Prelude.{◌≡◌, ◌+◌, ◌≤◌, ◌<◌, length};
ghost use Rattle.pattern.specs.Rising.{Rising};
ghost use Rattle.pattern.specs.Series.{tally};
ghost use Rattle.listing.specs.Says.{Says};
ghost use Rattle.listing.specs.Falls.{fall, fall_at_start, EndsBelow, PartsRise};
ghost use Rattle.listing.specs.Limits.{max_total};
ghost use Rattle.listing.specs.Listing.{part, Within, Room, Starts, Listing};

use crate::MAX_TOTAL;
use crate::wide::wide;

// One listing in lent lists, by columns or by rows: part k's numbers are the entries from start k up to start k + 1.
#[derive(Clone, Copy)]
pub struct Listed<'a> {
    pub starts: &'a [u16],
    pub entries: &'a [u16],
}

// Part k of a listing whose starts need not be lent as long as its entries.
pub fn part<'a>(starts: &[u16], entries: &'a [u16], k: usize) -> &'a [u16]
    requires { (k + 1 < length starts.now) × Within starts.now entries.now k }
    ensures { result.now ≡ part starts.now entries.now k }
{
    let from = wide(starts[k]);
    let to = wide(starts[k + 1]);
    &entries[from..to]
}

// Whether the numbers are below m and strictly rise. Of numbers that rise, the last is the greatest.
pub fn rising(m: usize, numbers: &[u16]) -> bool
    ensures { Says result (Rising m numbers.now) }
{
    let Some(last) = numbers.last() else {
        return true;
    };
    wide(*last) < m && numbers.is_sorted_by(|a, b| *a < *b)
}

// How many of the first n entries are not more than the one before. A count without an exit is taken for many of them at a time.
fn falls(n: usize, entries: &[u16]) -> u16
    requires { (n ≤ length entries.now) × (n ≤ max_total) }
    ensures { result ≡ tally (fall entries.now) n }
{
    let mut sum: u16 = 0;
    for k in 1..n {
        if entries[k] <= entries[k - 1] {
            sum += 1;
        }
    }
    sum
}

impl<'a> Listed<'a> {
    // Part k.
    pub fn part(self, k: usize) -> &'a [u16]
        requires { (k + 1 < length self.starts.now) × Within self.starts.now self.entries.now k }
        ensures { result.now ≡ part self.entry.starts.now self.entry.entries.now k }
    {
        part(self.starts, self.entries, k)
    }

    // Whether the m + 1 starts are right. A loop without an exit looks at many of them at a time.
    pub fn starts_right(self, m: usize) -> bool
        requires { m < length self.starts.now }
        ensures { Says result (Starts m self.entry.starts.now) }
    {
        if self.starts[0] != 0 {
            return false;
        }
        if MAX_TOTAL < wide(self.starts[m]) {
            return false;
        }
        let mut fell = false;
        for k in 0..m {
            if self.starts[k + 1] < self.starts[k] {
                fell = true;
            }
        }
        !fell
    }

    // 1 where the first number of part k is not more than the one before it, and else 0.
    fn falls_first(self, k: usize) -> usize
        requires { (k + 1 < length self.starts.now) × Within self.starts.now self.entries.now k }
        ensures { result ≡ fall_at_start self.entry.starts.now self.entry.entries.now k }
    {
        let from = wide(self.starts[k]);
        if from == 0 {
            return 0;
        }
        if wide(self.starts[k + 1]) <= from {
            return 0;
        }
        if self.entries[from - 1] < self.entries[from] {
            return 0;
        }
        1
    }

    // How many parts begin with such a number.
    fn falls_at_starts(self, m: usize) -> usize
        requires { Room m self.starts.now self.entries.now × Starts m self.starts.now }
        ensures { result ≡ tally (fall_at_start self.entry.starts.now self.entry.entries.now) m }
    {
        let mut sum = 0;
        for k in 0..m {
            sum += self.falls_first(k);
        }
        sum
    }

    // Whether the last number of each part that has one is below m.
    fn ends_below(self, m: usize) -> bool
        requires { Room m self.starts.now self.entries.now × Starts m self.starts.now }
        ensures { Says result (EndsBelow m self.entry.starts.now self.entry.entries.now) }
    {
        for k in 0..m {
            let to = wide(self.starts[k + 1]);
            if wide(self.starts[k]) < to && m <= wide(self.entries[to - 1]) {
                return false;
            }
        }
        true
    }

    // Whether each part's numbers are below m and strictly rise, the starts being right: no number then falls but the first of a
    // part, so that the falls need not be sought part by part.
    pub fn parts_rise(self, m: usize) -> bool
        requires { Room m self.starts.now self.entries.now × Starts m self.starts.now }
        ensures { Says result (PartsRise m self.entry.starts.now self.entry.entries.now) }
    {
        if !self.ends_below(m) {
            return false;
        }
        if wide(falls(wide(self.starts[m]), self.entries)) != self.falls_at_starts(m) {
            return false;
        }
        true
    }

    // Whether the listing is well formed. No entry is read before the starts are known to lie within the list.
    pub fn formed(self, m: usize) -> bool
        requires { Room m self.starts.now self.entries.now }
        ensures { Says result (Listing m self.entry.starts.now self.entry.entries.now) }
    {
        if !self.starts_right(m) {
            return false;
        }
        self.parts_rise(m)
    }
}

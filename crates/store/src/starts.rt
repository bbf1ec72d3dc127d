// Starts raised or lowered.
ghost use Rattle.std.specs.Prelude.{◌≡◌, ℕ, ◌+◌, ◌≤◌, ◌<◌, length};
ghost use Rattle.pattern.specs.Places.{at};
ghost use Rattle.listing.specs.Limits.{max_total};
ghost use Rattle.store.specs.Store.{Raised, Lowered};

// The starts past start c, up to start m, are n more.
pub fn raise(starts: &mut [u16], c: usize, m: usize, n: usize)
    requires { (c ≤ m) × (m < length starts.old) × ((k : ℕ) → k ≤ m → at starts.old k + n ≤ max_total) }
    ensures { Raised c m n starts.old starts.new }
{
    let by = n as u16;
    for s in starts[c + 1..m + 1].iter_mut() {
        *s += by;
    }
}

// The starts of the places `from` up to `to` are n less. From `raise` it differs in one operator, and a closure for that is no plainer.
pub fn lower(starts: &mut [u16], from: usize, to: usize, n: usize)
    requires { (from ≤ to) × (to ≤ length starts.old) × (n ≤ max_total) × ((k : ℕ) → from ≤ k → k < to → n ≤ at starts.old k) }
    ensures { Lowered from to n starts.old starts.new }
{
    let by = n as u16;
    for s in starts[from..to].iter_mut() {
        *s -= by;
    }
}

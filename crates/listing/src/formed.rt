// A listing that may be read: its size is in the limits, its lists are long enough, and it is well formed.
ghost use Rattle.std.specs.Prelude.{◌≡◌, ◌<◌};
ghost use Rattle.listing.specs.Listing.{part, Good};

use crate::listing::Listed;

#[derive(Clone, Copy)]
pub struct Formed<'a> {
    pub size: usize,
    pub listed: Listed<'a>,
    ghost good: { Good size listed.starts.now listed.entries.now },
}

impl<'a> Formed<'a> {
    // Part k.
    pub fn part(self, k: usize) -> &'a [u16]
        requires { k < self.size }
        ensures { result.now ≡ part self.entry.listed.starts.now self.entry.listed.entries.now k }
    {
        self.listed.part(k)
    }
}

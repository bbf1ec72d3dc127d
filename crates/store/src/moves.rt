// A stretch of numbers that goes to another place in its list.
ghost use Rattle.std.specs.Prelude.{◌≡◌, ◌+◌, ◌-◌, ◌≤◌, length};
ghost use Rattle.listing.specs.Held.{put};
ghost use Rattle.listing.specs.Listing.{between};

// The numbers of the places `from` up to `to` go to place `into` on. Where that is where they stand, none is copied over itself.
pub fn shift(list: &mut [u16], from: usize, to: usize, into: usize)
    requires { (from ≤ to) × (to ≤ length list.old) × (into + (to - from) ≤ length list.old) }
    ensures { list.new ≡ put into (between from to list.old) list.old }
{
    if into != from {
        list.copy_within(from..to, into);
    }
}

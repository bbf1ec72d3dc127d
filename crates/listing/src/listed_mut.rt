// A listing in lists that are lent to be written.
ghost use Rattle.std.specs.Prelude.{◌≡◌};

use crate::listing::Listed;

#[derive(Drop)]
pub struct ListedMut<'a> {
    pub starts: &'a mut [u16],
    pub entries: &'a mut [u16],
}

impl ListedMut<'_> {
    // To be read, for a while.
    pub fn view(&self) -> Listed<'_>
        ensures { (result.starts.now ≡ self.now.starts.now) × (result.entries.now ≡ self.now.entries.now) }
    {
        Listed {
            starts: &*self.starts,
            entries: &*self.entries,
        }
    }
}

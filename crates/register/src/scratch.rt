// The three scratch lists of a check and of the replacement behind it: one for work, and the places of the rows and of the columns.
// Each has as many places as a register may have rows, also when a call that they were lent to has come back.
ghost use Rattle.std.specs.Prelude.{◌≡◌, length};
ghost use Rattle.listing.specs.Limits.{max_size};

use crate::Register;

#[derive(Drop)]
pub struct Scratch {
    pub work: [u16; Register::MAX_SIZE],
    pub row_places: [u16; Register::MAX_SIZE],
    pub col_places: [u16; Register::MAX_SIZE],
    ghost long: { (length work ≡ max_size) × (length row_places ≡ max_size) × (length col_places ≡ max_size) },
}

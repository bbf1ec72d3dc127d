// One listing in lent lists, of columns or of rows: its parts, its form, and the listing turned.

#![tactic(auto)]

pub mod formed;
pub mod listed_mut;
pub mod listing;
pub mod lists;
pub mod look;
pub mod turn;
pub mod wide;

// The build paper's limits.
pub const MAX_SIZE: usize = 1000;

pub const MAX_TOTAL: usize = 12000;

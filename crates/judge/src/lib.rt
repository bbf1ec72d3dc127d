// The judgment on a column and its new rows, which changes no list of the register.

#![tactic(auto)]

pub mod judge;
mod marks;
mod peel;
mod reach;
mod spiked;

// The verdict on a replacement; ELIMINATION with its bump and the number of its eta rows.
#[derive(Drop)]
pub enum Judgment {
    Singular,
    Permuted,
    Elimination { bump: usize, eta_count: usize },
}

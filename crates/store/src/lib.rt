// A column exchanged in both listings.

#![tactic(auto)]

pub mod join;
mod moves;
mod starts;
pub mod store;

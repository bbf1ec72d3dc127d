// Text and bytes: plain decimals, numbers after single spaces, things one after another, bytes put at a place, and printed behind one another.

#![tactic(auto)]

pub mod lines;
pub mod output;

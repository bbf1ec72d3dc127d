// Lent registers with one fault each, and looks, run: a line for each, with the number of the reply (0: sound) or the length
// of the part. What it must write stands in the file stdout.

#![tactic(auto)]

mod faults;
mod limits;
mod looks;
mod report;

use std::io;

fn main(rt: HostRuntime) -> io::Result<()> {
    faults::short(&rt)?;
    faults::short_and_malformed(&rt)?;
    faults::malformed(&rt)?;
    faults::unsound(&rt)?;
    faults::empty(&rt)?;
    limits::sizes(&rt)?;
    limits::totals(&rt)?;
    looks::looks(&rt)
}

// One line of the report.
use register::Register;
use register::lent::Lent;
use std::io;

pub fn line(rt: &impl Print, label: &str, number: usize) -> io::Result<()> {
    rt.write_all(label.as_bytes())?;
    println!(rt; ": {number}")
}

// The number of a lent register's first fault, or 0.
pub fn check(rt: &impl Print, label: &str, m: usize, lists: Lent) -> io::Result<()> {
    match (Register { size: m }).check(lists) {
        Ok(()) => line(rt, label, 0),
        Err(refusal) => line(rt, label, refusal.number()),
    }
}

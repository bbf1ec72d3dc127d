// Looks: the length of the part that is handed back.
use crate::report::line;
use register::Register;
use std::io;

fn look(
    rt: &impl Print,
    label: &str,
    m: usize,
    starts: &[u16],
    rows: &[u16],
    column: usize,
) -> io::Result<()> {
    let part = (Register { size: m }).look(starts, rows, column);
    line(rt, label, part.len())
}

pub fn looks(rt: &impl Print) -> io::Result<()> {
    look(rt, "look at column 1", 2, &[0, 1, 3], &[0, 0, 1], 1)?;
    look(rt, "look with size 0", 0, &[0, 1, 3], &[0, 0, 1], 0)?;
    look(rt, "look with size 1,001", 1001, &[0, 1, 3], &[0, 0, 1], 0)?;
    look(rt, "look at column 2 of 2", 2, &[0, 1, 3, 3], &[0, 0, 1], 2)?;
    look(
        rt,
        "look with two starts of three",
        2,
        &[0, 1],
        &[0, 0, 1],
        0,
    )?;
    look(rt, "look at starts that fall", 2, &[0, 3, 1], &[0, 0, 1], 1)?;
    look(rt, "look past the list", 2, &[0, 1, 4], &[0, 0, 1], 1)?;
    look(rt, "look at equal starts", 2, &[0, 1, 1], &[0, 0, 1], 1)?;
    look(rt, "look at the list's end", 2, &[0, 3, 3], &[0, 0, 1], 1)?;
    look(
        rt,
        "look at rows out of range",
        2,
        &[9, 1, 3],
        &[7, 9, 8],
        1,
    )
}

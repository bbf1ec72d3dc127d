// The tryout program: reads a text of replacements from standard input and writes a reply line for each. The bytes of each read are
// fed to a run of `script`, and what that printed is written at once.

#![tactic(auto)]

use register::lent::LentMut;
use std::io;
use std::io::Read;
use turns::State;

// As many bytes as are read at once, and the room for what a call of `feed` prints.
const BYTES: usize = 65536;

// How long the lists are that a text works in.
const STARTS: usize = 1001;

const ENTRIES: usize = 12000;

const PLACES: usize = 1000;

const NUMBERS: usize = 4000;

const LINE: usize = 8000;

// What a text works in, beside the bytes that are read and written.
#[derive(Drop)]
struct Room<'a> {
    line: &'a mut [u8],
    numbers: &'a mut [u16],
    lists: LentMut<'a>,
    eta: &'a mut [u16],
}

// Feeds one read to the run, in as many calls as the output list has room for, with a write after each.
fn work(
    rt: &impl Print,
    chunk: &[u8],
    state: State,
    room: &mut Room,
    out: &mut [u8],
) -> io::Result<State> {
    let mut st = state;
    let mut rest = chunk;
    // How much a call takes is known only after it, so no iterator has the parts.
    while !rest.is_empty() {
        let fed = script::feed(
            rest,
            st,
            room.line,
            room.numbers,
            &mut room.lists,
            room.eta,
            out,
        );
        rt.write_all(&out[..fed.written])?;
        st = fed.state;
        // A run that takes nothing has ended.
        if fed.taken == 0 {
            break;
        }
        rest = &rest[fed.taken..];
    }
    Ok(st)
}

fn main(rt: HostRuntime) -> io::Result<()> {
    let mut input = rt.stdin();
    let mut buf = [0u8; BYTES];
    let mut out = [0u8; BYTES];
    let mut room = Room {
        line: &mut [0u8; LINE],
        numbers: &mut [0u16; NUMBERS],
        lists: LentMut {
            col_starts: &mut [0u16; STARTS],
            col_rows: &mut [0u16; ENTRIES],
            row_starts: &mut [0u16; STARTS],
            row_cols: &mut [0u16; ENTRIES],
            order_rows: &mut [0u16; PLACES],
            order_cols: &mut [0u16; PLACES],
        },
        eta: &mut [0u16; PLACES],
    };
    let mut state = script::begin();
    // As many reads as can be counted.
    for _ in 0..u64::MAX {
        let n = input.read(&mut buf)?;
        if n == 0 {
            break;
        }
        state = work(&rt, &buf[..n], state, &mut room, &mut out)?;
        if script::ended(state) {
            break;
        }
    }
    let rest = script::finish(state, &mut out);
    rt.write_all(&out[..rest])
}

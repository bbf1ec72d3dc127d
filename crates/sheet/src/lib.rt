// The sheet of a register: written from its six lists, and read back into them.

#![tactic(auto)]

mod fill;
mod items;
mod number;
mod put;
mod scan;
mod sink;
mod sound;

ghost use Rattle.std.specs.Prelude.{◌≡◌, ◌<◌};
ghost use Rattle.register.specs.Loan.{seen, held, SameLists};
ghost use Rattle.sheet.specs.Reads.{Examines, read_in, Reads};
ghost use Rattle.sheet.specs.Reply.{written, filled, finding};
ghost use Rattle.sheet.specs.Writes.{written_out, Writes};

use crate::fill::fill;
use crate::put::{measure, put_sheet};
use crate::scan::scan;
use crate::sound::sound;
use listing::formed::Formed;
use register::lent::{Lent, LentMut};
use register::room::takes;
use register::{Refusal, Register};

// A fault of a sheet: its refusal, and the place at which the number at fault begins.
#[derive(Drop)]
pub struct Fault {
    pub reply: Refusal,
    pub place: usize,
}

// Where the place is not asked for.
impl From<Fault> for Refusal {
    ghost from_gives = { λ fault refusal. refusal ≡ fault.reply };

    fn from(fault: Fault) -> Refusal {
        fault.reply
    }
}

// What the bytes of a sheet alone decide where they have no fault.
#[derive(Drop)]
pub struct Examined {
    pub size: usize,
    pub total: usize,
    pub sound: bool,
}

// No sheet is longer: the size, the counts, the entries and the order's rows and columns have two bytes each at most.
const LONGEST: usize = 30002;

// Writes the sheet of a register to the head of the bytes, after checks 1 to 5 and 8; replies the byte count.
pub fn write_sheet(size: usize, lists: Lent, bytes: &mut [u8]) -> Result<usize, Refusal>
    ensures { Writes size (seen lists.entry) bytes.old (written_out (written result) bytes.new) }
{
    (Register { size }).check(lists)?;
    let columns = Formed {
        size,
        listed: lists.columns,
    };
    if bytes.len() < LONGEST {
        let count = measure(columns, lists.order_rows, lists.order_cols);
        if bytes.len() < count {
            return Err(Refusal::NoRoom);
        }
    }
    Ok(put_sheet(columns, lists.order_rows, lists.order_cols, bytes))
}

// What the bytes decide. Nothing is written.
pub fn examine(bytes: &[u8]) -> Result<Examined, Fault>
    ensures { Examines bytes.now (finding result) }
{
    let read = scan(bytes)?;
    Ok(Examined {
        size: read.size as usize,
        total: read.total as usize,
        sound: sound(bytes, read.size, read.columns, read.order),
    })
}

// Reads a sheet into the lists, which change only where it is accepted; replies the size of the register that they then hold.
pub fn read_sheet(bytes: &[u8], lists: &mut LentMut) -> Result<usize, Refusal>
    ensures same { SameLists lists.old lists.new }
    ensures reads { Reads (held lists.old) bytes.now (read_in (filled result) (held lists.new)) }
{
    let Examined { size, total, sound } = examine(bytes)?;
    if !takes(size, total, lists.view()) {
        return Err(Refusal::ShortList);
    }
    if !sound {
        return Err(Refusal::OrderUnsound);
    }
    fill(bytes, lists);
    Ok(size)
}

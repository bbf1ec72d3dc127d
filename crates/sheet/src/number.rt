// The seven-bit number: read at a place of the bytes, measured, and put there.
ghost use Rattle.std.specs.Prelude.{cond, ◌≡◌, ◌+◌, ◌*◌, ◌/◌, ◌%◌, ◌≤◌, ◌<◌, eqb, length, MatchResult};
ghost use Rattle.pattern.specs.Places.{at};
ghost use Rattle.text.specs.Puts.{Puts};
ghost use Rattle.sheet.specs.Number.{bad, max_number, groups, number, ended};
ghost use Rattle.sheet.specs.Reply.{told};

use crate::Fault;
use register::Refusal;

// A number that was read, and the place after it. Numbers reach 2,097,151.
#[derive(Drop)]
pub struct Step {
    pub value: u32,
    pub next: usize,
}

// A second or third group ends the number that begins at this place.
#[tactic(auto, unfolding(crate::specs::Number::ended))]
fn ended(group: u32, value: u32, place: usize, next: usize) -> Result<Step, Fault>
    ensures { told result ≡ ended place group value next }
{
    if group == 0 {
        return Err(Fault {
            reply: Refusal::SheetNumber,
            place,
        });
    }
    Ok(Step { value, next })
}

// The byte at one place of the number that begins at another: the sheet is cut where the bytes end before it.
fn byte(bytes: &[u8], begin: usize, place: usize) -> Result<u32, Fault>
    ensures { MatchResult result
        (λ value. (place < length bytes.now) × (value ≡ at bytes.now place) × (value < 256))
        (λ fault. (length bytes.now ≤ place) × (told (Err fault) ≡ bad 9 begin)) }
{
    if bytes.len() <= place {
        return Err(Fault {
            reply: Refusal::SheetCut,
            place: begin,
        });
    }
    Ok(bytes[place] as u32)
}

// The number that begins at this place, group by group.
#[tactic(auto, unfolding(crate::specs::Number::number, crate::specs::Number::byte))]
fn read_groups(bytes: &[u8], place: usize) -> Result<Step, Fault>
    ensures { told result ≡ number bytes.now place }
{
    let a = byte(bytes, place, place)?;
    if a < 128 {
        return Ok(Step {
            value: a,
            next: place + 1,
        });
    }
    let b = byte(bytes, place, place + 1)?;
    if b < 128 {
        return ended(b, a - 128 + 128 * b, place, place + 2);
    }
    let c = byte(bytes, place, place + 2)?;
    if c < 128 {
        return ended(c, a - 128 + 128 * (b - 128) + 16384 * c, place, place + 3);
    }
    Err(Fault {
        reply: Refusal::SheetNumber,
        place,
    })
}

// What one group or two say that begin at this place, and the place after them: had without a branch on how many they are, which
// could not be foretold.
pub fn few_groups(bytes: &[u8], place: usize) -> Step
    requires { place + 1 < length bytes.now }
    ensures { (result.value ≡ at bytes.now place % 128 + 128 * at bytes.now (place + 1) * (at bytes.now place / 128))
        × (result.next ≡ place + 1 + at bytes.now place / 128) }
{
    let a = bytes[place] as u32;
    let b = bytes[place + 1] as u32;
    let more = a / 128;
    Step {
        value: a % 128 + 128 * b * more,
        next: place + 1 + more as usize,
    }
}

// Whether a byte cannot be the last group of several: 1 where it is zero or has the high bit set, and else 0.
fn no_last(byte: u8) -> u8
    ensures { result ≡ cond (eqb byte 0) 1 (byte / 128) }
{
    if byte == 0 {
        return 1;
    }
    byte / 128
}

// The number that begins at this place. One of one group or two is had at once.
#[tactic(auto, using(crate::proofs::FewGroups::number_few))]
pub fn read_number(bytes: &[u8], place: usize) -> Result<Step, Fault>
    ensures { told result ≡ number bytes.now place }
{
    if bytes.len() < 2 {
        return read_groups(bytes, place);
    }
    if bytes.len() - 2 < place {
        return read_groups(bytes, place);
    }
    if bytes[place] / 128 * no_last(bytes[place + 1]) != 0 {
        return read_groups(bytes, place);
    }
    Ok(few_groups(bytes, place))
}

// How many groups a number has.
#[tactic(auto, unfolding(crate::specs::Number::groups))]
pub fn width(value: u32) -> usize
    ensures { result ≡ length (groups value) }
{
    if value < 128 {
        return 1;
    }
    if value < 16384 {
        return 2;
    }
    3
}

// Puts the groups of a number at this place, group by group; replies the place after them. `Bytes` is put together from this and from
// `put`, so that the bytes and the place come one by one here.
fn put_groups(value: u32, bytes: &mut [u8], place: usize) -> usize
    requires { (value ≤ max_number) × (place + length (groups value) ≤ length bytes.old) }
    ensures { Puts place (groups value) bytes.old result bytes.new }
{
    if value < 128 {
        bytes[place] = value as u8;
        return place + 1;
    }
    bytes[place] = (128 + value % 128) as u8;
    if value < 16384 {
        bytes[place + 1] = (value / 128) as u8;
        return place + 2;
    }
    bytes[place + 1] = (128 + value / 128 % 128) as u8;
    bytes[place + 2] = (value / 16384) as u8;
    place + 3
}

// Puts the groups of a number at this place; replies the place after them. Where it has one group or two and there are two places, both are
// written, the second with what it holds where there is one group: so no branch hangs on how many they are.
pub fn put(value: u32, bytes: &mut [u8], place: usize) -> usize
    requires { (value ≤ max_number) × (place + length (groups value) ≤ length bytes.old) }
    ensures { Puts place (groups value) bytes.old result bytes.new }
{
    if 16384 <= value {
        return put_groups(value, bytes, place);
    }
    if bytes.len() - place < 2 {
        return put_groups(value, bytes, place);
    }
    let mut first = value;
    let mut second = bytes[place + 1];
    let mut next = place + 1;
    if 128 <= value {
        first = 128 + value % 128;
        second = (value / 128) as u8;
        next = place + 2;
    }
    bytes[place] = first as u8;
    bytes[place + 1] = second;
    next
}

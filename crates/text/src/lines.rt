// What a line says: a word and numbers. Its numbers are looked over first and stored afterwards, so that a line of another shape
// leaves nothing behind.
ghost use Rattle.std.specs.Prelude.{List, ◌≡◌, ℕ, ◌≤◌, ◌<◌, length};
ghost use Rattle.listing.specs.Held.{over};
ghost use Rattle.text.specs.Heard.{SaysSome, Hears};
ghost use Rattle.text.specs.Spelling.{Spelt, with_space, with_digit, with_byte, stand, passed, first_at, stored_at};
ghost use Rattle.text.specs.Text.{max_numbers, max_line, max_count, Speaks};

// The first of the numbers that a line says (0 where there is none), and how many they are.
#[derive(Clone, Copy)]
pub struct Heard {
    pub first: usize,
    pub count: usize,
}

// How a reader of the line stands, as long as numbers may begin as it has read: at the end of the word, at a space behind so many
// numbers, or inside a number that is behind so many.
#[derive(Clone, Copy)]
pub enum Stand {
    Word,
    Gap { count: usize },
    Inside { before: usize, value: u16 },
}

// A space is read.
fn read_space(at: Stand) -> Option<Stand>
    requires { passed at < max_count }
    ensures { (x : Spelt) → Some at ≡ stand x → result ≡ stand (with_space x) }
{
    match at {
        Stand::Word => Some(Stand::Gap { count: 0 }),
        Stand::Gap { .. } => None,
        Stand::Inside { before, .. } => Some(Stand::Gap { count: before + 1 }),
    }
}

// A digit is read.
fn read_digit(at: Stand, digit: u8) -> Option<Stand>
    ensures { (x : Spelt) → Some at ≡ stand x → result ≡ stand (with_digit x digit) }
{
    match at {
        Stand::Word => None,
        Stand::Gap { count } => Some(Stand::Inside {
            before: count,
            value: u16::from(digit),
        }),
        Stand::Inside { before, value } => {
            if value == 0 {
                return None;
            }
            // A number over 65,535 is none of a line.
            let value = value.checked_mul(10)?.checked_add(u16::from(digit))?;
            Some(Stand::Inside { before, value })
        }
    }
}

// A byte is read.
#[tactic(auto, unfolding(crate::specs::Spelling::with_byte))]
fn read_byte(at: Stand, byte: u8) -> Option<Stand>
    requires { passed at < max_count }
    ensures { (x : Spelt) → Some at ≡ stand x → result ≡ stand (with_byte x byte) }
{
    match byte {
        b' ' => read_space(at),
        b'0'..=b'9' => read_digit(at, byte - b'0'),
        _ => None,
    }
}

// The first number, where the reader stands inside it; else what is known of it.
fn lead(at: Stand, first: usize) -> usize
    ensures { result ≡ first_at at first }
{
    match at {
        Stand::Inside { before: 0, value } => usize::from(value),
        _ => first,
    }
}

// What the line says, where it begins with the word and says numbers.
pub fn hear(line: &[u8], word: &[u8]) -> Option<Heard>
    ensures { Hears word.now line.now result }
{
    let rest = line.strip_prefix(word)?;
    let mut at = Stand::Word;
    let mut first = 0;
    for byte in rest {
        at = read_byte(at, *byte)?;
        first = lead(at, first);
    }
    match at {
        Stand::Word => Some(Heard { first: 0, count: 0 }),
        Stand::Gap { .. } => None,
        Stand::Inside { before, .. } => Some(Heard {
            first,
            count: before + 1,
        }),
    }
}

// Stores the number inside which the reader stands.
fn store(at: Stand, numbers: &mut [u16])
    requires { passed at < length numbers.old }
    ensures { numbers.new ≡ stored_at at numbers.old }
{
    if let Stand::Inside { before, value } = at {
        numbers[before] = value;
    }
}

// Stores the numbers of a line that says some, at the head of a list. It goes over the line as `hear` does, which must not write: one
// function for both would be handed a closure that does nothing in `hear`.
pub fn keep(line: &[u8], word: &[u8], numbers: &mut [u16])
    requires { (length line.now ≤ max_line) × (max_numbers ≤ length numbers.old) × SaysSome word.now line.now }
    ensures { (l : List ℕ) → Speaks line.now word.now l → numbers.new ≡ over l numbers.old }
{
    let rest = &line[word.len()..];
    let mut at = Stand::Word;
    for byte in rest {
        // The line says numbers, so each byte may stand where it stands.
        at = read_byte(at, *byte).unwrap();
        store(at, numbers);
    }
}

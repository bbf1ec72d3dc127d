// What the numbers of a sheet go into: a count of their bytes, or the bytes.
ghost use Rattle.std.specs.Prelude.{List, ◌≡◌, ℕ, ◌+◌, ◌≤◌, ◌<◌, length};
ghost use Rattle.text.specs.Puts.{Puts};
ghost use Rattle.sheet.specs.Number.{max_number, groups};
ghost use Rattle.sheet.specs.Sink.{SinkLaws};
ghost use Rattle.sheet.specs.Sinks.{count_laws, bytes_laws};

use crate::number::{put, width};

pub trait Sink {
    // There is room for so many bytes more.
    ghost room: { Self → ℕ → Type 0 };

    // With these bytes behind it, the first is the second.
    ghost after: { Self → List ℕ → Self → Type 0 };

    // Puts the groups of a number.
    fn put(&mut self, value: u32)
        requires { (value ≤ max_number) × room self.old (length (groups value)) }
        ensures { after self.old (groups value) self.new };

    ghost laws: { SinkLaws room after };
}

// How many bytes there are.
#[derive(Drop)]
pub struct Count {
    pub bytes: usize,
}

impl Sink for Count {
    ghost room = { λ s n. s.bytes + n < 65536 };

    ghost after = { λ s l t. t.bytes ≡ s.bytes + length l };

    ghost laws = { count_laws };

    fn put(&mut self, value: u32) {
        self.bytes += width(value);
    }
}

// Bytes, and how many at their head are put.
#[derive(Drop)]
pub struct Bytes<'a> {
    pub bytes: &'a mut [u8],
    pub len: usize,
}

impl Sink for Bytes<'_> {
    ghost room = { λ s n. s.len + n ≤ length s.bytes.now };

    // The list is still the caller's own.
    ghost after = { λ s l t. Puts s.len l s.bytes.now t.len t.bytes.now × (t.bytes.ghost_name ≡ s.bytes.ghost_name) };

    ghost laws = { bytes_laws };

    fn put(&mut self, value: u32) {
        let bytes = &mut *self.bytes;
        self.len = put(value, bytes, self.len);
    }
}

// The columns of a register with one column's rows exchanged for new rows, which are in range and strictly rise.
ghost use Rattle.std.specs.Prelude.{◌≡◌, ◌<◌};
ghost use Rattle.pattern.specs.Rising.{Rising};
ghost use Rattle.judge.specs.Peel.{spiked_part};

use listing::formed::Formed;

#[derive(Clone, Copy)]
pub struct Spiked<'a> {
    pub columns: Formed<'a>,
    pub column: usize,
    pub new: &'a [u16],
    ghost new_column: { (column < columns.size) × Rising columns.size new.now },
}

impl<'a> Spiked<'a> {
    // The rows of column y.
    pub fn part(self, y: usize) -> &'a [u16]
        requires { y < self.columns.size }
        ensures { result.now ≡ spiked_part self.entry.columns.listed.starts.now self.entry.columns.listed.entries.now
            self.entry.column self.entry.new.now y }
    {
        if y == self.column {
            return self.new;
        }
        self.columns.part(y)
    }
}

// The six lists of a register, as the caller lends them: the starts and rows of the column listing, the starts and columns of the
// row listing, and the order's rows and columns.
ghost use Rattle.std.specs.Prelude.{◌≡◌};
ghost use Rattle.register.specs.Loan.{seen, held};

use listing::listing::Listed;

#[derive(Clone, Copy)]
pub struct Lent<'a> {
    pub columns: Listed<'a>,
    pub rows: Listed<'a>,
    pub order_rows: &'a [u16],
    pub order_cols: &'a [u16],
}

// The same lists, lent to be written.
#[derive(Drop)]
pub struct LentMut<'a> {
    pub col_starts: &'a mut [u16],
    pub col_rows: &'a mut [u16],
    pub row_starts: &'a mut [u16],
    pub row_cols: &'a mut [u16],
    pub order_rows: &'a mut [u16],
    pub order_cols: &'a mut [u16],
}

impl LentMut<'_> {
    // To be read, for a while.
    pub fn view(&self) -> Lent<'_>
        ensures { seen result ≡ held self.now }
    {
        Lent {
            columns: Listed {
                starts: &*self.col_starts,
                entries: &*self.col_rows,
            },
            rows: Listed {
                starts: &*self.row_starts,
                entries: &*self.row_cols,
            },
            order_rows: &*self.order_rows,
            order_cols: &*self.order_cols,
        }
    }
}

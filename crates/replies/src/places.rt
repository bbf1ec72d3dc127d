// The places of an order, as row:column after a space.
ghost use Rattle.std.specs.Prelude.{◌≤◌, length};
ghost use Rattle.pattern.specs.Order.{pairs};
ghost use Rattle.text.specs.Prints.{HasRoom, Prints};
ghost use Rattle.replies.specs.Replies.{place_text, places_text};

use text::output::Output;

// The first m places of an order, each after a space.
pub fn put_places(m: usize, rows: &[u16], cols: &[u16], out: &mut Output)
    requires { (m ≤ length rows.now) × (m ≤ length cols.now) × HasRoom (length (places_text (pairs m rows.now cols.now))) out.old }
    ensures { Prints (places_text (pairs m rows.now cols.now)) out.old out.new }
{
    for (row, col) in rows[..m].iter().zip(&cols[..m]) {
        put_place(usize::from(*row), usize::from(*col), out);
    }
}

// A place, after a space.
fn put_place(row: usize, col: usize, out: &mut Output)
    requires { HasRoom (length (place_text 0 (row, col))) out.old }
    ensures { Prints (place_text 0 (row, col)) out.old out.new }
{
    out.spaced(row);
    out.byte(b':');
    out.number(col);
}

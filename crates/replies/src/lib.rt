// The tryout's reply lines, printed where there is room for any of them.

#![tactic(auto)]

mod places;

ghost use Rattle.std.specs.Prelude.{◌≤◌, length};
ghost use Rattle.pattern.specs.Order.{pairs};
ghost use Rattle.text.specs.Prints.{HasRoom, Prints};
ghost use Rattle.text.specs.Text.{max_number};
ghost use Rattle.replace.specs.Reply.{said, reply};
ghost use Rattle.replies.specs.Shown.{max_word, max_answer, Stands, Printable};
ghost use Rattle.replies.specs.Replies.{bad_line, start_refused, numbered, eta_text, verdict_text, reply_text, reply_line, max_reply};

use crate::places::put_places;
use judge::Judgment;
use register::Refusal;
use text::output::Output;

// No reply line has more bytes.
pub const MAX_REPLY: usize = 20000;

const PUT: [u8; 3] = *b"put";

const START: [u8; 5] = *b"start";

const BAD: [u8; 8] = *b"bad line";

const REFUSED: [u8; 8] = *b" REFUSED";

const SINGULAR: [u8; 9] = *b" SINGULAR";

const PERMUTED: [u8; 9] = *b" PERMUTED";

const ELIMINATION: [u8; 12] = *b" ELIMINATION";

const ETA: [u8; 4] = *b" eta";

const NONE: [u8; 2] = *b" -";

const ORDER: [u8; 6] = *b" order";

// A word, a number and the LF.
fn put_numbered(word: &[u8], n: usize, out: &mut Output)
    requires { HasRoom (length (numbered word.now n)) out.old }
    ensures { Prints (numbered word.now n) out.old out.new }
{
    out.word(word);
    out.spaced(n);
    out.byte(b'\n');
}

// 'bad line k'
pub fn bad_line(number: usize, out: &mut Output)
    requires { HasRoom max_reply out.old }
    ensures { Prints (bad_line number) out.old out.new }
{
    put_numbered(&BAD, number, out);
}

// 'start REFUSED n'
pub fn start_refused(n: usize, out: &mut Output)
    requires { HasRoom max_reply out.old }
    ensures { Prints (start_refused n) out.old out.new }
{
    out.word(&START);
    put_numbered(&REFUSED, n, out);
}

// The eta rows, or '-'.
fn put_eta(eta: &[u16], out: &mut Output)
    requires { HasRoom (length (eta_text eta.now)) out.old }
    ensures { Prints (eta_text eta.now) out.old out.new }
{
    if eta.is_empty() {
        out.word(&NONE);
    } else {
        out.numbers(eta);
    }
}

// A verdict with its fields. There is room for any: the bump, as a machine number, has twenty digits at most.
fn put_verdict(
    word: &[u8],
    bump: usize,
    eta: &[u16],
    m: usize,
    rows: &[u16],
    cols: &[u16],
    out: &mut Output,
)
    requires { (length word.now ≤ max_word) × Stands m (length eta.now) rows.now cols.now eta.now × HasRoom max_answer out.old }
    ensures { Prints (verdict_text word.now bump eta.now (pairs m rows.now cols.now)) out.old out.new }
{
    out.word(word);
    out.spaced(bump);
    out.word(&ETA);
    put_eta(eta, out);
    out.word(&ORDER);
    put_places(m, rows, cols, out);
    out.byte(b'\n');
}

// What follows 'put' and the column where a verdict is given.
fn put_judgment(
    judgment: Judgment,
    m: usize,
    rows: &[u16],
    cols: &[u16],
    eta: &[u16],
    out: &mut Output,
)
    requires { Printable m (said judgment) rows.now cols.now eta.now × HasRoom max_answer out.old }
    ensures { Prints (reply_text m (said judgment) rows.now cols.now eta.now) out.old out.new }
{
    match judgment {
        Judgment::Singular => put_verdict(&SINGULAR, 0, &eta[..0], m, rows, cols, out),
        Judgment::Permuted => put_verdict(&PERMUTED, 0, &eta[..0], m, rows, cols, out),
        Judgment::Elimination { bump, eta_count } => {
            put_verdict(&ELIMINATION, bump, &eta[..eta_count], m, rows, cols, out)
        }
    }
}

// The reply line of a put. What is printed of the lists stands in them, and is no longer than a reply line may be.
pub fn put_reply(
    m: usize,
    column: usize,
    replaced: Result<Judgment, Refusal>,
    rows: &[u16],
    cols: &[u16],
    eta: &[u16],
    out: &mut Output,
)
    requires { (column ≤ max_number) × Printable m (reply replaced) rows.now cols.now eta.now × HasRoom max_reply out.old }
    ensures { Prints (reply_line m column (reply replaced) rows.now cols.now eta.now) out.old out.new }
{
    out.word(&PUT);
    out.spaced(column);
    match replaced {
        Err(refusal) => put_numbered(&REFUSED, refusal.number(), out),
        Ok(judgment) => put_judgment(judgment, m, rows, cols, eta, out),
    }
}

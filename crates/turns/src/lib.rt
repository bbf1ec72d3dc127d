// The lines of the tryout in their turn: what each does to a run.

#![tactic(auto)]

pub mod col_turn;
pub mod order_turn;
pub mod put_turn;
pub mod steps;

// Which line is wanted: 'order', 'col' with its number (of so many, and whether all columns before it fit), 'put', or none.
#[derive(Clone, Copy)]
pub enum Turn {
    Order,
    Column {
        size: usize,
        column: usize,
        fits: bool,
    },
    Put {
        size: usize,
    },
    Ended,
}

// How a run stands: which line is wanted, the number of the line that is being read, and how many bytes of it there are.
#[derive(Clone, Copy)]
pub struct State {
    pub turn: Turn,
    pub number: usize,
    pub used: usize,
}

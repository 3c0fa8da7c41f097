// How a run ends, and what an entry leads to.
use ir_meaning::activation::Activation;

/// How a run ends. A value is None where it is poison, or where there is none.
#[derive(Clone, Copy, PartialEq, Eq, Drop)]
pub enum End {
    Answer(Option<u128>),
    Stack,
    NotEnded,
    Undefined,
}

/// What an entry leads to.
#[derive(Drop)]
pub enum Entered {
    Opens(Activation),
    Ends(End),
}

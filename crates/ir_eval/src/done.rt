// What a turn of an activation leads to.
use sqlite_items::Items;

/// What an instruction that was paid for leads to. A value is None where it is poison, or where there is none.
#[derive(Drop)]
pub enum Done {
    /// The activation goes on.
    Goes,
    /// A function is called with these arguments.
    Calls(u32, Items<Option<u128>>),
    Returns(Option<u128>),
    /// A stack is full.
    Overflows,
    /// Nothing says what comes.
    Breaks,
}

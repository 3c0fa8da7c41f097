// The listing of words: what each spells, in the form of an assembler.
#![tactic(auto)]

pub mod listing;
pub mod names;

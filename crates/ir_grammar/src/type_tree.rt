//! Types as they are written, each part with its place.
use ir_text::{Name, Number};
use sqlite_items::Items;

/// A part of a type, with its place, by how many bytes are left from its first token on; what stands inside it follows.
#[derive(Drop)]
pub enum TypeNode {
    Void(usize),
    /// The digits of the width, and the place.
    Int(Items<u8>, usize),
    Ptr(usize),
    Array(Number, usize),
    Struct(usize),
    Packed(usize),
    /// The end of a struct.
    Close,
    Named(Name),
}

pub type Type = Items<TypeNode>;

/// `align` and its number, with the place of the word.
#[derive(Drop)]
pub struct Align {
    pub left: usize,
    pub number: Number,
}

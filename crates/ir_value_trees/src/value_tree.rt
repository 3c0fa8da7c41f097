//! Values as they are written, each with its place.
use ir_grammar::type_tree::{Type, TypeNode};
use ir_text::{Name, Number};
use sqlite_items::Items;

/// An index of a constant address.
#[derive(Drop)]
pub struct Index {
    pub ty: TypeNode,
    pub number: Number,
}

/// `@NAME` inside as many `getelementptr` as there are heads; the first of the tails is the innermost one's indices.
#[derive(Drop)]
pub struct Address {
    pub left: usize,
    pub heads: Items<Type>,
    pub name: Name,
    pub tails: Items<Items<Index>>,
}

#[derive(Drop)]
pub enum Value {
    Local(Name),
    Number(Number),
    True(usize),
    False(usize),
    Null(usize),
    Poison(usize),
    Address(Address),
}

#[derive(Drop)]
pub struct Typed {
    pub ty: Type,
    pub value: Value,
}

/// A part of an initial value; a list's elements follow, each behind its type.
#[derive(Drop)]
pub enum InitNode {
    Number(Number),
    True(usize),
    False(usize),
    Null(usize),
    Zero(usize),
    Address(Address),
    Bytes(Items<u8>, usize),
    Array(usize),
    Struct(usize),
    Packed(usize),
    Of(Type),
    /// The end of a list, and its place.
    Close(usize),
}

//! Instructions as they are written: names and numbers, each with its place.
use ir_core::code::{BinOp, CastOp, Flags, Pred};
use ir_grammar::type_tree::{Align, Type};
use ir_text::Name;
use ir_value_trees::value_tree::{Typed, Value};
use sqlite_items::Items;

#[derive(Drop)]
pub struct Incoming {
    pub value: Value,
    pub block: Name,
}

#[derive(Drop)]
pub struct Case {
    pub ty: Type,
    pub value: Value,
    pub block: Name,
}

#[derive(Drop)]
pub enum Operation {
    Binary(BinOp, Flags, Typed, Value),
    Icmp(Flags, Pred, Typed, Value),
    Cast(CastOp, Flags, Typed, Type),
    Select(Typed, Typed, Typed),
    Freeze(Typed),
    Phi(Type, Items<Incoming>),
    /// The place of the word, the type of an item, and how many there are; a count is a number or no constant.
    Alloca(usize, Type, Option<Typed>),
    /// What is loaded, and from where.
    Load(Type, Typed),
    Store(Typed, Typed),
    Gep(Type, Typed, Items<Typed>),
    /// The result's type, whether the callee is a local name, the callee, and the arguments.
    Call(Type, bool, Name, Items<Typed>),
    Ret(Type, Option<Value>),
    Br(Name),
    CondBr(Typed, Name, Name),
    Switch(Typed, Name, Items<Case>),
    Unreachable,
}

#[derive(Drop)]
pub struct Instruction {
    pub left: usize,
    pub result: Option<Name>,
    pub operation: Operation,
    /// What `align` says behind it.
    pub aligns: Items<Align>,
}

//! What an initial value says, as its type asks.
ghost use Rattle.std.specs.Prelude.{◌≡◌, ◌++◌, ◌∷◌, [], ℕ, Ok, length};
ghost use Rattle.ir_core.specs.declared.types.MemTy.{out-MemTy};
ghost use Rattle.ir_types.specs.Walk.{Gives};
ghost use Rattle.ir_resolve.specs.Inits.{place_of, first_place, number_of, is_pointer, place_init, is_byte, byte_count, where_counted, bytes_init, leaf, closed, typed, elements, fields_of, array_of, struct_of, value, init_of, at_end};

use crate::address::place;
use crate::numbers::literal_of;
use crate::operands::place_of_type;
use crate::same::same_type;
use ir_core::program::Init;
use ir_core::types::MemTy;
use ir_text::{Number, unquote};
use ir_types::{Fault, Named, Types, memory};
use ir_value_trees::value_tree::{Address, InitNode};
use sqlite_items::Items;
use std::alloc::Global;

/// What is known where initial values are read.
#[derive(Clone, Copy, Drop)]
pub struct Scope<'a> {
    pub alloc: Global,
    pub types: &'a Types,
    pub symbols: &'a Named,
}

fn place_of(node: &InitNode) -> usize
    ensures { result ≡ place_of node.now }
{
    match node {
        InitNode::Number(number) => number.left,
        InitNode::Address(given) => given.left,
        InitNode::Of(given) => place_of_type(given.as_slice()),
        InitNode::True(left) => *left,
        InitNode::False(left) => *left,
        InitNode::Null(left) => *left,
        InitNode::Zero(left) => *left,
        InitNode::Bytes(_, left) => *left,
        InitNode::Array(left) => *left,
        InitNode::Struct(left) => *left,
        InitNode::Packed(left) => *left,
        InitNode::Close(left) => *left,
    }
}

fn first_place(nodes: &[InitNode]) -> usize
    ensures { result ≡ first_place nodes.now }
{
    match nodes.first() {
        Some(node) => place_of(node),
        None => 0,
    }
}

fn number_of(ty: &MemTy, number: &Number) -> Result<Init, Fault>
    ensures { Gives (λ init. init) result (number_of (out-MemTy ty.now) number.now) }
{
    match ty {
        MemTy::Int(width) => {
            let value = literal_of(number, *width)?;
            Ok(Init::Num(value))
        }
        _ => Err(Fault::Syntax(number.left)),
    }
}

fn is_pointer(ty: &MemTy) -> bool
    ensures { result ≡ is_pointer (out-MemTy ty.now) }
{
    matches!(ty, MemTy::Ptr)
}

fn place_init(scope: &Scope<'_>, given: &Address) -> Result<Init, Fault>
    ensures { Gives (λ init. init) result (place_init scope.now.types.now scope.now.symbols.now given.now) }
{
    let (global, offset) = place(scope.alloc, scope.types, scope.symbols, given)?;
    Ok(Init::Place(global, offset))
}

fn is_byte(ty: &MemTy) -> bool
    ensures { result ≡ is_byte (out-MemTy ty.now) }
{
    match ty {
        MemTy::Int(width) => *width == 8,
        _ => false,
    }
}

/// The count of an array of bytes.
fn byte_count(ty: &MemTy) -> Option<u64>
    ensures { result ≡ byte_count (out-MemTy ty.now) }
{
    match ty {
        MemTy::Array(count, element) => {
            if is_byte(element.get()) {
                Some(*count)
            } else {
                None
            }
        }
        _ => None,
    }
}

fn where_counted(left: usize, bytes: Items<u8>, count: Option<u64>) -> Result<Init, Fault>
    ensures { Gives (λ init. init) result (where_counted left bytes count) }
{
    match count {
        Some(count) => {
            if bytes.len() as u64 == count {
                Ok(Init::Bytes(bytes))
            } else {
                Err(Fault::Syntax(left))
            }
        }
        None => Err(Fault::Syntax(left)),
    }
}

fn bytes_init(alloc: Global, ty: &MemTy, text: &[u8], left: usize) -> Result<Init, Fault>
    ensures { Gives (λ init. init) result (bytes_init (out-MemTy ty.now) text.now left) }
{
    match unquote(alloc, text)? {
        Some(bytes) => where_counted(left, bytes, byte_count(ty)),
        None => Err(Fault::Syntax(left)),
    }
}

/// A value that is one node.
fn leaf(scope: &Scope<'_>, ty: &MemTy, node: &InitNode) -> Result<Init, Fault>
    ensures { Gives (λ init. init) result (leaf scope.now.types.now scope.now.symbols.now (out-MemTy ty.now) node.now) }
{
    match node {
        InitNode::Number(number) => number_of(ty, number),
        InitNode::Null(left) => {
            if is_pointer(ty) {
                Ok(Init::Null)
            } else {
                Err(Fault::Syntax(*left))
            }
        }
        InitNode::Zero(_) => Ok(Init::Zero),
        InitNode::Address(given) => {
            if is_pointer(ty) {
                place_init(scope, given)
            } else {
                Err(Fault::Syntax(given.left))
            }
        }
        InitNode::Bytes(text, left) => bytes_init(scope.alloc, ty, text.as_slice(), *left),
        other => Err(Fault::Syntax(place_of(other))),
    }
}

/// Nodes that are still to be read.
#[derive(Clone, Copy, Drop)]
pub struct Cursor<'a> {
    pub nodes: &'a [InitNode],
}

impl<'a> Cursor<'a> {
    /// The end of a list.
    fn close(&mut self, items: Items<Init>) -> Result<Init, Fault>
        ensures { Gives (λ init. (init, self.new.nodes.now)) result (closed items self.old.nodes.now) }
    {
        match self.nodes {
            [InitNode::Close(_), rest @ ..] => {
                self.nodes = rest;
                Ok(Init::List(items))
            }
            [node, ..] => Err(Fault::Syntax(place_of(node))),
            [] => Err(Fault::Syntax(0)),
        }
    }

    /// A value behind its type, which is the one that is asked.
    #[cycle(reading)]
    fn typed(&mut self, scope: &Scope<'_>, depth: u64, ty: &MemTy) -> Result<Init, Fault>
        ensures { Gives (λ init. (init, self.new.nodes.now)) result (typed scope.now.types.now (value depth scope.now.types.now scope.now.symbols.now) ty.now self.old.nodes.now) }
    {
        match self.nodes {
            [InitNode::Of(given), rest @ ..] => {
                let written = memory(scope.alloc, scope.types, given.as_slice())?;
                self.nodes = rest;
                if same_type(4096, &written, ty) {
                    self.value(scope, depth, ty)
                } else {
                    Err(Fault::Syntax(place_of_type(given.as_slice())))
                }
            }
            [node, ..] => Err(Fault::Syntax(place_of(node))),
            [] => Err(Fault::Syntax(0)),
        }
    }

    #[cycle(reading)]
    fn elements(
        &mut self,
        scope: &Scope<'_>,
        depth: u64,
        element: &MemTy,
        count: u64,
    ) -> Result<Init, Fault>
        ensures { Gives (λ init. (init, self.new.nodes.now)) result (elements (typed scope.now.types.now (value depth scope.now.types.now scope.now.symbols.now) element.now) count [] self.old.nodes.now) }
    {
        let mut items = Items::new(scope.alloc);
        for _ in 0..count {
            let item = self.typed(scope, depth, element)?;
            items.push(item)?;
        }
        self.close(items)
    }

    #[cycle(reading)]
    fn fields_of(&mut self, scope: &Scope<'_>, depth: u64, fields: &[MemTy]) -> Result<Init, Fault>
        ensures { Gives (λ init. (init, self.new.nodes.now)) result (fields_of (typed scope.now.types.now (value depth scope.now.types.now scope.now.symbols.now)) fields.now [] self.old.nodes.now) }
    {
        let mut items = Items::new(scope.alloc);
        for field in fields {
            let item = self.typed(scope, depth, field)?;
            items.push(item)?;
        }
        self.close(items)
    }

    #[cycle(reading)]
    fn array_of(
        &mut self,
        scope: &Scope<'_>,
        depth: u64,
        ty: &MemTy,
        left: usize,
    ) -> Result<Init, Fault>
        ensures { Gives (λ init. (init, self.new.nodes.now)) result (array_of (typed scope.now.types.now (value depth scope.now.types.now scope.now.symbols.now)) (out-MemTy ty.now) left self.old.nodes.now) }
    {
        match ty {
            MemTy::Array(count, element) => self.elements(scope, depth, element.get(), *count),
            _ => Err(Fault::Syntax(left)),
        }
    }

    #[cycle(reading)]
    fn struct_of(
        &mut self,
        scope: &Scope<'_>,
        depth: u64,
        packed: bool,
        ty: &MemTy,
        left: usize,
    ) -> Result<Init, Fault>
        ensures { Gives (λ init. (init, self.new.nodes.now)) result (struct_of (typed scope.now.types.now (value depth scope.now.types.now scope.now.symbols.now)) packed (out-MemTy ty.now) left self.old.nodes.now) }
    {
        match ty {
            MemTy::Struct(fields, is_packed) => {
                if packed == *is_packed {
                    self.fields_of(scope, depth, fields.as_slice())
                } else {
                    Err(Fault::Syntax(left))
                }
            }
            _ => Err(Fault::Syntax(left)),
        }
    }

    /// An initial value of a type of at most this depth.
    #[cycle(reading)]
    #[tactic(auto, unfolding(crate::specs::Inits::value))]
    fn value(&mut self, scope: &Scope<'_>, depth: u64, ty: &MemTy) -> Result<Init, Fault>
        ensures { Gives (λ init. (init, self.new.nodes.now)) result (value depth scope.now.types.now scope.now.symbols.now ty.now self.old.nodes.now) }
    {
        if depth == 0 {
            return Err(Fault::Syntax(first_place(self.nodes)));
        }
        let [node, rest @ ..] = self.nodes else {
            return Err(Fault::Syntax(0));
        };
        self.nodes = rest;
        match node {
            InitNode::Array(left) => self.array_of(scope, depth - 1, ty, *left),
            InitNode::Struct(left) => self.struct_of(scope, depth - 1, false, ty, *left),
            InitNode::Packed(left) => self.struct_of(scope, depth - 1, true, ty, *left),
            InitNode::Number(_) => leaf(scope, ty, node),
            InitNode::True(_) => leaf(scope, ty, node),
            InitNode::False(_) => leaf(scope, ty, node),
            InitNode::Null(_) => leaf(scope, ty, node),
            InitNode::Zero(_) => leaf(scope, ty, node),
            InitNode::Address(_) => leaf(scope, ty, node),
            InitNode::Bytes(_, _) => leaf(scope, ty, node),
            InitNode::Of(_) => leaf(scope, ty, node),
            InitNode::Close(_) => leaf(scope, ty, node),
        }
    }
}

/// The whole initial value of a global of this type.
#[tactic(auto, unfolding(crate::specs::Inits::init_of))]
pub fn init_of(scope: &Scope<'_>, ty: &MemTy, nodes: &[InitNode]) -> Result<Init, Fault>
    ensures { Gives (λ init. init) result (init_of scope.now.types.now scope.now.symbols.now ty.now nodes.now) }
{
    let mut cursor = Cursor { nodes };
    let init = cursor.value(scope, 4096, ty)?;
    match cursor.nodes.first() {
        Some(node) => Err(Fault::Syntax(place_of(node))),
        None => Ok(init),
    }
}

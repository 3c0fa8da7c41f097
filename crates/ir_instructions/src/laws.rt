// Why an instruction has no meaning.
ghost use Rattle.std.specs.Prelude.{◌≡◌, Err, Ok};
ghost use Rattle.ir_types.specs.Types.{type_of};
ghost use Rattle.ir_instructions.specs.Instructions.{operation};
ghost use Rattle.ir_instructions.specs.Causes.{Unanswered, asks};

use ir_core::types::Ty;
use ir_grammar::type_tree::{Align, TypeNode};
use ir_instruction_trees::Operation;
use ir_resolve::scope::Outer;
use ir_types::{Fault, Table};

/// A law: the fault of an operation, in a function with this result, is that of something that it asks.
pub fn operation_fault(
    outer: &Outer,
    table: &Table,
    ret: &[TypeNode],
    ty: Ty,
    entry: bool,
    aligns: &[Align],
    given: &Operation,
    fault: Fault,
)
    requires result { type_of outer.now.types ret.now ≡ Ok ty }
    requires fails { operation outer.now.types outer.now.symbols table.now ty entry aligns.now given.now ≡ Err fault }
    ensures { Unanswered outer.now.types outer.now.symbols table.now (asks ret.now entry aligns.now given.now) fault }
{}

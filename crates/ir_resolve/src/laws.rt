// Why an operand has no meaning.
ghost use Rattle.std.specs.Prelude.{◌≡◌, Err};
ghost use Rattle.ir_resolve.specs.Operands.{operand};
ghost use Rattle.ir_resolve.specs.Causes.{ValueFault};

use crate::scope::Outer;
use ir_core::types::Ty;
use ir_types::{Fault, Table};
use ir_value_trees::value_tree::Value;

/// A law: the fault of an operand of a type shows its cause.
pub fn operand_fault(outer: &Outer, table: &Table, ty: Ty, value: &Value, fault: Fault)
    requires { operand outer.now.types outer.now.symbols table.now ty value.now ≡ Err fault }
    ensures { ValueFault outer.now.types outer.now.symbols table.now ty value.now fault }
{}

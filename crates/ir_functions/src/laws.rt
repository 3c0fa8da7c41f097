// Why a tree has no module.
ghost use Rattle.ir_types.specs.declared.fault.Fault.TheVariants as faults;
ghost use Rattle.ir_functions.specs.Functions.{IsTreeFault};
ghost use Rattle.ir_functions.specs.TreeCauses.{TreeFault, FitsTree};

use ir_tree::Tree;
use ir_types::Fault;

/// A law: the fault of a tree shows its cause.
pub fn tree_fault(tree: &Tree, fault: Fault)
    requires { IsTreeFault tree.now fault }
    ensures { TreeFault tree.now fault }
{}

/// A law: where a tree's fault is one of syntax, some part of the tree doesn't fit.
pub fn syntax_fault(tree: &Tree, left: usize)
    requires { IsTreeFault tree.now (faults.Syntax left) }
    ensures { FitsTree tree.now → ⊥ }
{}

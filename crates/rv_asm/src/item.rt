// The items of code with labels.

use rv_core::instr::{BranchOp, Instr};
use rv_core::reg::Reg;

/// An instruction, a branch to a label, or a jump to a label. Labels go by number.
#[derive(Clone, Copy, PartialEq, Eq, Drop)]
pub enum Item {
    Plain(Instr),
    BranchTo(BranchOp, Reg, Reg, u32),
    JumpTo(u32),
}

/// How a label is reached: by a short branch; by the opposite branch over a `jal`; by the opposite branch over `auipc` and
/// `jalr`, which change t6. A jump has the `jal` alone, or the last two.
#[derive(Clone, Copy, PartialEq, Eq, Drop)]
pub enum Form {
    Short,
    Near,
    Far,
}

/// An item with its form.
#[derive(Clone, Copy, PartialEq, Eq, Drop)]
pub struct Formed {
    pub item: Item,
    pub form: Form,
}

/// A label of code that is being written, by its number.
#[derive(Clone, Copy, PartialEq, Eq, Drop)]
pub struct Label {
    pub number: u32,
}

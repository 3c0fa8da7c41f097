// Registers and blocks go by their number. The written register stands first.
use rv_core::instr::{BranchOp, ImmOp, LoadOp, RegOp, StoreOp};
use sqlite_items::Items;

/// An instruction over virtual registers.
#[derive(Drop)]
pub enum MInst {
    /// A register takes the argument at this place, below 8.
    Param(u32, u32),
    /// An operation on two registers.
    Op(RegOp, u32, u32, u32),
    /// An operation on a register and an immediate that fits its format.
    Imm(ImmOp, u32, u32, i32),
    /// A register takes a number.
    Const(u32, u64),
    /// A register takes another one's value.
    Move(u32, u32),
    /// The register that is loaded, the address and an offset from -2048 to 2047.
    Load(LoadOp, u32, u32, i32),
    /// The register that is stored, the address and an offset from -2048 to 2047.
    Store(StoreOp, u32, u32, i32),
    /// Pairs of a register and the block that it comes from.
    Phi(u32, Items<(u32, u32)>),
    /// The callee, at most eight arguments, and at most one result.
    Call(u32, Items<u32>, Items<u32>),
    /// A register takes the address of so many new bytes of data memory.
    TakeData(u32, u64),
    /// Where to, where from, and how many bytes.
    CopyBytes(u32, u32, u32),
    /// Where, the byte, and how many.
    FillBytes(u32, u32, u32),
    /// Two registers, the block where the condition holds, and the other.
    Branch(BranchOp, u32, u32, u32, u32),
    Jump(u32),
    /// At most one register.
    Return(Items<u32>),
    Trap,
}

/// A function of target code.
#[derive(Drop)]
pub struct MFunction {
    /// Its number in the module.
    pub symbol: u32,
    /// How many values the function of the module has.
    pub values: u32,
    /// The address at which data memory ends.
    pub end: u64,
    /// How many registers it has.
    pub regs: u32,
    pub blocks: Items<Items<MInst>>,
}

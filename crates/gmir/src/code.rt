// Functions of generic machine code. Registers and blocks go by their number.
use sqlite_items::Items;

/// What a register holds.
#[derive(Clone, Copy, PartialEq, Eq, Drop)]
pub enum GType {
    /// A scalar of so many bits, from 1 to 64.
    S(u32),
    /// A pointer: 64 bits.
    P0,
}

/// The generic instructions, after those of LLVM's GlobalISel (its names begin with `G_`), and some of our own from `Param` on.
/// No operation has a flag.
#[derive(Clone, Copy, PartialEq, Eq, Drop)]
pub enum GOp {
    Add,
    Sub,
    Mul,
    UDiv,
    SDiv,
    URem,
    SRem,
    And,
    Or,
    Xor,
    Shl,
    LShr,
    AShr,
    /// `num` is the predicate's place in `Pred`.
    Icmp,
    /// A condition, the value where it is 1, and the value where it is 0.
    Select,
    Trunc,
    ZExt,
    SExt,
    /// The new bits are free.
    AnyExt,
    /// The low `num` bits, extended by their sign.
    SExtInReg,
    PtrToInt,
    IntToPtr,
    PtrAdd,
    /// `num` is the constant.
    Constant,
    /// `uses` are in step with the blocks of `to` that they come from.
    Phi,
    /// From an address, so many bits as `num` says: 8, 16, 32 or 64. The bits above them are free.
    Load,
    /// A value and an address: so many of its low bits as `num` says.
    Store,
    /// To the block of `to`.
    Br,
    /// A condition; `to` has the block where it is 1, then that where it is 0.
    BrCond,
    /// The argument at place `num`, from 0 to 7.
    Param,
    /// `to` has the callee; `uses` are its arguments, `defs` its result, where it has one.
    Call,
    /// Of one value or none.
    Return,
    /// The address of `num` fresh bytes at the data top.
    TakeData,
    /// The addresses of where to and from, and how many bytes.
    CopyBytes,
    /// The address of where to, the byte, and how many.
    FillBytes,
    Copy,
    /// Never reached by a run that has a meaning.
    Trap,
}

/// An instruction: it reads `uses` and writes `defs`.
#[derive(Drop)]
pub struct GInst {
    pub op: GOp,
    pub defs: Items<u32>,
    pub uses: Items<u32>,
    pub num: u128,
    pub to: Items<u32>,
}

/// A function of generic machine code.
#[derive(Drop)]
pub struct GFunction {
    /// The number of the function that it came from.
    pub symbol: u32,
    /// How many values that function has: its frame goes by it.
    pub values: u32,
    /// The address at which data memory ends.
    pub end: u64,
    /// The type of each register.
    pub types: Items<GType>,
    pub blocks: Items<Items<GInst>>,
}

// Modules made by hand. What has no room is handed on, so that calls nest.

use ir_core::code::{BinOp, Block, Flags, Inst, Op, Operand};
use ir_core::program::{Function, Module};
use ir_core::types::Ty;
use sqlite_items::Items;
use std::alloc::{AllocError, Global};

/// No flag is set.
pub const PLAIN: Flags = Flags {
    nuw: false,
    nsw: false,
    exact: false,
    disjoint: false,
    nneg: false,
    samesign: false,
};

/// An instruction without a result.
pub fn ends(op: Op) -> Result<Inst, AllocError> {
    Ok(Inst {
        gives: Ty::Void,
        op,
    })
}

/// An instruction with a result of this type.
pub fn gives(gives: Ty, op: Op) -> Result<Inst, AllocError> {
    Ok(Inst { gives, op })
}

/// `add i64`.
pub fn add(a: Operand, b: Operand) -> Result<Inst, AllocError> {
    gives(Ty::Int(64), Op::Binary(BinOp::Add, PLAIN, a, b))
}

/// `ret i64`.
pub fn ret(a: Operand) -> Result<Inst, AllocError> {
    ends(Op::Ret(Some(a)))
}

/// `br label`.
pub fn br(to: u32) -> Result<Inst, AllocError> {
    ends(Op::Br(to))
}

/// A phi of `i64` with one operand.
pub fn phi1(alloc: Global, a: Operand, from: u32) -> Result<Inst, AllocError> {
    let pairs = vec![in alloc; (a, from)]?;
    gives(Ty::Int(64), Op::Phi(Items::from_vec(pairs)))
}

/// A phi of `i64` with two operands.
pub fn phi2(
    alloc: Global,
    a: Operand,
    from: u32,
    b: Operand,
    other: u32,
) -> Result<Inst, AllocError> {
    let pairs = vec![in alloc; (a, from), (b, other)]?;
    gives(Ty::Int(64), Op::Phi(Items::from_vec(pairs)))
}

/// A call of function 0 with one argument.
pub fn call(alloc: Global, gives_type: Ty, ty: Ty, a: Operand) -> Result<Inst, AllocError> {
    let arguments = vec![in alloc; (ty, a)]?;
    gives(gives_type, Op::Call(0, Items::from_vec(arguments)))
}

/// A block without an instruction.
pub fn block0(alloc: Global) -> Result<Block, AllocError> {
    Ok(Block {
        insts: Items::new(alloc),
    })
}

pub fn block1(alloc: Global, a: Result<Inst, AllocError>) -> Result<Block, AllocError> {
    let a = a?;
    let insts = vec![in alloc; a]?;
    Ok(Block {
        insts: Items::from_vec(insts),
    })
}

pub fn block2(
    alloc: Global,
    a: Result<Inst, AllocError>,
    b: Result<Inst, AllocError>,
) -> Result<Block, AllocError> {
    let a = a?;
    let b = b?;
    let insts = vec![in alloc; a, b]?;
    Ok(Block {
        insts: Items::from_vec(insts),
    })
}

pub fn block3(
    alloc: Global,
    a: Result<Inst, AllocError>,
    b: Result<Inst, AllocError>,
    c: Result<Inst, AllocError>,
) -> Result<Block, AllocError> {
    let a = a?;
    let b = b?;
    let c = c?;
    let insts = vec![in alloc; a, b, c]?;
    Ok(Block {
        insts: Items::from_vec(insts),
    })
}

/// A module of one function.
pub fn module_of(
    alloc: Global,
    params: Vec<Ty>,
    ret: Ty,
    blocks: Vec<Block>,
) -> Result<Module, AllocError> {
    let function = Function {
        name: Items::new(alloc),
        params: Items::from_vec(params),
        ret,
        blocks: Items::from_vec(blocks),
    };
    let functions = vec![in alloc; function]?;
    Ok(Module {
        globals: Items::new(alloc),
        functions: Items::from_vec(functions),
    })
}

/// A module of one function that takes an `i1`, value 0, and gives an `i64`.
pub fn plain(alloc: Global, blocks: Vec<Block>) -> Result<Module, AllocError> {
    let params = vec![in alloc; Ty::Int(1)]?;
    module_of(alloc, params, Ty::Int(64), blocks)
}

pub fn one(alloc: Global, a: Result<Block, AllocError>) -> Result<Module, AllocError> {
    let a = a?;
    let blocks = vec![in alloc; a]?;
    plain(alloc, blocks)
}

pub fn two(
    alloc: Global,
    a: Result<Block, AllocError>,
    b: Result<Block, AllocError>,
) -> Result<Module, AllocError> {
    let a = a?;
    let b = b?;
    let blocks = vec![in alloc; a, b]?;
    plain(alloc, blocks)
}

pub fn three(
    alloc: Global,
    a: Result<Block, AllocError>,
    b: Result<Block, AllocError>,
    c: Result<Block, AllocError>,
) -> Result<Module, AllocError> {
    let a = a?;
    let b = b?;
    let c = c?;
    let blocks = vec![in alloc; a, b, c]?;
    plain(alloc, blocks)
}

pub fn four(
    alloc: Global,
    a: Result<Block, AllocError>,
    b: Result<Block, AllocError>,
    c: Result<Block, AllocError>,
    d: Result<Block, AllocError>,
) -> Result<Module, AllocError> {
    let a = a?;
    let b = b?;
    let c = c?;
    let d = d?;
    let blocks = vec![in alloc; a, b, c, d]?;
    plain(alloc, blocks)
}

// Each row of the verifier's table, by a module that it refuses or lets pass.
use crate::build::{
    PLAIN, add, block0, block1, block2, block3, br, call, ends, four, gives, module_of, one, phi1,
    phi2, ret, three, two,
};
use ir_core::code::{BinOp, CastOp, Inst, Op, Operand};
use ir_core::program::{Function, Module, What};
use ir_core::types::{MemTy, Ty};
use ir_verify::refusal::VerifyRefusal;
use ir_verify::verdict::verify;
use sqlite_items::Items;
use std::alloc::{AllocError, Global};

const ONE: Operand = Operand::Num(1);

/// The blocks of a walk as digits, behind a 1.
fn digits(walk: &[u32]) -> u32 {
    let mut number = 1u32;
    for block in walk {
        number = number.wrapping_mul(10).wrapping_add(*block);
    }
    number
}

/// The row's number in the table's order, and what it shows.
fn shown(refusal: &VerifyRefusal) -> (u32, u32, u32) {
    match refusal {
        VerifyRefusal::Limit { what, count } => (1, *what as u32, (*count % 1000) as u32),
        VerifyRefusal::Shape { function, block } => (2, *function, *block),
        VerifyRefusal::Range { function, inst } => (3, *function, *inst),
        VerifyRefusal::EntryEdge { function, block } => (4, *function, *block),
        VerifyRefusal::BadType { function, inst } => (5, *function, *inst),
        VerifyRefusal::CallShape { inst, callee, .. } => (6, *inst, *callee),
        VerifyRefusal::PhiEdges { function, block } => (7, *function, *block),
        VerifyRefusal::NotAssigned { value, walk, .. } => (8, *value, digits(walk.as_slice())),
        VerifyRefusal::NoMemory => (9, 0, 0),
    }
}

/// What the verifier shows of a module: zeros where it passes.
fn row(alloc: Global, module: Result<Module, AllocError>) -> (u32, u32, u32) {
    match module {
        Ok(module) => match verify(alloc, module, 4096) {
            Ok(_) => (0, 0, 0),
            Err((_, refusal)) => shown(&refusal),
        },
        Err(_) => (9, 9, 9),
    }
}

/// A function with so many parameters.
fn with_parameters(alloc: Global, count: usize) -> Result<Module, AllocError> {
    let mut params = Vec::new(alloc);
    for _ in 0..count {
        params.push(Ty::Int(64))?;
    }
    let last = block1(alloc, ret(ONE))?;
    let blocks = vec![in alloc; last]?;
    module_of(alloc, params, Ty::Int(64), blocks)
}

/// A switch with so many cases of an `i64`, all to block 1, numbered from 0 by this step.
fn with_cases(alloc: Global, count: u32, step: u128) -> Result<Module, AllocError> {
    let mut cases = Vec::new(alloc);
    let mut number = 0u128;
    for _ in 0..count {
        cases.push((number, 1))?;
        number = number.wrapping_add(step);
    }
    let switch = ends(Op::Switch(Ty::Int(64), ONE, 1, Items::from_vec(cases)));
    two(alloc, block1(alloc, switch), block1(alloc, ret(ONE)))
}

#[test]
fn limits(rt: HostRuntime) {
    let alloc = rt.alloc();
    assert!(rt; row(alloc, with_parameters(alloc, 8)) == (0, 0, 0));
    assert!(rt; row(alloc, with_parameters(alloc, 9)) == (1, 3, 9));
    assert!(rt; row(alloc, with_cases(alloc, 16_382, 1)) == (0, 0, 0));
    assert!(rt; row(alloc, with_cases(alloc, 16_383, 1)) == (1, 4, 385));
}

#[test]
fn shapes_of_one_block(rt: HostRuntime) {
    let alloc = rt.alloc();
    let sum = add(ONE, ONE);
    assert!(rt; row(alloc, one(alloc, block0(alloc))) == (2, 0, 0));
    assert!(rt; row(alloc, one(alloc, block1(alloc, sum))) == (2, 0, 0));
    assert!(rt; row(alloc, one(alloc, block2(alloc, ret(ONE), ret(ONE)))) == (2, 0, 0));
    assert!(rt;
        row(
            alloc,
            one(alloc, block2(alloc, phi1(alloc, ONE, 0), ret(ONE)))
        ) == (2, 0, 0)
    );
}

#[test]
fn shapes_of_more_blocks(rt: HostRuntime) {
    let alloc = rt.alloc();
    let late = block3(alloc, add(ONE, ONE), phi1(alloc, ONE, 0), ret(ONE));
    assert!(rt; row(alloc, two(alloc, block1(alloc, br(1)), late)) == (2, 0, 1));
    let slot = gives(Ty::Ptr, Op::Alloca(MemTy::Int(64), 1));
    assert!(rt;
        row(
            alloc,
            two(alloc, block1(alloc, br(1)), block2(alloc, slot, ret(ONE)))
        ) == (2, 0, 1)
    );
    assert!(rt; row(alloc, with_cases(alloc, 2, 0)) == (2, 0, 0));
    assert!(rt; row(alloc, with_cases(alloc, 3, 1 << 127)) == (2, 0, 0));
}

/// A call of a function that isn't there.
fn nobody(alloc: Global) -> Result<Inst, AllocError> {
    gives(Ty::Int(64), Op::Call(5, Items::new(alloc)))
}

#[test]
fn ranges(rt: HostRuntime) {
    let alloc = rt.alloc();
    assert!(rt; row(alloc, one(alloc, block1(alloc, ret(Operand::Value(7))))) == (3, 0, 0));
    assert!(rt; row(alloc, one(alloc, block1(alloc, br(9)))) == (3, 0, 0));
    assert!(rt; row(alloc, one(alloc, block2(alloc, nobody(alloc), ret(ONE)))) == (3, 0, 0));
    assert!(rt; row(alloc, one(alloc, block1(alloc, ret(Operand::Place(0, 0))))) == (3, 0, 0));
    assert!(rt; row(alloc, one(alloc, block1(alloc, ret(Operand::Num(1 << 64))))) == (3, 0, 0));
}

#[test]
fn widths(rt: HostRuntime) {
    let alloc = rt.alloc();
    let none = gives(Ty::Int(0), Op::Freeze(Operand::Poison));
    assert!(rt;
        row(
            alloc,
            one(alloc, block3(alloc, add(ONE, ONE), none, ret(ONE)))
        ) == (3, 0, 1)
    );
    let wide = gives(Ty::Int(65), Op::Freeze(Operand::Poison));
    assert!(rt; row(alloc, one(alloc, block2(alloc, wide, ret(ONE)))) == (3, 0, 0));
    let odd = gives(Ty::Ptr, Op::Alloca(MemTy::Int(7), 1));
    assert!(rt; row(alloc, one(alloc, block2(alloc, odd, ret(ONE)))) == (3, 0, 0));
}

#[test]
fn edges_to_the_entry(rt: HostRuntime) {
    let alloc = rt.alloc();
    assert!(rt; row(alloc, one(alloc, block1(alloc, br(0)))) == (4, 0, 0));
    assert!(rt;
        row(
            alloc,
            two(alloc, block1(alloc, br(1)), block1(alloc, br(0)))
        ) == (4, 0, 1)
    );
}

/// An address with this many indices of 0 into bytes.
fn address(alloc: Global, count: usize) -> Result<Inst, AllocError> {
    let mut indices = Vec::new(alloc);
    for _ in 0..count {
        indices.push((Ty::Int(64), Operand::Num(0)))?;
    }
    gives(
        Ty::Ptr,
        Op::Gep(MemTy::Int(8), Operand::Null, Items::from_vec(indices)),
    )
}

#[test]
fn types(rt: HostRuntime) {
    let alloc = rt.alloc();
    assert!(rt; row(alloc, one(alloc, block1(alloc, ret(Operand::Value(0))))) == (5, 0, 0));
    let same = gives(
        Ty::Int(64),
        Op::Cast(CastOp::Trunc, PLAIN, Ty::Int(64), ONE),
    );
    assert!(rt; row(alloc, one(alloc, block2(alloc, same, ret(ONE)))) == (5, 0, 0));
    assert!(rt;
        row(
            alloc,
            one(alloc, block2(alloc, address(alloc, 0), ret(ONE)))
        ) == (5, 0, 0)
    );
    assert!(rt;
        row(
            alloc,
            one(alloc, block2(alloc, address(alloc, 1), ret(ONE)))
        ) == (0, 0, 0)
    );
    assert!(rt;
        row(
            alloc,
            one(alloc, block2(alloc, address(alloc, 2), ret(ONE)))
        ) == (5, 0, 0)
    );
}

#[test]
fn calls(rt: HostRuntime) {
    let alloc = rt.alloc();
    let right = call(alloc, Ty::Int(64), Ty::Int(1), Operand::Value(0));
    assert!(rt;
        row(
            alloc,
            one(alloc, block2(alloc, right, ret(Operand::Value(1))))
        ) == (0, 0, 0)
    );
    let wide = call(alloc, Ty::Int(64), Ty::Int(64), ONE);
    assert!(rt; row(alloc, one(alloc, block2(alloc, wide, ret(ONE)))) == (6, 0, 0));
    let narrow = call(alloc, Ty::Int(32), Ty::Int(1), Operand::Value(0));
    assert!(rt;
        row(
            alloc,
            one(alloc, block3(alloc, add(ONE, ONE), narrow, ret(ONE)))
        ) == (6, 1, 0)
    );
}

/// A branch whose sides both lead to block 1, where a phi takes these operands from block 0.
fn twice(alloc: Global, a: Operand, b: Operand) -> Result<Module, AllocError> {
    let entry = block1(alloc, ends(Op::CondBr(Operand::Value(0), 1, 1)));
    two(
        alloc,
        entry,
        block2(alloc, phi2(alloc, a, 0, b, 0), ret(Operand::Value(1))),
    )
}

#[test]
fn edges_of_phis(rt: HostRuntime) {
    let alloc = rt.alloc();
    assert!(rt; row(alloc, twice(alloc, ONE, ONE)) == (0, 0, 0));
    assert!(rt; row(alloc, twice(alloc, ONE, Operand::Num(2))) == (7, 0, 1));
    let lone = block2(alloc, phi2(alloc, ONE, 0, ONE, 1), ret(ONE));
    assert!(rt; row(alloc, two(alloc, block1(alloc, br(1)), lone)) == (7, 0, 1));
    let single = block2(alloc, phi1(alloc, ONE, 0), ret(Operand::Value(1)));
    assert!(rt; row(alloc, two(alloc, block1(alloc, br(1)), single)) == (0, 0, 0));
}

/// A branch whose left side alone defines value 1, and a join that gives what it is given.
fn one_sided(alloc: Global, given: Operand) -> Result<Module, AllocError> {
    let entry = block1(alloc, ends(Op::CondBr(Operand::Value(0), 1, 2)));
    let left = block2(alloc, add(ONE, Operand::Num(2)), br(3));
    four(
        alloc,
        entry,
        left,
        block1(alloc, br(3)),
        block1(alloc, ret(given)),
    )
}

#[test]
fn walks(rt: HostRuntime) {
    let alloc = rt.alloc();
    assert!(rt; row(alloc, one_sided(alloc, Operand::Value(1))) == (8, 1, 1023));
    assert!(rt; row(alloc, one_sided(alloc, ONE)) == (0, 0, 0));
    let early = block1(alloc, ret(Operand::Value(1)));
    let late = block2(alloc, add(ONE, ONE), br(1));
    assert!(rt;
        row(
            alloc,
            three(alloc, block1(alloc, ret(Operand::Num(4))), early, late)
        ) == (0, 0, 0)
    );
    let itself = block2(alloc, add(Operand::Value(1), ONE), ret(ONE));
    assert!(rt; row(alloc, one(alloc, itself)) == (8, 1, 10));
}

/// A loop whose counter a phi takes from before and from its end.
fn counted(alloc: Global, back: Operand) -> Result<Module, AllocError> {
    let head = block3(
        alloc,
        phi2(alloc, ONE, 0, back, 1),
        add(Operand::Value(1), ONE),
        ends(Op::CondBr(Operand::Value(0), 2, 1)),
    );
    three(
        alloc,
        block1(alloc, br(1)),
        head,
        block1(alloc, ret(Operand::Value(2))),
    )
}

#[test]
fn loops(rt: HostRuntime) {
    let alloc = rt.alloc();
    assert!(rt; row(alloc, counted(alloc, Operand::Value(2))) == (0, 0, 0));
    let far = block2(alloc, add(ONE, ONE), ret(ONE));
    let near = block1(alloc, ends(Op::CondBr(Operand::Value(0), 1, 2)));
    let uses = block1(alloc, ret(Operand::Value(1)));
    assert!(rt; row(alloc, three(alloc, near, far, uses)) == (8, 1, 102));
}

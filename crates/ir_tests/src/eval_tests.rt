// Calls of modules made by hand, with answers and turns worked out by hand.
use ir_core::code::{BinOp, Block, Flags, Inst, Op, Operand, Pred};
use ir_core::program::{Function, Module};
use ir_core::types::{MemTy, Ty};
use ir_data::image::first_image;
use ir_eval::calls::is_call;
use ir_eval::evaluating::{entries, evaluate};
use ir_meaning::calls::{ListedCall, Outcome};
use ir_verify::verdict::verify;
use sqlite_items::Items;
use std::alloc::{AllocError, Global};
use std::test::Fail;

const PLAIN: Flags = Flags {
    nuw: false,
    nsw: false,
    exact: false,
    disjoint: false,
    nneg: false,
    samesign: false,
};

fn binary(op: BinOp, width: u32, a: Operand, b: Operand) -> Inst {
    Inst {
        gives: Ty::Int(width),
        op: Op::Binary(op, PLAIN, a, b),
    }
}

fn ends(op: Op) -> Inst {
    Inst {
        gives: Ty::Void,
        op,
    }
}

fn block(insts: Vec<Inst>) -> Block {
    Block {
        insts: Items::from_vec(insts),
    }
}

fn function(alloc: Global, params: Vec<Ty>, ret: Ty, blocks: Vec<Block>) -> Function {
    Function {
        name: Items::new(alloc),
        params: Items::from_vec(params),
        ret,
        blocks: Items::from_vec(blocks),
    }
}

fn module_of(alloc: Global, functions: Vec<Function>) -> Module {
    Module {
        globals: Items::new(alloc),
        functions: Items::from_vec(functions),
    }
}

fn outcome(
    alloc: Global,
    all: Module,
    args: Vec<u128>,
    turns: u64,
) -> Result<Option<Outcome>, AllocError> {
    let Ok(program) = verify(alloc, all, 4096) else {
        return Ok(None)
    };
    let Ok(image) = first_image(alloc, &program) else {
        return Ok(None)
    };
    let call = ListedCall {
        symbol: 0,
        args: Items::from_vec(args),
        turns,
    };
    if !is_call(&program, &call) {
        return Ok(None);
    }
    match evaluate(alloc, &program, &image, &call) {
        Ok(outcome) => Ok(Some(outcome)),
        Err(_) => Ok(None),
    }
}

/// A function of two numbers that gives one operator of them.
fn one_operator(alloc: Global, op: BinOp, width: u32) -> Result<Module, AllocError> {
    let insts = vec![in alloc;
        binary(op, width, Operand::Value(0), Operand::Value(1)),
        ends(Op::Ret(Some(Operand::Value(2)))),
    ]?;
    let params = vec![in alloc; Ty::Int(width), Ty::Int(width)]?;
    Ok(module_of(
        alloc,
        vec![in alloc; function(alloc, params, Ty::Int(width), vec![in alloc; block(insts)]?)]?,
    ))
}

#[test]
fn operators_and_turns(rt: HostRuntime) -> Result<(), Fail> {
    let alloc = rt.alloc();
    assert!(rt;
        outcome(
            alloc,
            one_operator(alloc, BinOp::Add, 64)?,
            vec![in alloc; 2, 3]?,
            4
        )? == Some(Outcome::Value(5))
    );
    assert!(rt;
        outcome(
            alloc,
            one_operator(alloc, BinOp::Add, 64)?,
            vec![in alloc; 2, 3]?,
            3
        )? == Some(Outcome::NotEnded)
    );
    assert!(rt;
        outcome(
            alloc,
            one_operator(alloc, BinOp::SDiv, 8)?,
            vec![in alloc; 128, 255]?,
            9
        )? == Some(Outcome::Undefined)
    );
    assert!(rt;
        outcome(
            alloc,
            one_operator(alloc, BinOp::SDiv, 8)?,
            vec![in alloc; 249, 2]?,
            9
        )? == Some(Outcome::Value(253))
    );
    assert!(rt;
        outcome(
            alloc,
            one_operator(alloc, BinOp::UDiv, 5)?,
            vec![in alloc; 31, 3]?,
            9
        )? == Some(Outcome::Value(10))
    );
    assert!(rt;
        outcome(
            alloc,
            one_operator(alloc, BinOp::Shl, 8)?,
            vec![in alloc; 3, 9]?,
            9
        )? == Some(Outcome::Undefined)
    );
    Ok(())
}

fn phi(alloc: Global, a: Operand, b: Operand) -> Result<Inst, AllocError> {
    Ok(Inst {
        gives: Ty::Int(64),
        op: Op::Phi(Items::from_vec(vec![in alloc; (a, 0u32), (b, 1u32)]?)),
    })
}

/// Two numbers that change places three times, and their difference.
fn swap(alloc: Global) -> Result<Module, AllocError> {
    let entry = vec![in alloc; ends(Op::Br(1))]?;
    let again = Inst {
        gives: Ty::Int(1),
        op: Op::Icmp(
            Pred::Eq,
            PLAIN,
            Ty::Int(64),
            Operand::Value(5),
            Operand::Num(3),
        ),
    };
    let mut loop_ = Vec::new(alloc);
    loop_.push(phi(alloc, Operand::Value(0), Operand::Value(3))?)?;
    loop_.push(phi(alloc, Operand::Value(1), Operand::Value(2))?)?;
    loop_.push(phi(alloc, Operand::Num(0), Operand::Value(5))?)?;
    loop_.push(binary(BinOp::Add, 64, Operand::Value(4), Operand::Num(1)))?;
    loop_.push(again)?;
    loop_.push(ends(Op::CondBr(Operand::Value(6), 2, 1)))?;
    let out = vec![in alloc;
        binary(BinOp::Sub, 64, Operand::Value(2), Operand::Value(3)),
        ends(Op::Ret(Some(Operand::Value(7)))),
    ]?;
    let blocks = vec![in alloc; block(entry), block(loop_), block(out)]?;
    let params = vec![in alloc; Ty::Int(64), Ty::Int(64)]?;
    Ok(module_of(
        alloc,
        vec![in alloc; function(alloc, params, Ty::Int(64), blocks)]?,
    ))
}

#[test]
fn phis_change_at_once(rt: HostRuntime) -> Result<(), Fail> {
    let alloc = rt.alloc();
    assert!(rt;
        outcome(alloc, swap(alloc)?, vec![in alloc; 10, 3]?, 23)? == Some(Outcome::Value(7))
    );
    assert!(rt;
        outcome(alloc, swap(alloc)?, vec![in alloc; 10, 3]?, 22)? == Some(Outcome::NotEnded)
    );
    Ok(())
}

/// A function that calls itself so many times.
fn down(alloc: Global) -> Result<Module, AllocError> {
    let is_zero = Inst {
        gives: Ty::Int(1),
        op: Op::Icmp(
            Pred::Eq,
            PLAIN,
            Ty::Int(64),
            Operand::Value(0),
            Operand::Num(0),
        ),
    };
    let entry = vec![in alloc; is_zero, ends(Op::CondBr(Operand::Value(1), 2, 1))]?;
    let call = Inst {
        gives: Ty::Int(64),
        op: Op::Call(
            0,
            Items::from_vec(vec![in alloc; (Ty::Int(64), Operand::Value(2))]?),
        ),
    };
    let more = vec![in alloc;
        binary(BinOp::Sub, 64, Operand::Value(0), Operand::Num(1)),
        call,
        ends(Op::Ret(Some(Operand::Value(3)))),
    ]?;
    let done = vec![in alloc; ends(Op::Ret(Some(Operand::Num(7))))]?;
    let blocks = vec![in alloc; block(entry), block(more), block(done)]?;
    Ok(module_of(
        alloc,
        vec![in alloc; function(alloc, vec![in alloc; Ty::Int(64)]?, Ty::Int(64), blocks)]?,
    ))
}

#[test]
fn the_stack_fills_exactly(rt: HostRuntime) -> Result<(), Fail> {
    let alloc = rt.alloc();
    assert!(rt;
        outcome(alloc, down(alloc)?, vec![in alloc; 32767]?, 1000000)? == Some(Outcome::Value(7))
    );
    assert!(rt;
        outcome(alloc, down(alloc)?, vec![in alloc; 32768]?, 1000000)? == Some(Outcome::Stack)
    );
    Ok(())
}

#[test]
fn a_loop_that_never_ends(rt: HostRuntime) -> Result<(), Fail> {
    let alloc = rt.alloc();
    let blocks = vec![in alloc;
        block(vec![in alloc; ends(Op::Br(1))]?),
        block(vec![in alloc; ends(Op::Br(1))]?),
    ]?;
    let all = module_of(
        alloc,
        vec![in alloc; function(alloc, Vec::new(alloc), Ty::Void, blocks)]?,
    );
    assert!(rt; outcome(alloc, all, Vec::new(alloc), 100)? == Some(Outcome::NotEnded));
    Ok(())
}

/// Stores a number in fresh memory, loads its low half, and gives it.
fn through_memory(alloc: Global) -> Result<Module, AllocError> {
    let place = Inst {
        gives: Ty::Ptr,
        op: Op::Alloca(MemTy::Int(64), 1),
    };
    let store = ends(Op::Store(Ty::Int(64), Operand::Value(0), Operand::Value(1)));
    let load = Inst {
        gives: Ty::Int(32),
        op: Op::Load(Operand::Value(1)),
    };
    let insts = vec![in alloc; place, store, load, ends(Op::Ret(Some(Operand::Value(2))))]?;
    Ok(module_of(
        alloc,
        vec![in alloc;
            function(
                alloc,
                vec![in alloc; Ty::Int(64)]?,
                Ty::Int(32),
                vec![in alloc; block(insts)]?
            ),
        ]?,
    ))
}

#[test]
fn memory_is_little_endian(rt: HostRuntime) -> Result<(), Fail> {
    let alloc = rt.alloc();
    assert!(rt;
        outcome(
            alloc,
            through_memory(alloc)?,
            vec![in alloc; 0x1122_3344_5566_7788]?,
            9
        )? == Some(Outcome::Value(0x5566_7788))
    );
    Ok(())
}

/// How often a call enters the function that it calls.
fn entered(
    alloc: Global,
    all: Module,
    args: Vec<u128>,
    turns: u64,
) -> Result<Option<u64>, AllocError> {
    let Ok(program) = verify(alloc, all, 4096) else {
        return Ok(None);
    };
    let Ok(image) = first_image(alloc, &program) else {
        return Ok(None);
    };
    let call = ListedCall {
        symbol: 0,
        args: Items::from_vec(args),
        turns,
    };
    if !is_call(&program, &call) {
        return Ok(None);
    }
    match entries(alloc, &program, &image, &call) {
        Ok(counts) => Ok(counts.as_slice().get(0).copied()),
        Err(_) => Ok(None),
    }
}

#[test]
fn each_entry_is_counted(rt: HostRuntime) -> Result<(), Fail> {
    let alloc = rt.alloc();
    assert!(rt; entered(alloc, down(alloc)?, vec![in alloc; 5]?, 1000)? == Some(6));
    assert!(rt; entered(alloc, down(alloc)?, vec![in alloc; 5]?, 1)? == Some(1));
    assert!(rt; entered(alloc, down(alloc)?, vec![in alloc; 40000]?, 1000000)? == Some(32769));
    Ok(())
}

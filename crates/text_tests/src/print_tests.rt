// The printed form of a small module, written by hand.
use ir_core::code::{BinOp, Block, Flags, Inst, Op, Operand};
use ir_core::program::{Function, Global, Init, Module};
use ir_core::types::{MemTy, Ty};
use ir_print::print;
use sqlite_items::Items;
use std::alloc::{AllocError, Global as Alloc};

const PLAIN: Flags = Flags {
    nuw: false,
    nsw: true,
    exact: false,
    disjoint: false,
    nneg: false,
    samesign: false,
};

fn add(alloc: Alloc) -> Result<Function, AllocError> {
    let mut insts = Items::new(alloc);
    insts.push(Inst {
        gives: Ty::Int(64),
        op: Op::Binary(BinOp::Add, PLAIN, Operand::Value(0), Operand::Num(255)),
    })?;
    insts.push(Inst {
        gives: Ty::Void,
        op: Op::Ret(Some(Operand::Value(1))),
    })?;
    let mut blocks = Items::new(alloc);
    blocks.push(Block { insts })?;
    Ok(Function {
        name: Items::from_slice(alloc, b"a d\"d")?,
        params: Items::from_slice(alloc, &[Ty::Int(64)])?,
        ret: Ty::Int(64),
        blocks,
    })
}

fn globals(alloc: Alloc) -> Result<Items<Global>, AllocError> {
    let mut globals = Items::new(alloc);
    globals.push(Global {
        name: Items::from_slice(alloc, b"g.1")?,
        ty: MemTy::Int(8),
        init: Init::Num(255),
    })?;
    Ok(globals)
}

fn functions(alloc: Alloc) -> Result<Items<Function>, AllocError> {
    let mut functions = Items::new(alloc);
    functions.push(add(alloc)?)?;
    Ok(functions)
}

fn program(alloc: Alloc) -> Result<Module, AllocError> {
    Ok(Module {
        globals: globals(alloc)?,
        functions: functions(alloc)?,
    })
}

fn text(alloc: Alloc) -> Option<Vec<u8>> {
    match program(alloc) {
        Ok(program) => match print(alloc, &program) {
            Ok(text) => Some(text),
            Err(_) => None,
        },
        Err(_) => None,
    }
}

#[test]
fn prints_a_module(rt: HostRuntime) {
    let want =
        b"@g.1 = global i8 -1\ndefine i64 @\"a d\\22d\"(i64 %v0) {\nb0:\n  %v1 = add nsw i64 %v0, 255\n  ret i64 %v1\n}\n";
    match text(rt.alloc()) {
        Some(text) => assert!(rt; text.as_slice() == want.as_slice()),
        None => assert!(rt; false),
    }
}

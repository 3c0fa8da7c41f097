// The code of each function is what was worked out by hand: by its contract, and instruction by instruction where it is run.
ghost use Rattle.std.specs.Prelude.{◌≡◌, [], ◌∷◌, ◌++◌, IfOk, OnOk};
ghost use Rattle.gmir.specs.declared.code.GOp.TheVariants.{Br};
ghost use Rattle.select_tests.specs.Samples.{inst, doubling, doubling_code, choosing, choosing_code};

use gmir::code::{GFunction, GInst, GOp, GType};
use inst_select::select::select;
use mir::code::{MFunction, MInst};
use rj_num::NoMemory;
use rv_core::instr::{ImmOp, LoadOp, RegOp, StoreOp};
use sqlite_items::Items;
use std::alloc::{AllocError, Global};

const END: u64 = 268435456;

/// Puts an instruction that jumps nowhere behind the others.
fn put(
    alloc: Global,
    insts: &mut Vec<GInst>,
    op: GOp,
    defs: &[u32],
    uses: &[u32],
    num: u128,
) -> Result<(), AllocError>
    ensures { OnOk result (insts.new.items ≡ insts.old.items ++ inst op defs.now uses.now num [] ∷ []) }
{
    let inst = GInst {
        op,
        defs: Items::from_slice(alloc, defs)?,
        uses: Items::from_slice(alloc, uses)?,
        num,
        to: Items::from_slice(alloc, &[])?,
    };
    match insts.push(inst) {
        Ok(()) => Ok(()),
        Err(_) => Err(AllocError),
    }
}

/// Puts a jump to block 1 behind the others.
fn put_jump(alloc: Global, insts: &mut Vec<GInst>) -> Result<(), AllocError>
    ensures { OnOk result (insts.new.items ≡ insts.old.items ++ inst Br [] [] 0 (1 ∷ []) ∷ []) }
{
    let inst = GInst {
        op: GOp::Br,
        defs: Items::from_slice(alloc, &[])?,
        uses: Items::from_slice(alloc, &[])?,
        num: 0,
        to: Items::from_slice(alloc, &[1])?,
    };
    match insts.push(inst) {
        Ok(()) => Ok(()),
        Err(_) => Err(AllocError),
    }
}

fn doubling_function(alloc: Global) -> Result<GFunction, AllocError>
    ensures { IfOk result (λ function. function ≡ doubling) }
{
    let mut head = Vec::new(alloc);
    put(alloc, &mut head, GOp::Param, &[0], &[], 0)?;
    put(alloc, &mut head, GOp::Add, &[1], &[0, 0], 0)?;
    put_jump(alloc, &mut head)?;
    let mut back = Vec::new(alloc);
    put(alloc, &mut back, GOp::Return, &[], &[1], 0)?;
    let blocks = vec![in alloc; Items::from_vec(head), Items::from_vec(back)]?;
    Ok(GFunction {
        symbol: 0,
        values: 2,
        end: END,
        types: Items::from_slice(alloc, &[GType::S(64), GType::S(64)])?,
        blocks: Items::from_vec(blocks),
    })
}

fn choosing_function(alloc: Global) -> Result<GFunction, AllocError>
    ensures { IfOk result (λ function. function ≡ choosing) }
{
    let mut only = Vec::new(alloc);
    put(alloc, &mut only, GOp::Param, &[0], &[], 0)?;
    put(alloc, &mut only, GOp::Param, &[1], &[], 1)?;
    put(alloc, &mut only, GOp::Load, &[2], &[1], 16)?;
    put(alloc, &mut only, GOp::SExtInReg, &[3], &[2], 16)?;
    put(alloc, &mut only, GOp::Icmp, &[4], &[3, 0], 5)?;
    put(alloc, &mut only, GOp::Select, &[5], &[4, 0, 3], 0)?;
    put(alloc, &mut only, GOp::Sub, &[6], &[5, 3], 0)?;
    put(alloc, &mut only, GOp::Store, &[], &[6, 1], 32)?;
    put(alloc, &mut only, GOp::Return, &[], &[6], 0)?;
    let number = GType::S(64);
    let types = [number, GType::P0, number, number, number, number, number];
    let blocks = vec![in alloc; Items::from_vec(only)]?;
    Ok(GFunction {
        symbol: 3,
        values: 7,
        end: END,
        types: Items::from_slice(alloc, &types)?,
        blocks: Items::from_vec(blocks),
    })
}

fn doubling_code_of(alloc: Global) -> Result<MFunction, NoMemory>
    ensures { IfOk result (λ code. code ≡ doubling_code) }
{
    match doubling_function(alloc) {
        Ok(function) => select(alloc, &function, &[]),
        Err(_) => Err(NoMemory),
    }
}

fn choosing_code_of(alloc: Global) -> Result<MFunction, NoMemory>
    ensures { IfOk result (λ code. code ≡ choosing_code) }
{
    match choosing_function(alloc) {
        Ok(function) => select(alloc, &function, &[]),
        Err(_) => Err(NoMemory),
    }
}

fn is_imm(inst: &MInst, wanted: ImmOp, to: u32, from: u32, number: i32) -> bool {
    match inst {
        MInst::Imm(op, d, a, n) => *op == wanted && *d == to && *a == from && *n == number,
        _ => false,
    }
}

fn is_op(inst: &MInst, wanted: RegOp, to: u32, first: u32, second: u32) -> bool {
    match inst {
        MInst::Op(op, d, a, b) => *op == wanted && *d == to && *a == first && *b == second,
        _ => false,
    }
}

#[test]
fn doubling_is_selected(rt: HostRuntime) -> Result<(), NoMemory> {
    let code = doubling_code_of(rt.alloc())?;
    assert!(rt; code.regs == 2);
    let blocks = code.blocks.as_slice();
    assert!(rt; blocks.len() == 2);
    let head = blocks[0].as_slice();
    assert!(rt; head.len() == 3);
    assert!(rt; is_op(&head[1], RegOp::Add, 1, 0, 0));
    assert!(rt; blocks[1].as_slice().len() == 1);
    Ok(())
}

#[test]
fn choosing_is_selected(rt: HostRuntime) -> Result<(), NoMemory> {
    let code = choosing_code_of(rt.alloc())?;
    assert!(rt; code.regs == 15);
    let blocks = code.blocks.as_slice();
    assert!(rt; blocks.len() == 1);
    let only = blocks[0].as_slice();
    assert!(rt; only.len() == 16);
    assert!(rt; is_imm(&only[3], ImmOp::Slli, 7, 2, 48));
    assert!(rt; is_op(&only[5], RegOp::Sltu, 8, 0, 3));
    assert!(rt; is_imm(&only[6], ImmOp::Xori, 4, 8, 1));
    assert!(rt; is_imm(&only[10], ImmOp::Xori, 13, 11, -1));
    assert!(rt; is_op(&only[13], RegOp::Sub, 6, 5, 3));
    Ok(())
}

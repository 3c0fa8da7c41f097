// Instruction number i reads at point 2i and writes at point 2i + 1.
ghost use Rattle.std.specs.Prelude.{◌≡◌, ◌^◌, ◌<◌, ◌≤◌, IfOk, length};
ghost use Rattle.walks.specs.Face.{frame_of};
ghost use Rattle.mir.specs.WellFormed.{IsWellFormed, HasNoPhi};
ghost use Rattle.liveness_tests.specs.Samples.{doubling, summing, choosing, unwritten};

use frame_out::layout::lay_out;
use liveness::intervals::intervals;
use mir::code::{MFunction, MInst};
use mir::places::{Intervals, Place};
use regalloc::place::{PlaceRefusal, place};
use rj_num::NoMemory;
use rv_core::instr::{BranchOp, RegOp};
use sqlite_items::Items;
use std::alloc::{AllocError, Global};

const END: u64 = 268435456;

fn doubling_function(alloc: Global) -> Result<MFunction, AllocError>
    ensures { IfOk result (λ function. function ≡ doubling) }
{
    let head = vec![in alloc;
        MInst::Param(0, 0),
        MInst::Op(RegOp::Add, 1, 0, 0),
        MInst::Jump(1),
    ]?;
    let back = vec![in alloc; MInst::Return(Items::from_slice(alloc, &[1])?)]?;
    let blocks = vec![in alloc; Items::from_vec(head), Items::from_vec(back)]?;
    Ok(MFunction {
        symbol: 0,
        values: 2,
        end: END,
        regs: 2,
        blocks: Items::from_vec(blocks),
    })
}

fn summing_function(alloc: Global) -> Result<MFunction, AllocError>
    ensures { IfOk result (λ function. function ≡ summing) }
{
    let head = vec![in alloc;
        MInst::Param(0, 0),
        MInst::Const(1, 0),
        MInst::Const(2, 1),
        MInst::Jump(1),
    ]?;
    let turn = vec![in alloc;
        MInst::Op(RegOp::Add, 1, 1, 0),
        MInst::Op(RegOp::Sub, 0, 0, 2),
        MInst::Const(3, 0),
        MInst::Branch(BranchOp::Bne, 0, 3, 1, 2),
    ]?;
    let back = vec![in alloc; MInst::Return(Items::from_slice(alloc, &[1])?)]?;
    let blocks = vec![in alloc;
        Items::from_vec(head),
        Items::from_vec(turn),
        Items::from_vec(back),
    ]?;
    Ok(MFunction {
        symbol: 0,
        values: 4,
        end: END,
        regs: 4,
        blocks: Items::from_vec(blocks),
    })
}

fn choosing_function(alloc: Global) -> Result<MFunction, AllocError>
    ensures { IfOk result (λ function. function ≡ choosing) }
{
    let head = vec![in alloc;
        MInst::Param(0, 0),
        MInst::Param(1, 1),
        MInst::Branch(BranchOp::Blt, 0, 1, 1, 2),
    ]?;
    let less = vec![in alloc; MInst::Move(2, 0), MInst::Jump(3)]?;
    let other = vec![in alloc; MInst::Const(2, 7), MInst::Const(3, 9), MInst::Jump(3)]?;
    let back = vec![in alloc; MInst::Return(Items::from_slice(alloc, &[2])?)]?;
    let blocks = vec![in alloc;
        Items::from_vec(head),
        Items::from_vec(less),
        Items::from_vec(other),
        Items::from_vec(back),
    ]?;
    Ok(MFunction {
        symbol: 0,
        values: 5,
        end: END,
        regs: 5,
        blocks: Items::from_vec(blocks),
    })
}

fn unwritten_function(alloc: Global) -> Result<MFunction, AllocError>
    ensures { IfOk result (λ function. function ≡ unwritten) }
{
    let only = vec![in alloc;
        MInst::Op(RegOp::Add, 0, 1, 1),
        MInst::Return(Items::from_slice(alloc, &[0])?),
    ]?;
    let blocks = vec![in alloc; Items::from_vec(only)]?;
    Ok(MFunction {
        symbol: 0,
        values: 2,
        end: END,
        regs: 2,
        blocks: Items::from_vec(blocks),
    })
}

fn doubling_spans(alloc: Global) -> Result<Intervals, NoMemory> {
    match doubling_function(alloc) {
        Ok(function) => intervals(alloc, &function),
        Err(_) => Err(NoMemory),
    }
}

fn summing_spans(alloc: Global) -> Result<Intervals, NoMemory> {
    match summing_function(alloc) {
        Ok(function) => intervals(alloc, &function),
        Err(_) => Err(NoMemory),
    }
}

fn choosing_spans(alloc: Global) -> Result<Intervals, NoMemory> {
    match choosing_function(alloc) {
        Ok(function) => intervals(alloc, &function),
        Err(_) => Err(NoMemory),
    }
}

fn unwritten_spans(alloc: Global) -> Result<Intervals, NoMemory> {
    match unwritten_function(alloc) {
        Ok(function) => intervals(alloc, &function),
        Err(_) => Err(NoMemory),
    }
}

// The words of a function, with the spans and places of its registers.
fn words_of(alloc: Global, function: &MFunction) -> Result<Items<u32>, PlaceRefusal>
    requires formed { IsWellFormed function.now }
    requires without_phi { HasNoPhi function.now }
    requires small { frame_of function.now.values ≤ 2 ^ 20 }
    requires symbol { function.now.symbol < 1024 }
    requires few { length function.now.blocks < 2 ^ 32 }
{
    let found = intervals(alloc, function)?;
    let places = place(alloc, &found, 4 * function.values + 4)?;
    Ok(lay_out(alloc, function, &places)?)
}

fn doubling_words(alloc: Global) -> Result<Items<u32>, PlaceRefusal> {
    match doubling_function(alloc) {
        Ok(function) => words_of(alloc, &function),
        Err(_) => Err(PlaceRefusal::NoMemory),
    }
}

#[test]
fn one_behind_the_other(rt: HostRuntime) -> Result<(), PlaceRefusal> {
    let alloc = rt.alloc();
    let found = doubling_spans(alloc)?;
    assert!(rt; found.spans.as_slice() == [Some((1, 2)), Some((3, 6))].as_slice());
    let places = place(alloc, &found, 8)?;
    assert!(rt; places.at.as_slice() == [Some(Place::Saved(0)), Some(Place::Saved(0))].as_slice());
    Ok(())
}

#[test]
fn a_loop_holds_to_its_last_point(rt: HostRuntime) -> Result<(), PlaceRefusal> {
    let alloc = rt.alloc();
    let found = summing_spans(alloc)?;
    assert!(rt;
        found.spans.as_slice()
            == [Some((1, 15)), Some((3, 16)), Some((5, 15)), Some((13, 14))].as_slice()
    );
    Ok(())
}

#[test]
fn two_ways_and_registers_without_reads(rt: HostRuntime) -> Result<(), PlaceRefusal> {
    let alloc = rt.alloc();
    let found = choosing_spans(alloc)?;
    assert!(rt;
        found.spans.as_slice()
            == [
                Some((1, 6)),
                Some((3, 4)),
                Some((7, 16)),
                Some((13, 13)),
                None
            ]
            .as_slice()
    );
    let places = place(alloc, &found, 0)?;
    assert!(rt;
        places.at.as_slice()
            == [
                Some(Place::Saved(0)),
                Some(Place::Saved(1)),
                Some(Place::Saved(0)),
                Some(Place::Saved(1)),
                None
            ]
            .as_slice()
    );
    Ok(())
}

#[test]
fn a_register_that_nothing_writes(rt: HostRuntime) -> Result<(), PlaceRefusal> {
    let alloc = rt.alloc();
    let found = unwritten_spans(alloc)?;
    assert!(rt; found.spans.as_slice() == [Some((1, 2)), Some((0, 0))].as_slice());
    Ok(())
}

// The count, the guard, the frame, ra and s0; the parameter, the sum and the result; s0, ra and sp again, and the return.
#[test]
fn all_the_way_to_words(rt: HostRuntime) -> Result<(), PlaceRefusal> {
    let words = doubling_words(rt.alloc())?;
    assert!(rt;
        words.as_slice()
            == [
                0x00100293, 0x00000313, 0x00000073, 0xf4010293, 0x400003b7, 0x0072f663, 0x00200293,
                0x00000073, 0xf4010113, 0x0a113c23, 0x0a813823, 0x00050413, 0x00840433, 0x00040513,
                0x0b013403, 0x0b813083, 0x0c010113, 0x00008067,
            ]
            .as_slice()
    );
    Ok(())
}

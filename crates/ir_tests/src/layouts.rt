// The numbers of the IR by hand: extents of types, units of instructions, frames of functions.
ghost use Rattle.std.specs.Prelude.{◌≡◌, ◌<◌, ◌^◌, IfOk};
ghost use Rattle.ir_core.specs.Layout.{HasSizesWithin};
ghost use Rattle.ir_core.specs.Units.{values};

use crate::build::{add, br, call, phi2, ret};
use ir_core::code::{Inst, Op, Operand};
use ir_core::layout::int_extent;
use ir_core::program::Function;
use ir_core::types::{MemTy, Ty};
use ir_core::units::{capped_units, frame_of, units_of};
use sqlite_items::Items;
use std::alloc::{AllocError, Global};

const ONE: Operand = Operand::Num(1);

/// The units of an instruction; 0 where it has none.
fn units(inst: Result<Inst, AllocError>) -> u64 {
    match inst {
        Ok(inst) if capped_units(&inst) < u64::MAX => units_of(&inst),
        _ => 0,
    }
}

/// A switch with so many cases.
fn switch(alloc: Global, count: u32) -> Result<Inst, AllocError> {
    let mut cases = Vec::new(alloc);
    for k in 0..count {
        cases.push((u128::from(k), 1))?;
    }
    crate::build::ends(Op::Switch(Ty::Int(64), ONE, 1, Items::from_vec(cases)))
}

/// A function of so many parameters.
fn with_parameters(alloc: Global, count: u32) -> Result<Function, AllocError>
    ensures { IfOk result (λ function. values function ≡ count) }
{
    let mut params = Vec::new(alloc);
    for _ in 0..count {
        params.push(Ty::Int(64))?;
    }
    Ok(Function {
        name: Items::new(alloc),
        params: Items::from_vec(params),
        ret: Ty::Int(64),
        blocks: Items::new(alloc),
    })
}

/// The frame of a function of so many parameters.
fn frame(alloc: Global, count: u32) -> u64 {
    match with_parameters(alloc, count) {
        Ok(function) => frame_of(&function),
        Err(_) => 0,
    }
}

#[test]
fn integers(rt: HostRuntime) {
    for (width, size, align) in [
        (8, 1, 1),
        (16, 2, 2),
        (32, 4, 4),
        (64, 8, 8),
        (128, 0, 1),
        (7, 0, 1),
        (0, 0, 1),
    ] {
        let extent = int_extent(width);
        assert!(rt; extent.size == size && extent.align == align, "at {width}");
    }
}

#[test]
fn units_of_instructions(rt: HostRuntime) {
    let alloc = rt.alloc();
    assert!(rt; units(add(ONE, ONE)) == 1);
    assert!(rt; units(ret(ONE)) == 1);
    assert!(rt; units(br(0)) == 1);
    assert!(rt; units(phi2(alloc, ONE, 0, ONE, 1)) == 1);
    assert!(rt; units(call(alloc, Ty::Int(64), Ty::Int(64), ONE)) == 2);
    assert!(rt; units(switch(alloc, 0)) == 1);
    assert!(rt; units(switch(alloc, 300)) == 301);
}

#[test]
fn frames(rt: HostRuntime) {
    let alloc = rt.alloc();
    for (count, bytes) in [(0, 128), (1, 160), (4, 256), (8, 384), (1_000, 32_128)] {
        assert!(rt; frame(alloc, count) == bytes, "at {count}");
    }
}

// The words of small functions, and those of a loop, of narrow values and of a switch that are assembled by hand.
use fast_isel::compile::quick_flow;
use fast_isel::taken::takes;
use ir_core::code::{BinOp, Block, BuiltIn, CastOp, Flags, Inst, Op, Operand, Pred};
use ir_core::program::{Function, Module};
use ir_core::types::{MemTy, Ty};
use ir_data::addresses::Places;
use ir_verify::checked::Checked;
use ir_verify::verdict::verify;
use sqlite_items::Items;
use std::alloc::{AllocError, Global};

const WORD: Ty = Ty::Int(64);

const NO_FLAGS: Flags = Flags {
    nuw: false,
    nsw: false,
    exact: false,
    disjoint: false,
    nneg: false,
    samesign: false,
};

fn binary(op: BinOp, a: Operand, b: Operand) -> Inst {
    Inst {
        gives: WORD,
        op: Op::Binary(op, NO_FLAGS, a, b),
    }
}

fn call(alloc: Global, callee: u32, argument: Operand) -> Result<Inst, AllocError> {
    let arguments = Items::from_vec(vec![in alloc; (WORD, argument)]?);
    Ok(Inst {
        gives: WORD,
        op: Op::Call(callee, arguments),
    })
}

fn returns(value: u32) -> Inst {
    Inst {
        gives: Ty::Void,
        op: Op::Ret(Some(Operand::Value(value))),
    }
}

// A function of one parameter.
fn function(alloc: Global, insts: Vec<Inst>) -> Result<Function, AllocError> {
    let block = Block {
        insts: Items::from_vec(insts),
    };
    Ok(Function {
        name: Items::new(alloc),
        params: Items::from_vec(vec![in alloc; WORD]?),
        ret: WORD,
        blocks: Items::from_vec(vec![in alloc; block]?),
    })
}

// `@twice` adds its argument to itself, and `@less` takes -2049 from the double that `@twice` gives.
fn samples(alloc: Global) -> Result<Option<Checked>, AllocError> {
    let sum = binary(BinOp::Add, Operand::Value(0), Operand::Value(0));
    let twice = function(alloc, vec![in alloc; sum, returns(1)]?)?;
    let double = call(alloc, 0, Operand::Value(0))?;
    let number = Operand::Num(0xffff_ffff_ffff_f7ff);
    let difference = binary(BinOp::Sub, Operand::Value(1), number);
    let less = function(alloc, vec![in alloc; double, difference, returns(2)]?)?;
    let module = Module {
        globals: Items::new(alloc),
        functions: Items::from_vec(vec![in alloc; twice, less]?),
    };
    match verify(alloc, module, 4096) {
        Ok(checked) => Ok(Some(checked)),
        Err(_) => Ok(None),
    }
}

const TWICE: [u32; 19] = [
    0x0010_0293,
    0x0000_0313,
    0x0000_0073,
    0xf401_0293,
    0x4000_03b7,
    0x0072_f663,
    0x0020_0293,
    0x0000_0073,
    0xf401_0113,
    0x0a11_3c23,
    0x00a1_3023,
    0x0001_3283,
    0x0001_3303,
    0x0062_82b3,
    0x0251_3023,
    0x0201_3503,
    0x0b81_3083,
    0x0c01_0113,
    0x0000_8067,
];

// From the prologue's last word on: sd ra,216(sp); sd a0,0(sp); ld a0,0(sp); lui t1,0x10; jalr ra,0(t1); sd a0,32(sp);
// ld t0,32(sp); lui t1,0xfffff; addiw t1,t1,2047; sub t0,t0,t1; sd t0,64(sp); ld a0,64(sp); ld ra,216(sp);
// addi sp,sp,224; jalr x0,0(ra).
const LESS: [u32; 15] = [
    0x0c11_3c23,
    0x00a1_3023,
    0x0001_3503,
    0x0001_0337,
    0x0003_00e7,
    0x02a1_3023,
    0x0201_3283,
    0xffff_f337,
    0x7ff3_031b,
    0x4062_82b3,
    0x0451_3023,
    0x0401_3503,
    0x0d81_3083,
    0x0e01_0113,
    0x0000_8067,
];

#[test]
fn words_of_small_functions(rt: HostRuntime) {
    let alloc = rt.alloc();
    let Ok(Some(module)) = samples(alloc) else {
        panic!(rt; "the module verifies");
    };
    assert!(rt; takes(&module));
    assert!(rt; module.module().functions.len() == 2 && module.room() == 4096);
    let Ok(globals) = Places::new(alloc, &module) else {
        panic!(rt; "there is memory");
    };
    let Ok(twice) = quick_flow(alloc, &module, &globals, 0) else {
        panic!(rt; "there is memory");
    };
    assert!(rt; twice.words.as_slice() == TWICE.as_slice());
    let Ok(less) = quick_flow(alloc, &module, &globals, 1) else {
        panic!(rt; "there is memory");
    };
    assert!(rt; less.symbol == 1 && less.level == 1);
    assert!(rt; less.words.len() == 24);
    assert!(rt; &less.words.as_slice()[9..] == LESS.as_slice());
}

// The first words of a function whose frame has 2,272 bytes, up to its first sum, as LLVM's assembler gives them:
// addi t0,x0,1; addi t1,x0,0; ecall; lui t0,1; addiw t0,t0,-1824; sub t0,sp,t0; lui t2,0x40000; bgeu t0,t2,12; addi t0,x0,2; ecall;
// addi sp,t0,0; lui t6,1; add t6,t6,sp; sd ra,-1832(t6); sd a0,0(sp); ld t0,0(sp); ld t1,0(sp); add t0,t0,t1; sd t0,32(sp).
const WIDE_FIRST: [u32; 19] = [
    0x0010_0293,
    0x0000_0313,
    0x0000_0073,
    0x0000_12b7,
    0x8e02_829b,
    0x4051_02b3,
    0x4000_03b7,
    0x0072_f663,
    0x0020_0293,
    0x0000_0073,
    0x0002_8113,
    0x0000_1fb7,
    0x002f_8fb3,
    0x8c1f_bc23,
    0x00a1_3023,
    0x0001_3283,
    0x0001_3303,
    0x0062_82b3,
    0x0251_3023,
];

// Its last words, from the sum on that is the first at an offset of 2,048:
// ld t0,2016(sp); ld t1,0(sp); add t0,t0,t1; lui t6,1; add t6,t6,sp; sd t0,-2048(t6); lui t0,1; add t0,t0,sp; ld t0,-2048(t0);
// ld t1,0(sp); add t0,t0,t1; lui t6,1; add t6,t6,sp; sd t0,-2016(t6); lui t0,1; add t0,t0,sp; ld t0,-2016(t0); ld t1,0(sp);
// add t0,t0,t1; lui t6,1; add t6,t6,sp; sd t0,-1984(t6); lui a0,1; add a0,a0,sp; ld a0,-1984(a0); lui ra,1; add ra,ra,sp;
// ld ra,-1832(ra); lui t0,1; addiw t0,t0,-1824; add sp,sp,t0; jalr x0,0(ra).
const WIDE_LAST: [u32; 32] = [
    0x7e01_3283,
    0x0001_3303,
    0x0062_82b3,
    0x0000_1fb7,
    0x002f_8fb3,
    0x805f_b023,
    0x0000_12b7,
    0x0022_82b3,
    0x8002_b283,
    0x0001_3303,
    0x0062_82b3,
    0x0000_1fb7,
    0x002f_8fb3,
    0x825f_b023,
    0x0000_12b7,
    0x0022_82b3,
    0x8202_b283,
    0x0001_3303,
    0x0062_82b3,
    0x0000_1fb7,
    0x002f_8fb3,
    0x845f_b023,
    0x0000_1537,
    0x0025_0533,
    0x8405_3503,
    0x0000_10b7,
    0x0020_80b3,
    0x8d80_b083,
    0x0000_12b7,
    0x8e02_829b,
    0x0051_0133,
    0x0000_8067,
];

// 66 sums, each of the one before and the argument.
fn wide(alloc: Global) -> Result<Option<Checked>, AllocError> {
    let mut insts = Vec::new(alloc);
    for value in 0..66u32 {
        let sum = binary(BinOp::Add, Operand::Value(value), Operand::Value(0));
        insts.push(sum)?;
    }
    insts.push(returns(66))?;
    let module = Module {
        globals: Items::new(alloc),
        functions: Items::from_vec(vec![in alloc; function(alloc, insts)?]?),
    };
    match verify(alloc, module, 4096) {
        Ok(checked) => Ok(Some(checked)),
        Err(_) => Ok(None),
    }
}

#[test]
fn words_of_a_wide_frame(rt: HostRuntime) {
    let alloc = rt.alloc();
    let Ok(Some(module)) = wide(alloc) else {
        panic!(rt; "the module verifies");
    };
    assert!(rt; takes(&module) && module.module().functions.len() == 1);
    let Ok(globals) = Places::new(alloc, &module) else {
        panic!(rt; "there is memory");
    };
    let Ok(version) = quick_flow(alloc, &module, &globals, 0) else {
        panic!(rt; "there is memory");
    };
    let words = version.words.as_slice();
    assert!(rt; words.len() == 299);
    assert!(rt; &words[..19] == WIDE_FIRST.as_slice());
    assert!(rt; &words[267..] == WIDE_LAST.as_slice());
}

fn phi(
    alloc: Global,
    first: Operand,
    from: u32,
    next: Operand,
    back: u32,
) -> Result<Inst, AllocError> {
    let pairs = Items::from_vec(vec![in alloc; (first, from), (next, back)]?);
    Ok(Inst {
        gives: WORD,
        op: Op::Phi(pairs),
    })
}

fn gives(ty: Ty, op: Op) -> Inst {
    Inst { gives: ty, op }
}

fn ends(op: Op) -> Inst {
    gives(Ty::Void, op)
}

fn block(insts: Vec<Inst>) -> Block {
    Block {
        insts: Items::from_vec(insts),
    }
}

// The sum of the numbers from 1 up to the argument, in a loop.
fn counting(alloc: Global) -> Result<Option<Checked>, AllocError> {
    let number = phi(alloc, Operand::Num(0), 0, Operand::Value(3), 1)?;
    let total = phi(alloc, Operand::Num(0), 0, Operand::Value(4), 1)?;
    let next = binary(BinOp::Add, Operand::Value(1), Operand::Num(1));
    let sum = binary(BinOp::Add, Operand::Value(2), Operand::Value(3));
    let less = Inst {
        gives: Ty::Int(1),
        op: Op::Icmp(
            Pred::Ult,
            NO_FLAGS,
            WORD,
            Operand::Value(3),
            Operand::Value(0),
        ),
    };
    let back = ends(Op::CondBr(Operand::Value(5), 1, 2));
    let entry = block(vec![in alloc; ends(Op::Br(1))]?);
    let body = block(vec![in alloc; number, total, next, sum, less, back]?);
    let exit = block(vec![in alloc; returns(4)]?);
    let function = Function {
        name: Items::new(alloc),
        params: Items::from_vec(vec![in alloc; WORD]?),
        ret: WORD,
        blocks: Items::from_vec(vec![in alloc; entry, body, exit]?),
    };
    let module = Module {
        globals: Items::new(alloc),
        functions: Items::from_vec(vec![in alloc; function]?),
    };
    match verify(alloc, module, 4096) {
        Ok(checked) => Ok(Some(checked)),
        Err(_) => Ok(None),
    }
}

// As LLVM's assembler writes them.
const COUNTING: [u32; 42] = [
    0x0010_0293,
    0x0000_0313,
    0x0000_0073,
    0xec01_0293,
    0x4000_03b7,
    0x0072_f663,
    0x0020_0293,
    0x0000_0073,
    0xec01_0113,
    0x1211_3c23,
    0x00a1_3023,
    0x0000_0293,
    0x0251_3823,
    0x0000_0293,
    0x0451_3823,
    0x0301_3283,
    0x0251_3023,
    0x0501_3283,
    0x0451_3023,
    0x0201_3283,
    0x0010_0313,
    0x0062_82b3,
    0x0651_3023,
    0x0401_3283,
    0x0601_3303,
    0x0062_82b3,
    0x0851_3023,
    0x0601_3283,
    0x0001_3303,
    0x0062_b2b3,
    0x0a51_3023,
    0x0a01_3283,
    0x0002_8c63,
    0x0601_3283,
    0x0251_3823,
    0x0801_3283,
    0x0451_3823,
    0xfa9f_f06f,
    0x0801_3503,
    0x1381_3083,
    0x1401_0113,
    0x0000_8067,
];

#[test]
fn words_of_a_loop(rt: HostRuntime) {
    let alloc = rt.alloc();
    let Ok(Some(module)) = counting(alloc) else {
        panic!(rt; "the module verifies");
    };
    assert!(rt; takes(&module));
    assert!(rt; module.module().functions.len() == 1);
    let Ok(globals) = Places::new(alloc, &module) else {
        panic!(rt; "there is memory");
    };
    let Ok(version) = quick_flow(alloc, &module, &globals, 0) else {
        panic!(rt; "there is memory");
    };
    assert!(rt; version.symbol == 0 && version.level == 1);
    assert!(rt; version.words.as_slice() == COUNTING.as_slice());
}

// A quotient of an i8 and an i32, and the lesser of it and the i32.
fn narrow(alloc: Global) -> Result<Option<Checked>, AllocError> {
    let word = Ty::Int(32);
    let (dividend, quotient) = (Operand::Value(1), Operand::Value(3));
    let wide = gives(
        word,
        Op::Cast(CastOp::ZExt, NO_FLAGS, Ty::Int(8), Operand::Value(0)),
    );
    let divided = gives(
        word,
        Op::Binary(BinOp::SDiv, NO_FLAGS, dividend, Operand::Value(2)),
    );
    let less = gives(
        Ty::Int(1),
        Op::Icmp(Pred::Slt, NO_FLAGS, word, quotient, dividend),
    );
    let chosen = gives(word, Op::Select(Operand::Value(4), quotient, dividend));
    let body = block(vec![in alloc; wide, divided, less, chosen, returns(5)]?);
    let function = Function {
        name: Items::new(alloc),
        params: Items::from_vec(vec![in alloc; Ty::Int(8), word]?),
        ret: word,
        blocks: Items::from_vec(vec![in alloc; body]?),
    };
    let module = Module {
        globals: Items::new(alloc),
        functions: Items::from_vec(vec![in alloc; function]?),
    };
    match verify(alloc, module, 4096) {
        Ok(checked) => Ok(Some(checked)),
        Err(_) => Ok(None),
    }
}

// As LLVM's assembler writes them.
const NARROW: [u32; 39] = [
    0x0010_0293,
    0x0000_0313,
    0x0000_0073,
    0xec01_0293,
    0x4000_03b7,
    0x0072_f663,
    0x0020_0293,
    0x0000_0073,
    0xec01_0113,
    0x1211_3c23,
    0x0ff5_7513,
    0x00a1_3023,
    0x0205_9593,
    0x0205_d593,
    0x02b1_3023,
    0x0001_3283,
    0x0451_3023,
    0x0201_3283,
    0x0401_3303,
    0x0262_c2bb,
    0x0202_9293,
    0x0202_d293,
    0x0651_3023,
    0x0601_3283,
    0x0201_3303,
    0x0002_829b,
    0x0003_031b,
    0x0062_a2b3,
    0x0851_3023,
    0x0601_3283,
    0x0201_3303,
    0x0801_3383,
    0x0003_9463,
    0x0003_0293,
    0x0a51_3023,
    0x0a01_3503,
    0x1381_3083,
    0x1401_0113,
    0x0000_8067,
];

#[test]
fn words_of_narrow_values(rt: HostRuntime) {
    let alloc = rt.alloc();
    let Ok(Some(module)) = narrow(alloc) else {
        panic!(rt; "the module verifies");
    };
    assert!(rt; takes(&module));
    assert!(rt; module.module().functions.len() == 1);
    let Ok(globals) = Places::new(alloc, &module) else {
        panic!(rt; "there is memory");
    };
    let Ok(version) = quick_flow(alloc, &module, &globals, 0) else {
        panic!(rt; "there is memory");
    };
    assert!(rt; version.words.as_slice() == NARROW.as_slice());
}

// The argument where it is 5, 300 where it is 300, and else 10, which comes to a phi.
fn choosing(alloc: Global, cases: Vec<(u128, u32)>) -> Result<Option<Checked>, AllocError> {
    let choice = ends(Op::Switch(WORD, Operand::Value(0), 1, Items::from_vec(cases)));
    let number = gives(
        WORD,
        Op::Phi(Items::from_vec(vec![in alloc; (Operand::Num(10), 0)]?)),
    );
    let entry = block(vec![in alloc; choice]?);
    let other = block(vec![in alloc; number, returns(1)]?);
    let same = block(vec![in alloc; returns(0)]?);
    let large = block(vec![in alloc; ends(Op::Ret(Some(Operand::Num(300))))]?);
    let function = Function {
        name: Items::new(alloc),
        params: Items::from_vec(vec![in alloc; WORD]?),
        ret: WORD,
        blocks: Items::from_vec(vec![in alloc; entry, other, same, large]?),
    };
    let module = Module {
        globals: Items::new(alloc),
        functions: Items::from_vec(vec![in alloc; function]?),
    };
    match verify(alloc, module, 4096) {
        Ok(checked) => Ok(Some(checked)),
        Err(_) => Ok(None),
    }
}

// As LLVM's assembler writes them.
const CHOOSING: [u32; 32] = [
    0x0010_0293,
    0x0000_0313,
    0x0000_0073,
    0xf401_0293,
    0x4000_03b7,
    0x0072_f663,
    0x0020_0293,
    0x0000_0073,
    0xf401_0113,
    0x0a11_3c23,
    0x00a1_3023,
    0x0001_3283,
    0x0050_0313,
    0x0262_8663,
    0x12c0_0313,
    0x0262_8a63,
    0x00a0_0293,
    0x0251_3823,
    0x0301_3283,
    0x0251_3023,
    0x0201_3503,
    0x0b81_3083,
    0x0c01_0113,
    0x0000_8067,
    0x0001_3503,
    0x0b81_3083,
    0x0c01_0113,
    0x0000_8067,
    0x12c0_0513,
    0x0b81_3083,
    0x0c01_0113,
    0x0000_8067,
];

#[test]
fn words_of_a_switch(rt: HostRuntime) {
    let alloc = rt.alloc();
    let Ok(cases) = vec![in alloc; (5, 2), (300, 3)] else {
        panic!(rt; "there is memory");
    };
    let Ok(Some(module)) = choosing(alloc, cases) else {
        panic!(rt; "the module verifies");
    };
    assert!(rt; takes(&module));
    assert!(rt; module.module().functions.len() == 1);
    let Ok(globals) = Places::new(alloc, &module) else {
        panic!(rt; "there is memory");
    };
    let Ok(version) = quick_flow(alloc, &module, &globals, 0) else {
        panic!(rt; "there is memory");
    };
    assert!(rt; version.words.as_slice() == CHOOSING.as_slice());
}

// Room for three words, the argument in the first of them, and its address.
fn taking(alloc: Global) -> Result<Option<Checked>, AllocError> {
    let taken = gives(Ty::Ptr, Op::Alloca(MemTy::Int(64), 3));
    let stored = ends(Op::Store(WORD, Operand::Value(0), Operand::Value(1)));
    let body = block(vec![in alloc; taken, stored, returns(1)]?);
    let function = Function {
        name: Items::new(alloc),
        params: Items::from_vec(vec![in alloc; WORD]?),
        ret: Ty::Ptr,
        blocks: Items::from_vec(vec![in alloc; body]?),
    };
    let module = Module {
        globals: Items::new(alloc),
        functions: Items::from_vec(vec![in alloc; function]?),
    };
    match verify(alloc, module, 4096) {
        Ok(checked) => Ok(Some(checked)),
        Err(_) => Ok(None),
    }
}

// As LLVM's assembler would write them: s11 is saved and restored, and 24 bytes are rounded up to 32.
const TAKING: [u32; 28] = [
    0x0010_0293,
    0x0000_0313,
    0x0000_0073,
    0xf401_0293,
    0x4000_03b7,
    0x0072_f663,
    0x0020_0293,
    0x0000_0073,
    0xf401_0113,
    0x0a11_3c23,
    0x05b1_3c23,
    0x00a1_3023,
    0x0200_0293,
    0x005d_82b3,
    0x1000_1337,
    0x0053_7663,
    0x0020_0293,
    0x0000_0073,
    0x03b1_3023,
    0x0002_8d93,
    0x0001_3283,
    0x0201_3303,
    0x0053_3023,
    0x0201_3503,
    0x0581_3d83,
    0x0b81_3083,
    0x0c01_0113,
    0x0000_8067,
];

#[test]
fn words_of_an_alloca(rt: HostRuntime) {
    let alloc = rt.alloc();
    let Ok(Some(module)) = taking(alloc) else {
        panic!(rt; "the module verifies");
    };
    assert!(rt; takes(&module));
    assert!(rt; module.module().functions.len() == 1);
    let Ok(globals) = Places::new(alloc, &module) else {
        panic!(rt; "there is memory");
    };
    let Ok(version) = quick_flow(alloc, &module, &globals, 0) else {
        panic!(rt; "there is memory");
    };
    assert!(rt; version.words.as_slice() == TAKING.as_slice());
}

// Bytes are moved, and filled with 7.
fn moving(alloc: Global) -> Result<Option<Checked>, AllocError> {
    let (to, from, count) = (Operand::Value(0), Operand::Value(1), Operand::Value(2));
    let last = (Ty::Int(1), Operand::Num(0));
    let moved = vec![in alloc; (Ty::Ptr, to), (Ty::Ptr, from), (WORD, count), last]?;
    let seven = (Ty::Int(8), Operand::Num(7));
    let filled = vec![in alloc; (Ty::Ptr, to), seven, (WORD, count), last]?;
    let body = block(vec![in alloc;
        ends(Op::BuiltIn(BuiltIn::MemMove, Items::from_vec(moved))),
        ends(Op::BuiltIn(BuiltIn::MemSet, Items::from_vec(filled))),
        ends(Op::Ret(None)),
    ]?);
    let function = Function {
        name: Items::new(alloc),
        params: Items::from_vec(vec![in alloc; Ty::Ptr, Ty::Ptr, WORD]?),
        ret: Ty::Void,
        blocks: Items::from_vec(vec![in alloc; body]?),
    };
    let module = Module {
        globals: Items::new(alloc),
        functions: Items::from_vec(vec![in alloc; function]?),
    };
    match verify(alloc, module, 4096) {
        Ok(checked) => Ok(Some(checked)),
        Err(_) => Ok(None),
    }
}

// As LLVM's assembler would write them.
const MOVING: [u32; 41] = [
    0x0010_0293,
    0x0000_0313,
    0x0000_0073,
    0xf201_0293,
    0x4000_03b7,
    0x0072_f663,
    0x0020_0293,
    0x0000_0073,
    0xf201_0113,
    0x0c11_3c23,
    0x00a1_3023,
    0x02b1_3023,
    0x04c1_3023,
    0x0001_3283,
    0x0201_3303,
    0x0401_3383,
    0x0203_8c63,
    0x0010_0e93,
    0x0053_7c63,
    0x0072_82b3,
    0x0073_0333,
    0xfff2_8293,
    0xfff3_0313,
    0xfff0_0e93,
    0x0003_4e03,
    0x01c2_8023,
    0x01d3_0333,
    0x01d2_82b3,
    0xfff3_8393,
    0xfe03_96e3,
    0x0001_3283,
    0x0070_0313,
    0x0401_3383,
    0x0003_8a63,
    0x0062_8023,
    0x0012_8293,
    0xfff3_8393,
    0xfe03_9ae3,
    0x0d81_3083,
    0x0e01_0113,
    0x0000_8067,
];

#[test]
fn words_of_moved_bytes(rt: HostRuntime) {
    let alloc = rt.alloc();
    let Ok(Some(module)) = moving(alloc) else {
        panic!(rt; "the module verifies");
    };
    assert!(rt; takes(&module));
    assert!(rt; module.module().functions.len() == 1);
    let Ok(globals) = Places::new(alloc, &module) else {
        panic!(rt; "there is memory");
    };
    let Ok(version) = quick_flow(alloc, &module, &globals, 0) else {
        panic!(rt; "there is memory");
    };
    assert!(rt; version.words.as_slice() == MOVING.as_slice());
}

// Two cases lead to one block with a phi, and one to a block without.
fn meeting(alloc: Global) -> Result<Option<Checked>, AllocError> {
    let cases = vec![in alloc; (5, 2), (9, 2), (300, 3)]?;
    let choice = ends(Op::Switch(WORD, Operand::Value(0), 1, Items::from_vec(cases)));
    let pairs = vec![in alloc; (Operand::Num(20), 0), (Operand::Num(20), 0)]?;
    let number = gives(WORD, Op::Phi(Items::from_vec(pairs)));
    let entry = block(vec![in alloc; choice]?);
    let same = block(vec![in alloc; returns(0)]?);
    let joined = block(vec![in alloc; number, returns(1)]?);
    let large = block(vec![in alloc; ends(Op::Ret(Some(Operand::Num(300))))]?);
    let function = Function {
        name: Items::new(alloc),
        params: Items::from_vec(vec![in alloc; WORD]?),
        ret: WORD,
        blocks: Items::from_vec(vec![in alloc; entry, same, joined, large]?),
    };
    let module = Module {
        globals: Items::new(alloc),
        functions: Items::from_vec(vec![in alloc; function]?),
    };
    match verify(alloc, module, 4096) {
        Ok(checked) => Ok(Some(checked)),
        Err(_) => Ok(None),
    }
}

// As LLVM's assembler writes them: both tests branch to one edge, which stands behind the one where no case holds.
const MEETING: [u32; 36] = [
    0x0010_0293,
    0x0000_0313,
    0x0000_0073,
    0xf401_0293,
    0x4000_03b7,
    0x0072_f663,
    0x0020_0293,
    0x0000_0073,
    0xf401_0113,
    0x0a11_3c23,
    0x00a1_3023,
    0x0001_3283,
    0x0050_0313,
    0x0062_8c63,
    0x0090_0313,
    0x0062_8863,
    0x12c0_0313,
    0x0262_8e63,
    0x0100_006f,
    0x0140_0293,
    0x0251_3823,
    0x0140_006f,
    0x0001_3503,
    0x0b81_3083,
    0x0c01_0113,
    0x0000_8067,
    0x0301_3283,
    0x0251_3023,
    0x0201_3503,
    0x0b81_3083,
    0x0c01_0113,
    0x0000_8067,
    0x12c0_0513,
    0x0b81_3083,
    0x0c01_0113,
    0x0000_8067,
];

#[test]
fn words_of_cases_that_meet(rt: HostRuntime) {
    let alloc = rt.alloc();
    let Ok(Some(module)) = meeting(alloc) else {
        panic!(rt; "the module verifies");
    };
    assert!(rt; takes(&module) && module.module().functions.len() == 1);
    let Ok(globals) = Places::new(alloc, &module) else {
        panic!(rt; "there is memory");
    };
    let Ok(version) = quick_flow(alloc, &module, &globals, 0) else {
        panic!(rt; "there is memory");
    };
    assert!(rt; version.words.as_slice() == MEETING.as_slice());
}

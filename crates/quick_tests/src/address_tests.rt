// The words of addresses and of built-ins, beside those that are assembled by hand.
use fast_isel::compile::quick_flow;
use fast_isel::taken::takes;
use ir_core::code::{Block, BuiltIn, Inst, Op, Operand};
use ir_core::program::{Function, Global as GlobalItem, Init, Module};
use ir_core::types::{MemTy, Ty};
use ir_data::addresses::Places;
use ir_verify::checked::Checked;
use ir_verify::verdict::verify;
use sqlite_items::{Boxed, Items};
use std::alloc::{AllocError, Global};

const BYTE: Ty = Ty::Int(8);

const WORD: Ty = Ty::Int(64);

fn gives(ty: Ty, op: Op) -> Inst {
    Inst { gives: ty, op }
}

// A module of one function of one block, and these globals.
fn checked(
    alloc: Global,
    globals: Vec<GlobalItem>,
    params: Vec<Ty>,
    ret: Ty,
    insts: Vec<Inst>,
) -> Result<Option<Checked>, AllocError> {
    let block = Block {
        insts: Items::from_vec(insts),
    };
    let function = Function {
        name: Items::new(alloc),
        params: Items::from_vec(params),
        ret,
        blocks: Items::from_vec(vec![in alloc; block]?),
    };
    let module = Module {
        globals: Items::from_vec(globals),
        functions: Items::from_vec(vec![in alloc; function]?),
    };
    match verify(alloc, module, 4096) {
        Ok(checked) => Ok(Some(checked)),
        Err(_) => Ok(None),
    }
}

fn returns(value: u32) -> Inst {
    gives(Ty::Void, Op::Ret(Some(Operand::Value(value))))
}

fn global(alloc: Global, ty: MemTy) -> GlobalItem {
    GlobalItem {
        name: Items::new(alloc),
        ty,
        init: Init::Zero,
    }
}

// What stands in the second of two globals, which comes 16 bytes behind the first.
fn placed(alloc: Global) -> Result<Option<Checked>, AllocError> {
    let first = global(alloc, MemTy::Int(8));
    let second = global(alloc, MemTy::Int(64));
    let load = gives(WORD, Op::Load(Operand::Place(1, 0)));
    checked(
        alloc,
        vec![in alloc; first, second]?,
        Vec::new(alloc),
        WORD,
        vec![in alloc; load, returns(0)]?,
    )
}

// As LLVM's assembler writes them.
const PLACED: [u32; 18] = [
    0x0010_0293,
    0x0000_0313,
    0x0000_0073,
    0xf601_0293,
    0x4000_03b7,
    0x0072_f663,
    0x0020_0293,
    0x0000_0073,
    0xf601_0113,
    0x0811_3c23,
    0x1000_02b7,
    0x0102_829b,
    0x0002_b283,
    0x0051_3023,
    0x0001_3503,
    0x0981_3083,
    0x0a01_0113,
    0x0000_8067,
];

#[test]
fn words_of_an_address(rt: HostRuntime) {
    let alloc = rt.alloc();
    let Ok(Some(module)) = placed(alloc) else {
        panic!(rt; "the module verifies");
    };
    assert!(rt; takes(&module));
    assert!(rt; module.module().functions.len() == 1);
    let Ok(globals) = Places::new(alloc, &module) else {
        panic!(rt; "there is memory");
    };
    let Ok(version) = quick_flow(alloc, &module, &globals, 0) else {
        panic!(rt; "there is memory");
    };
    assert!(rt; version.words.as_slice() == PLACED.as_slice());
}

// The absolute value of the lesser, without a sign, of the greater of two numbers, and of the second of them.
fn built(alloc: Global) -> Result<Option<Checked>, AllocError> {
    let greater = vec![in alloc; (BYTE, Operand::Value(0)), (BYTE, Operand::Value(1))]?;
    let lesser = vec![in alloc; (BYTE, Operand::Value(2)), (BYTE, Operand::Value(1))]?;
    let last = vec![in alloc; (BYTE, Operand::Value(3)), (Ty::Int(1), Operand::Num(1))]?;
    let insts = vec![in alloc;
        gives(BYTE, Op::BuiltIn(BuiltIn::SMax, Items::from_vec(greater))),
        gives(BYTE, Op::BuiltIn(BuiltIn::UMin, Items::from_vec(lesser))),
        gives(BYTE, Op::BuiltIn(BuiltIn::Abs, Items::from_vec(last))),
        returns(4),
    ]?;
    checked(
        alloc,
        Vec::new(alloc),
        vec![in alloc; BYTE, BYTE]?,
        BYTE,
        insts,
    )
}

// As LLVM's assembler writes them.
const BUILT: [u32; 40] = [
    0x0010_0293,
    0x0000_0313,
    0x0000_0073,
    0xee01_0293,
    0x4000_03b7,
    0x0072_f663,
    0x0020_0293,
    0x0000_0073,
    0xee01_0113,
    0x1011_3c23,
    0x0ff5_7513,
    0x00a1_3023,
    0x0ff5_f593,
    0x02b1_3023,
    0x0001_3283,
    0x0201_3303,
    0x0382_9293,
    0x4382_d293,
    0x0383_1313,
    0x4383_5313,
    0x0062_d463,
    0x0003_0293,
    0x0ff2_f293,
    0x0451_3023,
    0x0401_3283,
    0x0201_3303,
    0x0053_7463,
    0x0003_0293,
    0x0651_3023,
    0x0601_3283,
    0x0382_9293,
    0x4382_d293,
    0x0002_d463,
    0x4050_02b3,
    0x0ff2_f293,
    0x0851_3023,
    0x0801_3503,
    0x1181_3083,
    0x1201_0113,
    0x0000_8067,
];

#[test]
fn words_of_built_ins(rt: HostRuntime) {
    let alloc = rt.alloc();
    let Ok(Some(module)) = built(alloc) else {
        panic!(rt; "the module verifies");
    };
    assert!(rt; takes(&module));
    assert!(rt; module.module().functions.len() == 1);
    let Ok(globals) = Places::new(alloc, &module) else {
        panic!(rt; "there is memory");
    };
    let Ok(version) = quick_flow(alloc, &module, &globals, 0) else {
        panic!(rt; "there is memory");
    };
    assert!(rt; version.words.as_slice() == BUILT.as_slice());
}

// The second field of an element of the second field: 72 bytes for each of the first index, and 16 for each of the third.
fn part(alloc: Global) -> Result<Option<Checked>, AllocError> {
    let inner = vec![in alloc; MemTy::Int(64), MemTy::Int(32)]?;
    let pair = Boxed::new(alloc, MemTy::Struct(Items::from_vec(inner), false))?;
    let outer = vec![in alloc; MemTy::Int(8), MemTy::Array(4, pair)]?;
    let word = Ty::Int(32);
    let indices = vec![in alloc;
        (WORD, Operand::Value(1)),
        (word, Operand::Num(1)),
        (word, Operand::Value(2)),
        (word, Operand::Num(1)),
    ]?;
    let of = MemTy::Struct(Items::from_vec(outer), false);
    let address = Op::Gep(of, Operand::Value(0), Items::from_vec(indices));
    checked(
        alloc,
        Vec::new(alloc),
        vec![in alloc; Ty::Ptr, WORD, word]?,
        Ty::Ptr,
        vec![in alloc; gives(Ty::Ptr, address), returns(3)]?,
    )
}

// As LLVM's assembler writes them.
const PART: [u32; 30] = [
    0x0010_0293,
    0x0000_0313,
    0x0000_0073,
    0xf001_0293,
    0x4000_03b7,
    0x0072_f663,
    0x0020_0293,
    0x0000_0073,
    0xf001_0113,
    0x0e11_3c23,
    0x00a1_3023,
    0x02b1_3023,
    0x0206_1613,
    0x0206_5613,
    0x04c1_3023,
    0x0001_3283,
    0x0201_3303,
    0x0480_0393,
    0x0273_0333,
    0x0062_82b3,
    0x0401_3303,
    0x0003_031b,
    0x0043_1313,
    0x0062_82b3,
    0x0102_8293,
    0x0651_3023,
    0x0601_3503,
    0x0f81_3083,
    0x1001_0113,
    0x0000_8067,
];

#[test]
fn words_of_an_address_of_a_part(rt: HostRuntime) {
    let alloc = rt.alloc();
    let Ok(Some(module)) = part(alloc) else {
        panic!(rt; "the module verifies");
    };
    assert!(rt; takes(&module));
    assert!(rt; module.module().functions.len() == 1);
    let Ok(globals) = Places::new(alloc, &module) else {
        panic!(rt; "there is memory");
    };
    let Ok(version) = quick_flow(alloc, &module, &globals, 0) else {
        panic!(rt; "there is memory");
    };
    assert!(rt; version.words.as_slice() == PART.as_slice());
}

ghost use Rattle.std.specs.Prelude.{◌≡◌, ◌++◌, OnOk, slice_get, codes, decimal};
ghost use Rattle.std.specs.List.{flat_map};
ghost use Rattle.std.specs.Option.{option_copied};
ghost use Rattle.ir_core.specs.Units.{has_result};
ghost use Rattle.ir_print.specs.Types.{ty_text, memory_text, listed};
ghost use Rattle.ir_print.specs.Values.{operand_text, typed_text};
ghost use Rattle.ir_print.specs.Instructions.{flag_text, flags_text, binary_word, predicate_word, cast_word, width_of_length, width_of_value, built_in_front, built_in_width, built_in_text, function_of, function_text, block_text, incoming_text, argument_text, offset_text, case_text, count_text, call_text, return_text, op_text, result_text, inst_text};

use crate::types::{comma, memory, ty};
use crate::values::{operand, typed, width_of};
use ir_core::code::{BinOp, BuiltIn, CastOp, Flags, Inst, Op, Operand, Pred};
use ir_core::program::{Function, Global, Module};
use ir_core::types::{MemTy, Ty};
use ir_print_names::{Page, name, number};
use rj_num::NoMemory;

fn flag(page: &mut Page, is_set: bool, word: &[u8]) -> Result<(), NoMemory>
    ensures { OnOk result (page.new ≡ page.old ++ flag_text is_set word.now) }
{
    if is_set {
        return page.write(word);
    }
    Ok(())
}

/// Flags in the order of their fields.
fn flags(page: &mut Page, flags: Flags) -> Result<(), NoMemory>
    ensures { OnOk result (page.new ≡ page.old ++ flags_text flags) }
{
    flag(page, flags.nuw, b"nuw ")?;
    flag(page, flags.nsw, b"nsw ")?;
    flag(page, flags.exact, b"exact ")?;
    flag(page, flags.disjoint, b"disjoint ")?;
    flag(page, flags.nneg, b"nneg ")?;
    flag(page, flags.samesign, b"samesign ")
}

fn binary_word(op: BinOp) -> &'static [u8]
    ensures { result.now ≡ binary_word op }
{
    match op {
        BinOp::Add => b"add ",
        BinOp::Sub => b"sub ",
        BinOp::Mul => b"mul ",
        BinOp::UDiv => b"udiv ",
        BinOp::SDiv => b"sdiv ",
        BinOp::URem => b"urem ",
        BinOp::SRem => b"srem ",
        BinOp::Shl => b"shl ",
        BinOp::LShr => b"lshr ",
        BinOp::AShr => b"ashr ",
        BinOp::And => b"and ",
        BinOp::Or => b"or ",
        BinOp::Xor => b"xor ",
    }
}

fn predicate_word(predicate: Pred) -> &'static [u8]
    ensures { result.now ≡ predicate_word predicate }
{
    match predicate {
        Pred::Eq => b"eq ",
        Pred::Ne => b"ne ",
        Pred::Ugt => b"ugt ",
        Pred::Uge => b"uge ",
        Pred::Ult => b"ult ",
        Pred::Ule => b"ule ",
        Pred::Sgt => b"sgt ",
        Pred::Sge => b"sge ",
        Pred::Slt => b"slt ",
        Pred::Sle => b"sle ",
    }
}

fn cast_word(op: CastOp) -> &'static [u8]
    ensures { result.now ≡ cast_word op }
{
    match op {
        CastOp::Trunc => b"trunc ",
        CastOp::ZExt => b"zext ",
        CastOp::SExt => b"sext ",
        CastOp::PtrToInt => b"ptrtoint ",
        CastOp::IntToPtr => b"inttoptr ",
        CastOp::Same => b"bitcast ",
    }
}

/// The width of a built-in of memory is that of the length, its third argument.
fn width_of_length(arguments: &[(Ty, Operand)]) -> u32
    ensures { result ≡ width_of_length arguments.now }
{
    match arguments {
        [_, _, (given, _), ..] => width_of(*given),
        _ => 64,
    }
}

/// The width of another built-in is the first argument's.
fn width_of_value(arguments: &[(Ty, Operand)]) -> u32
    ensures { result ≡ width_of_value arguments.now }
{
    match arguments {
        [(given, _), ..] => width_of(*given),
        [] => 64,
    }
}

/// The name of a built-in but for its width.
fn built_in_front(which: BuiltIn) -> &'static [u8]
    ensures { result.now ≡ built_in_front which }
{
    match which {
        BuiltIn::MemCpy => b"llvm.memcpy.p0.p0.i",
        BuiltIn::MemMove => b"llvm.memmove.p0.p0.i",
        BuiltIn::MemSet => b"llvm.memset.p0.i",
        BuiltIn::SMax => b"llvm.smax.i",
        BuiltIn::SMin => b"llvm.smin.i",
        BuiltIn::UMax => b"llvm.umax.i",
        BuiltIn::UMin => b"llvm.umin.i",
        BuiltIn::Abs => b"llvm.abs.i",
    }
}

fn built_in_width(which: BuiltIn, arguments: &[(Ty, Operand)]) -> u32
    ensures { result ≡ built_in_width which arguments.now }
{
    match which {
        BuiltIn::MemCpy => width_of_length(arguments),
        BuiltIn::MemMove => width_of_length(arguments),
        BuiltIn::MemSet => width_of_length(arguments),
        _ => width_of_value(arguments),
    }
}

fn built_in(page: &mut Page, which: BuiltIn, arguments: &[(Ty, Operand)]) -> Result<(), NoMemory>
    ensures { OnOk result (page.new ≡ page.old ++ built_in_text which arguments.now) }
{
    page.write(built_in_front(which))?;
    page.number(built_in_width(which, arguments) as u128)
}

fn name_of(function: Option<&Function>) -> &[u8]
    ensures { result.now ≡ function_of (option_copied function.entry) }
{
    match function {
        Some(function) => function.name.as_slice(),
        None => &[],
    }
}

/// `label %bK`
fn block(page: &mut Page, number: u32) -> Result<(), NoMemory>
    ensures { OnOk result (page.new ≡ page.old ++ block_text number) }
{
    page.write(b"label %b")?;
    page.number(number as u128)
}

/// `[ V, %bK ]`
fn incoming(
    page: &mut Page,
    globals: &[Global],
    given: Ty,
    one: (Operand, u32),
) -> Result<(), NoMemory>
    ensures { OnOk result (page.new ≡ page.old ++ incoming_text globals.now given one) }
{
    page.write(b"[ ")?;
    operand(page, globals, given, one.0)?;
    page.write(b", %b")?;
    page.number(one.1 as u128)?;
    page.write(b" ]")
}

/// `[ V, %bK ], ..`
fn all_incoming(
    page: &mut Page,
    globals: &[Global],
    given: Ty,
    all: &[(Operand, u32)],
) -> Result<(), NoMemory>
    ensures { OnOk result (page.new ≡ page.old ++ listed (incoming_text globals.now given) 0 all.now) }
{
    for (index, one) in all.iter().enumerate() {
        comma(page, index)?;
        incoming(page, globals, given, *one)?;
    }
    Ok(())
}

/// `phi T [ V, %bK ], ..`
fn phi(
    page: &mut Page,
    globals: &[Global],
    given: Ty,
    all: &[(Operand, u32)],
) -> Result<(), NoMemory>
    ensures { OnOk result (page.new ≡ page.old ++ (codes "phi " ++ ty_text given ++ codes " " ++ listed (incoming_text globals.now given) 0 all.now)) }
{
    page.write(b"phi ")?;
    ty(page, given)?;
    page.write(b" ")?;
    all_incoming(page, globals, given, all)
}

fn more_arguments(
    page: &mut Page,
    globals: &[Global],
    arguments: &[(Ty, Operand)],
) -> Result<(), NoMemory>
    ensures { OnOk result (page.new ≡ page.old ++ flat_map (offset_text globals.now) arguments.now) }
{
    for (given, value) in arguments {
        page.write(b", ")?;
        typed(page, globals, *given, *value)?;
    }
    Ok(())
}

/// `T V, ..`
fn all_arguments(
    page: &mut Page,
    globals: &[Global],
    arguments: &[(Ty, Operand)],
) -> Result<(), NoMemory>
    ensures { OnOk result (page.new ≡ page.old ++ listed (argument_text globals.now) 0 arguments.now) }
{
    for (index, one) in arguments.iter().enumerate() {
        comma(page, index)?;
        typed(page, globals, one.0, one.1)?;
    }
    Ok(())
}

/// `(T V, ..)`
fn arguments(
    page: &mut Page,
    globals: &[Global],
    arguments: &[(Ty, Operand)],
) -> Result<(), NoMemory>
    ensures { OnOk result (page.new ≡ page.old ++ (codes "(" ++ listed (argument_text globals.now) 0 arguments.now ++ codes ")")) }
{
    page.write(b"(")?;
    all_arguments(page, globals, arguments)?;
    page.write(b")")
}

/// `call T `
fn call_start(page: &mut Page, gives: Ty) -> Result<(), NoMemory>
    ensures { OnOk result (page.new ≡ page.old ++ (codes "call " ++ ty_text gives ++ codes " ")) }
{
    page.write(b"call ")?;
    ty(page, gives)?;
    page.write(b" ")
}

/// `call T @NAME(T V, ..)`
fn call(
    page: &mut Page,
    program: &Module,
    gives: Ty,
    callee: u32,
    given: &[(Ty, Operand)],
) -> Result<(), NoMemory>
    ensures { OnOk result (page.new ≡ page.old ++ call_text program.now.globals gives (function_text program.now.functions callee) given.now) }
{
    call_start(page, gives)?;
    page.write(b"@")?;
    name(page, name_of(program.functions.get(callee as usize)))?;
    arguments(page, program.globals.as_slice(), given)
}

/// The call of a built-in.
fn built_in_call(
    page: &mut Page,
    program: &Module,
    gives: Ty,
    which: BuiltIn,
    given: &[(Ty, Operand)],
) -> Result<(), NoMemory>
    ensures { OnOk result (page.new ≡ page.old ++ call_text program.now.globals gives (codes "@" ++ built_in_text which given.now) given.now) }
{
    call_start(page, gives)?;
    page.write(b"@")?;
    built_in(page, which, given)?;
    arguments(page, program.globals.as_slice(), given)
}

/// The number of items, where it isn't one.
fn item_count(page: &mut Page, count: u64) -> Result<(), NoMemory>
    ensures { OnOk result (page.new ≡ page.old ++ count_text count) }
{
    if count == 1 {
        return Ok(());
    }
    page.write(b", i64 ")?;
    page.number(count as u128)
}

/// `alloca T`, and the number of items where it isn't one.
fn alloca(page: &mut Page, item: &MemTy, count: u64) -> Result<(), NoMemory>
    ensures { OnOk result (page.new ≡ page.old ++ (codes "alloca " ++ memory_text item.now ++ count_text count)) }
{
    page.write(b"alloca ")?;
    memory(page, item)?;
    item_count(page, count)
}

/// `getelementptr T, ptr V, iN V, ..`
fn address(
    page: &mut Page,
    globals: &[Global],
    item: &MemTy,
    base: Operand,
    offsets: &[(Ty, Operand)],
) -> Result<(), NoMemory>
    ensures { OnOk result (page.new ≡ page.old ++ (codes "getelementptr " ++ memory_text item.now ++ codes ", " ++ typed_text globals.now Ty.Ptr base ++ flat_map (offset_text globals.now) offsets.now)) }
{
    page.write(b"getelementptr ")?;
    memory(page, item)?;
    page.write(b", ")?;
    typed(page, globals, Ty::Ptr, base)?;
    more_arguments(page, globals, offsets)
}

/// ` T NUMBER, label %bK`
fn case(page: &mut Page, given: Ty, one: (u128, u32)) -> Result<(), NoMemory>
    ensures { OnOk result (page.new ≡ page.old ++ case_text given one) }
{
    page.write(b" ")?;
    ty(page, given)?;
    page.write(b" ")?;
    number(page, width_of(given), one.0)?;
    page.write(b", ")?;
    block(page, one.1)
}

fn cases(page: &mut Page, given: Ty, all: &[(u128, u32)]) -> Result<(), NoMemory>
    ensures { OnOk result (page.new ≡ page.old ++ flat_map (case_text given) all.now) }
{
    for one in all {
        case(page, given, *one)?;
    }
    Ok(())
}

/// `switch T V, label %bK [ T NUMBER, label %bK .. ]`
fn switch(
    page: &mut Page,
    globals: &[Global],
    given: Ty,
    value: Operand,
    otherwise: u32,
    all: &[(u128, u32)],
) -> Result<(), NoMemory>
    ensures { OnOk result (page.new ≡ page.old ++ (codes "switch " ++ typed_text globals.now given value ++ codes ", " ++ block_text otherwise ++ codes " [" ++ flat_map (case_text given) all.now ++ codes " ]")) }
{
    page.write(b"switch ")?;
    typed(page, globals, given, value)?;
    page.write(b", ")?;
    block(page, otherwise)?;
    page.write(b" [")?;
    cases(page, given, all)?;
    page.write(b" ]")
}

/// `OP FLAGS T V, V`
fn binary(
    page: &mut Page,
    globals: &[Global],
    gives: Ty,
    op: BinOp,
    given: Flags,
    left: Operand,
    right: Operand,
) -> Result<(), NoMemory>
    ensures { OnOk result (page.new ≡ page.old ++ (binary_word op ++ flags_text given ++ typed_text globals.now gives left ++ codes ", " ++ operand_text globals.now gives right)) }
{
    page.write(binary_word(op))?;
    flags(page, given)?;
    typed(page, globals, gives, left)?;
    page.write(b", ")?;
    operand(page, globals, gives, right)
}

/// `icmp FLAGS PRED T V, V`
fn comparison(
    page: &mut Page,
    globals: &[Global],
    predicate: Pred,
    given: Flags,
    of: Ty,
    left: Operand,
    right: Operand,
) -> Result<(), NoMemory>
    ensures { OnOk result (page.new ≡ page.old ++ (codes "icmp " ++ flags_text given ++ predicate_word predicate ++ typed_text globals.now of left ++ codes ", " ++ operand_text globals.now of right)) }
{
    page.write(b"icmp ")?;
    flags(page, given)?;
    page.write(predicate_word(predicate))?;
    typed(page, globals, of, left)?;
    page.write(b", ")?;
    operand(page, globals, of, right)
}

/// `OP FLAGS T V to T`
fn cast(
    page: &mut Page,
    globals: &[Global],
    gives: Ty,
    op: CastOp,
    given: Flags,
    from: Ty,
    value: Operand,
) -> Result<(), NoMemory>
    ensures { OnOk result (page.new ≡ page.old ++ (cast_word op ++ flags_text given ++ typed_text globals.now from value ++ codes " to " ++ ty_text gives)) }
{
    page.write(cast_word(op))?;
    flags(page, given)?;
    typed(page, globals, from, value)?;
    page.write(b" to ")?;
    ty(page, gives)
}

/// `WORD T V, T V`
fn two(
    page: &mut Page,
    globals: &[Global],
    word: &[u8],
    first: (Ty, Operand),
    second: (Ty, Operand),
) -> Result<(), NoMemory>
    ensures { OnOk result (page.new ≡ page.old ++ (word.now ++ typed_text globals.now first.0 first.1 ++ codes ", " ++ typed_text globals.now second.0 second.1)) }
{
    page.write(word)?;
    typed(page, globals, first.0, first.1)?;
    page.write(b", ")?;
    typed(page, globals, second.0, second.1)
}

/// `WORD T V`
fn one(
    page: &mut Page,
    globals: &[Global],
    word: &[u8],
    given: Ty,
    value: Operand,
) -> Result<(), NoMemory>
    ensures { OnOk result (page.new ≡ page.old ++ (word.now ++ typed_text globals.now given value)) }
{
    page.write(word)?;
    typed(page, globals, given, value)
}

/// `select i1 V, T V, T V`
fn select(
    page: &mut Page,
    globals: &[Global],
    gives: Ty,
    condition: Operand,
    left: Operand,
    right: Operand,
) -> Result<(), NoMemory>
    ensures { OnOk result (page.new ≡ page.old ++ (codes "select " ++ typed_text globals.now (Ty.Int 1) condition ++ codes ", " ++ typed_text globals.now gives left ++ codes ", " ++ typed_text globals.now gives right)) }
{
    one(page, globals, b"select ", Ty::Int(1), condition)?;
    two(page, globals, b", ", (gives, left), (gives, right))
}

/// `load T, ptr V`
fn load(page: &mut Page, globals: &[Global], gives: Ty, from: Operand) -> Result<(), NoMemory>
    ensures { OnOk result (page.new ≡ page.old ++ (codes "load " ++ ty_text gives ++ codes ", " ++ typed_text globals.now Ty.Ptr from)) }
{
    page.write(b"load ")?;
    ty(page, gives)?;
    one(page, globals, b", ", Ty::Ptr, from)
}

/// `ret void` or `ret T V`
fn ret(
    page: &mut Page,
    globals: &[Global],
    given: Ty,
    value: Option<Operand>,
) -> Result<(), NoMemory>
    ensures { OnOk result (page.new ≡ page.old ++ return_text globals.now given value) }
{
    match value {
        Some(value) => one(page, globals, b"ret ", given, value),
        None => page.write(b"ret void"),
    }
}

/// `br label %bK`
fn jump(page: &mut Page, to: u32) -> Result<(), NoMemory>
    ensures { OnOk result (page.new ≡ page.old ++ (codes "br " ++ block_text to)) }
{
    page.write(b"br label %b")?;
    page.number(to as u128)
}

/// `br i1 V, label %bK, label %bK`
fn fork(
    page: &mut Page,
    globals: &[Global],
    condition: Operand,
    yes: u32,
    no: u32,
) -> Result<(), NoMemory>
    ensures { OnOk result (page.new ≡ page.old ++ (codes "br " ++ typed_text globals.now (Ty.Int 1) condition ++ codes ", " ++ block_text yes ++ codes ", " ++ block_text no)) }
{
    one(page, globals, b"br ", Ty::Int(1), condition)?;
    page.write(b", ")?;
    block(page, yes)?;
    page.write(b", ")?;
    block(page, no)
}

/// An operation in a function of this result, by the type that it gives.
fn op(page: &mut Page, program: &Module, result_ty: Ty, gives: Ty, op: &Op) -> Result<(), NoMemory>
    ensures { OnOk result (page.new ≡ page.old ++ op_text program.now result_ty gives op.now) }
{
    let globals = program.globals.as_slice();
    match op {
        Op::Binary(which, given, a, b) => binary(page, globals, gives, *which, *given, *a, *b),
        Op::Icmp(which, given, of, a, b) => {
            comparison(page, globals, *which, *given, *of, *a, *b)
        }
        Op::Cast(which, given, from, a) => cast(page, globals, gives, *which, *given, *from, *a),
        Op::Select(condition, a, b) => select(page, globals, gives, *condition, *a, *b),
        Op::Freeze(a) => one(page, globals, b"freeze ", gives, *a),
        Op::Phi(all) => phi(page, globals, gives, all.as_slice()),
        Op::Alloca(item, count) => alloca(page, item, *count),
        Op::Load(from) => load(page, globals, gives, *from),
        Op::Store(of, value, into) => {
            two(page, globals, b"store ", (*of, *value), (Ty::Ptr, *into))
        }
        Op::Gep(item, base, offsets) => address(page, globals, item, *base, offsets.as_slice()),
        Op::Call(callee, given) => call(page, program, gives, *callee, given.as_slice()),
        Op::BuiltIn(which, given) => built_in_call(page, program, gives, *which, given.as_slice()),
        Op::Ret(value) => ret(page, globals, result_ty, *value),
        Op::Br(to) => jump(page, *to),
        Op::CondBr(condition, yes, no) => fork(page, globals, *condition, *yes, *no),
        Op::Switch(of, value, otherwise, all) => {
            switch(page, globals, *of, *value, *otherwise, all.as_slice())
        }
        Op::Unreachable => page.write(b"unreachable"),
    }
}

pub fn has_result(inst: &Inst) -> bool
    ensures { result ≡ has_result inst.now }
{
    inst.gives != Ty::Void
}

fn result_name(page: &mut Page, has_result: bool, value: u64) -> Result<(), NoMemory>
    ensures { OnOk result (page.new ≡ page.old ++ result_text has_result value) }
{
    if !has_result {
        return Ok(());
    }
    page.write(b"%v")?;
    page.number(value as u128)?;
    page.write(b" = ")
}

/// The line of an instruction, whose result would have this number.
pub fn inst(
    page: &mut Page,
    program: &Module,
    result_ty: Ty,
    value: u64,
    inst: &Inst,
) -> Result<(), NoMemory>
    ensures { OnOk result (page.new ≡ page.old ++ inst_text program.now result_ty value inst.now) }
{
    page.write(b"  ")?;
    result_name(page, has_result(inst), value)?;
    op(page, program, result_ty, inst.gives, &inst.op)?;
    page.write(b"\n")
}

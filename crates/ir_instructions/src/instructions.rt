ghost use Rattle.std.specs.Prelude.{◌≡◌};
ghost use Rattle.ir_types.specs.Walk.{Gives};
ghost use Rattle.ir_instructions.specs.Instructions.{result_type, binary, comparison, cast, selection, freezing, phi, loading, storing, callee_number, symbol_of, direct_call, built_in_call, own_call, named_call, call, returned_type, returning, ret, jump, fork, switching, in_entry, alloca, gep, operation};

use crate::built_ins::{NamedBuiltIn, built_in_of, fitting, quiet};
use crate::counts::{item_count, small_aligns};
use crate::lists::{case_list, incoming_list, typed_list};
use ir_core::code::{BinOp, CastOp, Flags, Op, Pred};
use ir_core::types::Ty;
use ir_grammar::type_tree::{Align, TypeNode};
use ir_instruction_trees::{Case, Incoming, Operation};
use ir_resolve::operands::{
    block_of, is_ty, operand, place_of_type, place_of_value, typed, typed_as,
};
use ir_resolve::scope::Outer;
use ir_text::Name;
use ir_types::{Fault, Named, Table, Target, bytes_of, memory, type_of};
use ir_value_trees::value_tree::{Typed, Value};

/// The type of an instruction's result; `void` where it has none.
#[tactic(auto, unfolding(crate::specs::Instructions::result_type))]
pub fn result_type(outer: &Outer, given: &Operation) -> Result<Ty, Fault>
    ensures { Gives (λ ty. ty) result (result_type outer.now.types given.now) }
{
    match given {
        Operation::Binary(_, _, left, _) => type_of(outer.alloc, &outer.types, left.ty.as_slice()),
        Operation::Icmp(..) => Ok(Ty::Int(1)),
        Operation::Cast(_, _, _, target) => type_of(outer.alloc, &outer.types, target.as_slice()),
        Operation::Select(_, left, _) => type_of(outer.alloc, &outer.types, left.ty.as_slice()),
        Operation::Freeze(value) => type_of(outer.alloc, &outer.types, value.ty.as_slice()),
        Operation::Phi(ty, _) => type_of(outer.alloc, &outer.types, ty.as_slice()),
        Operation::Alloca(..) => Ok(Ty::Ptr),
        Operation::Load(ty, _) => type_of(outer.alloc, &outer.types, ty.as_slice()),
        Operation::Gep(..) => Ok(Ty::Ptr),
        Operation::Call(ty, _, _, _) => type_of(outer.alloc, &outer.types, ty.as_slice()),
        _ => Ok(Ty::Void),
    }
}

#[tactic(auto, unfolding(crate::specs::Instructions::binary))]
fn binary(
    outer: &Outer,
    table: &Table,
    operator: BinOp,
    flags: Flags,
    left: &Typed,
    right: &Value,
) -> Result<Op, Fault>
    ensures { Gives (λ op. op) result (binary outer.now.types outer.now.symbols table.now operator flags left.now right.now) }
{
    let (ty, a) = typed(outer, table, left.ty.as_slice(), &left.value)?;
    let b = operand(outer, table, ty, right)?;
    Ok(Op::Binary(operator, flags, a, b))
}

#[tactic(auto, unfolding(crate::specs::Instructions::comparison))]
fn comparison(
    outer: &Outer,
    table: &Table,
    predicate: Pred,
    flags: Flags,
    left: &Typed,
    right: &Value,
) -> Result<Op, Fault>
    ensures { Gives (λ op. op) result (comparison outer.now.types outer.now.symbols table.now predicate flags left.now right.now) }
{
    let (ty, a) = typed(outer, table, left.ty.as_slice(), &left.value)?;
    let b = operand(outer, table, ty, right)?;
    Ok(Op::Icmp(predicate, flags, ty, a, b))
}

#[tactic(auto, unfolding(crate::specs::Instructions::cast))]
fn cast(
    outer: &Outer,
    table: &Table,
    operator: CastOp,
    flags: Flags,
    value: &Typed,
) -> Result<Op, Fault>
    ensures { Gives (λ op. op) result (cast outer.now.types outer.now.symbols table.now operator flags value.now) }
{
    let (ty, a) = typed(outer, table, value.ty.as_slice(), &value.value)?;
    Ok(Op::Cast(operator, flags, ty, a))
}

#[tactic(auto, unfolding(crate::specs::Instructions::selection))]
fn selection(
    outer: &Outer,
    table: &Table,
    condition: &Typed,
    left: &Typed,
    right: &Typed,
) -> Result<Op, Fault>
    ensures { Gives (λ op. op) result (selection outer.now.types outer.now.symbols table.now condition.now left.now right.now) }
{
    let c = typed_as(
        outer,
        table,
        Ty::Int(1),
        condition.ty.as_slice(),
        &condition.value,
    )?;
    let (ty, a) = typed(outer, table, left.ty.as_slice(), &left.value)?;
    let b = typed_as(outer, table, ty, right.ty.as_slice(), &right.value)?;
    Ok(Op::Select(c, a, b))
}

#[tactic(auto, unfolding(crate::specs::Instructions::freezing))]
fn freezing(outer: &Outer, table: &Table, value: &Typed) -> Result<Op, Fault>
    ensures { Gives (λ op. op) result (freezing outer.now.types outer.now.symbols table.now value.now) }
{
    let (_, a) = typed(outer, table, value.ty.as_slice(), &value.value)?;
    Ok(Op::Freeze(a))
}

#[tactic(auto, unfolding(crate::specs::Instructions::phi))]
fn phi(outer: &Outer, table: &Table, given: &[TypeNode], incoming: &[Incoming]) -> Result<Op, Fault>
    ensures { Gives (λ op. op) result (phi outer.now.types outer.now.symbols table.now given.now incoming.now) }
{
    let ty = type_of(outer.alloc, &outer.types, given)?;
    let all = incoming_list(outer, table, ty, incoming)?;
    Ok(Op::Phi(all))
}

#[tactic(auto, unfolding(crate::specs::Instructions::loading))]
fn loading(outer: &Outer, table: &Table, from: &Typed) -> Result<Op, Fault>
    ensures { Gives (λ op. op) result (loading outer.now.types outer.now.symbols table.now from.now) }
{
    let a = typed_as(outer, table, Ty::Ptr, from.ty.as_slice(), &from.value)?;
    Ok(Op::Load(a))
}

#[tactic(auto, unfolding(crate::specs::Instructions::storing))]
fn storing(outer: &Outer, table: &Table, value: &Typed, into: &Typed) -> Result<Op, Fault>
    ensures { Gives (λ op. op) result (storing outer.now.types outer.now.symbols table.now value.now into.now) }
{
    let (ty, a) = typed(outer, table, value.ty.as_slice(), &value.value)?;
    let b = typed_as(outer, table, Ty::Ptr, into.ty.as_slice(), &into.value)?;
    Ok(Op::Store(ty, a, b))
}

fn callee_number(left: usize, target: Target) -> Result<u32, Fault>
    ensures { Gives (λ number. number) result (callee_number left target) }
{
    match target {
        Target::Function(number) => Ok(number),
        Target::Global(_) => Err(Fault::LeftOut(left)),
        _ => Err(Fault::Name(left)),
    }
}

/// What the bytes of a name stand for; `left` is the name's place.
fn symbol_of(symbols: &Named, left: usize, bytes: &[u8]) -> Result<Target, Fault>
    ensures { Gives (λ target. target) result (symbol_of symbols.now left bytes.now) }
{
    match symbols.find(bytes) {
        Some(target) => Ok(target),
        None => Err(Fault::Name(left)),
    }
}

#[tactic(auto, unfolding(crate::specs::Instructions::direct_call))]
fn direct_call(
    outer: &Outer,
    table: &Table,
    callee: &Name,
    arguments: &[Typed],
    bytes: &[u8],
) -> Result<Op, Fault>
    ensures { Gives (λ op. op) result (direct_call outer.now.types outer.now.symbols table.now callee.now arguments.now bytes.now) }
{
    let target = symbol_of(&outer.symbols, callee.left, bytes)?;
    let number = callee_number(callee.left, target)?;
    let all = typed_list(outer, table, arguments)?;
    Ok(Op::Call(number, all))
}

#[tactic(auto, unfolding(crate::specs::Instructions::built_in_call))]
fn built_in_call(
    outer: &Outer,
    table: &Table,
    callee: &Name,
    arguments: &[Typed],
    named: NamedBuiltIn,
) -> Result<Op, Fault>
    ensures { Gives (λ op. op) result (built_in_call outer.now.types outer.now.symbols table.now callee.now arguments.now named) }
{
    let all = typed_list(outer, table, arguments)?;
    quiet(callee.left, named.which, arguments)?;
    fitting(callee.left, named, all.as_slice())?;
    Ok(Op::BuiltIn(named.which, all))
}

fn own_call(
    outer: &Outer,
    table: &Table,
    callee: &Name,
    arguments: &[Typed],
    named: Option<NamedBuiltIn>,
) -> Result<Op, Fault>
    ensures { Gives (λ op. op) result (own_call outer.now.types outer.now.symbols table.now callee.now arguments.now named) }
{
    match named {
        Some(named) => built_in_call(outer, table, callee, arguments, named),
        None => Err(Fault::LeftOut(callee.left)),
    }
}

#[tactic(auto, unfolding(crate::specs::Instructions::named_call))]
fn named_call(
    outer: &Outer,
    table: &Table,
    callee: &Name,
    arguments: &[Typed],
    bytes: &[u8],
) -> Result<Op, Fault>
    ensures { Gives (λ op. op) result (named_call outer.now.types outer.now.symbols table.now callee.now arguments.now bytes.now) }
{
    if bytes.starts_with(b"llvm.") {
        return own_call(outer, table, callee, arguments, built_in_of(bytes));
    }
    direct_call(outer, table, callee, arguments, bytes)
}

#[tactic(auto, unfolding(crate::specs::Instructions::call))]
fn call(
    outer: &Outer,
    table: &Table,
    is_local: bool,
    callee: &Name,
    arguments: &[Typed],
) -> Result<Op, Fault>
    ensures { Gives (λ op. op) result (call outer.now.types outer.now.symbols table.now is_local callee.now arguments.now) }
{
    if is_local {
        return Err(Fault::LeftOut(callee.left));
    }
    let bytes = bytes_of(outer.alloc, callee)?;
    named_call(outer, table, callee, arguments, bytes.as_slice())
}

fn returned_type(outer: &Outer, ret: Ty, given: &[TypeNode]) -> Result<bool, Fault>
    ensures { Gives (λ fits. fits) result (returned_type outer.now.types ret given.now) }
{
    let ty = type_of(outer.alloc, &outer.types, given)?;
    Ok(is_ty(ty, ret) && !is_ty(ty, Ty::Void))
}

#[tactic(auto, unfolding(crate::specs::Instructions::returning))]
fn returning(
    outer: &Outer,
    table: &Table,
    ret: Ty,
    given: &[TypeNode],
    value: &Value,
) -> Result<Op, Fault>
    ensures { Gives (λ op. op) result (returning outer.now.types outer.now.symbols table.now ret given.now value.now) }
{
    let fits = returned_type(outer, ret, given)?;
    if !fits {
        return Err(Fault::Syntax(place_of_type(given)));
    }
    let a = operand(outer, table, ret, value)?;
    Ok(Op::Ret(Some(a)))
}

fn ret(
    outer: &Outer,
    table: &Table,
    ty: Ty,
    given: &[TypeNode],
    value: &Option<Value>,
) -> Result<Op, Fault>
    ensures { Gives (λ op. op) result (ret outer.now.types outer.now.symbols table.now ty given.now value.now) }
{
    match value {
        Some(value) => returning(outer, table, ty, given, value),
        None => Ok(Op::Ret(None)),
    }
}

fn jump(outer: &Outer, table: &Table, name: &Name) -> Result<Op, Fault>
    ensures { Gives (λ op. op) result (jump table.now name.now) }
{
    let block = block_of(outer, table, name)?;
    Ok(Op::Br(block))
}

#[tactic(auto, unfolding(crate::specs::Instructions::fork))]
fn fork(
    outer: &Outer,
    table: &Table,
    condition: &Typed,
    left: &Name,
    right: &Name,
) -> Result<Op, Fault>
    ensures { Gives (λ op. op) result (fork outer.now.types outer.now.symbols table.now condition.now left.now right.now) }
{
    let c = typed_as(
        outer,
        table,
        Ty::Int(1),
        condition.ty.as_slice(),
        &condition.value,
    )?;
    let a = block_of(outer, table, left)?;
    let b = block_of(outer, table, right)?;
    Ok(Op::CondBr(c, a, b))
}

#[tactic(auto, unfolding(crate::specs::Instructions::switching))]
fn switching(
    outer: &Outer,
    table: &Table,
    value: &Typed,
    otherwise: &Name,
    cases: &[Case],
) -> Result<Op, Fault>
    ensures { Gives (λ op. op) result (switching outer.now.types outer.now.symbols table.now value.now otherwise.now cases.now) }
{
    let (ty, a) = typed(outer, table, value.ty.as_slice(), &value.value)?;
    let block = block_of(outer, table, otherwise)?;
    let all = case_list(outer, table, ty, cases)?;
    Ok(Op::Switch(ty, a, block, all))
}

fn in_entry(entry: bool, place: usize) -> Result<(), Fault>
    ensures { Gives (λ _. tt) result (in_entry entry place) }
{
    if entry {
        Ok(())
    } else {
        Err(Fault::LeftOut(place))
    }
}

#[tactic(auto, unfolding(crate::specs::Instructions::alloca))]
fn alloca(
    outer: &Outer,
    entry: bool,
    place: usize,
    given: &[TypeNode],
    count: &Option<Typed>,
    aligns: &[Align],
) -> Result<Op, Fault>
    ensures { Gives (λ op. op) result (alloca outer.now.types entry place given.now count.now aligns.now) }
{
    in_entry(entry, place)?;
    let ty = memory(outer.alloc, &outer.types, given)?;
    let items = item_count(outer, place, count)?;
    small_aligns(aligns)?;
    Ok(Op::Alloca(ty, items))
}

#[tactic(auto, unfolding(crate::specs::Instructions::gep))]
fn gep(
    outer: &Outer,
    table: &Table,
    given: &[TypeNode],
    base: &Typed,
    offsets: &[Typed],
) -> Result<Op, Fault>
    ensures { Gives (λ op. op) result (gep outer.now.types outer.now.symbols table.now given.now base.now offsets.now) }
{
    let ty = memory(outer.alloc, &outer.types, given)?;
    let a = typed_as(outer, table, Ty::Ptr, base.ty.as_slice(), &base.value)?;
    let all = typed_list(outer, table, offsets)?;
    Ok(Op::Gep(ty, a, all))
}

/// What an instruction says, in a function with this result; whether it stands in the entry block.
#[tactic(auto, unfolding(crate::specs::Instructions::operation))]
pub fn operation(
    outer: &Outer,
    table: &Table,
    ty: Ty,
    entry: bool,
    aligns: &[Align],
    given: &Operation,
) -> Result<Op, Fault>
    ensures { Gives (λ op. op) result (operation outer.now.types outer.now.symbols table.now ty entry aligns.now given.now) }
{
    match given {
        Operation::Binary(operator, flags, a, b) => binary(outer, table, *operator, *flags, a, b),
        Operation::Icmp(flags, pred, a, b) => comparison(outer, table, *pred, *flags, a, b),
        Operation::Cast(operator, flags, value, _) => cast(outer, table, *operator, *flags, value),
        Operation::Select(condition, a, b) => selection(outer, table, condition, a, b),
        Operation::Freeze(value) => freezing(outer, table, value),
        Operation::Phi(ty, incoming) => phi(outer, table, ty.as_slice(), incoming.as_slice()),
        Operation::Alloca(place, given, count) => {
            alloca(outer, entry, *place, given.as_slice(), count, aligns)
        }
        Operation::Load(_, from) => loading(outer, table, from),
        Operation::Store(value, into) => storing(outer, table, value, into),
        Operation::Gep(given, base, offsets) => {
            gep(outer, table, given.as_slice(), base, offsets.as_slice())
        }
        Operation::Call(_, is_local, callee, arguments) => {
            call(outer, table, *is_local, callee, arguments.as_slice())
        }
        Operation::Ret(given, value) => ret(outer, table, ty, given.as_slice(), value),
        Operation::Br(block) => jump(outer, table, block),
        Operation::CondBr(condition, a, b) => fork(outer, table, condition, a, b),
        Operation::Switch(value, otherwise, cases) => {
            switching(outer, table, value, otherwise, cases.as_slice())
        }
        Operation::Unreachable => Ok(Op::Unreachable),
    }
}

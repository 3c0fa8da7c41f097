// One line of a list of calls.
ghost use Rattle.std.specs.Prelude.{◌≡◌, ◌^◌, ◌&&◌, nat_le, nat_lt, ◌≤◌, ◌∷◌, ◌++◌, [], IfOk, OnOk, slice_get, length};
ghost use Rattle.ir_core.specs.declared.types.TheConstants.{MAX_WIDTH};
ghost use Rattle.ir_meaning.specs.Operators.{width};
ghost use Rattle.ir_meaning.specs.declared.calls.ListedCall.{ListedCall};
ghost use Rattle.jit_calls.specs.Form.{repeat, whole, Next};
ghost use Rattle.jit_calls.specs.Line.{Argument, integer_value, integer, pointer, argument, separator, next_argument, with_argument, arguments, turns, call, is_same, of_width, values_of, value_of_type, parameters, resolved, line_call, is_skipped};
ghost use Rattle.jit_calls.specs.Numbers.{if_bit};
ghost use Rattle.jit_calls.specs.Steps.{argument_of, Finds};
ghost use Rattle.jit_calls.specs.Scopes.{IsScope};
ghost use Rattle.jit_calls.specs.Reads.{Gives, Steps};

use crate::cursor::Cursor;
use crate::form::Refusal;
use crate::numbers::{number, number_between, some_digits, width_of};
use crate::scope::Scope;
use ir_core::types::{MAX_WIDTH, Ty};
use ir_meaning::calls::ListedCall;
use rj_num::NoMemory;
use sqlite_items::{Items, at};
use std::alloc::Global;

/// A call as it is written. Each argument has its type, and its value where it is one of the type.
#[derive(Drop)]
pub struct Written {
    pub name: Items<u8>,
    pub args: Items<(Ty, Option<u128>)>,
    pub turns: u64,
}

/// Why a line has no call.
#[derive(Clone, Copy, Debug, PartialEq, Eq, Drop)]
pub enum LineFault {
    /// It isn't of the form of a call.
    Syntax,
    /// No function has the name.
    NoSuchFunction,
    /// The arguments aren't as many as the parameters, each a value of its parameter's type.
    Shape,
    NoMemory,
}

/// The value of an integer of a width: a number, or `true` and `false` of one bit.
#[tactic(auto, unfolding(crate::specs::Line::integer_value))]
fn integer_value(cursor: &mut Cursor, width: u32) -> Result<Option<u128>, Refusal>
    ensures { Steps (λ value. value) result cursor.new ((integer_value width).read cursor.old) }
{
    if cursor.begins(b"true") {
        cursor.literal(b"true")?;
        return if_bit(width, 1);
    }
    if cursor.begins(b"false") {
        cursor.literal(b"false")?;
        return if_bit(width, 0);
    }
    number(cursor, width)
}

fn if_bit(width: u32, value: u128) -> Result<Option<u128>, Refusal>
    ensures { Gives (λ value. value) result (if_bit width value) }
{
    if width == 1 {
        Ok(Some(value))
    } else {
        Err(Refusal::Form)
    }
}

/// `iN VALUE`.
#[tactic(auto, unfolding(crate::specs::Line::integer))]
fn integer(cursor: &mut Cursor) -> Result<(Ty, Option<u128>), Refusal>
    ensures { Steps (λ one. one) result cursor.new (integer.read cursor.old) }
{
    cursor.literal(b"i")?;
    let digits = some_digits(cursor)?;
    cursor.literal(b" ")?;
    let width = width_of(digits);
    let value = integer_value(cursor, width)?;
    Ok((Ty::Int(width), value))
}

/// `ptr null` or `ptr @GLOBAL`.
#[tactic(auto, unfolding(crate::specs::Line::pointer))]
fn pointer(alloc: Global, cursor: &mut Cursor, scope: &Scope) -> Result<(Ty, Option<u128>), Refusal>
    requires { IsScope scope.now }
    ensures { Steps (λ one. one) result cursor.new ((pointer scope.now.all.now.globals).read cursor.old) }
{
    cursor.literal(b"ptr ")?;
    if cursor.begins(b"null") {
        cursor.literal(b"null")?;
        return Ok((Ty::Ptr, Some(0)));
    }
    let word = cursor.name(alloc)?;
    Ok((Ty::Ptr, scope.named_address(word.as_slice())))
}

fn argument(
    alloc: Global,
    cursor: &mut Cursor,
    scope: &Scope,
) -> Result<(Ty, Option<u128>), Refusal>
    requires { IsScope scope.now }
    ensures { Steps (λ one. one) result cursor.new ((argument scope.now.all.now.globals).read cursor.old) }
{
    if cursor.begins(b"ptr ") {
        pointer(alloc, cursor, scope)
    } else {
        integer(cursor)
    }
}

/// A comma behind other items.
fn separator<T>(cursor: &mut Cursor, items: &[T]) -> Result<(), Refusal>
    ensures { Steps (λ _. tt) result cursor.new ((separator items.now).read cursor.old) }
{
    match items {
        [] => Ok(()),
        [_, ..] => cursor.literal(b", "),
    }
}

/// Another argument, or the end of the list.
#[tactic(auto, unfolding(crate::specs::Line::next_argument))]
fn next_argument(
    alloc: Global,
    cursor: &mut Cursor,
    scope: &Scope,
    args: &[(Ty, Option<u128>)],
) -> Result<Option<(Ty, Option<u128>)>, Refusal>
    requires { IsScope scope.now }
    ensures { Steps argument_of result cursor.new ((next_argument scope.now.all.now.globals args.now).read cursor.old) }
{
    if cursor.begins(b")") {
        cursor.literal(b")")?;
        return Ok(None);
    }
    separator(cursor, args)?;
    Ok(Some(argument(alloc, cursor, scope)?))
}

/// The arguments, up to the parenthesis that closes them.
#[tactic(auto, unfolding(crate::specs::Line::arguments))]
fn arguments(
    alloc: Global,
    cursor: &mut Cursor,
    scope: &Scope,
) -> Result<Items<(Ty, Option<u128>)>, Refusal>
    requires { IsScope scope.now }
    ensures { Steps (λ args. args) result cursor.new ((arguments scope.now.all.now.globals).read cursor.old) }
{
    let mut args = Items::new(alloc);
    for _ in 0..cursor.len() {
        match next_argument(alloc, cursor, scope, args.as_slice())? {
            Some(one) => args.push(one)?,
            None => return Ok(args),
        }
    }
    Err(Refusal::Form)
}

/// How many turns a call has at most.
#[tactic(auto, unfolding(crate::specs::Line::turns))]
fn turns(cursor: &mut Cursor) -> Result<u64, Refusal>
    ensures { Steps (λ n. n) result cursor.new (turns.read cursor.old) }
{
    if cursor.begins(b" turns ") {
        cursor.literal(b" turns ")?;
        number_between(cursor, 1, 1 << 32)
    } else {
        Ok(1_000_000)
    }
}

#[tactic(auto, unfolding(crate::specs::Line::call))]
fn call(alloc: Global, cursor: &mut Cursor, scope: &Scope) -> Result<Written, Refusal>
    requires { IsScope scope.now }
    ensures { Steps (λ written. written) result cursor.new ((call scope.now.all.now.globals).read cursor.old) }
{
    let name = cursor.name(alloc)?;
    cursor.literal(b"(")?;
    let args = arguments(alloc, cursor, scope)?;
    let turns = turns(cursor)?;
    Ok(Written { name, args, turns })
}

/// The call that a whole line writes.
fn whole_call(alloc: Global, line: &[u8], scope: &Scope) -> Result<Written, Refusal>
    requires { IsScope scope.now }
    ensures { Gives (λ written. written) result (whole (call scope.now.all.now.globals) line.now) }
{
    let mut cursor = Cursor::new(line);
    let written = call(alloc, &mut cursor, scope)?;
    if !cursor.is_at_end() {
        return Err(Refusal::Form);
    }
    Ok(written)
}

fn is_same(a: Ty, b: Ty) -> bool
    ensures { result ≡ is_same a b }
{
    match (a, b) {
        (Ty::Void, Ty::Void) | (Ty::Ptr, Ty::Ptr) => true,
        (Ty::Int(w), Ty::Int(v)) => w == v,
        _ => false,
    }
}

/// The values of arguments that are as many as the parameters, each of its type.
fn values_of(
    alloc: Global,
    tys: &[Ty],
    args: &[(Ty, Option<u128>)],
) -> Result<Option<Items<u128>>, NoMemory>
    ensures { IfOk result (λ values. values ≡ values_of tys.now args.now) }
{
    if tys.len() != args.len() {
        return Ok(None);
    }
    let mut values = Items::new(alloc);
    for i in 0..tys.len() {
        match value_of(tys[i], args[i]) {
            Some(value) => push(&mut values, value)?,
            None => return Ok(None),
        }
    }
    Ok(Some(values))
}

/// A value that is one of the type's width.
fn of_width(ty: Ty, value: Option<u128>) -> Option<u128>
    ensures { result ≡ of_width (width ty) value }
{
    match value {
        Some(value) if fits(width_of_type(ty), value) => Some(value),
        _ => None,
    }
}

/// The width of a type's numbers.
fn width_of_type(ty: Ty) -> u32
    ensures { result ≡ width ty }
{
    match ty {
        Ty::Void => 0,
        Ty::Int(width) => width,
        Ty::Ptr => 64,
    }
}

/// Whether a value is one of a width, which isn't above the greatest.
fn fits(width: u32, value: u128) -> bool
    ensures { result ≡ (nat_le width MAX_WIDTH && nat_lt value (2 ^ width)) }
{
    width <= MAX_WIDTH && value < (1u128 << width)
}

/// The value of an argument that is one of the type.
fn value_of(ty: Ty, one: (Ty, Option<u128>)) -> Option<u128>
    ensures { result ≡ value_of_type ty one }
{
    if is_same(ty, one.0) {
        of_width(ty, one.1)
    } else {
        None
    }
}

fn push(values: &mut Items<u128>, value: u128) -> Result<(), NoMemory>
    ensures { OnOk result (values.new ≡ values.old ++ value ∷ []) }
{
    match values.push(value) {
        Ok(()) => Ok(()),
        Err(_) => Err(NoMemory),
    }
}

/// The call that is written: of the first function that has the name.
fn resolved(alloc: Global, scope: &Scope, written: &Written) -> Result<ListedCall, LineFault>
    requires { IsScope scope.now }
    ensures { Finds result (resolved scope.now.all.now.functions written.now) }
{
    let symbol = match scope.function_named(written.name.as_slice()) {
        Some(symbol) => symbol,
        None => return Err(LineFault::NoSuchFunction),
    };
    let tys = parameters(scope.all.functions.as_slice(), symbol);
    match values_of(alloc, tys, written.args.as_slice()) {
        Ok(Some(args)) => Ok(ListedCall {
            symbol,
            args,
            turns: written.turns,
        }),
        Ok(None) => Err(LineFault::Shape),
        Err(NoMemory) => Err(LineFault::NoMemory),
    }
}

/// The types of a function's parameters.
fn parameters(functions: &[ir_core::program::Function], symbol: u32) -> &[Ty]
    ensures { result.now ≡ parameters (slice_get functions.now symbol) }
{
    match at(functions, symbol as usize) {
        Some(function) => function.params.as_slice(),
        None => &[],
    }
}

/// The call of a line.
pub fn line_call(alloc: Global, scope: &Scope, line: &[u8]) -> Result<ListedCall, LineFault>
    requires { IsScope scope.now }
    ensures { Finds result (line_call scope.now.all.now.functions scope.now.all.now.globals line.now) }
{
    match whole_call(alloc, line, scope) {
        Ok(written) => resolved(alloc, scope, &written),
        Err(Refusal::Form) => Err(LineFault::Syntax),
        Err(Refusal::NoMemory) => Err(LineFault::NoMemory),
    }
}

/// An empty line, or one that begins with a semicolon.
pub fn is_skipped(line: &[u8]) -> bool
    ensures { result ≡ is_skipped line.now }
{
    match line {
        [] => true,
        [first, ..] => *first == b';',
    }
}

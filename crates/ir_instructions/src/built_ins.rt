// The built-ins, by their names and what stands behind them.
ghost use Rattle.std.specs.Prelude.{◌≡◌};
ghost use Rattle.std.specs.Option.{option_copied};
ghost use Rattle.std.specs.List.{list_all};
ghost use Rattle.std.specs.Char.{is_ascii_digit};
ghost use Rattle.ir_types.specs.Walk.{Gives};
ghost use Rattle.ir_instructions.specs.BuiltIns.{are_plain_digits, small_width, width_of_digits, width_behind, with_width, or_named, built_in, memory_named, integer_named, built_in_of, is_of_memory, measured, has_width, quiet_value, quiet_argument, quiet, fitting};

use ir_core::code::{BuiltIn, Operand};
use ir_core::types::{MAX_WIDTH, Ty};
use ir_grammar::words::says;
use ir_resolve::operands::is_ty;
use ir_types::{Fault, natural};
use ir_value_trees::value_tree::{Typed, Value};

/// A built-in, and the width that its name says.
#[derive(Clone, Copy, PartialEq, Eq, Drop)]
pub struct NamedBuiltIn {
    pub which: BuiltIn,
    pub width: u32,
}

fn small_width(width: Option<u128>) -> Option<u32>
    ensures { result ≡ small_width width }
{
    let width = u32::try_from(width?).ok()?;
    if width < 1 {
        return None;
    }
    if width <= MAX_WIDTH {
        Some(width)
    } else {
        None
    }
}

fn are_digits(text: &[u8]) -> bool
    ensures { result ≡ list_all is_ascii_digit text.now }
{
    text.iter().all(|byte| byte.is_ascii_digit())
}

/// Decimal digits of which the first isn't 0.
fn are_plain_digits(text: &[u8]) -> bool
    ensures { result ≡ are_plain_digits text.now }
{
    match text {
        [first, ..] => *first != b'0' && are_digits(text),
        [] => false,
    }
}

#[tactic(auto, unfolding(crate::specs::BuiltIns::width_of_digits))]
fn width_of_digits(digits: &[u8]) -> Option<u32>
    ensures { result ≡ width_of_digits digits.now }
{
    if are_plain_digits(digits) {
        small_width(natural(digits))
    } else {
        None
    }
}

/// The width that stands behind the front of a name.
#[tactic(auto, unfolding(crate::specs::BuiltIns::width_behind))]
fn width_behind(front: &[u8], name: &[u8]) -> Option<u32>
    ensures { result ≡ width_behind front.now name.now }
{
    if name.len() < front.len() {
        return None;
    }
    let (start, digits) = name.split_at(front.len());
    if says(start, front) {
        width_of_digits(digits)
    } else {
        None
    }
}

fn with_width(which: BuiltIn, width: Option<u32>) -> Option<NamedBuiltIn>
    ensures { result ≡ with_width which width }
{
    match width {
        Some(width) => Some(NamedBuiltIn { which, width }),
        None => None,
    }
}

fn built_in(which: BuiltIn, width: u32) -> Option<NamedBuiltIn>
    ensures { result ≡ built_in which width }
{
    Some(NamedBuiltIn { which, width })
}

/// The built-ins of memory, whose lengths are i32 or i64.
#[tactic(auto, unfolding(crate::specs::BuiltIns::memory_named))]
fn memory_named(name: &[u8]) -> Option<NamedBuiltIn>
    ensures { result ≡ memory_named name.now }
{
    if says(name, b"llvm.memcpy.p0.p0.i32") {
        return built_in(BuiltIn::MemCpy, 32);
    }
    if says(name, b"llvm.memcpy.p0.p0.i64") {
        return built_in(BuiltIn::MemCpy, 64);
    }
    if says(name, b"llvm.memmove.p0.p0.i32") {
        return built_in(BuiltIn::MemMove, 32);
    }
    if says(name, b"llvm.memmove.p0.p0.i64") {
        return built_in(BuiltIn::MemMove, 64);
    }
    if says(name, b"llvm.memset.p0.i32") {
        return built_in(BuiltIn::MemSet, 32);
    }
    if says(name, b"llvm.memset.p0.i64") {
        return built_in(BuiltIn::MemSet, 64);
    }
    None
}

fn or_named(named: Option<NamedBuiltIn>, other: Option<NamedBuiltIn>) -> Option<NamedBuiltIn>
    ensures { result ≡ or_named named other }
{
    match named {
        Some(named) => Some(named),
        None => other,
    }
}

fn with_width_behind(which: BuiltIn, front: &[u8], name: &[u8]) -> Option<NamedBuiltIn>
    ensures { result ≡ with_width which (width_behind front.now name.now) }
{
    with_width(which, width_behind(front, name))
}

/// The built-ins over integers of any width.
#[tactic(auto, unfolding(crate::specs::BuiltIns::integer_named))]
fn integer_named(name: &[u8]) -> Option<NamedBuiltIn>
    ensures { result ≡ integer_named name.now }
{
    let abs = with_width_behind(BuiltIn::Abs, b"llvm.abs.i", name);
    let umin = or_named(with_width_behind(BuiltIn::UMin, b"llvm.umin.i", name), abs);
    let umax = or_named(with_width_behind(BuiltIn::UMax, b"llvm.umax.i", name), umin);
    let smin = or_named(with_width_behind(BuiltIn::SMin, b"llvm.smin.i", name), umax);
    or_named(with_width_behind(BuiltIn::SMax, b"llvm.smax.i", name), smin)
}

/// The built-in that a name is that of.
#[tactic(auto, unfolding(crate::specs::BuiltIns::built_in_of))]
pub fn built_in_of(name: &[u8]) -> Option<NamedBuiltIn>
    ensures { result ≡ built_in_of name.now }
{
    or_named(memory_named(name), integer_named(name))
}

fn is_of_memory(which: BuiltIn) -> bool
    ensures { result ≡ is_of_memory which }
{
    match which {
        BuiltIn::MemCpy | BuiltIn::MemMove => true,
        BuiltIn::MemSet => true,
        BuiltIn::SMax | BuiltIn::SMin => false,
        BuiltIn::UMax | BuiltIn::UMin => false,
        BuiltIn::Abs => false,
    }
}

/// Which argument has the width in the name.
fn measured(which: BuiltIn) -> usize
    ensures { result ≡ measured which }
{
    if is_of_memory(which) { 2 } else { 0 }
}

fn has_width(width: u32, argument: Option<&(Ty, Operand)>) -> bool
    ensures { result ≡ has_width width (option_copied argument.entry) }
{
    match argument {
        Some((ty, _)) => is_ty(*ty, Ty::Int(width)),
        None => true,
    }
}

fn quiet_value(value: &Value) -> Result<(), Fault>
    ensures { Gives (λ _. tt) result (quiet_value value.now) }
{
    match value {
        Value::False(_) => Ok(()),
        Value::True(left) => Err(Fault::LeftOut(*left)),
        Value::Local(name) => Err(Fault::Syntax(name.left)),
        Value::Number(number) => Err(Fault::Syntax(number.left)),
        Value::Null(left) => Err(Fault::Syntax(*left)),
        Value::Poison(left) => Err(Fault::Syntax(*left)),
        Value::Address(address) => Err(Fault::Syntax(address.left)),
    }
}

fn quiet_argument(at: usize, given: Option<&Typed>) -> Result<(), Fault>
    ensures { Gives (λ _. tt) result (quiet_argument at (option_copied given.entry)) }
{
    match given {
        Some(given) => quiet_value(&given.value),
        None => Err(Fault::Syntax(at)),
    }
}

/// A built-in of memory ends by `i1 false`.
pub fn quiet(at: usize, which: BuiltIn, given: &[Typed]) -> Result<(), Fault>
    ensures { Gives (λ _. tt) result (quiet at which given.now) }
{
    if is_of_memory(which) {
        quiet_argument(at, given.last())
    } else {
        Ok(())
    }
}

/// The width in a built-in's name is that of its operands.
pub fn fitting(at: usize, named: NamedBuiltIn, all: &[(Ty, Operand)]) -> Result<(), Fault>
    ensures { Gives (λ _. tt) result (fitting at named all.now) }
{
    if has_width(named.width, all.get(measured(named.which))) {
        Ok(())
    } else {
        Err(Fault::Name(at))
    }
}

// The lines of answers.
ghost use Rattle.std.specs.Prelude.{◌≡◌, ◌<◌, ◌++◌, ◌%◌, ◌^◌, OnOk, IfOk, length, codes, decimal};
ghost use Rattle.std.specs.Option.{option_copied};
ghost use Rattle.ir_print_names.specs.Numbers.{number_text};
ghost use Rattle.jit_calls.specs.Answers.{hexadecimal_digit, hexadecimal, cut, value_text, more_values, values_text, name_in, parameters_in, result_in, ended_text, outcome_text, call_text, answer_line, outcome_line, answer_lines, outcome_lines, is_unanswered, any_unanswered, is_no_answer, any_no_answer};

use ir_core::program::Function;
use ir_core::types::{MAX_WIDTH, Ty};
use ir_meaning::calls::{Ended, ListedCall, Outcome};
use ir_print_names::{Page, name, number};
use rj_num::NoMemory;
use sqlite_items::at;
use std::alloc::Global;

/// A lower-case hexadecimal digit.
fn hexadecimal_digit(n: u8) -> u8
    requires { n < 16 }
    ensures { result ≡ hexadecimal_digit n }
{
    if n < 10 { 48 + n } else { 87 + n }
}

/// Adds the sixteen hexadecimal digits of a number's low 64 bits.
#[tactic(auto, unfolding(crate::specs::Answers::hexadecimal))]
fn push_hexadecimal(page: &mut Page, n: u128) -> Result<(), NoMemory>
    ensures { OnOk result (page.new ≡ page.old ++ hexadecimal 16 n) }
{
    for place in 0..16u32 {
        let digit = (n >> (4 * (15 - place))) % 16;
        page.byte(hexadecimal_digit(digit as u8))?;
    }
    Ok(())
}

/// Adds a number of a width, which is first cut to it.
fn push_integer(page: &mut Page, width: u32, value: u128) -> Result<(), NoMemory>
    ensures { OnOk result (page.new ≡ page.old ++ number_text width (cut width value)) }
{
    if width <= MAX_WIDTH {
        number(page, width, value % (1 << width))
    } else {
        number(page, width, value)
    }
}

/// Adds a value of a type.
fn push_value(page: &mut Page, ty: Ty, value: u128) -> Result<(), NoMemory>
    ensures { OnOk result (page.new ≡ page.old ++ value_text ty value) }
{
    match ty {
        Ty::Void => page.write(b"void"),
        Ty::Int(width) => push_integer(page, width, value),
        Ty::Ptr => {
            page.write(b"0x")?;
            push_hexadecimal(page, value)
        }
    }
}

fn push_more_values(page: &mut Page, tys: &[Ty], values: &[u128]) -> Result<(), NoMemory>
    ensures { OnOk result (page.new ≡ page.old ++ more_values tys.now values.now) }
{
    for i in 0..tys.len().min(values.len()) {
        page.write(b", ")?;
        push_value(page, tys[i], values[i])?;
    }
    Ok(())
}

/// Adds values of these types, separated by commas.
fn push_values(page: &mut Page, tys: &[Ty], values: &[u128]) -> Result<(), NoMemory>
    ensures { OnOk result (page.new ≡ page.old ++ values_text tys.now values.now) }
{
    match (tys, values) {
        ([ty, tys @ ..], [value, values @ ..]) => {
            push_value(page, *ty, *value)?;
            push_more_values(page, tys, values)
        }
        _ => Ok(()),
    }
}

/// Adds the fuel that was spent.
fn push_fuel(page: &mut Page, spent: u64) -> Result<(), NoMemory>
    ensures { OnOk result (page.new ≡ page.old ++ codes "fuel " ++ decimal spent) }
{
    page.write(b"fuel ")?;
    page.number(u128::from(spent))
}

/// Adds how a run on a hart ended.
fn push_end(page: &mut Page, ty: Ty, end: Ended) -> Result<(), NoMemory>
    ensures { OnOk result (page.new ≡ page.old ++ ended_text ty end) }
{
    match end {
        Ended::Value(value) => push_value(page, ty, value),
        Ended::Void => page.write(b"void"),
        Ended::Stack => page.write(b"stack"),
        Ended::Fuel { spent } => push_fuel(page, spent),
        Ended::Fault { .. } => page.write(b"fault"),
    }
}

/// Adds how an evaluation ended.
fn push_outcome(page: &mut Page, ty: Ty, outcome: Outcome) -> Result<(), NoMemory>
    ensures { OnOk result (page.new ≡ page.old ++ outcome_text ty outcome) }
{
    match outcome {
        Outcome::Value(value) => push_value(page, ty, value),
        Outcome::Void => page.write(b"void"),
        Outcome::Stack => page.write(b"stack"),
        Outcome::NotEnded => page.write(b"not ended"),
        Outcome::Undefined => page.write(b"undefined"),
    }
}

/// Adds the name of a function.
pub fn push_name(page: &mut Page, function: Option<&Function>) -> Result<(), NoMemory>
    ensures { OnOk result (page.new ≡ page.old ++ name_in (option_copied function.entry)) }
{
    match function {
        Some(function) => name(page, function.name.as_slice()),
        None => Ok(()),
    }
}

/// Adds the arguments of a call of a function.
fn push_arguments(
    page: &mut Page,
    function: Option<&Function>,
    values: &[u128],
) -> Result<(), NoMemory>
    ensures { OnOk result (page.new ≡ page.old ++ values_text (parameters_in (option_copied function.entry)) values.now) }
{
    match function {
        Some(function) => push_values(page, function.params.as_slice(), values),
        None => Ok(()),
    }
}

fn result_in(function: Option<&Function>) -> Ty
    ensures { result ≡ result_in (option_copied function.entry) }
{
    match function {
        Some(function) => function.ret,
        None => Ty::Void,
    }
}

/// Adds what stands before the answer of a call.
fn push_call(
    page: &mut Page,
    function: Option<&Function>,
    call: &ListedCall,
) -> Result<(), NoMemory>
    ensures { OnOk result (page.new ≡ page.old ++ call_text (option_copied function.entry) call.now) }
{
    page.write(b"@")?;
    push_name(page, function)?;
    page.write(b"(")?;
    push_arguments(page, function, call.args.as_slice())?;
    page.write(b") = ")
}

fn push_answer(
    page: &mut Page,
    functions: &[Function],
    call: &ListedCall,
    end: Ended,
) -> Result<(), NoMemory>
    ensures { OnOk result (page.new ≡ page.old ++ answer_line functions.now call.now end) }
{
    let function = at(functions, call.symbol as usize);
    push_call(page, function, call)?;
    push_end(page, result_in(function), end)?;
    page.write(b"\n")
}

fn push_outcome_line(
    page: &mut Page,
    functions: &[Function],
    call: &ListedCall,
    outcome: Outcome,
) -> Result<(), NoMemory>
    ensures { OnOk result (page.new ≡ page.old ++ outcome_line functions.now call.now outcome) }
{
    let function = at(functions, call.symbol as usize);
    push_call(page, function, call)?;
    push_outcome(page, result_in(function), outcome)?;
    page.write(b"\n")
}

/// Adds the lines of the answers of calls of these functions, in order.
pub fn push_answers(
    page: &mut Page,
    functions: &[Function],
    calls: &[ListedCall],
    ends: &[Ended],
) -> Result<(), NoMemory>
    requires { length ends.now ≡ length calls.now }
    ensures { OnOk result (page.new ≡ page.old ++ answer_lines functions.now calls.now ends.now) }
{
    for i in 0..calls.len() {
        push_answer(page, functions, &calls[i], ends[i])?;
    }
    Ok(())
}

/// The lines of the answers of calls of these functions, in order.
pub fn answer_text(
    alloc: Global,
    functions: &[Function],
    calls: &[ListedCall],
    ends: &[Ended],
) -> Result<Vec<u8>, NoMemory>
    requires { length ends.now ≡ length calls.now }
    ensures { IfOk result (λ text. text.items ≡ answer_lines functions.now calls.now ends.now) }
{
    let mut page = Page::new(alloc);
    push_answers(&mut page, functions, calls, ends)?;
    Ok(page.into_bytes())
}

/// The lines of the evaluations of calls of these functions, in order.
pub fn outcome_text(
    alloc: Global,
    functions: &[Function],
    calls: &[ListedCall],
    outcomes: &[Outcome],
) -> Result<Vec<u8>, NoMemory>
    requires { length outcomes.now ≡ length calls.now }
    ensures { IfOk result (λ text. text.items ≡ outcome_lines functions.now calls.now outcomes.now) }
{
    let mut page = Page::new(alloc);
    for i in 0..calls.len() {
        push_outcome_line(&mut page, functions, &calls[i], outcomes[i])?;
    }
    Ok(page.into_bytes())
}

fn is_unanswered(end: Ended) -> bool
    ensures { result ≡ is_unanswered end }
{
    match end {
        Ended::Value(_) | Ended::Void => false,
        Ended::Stack | Ended::Fuel { .. } | Ended::Fault { .. } => true,
    }
}

/// Whether a call didn't answer a value, or that it has none.
pub fn any_unanswered(ends: &[Ended]) -> bool
    ensures { result ≡ any_unanswered ends.now }
{
    for end in ends {
        if is_unanswered(*end) {
            return true;
        }
    }
    false
}

fn is_no_answer(outcome: Outcome) -> bool
    ensures { result ≡ is_no_answer outcome }
{
    match outcome {
        Outcome::Value(_) | Outcome::Void => false,
        Outcome::Stack | Outcome::NotEnded | Outcome::Undefined => true,
    }
}

/// Whether an evaluation didn't end by a value, or without one.
pub fn any_no_answer(outcomes: &[Outcome]) -> bool
    ensures { result ≡ any_no_answer outcomes.now }
{
    for outcome in outcomes {
        if is_no_answer(*outcome) {
            return true;
        }
    }
    false
}

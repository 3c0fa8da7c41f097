// The line of a module that doesn't verify.
ghost use Rattle.std.specs.Prelude.{◌≡◌, ◌++◌, OnOk, IfOk, codes};
ghost use Rattle.std.specs.Fmt.{decimal};
ghost use Rattle.jit_text.specs.RefusalTexts.{symbol_text, walk_text, block_text, instruction_text, row_text, unverified_text as unverified_line};

use crate::page::{push_limit, push_symbol, push_walk};
use ir_core::program::Function;
use ir_print_names::Page;
use ir_verify::refusal::VerifyRefusal;
use rj_num::NoMemory;
use std::alloc::Global;

fn push_block(
    page: &mut Page,
    functions: &[Function],
    function: u32,
    block: u32,
    fault: &[u8],
) -> Result<(), NoMemory>
    ensures { OnOk result (page.new ≡ page.old ++ block_text functions.now function block fault.now) }
{
    push_symbol(page, functions, function)?;
    page.write(b": block ")?;
    page.number(u128::from(block))?;
    page.write(fault)
}

fn push_instruction(
    page: &mut Page,
    functions: &[Function],
    function: u32,
    inst: u32,
    fault: &[u8],
) -> Result<(), NoMemory>
    ensures { OnOk result (page.new ≡ page.old ++ instruction_text functions.now function inst fault.now) }
{
    push_symbol(page, functions, function)?;
    page.write(b": instruction ")?;
    page.number(u128::from(inst))?;
    page.write(fault)
}

fn push_call(
    page: &mut Page,
    functions: &[Function],
    function: u32,
    inst: u32,
    callee: u32,
) -> Result<(), NoMemory>
    ensures { OnOk result (page.new ≡ page.old ++ instruction_text functions.now function inst (codes " calls " ++ symbol_text functions.now callee ++ codes " wrongly")) }
{
    push_instruction(page, functions, function, inst, b" calls ")?;
    push_symbol(page, functions, callee)?;
    page.write(b" wrongly")
}

fn push_unassigned(
    page: &mut Page,
    functions: &[Function],
    function: u32,
    value: u32,
    walk: &[u32],
) -> Result<(), NoMemory>
    ensures { OnOk result (page.new ≡ page.old ++ symbol_text functions.now function ++ codes ": value " ++ decimal value ++ codes " not assigned on" ++ walk_text walk.now) }
{
    push_symbol(page, functions, function)?;
    page.write(b": value ")?;
    page.number(u128::from(value))?;
    page.write(b" not assigned on")?;
    push_walk(page, walk)
}

fn push_row(
    page: &mut Page,
    functions: &[Function],
    refusal: &VerifyRefusal,
) -> Result<(), NoMemory>
    ensures { OnOk result (page.new ≡ page.old ++ row_text functions.now refusal.now) }
{
    match refusal {
        VerifyRefusal::Limit { what, count } => push_limit(page, *what, *count),
        VerifyRefusal::Shape { function, block } => {
            push_block(page, functions, *function, *block, b" is misshapen")
        }
        VerifyRefusal::Range { function, inst } => {
            push_instruction(page, functions, *function, *inst, b" is out of range")
        }
        VerifyRefusal::EntryEdge { function, block } => {
            push_block(page, functions, *function, *block, b" jumps to the entry")
        }
        VerifyRefusal::BadType { function, inst } => {
            push_instruction(page, functions, *function, *inst, b" has wrong types")
        }
        VerifyRefusal::CallShape {
            function,
            inst,
            callee,
        } => push_call(page, functions, *function, *inst, *callee),
        VerifyRefusal::PhiEdges { function, block } => {
            push_block(page, functions, *function, *block, b" has wrong phis")
        }
        VerifyRefusal::NotAssigned {
            function,
            value,
            walk,
        } => push_unassigned(page, functions, *function, *value, walk.as_slice()),
        VerifyRefusal::NoMemory => page.write(b"no memory"),
    }
}

/// The line that says why the verifier refuses a module of these functions.
pub fn unverified_text(
    alloc: Global,
    functions: &[Function],
    refusal: &VerifyRefusal,
) -> Result<Vec<u8>, NoMemory>
    ensures { IfOk result (λ text. text.items ≡ unverified_line functions.now refusal.now) }
{
    let mut page = Page::new(alloc);
    page.write(b"reopt: verify: ")?;
    push_row(&mut page, functions, refusal)?;
    page.write(b"\n")?;
    Ok(page.into_bytes())
}

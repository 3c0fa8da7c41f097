ghost use Rattle.std.specs.Prelude.{◌≡◌, ◌++◌, ◌<◌, IfOk, OnOk, decimal};
ghost use Rattle.jit_text.specs.ManyCallsTexts.{first_text, head_text, body_text, next_text, functions_text, module_text, call_text, calls_text};

use ir_print_names::Page;
use rj_num::NoMemory;
use std::alloc::Global;

/// Adds a number between two texts.
fn push_between(page: &mut Page, before: &[u8], number: u32, after: &[u8]) -> Result<(), NoMemory>
    ensures { OnOk result (page.new ≡ page.old ++ (before.now ++ decimal number ++ after.now)) }
{
    page.write(before)?;
    page.number(u128::from(number))?;
    page.write(after)
}

/// Adds the line that begins a function.
fn push_head(page: &mut Page, number: u32) -> Result<(), NoMemory>
    ensures { OnOk result (page.new ≡ page.old ++ head_text number) }
{
    push_between(page, b"define i64 @f", number, b"(i64 %v0) {\nb0:\n")
}

/// Adds the lines of a function that calls the one of this number, and its end.
fn push_body(page: &mut Page, callee: u32) -> Result<(), NoMemory>
    ensures { OnOk result (page.new ≡ page.old ++ body_text callee) }
{
    let after = b"(i64 %v0)\n  %v2 = add i64 %v1, %v0\n  ret i64 %v2\n}\n";
    push_between(page, b"  %v1 = call i64 @f", callee, after)
}

/// Adds a function that calls the one before it.
fn push_next(page: &mut Page, place: u32) -> Result<(), NoMemory>
    requires { place < 1000 }
    ensures { OnOk result (page.new ≡ page.old ++ next_text place) }
{
    push_head(page, place + 1)?;
    push_body(page, place)
}

/// Adds a call of the function with the call's number modulo 64.
fn push_call(page: &mut Page, i: u32) -> Result<(), NoMemory>
    ensures { OnOk result (page.new ≡ page.old ++ call_text i) }
{
    page.write(b"@f")?;
    page.number(u128::from(i % 64))?;
    page.write(b"(i64 ")?;
    page.number(u128::from(i))?;
    page.write(b")\n")
}

fn module_text(alloc: Global) -> Result<Vec<u8>, NoMemory>
    ensures { IfOk result (λ text. text.items ≡ module_text) }
{
    let mut page = Page::new(alloc);
    page.write(b"define i64 @f0(i64 %v0) {\nb0:\n  ret i64 %v0\n}\n")?;
    for place in 0..63u32 {
        push_next(&mut page, place)?;
    }
    Ok(page.into_bytes())
}

fn calls_text(alloc: Global, n: u32) -> Result<Vec<u8>, NoMemory>
    ensures { IfOk result (λ text. text.items ≡ calls_text n) }
{
    let mut page = Page::new(alloc);
    for i in 0..n {
        push_call(&mut page, i)?;
    }
    Ok(page.into_bytes())
}

/// The text of the module with the functions @f0 to @f63, and the list of its calls from 0 to n - 1.
pub fn generate(alloc: Global, n: u32) -> Result<(Vec<u8>, Vec<u8>), NoMemory>
    ensures { IfOk result (λ texts. (texts.0.items ≡ module_text) × (texts.1.items ≡ calls_text n)) }
{
    let module = module_text(alloc)?;
    let calls = calls_text(alloc, n)?;
    Ok((module, calls))
}

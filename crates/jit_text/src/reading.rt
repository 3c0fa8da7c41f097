// The line of a text that doesn't read.
ghost use Rattle.std.specs.Prelude.{◌≡◌, ◌++◌, OnOk, IfOk, codes};
ghost use Rattle.std.specs.Fmt.{decimal};
ghost use Rattle.jit_text.specs.RefusalTexts.{fault_text, unread_text as unread_line};

use crate::page::push_limit;
use ir_print_names::Page;
use ir_reader::ReadRefusal;
use rj_num::NoMemory;
use std::alloc::Global;

/// Adds a place, and what stands there.
fn push_word(page: &mut Page, fault: &[u8], at: u32, word: &[u8]) -> Result<(), NoMemory>
    ensures { OnOk result (page.new ≡ page.old ++ fault.now ++ decimal at ++ codes ": " ++ word.now) }
{
    page.write(fault)?;
    page.number(u128::from(at))?;
    page.write(b": ")?;
    page.write(word)
}

fn push_syntax(page: &mut Page, at: u32) -> Result<(), NoMemory>
    ensures { OnOk result (page.new ≡ page.old ++ codes "syntax at " ++ decimal at) }
{
    page.write(b"syntax at ")?;
    page.number(u128::from(at))
}

fn push_fault(page: &mut Page, refusal: &ReadRefusal) -> Result<(), NoMemory>
    ensures { OnOk result (page.new ≡ page.old ++ fault_text refusal.now) }
{
    match refusal {
        ReadRefusal::Syntax { at } => push_syntax(page, *at),
        ReadRefusal::LeftOut { at, word } => {
            push_word(page, b"left out at ", *at, word.as_slice())
        }
        ReadRefusal::Name { at, name } => { push_word(page, b"name at ", *at, name.as_slice()) }
        ReadRefusal::Limit { what, count } => push_limit(page, *what, *count),
        ReadRefusal::NoMemory => page.write(b"no memory"),
    }
}

/// The line that says why a text doesn't read.
pub fn unread_text(alloc: Global, refusal: &ReadRefusal) -> Result<Vec<u8>, NoMemory>
    ensures { IfOk result (λ text. text.items ≡ unread_line refusal.now) }
{
    let mut page = Page::new(alloc);
    page.write(b"reopt: module: ")?;
    push_fault(&mut page, refusal)?;
    page.write(b"\n")?;
    Ok(page.into_bytes())
}

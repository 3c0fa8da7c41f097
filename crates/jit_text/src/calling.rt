// The lines of images and lists of calls that are refused.
ghost use Rattle.std.specs.Prelude.{◌≡◌, ◌++◌, OnOk, IfOk, codes};
ghost use Rattle.std.specs.Fmt.{decimal};
ghost use Rattle.jit_text.specs.RefusalTexts.{no_image_text as no_image_line, line_text, list_text, uncalled_text as uncalled_line};

use ir_print_names::Page;
use jit_calls::CallsRefusal;
use rj_num::NoMemory;
use std::alloc::Global;

/// The line that says how many bytes the globals take, and how many the data memory has.
pub fn no_image_text(alloc: Global, bytes: u64, room: u64) -> Result<Vec<u8>, NoMemory>
    ensures { IfOk result (λ text. text.items ≡ no_image_line bytes room) }
{
    let mut page = Page::new(alloc);
    page.write(b"reopt: image: needs ")?;
    page.number(u128::from(bytes))?;
    page.write(b" bytes, has ")?;
    page.number(u128::from(room))?;
    page.write(b"\n")?;
    Ok(page.into_bytes())
}

/// Adds a line's number, and what is wrong there.
fn push_line(page: &mut Page, line: u32, fault: &[u8]) -> Result<(), NoMemory>
    ensures { OnOk result (page.new ≡ page.old ++ line_text line fault.now) }
{
    page.write(b"line ")?;
    page.number(u128::from(line))?;
    page.write(b": ")?;
    page.write(fault)
}

fn push_count(page: &mut Page, count: u64) -> Result<(), NoMemory>
    ensures { OnOk result (page.new ≡ page.old ++ codes "limit " ++ decimal count) }
{
    page.write(b"limit ")?;
    page.number(u128::from(count))
}

fn push_list(page: &mut Page, refusal: CallsRefusal) -> Result<(), NoMemory>
    ensures { OnOk result (page.new ≡ page.old ++ list_text refusal) }
{
    match refusal {
        CallsRefusal::Syntax { line } => push_line(page, line, b"syntax"),
        CallsRefusal::NoSuchFunction { line } => push_line(page, line, b"no such function"),
        CallsRefusal::Shape { line } => push_line(page, line, b"wrong arguments"),
        CallsRefusal::Limit { count } => push_count(page, count),
        CallsRefusal::NoMemory => page.write(b"no memory"),
    }
}

/// The line that says why a text is no list of the module's calls.
pub fn uncalled_text(alloc: Global, refusal: CallsRefusal) -> Result<Vec<u8>, NoMemory>
    ensures { IfOk result (λ text. text.items ≡ uncalled_line refusal) }
{
    let mut page = Page::new(alloc);
    page.write(b"reopt: calls: ")?;
    push_list(&mut page, refusal)?;
    page.write(b"\n")?;
    Ok(page.into_bytes())
}

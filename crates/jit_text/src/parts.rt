ghost use Rattle.std.specs.Prelude.{◌≡◌, ◌++◌, length, slice_get, IfOk, OnOk};
ghost use Rattle.std.specs.Option.{option_copied};
ghost use Rattle.rv_print.specs.Listing.{listing_of};
ghost use Rattle.jit_text.specs.Parts.{name_in, heading, part, parts};

use ir_core::program::Function;
use ir_print_names::{Page, name};
use rj_num::NoMemory;
use rv_play::version::Version;
use rv_print::listing::listing;
use sqlite_items::at;
use std::alloc::Global;

fn push_name(page: &mut Page, function: Option<&Function>) -> Result<(), NoMemory>
    ensures { OnOk result (page.new ≡ page.old ++ name_in (option_copied function.entry)) }
{
    match function {
        Some(function) => name(page, function.name.as_slice()),
        None => Ok(()),
    }
}

/// Adds the heading of a version of a function: its level, and how many words it has.
fn push_heading(
    page: &mut Page,
    function: Option<&Function>,
    level: u8,
    words: usize,
) -> Result<(), NoMemory>
    ensures { OnOk result (page.new ≡ page.old ++ heading (option_copied function.entry) level words) }
{
    page.write(b"@")?;
    push_name(page, function)?;
    page.write(b" level ")?;
    page.number(u128::from(level))?;
    page.write(b" words ")?;
    page.number(words as u128)?;
    page.write(b"\n")
}

/// Adds a line for each word.
fn push_lines(alloc: Global, page: &mut Page, words: &[u32]) -> Result<(), NoMemory>
    ensures { OnOk result (page.new ≡ page.old ++ listing_of words.now) }
{
    let lines = listing(alloc, words)?;
    page.write(&lines)
}

/// Adds the part of a version of one of these functions.
fn push_part(
    alloc: Global,
    page: &mut Page,
    functions: &[Function],
    version: &Version,
) -> Result<(), NoMemory>
    ensures { OnOk result (page.new ≡ page.old ++ part (slice_get functions.now version.now.symbol) version.now) }
{
    let words = version.words.as_slice();
    let function = at(functions, version.symbol as usize);
    push_heading(page, function, version.level, words.len())?;
    push_lines(alloc, page, words)
}

/// The parts of versions of these functions, in order: the line `@NAME level L words W` and the listing. A version of no function has
/// an empty name.
pub fn parts_text(
    alloc: Global,
    functions: &[Function],
    versions: &[Version],
) -> Result<Vec<u8>, NoMemory>
    ensures { IfOk result (λ text. text.items ≡ parts functions.now versions.now) }
{
    let mut page = Page::new(alloc);
    for version in versions {
        push_part(alloc, &mut page, functions, version)?;
    }
    Ok(page.into_bytes())
}

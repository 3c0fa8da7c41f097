// Parts of the texts.
ghost use Rattle.std.specs.Prelude.{◌≡◌, ◌++◌, OnOk, slice_get, codes};
ghost use Rattle.jit_text.specs.RefusalTexts.{what_text, limit_text, name_in, symbol_text, walk_text};

use ir_core::program::{Function, What};
use ir_print_names::{Page, name};
use rj_num::NoMemory;
use sqlite_items::at;

fn push_what(page: &mut Page, what: What) -> Result<(), NoMemory>
    ensures { OnOk result (page.new ≡ page.old ++ what_text what) }
{
    match what {
        What::Bytes => page.write(b"bytes"),
        What::Functions => page.write(b"functions"),
        What::Globals => page.write(b"globals"),
        What::Parameters => page.write(b"parameters"),
        What::Units => page.write(b"units"),
        What::Nodes => page.write(b"nodes"),
        What::Size => page.write(b"size"),
    }
}

/// Adds which limit is passed, and what was counted.
pub fn push_limit(page: &mut Page, what: What, count: u64) -> Result<(), NoMemory>
    ensures { OnOk result (page.new ≡ page.old ++ limit_text what count) }
{
    page.write(b"limit ")?;
    push_what(page, what)?;
    page.write(b" ")?;
    page.number(u128::from(count))
}

fn push_name(page: &mut Page, functions: &[Function], symbol: u32) -> Result<(), NoMemory>
    ensures { OnOk result (page.new ≡ page.old ++ name_in (slice_get functions.now symbol)) }
{
    match at(functions, symbol as usize) {
        Some(function) => name(page, function.name.as_slice()),
        None => Ok(()),
    }
}

/// Adds the name of a function.
pub fn push_symbol(page: &mut Page, functions: &[Function], symbol: u32) -> Result<(), NoMemory>
    ensures { OnOk result (page.new ≡ page.old ++ symbol_text functions.now symbol) }
{
    page.write(b"@")?;
    push_name(page, functions, symbol)
}

/// Adds the blocks of a walk.
pub fn push_walk(page: &mut Page, walk: &[u32]) -> Result<(), NoMemory>
    ensures { OnOk result (page.new ≡ page.old ++ walk_text walk.now) }
{
    for block in walk {
        page.write(b" ")?;
        page.number(u128::from(*block))?;
    }
    Ok(())
}

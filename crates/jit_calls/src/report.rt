// The report of a session.
ghost use Rattle.std.specs.Prelude.{◌≡◌, ◌++◌, OnOk, IfOk, length, slice_get, codes, decimal};
ghost use Rattle.jit_calls.specs.Answers.{name_in, answer_lines, outcome_lines};
ghost use Rattle.jit_calls.specs.Reports.{row_text, row_line, row_lines, cause_text, refused_line, refused_lines, rows_text, report_lines};

use crate::answers::{outcome_text, push_answers, push_name};
use ir_core::program::Function;
use ir_meaning::calls::{ListedCall, Outcome};
use ir_print_names::Page;
use ir_verify::checked::Checked;
use rj_num::NoMemory;
use session_types::{JobRefusal, RefusedJob, Settled, SymbolRow};
use sqlite_items::at;
use std::alloc::Global;

fn push_row(
    page: &mut Page,
    functions: &[Function],
    symbol: usize,
    row: SymbolRow,
) -> Result<(), NoMemory>
    ensures { OnOk result (page.new ≡ page.old ++ row_line (name_in (slice_get functions.now symbol)) row) }
{
    page.write(b"@")?;
    push_name(page, at(functions, symbol))?;
    push_numbers(page, row)
}

/// Adds what stands behind the name of a symbol.
fn push_numbers(page: &mut Page, row: SymbolRow) -> Result<(), NoMemory>
    ensures { OnOk result (page.new ≡ page.old ++ row_text row) }
{
    page.write(b" entries ")?;
    page.number(u128::from(row.entries))?;
    page.write(b" level ")?;
    page.number(u128::from(row.level))?;
    page.write(b" words ")?;
    page.number(u128::from(row.words))?;
    page.write(b"\n")
}

fn push_rows(page: &mut Page, functions: &[Function], rows: &[SymbolRow]) -> Result<(), NoMemory>
    ensures { OnOk result (page.new ≡ page.old ++ row_lines functions.now 0 rows.now) }
{
    for symbol in 0..rows.len() {
        push_row(page, functions, symbol, rows[symbol])?;
    }
    Ok(())
}

fn push_cause(page: &mut Page, cause: JobRefusal) -> Result<(), NoMemory>
    ensures { OnOk result (page.new ≡ page.old ++ cause_text cause) }
{
    match cause {
        JobRefusal::Crowded { point, overlap } => {
            push_two(page, b"crowded ", u64::from(point), overlap)
        }
        JobRefusal::NoRoom { needed, largest } => push_two(page, b"no room ", needed, largest),
        JobRefusal::NoMemory => page.write(b"no memory"),
    }
}

/// Adds a text and two numbers with a blank between.
fn push_two(page: &mut Page, text: &[u8], first: u64, second: u32) -> Result<(), NoMemory>
    ensures { OnOk result (page.new ≡ page.old ++ text.now ++ decimal first ++ codes " " ++ decimal second) }
{
    page.write(text)?;
    page.number(u128::from(first))?;
    page.write(b" ")?;
    page.number(u128::from(second))
}

fn push_refused(page: &mut Page, functions: &[Function], job: RefusedJob) -> Result<(), NoMemory>
    ensures { OnOk result (page.new ≡ page.old ++ refused_line functions.now job) }
{
    page.write(b"refused @")?;
    push_name(page, at(functions, job.symbol as usize))?;
    page.write(b" level ")?;
    page.number(u128::from(job.level))?;
    page.write(b" ")?;
    push_cause(page, job.cause)?;
    page.write(b"\n")
}

fn push_jobs(page: &mut Page, functions: &[Function], jobs: &[RefusedJob]) -> Result<(), NoMemory>
    ensures { OnOk result (page.new ≡ page.old ++ refused_lines functions.now jobs.now) }
{
    for job in jobs {
        push_refused(page, functions, *job)?;
    }
    Ok(())
}

fn push_settled(page: &mut Page, functions: &[Function], settled: &Settled) -> Result<(), NoMemory>
    ensures { OnOk result (page.new ≡ page.old ++ rows_text functions.now settled.now) }
{
    push_rows(page, functions, settled.rows.as_slice())?;
    push_jobs(page, functions, settled.refused.as_slice())?;
    page.write(b"code words ")?;
    page.number(u128::from(settled.used))?;
    page.write(b"\n")
}

/// The lines of a session's answers, and where they are asked for the rows of the symbols, the jobs that were refused, and
/// the code words in use.
pub fn report_text(
    alloc: Global,
    module: &Checked,
    calls: &[ListedCall],
    settled: &Settled,
    rows: bool,
) -> Result<Vec<u8>, NoMemory>
    requires { length settled.now.answers ≡ length calls.now }
    ensures { IfOk result (λ text. text.items ≡ report_lines module.now.module_.functions calls.now settled.now rows) }
{
    let functions = module.module().functions.as_slice();
    let mut page = Page::new(alloc);
    push_answers(&mut page, functions, calls, settled.answers.as_slice())?;
    if rows {
        push_settled(&mut page, functions, settled)?;
    }
    Ok(page.into_bytes())
}

/// The rows of a session: a line per function, a line per refused job, and the code words in use.
pub fn settled_text(alloc: Global, module: &Checked, settled: &Settled) -> Result<Vec<u8>, NoMemory>
    ensures { IfOk result (λ text. text.items ≡ rows_text module.now.module_.functions settled.now) }
{
    let mut page = Page::new(alloc);
    push_settled(&mut page, module.module().functions.as_slice(), settled)?;
    Ok(page.into_bytes())
}

/// The lines of the evaluations of calls of a module, in order.
pub fn eval_text(
    alloc: Global,
    module: &Checked,
    calls: &[ListedCall],
    outcomes: &[Outcome],
) -> Result<Vec<u8>, NoMemory>
    requires { length outcomes.now ≡ length calls.now }
    ensures { IfOk result (λ text. text.items ≡ outcome_lines module.now.module_.functions calls.now outcomes.now) }
{
    outcome_text(alloc, module.module().functions.as_slice(), calls, outcomes)
}

// A list of calls, line by line.
ghost use Rattle.std.specs.Prelude.{◌≡◌, ◌+◌, ◌≤◌, [], ◌<◌, IfOk, IfSome, length};
ghost use Rattle.std.specs.List.{prefix_len};
ghost use Rattle.jit_calls.specs.Scopes.{IsScope};
ghost use Rattle.jit_calls.specs.Lists.{shown, without_return, lines, with_line, with_lines, all_lines, cut_lines, few, calls_of};
ghost use Rattle.jit_calls.specs.Listed.{AllListed};
ghost use Rattle.jit_calls.specs.Listing.{Refuses, Gives, Follows, is_in_line, next_line_of, pair_of};

use crate::line::{LineFault, is_skipped, line_call};
use crate::scope::Scope;
use ir_meaning::calls::ListedCall;
use ir_verify::checked::Checked;
use sqlite_items::Items;
use std::alloc::Global;

/// The greatest length of a list of calls in bytes.
const MOST_BYTES: usize = 4_194_304;

/// How many calls there are at most.
const MOST_CALLS: usize = 65_536;

/// Why a text is no list of a module's calls. Lines count from 1.
#[derive(Clone, Copy, Debug, PartialEq, Eq, Drop)]
pub enum CallsRefusal {
    /// A line isn't of the form of a call.
    Syntax { line: u32 },
    /// A line calls a function that isn't there.
    NoSuchFunction { line: u32 },
    /// The arguments of a line don't fit the function's parameters.
    Shape { line: u32 },
    /// There are so many calls, which are more than 65,536.
    Limit { count: u64 },
    NoMemory,
}

fn shown(line: u32, fault: LineFault) -> CallsRefusal
    ensures { result ≡ shown line fault }
{
    match fault {
        LineFault::Syntax => CallsRefusal::Syntax { line },
        LineFault::NoSuchFunction => CallsRefusal::NoSuchFunction { line },
        LineFault::Shape => CallsRefusal::Shape { line },
        LineFault::NoMemory => CallsRefusal::NoMemory,
    }
}

/// Adds the call of a line, where it has one.
fn add_line(
    alloc: Global,
    scope: &Scope,
    list: &mut Items<ListedCall>,
    number: u32,
    line: &[u8],
) -> Result<(), CallsRefusal>
    requires { IsScope scope.now }
    ensures { Follows result list.new (with_line scope.now.all.now.functions scope.now.all.now.globals number list.old line.now) }
{
    if is_skipped(line) {
        return Ok(());
    }
    match line_call(alloc, scope, line) {
        Ok(call) => match list.push(call) {
            Ok(()) => Ok(()),
            Err(_) => Err(CallsRefusal::NoMemory),
        },
        Err(fault) => Err(shown(number, fault)),
    }
}

/// How many bytes stand before a line feed, or in all where there is none.
fn line_len(text: &[u8]) -> usize
    ensures count { result ≡ prefix_len is_in_line text.now }
    ensures bound { result ≤ length text.now }
{
    text.iter().take_while(|byte| **byte != b'\n').count()
}

/// A line without the carriage return at its end.
fn without_return(line: &[u8]) -> &[u8]
    ensures { result.now ≡ without_return line.now }
{
    match line.last() {
        Some(b'\r') => &line[..line.len() - 1],
        _ => line,
    }
}

/// The first line that ends by a line feed, without its end, and what stands behind it.
fn next_line(text: &[u8]) -> Option<(&[u8], &[u8])>
    ensures value { pair_of result ≡ next_line_of text.now }
    ensures less { IfSome result (λ pair. length pair.1.now < length text.now) }
{
    let len = line_len(text);
    if len == text.len() {
        return None;
    }
    Some((without_return(&text[..len]), &text[len + 1..]))
}

/// The calls of the lines before a place, what stands there, and the number of the line that begins there.
#[derive(Drop)]
struct Progress<'a> {
    list: Items<ListedCall>,
    rest: &'a [u8],
    line: u32,
}

/// The calls of the lines that end by a line feed.
fn ended_lines<'a>(
    alloc: Global,
    scope: &Scope,
    text: &'a [u8],
) -> Result<Progress<'a>, CallsRefusal>
    requires scope { IsScope scope.now }
    requires size { length text.now ≤ 4194304 }
    ensures calls { Gives (λ progress. progress.list) result (with_lines scope.now.all.now.functions scope.now.all.now.globals 1 [] (lines text.now).0) }
    ensures rest { IfOk result (λ progress. progress.rest.now ≡ (lines text.now).1) }
    ensures line { IfOk result (λ progress. progress.line ≡ 1 + length (lines text.now).0) }
    ensures size { IfOk result (λ progress. length progress.rest.now ≤ 4194304) }
{
    let mut list = Items::new(alloc);
    let mut rest = text;
    let mut line = 1u32;
    while let Some((one, behind)) = next_line(rest) {
        add_line(alloc, scope, &mut list, line, one)?;
        rest = behind;
        line += 1;
    }
    Ok(Progress { list, rest, line })
}

/// The list, where it has at most 65,536 calls.
fn few(list: Items<ListedCall>) -> Result<Items<ListedCall>, CallsRefusal>
    ensures { Gives (λ list. list) result (few list) }
{
    let count = list.len();
    if count <= MOST_CALLS {
        Ok(list)
    } else {
        Err(CallsRefusal::Limit {
            count: count as u64,
        })
    }
}

/// The calls of a text that isn't too long.
fn all_lines(alloc: Global, scope: &Scope, text: &[u8]) -> Result<Items<ListedCall>, CallsRefusal>
    requires scope { IsScope scope.now }
    requires size { length text.now ≤ 4194304 }
    ensures { Gives (λ list. list) result (all_lines scope.now.all.now.functions scope.now.all.now.globals (lines text.now)) }
{
    let Progress {
        mut list,
        rest,
        line,
    } = ended_lines(alloc, scope, text)?;
    add_line(alloc, scope, &mut list, line, rest)?;
    few(list)
}

/// The refusal of a text that is too long, by its first bytes.
fn cut_lines(alloc: Global, scope: &Scope, text: &[u8]) -> CallsRefusal
    requires scope { IsScope scope.now }
    requires size { length text.now ≤ 4194304 }
    ensures { Refuses result (cut_lines scope.now.all.now.functions scope.now.all.now.globals (lines text.now)) }
{
    match ended_lines(alloc, scope, text) {
        Ok(progress) => CallsRefusal::Syntax {
            line: progress.line,
        },
        Err(refusal) => refusal,
    }
}

/// The list of calls of a text, or why it is none, where the names are known.
fn listed(alloc: Global, scope: &Scope, text: &[u8]) -> Result<Items<ListedCall>, CallsRefusal>
    requires { IsScope scope.now }
    ensures { Gives (λ list. list) result (calls_of scope.now.all.now text.now) }
{
    if text.len() <= MOST_BYTES {
        return all_lines(alloc, scope, text);
    }
    let (front, _) = text.split_at(MOST_BYTES);
    Err(cut_lines(alloc, scope, front))
}

/// The list of calls of a text of a module's, or why it is none. The first line that isn't one of a call is refused: its form
/// first, then its name, then its arguments. A text of more than 4,194,304 bytes is refused at the line that holds the first
/// byte too many, where no earlier line is.
#[tactic(auto, using(crate::proofs::Listing::calls_listed))]
pub fn read_calls(
    alloc: Global,
    text: &[u8],
    checked: &Checked,
) -> Result<Items<ListedCall>, CallsRefusal>
    ensures calls { Gives (λ list. list) result (calls_of checked.now.module_ text.now) }
    ensures listed { IfOk result (λ list. AllListed checked.now.module_.functions list) }
{
    let scope = match Scope::new(alloc, checked) {
        Ok(scope) => scope,
        Err(_) => return Err(CallsRefusal::NoMemory),
    };
    listed(alloc, &scope, text)
}

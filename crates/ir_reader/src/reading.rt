ghost use Rattle.std.specs.Prelude.{◌≡◌, ◌-◌, ◌≤◌, ◌<◌, IfOk, IfErr, drop, length, codes};
ghost use Rattle.ir_text.specs.Reads.{token_of};
ghost use Rattle.ir_text.specs.Words.{is_word};
ghost use Rattle.ir_tree.specs.Modules.{IsTextOf};
ghost use Rattle.ir_tree.specs.declared.tree.Tree.{Tree};
ghost use Rattle.ir_types.specs.declared.fault.Fault.TheVariants as faults;
ghost use Rattle.ir_functions.specs.Functions.{FailsBy};
ghost use Rattle.ir_reader.specs.Reads.{colon_of, written, written_left_out, Told, IsBlamed, IsToldFor, Answers, Refuses, Reads, HasNone, ShowsSyntax, ShowsLeftOut, ShowsName, ShowsLimit};

use ir_core::program::{Module, What};
use ir_functions::functions::module_of;
use ir_grammar::words::says;
use ir_text::{Stop, Token, token_at};
use ir_tree::{TextRefusal, Tree, first_left_out, read_text};
use ir_types::Fault;
use sqlite_items::Items;
use std::alloc::{AllocError, Global};

/// Why a text has no module; each place is counted from the front of the text.
#[derive(Drop)]
pub enum ReadRefusal {
    /// What stands at the place doesn't fit.
    Syntax { at: u32 },
    /// A word or an item that is left out stands at the place.
    LeftOut { at: u32, word: Items<u8> },
    /// The name at the place isn't defined, or is defined twice.
    Name { at: u32, name: Items<u8> },
    /// What is counted passes its limit.
    Limit { what: What, count: u64 },
    NoMemory,
}

fn colon_of(token: Token) -> usize
    ensures { result ≡ colon_of (token_of token.entry) }
{
    match token {
        Token::Label(..) => 1,
        _ => 0,
    }
}

/// The bytes of the token at the front of a text, as they are written.
fn written(alloc: Global, text: &[u8]) -> Result<Items<u8>, AllocError>
    ensures { IfOk result (λ bytes. bytes ≡ written text.now) }
{
    let (token, rest) = token_at(text);
    let len = text
        .len()
        .saturating_sub(rest.len())
        .saturating_sub(colon_of(token));
    Items::from_slice(alloc, text.split_at(len).0)
}

fn is_true(token: Token) -> bool
    ensures { result ≡ is_word (codes "true") (token_of token.entry) }
{
    match token {
        Token::Word(word) => says(word, b"true"),
        _ => false,
    }
}

/// What is shown of a left-out token: `true`, which ends a built-in of memory, says `volatile`.
fn written_left_out(alloc: Global, text: &[u8]) -> Result<Items<u8>, AllocError>
    ensures { IfOk result (λ bytes. bytes ≡ written_left_out text.now) }
{
    if is_true(token_at(text).0) {
        Items::from_slice(alloc, b"volatile")
    } else {
        written(alloc, text)
    }
}

fn left_out(alloc: Global, text: &[u8], left: usize) -> ReadRefusal
    requires { length text.now ≤ 4194304 }
    ensures { Told text.now (faults.LeftOut left) result }
{
    let at = text.len().saturating_sub(left);
    match written_left_out(alloc, text.split_at(at).1) {
        Ok(word) => ReadRefusal::LeftOut {
            at: at as u32,
            word,
        },
        Err(_) => ReadRefusal::NoMemory,
    }
}

fn name(alloc: Global, text: &[u8], left: usize) -> ReadRefusal
    requires { length text.now ≤ 4194304 }
    ensures { Told text.now (faults.Name left) result }
{
    let at = text.len().saturating_sub(left);
    match written(alloc, text.split_at(at).1) {
        Ok(name) => ReadRefusal::Name {
            at: at as u32,
            name,
        },
        Err(_) => ReadRefusal::NoMemory,
    }
}

fn syntax(text: &[u8], left: usize) -> ReadRefusal
    requires { length text.now ≤ 4194304 }
    ensures { Told text.now (faults.Syntax left) result }
{
    let at = text.len().saturating_sub(left);
    ReadRefusal::Syntax { at: at as u32 }
}

/// A refusal that tells a fault.
fn refusal(alloc: Global, text: &[u8], fault: Fault) -> ReadRefusal
    requires { length text.now ≤ 4194304 }
    ensures { Told text.now fault result }
{
    match fault {
        Fault::NoMemory => ReadRefusal::NoMemory,
        Fault::Syntax(left) => syntax(text, left),
        Fault::LeftOut(left) => left_out(alloc, text, left),
        Fault::Name(left) => name(alloc, text, left),
        Fault::Limit(what, count) => ReadRefusal::Limit { what, count },
    }
}

/// The first plain left-out word of a text, or a fault of syntax.
fn blamed(alloc: Global, text: &[u8], left: usize) -> Fault
    ensures { IsBlamed text.now result }
{
    match first_left_out(alloc, text) {
        Ok(Some(found)) => Fault::LeftOut(found),
        Ok(None) => Fault::Syntax(left),
        Err(Stop::NoMemory) => Fault::NoMemory,
        Err(Stop::Syntax(_)) => Fault::Syntax(left),
    }
}

/// The fault that is told of a tree that has this one.
fn told_for(alloc: Global, text: &[u8], fault: Fault) -> Fault
    ensures { IsToldFor text.now fault result }
{
    match fault {
        Fault::Syntax(left) => blamed(alloc, text, left),
        _ => fault,
    }
}

#[tactic(auto, using(crate::proofs::Refusals::tree_refuses))]
fn tree_refusal(alloc: Global, text: &[u8], tree: &Tree, fault: Fault) -> ReadRefusal
    requires small { length text.now ≤ 4194304 }
    requires tree { IsTextOf text.now tree.now }
    requires fails { FailsBy tree.now fault }
    ensures { Refuses text.now result }
{
    let told = told_for(alloc, text, fault);
    refusal(alloc, text, told)
}

/// The module of a text that has a tree.
fn read_module(alloc: Global, text: &[u8], tree: Tree) -> Result<Module, ReadRefusal>
    requires small { length text.now ≤ 4194304 }
    requires tree { IsTextOf text.now tree }
    ensures { Answers text.now result }
{
    match module_of(alloc, &tree) {
        Ok(module) => Ok(module),
        Err(fault) => Err(tree_refusal(alloc, text, &tree, fault)),
    }
}

/// The module of a text, or all that its refusal says.
#[tactic(auto, using(crate::proofs::Refusals::text_refuses, crate::proofs::Refusals::long_refuses, crate::proofs::Refusals::memory_refuses))]
fn answer(alloc: Global, text: &[u8]) -> Result<Module, ReadRefusal>
    ensures { Answers text.now result }
{
    if text.len() > 4_194_304 {
        return Err(ReadRefusal::Limit {
            what: What::Bytes,
            count: text.len() as u64,
        });
    }
    match read_text(alloc, text) {
        Ok(tree) => read_module(alloc, text, tree),
        Err(TextRefusal::NoMemory) => Err(ReadRefusal::NoMemory),
        Err(TextRefusal::Syntax(left)) => Err(syntax(text, left)),
        Err(TextRefusal::LeftOut(left)) => Err(left_out(alloc, text, left)),
    }
}

/// The module of a text of at most 4,194,304 bytes.
pub fn read(alloc: Global, text: &[u8]) -> Result<Module, ReadRefusal>
    ensures reads { IfOk result (Reads text.now) }
    ensures none { IfErr result (HasNone text.now) }
    ensures syntax { IfErr result (ShowsSyntax text.now) }
    ensures left_out { IfErr result (ShowsLeftOut text.now) }
    ensures name { IfErr result (ShowsName text.now) }
    ensures limit { IfErr result (ShowsLimit text.now) }
{
    match answer(alloc, text) {
        Ok(module) => Ok(module),
        Err(refusal) => Err(refusal),
    }
}

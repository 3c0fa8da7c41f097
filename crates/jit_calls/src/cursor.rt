ghost use Rattle.std.specs.Prelude.{◌≡◌, ◌≤◌, List, ℕ, Some, length, IfOk, IfErr};
ghost use Rattle.std.specs.List.{prefix_len};
ghost use Rattle.std.specs.Char.{is_ascii_digit};
ghost use Rattle.ir_text.specs.Quoted.{said};
ghost use Rattle.jit_calls.specs.Form.{literal, run, begins, ends};
ghost use Rattle.jit_calls.specs.Names.{name, named_at};
ghost use Rattle.jit_calls.specs.Reads.{Gives, Steps};

use crate::form::Refusal;
use ir_text::{Name, Spelling, Token, said, token_at};
use sqlite_items::Items;
use std::alloc::Global;
use std::marker::Model;

/// A place in a text: what is left of it.
#[derive(Drop)]
pub struct Cursor<'a> {
    rest: &'a [u8],
}

impl<'a> Model for Cursor<'a> {
    ghost Value = { List ℕ };

    ghost view = { λ cursor. cursor.rest.now };
}

impl<'a> Cursor<'a> {
    pub fn new(text: &'a [u8]) -> Cursor<'a>
        ensures { result ≡ text.now }
    {
        Cursor { rest: text }
    }

    pub fn len(&self) -> usize
        ensures { result ≡ length self.now }
    {
        self.rest.len()
    }

    pub fn is_at_end(&self) -> bool
        ensures { result ≡ ends self.now }
    {
        self.rest.is_empty()
    }

    pub fn begins(&self, bytes: &[u8]) -> bool
        ensures { result ≡ begins bytes.now self.now }
    {
        self.rest.starts_with(bytes)
    }

    #[tactic(auto, unfolding(crate::specs::Form::literal))]
    pub fn literal(&mut self, bytes: &[u8]) -> Result<(), Refusal>
        ensures { Steps (λ _. tt) result self.new ((literal bytes.now).read self.old) }
    {
        if !self.rest.starts_with(bytes) {
            return Err(Refusal::Form);
        }
        self.rest = &self.rest[bytes.len()..];
        Ok(())
    }

    /// Takes the digits at the front.
    #[tactic(auto, unfolding(crate::specs::Form::run))]
    pub fn digits(&mut self) -> &'a [u8]
        ensures { (run is_ascii_digit).read self.old ≡ Some (result.now, self.new) }
    {
        let (digits, rest) = self.rest.split_at(digit_count(self.rest));
        self.rest = rest;
        digits
    }

    /// Takes the name of a global or function: its bytes, escapes replaced.
    #[tactic(auto, unfolding(crate::specs::Names::name))]
    pub fn name(&mut self, alloc: Global) -> Result<Items<u8>, Refusal>
        ensures { Steps (λ bytes. bytes) result self.new (name.read self.old) }
    {
        if !self.begins(b"@") {
            return Err(Refusal::Form);
        }
        let (bytes, rest) = named_at(alloc, self.rest)?;
        self.rest = rest;
        Ok(bytes)
    }
}

/// What a name says, however it is spelled.
fn spoken(alloc: Global, spelling: Spelling, inner: &[u8]) -> Result<Option<Items<u8>>, Refusal>
    ensures ok { IfOk result (λ bytes. bytes ≡ said spelling inner.now) }
    ensures memory { IfErr result (λ refusal. refusal ≡ Refusal.NoMemory) }
{
    let name = Name {
        spelling,
        bytes: Items::from_slice(alloc, inner)?,
        left: 0,
    };
    Ok(said(alloc, &name)?)
}

/// The bytes of the name at the front, and what comes behind it.
fn named_at(alloc: Global, text: &[u8]) -> Result<(Items<u8>, &[u8]), Refusal>
    ensures { Gives (λ x. (x.0, x.1.now)) result (named_at text.now) }
{
    let (token, rest) = token_at(text);
    match token {
        Token::Global(spelling, inner) => match spoken(alloc, spelling, inner)? {
            Some(bytes) => Ok((bytes, rest)),
            None => Err(Refusal::Form),
        },
        _ => Err(Refusal::Form),
    }
}

/// How many digits stand at the front.
fn digit_count(text: &[u8]) -> usize
    ensures count { result ≡ prefix_len is_ascii_digit text.now }
    ensures bound { result ≤ length text.now }
{
    text.iter().take_while(|byte| byte.is_ascii_digit()).count()
}

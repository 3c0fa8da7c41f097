ghost use Rattle.std.specs.Prelude.{not, ◌≡◌, ◌&&◌, true, false, Some, None};
ghost use Rattle.std.specs.Str.{bytes_eq};
ghost use Rattle.ir_text.specs.Token.{token_at};
ghost use Rattle.ir_text.specs.Form.{taken};
ghost use Rattle.ir_text.specs.Reads.{token_of, Steps};
ghost use Rattle.ir_grammar.specs.Operators.{no_flags, wrap_flags, exact_flag, disjoint_flag, nneg_flag, samesign_flag, with_flag, flag_of, is_some, flag_turn, flags_of, binary_name, cast_name, predicate_name, binary_of, cast_of, predicate_of, is_binary, is_cast};

use crate::words::says;
use ir_core::code::{BinOp, CastOp, Flags, Pred};
use ir_text::{Reader, Stop, Token, Turn};

fn no_flags() -> Flags
    ensures { result ≡ no_flags }
{
    Flags {
        nuw: false,
        nsw: false,
        exact: false,
        disjoint: false,
        nneg: false,
        samesign: false,
    }
}

fn wrap_flags() -> Flags
    ensures { result ≡ wrap_flags }
{
    Flags {
        nuw: true,
        nsw: true,
        ..no_flags()
    }
}

fn exact_flag() -> Flags
    ensures { result ≡ exact_flag }
{
    Flags {
        exact: true,
        ..no_flags()
    }
}

fn disjoint_flag() -> Flags
    ensures { result ≡ disjoint_flag }
{
    Flags {
        disjoint: true,
        ..no_flags()
    }
}

fn nneg_flag() -> Flags
    ensures { result ≡ nneg_flag }
{
    Flags {
        nneg: true,
        ..no_flags()
    }
}

pub fn samesign_flag() -> Flags
    ensures { result ≡ samesign_flag }
{
    Flags {
        samesign: true,
        ..no_flags()
    }
}

/// Whether a name is the word of a flag that is allowed and doesn't stand there yet.
fn is_flag(is_allowed: bool, is_there: bool, name: &[u8], word: &[u8]) -> bool
    ensures { result ≡ (is_allowed && not is_there && bytes_eq name.now word.now) }
{
    is_allowed && !is_there && says(name, word)
}

/// The flags with another one, where its word is that of an allowed one that doesn't stand there yet.
fn with_flag(allowed: Flags, flags: Flags, name: &[u8]) -> Option<Flags>
    ensures { result ≡ with_flag allowed flags name.now }
{
    if is_flag(allowed.nuw, flags.nuw, name, b"nuw") {
        return Some(Flags { nuw: true, ..flags });
    }
    if is_flag(allowed.nsw, flags.nsw, name, b"nsw") {
        return Some(Flags { nsw: true, ..flags });
    }
    if is_flag(allowed.exact, flags.exact, name, b"exact") {
        return Some(Flags {
            exact: true,
            ..flags
        });
    }
    if is_flag(allowed.disjoint, flags.disjoint, name, b"disjoint") {
        return Some(Flags {
            disjoint: true,
            ..flags
        });
    }
    if is_flag(allowed.nneg, flags.nneg, name, b"nneg") {
        return Some(Flags {
            nneg: true,
            ..flags
        });
    }
    if is_flag(allowed.samesign, flags.samesign, name, b"samesign") {
        return Some(Flags {
            samesign: true,
            ..flags
        });
    }
    None
}

/// Flags in any order.
#[derive(Drop)]
pub struct FlagList {
    pub allowed: Flags,
    pub flags: Flags,
}

impl FlagList {
    fn with(&self, token: Token) -> Option<Flags>
        ensures { result ≡ flag_of self.now (token_of token.entry) }
    {
        match token {
            Token::Word(name) => with_flag(self.allowed, self.flags, name),
            _ => None,
        }
    }
}

impl Turn for FlagList {
    ghost reads = { λ before. (flag_turn before).read };

    fn turn(&mut self, reader: &mut Reader<'_>) -> Result<bool, Stop> {
        match self.with(reader.peek()) {
            Some(flags) => {
                let _word = reader.advance();
                self.flags = flags;
                Ok(true)
            }
            None => Ok(false),
        }
    }
}

#[tactic(auto, unfolding(crate::specs::Operators::flags_of))]
pub fn flags_of(reader: &mut Reader<'_>, allowed: Flags) -> Result<Flags, Stop>
    ensures { Steps (λ flags. flags) result reader.new ((flags_of allowed).read reader.old) }
{
    let mut all = FlagList {
        allowed,
        flags: no_flags(),
    };
    reader.repeat(&mut all)?;
    Ok(all.flags)
}

fn binary_name(name: &[u8]) -> Option<(BinOp, Flags)>
    ensures { result ≡ binary_name name.now }
{
    if says(name, b"add") {
        return Some((BinOp::Add, wrap_flags()));
    }
    if says(name, b"sub") {
        return Some((BinOp::Sub, wrap_flags()));
    }
    if says(name, b"mul") {
        return Some((BinOp::Mul, wrap_flags()));
    }
    if says(name, b"udiv") {
        return Some((BinOp::UDiv, exact_flag()));
    }
    if says(name, b"sdiv") {
        return Some((BinOp::SDiv, exact_flag()));
    }
    if says(name, b"urem") {
        return Some((BinOp::URem, no_flags()));
    }
    if says(name, b"srem") {
        return Some((BinOp::SRem, no_flags()));
    }
    if says(name, b"shl") {
        return Some((BinOp::Shl, wrap_flags()));
    }
    if says(name, b"lshr") {
        return Some((BinOp::LShr, exact_flag()));
    }
    if says(name, b"ashr") {
        return Some((BinOp::AShr, exact_flag()));
    }
    if says(name, b"and") {
        return Some((BinOp::And, no_flags()));
    }
    if says(name, b"or") {
        return Some((BinOp::Or, disjoint_flag()));
    }
    if says(name, b"xor") {
        return Some((BinOp::Xor, no_flags()));
    }
    None
}

fn cast_name(name: &[u8]) -> Option<(CastOp, Flags)>
    ensures { result ≡ cast_name name.now }
{
    if says(name, b"trunc") {
        return Some((CastOp::Trunc, wrap_flags()));
    }
    if says(name, b"zext") {
        return Some((CastOp::ZExt, nneg_flag()));
    }
    if says(name, b"sext") {
        return Some((CastOp::SExt, no_flags()));
    }
    if says(name, b"ptrtoint") {
        return Some((CastOp::PtrToInt, no_flags()));
    }
    if says(name, b"inttoptr") {
        return Some((CastOp::IntToPtr, no_flags()));
    }
    if says(name, b"bitcast") {
        return Some((CastOp::Same, no_flags()));
    }
    None
}

fn predicate_name(name: &[u8]) -> Option<Pred>
    ensures { result ≡ predicate_name name.now }
{
    if says(name, b"eq") {
        return Some(Pred::Eq);
    }
    if says(name, b"ne") {
        return Some(Pred::Ne);
    }
    if says(name, b"ugt") {
        return Some(Pred::Ugt);
    }
    if says(name, b"uge") {
        return Some(Pred::Uge);
    }
    if says(name, b"ult") {
        return Some(Pred::Ult);
    }
    if says(name, b"ule") {
        return Some(Pred::Ule);
    }
    if says(name, b"sgt") {
        return Some(Pred::Sgt);
    }
    if says(name, b"sge") {
        return Some(Pred::Sge);
    }
    if says(name, b"slt") {
        return Some(Pred::Slt);
    }
    if says(name, b"sle") {
        return Some(Pred::Sle);
    }
    None
}

fn binary_of(token: Token) -> Option<(BinOp, Flags)>
    ensures { result ≡ binary_of (token_of token.entry) }
{
    match token {
        Token::Word(name) => binary_name(name),
        _ => None,
    }
}

fn cast_of(token: Token) -> Option<(CastOp, Flags)>
    ensures { result ≡ cast_of (token_of token.entry) }
{
    match token {
        Token::Word(name) => cast_name(name),
        _ => None,
    }
}

fn predicate_of(token: Token) -> Option<Pred>
    ensures { result ≡ predicate_of (token_of token.entry) }
{
    match token {
        Token::Word(name) => predicate_name(name),
        _ => None,
    }
}

pub fn is_binary(token: Token) -> bool
    ensures { result ≡ is_binary (token_of token.entry) }
{
    match binary_of(token) {
        Some(_) => true,
        None => false,
    }
}

pub fn is_cast(token: Token) -> bool
    ensures { result ≡ is_cast (token_of token.entry) }
{
    match cast_of(token) {
        Some(_) => true,
        None => false,
    }
}

pub fn binary_operator(reader: &mut Reader<'_>) -> Result<(BinOp, Flags), Stop>
    ensures { Steps (λ operator. operator) result reader.new ((taken binary_of).read reader.old) }
{
    match binary_of(reader.peek()) {
        Some(operator) => {
            let _word = reader.advance();
            Ok(operator)
        }
        None => Err(reader.fault()),
    }
}

pub fn cast_operator(reader: &mut Reader<'_>) -> Result<(CastOp, Flags), Stop>
    ensures { Steps (λ operator. operator) result reader.new ((taken cast_of).read reader.old) }
{
    match cast_of(reader.peek()) {
        Some(operator) => {
            let _word = reader.advance();
            Ok(operator)
        }
        None => Err(reader.fault()),
    }
}

pub fn predicate(reader: &mut Reader<'_>) -> Result<Pred, Stop>
    ensures { Steps (λ predicate. predicate) result reader.new ((taken predicate_of).read reader.old) }
{
    match predicate_of(reader.peek()) {
        Some(predicate) => {
            let _word = reader.advance();
            Ok(predicate)
        }
        None => Err(reader.fault()),
    }
}

ghost use Rattle.std.specs.Prelude.{◌≡◌, ◌&&◌, ◌||◌, true, false, List, ℕ, codes, IfErr, IfOk};
ghost use Rattle.std.specs.List.{list_all, list_any};
ghost use Rattle.std.specs.Str.{bytes_eq};
ghost use Rattle.std.specs.Char.{is_ascii_digit};
ghost use Rattle.ir_text.specs.Token.{token_at};
ghost use Rattle.ir_text.specs.Form.{by_token};
ghost use Rattle.ir_text.specs.Words.{is_mark, is_word, passed};
ghost use Rattle.ir_text.specs.Reads.{token_of, Steps};
ghost use Rattle.ir_grammar.specs.Words.{left_out_words, reserved_words, is_among, is_int_name, is_lower_byte, is_attribute_name, is_attribute, is_string, is_number, is_natural, is_align_of, string_attribute, word_attribute, numbered_attribute, word_item, begins_word_item, word_turn, words, attribute_number, attribute_item, is_number_behind, begins_attribute, attribute_turn, attributes, is_any_word, is_cased_byte, is_cased_word, is_section_of, parentheses, metadata, named_metadata, align_form, suffix, suffix_turn, suffixes};

use crate::type_tree::Align;
use ir_text::{Reader, Stop, Token, Turn};
use sqlite_items::Items;

const LEFT_OUT: [&[u8]; 52] = [
    b"undef",
    b"volatile",
    b"atomic",
    b"musttail",
    b"byval",
    b"inalloca",
    b"preallocated",
    b"swifterror",
    b"nest",
    b"addrspace",
    b"thread_local",
    b"external",
    b"extern_weak",
    b"alias",
    b"ifunc",
    b"asm",
    b"personality",
    b"invoke",
    b"resume",
    b"landingpad",
    b"indirectbr",
    b"callbr",
    b"blockaddress",
    b"fence",
    b"cmpxchg",
    b"atomicrmw",
    b"va_arg",
    b"extractvalue",
    b"insertvalue",
    b"extractelement",
    b"insertelement",
    b"shufflevector",
    b"addrspacecast",
    b"fadd",
    b"fsub",
    b"fmul",
    b"fdiv",
    b"frem",
    b"fneg",
    b"fcmp",
    b"fptrunc",
    b"fpext",
    b"fptoui",
    b"fptosi",
    b"uitofp",
    b"sitofp",
    b"half",
    b"bfloat",
    b"float",
    b"double",
    b"fp128",
    b"...",
];

const RESERVED: [&[u8]; 43] = [
    b"add",
    b"sub",
    b"mul",
    b"udiv",
    b"sdiv",
    b"urem",
    b"srem",
    b"shl",
    b"lshr",
    b"ashr",
    b"and",
    b"or",
    b"xor",
    b"icmp",
    b"trunc",
    b"zext",
    b"sext",
    b"ptrtoint",
    b"inttoptr",
    b"bitcast",
    b"select",
    b"freeze",
    b"phi",
    b"alloca",
    b"load",
    b"store",
    b"getelementptr",
    b"tail",
    b"notail",
    b"call",
    b"ret",
    b"br",
    b"switch",
    b"unreachable",
    b"null",
    b"true",
    b"false",
    b"poison",
    b"zeroinitializer",
    b"void",
    b"ptr",
    b"global",
    b"constant",
];

fn is_among(words: &[&[u8]], word: &[u8]) -> bool
    ensures { result ≡ list_any (λ known. bytes_eq known.now word.now) words.now }
{
    words.iter().any(|known| *known == word)
}

/// Whether a name is this word.
pub fn says(name: &[u8], word: &[u8]) -> bool
    ensures { result ≡ bytes_eq name.now word.now }
{
    name == word
}

pub fn is_left_out_word(word: &[u8]) -> bool
    ensures { result ≡ is_among left_out_words word.now }
{
    is_among(&LEFT_OUT, word)
}

fn is_reserved_word(word: &[u8]) -> bool
    ensures { result ≡ is_among reserved_words word.now }
{
    is_among(&RESERVED, word)
}

fn are_digits(bytes: &[u8]) -> bool
    ensures { result ≡ list_all is_ascii_digit bytes.now }
{
    bytes.iter().all(|byte| byte.is_ascii_digit())
}

pub fn is_int_name(name: &[u8]) -> bool
    ensures { result ≡ is_int_name name.now }
{
    match name {
        [letter, digits @ ..] => *letter == b'i' && !digits.is_empty() && are_digits(digits),
        [] => false,
    }
}

fn is_lower_byte(byte: u8) -> bool
    ensures { result ≡ is_lower_byte byte }
{
    matches!(byte, b'a'..=b'z' | b'0'..=b'9' | b'_')
}

pub fn is_lower(name: &[u8]) -> bool
    ensures { result ≡ list_all is_lower_byte name.now }
{
    name.iter().all(|byte| is_lower_byte(*byte))
}

fn is_attribute_name(name: &[u8]) -> bool
    ensures { result ≡ is_attribute_name name.now }
{
    is_lower(name) && !is_int_name(name) && !is_reserved_word(name) && !is_left_out_word(name)
}

pub fn is_attribute(token: Token) -> bool
    ensures { result ≡ is_attribute (token_of token.entry) }
{
    match token {
        Token::Word(name) => is_attribute_name(name),
        _ => false,
    }
}

pub fn is_string(token: Token) -> bool
    ensures { result ≡ is_string (token_of token.entry) }
{
    matches!(token, Token::String(_))
}

pub fn is_number(token: Token) -> bool
    ensures { result ≡ is_number (token_of token.entry) }
{
    matches!(token, Token::Number(..))
}

/// Whether a number without a sign stands there.
pub fn is_natural(token: Token) -> bool
    ensures { result ≡ is_natural (token_of token.entry) }
{
    match token {
        Token::Number(is_negative, _) => !is_negative,
        _ => false,
    }
}

pub fn is_any_word(token: Token) -> bool
    ensures { result ≡ is_any_word (token_of token.entry) }
{
    match token {
        Token::Word([first, ..]) => matches!(*first, b'a'..=b'z' | b'A'..=b'Z'),
        _ => false,
    }
}

fn is_cased_byte(byte: u8) -> bool
    ensures { result ≡ is_cased_byte byte }
{
    matches!(byte, b'a'..=b'z' | b'A'..=b'Z' | b'0'..=b'9' | b'_')
}

fn is_cased(name: &[u8]) -> bool
    ensures { result ≡ list_all is_cased_byte name.now }
{
    name.iter().all(|byte| is_cased_byte(*byte))
}

/// A word that may have capitals.
fn is_cased_word(token: Token) -> bool
    ensures { result ≡ is_cased_word (token_of token.entry) }
{
    match token {
        Token::Word(name) => is_cased(name),
        _ => false,
    }
}

fn is_section_of(token: Token, second: Token) -> bool
    ensures { result ≡ is_section_of (token_of token.entry) (token_of second.entry) }
{
    match token {
        Token::Word(word) => says(word, b"section") && is_string(second),
        _ => false,
    }
}

pub fn is_align_of(name: &[u8], token: Token, second: Token) -> bool
    ensures { result ≡ is_align_of name.now (token_of token.entry) (token_of second.entry) }
{
    match token {
        Token::Word(word) => word == name && is_natural(second),
        _ => false,
    }
}

pub fn begins_word_item(token: Token) -> bool
    ensures { result ≡ begins_word_item (token_of token.entry) }
{
    match token {
        Token::String(_) => true,
        Token::Word(name) => is_attribute_name(name),
        _ => false,
    }
}

pub fn begins_attribute(token: Token, second: Token) -> bool
    ensures { result ≡ begins_attribute (token_of token.entry) (token_of second.entry) }
{
    match token {
        Token::String(_) => true,
        Token::Word(name) => is_attribute_name(name),
        Token::Mark(byte) => byte == b'#' && is_natural(second),
        _ => false,
    }
}

#[tactic(auto, unfolding(ir_text::specs::Words::passed))]
pub fn pass_string(reader: &mut Reader<'_>) -> Result<(), Stop>
    ensures { Steps (λ _. tt) result reader.new ((passed is_string).read reader.old) }
{
    if !is_string(reader.peek()) {
        return Err(reader.fault());
    }
    let _string = reader.advance();
    Ok(())
}

#[tactic(auto, unfolding(ir_text::specs::Words::passed))]
pub fn pass_attribute(reader: &mut Reader<'_>) -> Result<(), Stop>
    ensures { Steps (λ _. tt) result reader.new ((passed is_attribute).read reader.old) }
{
    if !is_attribute(reader.peek()) {
        return Err(reader.fault());
    }
    let _word = reader.advance();
    Ok(())
}

#[tactic(auto, unfolding(ir_text::specs::Words::passed))]
pub fn pass_word(reader: &mut Reader<'_>) -> Result<(), Stop>
    ensures { Steps (λ _. tt) result reader.new ((passed is_any_word).read reader.old) }
{
    if !is_any_word(reader.peek()) {
        return Err(reader.fault());
    }
    let _word = reader.advance();
    Ok(())
}

#[tactic(auto, unfolding(ir_text::specs::Words::passed))]
fn pass_cased_word(reader: &mut Reader<'_>) -> Result<(), Stop>
    ensures { Steps (λ _. tt) result reader.new ((passed is_cased_word).read reader.old) }
{
    if !is_cased_word(reader.peek()) {
        return Err(reader.fault());
    }
    let _word = reader.advance();
    Ok(())
}

/// A group in parentheses.
#[tactic(auto, unfolding(crate::specs::Words::parentheses))]
pub fn parentheses(reader: &mut Reader<'_>) -> Result<(), Stop>
    ensures { Steps (λ _. tt) result reader.new (parentheses.read reader.old) }
{
    if reader.next_is(b'(') {
        return reader.group();
    }
    Err(reader.fault())
}

#[tactic(auto, unfolding(ir_text::specs::Words::passed))]
pub fn pass_number(reader: &mut Reader<'_>) -> Result<(), Stop>
    ensures { Steps (λ _. tt) result reader.new ((passed is_number).read reader.old) }
{
    if !is_number(reader.peek()) {
        return Err(reader.fault());
    }
    let _number = reader.advance();
    Ok(())
}

/// A number without a sign.
#[tactic(auto, unfolding(ir_text::specs::Words::passed))]
pub fn pass_natural(reader: &mut Reader<'_>) -> Result<(), Stop>
    ensures { Steps (λ _. tt) result reader.new ((passed is_natural).read reader.old) }
{
    if !is_natural(reader.peek()) {
        return Err(reader.fault());
    }
    let _number = reader.advance();
    Ok(())
}

#[tactic(auto, unfolding(crate::specs::Words::string_attribute))]
pub fn string_attribute(reader: &mut Reader<'_>) -> Result<(), Stop>
    ensures { Steps (λ _. tt) result reader.new (string_attribute.read reader.old) }
{
    pass_string(reader)?;
    if reader.next_is(b'=') {
        reader.punctuation(b'=')?;
        return pass_string(reader);
    }
    Ok(())
}

#[tactic(auto, unfolding(crate::specs::Words::word_attribute))]
pub fn word_attribute(reader: &mut Reader<'_>) -> Result<(), Stop>
    ensures { Steps (λ _. tt) result reader.new (word_attribute.read reader.old) }
{
    pass_attribute(reader)?;
    if reader.next_is(b'(') {
        return reader.group();
    }
    Ok(())
}

#[tactic(auto, unfolding(crate::specs::Words::numbered_attribute))]
pub fn numbered_attribute(reader: &mut Reader<'_>) -> Result<(), Stop>
    ensures { Steps (λ _. tt) result reader.new (numbered_attribute.read reader.old) }
{
    pass_attribute(reader)?;
    pass_natural(reader)
}

#[tactic(auto, unfolding(crate::specs::Words::word_item))]
fn word_item(reader: &mut Reader<'_>) -> Result<(), Stop>
    ensures { Steps (λ _. tt) result reader.new (word_item.read reader.old) }
{
    if is_string(reader.peek()) {
        return string_attribute(reader);
    }
    if is_align_of(b"align", reader.peek(), reader.peek_second()) {
        return numbered_attribute(reader);
    }
    if is_align_of(b"cc", reader.peek(), reader.peek_second()) {
        return numbered_attribute(reader);
    }
    word_attribute(reader)
}

/// Words that are dropped.
#[derive(Drop)]
pub struct WordList;

impl Turn for WordList {
    ghost reads = { λ before. (word_turn before).read };

    fn turn(&mut self, reader: &mut Reader<'_>) -> Result<bool, Stop> {
        if !begins_word_item(reader.peek()) {
            return Ok(false);
        }
        word_item(reader)?;
        Ok(true)
    }
}

#[tactic(auto, unfolding(crate::specs::Words::words))]
pub fn words(reader: &mut Reader<'_>) -> Result<(), Stop>
    ensures { Steps (λ _. tt) result reader.new (words.read reader.old) }
{
    reader.repeat(&mut WordList)
}

#[tactic(auto, unfolding(crate::specs::Words::attribute_number))]
fn attribute_number(reader: &mut Reader<'_>) -> Result<(), Stop>
    ensures { Steps (λ _. tt) result reader.new (attribute_number.read reader.old) }
{
    reader.punctuation(b'#')?;
    pass_natural(reader)
}

#[tactic(auto, unfolding(crate::specs::Words::attribute_item))]
pub fn attribute_item(reader: &mut Reader<'_>) -> Result<(), Stop>
    ensures { Steps (λ _. tt) result reader.new (attribute_item.read reader.old) }
{
    if is_string(reader.peek()) {
        return string_attribute(reader);
    }
    if reader.next_is(b'#') {
        return attribute_number(reader);
    }
    if is_align_of(b"align", reader.peek(), reader.peek_second()) {
        return numbered_attribute(reader);
    }
    word_attribute(reader)
}

/// Attributes that are dropped.
#[derive(Drop)]
pub struct AttributeList;

impl Turn for AttributeList {
    ghost reads = { λ before. (attribute_turn before).read };

    fn turn(&mut self, reader: &mut Reader<'_>) -> Result<bool, Stop> {
        if !begins_attribute(reader.peek(), reader.peek_second()) {
            return Ok(false);
        }
        attribute_item(reader)?;
        Ok(true)
    }
}

#[tactic(auto, unfolding(crate::specs::Words::attributes))]
pub fn attributes(reader: &mut Reader<'_>) -> Result<(), Stop>
    ensures { Steps (λ _. tt) result reader.new (attributes.read reader.old) }
{
    reader.repeat(&mut AttributeList)
}

/// `!N`, `!GROUP` or `!WORD GROUP`
#[tactic(auto, unfolding(crate::specs::Words::metadata))]
pub fn metadata(reader: &mut Reader<'_>) -> Result<(), Stop>
    ensures { Steps (λ _. tt) result reader.new (metadata.read reader.old) }
{
    reader.punctuation(b'!')?;
    if is_natural(reader.peek()) {
        return pass_natural(reader);
    }
    if is_any_word(reader.peek()) {
        pass_cased_word(reader)?;
        return parentheses(reader);
    }
    reader.group()
}

/// `!NAME` and its metadata.
#[tactic(auto, unfolding(crate::specs::Words::named_metadata))]
fn named_metadata(reader: &mut Reader<'_>) -> Result<(), Stop>
    ensures { Steps (λ _. tt) result reader.new (named_metadata.read reader.old) }
{
    reader.punctuation(b'!')?;
    pass_word(reader)?;
    metadata(reader)
}

/// What stands behind a comma behind an instruction or a global.
#[derive(Drop)]
pub struct SuffixList {
    /// What `align` says.
    pub aligns: Items<Align>,
}

/// `align N`
#[tactic(auto, unfolding(crate::specs::Words::align_form))]
fn align_form(reader: &mut Reader<'_>) -> Result<Align, Stop>
    ensures { Steps (λ align. align) result reader.new (align_form.read reader.old) }
{
    let left = reader.left();
    reader.keyword(b"align")?;
    let number = reader.numeral()?;
    Ok(Align { left, number })
}

impl SuffixList {
    #[tactic(auto, unfolding(crate::specs::Words::suffix))]
    fn suffix(&mut self, reader: &mut Reader<'_>) -> Result<(), Stop>
        ensures { Steps (λ _. self.new.aligns) result reader.new ((suffix self.old.aligns).read reader.old) }
    {
        if reader.next_is(b'!') {
            return named_metadata(reader);
        }
        if is_align_of(b"align", reader.peek(), reader.peek_second()) {
            let one = align_form(reader)?;
            self.aligns.push(one)?;
            return Ok(());
        }
        if is_section_of(reader.peek(), reader.peek_second()) {
            reader.keyword(b"section")?;
            return pass_string(reader);
        }
        if reader.next_is_word(b"comdat") {
            reader.keyword(b"comdat")?;
            if reader.next_is(b'(') {
                return reader.group();
            }
            return Ok(());
        }
        pass_attribute(reader)?;
        parentheses(reader)
    }
}

impl Turn for SuffixList {
    ghost reads = { λ before. (suffix_turn before).read };

    fn turn(&mut self, reader: &mut Reader<'_>) -> Result<bool, Stop> {
        if !reader.next_is(b',') {
            return Ok(false);
        }
        reader.punctuation(b',')?;
        self.suffix(reader)?;
        Ok(true)
    }
}

/// Any number of suffixes; what `align` says in them.
#[tactic(auto, unfolding(crate::specs::Words::suffixes))]
pub fn suffixes(reader: &mut Reader<'_>) -> Result<Items<Align>, Stop>
    ensures { Steps (λ aligns. aligns) result reader.new (suffixes.read reader.old) }
{
    let mut all = SuffixList {
        aligns: Items::new(reader.alloc()),
    };
    reader.repeat(&mut all)?;
    Ok(all.aligns)
}

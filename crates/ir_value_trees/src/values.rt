ghost use Rattle.std.specs.Prelude.{◌≡◌, ◌++◌, ◌∷◌, ◌≤◌, [], true, false, length, if◌then◌else◌};
ghost use Rattle.ir_text.specs.Token.{token_at};
ghost use Rattle.ir_text.specs.Form.{taken};
ghost use Rattle.ir_text.specs.Words.{passed};
ghost use Rattle.ir_text.specs.Reads.{token_of, Steps};
ghost use Rattle.ir_value_trees.specs.Values.{address_word, address_word_turn, address_words, index_form, index_turn, address_head, head_turn, address_tail, tail_turn, address_heads, address_tails, address, word_value, word_operand, is_local, begins_address, operand, typed, argument, word_init, token_init, plain_init, list_end, closing, wanted_by, list_start, init_start, init_end, init_turn, init_form};

use crate::value_tree::{Address, Index, InitNode, Typed, Value};
use ir_grammar::type_tree::Type;
use ir_grammar::types::{integer, struct_end, type_form};
use ir_grammar::words::{
    attributes, begins_word_item, is_align_of, is_number, is_string, numbered_attribute,
    pass_attribute, says, string_attribute, word_attribute,
};
use ir_text::{Marks, Reader, Stop, Token, Turn};
use sqlite_items::Items;

/// A word behind the `getelementptr` of a constant; `inrange` alone has a group.
#[tactic(auto, unfolding(crate::specs::Values::address_word))]
fn address_word(reader: &mut Reader<'_>) -> Result<(), Stop>
    ensures { Steps (λ _. tt) result reader.new (address_word.read reader.old) }
{
    if is_string(reader.peek()) {
        return string_attribute(reader);
    }
    if is_align_of(b"align", reader.peek(), reader.peek_second()) {
        return numbered_attribute(reader);
    }
    if is_align_of(b"cc", reader.peek(), reader.peek_second()) {
        return numbered_attribute(reader);
    }
    if reader.next_is_word(b"inrange") {
        return word_attribute(reader);
    }
    pass_attribute(reader)
}

/// Words of the `getelementptr` of a constant, which are dropped.
#[derive(Drop)]
pub struct AddressWordList;

impl Turn for AddressWordList {
    ghost reads = { λ before. (address_word_turn before).read };

    fn turn(&mut self, reader: &mut Reader<'_>) -> Result<bool, Stop> {
        if !begins_word_item(reader.peek()) {
            return Ok(false);
        }
        address_word(reader)?;
        Ok(true)
    }
}

#[tactic(auto, unfolding(crate::specs::Values::address_words))]
fn address_words(reader: &mut Reader<'_>) -> Result<(), Stop>
    ensures { Steps (λ _. tt) result reader.new (address_words.read reader.old) }
{
    reader.repeat(&mut AddressWordList)
}

/// `iN NUMBER`
#[tactic(auto, unfolding(crate::specs::Values::index_form))]
pub fn index_form(reader: &mut Reader<'_>) -> Result<Index, Stop>
    ensures { Steps (λ index. index) result reader.new (index_form.read reader.old) }
{
    let ty = integer(reader)?;
    let number = reader.numeral()?;
    Ok(Index { ty, number })
}

#[derive(Drop)]
pub struct IndexList {
    pub indices: Items<Index>,
}

impl Turn for IndexList {
    ghost reads = { λ before. (index_turn before).read };

    fn turn(&mut self, reader: &mut Reader<'_>) -> Result<bool, Stop> {
        if !reader.next_is(b',') {
            return Ok(false);
        }
        reader.punctuation(b',')?;
        let one = index_form(reader)?;
        self.indices.push(one)?;
        Ok(true)
    }
}

/// `getelementptr WORDS (TYPE, ptr`
#[tactic(auto, unfolding(crate::specs::Values::address_head))]
fn address_head(reader: &mut Reader<'_>) -> Result<Type, Stop>
    ensures { Steps (λ ty. ty) result reader.new (address_head.read reader.old) }
{
    reader.keyword(b"getelementptr")?;
    address_words(reader)?;
    reader.punctuation(b'(')?;
    let ty = type_form(reader)?;
    reader.punctuation(b',')?;
    reader.keyword(b"ptr")?;
    Ok(ty)
}

#[derive(Drop)]
pub struct HeadList {
    pub heads: Items<Type>,
}

impl Turn for HeadList {
    ghost reads = { λ before. (head_turn before).read };

    fn turn(&mut self, reader: &mut Reader<'_>) -> Result<bool, Stop> {
        if !reader.next_is_word(b"getelementptr") {
            return Ok(false);
        }
        let ty = address_head(reader)?;
        self.heads.push(ty)?;
        Ok(true)
    }
}

/// `, iN NUMBER, ..)`
#[tactic(auto, unfolding(crate::specs::Values::address_tail))]
fn address_tail(reader: &mut Reader<'_>) -> Result<Items<Index>, Stop>
    ensures { Steps (λ indices. indices) result reader.new (address_tail.read reader.old) }
{
    let mut all = IndexList {
        indices: Items::new(reader.alloc()),
    };
    reader.repeat(&mut all)?;
    reader.punctuation(b')')?;
    Ok(all.indices)
}

#[derive(Drop)]
pub struct TailList {
    pub count: usize,
    pub tails: Items<Items<Index>>,
}

impl Turn for TailList {
    ghost reads = { λ before. (tail_turn before).read };

    fn turn(&mut self, reader: &mut Reader<'_>) -> Result<bool, Stop> {
        if self.tails.len() == self.count {
            return Ok(false);
        }
        let indices = address_tail(reader)?;
        self.tails.push(indices)?;
        Ok(true)
    }
}

/// `@NAME`, or `getelementptr` over a constant place.
#[tactic(auto, unfolding(crate::specs::Values::address))]
pub fn address(reader: &mut Reader<'_>) -> Result<Address, Stop>
    ensures { Steps (λ address. address) result reader.new (address.read reader.old) }
{
    let left = reader.left();
    let heads = address_heads(reader)?;
    let name = reader.global_name()?;
    let tails = address_tails(reader, heads.len())?;
    Ok(Address {
        left,
        heads,
        name,
        tails,
    })
}

#[tactic(auto, unfolding(crate::specs::Values::address_heads))]
fn address_heads(reader: &mut Reader<'_>) -> Result<Items<Type>, Stop>
    ensures { Steps (λ heads. heads) result reader.new (address_heads.read reader.old) }
{
    let mut before = HeadList {
        heads: Items::new(reader.alloc()),
    };
    reader.repeat(&mut before)?;
    Ok(before.heads)
}

#[tactic(auto, unfolding(crate::specs::Values::address_tails))]
fn address_tails(reader: &mut Reader<'_>, count: usize) -> Result<Items<Items<Index>>, Stop>
    ensures { Steps (λ tails. tails) result reader.new ((address_tails count).read reader.old) }
{
    let mut behind = TailList {
        count,
        tails: Items::new(reader.alloc()),
    };
    reader.repeat(&mut behind)?;
    Ok(behind.tails)
}

fn word_value(left: usize, name: &[u8]) -> Option<Value>
    ensures { result ≡ word_value left name.now }
{
    if says(name, b"true") {
        return Some(Value::True(left));
    }
    if says(name, b"false") {
        return Some(Value::False(left));
    }
    if says(name, b"null") {
        return Some(Value::Null(left));
    }
    if says(name, b"poison") {
        return Some(Value::Poison(left));
    }
    None
}

#[tactic(auto, unfolding(crate::specs::Values::word_operand))]
fn word_operand(reader: &mut Reader<'_>) -> Result<Value, Stop>
    ensures { Steps (λ value. value) result reader.new (word_operand.read reader.old) }
{
    let left = reader.left();
    if let Token::Word(name) = reader.peek() {
        if let Some(value) = word_value(left, name) {
            let _word = reader.advance();
            return Ok(value);
        }
    }
    Err(reader.fault())
}

pub fn is_local(token: Token) -> bool
    ensures { result ≡ is_local (token_of token.entry) }
{
    matches!(token, Token::Local(..))
}

fn begins_address(token: Token) -> bool
    ensures { result ≡ begins_address (token_of token.entry) }
{
    match token {
        Token::Global(..) => true,
        Token::Word(name) => says(name, b"getelementptr"),
        _ => false,
    }
}

/// An operand.
#[tactic(auto, unfolding(crate::specs::Values::operand))]
pub fn operand(reader: &mut Reader<'_>) -> Result<Value, Stop>
    ensures { Steps (λ value. value) result reader.new (operand.read reader.old) }
{
    if is_local(reader.peek()) {
        let name = reader.local_name()?;
        return Ok(Value::Local(name));
    }
    if is_number(reader.peek()) {
        let number = reader.numeral()?;
        return Ok(Value::Number(number));
    }
    if begins_address(reader.peek()) {
        let place = address(reader)?;
        return Ok(Value::Address(place));
    }
    word_operand(reader)
}

/// `T V`
#[tactic(auto, unfolding(crate::specs::Values::typed))]
pub fn typed(reader: &mut Reader<'_>) -> Result<Typed, Stop>
    ensures { Steps (λ typed. typed) result reader.new (typed.read reader.old) }
{
    let ty = type_form(reader)?;
    let value = operand(reader)?;
    Ok(Typed { ty, value })
}

/// `T ATTRS V`
#[tactic(auto, unfolding(crate::specs::Values::argument))]
pub fn argument(reader: &mut Reader<'_>) -> Result<Typed, Stop>
    ensures { Steps (λ typed. typed) result reader.new (argument.read reader.old) }
{
    let ty = type_form(reader)?;
    attributes(reader)?;
    let value = operand(reader)?;
    Ok(Typed { ty, value })
}

/// An initial value that is one word; `true` and `false` are values of `i1`, which no global has.
fn word_init(left: usize, name: &[u8]) -> Option<InitNode>
    ensures { result ≡ word_init left name.now }
{
    if says(name, b"null") {
        return Some(InitNode::Null(left));
    }
    if says(name, b"zeroinitializer") {
        return Some(InitNode::Zero(left));
    }
    if says(name, b"true") {
        return Some(InitNode::True(left));
    }
    if says(name, b"false") {
        return Some(InitNode::False(left));
    }
    None
}

/// An initial value that is one token.
#[tactic(auto, unfolding(crate::specs::Values::token_init))]
fn token_init(reader: &mut Reader<'_>) -> Result<InitNode, Stop>
    ensures { Steps (λ node. node) result reader.new (token_init.read reader.old) }
{
    let left = reader.left();
    match reader.peek() {
        Token::Word(name) => match word_init(left, name) {
            Some(node) => {
                let _word = reader.advance();
                Ok(node)
            }
            None => Err(reader.fault()),
        },
        Token::Bytes(inner) => {
            let _bytes = reader.advance();
            let inner = Items::from_slice(reader.alloc(), inner)?;
            Ok(InitNode::Bytes(inner, left))
        }
        _ => Err(reader.fault()),
    }
}

/// An initial value without parts.
#[tactic(auto, unfolding(crate::specs::Values::plain_init))]
fn plain_init(reader: &mut Reader<'_>) -> Result<InitNode, Stop>
    ensures { Steps (λ node. node) result reader.new (plain_init.read reader.old) }
{
    if is_number(reader.peek()) {
        let number = reader.numeral()?;
        return Ok(InitNode::Number(number));
    }
    if begins_address(reader.peek()) {
        let place = address(reader)?;
        return Ok(InitNode::Address(place));
    }
    token_init(reader)
}

/// `]`, `}` or `}>`
#[tactic(auto, unfolding(crate::specs::Values::list_end))]
fn list_end(reader: &mut Reader<'_>, is_array: bool, is_packed: bool) -> Result<(), Stop>
    ensures { Steps (λ _. tt) result reader.new ((list_end is_array is_packed).read reader.old) }
{
    if is_array {
        return reader.punctuation(b']');
    }
    struct_end(reader, is_packed)
}

fn closing(is_array: bool) -> u8
    ensures { result ≡ closing is_array }
{
    if is_array { b']' } else { b'}' }
}

fn wanted_by(is_array: bool, is_packed: bool) -> u8
    ensures { result ≡ wanted_by is_array is_packed }
{
    if is_array {
        b']'
    } else if is_packed {
        b'>'
    } else {
        b'}'
    }
}

/// An initial value of which a part is read.
#[derive(Drop)]
pub struct OpenInit {
    /// The marks that are still to close.
    pub wanted: Marks,
    pub nodes: Items<InitNode>,
    /// Whether a value has just ended; else one comes.
    pub is_complete: bool,
}

impl OpenInit {
    /// Behind what opens a list: its first element's type, or its end.
    #[tactic(auto, unfolding(crate::specs::Values::list_start))]
    fn list_start(
        &mut self,
        reader: &mut Reader<'_>,
        is_array: bool,
        is_packed: bool,
        node: InitNode,
    ) -> Result<(), Stop>
        ensures { Steps (λ _. self.new) result reader.new ((list_start self.old is_array is_packed node).read reader.old) }
    {
        self.nodes.push(node)?;
        if reader.next_is(closing(is_array)) {
            let left = reader.left();
            list_end(reader, is_array, is_packed)?;
            self.nodes.push(InitNode::Close(left))?;
            self.is_complete = true;
            return Ok(());
        }
        let ty = type_form(reader)?;
        self.wanted.open(wanted_by(is_array, is_packed))?;
        self.nodes.push(InitNode::Of(ty))?;
        self.is_complete = false;
        Ok(())
    }

    /// Where a value comes.
    #[tactic(auto, unfolding(crate::specs::Values::init_start))]
    fn start(&mut self, reader: &mut Reader<'_>) -> Result<(), Stop>
        ensures { Steps (λ _. self.new) result reader.new ((init_start self.old).read reader.old) }
    {
        let left = reader.left();
        if reader.next_is(b'[') {
            reader.punctuation(b'[')?;
            return self.list_start(reader, true, false, InitNode::Array(left));
        }
        if reader.next_is(b'{') {
            reader.punctuation(b'{')?;
            return self.list_start(reader, false, false, InitNode::Struct(left));
        }
        if reader.next_is(b'<') {
            reader.punctuation(b'<')?;
            reader.punctuation(b'{')?;
            return self.list_start(reader, false, true, InitNode::Packed(left));
        }
        let node = plain_init(reader)?;
        self.nodes.push(node)?;
        self.is_complete = true;
        Ok(())
    }

    /// Behind a value: a comma and the next element's type, or the end of the list.
    #[tactic(auto, unfolding(crate::specs::Values::init_end))]
    fn end(&mut self, reader: &mut Reader<'_>) -> Result<(), Stop>
        ensures { Steps (λ _. self.new) result reader.new ((init_end self.old).read reader.old) }
    {
        if reader.next_is(b',') {
            reader.punctuation(b',')?;
            let ty = type_form(reader)?;
            self.nodes.push(InitNode::Of(ty))?;
            self.is_complete = false;
            return Ok(());
        }
        let left = reader.left();
        let is_array = self.wanted.ends_by(b']');
        let is_packed = self.wanted.ends_by(b'>');
        list_end(reader, is_array, is_packed)?;
        self.wanted.pass();
        self.nodes.push(InitNode::Close(left))?;
        self.is_complete = true;
        Ok(())
    }
}

impl Turn for OpenInit {
    ghost reads = { λ before. (init_turn before).read };

    fn turn(&mut self, reader: &mut Reader<'_>) -> Result<bool, Stop> {
        if !self.is_complete {
            self.start(reader)?;
            return Ok(true);
        }
        if self.wanted.is_empty() {
            return Ok(false);
        }
        self.end(reader)?;
        Ok(true)
    }
}

/// An initial value.
#[tactic(auto, unfolding(crate::specs::Values::init_form))]
pub fn init_form(reader: &mut Reader<'_>) -> Result<Items<InitNode>, Stop>
    ensures { Steps (λ nodes. nodes) result reader.new (init_form.read reader.old) }
{
    let mut all = OpenInit {
        wanted: Marks::new(reader.alloc()),
        nodes: Items::new(reader.alloc()),
        is_complete: false,
    };
    reader.repeat(&mut all)?;
    Ok(all.nodes)
}

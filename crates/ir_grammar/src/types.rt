ghost use Rattle.std.specs.Prelude.{◌≡◌, ◌++◌, ◌∷◌, [], true, false, if◌then◌else◌};
ghost use Rattle.ir_text.specs.Token.{token_at};
ghost use Rattle.ir_text.specs.Reads.{token_of, Steps};
ghost use Rattle.ir_grammar.specs.Types.{is_int, scalar, integer, struct_end, struct_node, struct_start, type_start, type_end, type_turn, type_form};

use crate::type_tree::{Type, TypeNode};
use crate::words::is_int_name;
use ir_text::{Marks, Name, Reader, Stop, Token, Turn};
use sqlite_items::Items;

pub fn is_int(token: Token) -> bool
    ensures { result ≡ is_int (token_of token.entry) }
{
    match token {
        Token::Word(name) => is_int_name(name),
        _ => false,
    }
}

/// `iN`
#[tactic(auto, unfolding(crate::specs::Types::integer))]
pub fn integer(reader: &mut Reader<'_>) -> Result<TypeNode, Stop>
    ensures { Steps (λ node. node) result reader.new (integer.read reader.old) }
{
    let left = reader.left();
    if let Token::Word(name) = reader.peek() {
        if is_int_name(name) {
            if let [_, digits @ ..] = name {
                let _word = reader.advance();
                let digits = Items::from_slice(reader.alloc(), digits)?;
                return Ok(TypeNode::Int(digits, left));
            }
        }
    }
    Err(reader.fault())
}

/// A type that is one token.
#[tactic(auto, unfolding(crate::specs::Types::scalar))]
fn scalar(reader: &mut Reader<'_>) -> Result<TypeNode, Stop>
    ensures { Steps (λ node. node) result reader.new (scalar.read reader.old) }
{
    let left = reader.left();
    match reader.peek() {
        Token::Word(name) => {
            if matches!(name, b"ptr") {
                let _word = reader.advance();
                return Ok(TypeNode::Ptr(left));
            }
            if matches!(name, b"void") {
                let _word = reader.advance();
                return Ok(TypeNode::Void(left));
            }
            if is_int_name(name) {
                if let [_, digits @ ..] = name {
                    let _word = reader.advance();
                    let digits = Items::from_slice(reader.alloc(), digits)?;
                    return Ok(TypeNode::Int(digits, left));
                }
            }
            Err(reader.fault())
        }
        Token::Local(spelling, bytes) => {
            let _name = reader.advance();
            let bytes = Items::from_slice(reader.alloc(), bytes)?;
            Ok(TypeNode::Named(Name {
                spelling,
                bytes,
                left,
            }))
        }
        _ => Err(reader.fault()),
    }
}

/// `}`, or `}>` of a packed struct.
#[tactic(auto, unfolding(crate::specs::Types::struct_end))]
pub fn struct_end(reader: &mut Reader<'_>, is_packed: bool) -> Result<(), Stop>
    ensures { Steps (λ _. tt) result reader.new ((struct_end is_packed).read reader.old) }
{
    reader.punctuation(b'}')?;
    if is_packed {
        return reader.punctuation(b'>');
    }
    Ok(())
}

/// A type of which a part is read.
#[derive(Drop)]
pub struct OpenType {
    /// The marks that are still to close.
    pub wanted: Marks,
    pub nodes: Items<TypeNode>,
    /// Whether a part has just ended; else one comes.
    pub is_complete: bool,
}

impl OpenType {
    /// Behind `{`: the first field comes, or the struct is empty.
    #[tactic(auto, unfolding(crate::specs::Types::struct_start))]
    fn struct_start(
        &mut self,
        reader: &mut Reader<'_>,
        is_packed: bool,
        left: usize,
    ) -> Result<(), Stop>
        ensures { Steps (λ _. self.new) result reader.new ((struct_start self.old is_packed left).read reader.old) }
    {
        self.nodes.push(struct_node(is_packed, left))?;
        if reader.next_is(b'}') {
            struct_end(reader, is_packed)?;
            self.nodes.push(TypeNode::Close)?;
            self.is_complete = true;
            return Ok(());
        }
        self.wanted.open(struct_mark(is_packed))?;
        self.is_complete = false;
        Ok(())
    }

    /// Where a type comes.
    #[tactic(auto, unfolding(crate::specs::Types::type_start))]
    fn start(&mut self, reader: &mut Reader<'_>) -> Result<(), Stop>
        ensures { Steps (λ _. self.new) result reader.new ((type_start self.old).read reader.old) }
    {
        let left = reader.left();
        if reader.next_is(b'[') {
            reader.punctuation(b'[')?;
            let count = reader.numeral()?;
            reader.keyword(b"x")?;
            self.wanted.open(b']')?;
            self.nodes.push(TypeNode::Array(count, left))?;
            self.is_complete = false;
            return Ok(());
        }
        if reader.next_is(b'{') {
            reader.punctuation(b'{')?;
            return self.struct_start(reader, false, left);
        }
        if reader.next_is(b'<') {
            reader.punctuation(b'<')?;
            reader.punctuation(b'{')?;
            return self.struct_start(reader, true, left);
        }
        let node = scalar(reader)?;
        self.nodes.push(node)?;
        self.is_complete = true;
        Ok(())
    }

    /// Behind a type: the end of what it stands in, or a comma and another field.
    #[tactic(auto, unfolding(crate::specs::Types::type_end))]
    fn end(&mut self, reader: &mut Reader<'_>) -> Result<(), Stop>
        ensures { Steps (λ _. self.new) result reader.new ((type_end self.old).read reader.old) }
    {
        if self.wanted.ends_by(b']') {
            reader.punctuation(b']')?;
            self.wanted.pass();
            self.is_complete = true;
            return Ok(());
        }
        if reader.next_is(b',') {
            reader.punctuation(b',')?;
            self.is_complete = false;
            return Ok(());
        }
        let is_packed = self.wanted.ends_by(b'>');
        struct_end(reader, is_packed)?;
        self.wanted.pass();
        self.nodes.push(TypeNode::Close)?;
        self.is_complete = true;
        Ok(())
    }
}

fn struct_node(is_packed: bool, left: usize) -> TypeNode
    ensures { result ≡ struct_node is_packed left }
{
    if is_packed {
        TypeNode::Packed(left)
    } else {
        TypeNode::Struct(left)
    }
}

fn struct_mark(is_packed: bool) -> u8
    ensures { result ≡ (if is_packed then 62 else 125) }
{
    if is_packed { b'>' } else { b'}' }
}

impl Turn for OpenType {
    ghost reads = { λ one. (type_turn one).read };

    fn turn(&mut self, reader: &mut Reader<'_>) -> Result<bool, Stop> {
        if !self.is_complete {
            self.start(reader)?;
            return Ok(true);
        }
        if self.wanted.is_empty() {
            return Ok(false);
        }
        self.end(reader)?;
        Ok(true)
    }
}

/// A type.
#[tactic(auto, unfolding(crate::specs::Types::type_form))]
pub fn type_form(reader: &mut Reader<'_>) -> Result<Type, Stop>
    ensures { Steps (λ ty. ty) result reader.new (type_form.read reader.old) }
{
    let mut open = OpenType {
        wanted: Marks::new(reader.alloc()),
        nodes: Items::new(reader.alloc()),
        is_complete: false,
    };
    reader.repeat(&mut open)?;
    Ok(open.nodes)
}

ghost use Rattle.std.specs.Prelude.{not, ◌≡◌, ◌++◌, ◌∷◌, ◌&&◌, ◌||◌, [], true, false, length, Some, None};
ghost use Rattle.std.specs.Str.{bytes_eq};
ghost use Rattle.ir_text.specs.Token.{token_at};
ghost use Rattle.ir_text.specs.Form.{taken};
ghost use Rattle.ir_text.specs.Reads.{token_of, Steps};
ghost use Rattle.ir_grammar.specs.Operators.{samesign_flag};
ghost use Rattle.ir_instruction_trees.specs.Instructions.{binary, comparison, cast, selection, freezing, incoming, is_comma_before, incoming_turn, more_incoming, choice, count, allocation, loading, storing, offset_turn, offsets, addressing, separator, argument_turn, argument_list, arguments, tail_word, call_start, is_dropped_name, call_rest, call, valued, returning, label_of_block, branch, case_form, case_turn, cases, switching, unreachable, effect, begins_call, whole, finished, ended, assignment, instruction};
ghost use Rattle.ir_text.specs.Words.{is_mark};
ghost use Rattle.ir_grammar.specs.Types.{is_int};

use crate::tree::{Case, Incoming, Instruction, Operation};
use ir_grammar::operators::{
    binary_operator, cast_operator, flags_of, is_binary, is_cast, predicate, samesign_flag,
};
use ir_grammar::type_tree::{Align, Type};
use ir_grammar::types::{is_int, type_form};
use ir_grammar::words::{attributes, says, suffixes, words};
use ir_text::{Name, Reader, Stop, Token, Turn};
use ir_value_trees::value_tree::Typed;
use ir_value_trees::values::{argument, is_local, operand, typed};
use sqlite_items::Items;

/// `OP FLAGS T V, V`
#[tactic(auto, unfolding(crate::specs::Instructions::binary))]
fn binary(reader: &mut Reader<'_>) -> Result<Operation, Stop>
    ensures { Steps (λ operation. operation) result reader.new (binary.read reader.old) }
{
    let (operator, allowed) = binary_operator(reader)?;
    let flags = flags_of(reader, allowed)?;
    let left = typed(reader)?;
    reader.punctuation(b',')?;
    let right = operand(reader)?;
    Ok(Operation::Binary(operator, flags, left, right))
}

/// `icmp [samesign] PRED T V, V`
#[tactic(auto, unfolding(crate::specs::Instructions::comparison))]
fn comparison(reader: &mut Reader<'_>) -> Result<Operation, Stop>
    ensures { Steps (λ operation. operation) result reader.new (comparison.read reader.old) }
{
    reader.keyword(b"icmp")?;
    let flags = flags_of(reader, samesign_flag())?;
    let predicate = predicate(reader)?;
    let left = typed(reader)?;
    reader.punctuation(b',')?;
    let right = operand(reader)?;
    Ok(Operation::Icmp(flags, predicate, left, right))
}

/// `OP FLAGS T V to T`
#[tactic(auto, unfolding(crate::specs::Instructions::cast))]
fn cast(reader: &mut Reader<'_>) -> Result<Operation, Stop>
    ensures { Steps (λ operation. operation) result reader.new (cast.read reader.old) }
{
    let (operator, allowed) = cast_operator(reader)?;
    let flags = flags_of(reader, allowed)?;
    let value = typed(reader)?;
    reader.keyword(b"to")?;
    let ty = type_form(reader)?;
    Ok(Operation::Cast(operator, flags, value, ty))
}

/// `select i1 V, T V, T V`
#[tactic(auto, unfolding(crate::specs::Instructions::selection))]
fn selection(reader: &mut Reader<'_>) -> Result<Operation, Stop>
    ensures { Steps (λ operation. operation) result reader.new (selection.read reader.old) }
{
    reader.keyword(b"select")?;
    let condition = typed(reader)?;
    reader.punctuation(b',')?;
    let left = typed(reader)?;
    reader.punctuation(b',')?;
    let right = typed(reader)?;
    Ok(Operation::Select(condition, left, right))
}

/// `freeze T V`
#[tactic(auto, unfolding(crate::specs::Instructions::freezing))]
fn freezing(reader: &mut Reader<'_>) -> Result<Operation, Stop>
    ensures { Steps (λ operation. operation) result reader.new (freezing.read reader.old) }
{
    reader.keyword(b"freeze")?;
    let value = typed(reader)?;
    Ok(Operation::Freeze(value))
}

/// `[ V, %B ]`
#[tactic(auto, unfolding(crate::specs::Instructions::incoming))]
fn incoming(reader: &mut Reader<'_>) -> Result<Incoming, Stop>
    ensures { Steps (λ one. one) result reader.new (incoming.read reader.old) }
{
    reader.punctuation(b'[')?;
    let value = operand(reader)?;
    reader.punctuation(b',')?;
    let block = reader.local_name()?;
    reader.punctuation(b']')?;
    Ok(Incoming { value, block })
}

fn is_bracket_behind_comma(token: Token, second: Token) -> bool
    ensures { result ≡ is_comma_before (is_mark 91) (token_of token.entry) (token_of second.entry) }
{
    match (token, second) {
        (Token::Mark(first), Token::Mark(second)) => first == b',' && second == b'[',
        _ => false,
    }
}

fn is_int_behind_comma(token: Token, second: Token) -> bool
    ensures { result ≡ is_comma_before is_int (token_of token.entry) (token_of second.entry) }
{
    match token {
        Token::Mark(first) => first == b',' && is_int(second),
        _ => false,
    }
}

#[derive(Drop)]
pub struct IncomingList {
    pub incoming: Items<Incoming>,
}

impl Turn for IncomingList {
    ghost reads = { λ before. (incoming_turn before).read };

    fn turn(&mut self, reader: &mut Reader<'_>) -> Result<bool, Stop> {
        if !is_bracket_behind_comma(reader.peek(), reader.peek_second()) {
            return Ok(false);
        }
        reader.punctuation(b',')?;
        let one = incoming(reader)?;
        self.incoming.push(one)?;
        Ok(true)
    }
}

/// `phi T [ V, %B ], ..`
#[tactic(auto, unfolding(crate::specs::Instructions::choice))]
fn choice(reader: &mut Reader<'_>) -> Result<Operation, Stop>
    ensures { Steps (λ operation. operation) result reader.new (choice.read reader.old) }
{
    reader.keyword(b"phi")?;
    let ty = type_form(reader)?;
    let first = incoming(reader)?;
    let given = more_incoming(reader, first)?;
    Ok(Operation::Phi(ty, given))
}

#[tactic(auto, unfolding(crate::specs::Instructions::more_incoming))]
fn more_incoming(reader: &mut Reader<'_>, first: Incoming) -> Result<Items<Incoming>, Stop>
    ensures { Steps (λ all. all) result reader.new ((more_incoming first).read reader.old) }
{
    let mut all = IncomingList {
        incoming: Items::new(reader.alloc()),
    };
    all.incoming.push(first)?;
    reader.repeat(&mut all)?;
    Ok(all.incoming)
}

/// `, iN NUMBER`, or nothing; a count that isn't constant reads here and is left out.
#[tactic(auto, unfolding(crate::specs::Instructions::count))]
fn count(reader: &mut Reader<'_>) -> Result<Option<Typed>, Stop>
    ensures { Steps (λ count. count) result reader.new (count.read reader.old) }
{
    if !is_int_behind_comma(reader.peek(), reader.peek_second()) {
        return Ok(None);
    }
    reader.punctuation(b',')?;
    let one = typed(reader)?;
    Ok(Some(one))
}

/// `alloca MEMTY [, iN NUMBER]`
#[tactic(auto, unfolding(crate::specs::Instructions::allocation))]
fn allocation(reader: &mut Reader<'_>) -> Result<Operation, Stop>
    ensures { Steps (λ operation. operation) result reader.new (allocation.read reader.old) }
{
    let left = reader.left();
    reader.keyword(b"alloca")?;
    let ty = type_form(reader)?;
    let count = count(reader)?;
    Ok(Operation::Alloca(left, ty, count))
}

/// `load T, ptr V`
#[tactic(auto, unfolding(crate::specs::Instructions::loading))]
fn loading(reader: &mut Reader<'_>) -> Result<Operation, Stop>
    ensures { Steps (λ operation. operation) result reader.new (loading.read reader.old) }
{
    reader.keyword(b"load")?;
    let ty = type_form(reader)?;
    reader.punctuation(b',')?;
    let from = typed(reader)?;
    Ok(Operation::Load(ty, from))
}

/// `store T V, ptr V`
#[tactic(auto, unfolding(crate::specs::Instructions::storing))]
fn storing(reader: &mut Reader<'_>) -> Result<Operation, Stop>
    ensures { Steps (λ operation. operation) result reader.new (storing.read reader.old) }
{
    reader.keyword(b"store")?;
    let value = typed(reader)?;
    reader.punctuation(b',')?;
    let into = typed(reader)?;
    Ok(Operation::Store(value, into))
}

#[derive(Drop)]
pub struct OffsetList {
    pub offsets: Items<Typed>,
}

impl Turn for OffsetList {
    ghost reads = { λ before. (offset_turn before).read };

    fn turn(&mut self, reader: &mut Reader<'_>) -> Result<bool, Stop> {
        if !is_int_behind_comma(reader.peek(), reader.peek_second()) {
            return Ok(false);
        }
        reader.punctuation(b',')?;
        let one = typed(reader)?;
        self.offsets.push(one)?;
        Ok(true)
    }
}

/// `getelementptr WORDS MEMTY, ptr V, iN V, ..`
#[tactic(auto, unfolding(crate::specs::Instructions::addressing))]
fn addressing(reader: &mut Reader<'_>) -> Result<Operation, Stop>
    ensures { Steps (λ operation. operation) result reader.new (addressing.read reader.old) }
{
    reader.keyword(b"getelementptr")?;
    words(reader)?;
    let ty = type_form(reader)?;
    reader.punctuation(b',')?;
    let base = typed(reader)?;
    let given = offsets(reader)?;
    Ok(Operation::Gep(ty, base, given))
}

#[tactic(auto, unfolding(crate::specs::Instructions::offsets))]
fn offsets(reader: &mut Reader<'_>) -> Result<Items<Typed>, Stop>
    ensures { Steps (λ all. all) result reader.new (offsets.read reader.old) }
{
    let mut all = OffsetList {
        offsets: Items::new(reader.alloc()),
    };
    reader.repeat(&mut all)?;
    Ok(all.offsets)
}

fn separator(reader: &mut Reader<'_>, is_first: bool) -> Result<(), Stop>
    ensures { Steps (λ _. tt) result reader.new ((separator is_first).read reader.old) }
{
    if is_first {
        return Ok(());
    }
    reader.punctuation(b',')
}

#[derive(Drop)]
pub struct ArgumentList {
    pub arguments: Items<Typed>,
}

impl Turn for ArgumentList {
    ghost reads = { λ before. (argument_turn before).read };

    fn turn(&mut self, reader: &mut Reader<'_>) -> Result<bool, Stop> {
        if reader.next_is(b')') {
            return Ok(false);
        }
        separator(reader, self.arguments.len() == 0)?;
        let one = argument(reader)?;
        self.arguments.push(one)?;
        Ok(true)
    }
}

/// `(T ATTRS V, ..)`
#[tactic(auto, unfolding(crate::specs::Instructions::arguments))]
fn arguments(reader: &mut Reader<'_>) -> Result<Items<Typed>, Stop>
    ensures { Steps (λ all. all) result reader.new (arguments.read reader.old) }
{
    reader.punctuation(b'(')?;
    let given = argument_list(reader)?;
    reader.punctuation(b')')?;
    Ok(given)
}

#[tactic(auto, unfolding(crate::specs::Instructions::argument_list))]
fn argument_list(reader: &mut Reader<'_>) -> Result<Items<Typed>, Stop>
    ensures { Steps (λ all. all) result reader.new (argument_list.read reader.old) }
{
    let mut all = ArgumentList {
        arguments: Items::new(reader.alloc()),
    };
    reader.repeat(&mut all)?;
    Ok(all.arguments)
}

/// `tail` or `notail` before `call`, or nothing.
#[tactic(auto, unfolding(crate::specs::Instructions::tail_word))]
fn tail_word(reader: &mut Reader<'_>) -> Result<(), Stop>
    ensures { Steps (λ _. tt) result reader.new (tail_word.read reader.old) }
{
    if reader.next_is_word(b"tail") {
        return reader.keyword(b"tail");
    }
    if reader.next_is_word(b"notail") {
        return reader.keyword(b"notail");
    }
    Ok(())
}

/// `[tail or notail] call WORDS T`
#[tactic(auto, unfolding(crate::specs::Instructions::call_start))]
fn call_start(reader: &mut Reader<'_>) -> Result<Type, Stop>
    ensures { Steps (λ ty. ty) result reader.new (call_start.read reader.old) }
{
    tail_word(reader)?;
    reader.keyword(b"call")?;
    words(reader)?;
    type_form(reader)
}

pub fn is_dropped_name(name: &[u8]) -> bool
    ensures { result ≡ is_dropped_name name.now }
{
    name.starts_with(b"llvm.lifetime.")
        || name.starts_with(b"llvm.dbg.")
        || name.starts_with(b"llvm.assume")
        || name.starts_with(b"llvm.experimental.noalias.scope.decl")
}

/// The arguments and attributes of a call, and what stands behind it.
#[tactic(auto, unfolding(crate::specs::Instructions::call_rest))]
fn call_rest(
    reader: &mut Reader<'_>,
    left: usize,
    result_name: Option<Name>,
    ty: Type,
    is_indirect: bool,
    callee: Name,
) -> Result<Option<Instruction>, Stop>
    ensures { Steps (λ one. one) result reader.new ((call_rest left result_name ty is_indirect callee).read reader.old) }
{
    let given = arguments(reader)?;
    attributes(reader)?;
    let aligns = suffixes(reader)?;
    Ok(Some(Instruction {
        left,
        result: result_name,
        operation: Operation::Call(ty, is_indirect, callee, given),
        aligns,
    }))
}

/// A call; none where it is dropped.
#[tactic(auto, unfolding(crate::specs::Instructions::call))]
fn call(
    reader: &mut Reader<'_>,
    left: usize,
    result_name: Option<Name>,
) -> Result<Option<Instruction>, Stop>
    ensures { Steps (λ one. one) result reader.new ((call left result_name).read reader.old) }
{
    let ty = call_start(reader)?;
    if is_local(reader.peek()) {
        let callee = reader.local_name()?;
        return call_rest(reader, left, result_name, ty, true, callee);
    }
    let callee = reader.global_name()?;
    if is_dropped_name(callee.bytes.as_slice()) {
        reader.rest_of_line();
        return Ok(None);
    }
    call_rest(reader, left, result_name, ty, false, callee)
}

/// An operation with a result, but for a call.
#[tactic(auto, unfolding(crate::specs::Instructions::valued))]
fn valued(reader: &mut Reader<'_>) -> Result<Operation, Stop>
    ensures { Steps (λ operation. operation) result reader.new (valued.read reader.old) }
{
    if is_binary(reader.peek()) {
        return binary(reader);
    }
    if is_cast(reader.peek()) {
        return cast(reader);
    }
    if reader.next_is_word(b"icmp") {
        return comparison(reader);
    }
    if reader.next_is_word(b"select") {
        return selection(reader);
    }
    if reader.next_is_word(b"freeze") {
        return freezing(reader);
    }
    if reader.next_is_word(b"phi") {
        return choice(reader);
    }
    if reader.next_is_word(b"alloca") {
        return allocation(reader);
    }
    if reader.next_is_word(b"load") {
        return loading(reader);
    }
    addressing(reader)
}

/// `ret T V` or `ret void`
#[tactic(auto, unfolding(crate::specs::Instructions::returning))]
fn returning(reader: &mut Reader<'_>) -> Result<Operation, Stop>
    ensures { Steps (λ operation. operation) result reader.new (returning.read reader.old) }
{
    reader.keyword(b"ret")?;
    if reader.next_is_word(b"void") {
        let ty = type_form(reader)?;
        return Ok(Operation::Ret(ty, None));
    }
    let answer = typed(reader)?;
    Ok(Operation::Ret(answer.ty, Some(answer.value)))
}

/// `label %B`
#[tactic(auto, unfolding(crate::specs::Instructions::label_of_block))]
fn label_of_block(reader: &mut Reader<'_>) -> Result<Name, Stop>
    ensures { Steps (λ name. name) result reader.new (label_of_block.read reader.old) }
{
    reader.keyword(b"label")?;
    reader.local_name()
}

/// `br label %B` or `br i1 V, label %B, label %B`
#[tactic(auto, unfolding(crate::specs::Instructions::branch))]
fn branch(reader: &mut Reader<'_>) -> Result<Operation, Stop>
    ensures { Steps (λ operation. operation) result reader.new (branch.read reader.old) }
{
    reader.keyword(b"br")?;
    if reader.next_is_word(b"label") {
        let block = label_of_block(reader)?;
        return Ok(Operation::Br(block));
    }
    let condition = typed(reader)?;
    reader.punctuation(b',')?;
    let left = label_of_block(reader)?;
    reader.punctuation(b',')?;
    let right = label_of_block(reader)?;
    Ok(Operation::CondBr(condition, left, right))
}

/// `T NUMBER, label %B`
#[tactic(auto, unfolding(crate::specs::Instructions::case_form))]
fn case_form(reader: &mut Reader<'_>) -> Result<Case, Stop>
    ensures { Steps (λ one. one) result reader.new (case_form.read reader.old) }
{
    let given = typed(reader)?;
    reader.punctuation(b',')?;
    let block = label_of_block(reader)?;
    Ok(Case {
        ty: given.ty,
        value: given.value,
        block,
    })
}

#[derive(Drop)]
pub struct CaseList {
    pub cases: Items<Case>,
}

impl Turn for CaseList {
    ghost reads = { λ before. (case_turn before).read };

    fn turn(&mut self, reader: &mut Reader<'_>) -> Result<bool, Stop> {
        if reader.next_is(b']') {
            return Ok(false);
        }
        let one = case_form(reader)?;
        self.cases.push(one)?;
        Ok(true)
    }
}

/// `switch T V, label %B [ T NUMBER, label %B .. ]`
#[tactic(auto, unfolding(crate::specs::Instructions::switching))]
fn switching(reader: &mut Reader<'_>) -> Result<Operation, Stop>
    ensures { Steps (λ operation. operation) result reader.new (switching.read reader.old) }
{
    reader.keyword(b"switch")?;
    let value = typed(reader)?;
    reader.punctuation(b',')?;
    let block = label_of_block(reader)?;
    reader.punctuation(b'[')?;
    let given = cases(reader)?;
    reader.punctuation(b']')?;
    Ok(Operation::Switch(value, block, given))
}

#[tactic(auto, unfolding(crate::specs::Instructions::cases))]
fn cases(reader: &mut Reader<'_>) -> Result<Items<Case>, Stop>
    ensures { Steps (λ all. all) result reader.new (cases.read reader.old) }
{
    let mut all = CaseList {
        cases: Items::new(reader.alloc()),
    };
    reader.repeat(&mut all)?;
    Ok(all.cases)
}

#[tactic(auto, unfolding(crate::specs::Instructions::unreachable))]
fn unreachable(reader: &mut Reader<'_>) -> Result<Operation, Stop>
    ensures { Steps (λ operation. operation) result reader.new (unreachable.read reader.old) }
{
    reader.keyword(b"unreachable")?;
    Ok(Operation::Unreachable)
}

/// An operation without a result, but for a call.
#[tactic(auto, unfolding(crate::specs::Instructions::effect))]
fn effect(reader: &mut Reader<'_>) -> Result<Operation, Stop>
    ensures { Steps (λ operation. operation) result reader.new (effect.read reader.old) }
{
    if reader.next_is_word(b"store") {
        return storing(reader);
    }
    if reader.next_is_word(b"ret") {
        return returning(reader);
    }
    if reader.next_is_word(b"br") {
        return branch(reader);
    }
    if reader.next_is_word(b"switch") {
        return switching(reader);
    }
    unreachable(reader)
}

fn begins_call(token: Token) -> bool
    ensures { result ≡ begins_call (token_of token.entry) }
{
    match token {
        Token::Word(name) => says(name, b"call") || says(name, b"tail") || says(name, b"notail"),
        _ => false,
    }
}

/// An instruction of its parts, where its suffixes were read.
fn whole(
    left: usize,
    result_name: Option<Name>,
    operation: Operation,
    aligns: Result<Items<Align>, Stop>,
) -> Result<Option<Instruction>, Stop>
    ensures { result ≡ whole left result_name operation aligns }
{
    match aligns {
        Ok(aligns) => Ok(Some(Instruction {
            left,
            result: result_name,
            operation,
            aligns,
        })),
        Err(stop) => Err(stop),
    }
}

/// What stands behind an operation.
#[tactic(auto, unfolding(crate::specs::Instructions::finished))]
fn finished(
    reader: &mut Reader<'_>,
    left: usize,
    result_name: Option<Name>,
    operation: Operation,
) -> Result<Option<Instruction>, Stop>
    ensures { Steps (λ one. one) result reader.new ((finished left result_name operation).read reader.old) }
{
    let aligns = suffixes(reader);
    whole(left, result_name, operation, aligns)
}

/// An operation without a result, but for a call, and what stands behind it.
fn plain_effect(reader: &mut Reader<'_>, left: usize) -> Result<Option<Instruction>, Stop>
    ensures { Steps (λ one. one) result reader.new ((ended left None effect).read reader.old) }
{
    let operation = effect(reader)?;
    finished(reader, left, None, operation)
}

/// `%NAME = ..`
#[tactic(auto, unfolding(crate::specs::Instructions::assignment))]
fn assignment(reader: &mut Reader<'_>, left: usize) -> Result<Option<Instruction>, Stop>
    ensures { Steps (λ one. one) result reader.new ((assignment left).read reader.old) }
{
    let name = reader.local_name()?;
    reader.punctuation(b'=')?;
    if begins_call(reader.peek()) {
        return call(reader, left, Some(name));
    }
    let operation = valued(reader)?;
    finished(reader, left, Some(name), operation)
}

/// An instruction; none where it is dropped.
#[tactic(auto, unfolding(crate::specs::Instructions::instruction))]
pub fn instruction(reader: &mut Reader<'_>) -> Result<Option<Instruction>, Stop>
    ensures { Steps (λ one. one) result reader.new (instruction.read reader.old) }
{
    let left = reader.left();
    if is_local(reader.peek()) {
        return assignment(reader, left);
    }
    if begins_call(reader.peek()) {
        return call(reader, left, None);
    }
    plain_effect(reader, left)
}

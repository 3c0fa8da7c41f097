// From items to words: each in the first form that reaches its label.

ghost use Rattle.std.specs.Prelude.{◌≡◌, ◌+◌, ◌*◌, ◌%◌, ◌<◌, ◌≤◌, ◌^◌, ℕ, [], ◌∷◌, ◌++◌, map, length, IfOk, OnOk, IsTrue, slice_index, true};
ghost use Rattle.rv_core.specs.Instr.{IsValid, IsOffset};
ghost use Rattle.rv_encode.specs.Spelling.{word_of};
ghost use Rattle.rv_asm.specs.Code.{IsCode, IsSound, AreSound, target};
ghost use Rattle.rv_asm.specs.Layout.{offset, distance, reaches, opposite, far_code, jump_code, branch_code, item_code, size, first_form, places_from, goes_to, laid, AreFirst, item_of, in_short, first_from, IsAssembly, CanJump, CanBranch};
ghost use Rattle.rv_asm.specs.Constant.{upper, lower};
ghost use Rattle.rv_asm.specs.Runs.{RunsAs};

use crate::constant::low_part_of;
use crate::item::{Form, Formed, Item};
use rj_num::NoMemory;
use rv_core::instr::{BranchOp, Instr};
use rv_core::reg::Reg;
use rv_encode::encode::encode;
use std::alloc::Global;

// The words of items, which run as the items do.
pub fn words_of_items(
    alloc: Global,
    items: &[Item],
    bound: &[Option<u32>],
) -> Result<Vec<u32>, NoMemory>
    requires { IsCode items.now }
    ensures words { IfOk result (λ words. IsAssembly (record { items = items.now; bound = bound.now }) words.items) }
    ensures runs { IfOk result (λ words. length words.items ≤ 2 ^ 22 → RunsAs (record { items = items.now; bound = bound.now }) words.items) }
{
    let words = lay_out(alloc, items, bound)?;
    Ok(words)
}

// All begin short, and an item whose form isn't the first that reaches gets that one, until none is left.
#[tactic(auto, using(crate::proofs::Loops::as_many))]
fn lay_out(alloc: Global, items: &[Item], bound: &[Option<u32>]) -> Result<Vec<u32>, NoMemory>
    requires { IsCode items.now }
    ensures { IfOk result (λ words. IsAssembly (record { items = items.now; bound = bound.now }) words.items) }
{
    let mut formed = all_short(alloc, items)?;
    for _round in 0..2 * items.len() + 1 {
        let places = places_of(alloc, &formed)?;
        if are_first(&formed, &places, bound) {
            let words = emit_items(alloc, &formed, &places, bound)?;
            return Ok(words);
        }
        formed = first_forms(alloc, &formed, &places, bound)?;
    }
    Err(NoMemory)
}

fn all_short(alloc: Global, items: &[Item]) -> Result<Vec<Formed>, NoMemory>
    ensures items { IfOk result (λ formed. map item_of formed.items ≡ items.now) }
    ensures short { IfOk result (λ formed. formed.items ≡ map in_short items.now) }
{
    let mut formed = Vec::new(alloc);
    for item in items {
        formed
            .push(Formed {
                item: *item,
                form: Form::Short,
            })
            .map_err(|_| NoMemory)?;
    }
    Ok(formed)
}

// The place of each item, and that behind the last.
fn places_of(alloc: Global, formed: &[Formed]) -> Result<Vec<u32>, NoMemory>
    requires { length formed.now ≤ 2 ^ 29 }
    ensures value { IfOk result (λ places. places.items ≡ places_from 0 formed.now) }
    ensures below { IfOk result (λ places. (k : ℕ) → slice_index places.items k < 2 ^ 31) }
{
    let places = list_places(alloc, formed)?;
    Ok(places)
}

fn list_places(alloc: Global, formed: &[Formed]) -> Result<Vec<u32>, NoMemory>
    requires { length formed.now ≤ 2 ^ 29 }
    ensures { IfOk result (λ places. places.items ≡ places_from 0 formed.now) }
{
    let mut places = Vec::new(alloc);
    let mut place = 0;
    for entry in formed {
        places.push(place).map_err(|_| NoMemory)?;
        place += size_of(*entry);
    }
    places.push(place).map_err(|_| NoMemory)?;
    Ok(places)
}

// Whether each item has the first form that reaches.
fn are_first(formed: &[Formed], places: &[u32], bound: &[Option<u32>]) -> bool
    requires few { length formed.now ≤ 2 ^ 29 }
    requires below { (k : ℕ) → slice_index places.now k < 2 ^ 31 }
    ensures { IsTrue result → AreFirst (goes_to bound.now places.now) 0 formed.now }
{
    let mut place = 0;
    for entry in formed {
        let form = first_form(entry.item, place, goes_to(bound, places, entry.item));
        if !same_form(entry.form, form) {
            return false;
        }
        place += size_of(*entry);
    }
    true
}

// The items, each in the first form that reaches from where it stands now.
fn first_forms(
    alloc: Global,
    formed: &[Formed],
    places: &[u32],
    bound: &[Option<u32>],
) -> Result<Vec<Formed>, NoMemory>
    requires few { length formed.now ≤ 2 ^ 29 }
    requires below { (k : ℕ) → slice_index places.now k < 2 ^ 31 }
    ensures items { IfOk result (λ more. map item_of more.items ≡ map item_of formed.now) }
    ensures forms { IfOk result (λ more. more.items ≡ first_from (goes_to bound.now places.now) 0 formed.now) }
{
    let mut more = Vec::new(alloc);
    let mut place = 0;
    for entry in formed {
        let form = first_form(entry.item, place, goes_to(bound, places, entry.item));
        more.push(Formed {
            item: entry.item,
            form,
        })
        .map_err(|_| NoMemory)?;
        place += size_of(*entry);
    }
    Ok(more)
}

// The words of items, each in the first form that reaches.
fn emit_items(
    alloc: Global,
    formed: &[Formed],
    places: &[u32],
    bound: &[Option<u32>],
) -> Result<Vec<u32>, NoMemory>
    requires few { length formed.now ≤ 2 ^ 29 }
    requires below { (k : ℕ) → slice_index places.now k < 2 ^ 31 }
    requires sound { AreSound (map item_of formed.now) }
    requires first { AreFirst (goes_to bound.now places.now) 0 formed.now }
    ensures { IfOk result (λ words. words.items ≡ map word_of (laid (goes_to bound.now places.now) 0 formed.now)) }
{
    let mut words = Vec::new(alloc);
    let mut place = 0;
    for entry in formed {
        emit_item(
            &mut words,
            *entry,
            place,
            goes_to(bound, places, entry.item),
        )?;
        place += size_of(*entry);
    }
    Ok(words)
}

fn same_form(a: Form, b: Form) -> bool
    ensures { IsTrue result → a ≡ b }
{
    match (a, b) {
        (Form::Short, Form::Short) => true,
        (Form::Near, Form::Near) => true,
        (Form::Far, Form::Far) => true,
        _ => false,
    }
}

// How many words an item has.
fn size_of(formed: Formed) -> u32
    ensures value { result ≡ size formed.form formed.item }
    ensures few { result ≤ 3 }
{
    match (formed.item, formed.form) {
        (Item::Plain(_), _) => 1,
        (Item::BranchTo(_, _, _, _), Form::Short) => 1,
        (Item::BranchTo(_, _, _, _), Form::Near) => 2,
        (Item::BranchTo(_, _, _, _), Form::Far) => 3,
        (Item::JumpTo(_), Form::Far) => 2,
        (Item::JumpTo(_), _) => 1,
    }
}

// The place to which an item leads.
fn goes_to(bound: &[Option<u32>], places: &[u32], item: Item) -> u32
    requires { (k : ℕ) → slice_index places.now k < 2 ^ 31 }
    ensures value { result ≡ goes_to bound.now places.now item }
    ensures below { result < 2 ^ 31 }
{
    match item {
        Item::Plain(_) => place_at(places, 0),
        Item::BranchTo(_, _, _, label) => place_at(places, target(bound, label)),
        Item::JumpTo(label) => place_at(places, target(bound, label)),
    }
}

fn place_at(places: &[u32], item: u32) -> u32
    requires { (k : ℕ) → slice_index places.now k < 2 ^ 31 }
    ensures value { result ≡ slice_index places.now item }
    ensures below { result < 2 ^ 31 }
{
    if (item as usize) < places.len() {
        places[item as usize]
    } else {
        0
    }
}

// The item before which a label stands.
fn target(bound: &[Option<u32>], label: u32) -> u32
    ensures { result ≡ target bound.now label }
{
    if (label as usize) < bound.len() {
        match bound[label as usize] {
            Some(item) => item,
            None => 0,
        }
    } else {
        0
    }
}

// The first form that reaches.
fn first_form(item: Item, place: u32, to: u32) -> Form
    requires { place < 2 ^ 31 }
    ensures { result ≡ first_form item place to }
{
    match item {
        Item::Plain(_) => Form::Short,
        Item::BranchTo(_, _, _, _) => {
            if reaches(4096, place, to) {
                Form::Short
            } else if reaches(1 << 20, place + 1, to) {
                Form::Near
            } else {
                Form::Far
            }
        }
        Item::JumpTo(_) => if reaches(1 << 20, place, to) {
            Form::Short
        } else {
            Form::Far
        },
    }
}

// Whether an offset from -half to half - 1 leads from one place to another.
fn reaches(half: u64, place: u32, to: u32) -> bool
    ensures { result ≡ reaches half place to }
{
    let place = u64::from(place);
    let to = u64::from(to);
    if place <= to {
        4 * (to - place) < half
    } else {
        4 * (place - to) <= half
    }
}

// How many bytes it is from one place to another.
fn offset_of(half: u64, place: u32, to: u32) -> i32
    requires half { half ≤ 2 ^ 20 }
    requires reaches { reaches half place to ≡ true }
    ensures value { result ≡ offset place to }
    ensures fits { IsOffset half result }
{
    if place <= to {
        (4 * (u64::from(to) - u64::from(place))) as i32
    } else {
        -((4 * (u64::from(place) - u64::from(to))) as i32)
    }
}

fn opposite(op: BranchOp) -> BranchOp
    ensures { result ≡ opposite op }
{
    match op {
        BranchOp::Beq => BranchOp::Bne,
        BranchOp::Bne => BranchOp::Beq,
        BranchOp::Blt => BranchOp::Bge,
        BranchOp::Bge => BranchOp::Blt,
        BranchOp::Bltu => BranchOp::Bgeu,
        BranchOp::Bgeu => BranchOp::Bltu,
    }
}

// The words of an item at a place.
fn emit_item(words: &mut Vec<u32>, entry: Formed, place: u32, to: u32) -> Result<(), NoMemory>
    requires place { place < 2 ^ 31 }
    requires to { to < 2 ^ 31 }
    requires sound { IsSound entry.item }
    requires first { entry.form ≡ first_form entry.item place to }
    ensures { OnOk result (words.new.items ≡ words.old.items ++ map word_of (item_code entry.form entry.item place to)) }
{
    match entry.item {
        Item::Plain(instr) => emit(words, instr),
        Item::BranchTo(op, a, b, _) => emit_branch(words, entry.form, op, a, b, place, to),
        Item::JumpTo(_) => emit_jump(words, entry.form, place, to),
    }
}

fn emit_branch(
    words: &mut Vec<u32>,
    form: Form,
    op: BranchOp,
    a: Reg,
    b: Reg,
    place: u32,
    to: u32,
) -> Result<(), NoMemory>
    requires place { place < 2 ^ 31 }
    requires to { to < 2 ^ 31 }
    requires reaches { CanBranch form place to }
    ensures { OnOk result (words.new.items ≡ words.old.items ++ map word_of (branch_code form op a b place to)) }
{
    match form {
        Form::Short => emit(words, branch_by(op, a, b, place, to)),
        Form::Near => {
            emit(words, Instr::Branch(opposite(op), a, b, 8))?;
            emit_jump(words, form, place + 1, to)
        }
        Form::Far => {
            emit(words, Instr::Branch(opposite(op), a, b, 12))?;
            emit_jump(words, form, place + 1, to)
        }
    }
}

fn emit_jump(words: &mut Vec<u32>, form: Form, place: u32, to: u32) -> Result<(), NoMemory>
    requires place { place ≤ 2 ^ 31 }
    requires to { to < 2 ^ 31 }
    requires reaches { CanJump form place to }
    ensures { OnOk result (words.new.items ≡ words.old.items ++ map word_of (jump_code form place to)) }
{
    match form {
        Form::Short => emit(words, jump_by(place, to)),
        Form::Near => emit(words, jump_by(place, to)),
        Form::Far => {
            emit(words, add_upper(distance(place, to)))?;
            emit(words, jump_lower(distance(place, to)))
        }
    }
}

fn branch_by(op: BranchOp, a: Reg, b: Reg, place: u32, to: u32) -> Instr
    requires { reaches 4096 place to ≡ true }
    ensures value { result ≡ Instr.Branch op a b (offset place to) }
    ensures valid { IsValid result }
{
    Instr::Branch(op, a, b, offset_of(4096, place, to))
}

fn jump_by(place: u32, to: u32) -> Instr
    requires { reaches (2 ^ 20) place to ≡ true }
    ensures value { result ≡ Instr.Jal Reg.X0 (offset place to) }
    ensures valid { IsValid result }
{
    Instr::Jal(Reg::X0, offset_of(1 << 20, place, to))
}

// The offset's low 32 bits.
fn distance(place: u32, to: u32) -> u64
    requires { place ≤ 2 ^ 31 }
    ensures { result ≡ distance place to }
{
    (4 * u64::from(to) + (1 << 34) - 4 * u64::from(place)) % (1 << 32)
}

fn add_upper(distance: u64) -> Instr
    requires { distance < 2 ^ 32 }
    ensures value { result ≡ Instr.Auipc Reg.T6 (upper distance % 2 ^ 20) }
    ensures valid { IsValid result }
{
    Instr::Auipc(Reg::T6, ((distance + 2048) / 4096 % (1 << 20)) as u32)
}

fn jump_lower(distance: u64) -> Instr
    ensures value { result ≡ Instr.Jalr Reg.X0 Reg.T6 (lower distance) }
    ensures valid { IsValid result }
{
    Instr::Jalr(Reg::X0, Reg::T6, low_part_of(distance))
}

fn emit(words: &mut Vec<u32>, instr: Instr) -> Result<(), NoMemory>
    requires { IsValid instr }
    ensures { OnOk result (words.new.items ≡ words.old.items ++ word_of instr ∷ []) }
{
    words.push(encode(instr)).map_err(|_| NoMemory)
}

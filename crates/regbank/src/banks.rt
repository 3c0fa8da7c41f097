// Which constants stay in a register.
ghost use Rattle.std.specs.Prelude.{◌≡◌, ℕ, ◌≤◌, ◌<◌, [], ◌∷◌, ◌++◌, length, min, IfOk, OnOk};
ghost use Rattle.gmir.specs.Formed.{IsFormed};
ghost use Rattle.regbank.specs.Counts.{AreCounts};
ghost use Rattle.regbank.specs.Choice.{is_constant as is_constant_op, is_kept as is_kept_by, words_of as words_of_inst, choices, kept_of, WritesBelow};
ghost use Rattle.gmir.specs.Play.{def_at};

use crate::counts::counts_of;
use gmir::code::{GFunction, GInst, GOp};
use rj_num::NoMemory;
use rj_num::constant::const_words;
use std::alloc::Global;

/// How the constants of a function are held.
#[derive(Drop)]
pub struct Banks {
    /// For each constant, in order of text: it stays in a register, and isn't made again at each use.
    pub kept: Vec<bool>,
}

fn is_constant(inst: &GInst) -> bool
    ensures { result ≡ is_constant_op inst.now.op }
{
    match inst.op {
        GOp::Constant => true,
        _ => false,
    }
}

/// The words that load the instruction's constant.
fn words_of(inst: &GInst) -> u32
    ensures words { result ≡ words_of_inst inst.now }
    ensures few { result ≤ 8 }
{
    const_words((inst.num % (1 << 64)) as u64)
}

/// The words of loading it once, and one for its register, are no more than those of loading it at each use.
fn is_kept(words: u32, uses: u32) -> bool
    requires { words ≤ 8 }
    ensures { result ≡ is_kept_by words uses }
{
    u64::from(words) + 1 <= u64::from(uses) * u64::from(words)
}

/// How often the first register that the instruction writes is read.
fn uses_of_first(inst: &GInst, counts: &[u32]) -> u32
    ensures { (n : ℕ → ℕ) → AreCounts n counts.now → def_at inst.now 0 < length counts.now → result ≡ min (n (def_at inst.now 0)) 4294967295 }
{
    match inst.defs.get(0) {
        Some(register) => match counts.get(*register as usize) {
            Some(uses) => *uses,
            None => 0,
        },
        None => match counts.get(0) {
            Some(uses) => *uses,
            None => 0,
        },
    }
}

fn push(kept: &mut Vec<bool>, choice: bool) -> Result<(), NoMemory>
    ensures { OnOk result (kept.new.items ≡ kept.old.items ++ choice ∷ []) }
{
    match kept.push(choice) {
        Ok(()) => Ok(()),
        Err(_) => Err(NoMemory),
    }
}

/// Puts the choice for a constant behind the others.
fn choose_inst(kept: &mut Vec<bool>, inst: &GInst, counts: &[u32]) -> Result<(), NoMemory>
    requires { WritesBelow (length counts.now) (inst.now ∷ []) }
    ensures { OnOk result ((n : ℕ → ℕ) → AreCounts n counts.now → kept.new.items ≡ kept.old.items ++ choices n (inst.now ∷ [])) }
{
    if is_constant(inst) {
        let uses = uses_of_first(inst, counts);
        let choice = is_kept(words_of(inst), uses);
        push(kept, choice)
    } else {
        Ok(())
    }
}

/// Puts the choices for the constants of a block behind the others.
fn choose_block(kept: &mut Vec<bool>, insts: &[GInst], counts: &[u32]) -> Result<(), NoMemory>
    requires { WritesBelow (length counts.now) insts.now }
    ensures { OnOk result ((n : ℕ → ℕ) → AreCounts n counts.now → kept.new.items ≡ kept.old.items ++ choices n insts.now) }
{
    for inst in insts {
        choose_inst(kept, inst, counts)?;
    }
    Ok(())
}

/// Which constants of a function stay in a register, one item for each constant in order of text: those for which one load and
/// one word more are no more words than a load at each use. Takes time in the length of the function.
pub fn choose(alloc: Global, function: &GFunction) -> Result<Banks, NoMemory>
    requires { IsFormed function.now }
    ensures { IfOk result (λ banks. banks.kept.items ≡ kept_of function.now) }
{
    let counts = counts_of(alloc, function)?;
    let mut kept = Vec::new(alloc);
    for block in function.blocks.as_slice() {
        choose_block(&mut kept, block.as_slice(), counts.as_slice())?;
    }
    Ok(Banks { kept })
}

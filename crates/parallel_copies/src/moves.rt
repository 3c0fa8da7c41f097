// Copies that are all made at once become moves one after another.
ghost use Rattle.std.specs.List.{Contains};
ghost use Rattle.std.specs.Prelude.{◌≡◌, ℕ, ◌*◌, ◌<◌, ◌≤◌, ◌++◌, ◌∷◌, [], MatchBool, MatchOption, IfOk, OnOk, length, slice_index_or, ◌==◌, if◌then◌else◌};
ghost use Rattle.mir.specs.declared.code.MInst.{MInst};
ghost use Rattle.mir.specs.declared.code.MInst.TheVariants.{Move};
ghost use Rattle.parallel_copies.specs.Moves.{Distinct, Unwritten, MakesCopies, IsMoveOf, Sequences, IsReadBeside, move_for, renamed};

use mir::code::MInst;
use rj_num::NoMemory;
use std::alloc::Global;

/// A copy other than the one at this place reads the register.
fn is_read_beside(copies: &[(u32, u32)], place: usize, register: u32) -> bool
    ensures { MatchBool result (IsReadBeside copies.now place register) (IsReadBeside copies.now place register → ⊥) }
{
    for (k, copy) in copies.iter().enumerate() {
        if k != place && copy.1 == register {
            return true;
        }
    }
    false
}

/// The place of a copy whose register no other copy reads.
fn find_free(copies: &[(u32, u32)]) -> Option<usize>
    ensures { MatchOption result
        ((i : ℕ) → i < length copies.now → IsReadBeside copies.now i (slice_index_or copies.now i (0, 0)).0)
        (λ i. (i < length copies.now) × (IsReadBeside copies.now i (slice_index_or copies.now i (0, 0)).0 → ⊥)) }
{
    for (i, copy) in copies.iter().enumerate() {
        if !is_read_beside(copies, i, copy.0) {
            return Some(i);
        }
    }
    None
}

/// The register that is read in place of this one.
fn read_of(register: u32, from: u32, to: u32) -> u32
    ensures { result ≡ (if register == from then to else register) }
{
    if register == from { to } else { register }
}

/// Reads of one register become reads of another.
fn rename(copies: &mut [(u32, u32)], from: u32, to: u32)
    ensures { copies.new ≡ renamed from to copies.old }
{
    for copy in copies.iter_mut() {
        copy.1 = read_of(copy.1, from, to);
    }
}

fn put_move(moves: &mut Vec<MInst>, to: u32, from: u32) -> Result<(), NoMemory>
    ensures { OnOk result (moves.new.items ≡ moves.old.items ++ Move to from ∷ []) }
{
    match moves.push(MInst::Move(to, from)) {
        Ok(()) => Ok(()),
        Err(_) => Err(NoMemory),
    }
}

/// A move, where the registers differ.
fn put_copy(moves: &mut Vec<MInst>, to: u32, from: u32) -> Result<(), NoMemory>
    ensures { OnOk result (moves.new.items ≡ moves.old.items ++ move_for to from) }
{
    if to == from {
        return Ok(());
    }
    put_move(moves, to, from)
}

/// The moves: first those to registers that no other copy reads, and where there is none one register is kept in the spare one.
fn moves_in_order(
    alloc: Global,
    copies: Vec<(u32, u32)>,
    spare: u32,
) -> Result<Vec<MInst>, NoMemory>
    requires distinct { Distinct copies.items }
    requires spare { Unwritten spare copies.items }
    ensures { IfOk result (λ moves. Sequences spare copies.items moves.items) }
{
    let mut moves = Vec::new(alloc);
    let mut pending = copies;
    while !pending.is_empty() {
        match find_free(pending.as_slice()) {
            Some(place) => {
                let copy = pending.remove(place);
                put_copy(&mut moves, copy.0, copy.1)?;
            }
            None => {
                let copy = pending.remove(0);
                put_move(&mut moves, spare, copy.0)?;
                put_move(&mut moves, copy.0, copy.1)?;
                rename(pending.as_mut_slice(), copy.0, spare);
            }
        }
    }
    Ok(moves)
}

/// Moves one after another that make the copies. Where registers change places in a circle, `spare` holds meanwhile what stood in one of
/// them; however many circles there are, no two need it at once.
pub fn sequence(alloc: Global, copies: Vec<(u32, u32)>, spare: u32) -> Result<Vec<MInst>, NoMemory>
    requires distinct { Distinct copies.items }
    requires spare { Unwritten spare copies.items }
    ensures made { IfOk result (λ moves. MakesCopies spare copies.items moves.items) }
    ensures only { IfOk result (λ moves. (inst : MInst) → Contains moves.items inst → IsMoveOf spare copies.items inst) }
    ensures short { IfOk result (λ moves. length moves.items ≤ 2 * length copies.items) }
{
    let moves = moves_in_order(alloc, copies, spare)?;
    Ok(moves)
}

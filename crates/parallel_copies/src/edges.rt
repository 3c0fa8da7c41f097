// The copies that phis at the head of a block make on an edge.
ghost use Rattle.std.specs.Prelude.{◌≡◌, ℕ, ◌*◌, ◌≤◌, ◌∷◌, [], List, drop, IfOk, OnOk, length};
ghost use Rattle.mir.specs.declared.code.MInst.{MInst};
ghost use Rattle.mir.specs.Code.{writes};
ghost use Rattle.std.specs.List.{Contains};
ghost use Rattle.mir.specs.WellFormed.{is_phi as is_phi_inst};
ghost use Rattle.walks.specs.Registers.{Registers};
ghost use Rattle.mir_play.specs.Play.{on_edge, with_phis};
ghost use Rattle.parallel_copies.specs.Moves.{Distinct, IsMoveOf, at_once, all_moved};
ghost use Rattle.parallel_copies.specs.Edges.{is_written as has_write, with_copy, copies_on, HasOperands, heads};

use crate::moves::sequence;
use mir::code::MInst;
use rj_num::NoMemory;
use std::alloc::Global;

/// The register that a phi with these pairs reads on the edge from a block.
fn register_on_edge(pairs: &[(u32, u32)], from: u32) -> Option<u32>
    ensures { result ≡ on_edge from pairs.now }
{
    for pair in pairs {
        if pair.1 == from {
            return Some(pair.0);
        }
    }
    None
}

/// One of the copies writes the register.
fn is_written(copies: &[(u32, u32)], register: u32) -> bool
    ensures { result ≡ has_write register copies.now }
{
    for copy in copies {
        if copy.0 == register {
            return true;
        }
    }
    false
}

/// Puts a copy behind the others, unless one of these writes its register.
fn put_phi(copies: &mut Vec<(u32, u32)>, register: u32, source: Option<u32>) -> Result<(), NoMemory>
    ensures { OnOk result (copies.new.items ≡ with_copy register source copies.old.items) }
{
    let Some(source) = source else {
        return Ok(());
    };
    if is_written(copies.as_slice(), register) {
        return Ok(());
    }
    match copies.push((register, source)) {
        Ok(()) => Ok(()),
        Err(_) => Err(NoMemory),
    }
}

fn is_phi(inst: &MInst) -> bool
    ensures { result ≡ is_phi_inst inst.now }
{
    match inst {
        MInst::Phi(_, _) => true,
        _ => false,
    }
}

/// How many phis stand at the head of the block.
fn count_phis(insts: &[MInst]) -> usize
    ensures within { result ≤ length insts.now }
    ensures ended { (from : ℕ) → copies_on from (drop result insts.now) ≡ [] }
{
    for (i, inst) in insts.iter().enumerate() {
        if !is_phi(inst) {
            return i;
        }
    }
    insts.len()
}

/// Adds the copy that an instruction at the head of a block makes, where it is a phi.
fn put_inst(copies: &mut Vec<(u32, u32)>, inst: &MInst, from: u32) -> Result<(), NoMemory>
    ensures { OnOk result ((insts : List MInst) → copies.old.items ≡ copies_on from insts → copies.new.items ≡ copies_on from (inst.now ∷ insts)) }
{
    match inst {
        MInst::Phi(register, pairs) => {
            let source = register_on_edge(pairs.as_slice(), from);
            put_phi(copies, *register, source)
        }
        _ => {
            copies.clear();
            Ok(())
        }
    }
}

/// The copies that the phis at the head of a block make on the edge from a block. Where two of them write one register, the last does.
pub fn edge_copies(alloc: Global, insts: &[MInst], from: u32) -> Result<Vec<(u32, u32)>, NoMemory>
    ensures distinct { IfOk result (λ copies. Distinct copies.items) }
    ensures made { IfOk result (λ copies. HasOperands from insts.now → (before : Registers) (x : ℕ)
        → at_once before copies.items x ≡ with_phis from before insts.now before x) }
    ensures are { IfOk result (λ copies. copies.items ≡ copies_on from insts.now) }
{
    let mut copies = Vec::new(alloc);
    let mut left = count_phis(insts);
    while left > 0 {
        left -= 1;
        put_inst(&mut copies, &insts[left], from)?;
    }
    Ok(copies)
}

/// The moves that stand on the edge from a block in place of the phis at the head of this one.
pub fn edge_moves(
    alloc: Global,
    insts: &[MInst],
    from: u32,
    spare: u32,
) -> Result<Vec<MInst>, NoMemory>
    requires spare { (inst : MInst) → Contains insts.now inst → Contains (writes inst) spare → ⊥ }
    ensures made { IfOk result (λ moves. HasOperands from insts.now → (before : Registers) (x : ℕ) → (x ≡ spare → ⊥)
        → all_moved moves.items before x ≡ with_phis from before insts.now before x) }
    ensures only { IfOk result (λ moves. (inst : MInst) → Contains moves.items inst → IsMoveOf spare (copies_on from insts.now) inst) }
    ensures short { IfOk result (λ moves. length moves.items ≤ 2 * heads insts.now) }
{
    let copies = edge_copies(alloc, insts, from)?;
    let moves = sequence(alloc, copies, spare)?;
    Ok(moves)
}

// Moves as worked out by hand.
ghost use Rattle.std.specs.Prelude.{◌≡◌, ◌∷◌, [], IfOk};
ghost use Rattle.mir.specs.declared.code.MInst.TheVariants.{Phi, Jump};
ghost use Rattle.parallel_copies.specs.Moves.{Distinct, Unwritten};

use crate::edges::{edge_copies, edge_moves};
use crate::moves::sequence;
use mir::code::MInst;
use rj_num::NoMemory;
use sqlite_items::Items;
use std::alloc::{AllocError, Global};

fn moves_for(alloc: Global, copies: &[(u32, u32)], spare: u32) -> Result<Vec<MInst>, NoMemory>
    requires distinct { Distinct copies.now }
    requires spare { Unwritten spare copies.now }
{
    match Vec::from_slice(alloc, copies) {
        Ok(copies) => sequence(alloc, copies, spare),
        Err(_) => Err(NoMemory),
    }
}

fn is_move(inst: &MInst, to: u32, from: u32) -> bool {
    match inst {
        MInst::Move(d, s) => *d == to && *s == from,
        _ => false,
    }
}

fn are_moves(insts: &[MInst], moves: &[(u32, u32)]) -> bool {
    if insts.len() != moves.len() {
        return false;
    }
    for (inst, pair) in insts.iter().zip(moves) {
        if !is_move(inst, pair.0, pair.1) {
            return false;
        }
    }
    true
}

#[test]
fn a_chain_goes_from_its_end(rt: HostRuntime) -> Result<(), NoMemory> {
    let moves = moves_for(rt.alloc(), &[(0, 1), (2, 0), (3, 2)], 9)?;
    assert!(rt; are_moves(moves.as_slice(), &[(3, 2), (2, 0), (0, 1)]));
    Ok(())
}

#[test]
fn two_change_places(rt: HostRuntime) -> Result<(), NoMemory> {
    let moves = moves_for(rt.alloc(), &[(0, 1), (1, 0)], 2)?;
    assert!(rt; are_moves(moves.as_slice(), &[(2, 0), (0, 1), (1, 2)]));
    Ok(())
}

#[test]
fn two_circles_share_the_spare_register(rt: HostRuntime) -> Result<(), NoMemory> {
    let moves = moves_for(rt.alloc(), &[(0, 1), (1, 0), (2, 3), (3, 4), (4, 2)], 5)?;
    assert!(rt;
        are_moves(
            moves.as_slice(),
            &[(5, 0), (0, 1), (1, 5), (5, 2), (2, 3), (3, 4), (4, 5)]
        )
    );
    Ok(())
}

#[test]
fn one_is_read_outside_its_circle(rt: HostRuntime) -> Result<(), NoMemory> {
    let moves = moves_for(rt.alloc(), &[(0, 1), (1, 0), (2, 0), (3, 3)], 5)?;
    assert!(rt; are_moves(moves.as_slice(), &[(2, 0), (5, 0), (0, 1), (1, 5)]));
    Ok(())
}

// Two phis that change places in a loop, a third that keeps its value there, and what comes behind.
fn head(alloc: Global) -> Result<Vec<MInst>, AllocError> {
    Ok(vec![in alloc;
        MInst::Phi(0, Items::from_slice(alloc, &[(4, 0), (1, 1)])?),
        MInst::Phi(1, Items::from_slice(alloc, &[(5, 0), (0, 1)])?),
        MInst::Phi(2, Items::from_slice(alloc, &[(6, 0), (2, 1)])?),
        MInst::Move(3, 0),
        MInst::Jump(1),
    ]?)
}

fn have_pairs(copies: &[(u32, u32)], pairs: &[(u32, u32)]) -> bool {
    if copies.len() != pairs.len() {
        return false;
    }
    for (copy, pair) in copies.iter().zip(pairs) {
        if copy.0 != pair.0 || copy.1 != pair.1 {
            return false;
        }
    }
    true
}

#[test]
fn copies_go_by_the_edge(rt: HostRuntime) -> Result<(), NoMemory> {
    let alloc = rt.alloc();
    let Ok(insts) = head(alloc) else {
        return Err(NoMemory);
    };
    let entering = edge_copies(alloc, insts.as_slice(), 0)?;
    assert!(rt; have_pairs(entering.as_slice(), &[(2, 6), (1, 5), (0, 4)]));
    let again = edge_copies(alloc, insts.as_slice(), 1)?;
    assert!(rt; have_pairs(again.as_slice(), &[(2, 2), (1, 0), (0, 1)]));
    Ok(())
}

// Two phis that change places on the edge from block 1.
fn swapping(alloc: Global) -> Result<Vec<MInst>, AllocError>
    ensures { IfOk result (λ insts. insts.items ≡ Phi 0 ((1, 1) ∷ []) ∷ Phi 1 ((0, 1) ∷ []) ∷ Jump 1 ∷ []) }
{
    Ok(vec![in alloc;
        MInst::Phi(0, Items::from_slice(alloc, &[(1, 1)])?),
        MInst::Phi(1, Items::from_slice(alloc, &[(0, 1)])?),
        MInst::Jump(1),
    ]?)
}

fn swapping_moves(alloc: Global) -> Result<Vec<MInst>, NoMemory> {
    match swapping(alloc) {
        Ok(insts) => edge_moves(alloc, insts.as_slice(), 1, 2),
        Err(_) => Err(NoMemory),
    }
}

#[test]
fn phis_change_places(rt: HostRuntime) -> Result<(), NoMemory> {
    let moves = swapping_moves(rt.alloc())?;
    assert!(rt; are_moves(moves.as_slice(), &[(2, 1), (1, 0), (0, 2)]));
    Ok(())
}

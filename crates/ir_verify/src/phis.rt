// The blocks of phis against the edges to their block, and edges to the entry.
ghost use Rattle.std.specs.Prelude.{◌≡◌, ◌<◌, ◌≤◌, ◌^◌, length, map, slice_index_or, Option, Some, None, [], count_by, ◌==◌};
ghost use Rattle.ir_verify.specs.Phis.{same_operand as same_operand_of, agrees as agrees_with, all_agree as all_agree_of, times as times_of, matches_edges as matches_edges_of, is_phi_of as is_phi_of_block, all_phis as all_phis_of, wrong_phis as wrong_phis_of};
ghost use Rattle.ir_flow.specs.Code.{case_blocks, targets, edges, pair_blocks};
ghost use Rattle.ir_verify.specs.Shapes.{jumps_to_entry as jumps_to_entry_of};

use ir_core::code::{Block, Inst, Op, Operand};
use ir_core::program::Function;

fn same_operand(a: &Operand, b: &Operand) -> bool
    ensures { result ≡ same_operand_of a.now b.now }
{
    match (a, b) {
        (Operand::Value(a), Operand::Value(b)) => a == b,
        (Operand::Num(a), Operand::Num(b)) => a == b,
        (Operand::Null, Operand::Null) => true,
        (Operand::Place(a, i), Operand::Place(b, j)) => a == b && i == j,
        (Operand::Poison, Operand::Poison) => true,
        _ => false,
    }
}

/// The block has no other operand among these pairs.
fn agrees(operand: &Operand, block: u32, pairs: &[(Operand, u32)]) -> bool
    ensures { result ≡ agrees_with operand.now block pairs.now }
{
    for (other, from) in pairs {
        if *from == block && !same_operand(operand, other) {
            return false;
        }
    }
    true
}

fn all_agree(pairs: &[(Operand, u32)]) -> bool
    ensures { result ≡ all_agree_of pairs.now }
{
    for i in 0..pairs.len() {
        if !agrees(&pairs[i].0, pairs[i].1, &pairs[i + 1..]) {
            return false;
        }
    }
    true
}

/// How often a number stands in a list.
fn times(n: u32, numbers: &[u32]) -> usize
    ensures { result ≡ times_of n numbers.now }
{
    numbers.iter().filter(|m| **m == n).count()
}

/// How often a block stands among the cases of a switch.
fn cases_to(cases: &[(u128, u32)], to: u32) -> usize
    ensures value { result ≡ times_of to (case_blocks cases.now) }
    ensures few { result ≤ length cases.now }
{
    let mut count = 0;
    for (_, block) in cases {
        if *block == to {
            count += 1;
        }
    }
    count
}

fn targets_to(op: &Op, to: u32) -> u64
    ensures value { result ≡ times_of to (targets op.now) }
{
    match op {
        Op::Br(block) => u64::from(*block == to),
        Op::CondBr(_, if_true, if_false) => u64::from(*if_true == to) + u64::from(*if_false == to),
        Op::Switch(_, _, otherwise, cases) => u64::from(*otherwise == to)
            + cases_to(cases.as_slice(), to) as u64,
        _ => 0,
    }
}

/// How many edges a block has to another.
fn edges_to(block: &Block, to: u32) -> u64
    ensures { result ≡ times_of to (edges block.now) }
{
    match block.insts.as_slice().last() {
        Some(inst) => targets_to(&inst.op, to),
        None => 0,
    }
}

fn pairs_from(pairs: &[(Operand, u32)], from: u32) -> u64
    ensures value { result ≡ times_of from (pair_blocks pairs.now) }
{
    let mut count = 0;
    for (_, block) in pairs {
        if *block == from {
            count += 1;
        }
    }
    count
}

/// Each block stands among the phi's as often as it has edges to the block.
fn matches_edges(pairs: &[(Operand, u32)], to: u32, blocks: &[Block]) -> bool
    requires { length blocks.now < 2 ^ 32 }
    ensures { result ≡ matches_edges_of (pair_blocks pairs.now) to 0 blocks.now }
{
    for i in 0..blocks.len() {
        if pairs_from(pairs, i as u32) != edges_to(&blocks[i], to) {
            return false;
        }
    }
    true
}

fn is_phi_of(blocks: &[Block], to: u32, op: &Op) -> bool
    requires { length blocks.now < 2 ^ 32 }
    ensures { result ≡ is_phi_of_block blocks.now to op.now }
{
    match op {
        Op::Phi(pairs) => matches_edges(pairs.as_slice(), to, blocks)
            && all_agree(pairs.as_slice()),
        _ => true,
    }
}

fn all_phis(blocks: &[Block], to: u32, insts: &[Inst]) -> bool
    requires { length blocks.now < 2 ^ 32 }
    ensures { result ≡ all_phis_of blocks.now to insts.now }
{
    for inst in insts {
        if !is_phi_of(blocks, to, &inst.op) {
            return false;
        }
    }
    true
}

/// The first block with wrong phis.
pub fn wrong_phis(function: &Function) -> Option<u32>
    requires { length function.now.blocks < 2 ^ 32 }
    ensures { result ≡ wrong_phis_of function.now }
{
    let blocks = function.blocks.as_slice();
    for i in 0..blocks.len() {
        if !all_phis(blocks, i as u32, blocks[i].insts.as_slice()) {
            return Some(i as u32);
        }
    }
    None
}

/// The first block that jumps to the entry.
pub fn jumps_to_entry(function: &Function) -> Option<u32>
    requires { length function.now.blocks < 2 ^ 32 }
    ensures { result ≡ jumps_to_entry_of function.now }
{
    let blocks = function.blocks.as_slice();
    for i in 0..blocks.len() {
        if edges_to(&blocks[i], 0) != 0 {
            return Some(i as u32);
        }
    }
    None
}

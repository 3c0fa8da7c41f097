// Phis become moves on edges, block by block.
ghost use Rattle.std.specs.Prelude.{◌≡◌, ℕ, ◌+◌, ◌<◌, ◌≤◌, ◌^◌, ◌++◌, ◌∷◌, [], List, IfOk, OnOk, length, false};
ghost use Rattle.std.specs.List.{Contains};
ghost use Rattle.mir.specs.declared.code.MInst.{MInst};
ghost use Rattle.mir.specs.declared.code.MInst.TheVariants.{Jump};
ghost use Rattle.mir.specs.Code.{block_of, targets};
ghost use Rattle.mir.specs.WellFormed.{IsWellFormed, HasNoPhi, is_phi as is_phi_inst};
ghost use Rattle.mir_play.specs.Play.{behind_phis};
ghost use Rattle.mir_play.specs.Refines.{Refines};
ghost use Rattle.phi_out.specs.Lowered.{IsEdge, Side, IsLowered, edge_cost};
ghost use Rattle.phi_out.specs.Lowering.{some_phi, any_phi, edges_of, edge_count, Grows, HasSides, PutsPiece, PutsPieces, PutsBlocks};

use mir::code::{MFunction, MInst};
use parallel_copies::edges::edge_moves;
use rj_num::NoMemory;
use sqlite_items::Items;
use std::alloc::Global;

/// The instructions of a block, none where there is no such block.
fn block_at(function: &MFunction, block: u32) -> &[MInst]
    ensures { result.now ≡ block_of function.now block }
{
    match function.blocks.get(block as usize) {
        Some(block) => block.as_slice(),
        None => &[],
    }
}

fn is_phi(inst: &MInst) -> bool
    ensures { result ≡ is_phi_inst inst.now }
{
    match inst {
        MInst::Phi(_, _) => true,
        _ => false,
    }
}

/// The instructions behind the phis at the head of a block.
fn behind(insts: &[MInst]) -> &[MInst]
    ensures { result.now ≡ behind_phis insts.now }
{
    for (i, inst) in insts.iter().enumerate() {
        if !is_phi(inst) {
            return &insts[i..];
        }
    }
    &[]
}

/// A phi stands among the instructions.
fn block_has_phi(insts: &[MInst]) -> bool
    ensures { result ≡ some_phi insts.now }
{
    for inst in insts {
        if is_phi(inst) {
            return true;
        }
    }
    false
}

/// A phi stands in the blocks.
fn has_phi(blocks: &[Items<MInst>]) -> bool
    ensures { result ≡ any_phi blocks.now }
{
    for block in blocks {
        if block_has_phi(block.as_slice()) {
            return true;
        }
    }
    false
}

/// The moves on an edge.
fn edge(alloc: Global, function: &MFunction, from: u32, to: u32) -> Result<Vec<MInst>, NoMemory>
    requires formed { IsWellFormed function.now }
    ensures { IfOk result (λ moves. IsEdge function.now from to moves.items) }
{
    let moves = edge_moves(alloc, block_at(function, to), from, function.regs)?;
    Ok(moves)
}

fn copy_list(alloc: Global, registers: &[u32]) -> Result<Items<u32>, NoMemory>
    ensures { IfOk result (λ it. it ≡ registers.now) }
{
    match Items::from_slice(alloc, registers) {
        Ok(copy) => Ok(copy),
        Err(_) => Err(NoMemory),
    }
}

/// A copy of an instruction that is no phi.
fn copy(alloc: Global, inst: &MInst) -> Result<MInst, NoMemory>
    requires no_phi { is_phi_inst inst.now ≡ false }
    ensures { IfOk result (λ it. it ≡ inst.now) }
{
    match inst {
        MInst::Param(register, place) => Ok(MInst::Param(*register, *place)),
        MInst::Op(op, register, a, b) => Ok(MInst::Op(*op, *register, *a, *b)),
        MInst::Imm(op, register, a, number) => Ok(MInst::Imm(*op, *register, *a, *number)),
        MInst::Const(register, number) => Ok(MInst::Const(*register, *number)),
        MInst::Move(register, a) => Ok(MInst::Move(*register, *a)),
        MInst::Load(op, register, a, offset) => Ok(MInst::Load(*op, *register, *a, *offset)),
        MInst::Store(op, register, a, offset) => Ok(MInst::Store(*op, *register, *a, *offset)),
        MInst::Phi(_, _) => unreachable!(),
        MInst::Call(callee, arguments, results) => {
            let arguments = copy_list(alloc, arguments.as_slice())?;
            let results = copy_list(alloc, results.as_slice())?;
            Ok(MInst::Call(*callee, arguments, results))
        }
        MInst::TakeData(register, bytes) => Ok(MInst::TakeData(*register, *bytes)),
        MInst::CopyBytes(to, from, count) => Ok(MInst::CopyBytes(*to, *from, *count)),
        MInst::FillBytes(to, byte, count) => Ok(MInst::FillBytes(*to, *byte, *count)),
        MInst::Branch(op, a, b, then, other) => Ok(MInst::Branch(*op, *a, *b, *then, *other)),
        MInst::Jump(to) => Ok(MInst::Jump(*to)),
        MInst::Return(registers) => {
            let registers = copy_list(alloc, registers.as_slice())?;
            Ok(MInst::Return(registers))
        }
        MInst::Trap => Ok(MInst::Trap),
    }
}

fn put(block: &mut Vec<MInst>, inst: MInst) -> Result<(), NoMemory>
    ensures { OnOk result (block.new.items ≡ block.old.items ++ inst ∷ []) }
{
    match block.push(inst) {
        Ok(()) => Ok(()),
        Err(_) => Err(NoMemory),
    }
}

/// The number of the next block on an edge.
fn next_block(function: &MFunction, edges: &[Items<MInst>]) -> u32
    requires few { length function.now.blocks + length edges.now + 1 < 2 ^ 32 }
    ensures { result ≡ length function.now.blocks + length edges.now }
{
    (function.blocks.len() + edges.len()) as u32
}

/// Puts a block behind the others.
fn put_block(blocks: &mut Vec<Items<MInst>>, insts: Vec<MInst>) -> Result<(), NoMemory>
    ensures { OnOk result (blocks.new.items ≡ blocks.old.items ++ insts.items ∷ []) }
{
    match blocks.push(Items::from_vec(insts)) {
        Ok(()) => Ok(()),
        Err(_) => Err(NoMemory),
    }
}

/// The block behind a side of a branch: its target, or a new block on the edge where moves are needed.
fn side(
    alloc: Global,
    function: &MFunction,
    edges: &mut Vec<Items<MInst>>,
    from: u32,
    to: u32,
) -> Result<u32, NoMemory>
    requires formed { IsWellFormed function.now }
    requires inside { (0 < to) × (to < length function.now.blocks) }
    requires few { length function.now.blocks + length edges.old.items + 1 < 2 ^ 32 }
    ensures side { IfOk result (λ side. Side function.now edges.new.items from to side) }
    ensures grows { OnOk result (Grows function.now edges.old.items edges.new.items 1 (edge_cost function.now to)) }
{
    let mut insts = edge(alloc, function, from, to)?;
    if insts.is_empty() {
        return Ok(to);
    }
    put(&mut insts, MInst::Jump(to))?;
    let block = next_block(function, edges.as_slice());
    put_block(edges, insts)?;
    Ok(block)
}

/// The blocks behind both sides of a branch.
fn sides(
    alloc: Global,
    function: &MFunction,
    edges: &mut Vec<Items<MInst>>,
    from: u32,
    then: u32,
    other: u32,
) -> Result<(u32, u32), NoMemory>
    requires formed { IsWellFormed function.now }
    requires then { (0 < then) × (then < length function.now.blocks) }
    requires other { (0 < other) × (other < length function.now.blocks) }
    requires few { length function.now.blocks + length edges.old.items + 2 < 2 ^ 32 }
    ensures { IfOk result (λ both. HasSides function.now from then other edges.old.items edges.new.items both.0 both.1) }
{
    let first = side(alloc, function, edges, from, then)?;
    if then == other {
        return Ok((first, first));
    }
    let second = side(alloc, function, edges, from, other)?;
    Ok((first, second))
}

/// A jump, behind the moves of its edge.
fn put_jump(
    alloc: Global,
    function: &MFunction,
    block: &mut Vec<MInst>,
    from: u32,
    to: u32,
) -> Result<(), NoMemory>
    requires formed { IsWellFormed function.now }
    ensures { OnOk result ((edges : List (List MInst)) → PutsPiece function.now from (Jump to) edges edges block.old.items block.new.items) }
{
    let mut moves = edge(alloc, function, from, to)?;
    put(&mut moves, MInst::Jump(to))?;
    match block.append(&mut moves) {
        Ok(()) => Ok(()),
        Err(_) => Err(NoMemory),
    }
}

/// What an instruction becomes.
fn put_inst(
    alloc: Global,
    function: &MFunction,
    edges: &mut Vec<Items<MInst>>,
    block: &mut Vec<MInst>,
    from: u32,
    inst: &MInst,
) -> Result<(), NoMemory>
    requires formed { IsWellFormed function.now }
    requires no_phi { is_phi_inst inst.now ≡ false }
    requires inside { (to : ℕ) → Contains (targets inst.now) to → (0 < to) × (to < length function.now.blocks) }
    requires few { length function.now.blocks + length edges.old.items + length (targets inst.now) < 2 ^ 32 }
    ensures { OnOk result (PutsPiece function.now from inst.now edges.old.items edges.new.items block.old.items block.new.items) }
{
    match inst {
        MInst::Jump(to) => put_jump(alloc, function, block, from, *to),
        MInst::Branch(op, a, b, then, other) => {
            let both = sides(alloc, function, edges, from, *then, *other)?;
            put(block, MInst::Branch(*op, *a, *b, both.0, both.1))?;
            Ok(())
        }
        _ => {
            let same = copy(alloc, inst)?;
            put(block, same)?;
            Ok(())
        }
    }
}

/// What the instructions of a block become, without its phis.
fn lower_block(
    alloc: Global,
    function: &MFunction,
    edges: &mut Vec<Items<MInst>>,
    from: u32,
) -> Result<Vec<MInst>, NoMemory>
    requires formed { IsWellFormed function.now }
    requires few { length function.now.blocks + length edges.old.items + edges_of (block_of function.now from) < 2 ^ 32 }
    ensures { IfOk result (λ made. PutsPieces function.now from (behind_phis (block_of function.now from)) edges.old.items edges.new.items made.items) }
{
    let mut block = Vec::new(alloc);
    for inst in behind(block_at(function, from)) {
        put_inst(alloc, function, edges, &mut block, from, inst)?;
    }
    Ok(block)
}

/// The function with moves on edges in place of its phis.
fn lowered(alloc: Global, function: &MFunction) -> Result<MFunction, NoMemory>
    requires formed { IsWellFormed function.now }
    requires regs { function.now.regs + 1 < 2 ^ 32 }
    requires few { length function.now.blocks + edge_count function.now < 2 ^ 32 }
    ensures is { IfOk result (λ g. IsLowered function.now g) }
    ensures blocks { IfOk result (λ g. length g.blocks ≤ length function.now.blocks + edge_count function.now) }
{
    let mut blocks = Vec::new(alloc);
    let mut edges = Vec::new(alloc);
    for from in 0..function.blocks.len() as u32 {
        let block = lower_block(alloc, function, &mut edges, from)?;
        put_block(&mut blocks, block)?;
    }
    match blocks.append(&mut edges) {
        Ok(()) => Ok(MFunction {
            symbol: function.symbol,
            values: function.values,
            end: function.end,
            regs: function.regs + 1,
            blocks: Items::from_vec(blocks),
        }),
        Err(_) => Err(NoMemory),
    }
}

/// The function without phis: on each edge into a block with phis stand moves, one after another, that leave in registers what the phis
/// leave, all at once. The moves of a plain jump stand before it; an edge of a branch that needs moves gets a block of its own, numbered
/// behind those of the function. One more register is used, whatever circles there are; a function without phis stays as it is.
/// Want of memory is the only refusal.
pub fn lower_phis(alloc: Global, function: MFunction) -> Result<MFunction, NoMemory>
    requires formed { IsWellFormed function }
    requires regs { function.regs + 1 < 2 ^ 32 }
    requires few { length function.blocks + edge_count function < 2 ^ 32 }
    ensures refines { IfOk result (λ g. Refines function g) }
    ensures formed { IfOk result (λ g. IsWellFormed g) }
    ensures no_phi { IfOk result (λ g. HasNoPhi g) }
    ensures same { HasNoPhi function → IfOk result (λ g. g ≡ function) }
    ensures regs { IfOk result (λ g. g.regs ≤ function.regs + 1) }
    ensures blocks { IfOk result (λ g. length g.blocks ≤ length function.blocks + edge_count function) }
{
    if !has_phi(function.blocks.as_slice()) {
        return Ok(function);
    }
    let lowered = lowered(alloc, &function)?;
    Ok(lowered)
}

// Edges by the blocks that they lead to.
ghost use Rattle.std.specs.Prelude.{◌≡◌, ◌++◌, ◌<◌, ◌≤◌, ◌^◌, List, [], length, IfOk, OnOk, replicate};
ghost use Rattle.ir_core.specs.declared.program.Function.{Function as FunctionOf};
ghost use Rattle.ir_core.specs.declared.program.Global.{Global as GlobalOf};
ghost use Rattle.ir_translator.specs.Groups.{AreGroups, added};

use ir_translator_emit::edge::Edge;
use ir_translator_emit::lists::push;
use rj_num::NoMemory;
use sqlite_items::Items;
use std::alloc::Global;

/// So many lists without a number.
fn none(alloc: Global, count: usize) -> Result<Vec<Items<u32>>, NoMemory>
    ensures { IfOk result (λ groups. groups.items ≡ replicate count []) }
{
    let mut groups = Vec::new(alloc);
    for _ in 0..count {
        if groups.push(Items::new(alloc)).is_err() {
            return Err(NoMemory);
        }
    }
    Ok(groups)
}

/// Adds a number to the list of a block, where there is one.
fn add(groups: &mut Vec<Items<u32>>, to: u32, place: u32) -> Result<(), NoMemory>
    ensures { OnOk result (groups.new.items ≡ added to place groups.old.items) }
{
    let to = to as usize;
    if to >= groups.len() {
        return Ok(());
    }
    push(&mut groups[to], place)
}

/// The places of the edges to each of so many blocks, in their order. Takes the same time for each edge.
pub fn by_target(alloc: Global, edges: &[Edge], blocks: usize) -> Result<Vec<Items<u32>>, NoMemory>
    requires few { length edges.now < 2 ^ 32 }
    ensures count { IfOk result (λ groups. length groups.items ≡ blocks) }
    ensures groups { IfOk result (λ groups. (globals : List GlobalOf) (function : FunctionOf) → AreGroups globals function edges.now groups.items) }
{
    let mut groups = none(alloc, blocks)?;
    for place in 0..edges.len() {
        let edge = &edges[place];
        add(&mut groups, edge.to, place as u32)?;
    }
    Ok(groups)
}

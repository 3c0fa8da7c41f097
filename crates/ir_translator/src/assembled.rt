// The blocks of the function in generic code: parameters and phis, and the code behind them.
ghost use Rattle.std.specs.Prelude.{◌≡◌, ◌++◌, ◌+◌, ◌<◌, ◌^◌, List, [], ◌∷◌, length, map, slice_index_or, IfOk, OnOk};
ghost use Rattle.ir_core.specs.declared.program.Function.{Function as FunctionOf};
ghost use Rattle.ir_core.specs.declared.program.Global.{Global as GlobalOf};
ghost use Rattle.gmir.specs.declared.code.GOp.TheVariants.{Param, Phi};
ghost use Rattle.generic_code.specs.Literals.{plain};
ghost use Rattle.generic_code.specs.Edges.{Edge as GenericEdge};
ghost use Rattle.generic_code.specs.Whole.{params_code, phis_code};
ghost use Rattle.ir_translator.specs.Groups.{no_edge, picked};

use gmir::code::{GInst, GOp};
use ir_core::code::Inst;
use ir_core::types::Ty;
use ir_translator_emit::edge::Edge;
use ir_translator_emit::lists::{list, push};
use rj_num::NoMemory;
use sqlite_items::Items;
use std::alloc::Global;

/// The parameter at a place.
fn param(alloc: Global, place: u32) -> Result<GInst, NoMemory>
    ensures { IfOk result (λ inst. inst ≡ plain Param (place ∷ []) [] place) }
{
    Ok(GInst {
        op: GOp::Param,
        defs: list(alloc, &[place])?,
        uses: Items::new(alloc),
        num: u128::from(place),
        to: Items::new(alloc),
    })
}

/// Writes the parameters of a function with these types.
pub fn put_params(alloc: Global, insts: &mut Items<GInst>, params: &[Ty]) -> Result<(), NoMemory>
    requires { length params.now < 2 ^ 32 }
    ensures { OnOk result (insts.new ≡ insts.old ++ params_code 0 params.now) }
{
    for place in 0..params.len() {
        let param = param(alloc, place as u32)?;
        push(insts, param)?;
    }
    Ok(())
}

/// The register that a phi, by its place in its block, reads on an edge.
fn read_on(edge: &Edge, place: usize) -> u32
    ensures { result ≡ slice_index_or edge.now.uses place 0 }
{
    match edge.uses.get(place) {
        Some(register) => *register,
        None => 0,
    }
}

/// The same for the edge at a place among these.
fn register_on(edges: &[Edge], edge: u32, place: usize) -> u32
    ensures { result ≡ slice_index_or (slice_index_or edges.now edge no_edge).uses place 0 }
{
    match edges.get(edge as usize) {
        Some(edge) => read_on(edge, place),
        None => 0,
    }
}

/// The block that an edge comes from.
fn block_on(edges: &[Edge], edge: u32) -> u32
    ensures { result ≡ (slice_index_or edges.now edge no_edge).at }
{
    match edges.get(edge as usize) {
        Some(edge) => edge.at,
        None => 0,
    }
}

/// The registers that a phi reads on these edges.
fn registers_on(
    alloc: Global,
    edges: &[Edge],
    places: &[u32],
    place: usize,
) -> Result<Items<u32>, NoMemory>
    ensures { IfOk result (λ uses. uses ≡ map (λ (edge : GenericEdge). slice_index_or edge.uses place 0) (picked edges.now places.now)) }
{
    let mut uses = Items::new(alloc);
    for edge in places {
        push(&mut uses, register_on(edges, *edge, place))?;
    }
    Ok(uses)
}

/// The blocks that these edges come from.
fn blocks_on(alloc: Global, edges: &[Edge], places: &[u32]) -> Result<Items<u32>, NoMemory>
    ensures { IfOk result (λ blocks. blocks ≡ map (λ (edge : GenericEdge). edge.at) (picked edges.now places.now)) }
{
    let mut blocks = Items::new(alloc);
    for edge in places {
        push(&mut blocks, block_on(edges, *edge))?;
    }
    Ok(blocks)
}

/// A phi that gives a value, by its place in its block, whose edges have these places.
fn phi(
    alloc: Global,
    value: u32,
    place: usize,
    edges: &[Edge],
    places: &[u32],
) -> Result<GInst, NoMemory>
    ensures { IfOk result (λ inst. inst ≡ record { op = Phi; defs = value ∷ []; uses = map (λ (edge : GenericEdge). slice_index_or edge.uses place 0) (picked edges.now places.now); num = 0; to = map (λ (edge : GenericEdge). edge.at) (picked edges.now places.now) }) }
{
    Ok(GInst {
        op: GOp::Phi,
        defs: list(alloc, &[value])?,
        uses: registers_on(alloc, edges, places, place)?,
        num: 0,
        to: blocks_on(alloc, edges, places)?,
    })
}

/// Writes the phis of a block, whose edges have these places: each reads a register on each edge.
pub fn put_phis(
    alloc: Global,
    insts: &mut Items<GInst>,
    value: u32,
    phis: &[Inst],
    edges: &[Edge],
    places: &[u32],
) -> Result<(), NoMemory>
    requires { value + length phis.now < 2 ^ 32 }
    ensures { OnOk result ((globals : List GlobalOf) (function : FunctionOf) → insts.new ≡ insts.old ++ phis_code globals function value 0 (picked edges.now places.now) phis.now) }
{
    for place in 0..phis.len() {
        let phi = phi(alloc, value + place as u32, place, edges, places)?;
        push(insts, phi)?;
    }
    Ok(())
}

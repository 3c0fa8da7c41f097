ghost use Rattle.std.specs.Prelude.{◌≡◌, List, ℕ};
ghost use Rattle.ir_types.specs.Walk.{Gives};
ghost use Rattle.ir_functions.specs.Functions.{inst_step, block_step, within, body_names, parameters, body, function, function_step, no_built_in, symbol_step, symbols_of, few_functions, module_with, ModuleAnswer};
ghost use Rattle.ir_resolve.specs.Named.{IsTypesOf};

use crate::locals::{BodyNames, Numbering, ParamList, place_behind, place_of};
use crate::units::units_of;
use ir_core::code::{Block, Inst};
use ir_core::program::{Function, Module, What};
use ir_core::types::Ty;
use ir_instruction_trees::Instruction;
use ir_instructions::built_ins::{NamedBuiltIn, built_in_of};
use ir_instructions::instructions::{operation, result_type};
use ir_resolve::scope::Outer;
use ir_resolve::{Scope, global_names, globals_of, types_of};
use ir_tree::{Parameter, Tree};
use ir_types::{Fault, Named, Step, Table, Target, Types, bytes_of, type_of, walk};
use sqlite_items::Items;
use std::alloc::Global;

/// What is known where the instructions of a function are read.
#[derive(Clone, Copy, Drop)]
pub struct Inside<'a> {
    pub outer: &'a Outer,
    pub table: &'a Table,
    pub ret: Ty,
    /// Whether this is the entry block.
    pub entry: bool,
}

#[derive(Drop)]
pub struct InstList {
    pub all: Items<Inst>,
}

impl<'a> Step<Inside<'a>, Instruction> for InstList {
    ghost steps = { λ body. inst_step body.outer.now.types body.outer.now.symbols body.table.now body.ret body.entry };

    #[tactic(auto, unfolding(crate::specs::Functions::inst_step))]
    fn step(&mut self, body: &Inside<'a>, given: &Instruction) -> Result<(), Fault> {
        let gives = result_type(body.outer, &given.operation)?;
        let op = operation(
            body.outer,
            body.table,
            body.ret,
            body.entry,
            given.aligns.as_slice(),
            &given.operation,
        )?;
        self.all.push(Inst { gives, op })?;
        Ok(())
    }
}

#[derive(Drop)]
pub struct BlockList {
    pub all: Items<Block>,
}

impl<'a> Step<Inside<'a>, ir_tree::Block> for BlockList {
    ghost steps = { λ body. block_step body.outer.now.types body.outer.now.symbols body.table.now body.ret };

    #[tactic(auto, unfolding(crate::specs::Functions::block_step))]
    fn step(&mut self, body: &Inside<'a>, given: &ir_tree::Block) -> Result<(), Fault> {
        let mut insts = InstList {
            all: Items::new(body.outer.alloc),
        };
        let inside = Inside {
            outer: body.outer,
            table: body.table,
            ret: body.ret,
            entry: self.all.is_empty(),
        };
        walk(&mut insts, &inside, given.instructions.as_slice())?;
        self.all.push(Block { insts: insts.all })?;
        Ok(())
    }
}

/// A count that is within its limit.
fn within(what: What, most: u64, count: u64) -> Result<(), Fault>
    ensures { Gives (λ _. tt) result (within what most count) }
{
    if count <= most {
        Ok(())
    } else {
        Err(Fault::Limit(what, count))
    }
}

/// The parameters of a function, which begin its names.
#[tactic(auto, unfolding(crate::specs::Functions::parameters))]
fn parameters(outer: &Outer, given: &[Parameter]) -> Result<ParamList, Fault>
    ensures { Gives (λ params. params) result (parameters outer.now.types given.now) }
{
    within(What::Parameters, 8, given.len() as u64)?;
    let table = Table::new(outer.alloc);
    let mut params = ParamList {
        names: Numbering { table, counter: 0 },
        tys: Items::new(outer.alloc),
    };
    walk(&mut params, outer, given)?;
    Ok(params)
}

/// The names inside a function.
#[tactic(auto, unfolding(crate::specs::Functions::body))]
fn body(
    outer: &Outer,
    table: &Table,
    ret: Ty,
    given: &[ir_tree::Block],
) -> Result<Items<Block>, Fault>
    ensures { Gives (λ blocks. blocks) result (body outer.now.types outer.now.symbols table.now ret given.now) }
{
    let mut blocks = BlockList {
        all: Items::new(outer.alloc),
    };
    walk(
        &mut blocks,
        &Inside {
            outer,
            table,
            ret,
            entry: false,
        },
        given,
    )?;
    Ok(blocks.all)
}

/// The names inside a function, from its parameters on.
#[tactic(auto, unfolding(crate::specs::Functions::body_names))]
fn body_names(
    outer: &Outer,
    names: Numbering,
    values: u32,
    given: &[ir_tree::Block],
) -> Result<BodyNames, Fault>
    ensures { Gives (λ names. names) result (body_names outer.now.types names values given.now) }
{
    let mut all = BodyNames {
        names,
        values,
        blocks: 0,
    };
    walk::<Outer, ir_tree::Block, BodyNames>(&mut all, outer, given)?;
    Ok(all)
}

/// A function.
#[tactic(auto, unfolding(crate::specs::Functions::function))]
fn function(outer: &Outer, given: &ir_tree::Function) -> Result<Function, Fault>
    ensures { Gives (λ function. function) result (function outer.now.types outer.now.symbols given.now) }
{
    let name = bytes_of(outer.alloc, &given.name)?;
    let ret = type_of(outer.alloc, &outer.types, given.ret.as_slice())?;
    let ParamList { names, tys } = parameters(outer, given.parameters.as_slice())?;
    let units = units_of(given.blocks.as_slice())?;
    within(What::Units, 16_384, units)?;
    let count = place_of(tys.len())?;
    let names = body_names(outer, names, count, given.blocks.as_slice())?;
    let blocks = body(outer, &names.names.table, ret, given.blocks.as_slice())?;
    Ok(Function {
        name,
        params: tys,
        ret,
        blocks,
    })
}

#[derive(Drop)]
pub struct FunctionList {
    pub all: Items<Function>,
}

impl Step<Outer, ir_tree::Function> for FunctionList {
    ghost steps = { λ outer. function_step outer.types outer.symbols };

    fn step(&mut self, outer: &Outer, given: &ir_tree::Function) -> Result<(), Fault> {
        let one = function(outer, given)?;
        self.all.push(one)?;
        Ok(())
    }
}

fn no_built_in(left: usize, named: Option<NamedBuiltIn>) -> Result<(), Fault>
    ensures { Gives (λ _. tt) result (no_built_in left named) }
{
    match named {
        Some(_) => Err(Fault::Name(left)),
        None => Ok(()),
    }
}

/// The names of functions so far, and how many there are.
#[derive(Drop)]
pub struct SymbolList {
    pub named: Named,
    pub functions: u32,
}

impl Step<Global, ir_tree::Function> for SymbolList {
    ghost steps = { λ alloc. symbol_step };

    #[tactic(auto, unfolding(crate::specs::Functions::symbol_step))]
    fn step(&mut self, alloc: &Global, given: &ir_tree::Function) -> Result<(), Fault> {
        let bytes = bytes_of(*alloc, &given.name)?;
        no_built_in(given.name.left, built_in_of(bytes.as_slice()))?;
        let target = Target::Function(self.functions);
        if !self.named.define(*alloc, bytes.as_slice(), target)? {
            return Err(Fault::Name(given.name.left));
        }
        self.functions = place_behind(self.functions)?;
        Ok(())
    }
}

/// The names of globals and, behind them, of functions, in order of text.
#[tactic(auto, unfolding(crate::specs::Functions::symbols_of))]
fn symbols_of(
    alloc: Global,
    globals: &[ir_tree::Global],
    functions: &[ir_tree::Function],
) -> Result<Named, Fault>
    ensures { Gives (λ symbols. symbols) result (symbols_of globals.now functions.now) }
{
    let named = global_names(alloc, globals)?;
    let mut all = SymbolList {
        named,
        functions: 0,
    };
    walk(&mut all, &alloc, functions)?;
    Ok(all.named)
}

fn few_functions(count: usize) -> Result<(), Fault>
    ensures { Gives (λ _. tt) result (few_functions count) }
{
    if count <= 1024 {
        Ok(())
    } else {
        Err(Fault::Limit(What::Functions, 1025))
    }
}

/// The module of a tree whose named types are these.
#[tactic(auto, unfolding(crate::specs::Functions::module_with))]
fn module_with(alloc: Global, types: Types, tree: &Tree) -> Result<Module, Fault>
    ensures { Gives (λ module_. module_) result (module_with types tree.now) }
{
    few_functions(tree.functions.len())?;
    let symbols = symbols_of(alloc, tree.globals.as_slice(), tree.functions.as_slice())?;
    let outer = Outer {
        alloc,
        types,
        symbols,
    };
    let scope = Scope {
        alloc,
        types: &outer.types,
        symbols: &outer.symbols,
    };
    let globals = globals_of(&scope, tree.globals.as_slice())?;
    let mut functions = FunctionList {
        all: Items::new(alloc),
    };
    walk(&mut functions, &outer, tree.functions.as_slice())?;
    Ok(Module {
        globals,
        functions: functions.all,
    })
}

#[tactic(auto, using(crate::proofs::TreeShown::known_fail))]
fn known_module(alloc: Global, types: Types, tree: &Tree) -> Result<Module, Fault>
    requires { IsTypesOf tree.now.types types }
    ensures { ModuleAnswer tree.now result }
{
    match module_with(alloc, types, tree) {
        Ok(module) => Ok(module),
        Err(fault) => Err(fault),
    }
}

/// The module of a tree.
#[tactic(auto, using(crate::proofs::TreeShown::types_fail))]
pub fn module_of(alloc: Global, tree: &Tree) -> Result<Module, Fault>
    ensures { ModuleAnswer tree.now result }
{
    match types_of(alloc, tree.types.as_slice()) {
        Ok(types) => known_module(alloc, types, tree),
        Err(fault) => Err(fault),
    }
}

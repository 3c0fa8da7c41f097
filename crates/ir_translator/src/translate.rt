// A function as generic machine code.
ghost use Rattle.std.specs.Prelude.{◌≡◌, ◌+◌, ◌<◌, ◌++◌, Some, length, OnOk, IfOk};
ghost use Rattle.ir_core.specs.declared.program.Function.{Function as FunctionOf};
ghost use Rattle.ir_core.specs.Program.{Program};
ghost use Rattle.ir_meaning.specs.Memory.{data_start};
ghost use Rattle.ir_meaning.specs.Step.{function_at};
ghost use Rattle.gmir.specs.Refines.{RefinesFunction};
ghost use Rattle.legal_code.specs.Legal.{HasWideAddresses};
ghost use Rattle.generic_code.specs.Whole.{translated};
ghost use Rattle.ir_translator_emit.specs.Written.{heads_of as heads_of_function};
ghost use Rattle.ir_translator.specs.Fit.{IsFit};

use crate::blocks::translate_blocks;
use crate::edges::by_target;
use crate::join::join_blocks;
use crate::known::{heads_of, types_of};
use generic_laws::laws::{translated_has_wide_addresses, translated_refines};
use gmir::code::{GFunction, GInst};
use ir_core::program::Function;
use ir_data::addresses::Places;
use ir_data::places::DATA_START;
use ir_translator_emit::operands::PhiOperands;
use ir_translator_emit::translator::Translator;
use ir_verify::checked::Checked;
use rj_num::NoMemory;
use sqlite_items::Items;
use std::alloc::Global;

// Adds blocks behind blocks.
fn add_blocks(blocks: &mut Items<Items<GInst>>, more: Items<Items<GInst>>) -> Result<(), NoMemory>
    ensures { OnOk result (blocks.new ≡ blocks.old ++ more) }
{
    match blocks.append(more) {
        Ok(()) => Ok(()),
        Err(_) => Err(NoMemory),
    }
}

/// The generic code of a function whose phis stand in a table by their blocks, with the number of its symbol and the end of data memory.
pub fn translate_function<'x, 'a>(
    alloc: Global,
    globals: &'x Places<'a>,
    heads: &'x [Items<PhiOperands<'a>>],
    function: &'a Function,
    symbol: u32,
    end: u64,
) -> Result<GFunction, NoMemory>
    requires heads { heads.now ≡ heads_of_function function.now }
    requires fit { IsFit function.now }
    ensures { IfOk result (λ generic. (program : Program) → program.module_.globals ≡ globals.now → data_start + program.room ≡ end → generic ≡ translated program symbol function.now) }
{
    let types = types_of(alloc, function)?;
    let values = types.len() as u32;
    let params = function.params.len() as u32;
    let ret = function.ret;
    let mut translator = Translator::new(alloc, globals, function, heads, types);
    let codes = translate_blocks(
        alloc,
        &mut translator,
        ret,
        params,
        function.blocks.as_slice(),
    )?;
    let parts = translator.into_parts();
    let groups = by_target(alloc, parts.edges.as_slice(), function.blocks.len())?;
    let mut blocks = join_blocks(
        alloc,
        function,
        parts.edges.as_slice(),
        groups.as_slice(),
        codes,
    )?;
    add_blocks(&mut blocks, parts.blocks)?;
    Ok(GFunction {
        symbol,
        values,
        end,
        types: parts.types,
        blocks,
    })
}

/// The generic code of a function of a module that passed the verifier, by its symbol: exactly the definition, which refines the function.
/// Takes time in the length of the function.
///
/// # Errors
/// `NoMemory` only where memory is refused.
pub fn translate(alloc: Global, module: &Checked, symbol: u32) -> Result<GFunction, NoMemory>
    requires { symbol < length «module».now.module_.functions }
    ensures exact { IfOk result (λ generic. (function : FunctionOf) → function_at «module».now symbol ≡ Some function → generic ≡ translated «module».now symbol function) }
    ensures refines { IfOk result (λ generic. (function : FunctionOf) → function_at «module».now symbol ≡ Some function → RefinesFunction «module».now symbol function generic) }
    ensures addresses { IfOk result HasWideAddresses }
{
    translated_refines();
    translated_has_wide_addresses();
    let all = module.module();
    let room = module.room();
    let globals = Places::new(alloc, module)?;
    let function = &all.functions.as_slice()[symbol as usize];
    let heads = heads_of(alloc, function.blocks.as_slice())?;
    translate_function(
        alloc,
        &globals,
        heads.as_slice(),
        function,
        symbol,
        DATA_START + room,
    )
}

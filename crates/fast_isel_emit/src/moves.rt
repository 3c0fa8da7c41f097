// The built-ins that move bytes of data memory, byte by byte in loops.
ghost use Rattle.std.specs.Prelude.{◌≡◌, ◌≤◌, OnOk, true};
ghost use Rattle.ir_meaning.specs.Step.{moves_bytes as moves_bytes_of};
ghost use Rattle.quick_code.specs.Data.{moving_code, moved_code};
ghost use Rattle.code_emit.specs.Written.{put_code};
ghost use Rattle.fast_isel_emit.specs.Operands.{are_arguments};

use crate::operations::put_three;
use code_emit::bytes::{put_copy, put_fill};
use ir_core::code::{BuiltIn, Operand};
use ir_core::types::Ty;
use ir_data::addresses::Places;
use rj_num::NoMemory;
use rv_asm::asm::Asm;
use std::alloc::Global;

/// Whether a built-in moves bytes.
pub fn moves_bytes(which: BuiltIn) -> bool
    ensures { result ≡ moves_bytes_of which }
{
    match which {
        BuiltIn::MemCpy | BuiltIn::MemMove | BuiltIn::MemSet => true,
        BuiltIn::SMax | BuiltIn::SMin | BuiltIn::UMax | BuiltIn::UMin | BuiltIn::Abs => false,
    }
}

// The work of a built-in on what was loaded.
fn put_moving(asm: &mut Asm, alloc: Global, which: BuiltIn) -> Result<(), NoMemory>
    ensures { OnOk result (asm.new ≡ put_code asm.old (moving_code which)) }
{
    match which {
        BuiltIn::MemSet => put_fill(asm, alloc),
        BuiltIn::MemCpy
        | BuiltIn::MemMove
        | BuiltIn::SMax
        | BuiltIn::SMin
        | BuiltIn::UMax
        | BuiltIn::UMin
        | BuiltIn::Abs => put_copy(asm, alloc),
    }
}

/// The first three arguments are loaded, and bytes are moved.
#[tactic(auto, using(code_emit::proofs::Put::code_code))]
pub fn put_moved(
    asm: &mut Asm,
    alloc: Global,
    globals: &Places,
    which: BuiltIn,
    arguments: &[(Ty, Operand)],
    values: u32,
) -> Result<(), NoMemory>
    requires arguments { are_arguments values arguments.now ≡ true }
    requires values { values ≤ 32764 }
    ensures { OnOk result (asm.new ≡ put_code asm.old (moved_code globals.now which arguments.now)) }
{
    if arguments.len() < 3 {
        return Ok(());
    }
    let (to, from, count) = (arguments[0].1, arguments[1].1, arguments[2].1);
    put_three(asm, alloc, globals, to, from, count, values)?;
    put_moving(asm, alloc, which)
}

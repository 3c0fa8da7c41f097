ghost use Rattle.std.specs.Prelude.{◌≡◌, ◌++◌, ◌==◌, [], OnOk, IfOk, codes, decimal, if◌then◌else◌, length};
ghost use Rattle.std.specs.List.{flat_map};
ghost use Rattle.ir_print.specs.Types.{comma, ty_text, memory_text};
ghost use Rattle.ir_print_names.specs.Names.{name_text};
ghost use Rattle.ir_print.specs.Values.{init_text};
ghost use Rattle.ir_print.specs.Modules.{params_text, blocks_text, function_lines, global_line, module_text};

use crate::blocks::blocks;
use crate::types::{comma, memory, ty};
use crate::values::init;
use ir_core::program::{Function, Global, Module};
use ir_core::types::Ty;
use ir_print_names::{Page, name};
use rj_num::NoMemory;
use std::alloc::Global as Alloc;

/// `T %vK`, with a comma before it where it isn't the first.
fn param(page: &mut Page, number: usize, given: Ty) -> Result<(), NoMemory>
    ensures { OnOk result (page.new ≡ page.old ++ (comma number ++ ty_text given ++ codes " %v" ++ decimal number)) }
{
    comma(page, number)?;
    ty(page, given)?;
    page.write(b" %v")?;
    page.number(number as u128)
}

fn params(page: &mut Page, params: &[Ty]) -> Result<(), NoMemory>
    ensures { OnOk result (page.new ≡ page.old ++ params_text 0 params.now) }
{
    for (number, given) in params.iter().enumerate() {
        param(page, number, *given)?;
    }
    Ok(())
}

/// `define T @NAME(T %v0, ..) {`
fn head(page: &mut Page, function: &Function) -> Result<(), NoMemory>
    ensures { OnOk result (page.new ≡ page.old ++ (codes "define " ++ ty_text function.now.ret ++ codes " @" ++ name_text function.now.name ++ codes "(" ++ params_text 0 function.now.params ++ codes ") {\n")) }
{
    page.write(b"define ")?;
    ty(page, function.ret)?;
    page.write(b" @")?;
    name(page, function.name.as_slice())?;
    page.write(b"(")?;
    params(page, function.params.as_slice())?;
    page.write(b") {\n")
}

fn function(page: &mut Page, program: &Module, function: &Function) -> Result<(), NoMemory>
    ensures { OnOk result (page.new ≡ page.old ++ function_lines program.now function.now) }
{
    head(page, function)?;
    blocks(
        page,
        program,
        function.ret,
        function.params.len(),
        function.blocks.as_slice(),
    )?;
    page.write(b"}\n")
}

fn global(page: &mut Page, globals: &[Global], global: &Global) -> Result<(), NoMemory>
    ensures { OnOk result (page.new ≡ page.old ++ global_line globals.now global.now) }
{
    page.write(b"@")?;
    name(page, global.name.as_slice())?;
    page.write(b" = global ")?;
    memory(page, &global.ty)?;
    page.write(b" ")?;
    init(page, globals, &global.init, &global.ty)?;
    page.write(b"\n")
}

fn globals(page: &mut Page, globals: &[Global]) -> Result<(), NoMemory>
    ensures { OnOk result (page.new ≡ page.old ++ flat_map (global_line globals.now) globals.now) }
{
    for one in globals {
        global(page, globals, one)?;
    }
    Ok(())
}

fn functions(page: &mut Page, program: &Module) -> Result<(), NoMemory>
    ensures { OnOk result (page.new ≡ page.old ++ flat_map (function_lines program.now) program.now.functions) }
{
    for one in program.functions.as_slice() {
        function(page, program, one)?;
    }
    Ok(())
}

/// The text of a module: its globals, then its functions.
pub fn print(alloc: Alloc, program: &Module) -> Result<Vec<u8>, NoMemory>
    ensures { IfOk result (λ text. text.items ≡ module_text program.now) }
{
    let mut page = Page::new(alloc);
    globals(&mut page, program.globals.as_slice())?;
    functions(&mut page, program)?;
    Ok(page.into_bytes())
}

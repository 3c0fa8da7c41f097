// What a hart knows of a module: the widths of its functions' results.
ghost use Rattle.std.specs.Prelude.{◌≡◌, ◌≤◌, ◌+◌, ◌++◌, [], ◌∷◌, map, take, length, IfOk, OnOk, OnErr, vec_len};
ghost use Rattle.ir_core.specs.declared.program.Function.{Function};
ghost use Rattle.ir_meaning.specs.Meaning.{meaning, result_width};
ghost use Rattle.hart.specs.Standing.{IsFor};

use crate::hart::Hart;
use ir_core::program::Function;
use ir_core::types::Ty;
use ir_verify::checked::Checked;
use rj_num::NoMemory;
use std::alloc::Global;

impl Hart {
    /// Learns the functions of a module whose data memory is as large as the hart's.
    pub fn widths(&mut self, alloc: Global, all: &Checked) -> Result<(), NoMemory>
        requires { all.now.room ≡ vec_len self.old.bytes }
        ensures known { OnOk result (IsFor (meaning all.now) self.new) }
        ensures refused { OnErr result (self.new ≡ self.old) }
        ensures bytes { self.new.bytes ≡ self.old.bytes }
        ensures control { self.new.control ≡ self.old.control }
    {
        let widths = widths_of(alloc, functions_of(all))?;
        self.know(widths);
        Ok(())
    }

    /// Takes the results' widths of at most 1,024 functions.
    pub(crate) fn know(&mut self, widths: Vec<Option<u32>>)
        requires { length widths.items ≤ 1024 }
        ensures widths { self.new.widths ≡ widths }
        ensures functions { self.new.functions ≡ length widths.items }
        ensures bytes { self.new.bytes ≡ self.old.bytes }
        ensures control { self.new.control ≡ self.old.control }
    {
        self.functions = widths.len() as u32;
        self.widths = widths;
    }
}

// The module's functions, of which there are at most 1,024.
fn functions_of(all: &Checked) -> &[Function]
    ensures value { result.now ≡ all.now.module_.functions }
    ensures few { length result.now ≤ 1024 }
{
    all.module().functions.as_slice()
}

// The widths of the functions' results, in order.
fn widths_of(alloc: Global, functions: &[Function]) -> Result<Vec<Option<u32>>, NoMemory>
    ensures widths { IfOk result (λ widths. widths.items ≡ map (λ (function : Function). result_width function.ret) functions.now) }
    ensures count { IfOk result (λ widths. length widths.items ≡ length functions.now) }
{
    let mut widths = match Vec::with_capacity(alloc, functions.len()) {
        Ok(widths) => widths,
        Err(_) => return Err(NoMemory),
    };
    for function in functions {
        if widths.push(width_of(&function.ret)).is_err() {
            return Err(NoMemory);
        }
    }
    Ok(widths)
}

// The width of a result; none where it is void.
fn width_of(ty: &Ty) -> Option<u32>
    ensures { result ≡ result_width ty.now }
{
    match ty {
        Ty::Void => None,
        Ty::Int(width) => Some(*width),
        Ty::Ptr => Some(64),
    }
}

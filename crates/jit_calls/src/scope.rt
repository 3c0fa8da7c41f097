// What names in a list of calls stand for.
ghost use Rattle.std.specs.Prelude.{◌≡◌, ◌<◌, ◌≤◌, ◌∷◌, map, [], length, IfOk};
ghost use Rattle.jit_calls.specs.Names.{function_name, global_name, function_named, global_named, table_from, place_of};
ghost use Rattle.jit_calls.specs.Line.{named_address};
ghost use Rattle.jit_calls.specs.Scopes.{IsScope};

use ir_core::program::{Function, Global as GlobalItem, Module};
use ir_data::places::address_of;
use ir_types::{Named, Target};
use ir_verify::checked::Checked;
use rj_num::NoMemory;
use std::alloc::Global;

/// A module, with tables of the names of its functions and globals.
#[derive(Drop)]
pub struct Scope<'a> {
    pub all: &'a Module,
    pub functions: Named,
    pub globals: Named,
}

fn place(target: Target) -> u32
    ensures { result ≡ place_of target }
{
    match target {
        Target::Value(place)
        | Target::Block(place)
        | Target::Global(place)
        | Target::Function(place)
        | Target::Type(place) => place,
    }
}

fn define(alloc: Global, table: &mut Named, name: &[u8], place: usize) -> Result<(), NoMemory>
    requires { place < 4294967296 }
    ensures { IfOk result (λ _. table_from place (name.now ∷ []) table.old ≡ table.new) }
{
    match table.define(alloc, name, Target::Function(place as u32)) {
        Ok(_) => Ok(()),
        Err(_) => Err(NoMemory),
    }
}

fn function_names(alloc: Global, functions: &[Function]) -> Result<Named, NoMemory>
    requires { length functions.now ≤ 1024 }
    ensures { IfOk result (λ table. table ≡ table_from 0 (map function_name functions.now) []) }
{
    let mut table = Named::new(alloc);
    for i in 0..functions.len() {
        define(alloc, &mut table, functions[i].name.as_slice(), i)?;
    }
    Ok(table)
}

fn global_names(alloc: Global, globals: &[GlobalItem]) -> Result<Named, NoMemory>
    requires { length globals.now ≤ 4096 }
    ensures { IfOk result (λ table. table ≡ table_from 0 (map global_name globals.now) []) }
{
    let mut table = Named::new(alloc);
    for i in 0..globals.len() {
        define(alloc, &mut table, globals[i].name.as_slice(), i)?;
    }
    Ok(table)
}

impl<'a> Scope<'a> {
    pub fn new(alloc: Global, checked: &'a Checked) -> Result<Scope<'a>, NoMemory>
        ensures { IfOk result (λ scope. IsScope scope × (scope.all.now ≡ checked.now.module_)) }
    {
        let all = checked.module();
        Ok(Scope {
            all,
            functions: function_names(alloc, all.functions.as_slice())?,
            globals: global_names(alloc, all.globals.as_slice())?,
        })
    }

    /// The first function that has the name.
    pub fn function_named(&self, name: &[u8]) -> Option<u32>
        requires { IsScope self.now }
        ensures { result ≡ function_named self.now.all.now.functions name.now }
    {
        self.functions.find(name).map(place)
    }

    /// The first global that has the name.
    fn global_named(&self, name: &[u8]) -> Option<u32>
        requires { IsScope self.now }
        ensures { result ≡ global_named self.now.all.now.globals name.now }
    {
        self.globals.find(name).map(place)
    }

    /// The address of the first global that has the name.
    pub fn named_address(&self, name: &[u8]) -> Option<u128>
        requires { IsScope self.now }
        ensures { result ≡ named_address self.now.all.now.globals name.now }
    {
        match self.global_named(name) {
            Some(global) => Some(u128::from(address_of(self.all, global))),
            None => None,
        }
    }
}

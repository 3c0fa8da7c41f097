// Where the globals of a module stand, each address computed once.
ghost use Rattle.std.specs.Prelude.{◌≡◌, IfOk};
ghost use Rattle.ir_meaning.specs.Image.{address_of as address_of_global, place_address};

use crate::places::{DATA_START, places, taken};
use ir_core::program::Global as GlobalItem;
use ir_verify::checked::Checked;
use rj_num::NoMemory;
use sqlite_items::Items;
use std::alloc::Global;
use std::marker::Model;

/// The globals of a module, with the address of each and the address behind them.
#[derive(Drop)]
pub struct Places<'a> {
    globals: &'a [GlobalItem],
    addresses: Items<u64>,
    end: u64,
}

impl<'a> Model for Places<'a> {
    ghost use Rattle.std.specs.Prelude.{◌≡◌, ◌+◌, List};
    ghost use Rattle.std.specs.Coded.{codes};
    ghost use Rattle.ir_core.specs.declared.program.Global.{Global};
    ghost use Rattle.ir_core.specs.contracts.types.MemTy as mem_ty;
    ghost use Rattle.ir_core.specs.contracts.program.Init as init;
    ghost use Rattle.ir_meaning.specs.Memory.{data_start};
    ghost use Rattle.ir_data.specs.Image.{places_from, taken};

    ghost Value = { List Global };

    ghost coded = { Prim.hlevel (codes, mem_ty.the_row.coded, init.the_row.coded) };

    ghost view = { λ p. p.globals.now };

    ghost invariant = { λ p. (p.addresses ≡ places_from data_start p.globals.now) × (p.end ≡ data_start + taken p.globals.now) };
}

impl<'a> Places<'a> {
    /// The places of a module's globals.
    pub fn new(alloc: Global, module: &'a Checked) -> Result<Places<'a>, NoMemory>
        ensures { IfOk result (λ all. all ≡ «module».now.module_.globals) }
    {
        let globals = module.module().globals.as_slice();
        let addresses = places(alloc, globals).map_err(|_| NoMemory)?;
        Ok(Places {
            globals,
            addresses,
            end: DATA_START + taken(globals),
        })
    }

    // The address of a global; that behind all of them where there is none of this number.
    fn start_of(&self, global: u32) -> u64
        ensures { result ≡ address_of_global self.now global }
    {
        match self.addresses.as_slice().get(global as usize) {
            Some(address) => *address,
            None => self.end,
        }
    }

    /// The address of a global's byte.
    pub fn address(&self, global: u32, offset: u64) -> u64
        ensures { result ≡ place_address self.now global offset }
    {
        self.start_of(global).wrapping_add(offset)
    }
}

ghost use Rattle.std.specs.Prelude.{◌≡◌, []};
ghost use Rattle.ir_types.specs.Walk.{Gives};
ghost use Rattle.ir_types.specs.Names.{is_numbered, bytes_of, number_of, target_of, small_number, named_target, numbered_target, defined, number_defined, bytes_defined};

use crate::fault::Fault;
use crate::number::natural;
use crate::tables::{Named, Numbered, Target};
use ir_text::{Name, Spelling, said};
use sqlite_items::Items;
use std::alloc::Global;

/// What names stand for: those that are numbers, and those that have bytes.
#[derive(Drop)]
pub struct Table {
    pub numbered: Numbered,
    pub named: Named,
}

pub fn is_numbered(spelling: Spelling) -> bool
    ensures { result ≡ is_numbered spelling }
{
    matches!(spelling, Spelling::Numbered)
}

/// The bytes of a name, escapes replaced.
#[tactic(auto, unfolding(crate::specs::Names::bytes_of))]
pub fn bytes_of(alloc: Global, name: &Name) -> Result<Items<u8>, Fault>
    ensures { Gives (λ bytes. bytes) result (bytes_of name.now) }
{
    match said(alloc, name)? {
        Some(bytes) => Ok(bytes),
        None => Err(Fault::Syntax(name.left)),
    }
}

fn small_number(number: Option<u128>) -> Option<u64>
    ensures { result ≡ small_number number }
{
    u64::try_from(number?)
        .ok()
        .filter(|number| *number < 1 << 32)
}

/// The number of a name that is one.
#[tactic(auto, unfolding(crate::specs::Names::number_of))]
pub fn number_of(name: &Name) -> Result<u64, Fault>
    ensures { Gives (λ number. number) result (number_of name.now) }
{
    match small_number(natural(name.bytes.as_slice())) {
        Some(number) => Ok(number),
        None => Err(Fault::Syntax(name.left)),
    }
}

#[tactic(auto, unfolding(crate::specs::Names::numbered_target))]
fn numbered_target(table: &Table, name: &Name) -> Result<Target, Fault>
    ensures { Gives (λ target. target) result (numbered_target table.now name.now) }
{
    let number = number_of(name)?;
    match table.numbered.find(number) {
        Some(target) => Ok(target),
        None => Err(Fault::Name(name.left)),
    }
}

/// What a name stands for by its bytes.
#[tactic(auto, unfolding(crate::specs::Names::named_target))]
pub fn named_target(alloc: Global, named: &Named, name: &Name) -> Result<Target, Fault>
    ensures { Gives (λ target. target) result (named_target named.now name.now) }
{
    let bytes = bytes_of(alloc, name)?;
    match named.find(bytes.as_slice()) {
        Some(target) => Ok(target),
        None => Err(Fault::Name(name.left)),
    }
}

/// What a name stands for.
#[tactic(auto, unfolding(crate::specs::Names::target_of))]
pub fn target_of(alloc: Global, table: &Table, name: &Name) -> Result<Target, Fault>
    ensures { Gives (λ target. target) result (target_of table.now name.now) }
{
    if is_numbered(name.spelling) {
        numbered_target(table, name)
    } else {
        named_target(alloc, &table.named, name)
    }
}

impl Table {
    pub fn new(alloc: Global) -> Table
        ensures { result ≡ record { numbered = []; named = [] } }
    {
        Table {
            numbered: Numbered::new(alloc),
            named: Named::new(alloc),
        }
    }

    #[tactic(auto, unfolding(crate::specs::Names::number_defined))]
    fn define_number(&mut self, name: &Name, target: Target) -> Result<(), Fault>
        ensures { Gives (λ _. self.new) result (number_defined self.old name.now target) }
    {
        let number = number_of(name)?;
        if !self.numbered.define(number, target)? {
            return Err(Fault::Name(name.left));
        }
        Ok(())
    }

    #[tactic(auto, unfolding(crate::specs::Names::bytes_defined))]
    fn define_bytes(&mut self, alloc: Global, name: &Name, target: Target) -> Result<(), Fault>
        ensures { Gives (λ _. self.new) result (bytes_defined self.old name.now target) }
    {
        let bytes = bytes_of(alloc, name)?;
        if !self.named.define(alloc, bytes.as_slice(), target)? {
            return Err(Fault::Name(name.left));
        }
        Ok(())
    }

    /// Adds a name; one that is defined already is refused.
    #[tactic(auto, unfolding(crate::specs::Names::defined))]
    pub fn define(&mut self, alloc: Global, name: &Name, target: Target) -> Result<(), Fault>
        ensures { Gives (λ _. self.new) result (defined self.old name.now target) }
    {
        if is_numbered(name.spelling) {
            self.define_number(name, target)
        } else {
            self.define_bytes(alloc, name, target)
        }
    }
}

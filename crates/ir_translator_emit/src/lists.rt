// Lists whose growth is refused for want of memory alone.
ghost use Rattle.std.specs.Prelude.{◌≡◌, ◌++◌, [], ◌∷◌, OnOk, IfOk};

use rj_num::NoMemory;
use sqlite_items::Items;
use std::alloc::Global;

/// Adds an item at the end.
pub fn push<T: Drop>(items: &mut Items<T>, item: T) -> Result<(), NoMemory>
    ensures { OnOk result (items.new ≡ items.old ++ item ∷ []) }
{
    match items.push(item) {
        Ok(()) => Ok(()),
        Err(_) => Err(NoMemory),
    }
}

/// A list of these numbers.
pub fn list(alloc: Global, items: &[u32]) -> Result<Items<u32>, NoMemory>
    ensures { IfOk result (λ all. all ≡ items.now) }
{
    match Items::from_slice(alloc, items) {
        Ok(all) => Ok(all),
        Err(_) => Err(NoMemory),
    }
}

/// Adds these numbers at the end.
pub fn add_all(items: &mut Items<u32>, more: Items<u32>) -> Result<(), NoMemory>
    ensures { OnOk result (items.new ≡ items.old ++ more) }
{
    match items.append(more) {
        Ok(()) => Ok(()),
        Err(_) => Err(NoMemory),
    }
}

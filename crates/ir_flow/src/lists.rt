// Lists of numbers that are read and written at any place.
ghost use Rattle.std.specs.Prelude.{◌≡◌, [], ◌∷◌, ◌++◌, length, slice_index, slice_set, replicate, IfOk, OnOk};

use rj_num::NoMemory;
use std::alloc::Global;

/// Adds a number to a list.
pub fn push(numbers: &mut Vec<u32>, number: u32) -> Result<(), NoMemory>
    ensures { OnOk result (numbers.new.items ≡ numbers.old.items ++ number ∷ []) }
{
    match numbers.push(number) {
        Ok(()) => Ok(()),
        Err(_) => Err(NoMemory),
    }
}

/// The number at a place, 0 where there is none.
pub fn number_at(numbers: &[u32], at: usize) -> u32
    ensures { result ≡ slice_index numbers.now at }
{
    match numbers.get(at) {
        Some(number) => *number,
        None => 0,
    }
}

/// Writes a number at a place, where there is one.
pub fn put(numbers: &mut Vec<u32>, at: usize, number: u32)
    ensures { numbers.new.items ≡ slice_set numbers.old.items at number }
{
    if at < numbers.len() {
        numbers[at] = number;
    }
}

/// So many times the same number.
pub fn repeated(alloc: Global, number: u32, count: usize) -> Result<Vec<u32>, NoMemory>
    ensures { IfOk result (λ numbers. numbers.items ≡ replicate count number) }
{
    let mut numbers = Vec::new(alloc);
    for _ in 0..count {
        push(&mut numbers, number)?;
    }
    Ok(numbers)
}

/// The same numbers.
pub fn copy_of(alloc: Global, numbers: &[u32]) -> Result<Vec<u32>, NoMemory>
    ensures { IfOk result (λ copy. copy.items ≡ numbers.now) }
{
    let mut copy = Vec::new(alloc);
    for number in numbers {
        push(&mut copy, *number)?;
    }
    Ok(copy)
}

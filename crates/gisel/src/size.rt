// How large a function of generic machine code is.
ghost use Rattle.std.specs.Prelude.{◌≡◌, ◌+◌, ◌^◌, ◌≤◌, ◌<◌, IsTrue, ◌↔◌, IfSome, IfNone};
ghost use Rattle.gisel.specs.Size.{size, sizes, IsSmall};

use gmir::code::{GFunction, GInst};
use sqlite_items::Items;

/// The greatest number of registers, of blocks, and of instructions with their operands that the second tier takes.
const MOST: u64 = 1 << 24;

/// What is left of a number for a block's instructions and operands, or none where they are more.
fn left_behind(insts: &[GInst], most: u64) -> Option<u64>
    ensures left { IfSome result (λ left. left + size insts.now ≡ most) }
    ensures none { IfNone result (most < size insts.now) }
{
    let mut left = most;
    for inst in insts {
        let uses = inst.uses.len() as u64;
        if left <= uses {
            return None;
        }
        left -= uses + 1;
    }
    Some(left)
}

/// Whether blocks have few instructions and operands.
fn are_few(blocks: &[Items<GInst>]) -> bool
    ensures { IsTrue result ↔ (sizes blocks.now ≤ 2 ^ 24) }
{
    let mut left = MOST;
    for insts in blocks {
        match left_behind(insts.as_slice(), left) {
            Some(rest) => left = rest,
            None => return false,
        }
    }
    true
}

/// Whether each stage has numbers for the registers and blocks that it adds.
pub fn is_small(function: &GFunction) -> bool
    ensures { IsTrue result ↔ IsSmall function.now }
{
    function.types.len() as u64 <= MOST
        && function.blocks.len() as u64 <= MOST
        && are_few(function.blocks.as_slice())
}

// The phis at the head of a block, and what stands behind them.
ghost use Rattle.std.specs.Prelude.{◌≡◌, ◌^◌, ◌<◌, ◌≤◌, length, drop};
ghost use Rattle.ir_core.specs.Units.{results};
ghost use Rattle.ir_flow.specs.Code.{is_phi as is_phi_op};
ghost use Rattle.ir_meaning.specs.Step.{phis};

use ir_core::code::{Inst, Op};
use ir_core::types::Ty;

fn is_phi(op: &Op) -> bool
    ensures { result ≡ is_phi_op op.now }
{
    match op {
        Op::Phi(_) => true,
        _ => false,
    }
}

// How many phis stand at the head of a block.
fn phi_count(insts: &[Inst]) -> usize
    ensures value { result ≡ length (phis insts.now) }
    ensures within { result ≤ length insts.now }
{
    let mut count = 0;
    for inst in insts {
        if !is_phi(&inst.op) {
            return count;
        }
        count += 1;
    }
    count
}

/// The phis at the head of a block.
pub fn phis_in(insts: &[Inst]) -> &[Inst]
    ensures { result.now ≡ phis insts.now }
{
    let count = phi_count(insts);
    &insts[..count]
}

/// The instructions behind the phis of a block.
pub fn behind_phis(insts: &[Inst]) -> &[Inst]
    ensures { result.now ≡ drop (length (phis insts.now)) insts.now }
{
    let count = phi_count(insts);
    &insts[count..]
}

/// How many of these instructions have a result.
pub fn results_in(insts: &[Inst]) -> u32
    requires { results insts.now < 2 ^ 32 }
    ensures { result ≡ results insts.now }
{
    let mut count = 0;
    for inst in insts {
        if inst.gives != Ty::Void {
            count += 1;
        }
    }
    count
}

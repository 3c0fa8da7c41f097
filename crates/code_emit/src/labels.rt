// Labels, and jumps and branches to them.
ghost use Rattle.std.specs.Prelude.{◌≡◌, [], ◌∷◌, Some, None, slice_get, OnOk, IfOk};
ghost use Rattle.code_pieces.specs.Items.{Goto, Bind, Test};
ghost use Rattle.code_pieces.specs.Assembly.{put, labelled};

use rj_num::NoMemory;
use rv_asm::asm::Asm;
use rv_asm::item::Label;
use rv_core::instr::BranchOp;
use rv_core::reg::Reg;
use std::alloc::Global;

/// Code without an instruction, with so many labels.
pub fn with_labels(alloc: Global, labels: u32) -> Result<Asm, NoMemory>
    ensures { IfOk result (λ asm. asm ≡ labelled labels) }
{
    let mut asm = Asm::new(alloc)?;
    for _label in 0..labels {
        asm.label(alloc)?;
    }
    Ok(asm)
}

/// Puts a label, which stands nowhere yet.
pub fn put_label(asm: &mut Asm, label: u32)
    requires { slice_get asm.old.bound label ≡ Some None }
    ensures { asm.new ≡ put asm.old (Bind label ∷ []) }
{
    asm.bind(Label { number: label });
}

/// Jumps to a label.
#[tactic(auto, unfolding(code_pieces::specs::Assembly::put))]
pub fn put_goto(asm: &mut Asm, alloc: Global, label: u32) -> Result<(), NoMemory>
    ensures { OnOk result (asm.new ≡ put asm.old (Goto label ∷ [])) }
{
    asm.jump(alloc, Label { number: label })
}

/// Branches to a label where a comparison of two registers holds.
#[tactic(auto, unfolding(code_pieces::specs::Assembly::put))]
pub fn put_test(
    asm: &mut Asm,
    alloc: Global,
    op: BranchOp,
    a: Reg,
    b: Reg,
    label: u32,
) -> Result<(), NoMemory>
    ensures { OnOk result (asm.new ≡ put asm.old (Test op a b label ∷ [])) }
{
    asm.branch(alloc, op, a, b, Label { number: label })
}

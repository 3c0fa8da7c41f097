// Branches that are short, near and far, and constants, as LLVM's assembler writes them.

use rj_num::NoMemory;
use rv_asm::asm::Asm;
use rv_core::instr::{BranchOp, ImmOp, Instr};
use rv_core::reg::Reg;

#[test]
fn a_branch_takes_the_first_form_that_reaches(rt: HostRuntime) -> Result<(), NoMemory> {
    for (between, wanted) in [(1000, 1001), (2000, 2002), (300_000, 300_003)] {
        let mut asm = Asm::new(rt.alloc())?;
        let over = asm.label(rt.alloc())?;
        asm.branch(rt.alloc(), BranchOp::Beq, Reg::A0, Reg::A1, over)?;
        for _ in 0..between {
            asm.push(rt.alloc(), Instr::Imm(ImmOp::Addi, Reg::X0, Reg::X0, 0))?;
        }
        assert!(rt; asm.is_free(over));
        asm.bind(over);
        let words = asm.finish(rt.alloc())?;
        assert_eq!(rt; words.len(), wanted);
    }
    Ok(())
}

#[test]
fn words_of_a_loop(rt: HostRuntime) -> Result<(), NoMemory> {
    let mut asm = Asm::new(rt.alloc())?;
    let again = asm.label(rt.alloc())?;
    let out = asm.label(rt.alloc())?;
    asm.load_const(rt.alloc(), Reg::T0, 0x1234_5678_9abc_def1)?;
    assert!(rt; asm.is_free(again));
    asm.bind(again);
    asm.branch(rt.alloc(), BranchOp::Beq, Reg::T0, Reg::X0, out)?;
    asm.push(rt.alloc(), Instr::Imm(ImmOp::Addi, Reg::T0, Reg::T0, -1))?;
    asm.jump(rt.alloc(), again)?;
    assert!(rt; asm.is_free(out));
    asm.bind(out);
    let words = asm.finish(rt.alloc())?;
    let wanted = [
        0x012342b7, 0x5682829b, 0x00c29293, 0x89b28293, 0x00c29293, 0xbce28293, 0x00c29293,
        0xef128293, 0x00028663, 0xfff28293, 0xff9ff06f,
    ];
    assert!(rt; words.as_slice() == wanted.as_slice());
    Ok(())
}

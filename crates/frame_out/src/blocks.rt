// The code of blocks, each behind its label.
ghost use Rattle.std.specs.Prelude.{◌≡◌, ℕ, ◌+◌, ◌^◌, ◌<◌, ◌∷◌, Some, None, length, slice_get, OnOk};
ghost use Rattle.mir.specs.declared.code.MInst.{MInst as Inst};
ghost use Rattle.mir.specs.Code.{inst_at, block_of};
ghost use Rattle.code_pieces.specs.Items.{Bind};
ghost use Rattle.code_pieces.specs.Assembly.{put};
ghost use Rattle.frame_code.specs.Code.{insts_items, blocks_items};
ghost use Rattle.frame_out.specs.Ready.{IsReady, AreFree};

use crate::placed::Placed;
use code_emit::labels::put_label;
use mir::code::MInst;
use rj_num::NoMemory;
use rv_asm::asm::Asm;
use std::alloc::Global;

impl Placed<'_> {
    // The instructions of a block.
    fn put_insts(
        &self,
        asm: &mut Asm,
        alloc: Global,
        block: u32,
        insts: &[MInst],
    ) -> Result<(), NoMemory>
        requires block { block + 1 < 2 ^ 32 }
        requires ready { (place : ℕ) (inst : Inst) → slice_get insts.now place ≡ Some inst → IsReady self.now.places.now inst }
        ensures { OnOk result (asm.new ≡ put asm.old (insts_items self.now.function.now self.now.places.now block insts.now)) }
    {
        for inst in insts {
            self.put_inst(asm, alloc, block, inst)?;
        }
        Ok(())
    }

    // A block behind its label.
    fn put_block(&self, asm: &mut Asm, alloc: Global, block: u32) -> Result<(), NoMemory>
        requires block { block < length self.now.function.now.blocks }
        requires last { block + 1 < 2 ^ 32 }
        requires free { slice_get asm.old.bound block ≡ Some None }
        requires ready { (b place : ℕ) (inst : Inst) → inst_at self.now.function.now b place ≡ Some inst → IsReady self.now.places.now inst }
        ensures { OnOk result (asm.new ≡ put asm.old (Bind block ∷ insts_items self.now.function.now self.now.places.now block (block_of self.now.function.now block))) }
    {
        let insts = self.function.blocks.as_slice()[block as usize].as_slice();
        put_label(asm, block);
        self.put_insts(asm, alloc, block, insts)?;
        Ok(())
    }

    /// The code of all blocks, of which there are so many.
    pub fn put_blocks(&self, asm: &mut Asm, alloc: Global, count: u32) -> Result<(), NoMemory>
        requires count { count ≡ length self.now.function.now.blocks }
        requires free { AreFree count 0 asm.old }
        requires ready { (b place : ℕ) (inst : Inst) → inst_at self.now.function.now b place ≡ Some inst → IsReady self.now.places.now inst }
        ensures { OnOk result (asm.new ≡ put asm.old (blocks_items self.now.function.now self.now.places.now 0 self.now.function.now.blocks)) }
    {
        for block in 0..count {
            self.put_block(asm, alloc, block)?;
        }
        Ok(())
    }
}

// The instruction that a code word spells.
ghost use Rattle.std.specs.Prelude.{◌≡◌, IfSome};
ghost use Rattle.rv_core.specs.Instr.{IsValid};
ghost use Rattle.rv_encode.specs.Reading.{instr_of};

use rv_core::instr::Instr;
use rv_encode::decode::decode;

/// The instruction that a word spells, if there is one.
#[inline(always)]
pub fn instr_at(word: u32) -> Option<Instr>
    ensures value { result ≡ instr_of word }
    ensures valid { IfSome result IsValid }
{
    decode(word)
}

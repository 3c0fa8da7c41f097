// What an instruction reads and writes, and where it goes.
ghost use Rattle.std.specs.Prelude.{◌≡◌, [], ◌∷◌, ◌++◌, map, OnOk};
ghost use Rattle.mir.specs.Code.{reads, writes, targets};

use crate::code::MInst;
use rj_num::NoMemory;

fn put(list: &mut Vec<u32>, number: u32) -> Result<(), NoMemory>
    ensures { OnOk result (list.new.items ≡ list.old.items ++ number ∷ []) }
{
    match list.push(number) {
        Ok(()) => Ok(()),
        Err(_) => Err(NoMemory),
    }
}

fn put_two(list: &mut Vec<u32>, first: u32, second: u32) -> Result<(), NoMemory>
    ensures { OnOk result (list.new.items ≡ list.old.items ++ first ∷ second ∷ []) }
{
    put(list, first)?;
    put(list, second)
}

fn put_three(list: &mut Vec<u32>, first: u32, second: u32, third: u32) -> Result<(), NoMemory>
    ensures { OnOk result (list.new.items ≡ list.old.items ++ first ∷ second ∷ third ∷ []) }
{
    put(list, first)?;
    put_two(list, second, third)
}

fn put_all(list: &mut Vec<u32>, numbers: &[u32]) -> Result<(), NoMemory>
    ensures { OnOk result (list.new.items ≡ list.old.items ++ numbers.now) }
{
    match list.extend_from_slice(numbers) {
        Ok(()) => Ok(()),
        Err(_) => Err(NoMemory),
    }
}

fn put_firsts(list: &mut Vec<u32>, pairs: &[(u32, u32)]) -> Result<(), NoMemory>
    ensures { OnOk result (list.new.items ≡ list.old.items ++ map (λ pair. pair.0) pairs.now) }
{
    for pair in pairs {
        put(list, pair.0)?;
    }
    Ok(())
}

/// Puts the registers that the instruction reads behind the list.
pub fn put_reads(list: &mut Vec<u32>, inst: &MInst) -> Result<(), NoMemory>
    ensures { OnOk result (list.new.items ≡ list.old.items ++ reads inst.now) }
{
    match inst {
        MInst::Op(_, _, a, b) => put_two(list, *a, *b),
        MInst::Imm(_, _, a, _) => put(list, *a),
        MInst::Move(_, a) => put(list, *a),
        MInst::Load(_, _, a, _) => put(list, *a),
        MInst::Store(_, a, b, _) => put_two(list, *a, *b),
        MInst::Phi(_, pairs) => put_firsts(list, pairs.as_slice()),
        MInst::Call(_, arguments, _) => put_all(list, arguments.as_slice()),
        MInst::CopyBytes(a, b, n) => put_three(list, *a, *b, *n),
        MInst::FillBytes(a, b, n) => put_three(list, *a, *b, *n),
        MInst::Branch(_, a, b, _, _) => put_two(list, *a, *b),
        MInst::Return(results) => put_all(list, results.as_slice()),
        MInst::Param(_, _) => Ok(()),
        MInst::Const(_, _) => Ok(()),
        MInst::TakeData(_, _) => Ok(()),
        MInst::Jump(_) => Ok(()),
        MInst::Trap => Ok(()),
    }
}

/// Puts the registers that the instruction writes behind the list.
pub fn put_writes(list: &mut Vec<u32>, inst: &MInst) -> Result<(), NoMemory>
    ensures { OnOk result (list.new.items ≡ list.old.items ++ writes inst.now) }
{
    match inst {
        MInst::Param(d, _) => put(list, *d),
        MInst::Op(_, d, _, _) => put(list, *d),
        MInst::Imm(_, d, _, _) => put(list, *d),
        MInst::Const(d, _) => put(list, *d),
        MInst::Move(d, _) => put(list, *d),
        MInst::Load(_, d, _, _) => put(list, *d),
        MInst::Phi(d, _) => put(list, *d),
        MInst::Call(_, _, results) => put_all(list, results.as_slice()),
        MInst::TakeData(d, _) => put(list, *d),
        MInst::Store(_, _, _, _) => Ok(()),
        MInst::CopyBytes(_, _, _) => Ok(()),
        MInst::FillBytes(_, _, _) => Ok(()),
        MInst::Branch(_, _, _, _, _) => Ok(()),
        MInst::Jump(_) => Ok(()),
        MInst::Return(_) => Ok(()),
        MInst::Trap => Ok(()),
    }
}

/// Puts the blocks that the instruction goes to behind the list.
pub fn put_targets(list: &mut Vec<u32>, inst: &MInst) -> Result<(), NoMemory>
    ensures { OnOk result (list.new.items ≡ list.old.items ++ targets inst.now) }
{
    match inst {
        MInst::Branch(_, _, _, to, other) => put_two(list, *to, *other),
        MInst::Jump(to) => put(list, *to),
        _ => Ok(()),
    }
}

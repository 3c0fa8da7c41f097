// Where registers of target code stand, and how they are brought into registers of the machine and back.
ghost use Rattle.std.specs.Prelude.{◌≡◌, ◌+◌, ◌*◌, ◌^◌, ◌≤◌, ◌∷◌, Some, OnOk};
ghost use Rattle.mir.specs.Places.{place_of};
ghost use Rattle.rv_core.specs.Instr.{IsImmediate, IsValid, Fits12};
ghost use Rattle.rv_core.specs.declared.reg.Reg.TheVariants.{T0};
ghost use Rattle.frame_code.specs.Frame.{saved_reg};
ghost use Rattle.frame_code.specs.Code.{held_in, fetch as fetch_code, keep as keep_code, load_place, store_place, op_code, imm_code, number_code, move_code, load_code, store_code, bytes_code};
ghost use Rattle.code_emit.specs.Written.{put_code};
ghost use Rattle.frame_out.specs.Ready.{IsNear};

use code_emit::pieces::{put_const, put_instr, put_load_at, put_store_at};
use mir::places::{Place, Places};
use rj_num::NoMemory;
use rv_asm::asm::Asm;
use rv_core::instr::{ImmOp, Instr, LoadOp, RegOp, StoreOp};
use rv_core::reg::Reg;
use std::alloc::Global;

/// s0 to s10, by their numbers.
pub fn saved_register(number: u32) -> Reg
    ensures { result ≡ saved_reg number }
{
    match number {
        0 => Reg::S0,
        1 => Reg::S1,
        2 => Reg::S2,
        3 => Reg::S3,
        4 => Reg::S4,
        5 => Reg::S5,
        6 => Reg::S6,
        7 => Reg::S7,
        8 => Reg::S8,
        9 => Reg::S9,
        10 => Reg::S10,
        _ => Reg::X0,
    }
}

/// The place of a register, where it has one.
pub fn place_at(places: &Places, register: u32) -> Option<Place>
    ensures { result ≡ place_of places.now register }
{
    match places.at.get(register as usize) {
        Some(place) => *place,
        None => None,
    }
}

/// The register of what stands at a place: its own, or the spare one for a slot.
pub fn register_of(spare: Reg, place: Option<Place>) -> Reg
    ensures { result ≡ held_in spare place }
{
    match place {
        Some(Place::Saved(number)) => saved_register(number),
        Some(Place::Slot(_)) => spare,
        None => Reg::X0,
    }
}

/// Brings what stands in a slot into the spare register.
#[tactic(auto, using(code_emit::proofs::Put::code_none))]
pub fn put_fetch(
    asm: &mut Asm,
    alloc: Global,
    spare: Reg,
    place: Option<Place>,
) -> Result<(), NoMemory>
    requires { IsNear place }
    ensures { OnOk result (asm.new ≡ put_code asm.old (fetch_code spare place)) }
{
    match place {
        Some(Place::Slot(slot)) => put_load_at(asm, alloc, spare, 8 * slot),
        Some(Place::Saved(_)) | None => Ok(()),
    }
}

/// Puts what is in the spare register into a slot.
#[tactic(auto, using(code_emit::proofs::Put::code_none))]
pub fn put_keep(
    asm: &mut Asm,
    alloc: Global,
    spare: Reg,
    place: Option<Place>,
) -> Result<(), NoMemory>
    requires { IsNear place }
    ensures { OnOk result (asm.new ≡ put_code asm.old (keep_code spare place)) }
{
    match place {
        Some(Place::Slot(slot)) => put_store_at(asm, alloc, spare, 8 * slot),
        Some(Place::Saved(_)) | None => Ok(()),
    }
}

/// What stands at a place goes to a register.
#[tactic(auto, using(code_emit::proofs::Put::code_none))]
pub fn put_load_place(
    asm: &mut Asm,
    alloc: Global,
    register: Reg,
    place: Option<Place>,
) -> Result<(), NoMemory>
    requires { IsNear place }
    ensures { OnOk result (asm.new ≡ put_code asm.old (load_place register place)) }
{
    match place {
        Some(Place::Slot(slot)) => put_load_at(asm, alloc, register, 8 * slot),
        Some(Place::Saved(number)) => put_instr(
            asm,
            alloc,
            Instr::Imm(ImmOp::Addi, register, saved_register(number), 0),
        ),
        None => Ok(()),
    }
}

/// What a register has goes to a place.
#[tactic(auto, using(code_emit::proofs::Put::code_none))]
pub fn put_store_place(
    asm: &mut Asm,
    alloc: Global,
    register: Reg,
    place: Option<Place>,
) -> Result<(), NoMemory>
    requires { IsNear place }
    ensures { OnOk result (asm.new ≡ put_code asm.old (store_place register place)) }
{
    match place {
        Some(Place::Slot(slot)) => put_store_at(asm, alloc, register, 8 * slot),
        Some(Place::Saved(number)) => put_instr(
            asm,
            alloc,
            Instr::Imm(ImmOp::Addi, saved_register(number), register, 0),
        ),
        None => Ok(()),
    }
}

// An instruction that works on registers, and its result to its place.
#[tactic(auto, using(code_emit::proofs::Put::code_code))]
fn put_kept(asm: &mut Asm, alloc: Global, instr: Instr, to: Option<Place>) -> Result<(), NoMemory>
    requires valid { IsValid instr }
    requires to { IsNear to }
    ensures { OnOk result (asm.new ≡ put_code asm.old (instr ∷ keep_code T0 to)) }
{
    put_instr(asm, alloc, instr)?;
    put_keep(asm, alloc, Reg::T0, to)
}

/// An operation on what stands at two places.
#[tactic(auto, using(code_emit::proofs::Put::code_code))]
pub fn put_op(
    asm: &mut Asm,
    alloc: Global,
    op: RegOp,
    to: Option<Place>,
    a: Option<Place>,
    b: Option<Place>,
) -> Result<(), NoMemory>
    requires to { IsNear to }
    requires a { IsNear a }
    requires b { IsNear b }
    ensures { OnOk result (asm.new ≡ put_code asm.old (op_code op to a b)) }
{
    let instr = Instr::Op(
        op,
        register_of(Reg::T0, to),
        register_of(Reg::T0, a),
        register_of(Reg::T1, b),
    );
    put_fetch(asm, alloc, Reg::T0, a)?;
    put_fetch(asm, alloc, Reg::T1, b)?;
    put_kept(asm, alloc, instr, to)
}

/// An operation on what stands at a place and an immediate.
#[tactic(auto, using(code_emit::proofs::Put::code_code))]
pub fn put_imm(
    asm: &mut Asm,
    alloc: Global,
    op: ImmOp,
    to: Option<Place>,
    a: Option<Place>,
    immediate: i32,
) -> Result<(), NoMemory>
    requires to { IsNear to }
    requires a { IsNear a }
    requires immediate { IsImmediate op immediate }
    ensures { OnOk result (asm.new ≡ put_code asm.old (imm_code op to a immediate)) }
{
    let instr = Instr::Imm(
        op,
        register_of(Reg::T0, to),
        register_of(Reg::T0, a),
        immediate,
    );
    put_fetch(asm, alloc, Reg::T0, a)?;
    put_kept(asm, alloc, instr, to)?;
    Ok(())
}

/// A number.
#[tactic(auto, using(code_emit::proofs::Put::code_code))]
pub fn put_number(
    asm: &mut Asm,
    alloc: Global,
    to: Option<Place>,
    number: u64,
) -> Result<(), NoMemory>
    requires { IsNear to }
    ensures { OnOk result (asm.new ≡ put_code asm.old (number_code to number)) }
{
    put_const(asm, alloc, register_of(Reg::T0, to), number)?;
    put_keep(asm, alloc, Reg::T0, to)
}

/// A move from one place to another.
#[tactic(auto, using(code_emit::proofs::Put::code_code, code_emit::proofs::Put::code_none))]
pub fn put_move(
    asm: &mut Asm,
    alloc: Global,
    to: Option<Place>,
    a: Option<Place>,
) -> Result<(), NoMemory>
    requires to { IsNear to }
    requires a { IsNear a }
    ensures { OnOk result (asm.new ≡ put_code asm.old (move_code to a)) }
{
    match to {
        Some(Place::Slot(slot)) => put_move_down(asm, alloc, slot, a),
        Some(Place::Saved(number)) => put_load_place(asm, alloc, saved_register(number), a),
        None => Ok(()),
    }
}

// A move into a slot.
#[tactic(auto, using(code_emit::proofs::Put::code_code))]
fn put_move_down(asm: &mut Asm, alloc: Global, slot: u32, a: Option<Place>) -> Result<(), NoMemory>
    requires slot { 8 * slot + 8 ≤ 2 ^ 20 }
    requires a { IsNear a }
    ensures { OnOk result (asm.new ≡ put_code asm.old (move_code (Some (Place.Slot slot)) a)) }
{
    put_fetch(asm, alloc, Reg::T0, a)?;
    put_store_at(asm, alloc, register_of(Reg::T0, a), 8 * slot)
}

/// A load from the address that stands at a place, and an offset.
#[tactic(auto, using(code_emit::proofs::Put::code_code))]
pub fn put_load(
    asm: &mut Asm,
    alloc: Global,
    op: LoadOp,
    to: Option<Place>,
    a: Option<Place>,
    offset: i32,
) -> Result<(), NoMemory>
    requires to { IsNear to }
    requires a { IsNear a }
    requires offset { Fits12 offset }
    ensures { OnOk result (asm.new ≡ put_code asm.old (load_code op to a offset)) }
{
    let instr = Instr::Load(
        op,
        register_of(Reg::T0, to),
        register_of(Reg::T0, a),
        offset,
    );
    put_fetch(asm, alloc, Reg::T0, a)?;
    put_kept(asm, alloc, instr, to)
}

/// A store of what stands at one place to the address at another, and an offset.
#[tactic(auto, using(code_emit::proofs::Put::code_code))]
pub fn put_store(
    asm: &mut Asm,
    alloc: Global,
    op: StoreOp,
    a: Option<Place>,
    b: Option<Place>,
    offset: i32,
) -> Result<(), NoMemory>
    requires a { IsNear a }
    requires b { IsNear b }
    requires offset { Fits12 offset }
    ensures { OnOk result (asm.new ≡ put_code asm.old (store_code op a b offset)) }
{
    let instr = Instr::Store(op, register_of(Reg::T0, a), register_of(Reg::T1, b), offset);
    put_fetch(asm, alloc, Reg::T0, a)?;
    put_fetch(asm, alloc, Reg::T1, b)?;
    put_instr(asm, alloc, instr)?;
    Ok(())
}

/// Two addresses, or an address and a byte, and how many, in t0 to t2.
#[tactic(auto, using(code_emit::proofs::Put::code_code))]
pub fn put_bytes(
    asm: &mut Asm,
    alloc: Global,
    a: Option<Place>,
    b: Option<Place>,
    count: Option<Place>,
) -> Result<(), NoMemory>
    requires a { IsNear a }
    requires b { IsNear b }
    requires count { IsNear count }
    ensures { OnOk result (asm.new ≡ put_code asm.old (bytes_code a b count)) }
{
    put_load_place(asm, alloc, Reg::T0, a)?;
    put_load_place(asm, alloc, Reg::T1, b)?;
    put_load_place(asm, alloc, Reg::T2, count)
}

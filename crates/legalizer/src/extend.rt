// How operands are extended.
ghost use Rattle.std.specs.Prelude.{◌≡◌, if◌then◌else◌};
ghost use Rattle.legal_code.specs.Legal.{Anything, Zeros, Signs, above, by_type as by_type_of, extension as extension_at};
ghost use Rattle.legalizer.specs.Extends.{extension_of, above_of, IsNarrow, IsNarrowType, AreNarrow};

use crate::operands::type_of;
use gmir::code::{GInst, GOp, GType};

/// What is asked of the bits above an operand's width.
#[derive(Clone, Copy, Drop)]
pub enum Asked {
    Anything,
    Zeros,
    Signs,
}

/// How an operand is extended, and from which width.
#[derive(Clone, Copy, Drop)]
pub enum Extended {
    Kept,
    ByZeros(u32),
    BySigns(u32),
}

fn zeros_where(is_asked: bool) -> Asked
    ensures { above_of result ≡ (if is_asked then Zeros else Anything) }
{
    if is_asked {
        Asked::Zeros
    } else {
        Asked::Anything
    }
}

fn zeros_or_signs(has_zeros: bool) -> Asked
    ensures { above_of result ≡ (if has_zeros then Zeros else Signs) }
{
    if has_zeros {
        Asked::Zeros
    } else {
        Asked::Signs
    }
}

/// What the meaning of an operation asks of the bits above the operand at a place.
fn asked_of(op: GOp, num: u128, place: usize) -> Asked
    ensures { above_of result ≡ above op num place }
{
    match op {
        GOp::UDiv => Asked::Zeros,
        GOp::URem => Asked::Zeros,
        GOp::SDiv => Asked::Signs,
        GOp::SRem => Asked::Signs,
        GOp::Shl => zeros_where(place == 1),
        GOp::LShr => Asked::Zeros,
        GOp::AShr => zeros_or_signs(place == 1),
        GOp::Icmp => zeros_or_signs(2 <= num && num <= 5),
        GOp::CopyBytes => zeros_where(place == 2),
        GOp::FillBytes => zeros_where(place == 2),
        _ => Asked::Anything,
    }
}

/// How an operand of a type is extended for it.
fn by_type(asked: Asked, ty: GType) -> Extended
    requires { IsNarrowType ty }
    ensures is { extension_of result ≡ by_type_of (above_of asked) ty }
    ensures narrow { IsNarrow result }
{
    match ty {
        GType::P0 => Extended::Kept,
        GType::S(width) => {
            if width == 64 {
                Extended::Kept
            } else {
                match asked {
                    Asked::Anything => Extended::Kept,
                    Asked::Zeros => Extended::ByZeros(width),
                    Asked::Signs => Extended::BySigns(width),
                }
            }
        }
    }
}

/// How the instruction's operand at a place is extended.
pub fn extension(types: &[GType], inst: &GInst, place: usize, register: u32) -> Extended
    requires { AreNarrow types.now }
    ensures is { extension_of result ≡ extension_at types.now inst.now.op inst.now.num place register }
    ensures narrow { IsNarrow result }
{
    by_type(asked_of(inst.op, inst.num, place), type_of(types, register))
}

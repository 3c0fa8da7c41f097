//! When two types of memory are the same.
ghost use Rattle.std.specs.Prelude.{◌≡◌};
ghost use Rattle.ir_resolve.specs.Same.{same_type, all_same};

use ir_core::types::MemTy;

/// Two types of memory of at most this depth are the same.
#[cycle(same)]
#[tactic(auto, unfolding(crate::specs::Same::same_type))]
pub fn same_type(depth: u64, a: &MemTy, b: &MemTy) -> bool
    ensures { result ≡ same_type depth a.now b.now }
{
    if depth == 0 {
        return false;
    }
    match a {
        MemTy::Int(width) => match b {
            MemTy::Int(other) => width == other,
            _ => false,
        },
        MemTy::Ptr => matches!(b, MemTy::Ptr),
        MemTy::Array(count, element) => match b {
            MemTy::Array(other, part) => {
                count == other && same_type(depth - 1, element.get(), part.get())
            }
            _ => false,
        },
        MemTy::Struct(fields, packed) => match b {
            MemTy::Struct(others, is_packed) => {
                packed == is_packed && all_same(depth - 1, fields.as_slice(), others.as_slice())
            }
            _ => false,
        },
    }
}

#[cycle(same)]
fn all_same(depth: u64, a: &[MemTy], b: &[MemTy]) -> bool
    ensures { result ≡ all_same (same_type depth) a.now b.now }
{
    match a {
        [] => b.is_empty(),
        [x, xs @ ..] => match b {
            [] => false,
            [y, ys @ ..] => same_type(depth, x, y) && all_same(depth, xs, ys),
        },
    }
}

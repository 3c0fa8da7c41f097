// The registers in order of where their spans start.
ghost use Rattle.std.specs.Prelude.{◌≡◌, ℕ, ◌+◌, ◌<◌, ◌≤◌, ◌^◌, [], ◌++◌, length, map, IfOk, OnOk};
ghost use Rattle.std.specs.List.Sorted.{IsPermutation};
ghost use Rattle.regalloc.specs.Steps.{start_of, starts_from, Rises};

use rj_num::NoMemory;
use std::alloc::Global;

/// A register whose span has a point, with the first and the last.
#[derive(Clone, Copy, Drop)]
pub struct Start {
    pub first: u32,
    pub register: u32,
    pub last: u32,
}

fn push_start(
    starts: &mut Vec<Start>,
    register: u32,
    span: Option<(u32, u32)>,
) -> Result<(), NoMemory>
    ensures { OnOk result (starts.new.items ≡ starts.old.items ++ start_of register span) }
{
    match span {
        Some((first, last)) => {
            if first <= last {
                match starts.push(Start {
                    first,
                    register,
                    last,
                }) {
                    Ok(()) => Ok(()),
                    Err(_) => Err(NoMemory),
                }
            } else {
                Ok(())
            }
        }
        None => Ok(()),
    }
}

/// The registers whose spans have a point, in order of their numbers.
fn numbered(alloc: Global, spans: &[Option<(u32, u32)>]) -> Result<Vec<Start>, NoMemory>
    requires { length spans.now < 2 ^ 32 }
    ensures { IfOk result (λ starts. starts.items ≡ starts_from 0 spans.now) }
{
    let mut starts = Vec::new(alloc);
    for register in 0..spans.len() {
        push_start(&mut starts, register as u32, spans[register])?;
    }
    Ok(starts)
}

/// The registers whose spans have a point, in order of where they start and then of their numbers.
pub fn ordered(alloc: Global, spans: &[Option<(u32, u32)>]) -> Result<Vec<Start>, NoMemory>
    requires { length spans.now < 2 ^ 32 }
    ensures { IfOk result (λ starts. IsPermutation (starts_from 0 spans.now) starts.items × Rises starts.items) }
{
    let mut starts = numbered(alloc, spans)?;
    match starts.sort_by_key(|start| start.first) {
        Ok(()) => Ok(starts),
        Err(_) => Err(NoMemory),
    }
}

// A fabric of versions that never change, for one thread.
ghost use Rattle.std.specs.Prelude.{◌≡◌, ◌≤◌, ◌+◌, ◌++◌, ◌∷◌, [], ℕ, List, length, Bool, true, false, IfOk, OnOk, ◌*◌, ◌<◌};
ghost use Rattle.rv_play.specs.Machine.{code_base};
ghost use Rattle.rv_play.specs.Ending.{Item};
ghost use Rattle.rv_play.specs.declared.version.Version.{Version};
ghost use Rattle.hart.specs.Fixed.{code_of, bases_of, AreVersions, IsServed};

use crate::fabric::Fabric;
use crate::map::CODE;
use rj_num::NoMemory;
use rv_play::version::Version;
use std::alloc::{AllocError, Global};

/// The words of versions in order, each behind its header, and the cells with their bases.
#[derive(Drop)]
pub struct FixedFabric {
    pub(crate) cells: Vec<u64>,
    pub(crate) code: Vec<u32>,
    pub(crate) begun: bool,
    ghost few: { length code.items ≤ 4194304 },
    ghost symbols: { length cells.items ≤ 4194304 },
}

impl FixedFabric {
    /// A fabric of one version per symbol, in order, with at most 4,194,304 code words. It isn't begun.
    pub fn new(alloc: Global, versions: Vec<Version>) -> Result<FixedFabric, NoMemory>
        requires { AreVersions versions.items }
        ensures cells { IfOk result (λ f. f.cells.items ≡ bases_of 0 versions.items) }
        ensures code { IfOk result (λ f. f.code.items ≡ code_of 0 versions.items) }
        ensures idle { IfOk result (λ f. f.begun ≡ false) }
    {
        let (cells, code) = lay_out(alloc, versions.as_slice())?;
        Ok(FixedFabric {
            cells,
            code,
            begun: false,
        })
    }
}

// The cells and the code words of versions.
fn lay_out(alloc: Global, versions: &[Version]) -> Result<(Vec<u64>, Vec<u32>), NoMemory>
    requires { AreVersions versions.now }
    ensures cells { IfOk result (λ laid. laid.0.items ≡ bases_of 0 versions.now) }
    ensures code { IfOk result (λ laid. laid.1.items ≡ code_of 0 versions.now) }
    ensures fewer { IfOk result (λ laid. length laid.0.items ≤ length laid.1.items) }
{
    let mut cells = Vec::new(alloc);
    let mut code = Vec::new(alloc);
    for version in versions {
        if push_version(&mut cells, &mut code, version).is_err() {
            return Err(NoMemory);
        }
    }
    Ok((cells, code))
}

// Adds a version behind those that stand: its base to the cells, and its header and words to the code.
fn push_version(
    cells: &mut Vec<u64>,
    code: &mut Vec<u32>,
    version: &Version,
) -> Result<(), AllocError>
    requires room { length code.old.items + 1 + length version.now.words ≤ 4194304 }
    requires cells { length cells.old.items ≤ length code.old.items }
    ensures cells { OnOk result (cells.new.items ≡ cells.old.items ++ (code_base + 4 * (length code.old.items + 1)) ∷ []) }
    ensures code { OnOk result (code.new.items ≡ code.old.items ++ (length cells.old.items + 1) ∷ version.now.words) }
{
    let base = CODE + 4 * (code.len() as u64 + 1);
    code.push(cells.len() as u32 + 1)?;
    code.extend_from_slice(version.words.as_slice())?;
    cells.push(base)?;
    Ok(())
}

impl Fabric for FixedFabric {
    ghost symbol_count = { λ f. length f.cells.items };

    ghost code_word_count = { λ f. length f.code.items };

    ghost is_begun = { λ f. f.begun };

    ghost stands = { λ since f pass counted. IsServed since.cells.items since.code.items f.cells.items f.code.items pass };

    fn symbols(&self) -> u32 {
        self.cells.len() as u32
    }

    fn code_words(&self) -> u32 {
        self.code.len() as u32
    }

    fn begin(&mut self) {
        self.begun = true;
    }

    #[inline(always)]
    fn cell(&mut self, symbol: u32) -> u64 {
        self.cells[symbol as usize]
    }

    #[inline(always)]
    fn fetch(&mut self, address: u64) -> u32 {
        self.code[((address - CODE) / 4) as usize]
    }

    #[inline(always)]
    fn count(&mut self, _symbol: u32) {}

    fn end(&mut self) {
        self.begun = false;
    }
}

//! What the keeper looks for among the versions.
ghost use Rattle.std.specs.Prelude.{◌≡◌, ◌<◌, ◌≤◌, ℕ, MatchOption, length, Some, true, false};
ghost use Rattle.code_epochs.specs.declared.state.VersionState.{VersionState};
ghost use Rattle.code_epochs.specs.declared.state.Status.TheVariants.{Linked, Pending};
ghost use Rattle.code_epochs.specs.Sound.{At, HasPassed};
ghost use Rattle.jit_core.specs.declared.publishing.Pair.{Pair};
ghost use Rattle.jit_core.specs.Keeping.{IsOpenPair, IsPassed, IsFirstPassed, IsFirstFrom, NoneFrom, IsNextLook, NothingOpen};

use crate::publishing::Pair;
use code_epochs::{Status, VersionState};

// This hart's mark is among these.
fn has_passed(passed: u32, hart: u32) -> bool
    requires { hart < 32 }
    ensures passed { result ≡ true → HasPassed passed hart }
    ensures behind { result ≡ false → ¬ HasPassed passed hart }
{
    (passed >> hart) % 2 == 1
}

// The first hart from `from` on, of so many, whose mark isn't among these.
fn first_behind(passed: u32, from: u32, harts: u32) -> Option<u32>
    requires { harts ≤ 32 }
    ensures { MatchOption result ((h : ℕ) → from ≤ h → h < harts → HasPassed passed h) (λ h. (from ≤ h) × (h < harts) × ¬ HasPassed passed h × ((k : ℕ) → from ≤ k → k < h → HasPassed passed k)) }
{
    for hart in from..harts {
        if !has_passed(passed, hart) {
            return Some(hart);
        }
    }
    None
}

// The version is the linked one of a symbol.
fn is_linked(version: &VersionState, symbol: u32) -> bool
    ensures linked { result ≡ true → (version.now.status ≡ Linked) × (version.now.symbol ≡ symbol) }
    ensures other { result ≡ false → version.now.status ≡ Linked → version.now.symbol ≡ symbol → ⊥ }
{
    if version.symbol != symbol {
        return false;
    }
    matches!(version.status, Status::Linked)
}

/// The number of the linked version of a symbol.
pub fn linked_version(versions: &[VersionState], symbol: u32) -> Option<u32>
    requires { length versions.now ≤ 1048576 }
    ensures { MatchOption result ((i : ℕ) (v : VersionState) → At versions.now i v → v.status ≡ Linked → v.symbol ≡ symbol → ⊥) (λ n. (v : VersionState) × At versions.now n v × (v.status ≡ Linked) × (v.symbol ≡ symbol)) }
{
    for (number, version) in versions.iter().enumerate() {
        if is_linked(version, symbol) {
            return Some(number as u32);
        }
    }
    None
}

// The version is pending, and all of so many harts have passed it.
fn is_passed(version: &VersionState, harts: u32) -> bool
    requires { harts ≤ 32 }
    ensures passed { result ≡ true → IsPassed harts version.now }
    ensures behind { result ≡ false → ¬ IsPassed harts version.now }
{
    match version.status {
        Status::Pending { tag: _, passed } => first_behind(passed, 0, harts).is_none(),
        _ => false,
    }
}

/// The number of the first pending version that all of so many harts have passed.
pub fn first_passed(versions: &[VersionState], harts: u32) -> Option<u32>
    requires harts { harts ≤ 32 }
    requires few { length versions.now ≤ 1048576 }
    ensures { MatchOption result ((i : ℕ) (v : VersionState) → At versions.now i v → ¬ IsPassed harts v) (λ n. IsFirstPassed harts versions.now n) }
{
    for (number, version) in versions.iter().enumerate() {
        if is_passed(version, harts) {
            return Some(number as u32);
        }
    }
    None
}

// The first hart from `from` on, of so many, that hasn't passed the version, if that is pending.
fn open_hart(version: &VersionState, from: u32, harts: u32) -> Option<u32>
    requires { harts ≤ 32 }
    ensures { MatchOption result ((h : ℕ) → from ≤ h → ¬ IsOpenPair harts version.now h) (λ h. (from ≤ h) × IsOpenPair harts version.now h × ((k : ℕ) → from ≤ k → k < h → ¬ IsOpenPair harts version.now k)) }
{
    match version.status {
        Status::Pending { tag: _, passed } => first_behind(passed, from, harts),
        _ => None,
    }
}

// The hart from which on a version is looked at: the pair's at its version, and the first one behind it.
fn first_hart(number: usize, from: Pair) -> u32
    ensures here { number ≡ from.version → result ≡ from.hart }
    ensures later { from.version < number → result ≡ 0 }
{
    if number == from.version as usize {
        from.hart
    } else {
        0
    }
}

// The first pair of a pending version and a hart that hasn't passed it, from this pair on.
fn first_from(versions: &[VersionState], harts: u32, from: Pair) -> Option<Pair>
    requires harts { harts ≤ 32 }
    requires few { length versions.now ≤ 1048576 }
    ensures { MatchOption result (NoneFrom harts versions.now from.version from.hart) (λ p. IsFirstFrom harts versions.now from.version from.hart p.version p.hart) }
{
    for number in from.version as usize..versions.len() {
        let first = first_hart(number, from);
        if let Some(hart) = open_hart(&versions[number], first, harts) {
            return Some(Pair {
                version: number as u32,
                hart,
            });
        }
    }
    None
}

// The first pair of all.
fn first_of_all(versions: &[VersionState], harts: u32) -> Option<Pair>
    requires harts { harts ≤ 32 }
    requires few { length versions.now ≤ 1048576 }
    ensures { MatchOption result (NothingOpen harts versions.now) (λ p. IsFirstFrom harts versions.now 0 0 p.version p.hart) }
{
    let start = Pair {
        version: 0,
        hart: 0,
    };
    first_from(versions, harts, start)
}

// The first pair behind this one, or else the first of all.
fn look_behind(versions: &[VersionState], harts: u32, pair: Pair) -> Option<Pair>
    requires harts { harts ≤ 32 }
    requires few { length versions.now ≤ 1048576 }
    requires pair { pair.hart < 32 }
    ensures { MatchOption result (NothingOpen harts versions.now) (λ p. IsNextLook harts versions.now (Some pair) p.version p.hart) }
{
    let behind = Pair {
        version: pair.version,
        hart: pair.hart + 1,
    };
    match first_from(versions, harts, behind) {
        Some(next) => Some(next),
        None => first_of_all(versions, harts),
    }
}

/// The pair that is to be looked at next: the first one behind that which was looked at last, or else the first of all.
pub fn next_look(versions: &[VersionState], harts: u32, last: Option<Pair>) -> Option<Pair>
    requires harts { harts ≤ 32 }
    requires few { length versions.now ≤ 1048576 }
    requires last { (p : Pair) → last ≡ Some p → p.hart < 32 }
    ensures { MatchOption result (NothingOpen harts versions.now) (λ p. IsNextLook harts versions.now last p.version p.hart) }
{
    match last {
        Some(pair) => look_behind(versions, harts, pair),
        None => first_of_all(versions, harts),
    }
}

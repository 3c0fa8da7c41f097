//! Events drawn from a number.
ghost use Rattle.std.specs.Prelude.{◌≡◌, ◌≤◌, IfOk};
ghost use Rattle.rv_play.specs.declared.version.Version.{Version};
ghost use Rattle.jit_core.specs.Drawn.{next_draw, event_for, order_of, listed, IsDrawn};

use crate::event::Event;
use rj_num::NoMemory;
use rv_play::version::Version;
use sqlite_items::Items;
use std::alloc::Global;

/// The number that is drawn after this one.
pub fn next(x: u64) -> u64
    ensures { result ≡ next_draw x }
{
    x.wrapping_mul(6_364_136_223_846_793_005)
        .wrapping_add(1_442_695_040_888_963_407)
}

/// The same version in memory of its own.
pub fn copy(alloc: Global, version: &Version) -> Result<Version, NoMemory>
    ensures { IfOk result (λ v. v ≡ version.now) }
{
    let words = Items::from_slice(alloc, version.words.as_slice()).map_err(|_| NoMemory)?;
    Ok(Version {
        symbol: version.symbol,
        level: version.level,
        words,
    })
}

// An order of one of the versions.
fn order(alloc: Global, versions: &[Version], number: u64) -> Result<Option<Event>, NoMemory>
    ensures event { IfOk result (λ e. listed e ≡ order_of versions.now number) }
    ensures drawn { IfOk result (IsDrawn versions.now 0) }
{
    if versions.is_empty() {
        return Ok(None);
    }
    let place = (number % versions.len() as u64) as usize;
    let version = copy(alloc, &versions[place])?;
    Ok(Some(Event::Order(version)))
}

/// The event for a choice, if it is one.
pub fn event(
    alloc: Global,
    versions: &[Version],
    harts: u32,
    choice: u64,
) -> Result<Option<Event>, NoMemory>
    requires { harts ≤ 16 }
    ensures event { IfOk result (λ e. listed e ≡ event_for versions.now harts choice) }
    ensures drawn { IfOk result (IsDrawn versions.now harts) }
{
    let kinds = u64::from(harts) + 2;
    let kind = choice % kinds;
    if kind < u64::from(harts) {
        return Ok(Some(Event::Hart(kind as u32)));
    }
    if kind == u64::from(harts) {
        return Ok(Some(Event::Keeper));
    }
    order(alloc, versions, choice / kinds)
}

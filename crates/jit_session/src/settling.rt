//! The level that each symbol has at the end.
ghost use Rattle.std.specs.Prelude.{◌≡◌, ◌⊎◌, ℕ, ◌+◌, ◌<◌, ◌≤◌, [], length, IfSome, MatchOption, vec_capacity, false};
ghost use Rattle.rv_play.specs.Versions.{IsVersion};
ghost use Rattle.entry_counts.specs.Tally.{times};
ghost use Rattle.redirect_cells.specs.Kept.{book_of};
ghost use Rattle.redirect_cells.specs.Keeping.{IsSameShelf};
ghost use Rattle.reopt_policy.specs.Marks.{level_for};
ghost use Rattle.jit_session.specs.Levels.{IsForRoom, IsSameCause, IsSameMake, IsRaised, IsRefusedJob, IsLevelled, IsSettledSymbol, IsSameTally, AreRefused, HasOtherLevel, MayShow, AreShown};

use code_epochs::PublishRefusal;
use entry_counts::CountSeat;
use ir_verify::checked::Checked;
use redirect_cells::Keeper;
use reopt_policy::ReoptPolicy;
use rv_play::version::{MakeRefusal, Version};
use session_types::{JobRefusal, Maker, RefusedJob};
use std::alloc::Global;

// The level that a policy gives a symbol with so many entries.
fn wanted_level<P: ReoptPolicy>(policy: &mut P, symbol: u32, entries: u64) -> u8
    ensures level { result ≡ level_for (P.marks policy.old) entries }
    ensures range { (1 ≤ result) × (result ≤ 3) }
    ensures marks { P.marks policy.new ≡ P.marks policy.old }
{
    match policy.next(symbol, 0, entries) {
        Some(level) => level,
        None => unreachable!(),
    }
}

// The cause of a version that wasn't published.
fn publish_cause(refusal: PublishRefusal) -> JobRefusal
    requires { IsForRoom refusal }
    ensures { IsSameCause refusal result }
{
    match refusal {
        PublishRefusal::NoRoom { needed, largest } => JobRefusal::NoRoom { needed, largest },
        PublishRefusal::ManyVersions { count: _ } => unreachable!(),
        PublishRefusal::NoMemory => JobRefusal::NoMemory,
    }
}

// Publishes a version of a symbol at a level. Gives the job that is refused, if it is.
fn publish_at(
    alloc: Global,
    checked: &Checked,
    symbol: u32,
    level: u8,
    keeper: &mut Keeper<'_>,
    version: Version,
) -> Option<RefusedJob>
    requires version { IsVersion checked.now symbol level version }
    requires program { keeper.old.desk.seat.table.now.table.shared.key.module.value ≡ checked.now }
    requires exists { symbol < keeper.old.desk.seat.table.now.functions }
    requires few { length keeper.old.desk.shelf.versions.items < 1048576 }
    ensures table { keeper.new.desk.seat.table ≡ keeper.old.desk.seat.table }
    ensures gone { (book_of keeper.new.desk.seat.seat.me.0).gone ≡ (book_of keeper.old.desk.seat.seat.me.0).gone }
    ensures joined { (book_of keeper.new.desk.seat.seat.me.0).joined ≡ (book_of keeper.old.desk.seat.seat.me.0).joined }
    ensures raised { MatchOption result (IsRaised keeper.old.desk.shelf keeper.new.desk.shelf symbol level) (IsRefusedJob false keeper.old.desk.shelf checked.now symbol level) }
    ensures same { IfSome result (λ _. IsSameShelf keeper.old.desk.shelf keeper.new.desk.shelf) }
{
    let _ = checked;
    match keeper.publish(alloc, version) {
        Ok(_) => None,
        Err((_, refusal)) => Some(RefusedJob {
            symbol,
            level,
            cause: publish_cause(refusal),
        }),
    }
}

// The job that a maker refuses.
fn make_refused(symbol: u32, level: u8, refusal: MakeRefusal) -> RefusedJob
    ensures job { (result.symbol ≡ symbol) × (result.level ≡ level) }
    ensures cause { IsSameMake refusal result.cause }
{
    let cause = match refusal {
        MakeRefusal::Crowded { point, overlap } => JobRefusal::Crowded { point, overlap },
        MakeRefusal::NoMemory => JobRefusal::NoMemory,
    };
    RefusedJob {
        symbol,
        level,
        cause,
    }
}

// Gives a symbol a version of a level, if its own has another.
fn settle_at<M: Maker>(
    alloc: Global,
    checked: &Checked,
    symbol: u32,
    level: u8,
    keeper: &mut Keeper<'_>,
    maker: &mut M,
) -> Option<RefusedJob>
    requires level { (1 ≤ level) × (level ≤ 3) }
    requires program { keeper.old.desk.seat.table.now.table.shared.key.module.value ≡ checked.now }
    requires exists { symbol < keeper.old.desk.seat.table.now.functions }
    requires few { length keeper.old.desk.shelf.versions.items < 1048576 }
    ensures table { keeper.new.desk.seat.table ≡ keeper.old.desk.seat.table }
    ensures gone { (book_of keeper.new.desk.seat.seat.me.0).gone ≡ (book_of keeper.old.desk.seat.seat.me.0).gone }
    ensures joined { (book_of keeper.new.desk.seat.seat.me.0).joined ≡ (book_of keeper.old.desk.seat.seat.me.0).joined }
    ensures raised { MatchOption result (IsRaised keeper.old.desk.shelf keeper.new.desk.shelf symbol level) (IsRefusedJob (M.may_crowd maker.old checked.now symbol level) keeper.old.desk.shelf checked.now symbol level) }
    ensures same { IfSome result (λ _. IsSameShelf keeper.old.desk.shelf keeper.new.desk.shelf) }
    ensures other { IfSome result (λ _. HasOtherLevel keeper.old.desk.shelf symbol level) }
    ensures test { M.may_crowd maker.new ≡ M.may_crowd maker.old }
{
    if keeper.level(symbol) == level {
        return None;
    }
    match maker.make(alloc, checked, symbol, level) {
        Ok(version) => publish_at(alloc, checked, symbol, level, keeper, version),
        Err(refusal) => Some(make_refused(symbol, level, refusal)),
    }
}

/// Gives a symbol with so many entries the level that the policy wants for them. The job is refused where its version isn't made or doesn't fit.
pub fn settle_one<M: Maker, P: ReoptPolicy>(
    alloc: Global,
    checked: &Checked,
    symbol: u32,
    entries: u64,
    keeper: &mut Keeper<'_>,
    policy: &mut P,
    maker: &mut M,
) -> Option<RefusedJob>
    requires program { keeper.old.desk.seat.table.now.table.shared.key.module.value ≡ checked.now }
    requires exists { symbol < keeper.old.desk.seat.table.now.functions }
    requires few { length keeper.old.desk.shelf.versions.items < 1048576 }
    ensures table { keeper.new.desk.seat.table ≡ keeper.old.desk.seat.table }
    ensures gone { (book_of keeper.new.desk.seat.seat.me.0).gone ≡ (book_of keeper.old.desk.seat.seat.me.0).gone }
    ensures joined { (book_of keeper.new.desk.seat.seat.me.0).joined ≡ (book_of keeper.old.desk.seat.seat.me.0).joined }
    ensures raised { MatchOption result (IsRaised keeper.old.desk.shelf keeper.new.desk.shelf symbol (level_for (P.marks policy.old) entries)) (IsRefusedJob (M.may_crowd maker.old checked.now symbol (level_for (P.marks policy.old) entries)) keeper.old.desk.shelf checked.now symbol (level_for (P.marks policy.old) entries)) }
    ensures same { IfSome result (λ _. IsSameShelf keeper.old.desk.shelf keeper.new.desk.shelf) }
    ensures other { IfSome result (λ _. HasOtherLevel keeper.old.desk.shelf symbol (level_for (P.marks policy.old) entries)) }
    ensures marks { P.marks policy.new ≡ P.marks policy.old }
    ensures test { M.may_crowd maker.new ≡ M.may_crowd maker.old }
{
    let level = wanted_level(policy, symbol, entries);
    settle_at(alloc, checked, symbol, level, keeper, maker)
}

// Settles one symbol, with what a seat with all counts finds of it.
fn settle_symbol<M: Maker, P: ReoptPolicy>(
    alloc: Global,
    checked: &Checked,
    symbol: u32,
    all: &mut CountSeat<'_>,
    keeper: &mut Keeper<'_>,
    policy: &mut P,
    maker: &mut M,
    refused: &mut Vec<RefusedJob>,
)
    requires program { keeper.old.desk.seat.table.now.table.shared.key.module.value ≡ checked.now }
    requires exists { symbol < keeper.old.desk.seat.table.now.functions }
    requires few { length keeper.old.desk.shelf.versions.items < 1048576 }
    requires counts { symbol < all.old.counts.now.symbols }
    requires whole { all.old.seat.me.0.parts ≡ 64 }
    requires own { all.old.seat.me.0.own ≡ [] }
    requires room { length refused.old.items < vec_capacity refused.old }
    ensures table { keeper.new.desk.seat.table ≡ keeper.old.desk.seat.table }
    ensures gone { (book_of keeper.new.desk.seat.seat.me.0).gone ≡ (book_of keeper.old.desk.seat.seat.me.0).gone }
    ensures joined { (book_of keeper.new.desk.seat.seat.me.0).joined ≡ (book_of keeper.old.desk.seat.seat.me.0).joined }
    ensures all { IsSameTally all.old all.new }
    ensures settled { IsSettledSymbol (M.may_crowd maker.old checked.now) keeper.old.desk.shelf keeper.new.desk.shelf refused.old.items refused.new.items symbol (level_for (P.marks policy.old) (times symbol all.old.seat.me.0.joined)) }
    ensures shown { MayShow (book_of keeper.old.desk.seat.seat.me.0) keeper.old.desk.seat.table.now.harts (M.may_crowd maker.old checked.now symbol (level_for (P.marks policy.old) (times symbol all.old.seat.me.0.joined))) checked.now keeper.old.desk.seat.table.now.code_words keeper.new.desk.shelf refused.old.items refused.new.items symbol (level_for (P.marks policy.old) (times symbol all.old.seat.me.0.joined)) }
    ensures room { vec_capacity refused.new ≡ vec_capacity refused.old }
    ensures marks { P.marks policy.new ≡ P.marks policy.old }
    ensures test { M.may_crowd maker.new ≡ M.may_crowd maker.old }
{
    let entries = all.total(symbol);
    keeper.collect();
    match settle_one(alloc, checked, symbol, entries, keeper, policy, maker) {
        Some(job) => refused.push_reserved(job),
        None => {}
    }
}

/// Settles each symbol in order, by a seat with all counts. The jobs that are refused are listed.
pub(crate) fn settle_all<M: Maker, P: ReoptPolicy>(
    alloc: Global,
    checked: &Checked,
    symbols: u32,
    all: &mut CountSeat<'_>,
    keeper: &mut Keeper<'_>,
    policy: &mut P,
    maker: &mut M,
    refused: &mut Vec<RefusedJob>,
)
    requires program { keeper.old.desk.seat.table.now.table.shared.key.module.value ≡ checked.now }
    requires table { keeper.old.desk.seat.table.now.functions ≡ symbols }
    requires few { length keeper.old.desk.shelf.versions.items + symbols ≤ 1048576 }
    requires counts { all.old.counts.now.symbols ≡ symbols }
    requires whole { all.old.seat.me.0.parts ≡ 64 }
    requires own { all.old.seat.me.0.own ≡ [] }
    requires none { refused.old.items ≡ [] }
    requires room { symbols ≤ vec_capacity refused.old }
    ensures table { keeper.new.desk.seat.table ≡ keeper.old.desk.seat.table }
    ensures gone { (book_of keeper.new.desk.seat.seat.me.0).gone ≡ (book_of keeper.old.desk.seat.seat.me.0).gone }
    ensures joined { (book_of keeper.new.desk.seat.seat.me.0).joined ≡ (book_of keeper.old.desk.seat.seat.me.0).joined }
    ensures all { IsSameTally all.old all.new }
    ensures levels { (k : ℕ) → k < symbols → IsLevelled keeper.new.desk.shelf refused.new.items k (level_for (P.marks policy.old) (times k all.old.seat.me.0.joined)) }
    ensures refused { AreRefused (M.may_crowd maker.old checked.now) symbols refused.new.items }
    ensures shown { AreShown (book_of keeper.old.desk.seat.seat.me.0) keeper.old.desk.seat.table.now.harts (M.may_crowd maker.old checked.now) checked.now keeper.old.desk.seat.table.now.code_words (λ k. level_for (P.marks policy.old) (times k all.old.seat.me.0.joined)) keeper.new.desk.shelf refused.new.items }
{
    for symbol in 0..symbols {
        settle_symbol(alloc, checked, symbol, all, keeper, policy, maker, refused);
    }
}

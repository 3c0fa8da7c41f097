// A hart fetches through the table on a thread of its own while the keeper publishes and collects on another: each pass sees one
// whole version, whatever the schedule.
ghost use Rattle.std.specs.Prelude.{◌≡◌, ◌<◌, ◌≤◌, ◌∷◌, [], IfOk, IfSome, length};
ghost use Rattle.std.specs.Coded.{Coded-set};
ghost use Rattle.ir_verify.specs.contracts.checked.Checked as checked;
ghost use Rattle.fast_isel.specs.Taken.{IsTaken};
ghost use Rattle.redirect_cells.specs.Kept.{IsBegun, word_in};
ghost use Rattle.redirect_cells.specs.Opened.{AreQuick, AreNewSeats};
ghost use Rattle.redirect_cells.specs.declared.view.Plan.{Plan};

use code_epochs::OpenRefusal;
use fast_isel::compile::quick;
use fast_isel::taken::takes;
use ir_core::code::{BinOp, Block, Flags, Inst, Op, Operand};
use ir_core::program::{Function, Module};
use ir_core::types::Ty;
use ir_verify::checked::Checked;
use ir_verify::verdict::verify;
use redirect_cells::{CodeTable, HartSeat, Keeper};
use rj_num::NoMemory;
use rv_play::version::Version;
use sqlite_items::Items;
use std::alloc::{AllocError, Global};
use std::thread::{Threads, join_mut};

const PASSES: u32 = 300;

const VERSIONS: u32 = 20;

// Twenty-one versions of twenty words fit, so that each is published whether or not one was given up.
const CODE_WORDS: u32 = 420;

const WORD: Ty = Ty::Int(64);

// `@twice` adds its argument to itself. These are its words, as assembled by hand.
const TWICE: [u32; 19] = [
    0x0010_0293,
    0x0000_0313,
    0x0000_0073,
    0xf401_0293,
    0x4000_03b7,
    0x0072_f663,
    0x0020_0293,
    0x0000_0073,
    0xf401_0113,
    0x0a11_3c23,
    0x00a1_3023,
    0x0001_3283,
    0x0001_3303,
    0x0062_82b3,
    0x0251_3023,
    0x0201_3503,
    0x0b81_3083,
    0x0c01_0113,
    0x0000_8067,
];

fn twice(alloc: Global) -> Result<Module, AllocError> {
    let flags = Flags {
        nuw: false,
        nsw: false,
        exact: false,
        disjoint: false,
        nneg: false,
        samesign: false,
    };
    let sum = Inst {
        gives: WORD,
        op: Op::Binary(BinOp::Add, flags, Operand::Value(0), Operand::Value(0)),
    };
    let back = Inst {
        gives: Ty::Void,
        op: Op::Ret(Some(Operand::Value(1))),
    };
    let block = Block {
        insts: Items::from_vec(vec![in alloc; sum, back]?),
    };
    let function = Function {
        name: Items::new(alloc),
        params: Items::from_vec(vec![in alloc; WORD]?),
        ret: WORD,
        blocks: Items::from_vec(vec![in alloc; block]?),
    };
    Ok(Module {
        globals: Items::new(alloc),
        functions: Items::from_vec(vec![in alloc; function]?),
    })
}

// Whether these are the words behind the base.
fn sees_twice(seat: &mut HartSeat, base: u64) -> bool
    requires begun { IsBegun seat.old.seat.me.0 }
    ensures table { seat.new.table ≡ seat.old.table }
    ensures begun { IsBegun seat.new.seat.me.0 }
    ensures number { seat.new.number ≡ seat.old.number }
{
    let end = 0x100_0000 + 4 * u64::from(seat.code_words());
    for (place, word) in TWICE.iter().enumerate() {
        if base < 0x100_0000 || base % 4 != 0 || base >= end - 4 * place as u64 {
            return false;
        }
        if seat.fetch(base + 4 * place as u64) != *word {
            return false;
        }
    }
    true
}

// One pass that holds the symbol's cell and sees the words behind it. 1 where they are the right ones.
fn pass(seat: &mut HartSeat) -> u32
    requires idle { word_in seat.old.seat.me.0.role ≡ 0 }
    requires symbols { 0 < seat.old.table.now.functions }
    ensures table { seat.new.table ≡ seat.old.table }
    ensures idle { word_in seat.new.seat.me.0.role ≡ 0 }
    ensures number { seat.new.number ≡ seat.old.number }
    ensures one { result ≤ 1 }
{
    seat.begin();
    let base = seat.cell(0);
    let right = sees_twice(seat, base);
    seat.end();
    if right { 1 } else { 0 }
}

// A hart that is idle, with the number of its passes that saw the right words.
#[derive(Drop)]
struct Fetching<'a> {
    seat: HartSeat<'a>,
    right: u32,
    ghost idle: { word_in seat.seat.me.0.role ≡ 0 },
    ghost symbols: { 0 < seat.table.now.functions },
}

impl Fetching<'_> {
    fn go(&mut self)
        ensures { (self.new.seat.table ≡ self.old.seat.table) × (self.new.seat.number ≡ self.old.seat.number) }
    {
        for _pass in 0..PASSES {
            self.right = self.right.wrapping_add(pass(&mut self.seat));
        }
    }
}

// A keeper of the module's table, with the number of versions that it published.
#[derive(Drop)]
struct Keeping<'a> {
    keeper: Keeper<'a>,
    all: &'a Checked,
    published: u32,
    ghost taken: { IsTaken all.now.module_ },
    ghost one: { length all.now.module_.functions ≡ 1 },
    ghost plan: { keeper.desk.seat.table.now.table.shared.key.module.value ≡ all.now } by { Coded-set checked.the_row.coded _ _ },
    ghost functions: { 0 < keeper.desk.seat.table.now.functions },
}

// Publishes a version of the symbol, and collects. 1 where it was published.
fn renew(keeper: &mut Keeper, alloc: Global, all: &Checked) -> u32
    requires taken { IsTaken all.now.module_ }
    requires one { length all.now.module_.functions ≡ 1 }
    requires plan { keeper.old.desk.seat.table.now.table.shared.key.module.value ≡ all.now }
    requires functions { 0 < keeper.old.desk.seat.table.now.functions }
    ensures table { keeper.new.desk.seat.table ≡ keeper.old.desk.seat.table }
    ensures one { result ≤ 1 }
{
    let Ok(version) = quick(alloc, all, 0) else {
        return 0;
    };
    let published = keeper.publish(alloc, version).is_ok();
    keeper.collect();
    if published { 1 } else { 0 }
}

impl Keeping<'_> {
    fn go(&mut self, alloc: Global)
        ensures { self.new.keeper.desk.seat.table ≡ self.old.keeper.desk.seat.table }
    {
        for _version in 0..VERSIONS {
            let published = renew(&mut self.keeper, alloc, self.all);
            self.published = self.published.wrapping_add(published);
        }
    }
}

// The hart and the keeper go on, each on a thread of its own.
fn side_by_side(
    rt: &impl Threads,
    alloc: Global,
    fetching: &mut Fetching<'_>,
    keeping: &mut Keeping<'_>,
)
    ensures seat { (fetching.new.seat.table ≡ fetching.old.seat.table) × (fetching.new.seat.number ≡ fetching.old.seat.number) }
    ensures keeper { keeping.new.keeper.desk.seat.table ≡ keeping.old.keeper.desk.seat.table }
{
    join_mut(rt, &mut || fetching.go(), &mut || keeping.go(alloc));
}

fn one(alloc: Global, version: Version) -> Result<Vec<Version>, AllocError>
    ensures { IfOk result (λ v. v.items ≡ version ∷ []) }
{
    Ok(vec![in alloc; version]?)
}

fn one_version(alloc: Global, all: &Checked) -> Result<Vec<Version>, NoMemory>
    requires taken { IsTaken all.now.module_ }
    requires one { length all.now.module_.functions ≡ 1 }
    ensures { IfOk result (λ v. (plan : Plan) → plan.module.value ≡ all.now → AreQuick plan v.items) }
{
    let version = quick(alloc, all, 0)?;
    match one(alloc, version) {
        Ok(versions) => Ok(versions),
        Err(_) => Err(NoMemory),
    }
}

// The only seat of a table of one hart.
fn only<'a>(table: &'a CodeTable, mut seats: Vec<HartSeat<'a>>) -> Option<Fetching<'a>>
    requires seats { AreNewSeats table.now 1 seats.items }
    ensures { IfSome result (λ f. (f.seat.table.now ≡ table.now) × (f.seat.number ≡ 0)) }
{
    match seats.pop() {
        Some(seat) => if seat.symbols() > 0 {
            Some(Fetching { seat, right: 0 })
        } else {
            None
        },
        None => None,
    }
}

// Takes the only seat in, and closes the keeper. Gives the numbers of versions, of words in use once it has collected, and of those
// that are in use when it is closed.
fn settle(
    mut keeper: Keeper<'_>,
    alloc: Global,
    fetching: Fetching<'_>,
) -> Result<[u32; 3], AllocError>
    requires table { fetching.seat.table.now ≡ keeper.desk.seat.table.now }
    requires number { fetching.seat.number ≡ 0 }
    requires one { keeper.desk.seat.table.now.harts ≡ 1 }
{
    let Fetching { seat, right: _ } = fetching;
    let seats = vec![in alloc; seat]?;
    keeper.gather(seats);
    keeper.collect();
    let (versions, used) = (keeper.versions(), keeper.used());
    Ok([versions, used, keeper.close()])
}

#[test]
fn one_word_is_missing(rt: HostRuntime) {
    let alloc = rt.alloc();
    let Ok(module) = twice(alloc) else {
        panic!(rt; "there is memory");
    };
    let Ok(all) = verify(alloc, module, 4096) else {
        panic!(rt; "the module verifies");
    };
    assert!(rt; takes(&all) && all.module().functions.len() == 1);
    let Ok((table, opening)) = CodeTable::new(alloc, &all, 1, 19) else {
        panic!(rt; "there is memory");
    };
    let Ok(first) = one_version(alloc, &all) else {
        panic!(rt; "there is memory");
    };
    let Err(refusal) = table.seats(alloc, opening, first) else {
        panic!(rt; "there is no room");
    };
    assert!(rt;
        matches!(
            refusal,
            OpenRefusal::NoRoom {
                needed: 20,
                room: 19
            }
        )
    );
}

#[test]
fn versions_change_under_a_hart(rt: HostRuntime) {
    let alloc = rt.alloc();
    let Ok(module) = twice(alloc) else {
        panic!(rt; "there is memory");
    };
    let Ok(all) = verify(alloc, module, 4096) else {
        panic!(rt; "the module verifies");
    };
    assert!(rt; takes(&all) && all.module().functions.len() == 1);
    let Ok((table, opening)) = CodeTable::new(alloc, &all, 1, CODE_WORDS) else {
        panic!(rt; "there is memory");
    };
    let Ok(first) = one_version(alloc, &all) else {
        panic!(rt; "there is memory");
    };
    let Ok((seats, keeper)) = table.seats(alloc, opening, first) else {
        panic!(rt; "there is room");
    };
    let Some(mut fetching) = only(&table, seats) else {
        panic!(rt; "there is a seat");
    };
    let mut keeping = Keeping {
        keeper,
        all: &all,
        published: 0,
    };
    side_by_side(&rt, alloc, &mut fetching, &mut keeping);
    assert!(rt; fetching.right == PASSES && keeping.published == VERSIONS);
    let Keeping {
        keeper,
        all: _,
        published: _,
    } = keeping;
    assert!(rt; keeper.words(0) == 19 && keeper.level(0) == 1);
    let Ok(settled) = settle(keeper, alloc, fetching) else {
        panic!(rt; "there is memory");
    };
    assert!(rt; settled == [VERSIONS + 1, 20, 20]);
}

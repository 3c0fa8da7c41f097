// Words by hand, from the instruction tables of the unprivileged specification of RISC-V.
ghost use Rattle.std.specs.Prelude.{◌≡◌, ◌≤◌, length, IfOk};
ghost use Rattle.hart.specs.Fixed.{AreVersions};

use crate::fabric::Fabric;
use crate::fixed::FixedFabric;
use crate::hart::{Hart, Image};
use ir_meaning::calls::{Ended, ListedCall};
use rv_play::version::Version;
use sqlite_items::Items;
use std::alloc::{AllocError, Global};
use std::process::Abort;
use std::test::Fail;

// How a call of a symbol on 5 ends over these versions, within one turn.
#[tactic(auto, using(crate::proofs::Samples::five_fits))]
fn ended(
    rt: &impl Abort,
    alloc: Global,
    hart: &mut Hart,
    versions: Vec<Version>,
    symbol: u32,
) -> Result<Ended, Fail>
    requires { AreVersions versions.items }
{
    let mut fabric = FixedFabric::new(alloc, versions)?;
    assert!(rt; fabric.symbols() == hart.functions);
    assert!(rt; symbol < hart.functions);
    let image = Image {
        bytes: Items::new(alloc),
        top: 0x1000_0000,
    };
    let call = ListedCall {
        symbol,
        args: Items::from_slice(alloc, &[5])?,
        turns: 1,
    };
    Ok(hart.run_call(&mut fabric, &image, &call))
}

// The same for the words of one version of a function of one 64-bit result.
fn ended_by(rt: &impl Abort, alloc: Global, words: &[u32]) -> Result<Ended, Fail>
    requires { length words.now ≤ 100 }
{
    let mut hart = Hart::new(alloc, 4096)?;
    hart.know(vec![in alloc; Some(64)]?);
    let version = Version {
        symbol: 0,
        level: 1,
        words: Items::from_slice(alloc, words)?,
    };
    let versions = one_version(alloc, version)?;
    ended(rt, alloc, &mut hart, versions, 0)
}

fn one_version(alloc: Global, version: Version) -> Result<Vec<Version>, AllocError>
    requires symbol { version.symbol ≡ 0 }
    requires words { length version.words ≤ 100 }
    ensures { IfOk result (λ versions. AreVersions versions.items) }
{
    Ok(vec![in alloc; version]?)
}

#[test]
fn calls_of_one_version(rt: HostRuntime) -> Result<(), Fail> {
    let alloc = rt.alloc();
    // ebreak
    assert!(rt; ended_by(&rt, alloc, &[0x00100073])? == Ended::Fault { pc: 0x0100_0004 });
    // jal x0,0
    assert!(rt; ended_by(&rt, alloc, &[0x0000006f])? == Ended::Fuel { spent: 256 });
    // jalr x0,0(ra)
    assert!(rt; ended_by(&rt, alloc, &[0x00008067])? == Ended::Value(5));
    // addi t0,x0,2; ecall
    assert!(rt; ended_by(&rt, alloc, &[0x00200293, 0x00000073])? == Ended::Stack);
    // sd a0,-8(sp); lw a0,-8(sp); jalr x0,0(ra)
    assert!(rt; ended_by(&rt, alloc, &[0xfea13c23, 0xff812503, 0x00008067])? == Ended::Value(5));
    // sb a0,0(s11); lbu a0,0(s11); jalr x0,0(ra)
    assert!(rt; ended_by(&rt, alloc, &[0x00ad8023, 0x000dc503, 0x00008067])? == Ended::Value(5));
    // lb a0,0(sp), at the control stack's end
    assert!(rt; ended_by(&rt, alloc, &[0x00010503])? == Ended::Fault { pc: 0x0100_0004 });
    Ok(())
}

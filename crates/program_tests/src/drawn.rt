//! Calls over drawn events.
use crate::program::{Given, NAMES, alone, written};
use crate::texts::{ADD, SWAP};
use std::test::Fail;

/// The same draws give the same bytes, with the answer in front, whatever is drawn; versions are published only in steps.
#[test]
fn twice_the_same(rt: HostRuntime) -> Result<(), Fail> {
    let rows = [
        ("sim a.ll c.txt --steps 0", true),
        ("sim a.ll c.txt --steps 0 --harts 16 --draw 5", true),
        ("sim a.ll c.txt", false),
        ("sim a.ll c.txt --draw 1 --steps 900", false),
        ("sim a.ll c.txt --draw 2 --harts 2", false),
        ("sim a.ll c.txt --draw 3 --harts 7 --steps 2000", false),
        (
            "sim --draw 18446744073709551615 a.ll c.txt --harts=16 --steps=20000",
            false,
        ),
    ];
    for (words, is_one) in rows {
        let given = Given {
            words,
            names: NAMES,
            module: SWAP,
            calls: "@swap(i64 10, i64 3)\n",
            failing: &[],
        };
        let once = written(&rt, rt.alloc(), &given)?;
        let again = written(&rt, rt.alloc(), &given)?;
        assert_eq!(rt; once.bytes(), again.bytes(), "{words}, twice");
        assert!(rt; once.bytes().starts_with(b"@swap(10, 3) = 7\nversions "));
        let one = b"@swap(10, 3) = 7\nversions 1\n".as_slice();
        assert_eq!(rt; once.bytes() == one, is_one, "the versions of {words}");
    }
    Ok(())
}

/// The draws alone publish: a version of 20 words is linked by the keeper's 22nd event behind the order that was taken, one order at a time.
/// Which draws are the keeper's and which are orders was worked out apart, from the congruence and the remainders modulo 3.
#[test]
fn as_many_as_drawn(rt: HostRuntime) -> Result<(), Fail> {
    let rows = [
        ("sim a.ll c.txt --steps 60", b"@add(2, 3) = 5\nversions 1\n"),
        ("sim a.ll c.txt --steps 61", b"@add(2, 3) = 5\nversions 2\n"),
        (
            "sim a.ll c.txt --steps 155",
            b"@add(2, 3) = 5\nversions 2\n",
        ),
        (
            "sim a.ll c.txt --steps 156",
            b"@add(2, 3) = 5\nversions 3\n",
        ),
        (
            "sim a.ll c.txt --draw 2 --steps 87",
            b"@add(2, 3) = 5\nversions 1\n",
        ),
        (
            "sim a.ll c.txt --draw 2 --steps 88",
            b"@add(2, 3) = 5\nversions 2\n",
        ),
    ];
    for (words, out) in rows {
        let given = Given {
            words,
            names: NAMES,
            module: ADD,
            calls: "@add(i64 2, i64 3)\n",
            failing: &[],
        };
        let once = written(&rt, rt.alloc(), &given)?;
        assert_eq!(rt; once.bytes(), out.as_slice(), "{words}");
    }
    Ok(())
}

/// What `serial` writes is what the program writes, and it leaves `run` alone.
#[test]
fn by_serial(rt: HostRuntime) -> Result<(), Fail> {
    let alloc = rt.alloc();
    let mut given = Given {
        words: "sim a.ll c.txt --draw 4",
        names: NAMES,
        module: SWAP,
        calls: "@swap(i64 10, i64 3)\n",
        failing: &[],
    };
    let whole = written(&rt, alloc, &given)?;
    let (status, out) = alone(alloc, &given)?;
    assert_eq!(rt; status, Some(0));
    assert_eq!(rt; out.bytes(), whole.bytes());
    given.words = "run a.ll c.txt";
    let (status, out) = alone(alloc, &given)?;
    assert_eq!(rt; status, None);
    assert_eq!(rt; out.bytes(), b"".as_slice());
    Ok(())
}

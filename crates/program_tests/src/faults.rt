//! Files that can't be read, and sinks that fail.
use crate::program::{Given, NAMES, Wanted, carry_out, comes_to};
use crate::texts::ADD;
use rj_io::MemSink;
use std::alloc::Global;
use std::process::Abort;
use std::sync::Wait;
use std::test::Fail;
use std::thread::Threads;

/// Files that aren't there, and loads that fail, as those of a folder or of a file that may not be read do. The module is loaded first.
#[test]
fn files_that_cannot_be_read(rt: HostRuntime) -> Result<(), Fail> {
    let rows: [(&str, &[u64], &str); 11] = [
        ("run no.ll c.txt", &[], "reopt: cannot read no.ll\n"),
        ("run a.ll no.txt", &[], "reopt: cannot read no.txt\n"),
        ("eval no.ll no.txt", &[], "reopt: cannot read no.ll\n"),
        ("run a.ll c.txt", &[0], "reopt: cannot read a.ll\n"),
        ("run a.ll c.txt", &[1], "reopt: cannot read c.txt\n"),
        ("eval a.ll c.txt", &[0], "reopt: cannot read a.ll\n"),
        ("eval a.ll c.txt", &[1], "reopt: cannot read c.txt\n"),
        ("eval a.ll c.txt", &[0, 1], "reopt: cannot read a.ll\n"),
        ("sim a.ll c.txt", &[0], "reopt: cannot read a.ll\n"),
        ("sim a.ll c.txt", &[1], "reopt: cannot read c.txt\n"),
        ("dump a.ll", &[0], "reopt: cannot read a.ll\n"),
    ];
    for (words, failing, err) in rows {
        let given = Given {
            words,
            names: NAMES,
            module: ADD,
            calls: "@add(i64 2, i64 3)\n",
            failing,
        };
        let wanted = Wanted {
            status: 4,
            out: "",
            err,
        };
        comes_to(&rt, rt.alloc(), &given, &wanted)?;
    }
    Ok(())
}

/// What a user may get wrong, and what looks wrong and isn't: words, options, files (a folder or a file that may not be read fails to load)
/// and texts. Each row has the module, the calls, the numbers of the loads that fail, the status and what goes out or is said.
#[test]
fn what_users_get_wrong(rt: HostRuntime) -> Result<(), Fail> {
    let calls = "@add(i64 2, i64 3)\n";
    let lines =
        "define i64 @add(i64 %a, i64 %b) {\r\n  %s = add i64 %a, %b\r\n  ret i64 %s\r\n}\r\n";
    let rows: [(&str, &str, &str, &[u64], u8, &str); 11] = [
        ("walk a.ll c.txt", ADD, calls, &[], 3, "reopt: usage\n"),
        (
            "run a.ll c.txt --harts 17",
            ADD,
            calls,
            &[],
            3,
            "reopt: usage\n",
        ),
        (
            "run a.ll c.txt --harts 2 --harts 2",
            ADD,
            calls,
            &[],
            3,
            "reopt: usage\n",
        ),
        (
            "run no.ll c.txt",
            ADD,
            calls,
            &[],
            4,
            "reopt: cannot read no.ll\n",
        ),
        (
            "run a.ll c.txt",
            ADD,
            calls,
            &[0],
            4,
            "reopt: cannot read a.ll\n",
        ),
        (
            "run a.ll c.txt",
            ADD,
            calls,
            &[1],
            4,
            "reopt: cannot read c.txt\n",
        ),
        ("run a.ll c.txt", lines, calls, &[], 0, "@add(2, 3) = 5\n"),
        ("run a.ll c.txt", "", "", &[], 0, ""),
        ("run a.ll c.txt", ADD, "", &[], 0, ""),
        (
            "run a.ll c.txt",
            "",
            calls,
            &[],
            2,
            "reopt: calls: line 1: no such function\n",
        ),
        (
            "run a.ll c.txt",
            ADD,
            "@add(i64 2, i64 3)",
            &[],
            0,
            "@add(2, 3) = 5\n",
        ),
    ];
    for (words, module, calls, failing, status, text) in rows {
        let given = Given {
            words,
            names: NAMES,
            module,
            calls,
            failing,
        };
        let (out, err) = if status == 0 { (text, "") } else { ("", text) };
        comes_to(&rt, rt.alloc(), &given, &Wanted { status, out, err })?;
    }
    Ok(())
}

/// Writes the 15 bytes of an answer, four at a time, where the write of this number fails: the status, and what went out.
fn cut(
    rt: &(impl Abort + Threads + Wait + Sync),
    alloc: Global,
    words: &str,
    write: u64,
) -> Result<(), Fail> {
    let text = b"@add(2, 3) = 5\n";
    let given = Given {
        words,
        names: NAMES,
        module: ADD,
        calls: "@add(i64 2, i64 3)\n",
        failing: &[],
    };
    let mut out = MemSink::new(alloc, 1000, 4, vec![in alloc; write]?)?;
    let mut err = MemSink::new(alloc, 1000, 1000, Vec::new(alloc))?;
    let status = carry_out(rt, alloc, &given, &mut out, &mut err)?;
    let (wanted, went_out) = match write {
        0 => (5, &text[..0]),
        1 => (5, &text[..4]),
        2 => (5, &text[..8]),
        3 => (5, &text[..12]),
        _ => (0, &text[..]),
    };
    assert_eq!(rt; status, wanted, "the status of {words}, cut at {write}");
    assert_eq!(rt;
        out.bytes(),
        went_out,
        "the output of {words}, cut at {write}"
    );
    assert_eq!(rt;
        err.bytes(),
        b"".as_slice(),
        "what {words} says, cut at {write}"
    );
    Ok(())
}

/// An output that is closed on the way takes a front of the text.
#[test]
fn outputs_that_are_cut(rt: HostRuntime) -> Result<(), Fail> {
    for write in 0..5 {
        cut(&rt, rt.alloc(), "run a.ll c.txt", write)?;
        cut(&rt, rt.alloc(), "eval a.ll c.txt", write)?;
    }
    Ok(())
}

/// A fault of the error output changes no status, and nothing goes to the output.
#[test]
fn what_is_said_is_cut(rt: HostRuntime) -> Result<(), Fail> {
    let alloc = rt.alloc();
    let given = Given {
        words: "run no.ll c.txt",
        names: NAMES,
        module: ADD,
        calls: "",
        failing: &[],
    };
    let mut out = MemSink::new(alloc, 1000, 1000, Vec::new(alloc))?;
    let mut err = MemSink::new(alloc, 1000, 10, vec![in alloc; 1]?)?;
    let status = carry_out(&rt, alloc, &given, &mut out, &mut err)?;
    assert_eq!(rt; status, 4);
    assert_eq!(rt; out.bytes(), b"".as_slice());
    assert_eq!(rt; err.bytes(), b"reopt: can".as_slice());
    Ok(())
}

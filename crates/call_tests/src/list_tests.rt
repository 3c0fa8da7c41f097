ghost use Rattle.std.specs.Prelude.{◌≡◌, IfOk, length};

use ir_core::code::{Block, Inst, Op, Operand};
use ir_core::program::{Function, Global as GlobalItem, Init, Module};
use ir_core::types::{MemTy, Ty};
use ir_meaning::calls::{Ended, Outcome};
use ir_verify::checked::Checked;
use ir_verify::verdict::verify;
use jit_calls::{CallsRefusal, eval_text, read_calls, report_text};
use session_types::{JobRefusal, RefusedJob, Settled, SymbolRow};
use sqlite_items::Items;
use std::alloc::{AllocError, Global};
use std::test::Fail;

fn returning(
    alloc: Global,
    name: &[u8],
    params: Vec<Ty>,
    ret: Ty,
    answer: Option<Operand>,
) -> Result<Function, AllocError> {
    let inst = Inst {
        gives: Ty::Void,
        op: Op::Ret(answer),
    };
    let block = Block {
        insts: Items::from_vec(vec![in alloc; inst]?),
    };
    Ok(Function {
        name: Items::from_slice(alloc, name)?,
        params: Items::from_vec(params),
        ret,
        blocks: Items::from_vec(vec![in alloc; block]?),
    })
}

// `@f(i8, i1, ptr)` answers its first argument, `@v()` nothing, and `@n` is a global.
fn sample(alloc: Global) -> Result<Option<Checked>, AllocError> {
    let params = vec![in alloc; Ty::Int(8), Ty::Int(1), Ty::Ptr]?;
    let f = returning(alloc, b"f", params, Ty::Int(8), Some(Operand::Value(0)))?;
    let v = returning(alloc, b"v 1", Vec::new(alloc), Ty::Void, None)?;
    let n = GlobalItem {
        name: Items::from_slice(alloc, b"n")?,
        ty: MemTy::Int(64),
        init: Init::Num(5),
    };
    let module = Module {
        globals: Items::from_vec(vec![in alloc; n]?),
        functions: Items::from_vec(vec![in alloc; f, v]?),
    };
    match verify(alloc, module, 4096) {
        Ok(checked) => Ok(Some(checked)),
        Err(_) => Ok(None),
    }
}

#[test]
fn calls_and_their_lines(rt: HostRuntime) -> Result<(), Fail> {
    let alloc = rt.alloc();
    let Some(checked) = sample(alloc)? else {
        panic!(rt; "the module verifies");
    };
    let text =
        b"; none\n\n@f(i8 -1, i1 true, ptr null)\r\n@\"\\66\"(i8 255, i1 0, ptr @n) turns 4294967296\n@\"v 1\"()";
    let Ok(calls) = read_calls(alloc, text, &checked) else {
        panic!(rt; "the list reads");
    };
    assert!(rt; calls.len() == 3);
    assert!(rt; calls.as_slice()[0].turns == 1_000_000);
    assert!(rt; calls.as_slice()[1].turns == 4_294_967_296);
    let outcomes = [Outcome::Value(200), Outcome::NotEnded, Outcome::Void];
    let Ok(lines) = eval_text(alloc, &checked, calls.as_slice(), &outcomes) else {
        panic!(rt; "there is memory");
    };
    assert_eq!(rt;
        lines.as_slice(),
        b"@f(-1, true, 0x0000000000000000) = -56\n@f(-1, false, 0x0000000010000000) = not ended\n@\"v 1\"() = void\n".as_slice()
    );
    Ok(())
}

// What a session of two calls came to.
fn settled(alloc: Global) -> Result<Settled, AllocError>
    ensures { IfOk result (λ it. length it.answers ≡ 2) }
{
    let answers = vec![in alloc; Ended::Value(200), Ended::Fuel { spent: 256 }]?;
    let first = SymbolRow {
        entries: 1000,
        level: 2,
        words: 18,
    };
    let second = SymbolRow {
        entries: 0,
        level: 1,
        words: 11,
    };
    let crowded = RefusedJob {
        symbol: 0,
        level: 2,
        cause: JobRefusal::Crowded {
            point: 3,
            overlap: 20,
        },
    };
    let full = RefusedJob {
        symbol: 1,
        level: 3,
        cause: JobRefusal::NoRoom {
            needed: 19,
            largest: 0,
        },
    };
    Ok(Settled {
        answers: Items::from_vec(answers),
        by_hart: Items::new(alloc),
        rows: Items::from_vec(vec![in alloc; first, second]?),
        refused: Items::from_vec(vec![in alloc; crowded, full]?),
        used: 40,
    })
}

#[test]
fn reports(rt: HostRuntime) -> Result<(), Fail> {
    let alloc = rt.alloc();
    let Some(checked) = sample(alloc)? else {
        panic!(rt; "the module verifies");
    };
    let Ok(calls) = read_calls(alloc, b"@f(i8 1, i1 0, ptr null)\n@\"v 1\"()", &checked) else {
        panic!(rt; "the list reads");
    };
    assert!(rt; calls.len() == 2);
    let settled = settled(alloc)?;
    let Ok(short) = report_text(alloc, &checked, calls.as_slice(), &settled, false) else {
        panic!(rt; "there is memory");
    };
    let Ok(long) = report_text(alloc, &checked, calls.as_slice(), &settled, true) else {
        panic!(rt; "there is memory");
    };
    assert_eq!(rt;
        short.as_slice(),
        b"@f(1, false, 0x0000000000000000) = -56\n@\"v 1\"() = fuel 256\n".as_slice()
    );
    assert_eq!(rt;
        long.as_slice(),
        b"@f(1, false, 0x0000000000000000) = -56\n@\"v 1\"() = fuel 256\n@f entries 1000 level 2 words 18\n@\"v 1\" entries 0 level 1 words 11\nrefused @f level 2 crowded 3 20\nrefused @\"v 1\" level 3 no room 19 0\ncode words 40\n".as_slice()
    );
    Ok(())
}

#[test]
fn texts_that_are_no_lists(rt: HostRuntime) -> Result<(), Fail> {
    let alloc = rt.alloc();
    let Some(checked) = sample(alloc)? else {
        panic!(rt; "the module verifies");
    };
    let rows = [
        ("@f(i8 1", CallsRefusal::Syntax { line: 1 }),
        ("\n@nope()\n", CallsRefusal::NoSuchFunction { line: 2 }),
        ("@\"v 1\"()\n@f(i8 1)", CallsRefusal::Shape { line: 2 }),
        (
            "@f(i8 256, i1 0, ptr null)",
            CallsRefusal::Shape { line: 1 },
        ),
        ("@f(i8 1, i8 0, ptr null)", CallsRefusal::Shape { line: 1 }),
        ("@f(i8 1, i1 0, ptr @no)", CallsRefusal::Shape { line: 1 }),
        (
            "@f(i8 true, i1 0, ptr null)",
            CallsRefusal::Syntax { line: 1 },
        ),
        ("@\"v 1\"() turns 0", CallsRefusal::Syntax { line: 1 }),
        (
            "@\"v 1\"() turns 4294967297",
            CallsRefusal::Syntax { line: 1 },
        ),
        ("@\"v 1\"()\r", CallsRefusal::Syntax { line: 1 }),
        (" @\"v 1\"()", CallsRefusal::Syntax { line: 1 }),
    ];
    for (text, refusal) in rows {
        let Err(found) = read_calls(alloc, text.as_bytes(), &checked) else {
            panic!(rt; "the list doesn't read");
        };
        assert!(rt; found == refusal);
    }
    Ok(())
}

#[test]
fn how_many_calls_there_may_be(rt: HostRuntime) -> Result<(), Fail> {
    let alloc = rt.alloc();
    let Some(checked) = sample(alloc)? else {
        panic!(rt; "the module verifies");
    };
    let mut text = Vec::new(alloc);
    for _ in 0..65_536u32 {
        text.extend_from_slice(b"@\"v 1\"()\n")?;
    }
    text.extend_from_slice(b"@\"v 1\"()")?;
    let Err(found) = read_calls(alloc, &text, &checked) else {
        panic!(rt; "there are too many");
    };
    assert!(rt; found == CallsRefusal::Limit { count: 65_537 });
    Ok(())
}

// The line of each refusal.
use ir_core::program::{Function, What};
use ir_core::types::Ty;
use ir_reader::ReadRefusal;
use ir_verify::refusal::VerifyRefusal;
use jit_calls::CallsRefusal;
use jit_text::{no_image_text, uncalled_text, unread_text, unverified_text};
use sqlite_items::Items;
use std::alloc::{AllocError, Global};
use std::test::Fail;

fn function(alloc: Global, name: &[u8]) -> Result<Function, AllocError> {
    Ok(Function {
        name: Items::from_slice(alloc, name)?,
        params: Items::new(alloc),
        ret: Ty::Void,
        blocks: Items::new(alloc),
    })
}

#[test]
fn each_row_has_its_line(rt: HostRuntime) -> Result<(), Fail> {
    let alloc = rt.alloc();
    let functions = vec![in alloc; function(alloc, b"f")?, function(alloc, b"g h")?]?;
    let walk = Items::from_vec(vec![in alloc; 0, 2, 13]?);
    let rows = vec![in alloc;
        (
            VerifyRefusal::Limit {
                what: What::Units,
                count: 16_385
            },
            "reopt: verify: limit units 16385\n",
        ),
        (
            VerifyRefusal::Shape {
                function: 1,
                block: 2
            },
            "reopt: verify: @\"g h\": block 2 is misshapen\n",
        ),
        (
            VerifyRefusal::Range {
                function: 0,
                inst: 7
            },
            "reopt: verify: @f: instruction 7 is out of range\n",
        ),
        (
            VerifyRefusal::EntryEdge {
                function: 0,
                block: 3
            },
            "reopt: verify: @f: block 3 jumps to the entry\n",
        ),
        (
            VerifyRefusal::BadType {
                function: 1,
                inst: 0
            },
            "reopt: verify: @\"g h\": instruction 0 has wrong types\n",
        ),
        (
            VerifyRefusal::CallShape {
                function: 0,
                inst: 4,
                callee: 1
            },
            "reopt: verify: @f: instruction 4 calls @\"g h\" wrongly\n",
        ),
        (
            VerifyRefusal::PhiEdges {
                function: 0,
                block: 1
            },
            "reopt: verify: @f: block 1 has wrong phis\n",
        ),
        (
            VerifyRefusal::NotAssigned {
                function: 0,
                value: 1,
                walk
            },
            "reopt: verify: @f: value 1 not assigned on 0 2 13\n",
        ),
    ]?;
    for (refusal, line) in &rows {
        let Ok(text) = unverified_text(alloc, functions.as_slice(), refusal) else {
            panic!(rt; "there is memory");
        };
        assert_eq!(rt; text.as_slice(), line.as_bytes());
    }
    Ok(())
}

#[test]
fn each_fault_has_its_line(rt: HostRuntime) -> Result<(), Fail> {
    let alloc = rt.alloc();
    let word = Items::from_slice(alloc, b"float")?;
    let name = Items::from_slice(alloc, b"%x")?;
    let rows = vec![in alloc;
        (
            ReadRefusal::Syntax { at: 42 },
            "reopt: module: syntax at 42\n"
        ),
        (
            ReadRefusal::LeftOut { at: 7, word },
            "reopt: module: left out at 7: float\n"
        ),
        (
            ReadRefusal::Name { at: 30, name },
            "reopt: module: name at 30: %x\n"
        ),
        (
            ReadRefusal::Limit {
                what: What::Parameters,
                count: 9
            },
            "reopt: module: limit parameters 9\n",
        ),
    ]?;
    for (refusal, line) in &rows {
        let Ok(text) = unread_text(alloc, refusal) else {
            panic!(rt; "there is memory");
        };
        assert_eq!(rt; text.as_slice(), line.as_bytes());
    }
    Ok(())
}

#[test]
fn images_and_lists_have_their_lines(rt: HostRuntime) {
    let alloc = rt.alloc();
    let Ok(text) = no_image_text(alloc, 4800, 4096) else {
        panic!(rt; "there is memory");
    };
    assert_eq!(rt;
        text.as_slice(),
        b"reopt: image: needs 4800 bytes, has 4096\n".as_slice()
    );
    let rows = [
        (
            CallsRefusal::Syntax { line: 3 },
            "reopt: calls: line 3: syntax\n",
        ),
        (
            CallsRefusal::NoSuchFunction { line: 1 },
            "reopt: calls: line 1: no such function\n",
        ),
        (
            CallsRefusal::Shape { line: 70_000 },
            "reopt: calls: line 70000: wrong arguments\n",
        ),
        (
            CallsRefusal::Limit { count: 65_537 },
            "reopt: calls: limit 65537\n",
        ),
    ];
    for (refusal, line) in rows {
        let Ok(text) = uncalled_text(alloc, refusal) else {
            panic!(rt; "there is memory");
        };
        assert_eq!(rt; text.as_slice(), line.as_bytes());
    }
}

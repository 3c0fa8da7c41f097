// Functions as text, and their generic machine code.
use gmir::code::{GFunction, GInst, GOp, GType};
use ir_reader::read;
use ir_translator::translate::translate;
use ir_verify::checked::Checked;
use ir_verify::verdict::verify;
use sqlite_items::Items;
use std::alloc::Global;

/// The module of a text, if it passes the verifier.
fn checked(alloc: Global, text: &[u8]) -> Option<Checked> {
    let Ok(module) = read(alloc, text) else {
        return None;
    };
    match verify(alloc, module, 4096) {
        Ok(checked) => Some(checked),
        Err(_) => None,
    }
}

/// The generic code of a module's first function.
fn first(alloc: Global, text: &[u8]) -> Option<GFunction> {
    let Some(checked) = checked(alloc, text) else {
        return None;
    };
    if checked.module().functions.is_empty() {
        return None;
    }
    match translate(alloc, &checked, 0) {
        Ok(function) => Some(function),
        Err(_) => None,
    }
}

/// How many instructions blocks have.
fn count(blocks: &[Items<GInst>]) -> usize {
    let mut all: usize = 0;
    for insts in blocks {
        all = all.saturating_add(insts.len());
    }
    all
}

/// The numbers of blocks, of registers and of instructions of the generic code of a module's first function.
fn sizes(alloc: Global, text: &[u8]) -> (usize, usize, usize) {
    match first(alloc, text) {
        Some(function) => (
            function.blocks.len(),
            function.types.len(),
            count(function.blocks.as_slice()),
        ),
        None => (0, 0, 0),
    }
}

/// Whether an instruction without targets is this one.
fn is(inst: Option<&GInst>, op: GOp, defs: &[u32], uses: &[u32], num: u128) -> bool {
    match inst {
        Some(inst) => {
            inst.op == op
                && inst.defs.as_slice() == defs
                && inst.uses.as_slice() == uses
                && inst.num == num
                && inst.to.is_empty()
        }
        None => false,
    }
}

fn has_types(types: &[GType], wanted: GType) -> bool {
    for ty in types {
        if *ty != wanted {
            return false;
        }
    }
    true
}

/// Two parameters of five bits, their quotient, and a return of that.
fn is_quotient(function: &GFunction) -> bool {
    let Some(block) = function.blocks.get(0) else {
        return false;
    };
    function.values == 3
        && function.blocks.len() == 1
        && function.types.len() == 3
        && has_types(function.types.as_slice(), GType::S(5))
        && block.len() == 4
        && is(block.get(0), GOp::Param, &[0], &[], 0)
        && is(block.get(1), GOp::Param, &[1], &[], 1)
        && is(block.get(2), GOp::UDiv, &[2], &[0, 1], 0)
        && is(block.get(3), GOp::Return, &[], &[2], 0)
}

#[test]
fn quotient(rt: HostRuntime) {
    let found = first(
        rt.alloc(),
        b"define i5 @u(i5 %a, i5 %b) {\n%c = udiv i5 %a, %b\nret i5 %c\n}\n",
    );
    match found {
        Some(function) => assert!(rt; is_quotient(&function)),
        None => assert!(rt; false),
    }
}

#[test]
fn blocks_of_edges_and_tests(rt: HostRuntime) {
    let alloc = rt.alloc();
    // the edge of the loop to itself takes a block, since a phi stands there; the literals 0 and 1 have a register each
    assert!(rt;
        sizes(
            alloc,
            b"define i64 @f(i64 %n) {\nentry:\nbr label %loop\nloop:\n%i = phi i64 [ 0, %entry ], [ %j, %loop ]\n%j = add i64 %i, 1\n%c = icmp ult i64 %j, %n\nbr i1 %c, label %loop, label %out\nout:\nret i64 %i\n}\n"
        ) == (4, 6, 10)
    );
    // the second test of a switch stands in a block of its own
    assert!(rt;
        sizes(
            alloc,
            b"define i8 @s(i8 %a) {\nentry:\nswitch i8 %a, label %d [ i8 1, label %x\ni8 2, label %x ]\nx:\nret i8 1\nd:\nret i8 2\n}\n"
        ) == (4, 7, 11)
    );
}

#[test]
fn pieces(rt: HostRuntime) {
    let alloc = rt.alloc();
    // a number of 32 bits is extended before it becomes an address, and one of 64 isn't
    assert!(rt;
        sizes(
            alloc,
            b"define ptr @p(i32 %a) {\n%b = inttoptr i32 %a to ptr\nret ptr %b\n}\n"
        ) == (1, 3, 4)
    );
    assert!(rt;
        sizes(
            alloc,
            b"define ptr @p(i64 %a) {\n%b = inttoptr i64 %a to ptr\nret ptr %b\n}\n"
        ) == (1, 2, 3)
    );
    // literal indices are one offset
    assert!(rt;
        sizes(
            alloc,
            b"define ptr @g(ptr %p) {\n%q = getelementptr [4 x i32], ptr %p, i64 1, i64 3\nret ptr %q\n}\n"
        ) == (1, 3, 4)
    );
    // an absolute value is a negation, a comparison and a choice
    assert!(rt;
        sizes(
            alloc,
            b"declare i32 @llvm.abs.i32(i32, i1)\ndefine i32 @a(i32 %x) {\n%y = call i32 @llvm.abs.i32(i32 %x, i1 false)\nret i32 %y\n}\n"
        ) == (1, 5, 6)
    );
    // one literal that is read three times has one register
    assert!(rt;
        sizes(
            alloc,
            b"define i64 @t(i64 %a) {\n%b = add i64 %a, 7\n%c = mul i64 %b, 7\n%d = xor i64 %c, 7\nret i64 %d\n}\n"
        ) == (1, 5, 6)
    );
}

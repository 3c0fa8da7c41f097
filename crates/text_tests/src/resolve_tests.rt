// Texts with named types and constant addresses, and what they say.
use ir_core::program::What;
use ir_flow::sizes::measure_of;
use ir_resolve::{Scope, global_names, globals_of, place, types_of};
use ir_tree::{Tree, read_text};
use ir_types::{Fault, Named, Target, memory, type_of};
use ir_value_trees::value_tree::InitNode;
use std::alloc::Global as Alloc;

/// A kind of fault, and its place from the front of the text or its count.
fn blamed(text: &[u8], fault: Fault) -> (u8, u64) {
    match fault {
        Fault::NoMemory => (b'0', 0),
        Fault::Syntax(left) => (b's', text.len().saturating_sub(left) as u64),
        Fault::LeftOut(left) => (b'l', text.len().saturating_sub(left) as u64),
        Fault::Name(left) => (b'n', text.len().saturating_sub(left) as u64),
        Fault::Limit(What::Nodes, count) => (b'c', count),
        Fault::Limit(_, count) => (b'z', count),
    }
}

fn size_in(alloc: Alloc, tree: &Tree) -> Result<u64, Fault> {
    let types = types_of(alloc, tree.types.as_slice())?;
    match tree.globals.get(0) {
        Some(global) => {
            let ty = memory(alloc, &types, global.ty.as_slice())?;
            Ok(measure_of(&ty).extent.size)
        }
        None => Err(Fault::NoMemory),
    }
}

/// `m` and the size of the first global's type; else what is wrong.
fn size(alloc: Alloc, text: &[u8]) -> (u8, u64) {
    let Ok(tree) = read_text(alloc, text) else {
        return (b't', 0);
    };
    match size_in(alloc, &tree) {
        Ok(size) => (b'm', size),
        Err(fault) => blamed(text, fault),
    }
}

#[test]
fn sizes(rt: HostRuntime) {
    let alloc = rt.alloc();
    assert!(rt; size(alloc, b"@g = global i32 0\n") == (b'm', 4));
    assert!(rt;
        size(
            alloc,
            b"%p = type { i32, i64 }\n@g = global [2 x %p] zeroinitializer\n"
        ) == (b'm', 32)
    );
    assert!(rt;
        size(
            alloc,
            b"@g = global %b zeroinitializer\n%b = type { i8, %0 }\n%0 = type <{ i8, i32 }>\n"
        ) == (b'm', 6)
    );
    assert!(rt; size(alloc, b"%o = type opaque\n@g = global ptr null\n") == (b'm', 8));
    assert!(rt;
        size(
            alloc,
            b"%a = type %b\n%b = type i16\n@g = global [3 x %a] zeroinitializer\n"
        ) == (b'm', 6)
    );
    assert!(rt;
        size(alloc, b"@g = global [4294967296 x i8] zeroinitializer\n") == (b'm', 4_294_967_296)
    );
}

#[test]
fn wrong_types(rt: HostRuntime) {
    let alloc = rt.alloc();
    assert!(rt; size(alloc, b"%o = type opaque\n@g = global %o zeroinitializer\n") == (b'n', 29));
    assert!(rt;
        size(
            alloc,
            b"%a = type { %b }\n%b = type { ptr, %a }\n@g = global i8 0\n"
        ) == (b'n', 34)
    );
    assert!(rt; size(alloc, b"%a = type %a\n@g = global i8 0\n") == (b'n', 10));
    assert!(rt; size(alloc, b"%a = type { %b }\n@g = global i8 0\n") == (b'n', 12));
    assert!(rt; size(alloc, b"%a = type i8\n%a = type i8\n@g = global i8 0\n") == (b'n', 13));
    assert!(rt; size(alloc, b"@g = global i65 0\n") == (b'l', 12));
    assert!(rt;
        size(
            alloc,
            b"%a = type i7\n@g = global [2 x %a] zeroinitializer\n"
        ) == (b'l', 10)
    );
    assert!(rt; size(alloc, b"@g = global [2 x i0] zeroinitializer\n") == (b's', 17));
    assert!(rt; size(alloc, b"@g = global { void } zeroinitializer\n") == (b's', 14));
    assert!(rt;
        size(
            alloc,
            b"@g = global [0 x [4294967297 x i8]] zeroinitializer\n"
        ) == (b'z', 4_294_967_297)
    );
    assert!(rt;
        size(
            alloc,
            b"@g = global [9223372036854775808 x [9223372036854775808 x i8]] zeroinitializer\n"
        ) == (b'z', 18_446_744_073_709_551_615)
    );
    assert!(rt;
        size(
            alloc,
            b"%a = type { %b, %b }\n%b = type { %c, %c }\n%c = type { %d, %d }\n%d = type { %e, %e }\n%e = type { %f, %f }\n%f = type { %h, %h }\n%h = type { %i, %i }\n%i = type { %j, %j }\n%j = type { %k, %k }\n%k = type { %l, %l }\n%l = type { %m, %m }\n%m = type { ptr, ptr }\n@g = global %a zeroinitializer\n"
        ) == (b'c', 8191)
    );
}

fn scalar(alloc: Alloc, text: &[u8]) -> bool {
    let Ok(tree) = read_text(alloc, text) else {
        return false;
    };
    match types_of(alloc, tree.types.as_slice()) {
        Ok(types) => match tree.functions.get(0) {
            Some(function) => type_of(alloc, &types, function.ret.as_slice()).is_ok(),
            None => false,
        },
        Err(_) => false,
    }
}

#[test]
fn scalars(rt: HostRuntime) {
    let alloc = rt.alloc();
    assert!(rt; scalar(alloc, b"%t = type i7\ndefine %t @f() {\n  ret %t 0\n}\n"));
    assert!(rt;
        !scalar(
            alloc,
            b"%t = type { i7 }\ndefine %t @f() {\n  ret %t 0\n}\n"
        )
    );
}

fn place_in(alloc: Alloc, tree: &Tree) -> Result<u64, Fault> {
    let types = types_of(alloc, tree.types.as_slice())?;
    let mut symbols = Named::new(alloc);
    symbols.define(alloc, b"g", Target::Global(0))?;
    symbols.define(alloc, b"f", Target::Function(0))?;
    match tree.globals.get(0) {
        Some(global) => match global.init.get(0) {
            Some(InitNode::Address(address)) => {
                let (_, offset) = place(alloc, &types, &symbols, address)?;
                Ok(offset)
            }
            _ => Err(Fault::NoMemory),
        },
        None => Err(Fault::NoMemory),
    }
}

/// `m` and the offset of the first global's address; else what is wrong.
fn offset(alloc: Alloc, text: &[u8]) -> (u8, u64) {
    let Ok(tree) = read_text(alloc, text) else {
        return (b't', 0);
    };
    match place_in(alloc, &tree) {
        Ok(offset) => (b'm', offset),
        Err(fault) => blamed(text, fault),
    }
}

#[test]
fn addresses(rt: HostRuntime) {
    let alloc = rt.alloc();
    assert!(rt; offset(alloc, b"@g = global ptr @g\n") == (b'm', 0));
    assert!(rt;
        offset(
            alloc,
            b"%p = type { i32, i64 }\n@g = global ptr getelementptr inbounds ([2 x %p], ptr @g, i64 0, i64 1, i32 1)\n"
        ) == (b'm', 24)
    );
    assert!(rt;
        offset(
            alloc,
            b"@g = global ptr getelementptr (i8, ptr @g, i64 -1)\n"
        ) == (b'm', 18_446_744_073_709_551_615)
    );
    assert!(rt;
        offset(
            alloc,
            b"@g = global ptr getelementptr (i8, ptr @g, i8 128)\n"
        ) == (b'm', 18_446_744_073_709_551_488)
    );
    assert!(rt;
        offset(
            alloc,
            b"@g = global ptr getelementptr (i16, ptr getelementptr (i8, ptr @g, i32 3), i8 -1)\n"
        ) == (b'm', 1)
    );
    assert!(rt; offset(alloc, b"@g = global ptr @f\n") == (b'l', 16));
    assert!(rt; offset(alloc, b"@g = global ptr @h\n") == (b'n', 16));
    assert!(rt;
        offset(
            alloc,
            b"@g = global ptr getelementptr (i32, ptr @g, i64 0, i64 1)\n"
        ) == (b's', 55)
    );
}

fn count_in(alloc: Alloc, tree: &Tree) -> Result<u64, Fault> {
    let types = types_of(alloc, tree.types.as_slice())?;
    let symbols = global_names(alloc, tree.globals.as_slice())?;
    let scope = Scope {
        alloc,
        types: &types,
        symbols: &symbols,
    };
    let globals = globals_of(&scope, tree.globals.as_slice())?;
    Ok(globals.len() as u64)
}

/// `m` and the number of globals; else what is wrong.
fn count(alloc: Alloc, text: &[u8]) -> (u8, u64) {
    let Ok(tree) = read_text(alloc, text) else {
        return (b't', 0);
    };
    match count_in(alloc, &tree) {
        Ok(count) => (b'm', count),
        Err(fault) => blamed(text, fault),
    }
}

#[test]
fn globals(rt: HostRuntime) {
    let alloc = rt.alloc();
    assert!(rt; count(alloc, b"") == (b'm', 0));
    assert!(rt;
        count(
            alloc,
            b"%struct.pair = type { i32, i64 }\n@table = dso_local global [2 x %struct.pair] [%struct.pair { i32 3, i64 40 }, %struct.pair { i32 5, i64 -2 }], align 16\n@p = constant ptr @table\n"
        ) == (b'm', 2)
    );
    assert!(rt;
        count(
            alloc,
            b"@g = constant [3 x i8] c\"a\\5C\\00\"\n@h = global <{ i8, [0 x ptr] }> <{ i8 -1, [0 x ptr] [] }>\n"
        ) == (b'm', 2)
    );
    assert!(rt; count(alloc, b"@g = global [2 x i8] c\"abc\"\n") == (b's', 21));
    assert!(rt; count(alloc, b"@g = global i8 256\n") == (b's', 15));
    assert!(rt; count(alloc, b"@g = global { i8 } <{ i8 0 }>\n") == (b's', 19));
    assert!(rt; count(alloc, b"@g = global [1 x i8] [i16 0]\n") == (b's', 22));
    assert!(rt; count(alloc, b"@t = global [2 x i32] [i32 1, i32 2, i32 3]\n") == (b's', 37));
    assert!(rt; count(alloc, b"@t = global { i8 } { i8 1, ptr null }\n") == (b's', 27));
    assert!(rt; count(alloc, b"@g = global i8 0\n@g = global i8 0\n") == (b'n', 17));
    assert!(rt; count(alloc, b"@g = global i1 true\n") == (b'l', 12));
    assert!(rt; count(alloc, b"@g = global i8 0, align 32\n") == (b'l', 18));
}

// Texts, and what `read` answers to them.
use ir_core::code::{Inst, Op, Operand};
use ir_core::program::{Init, Module, What};
use ir_reader::{ReadRefusal, read};
use sqlite_items::Items;
use std::alloc::{AllocError, Global};

/// `m` and the number of functions of a module that is read; else the kind of refusal, and its place or count.
fn answer(alloc: Global, text: &[u8]) -> (u8, u64) {
    match read(alloc, text) {
        Ok(module) => (b'm', module.functions.len() as u64),
        Err(ReadRefusal::Syntax { at }) => (b's', u64::from(at)),
        Err(ReadRefusal::LeftOut { at, word: _ }) => (b'l', u64::from(at)),
        Err(ReadRefusal::Name { at, name: _ }) => (b'n', u64::from(at)),
        Err(
            ReadRefusal::Limit {
                what: What::Parameters,
                count,
            },
        ) => (b'p', count),
        Err(
            ReadRefusal::Limit {
                what: What::Nodes,
                count,
            },
        ) => (b'k', count),
        Err(
            ReadRefusal::Limit {
                what: What::Bytes,
                count,
            },
        ) => (b'b', count),
        Err(ReadRefusal::Limit { what: _, count }) => (b'c', count),
        Err(ReadRefusal::NoMemory) => (b'0', 0),
    }
}

#[test]
fn modules(rt: HostRuntime) {
    let alloc = rt.alloc();
    assert!(rt; answer(alloc, b"") == (b'm', 0));
    assert!(rt;
        answer(
            alloc,
            b"define i64 @add(i64 %a, i64 %b) {\n%s = add i64 %a, %b\nret i64 %s\n}\n"
        ) == (b'm', 1)
    );
    assert!(rt;
        answer(
            alloc,
            b"define i64 @twice(i64 %a) {\nentry:\n%b = add i64 %a, %a\nbr label %out\nout:\nret i64 %b\n}\n"
        ) == (b'm', 1)
    );
    assert!(rt;
        answer(
            alloc,
            b"define i32 @f(i32 %0) {\n  %2 = add nsw i32 %0, -1\n  %3 = call i32 @f(i32 %2)\n  ret i32 %3\n}\n"
        ) == (b'm', 1)
    );
    assert!(rt;
        answer(
            alloc,
            b"define void @f(ptr %p) {\n  call void @llvm.memset.p0.i64(ptr align 8 %p, i8 0, i64 8, i1 false)\n  ret void\n}\n"
        ) == (b'm', 1)
    );
    assert!(rt;
        answer(
            alloc,
            b"define i32 @f(i32 %a) {\n  %b = call i32 @llvm.smax.i32(i32 %a, i32 0)\n  ret i32 %b\n}\n"
        ) == (b'm', 1)
    );
}

#[test]
fn memory(rt: HostRuntime) {
    let alloc = rt.alloc();
    assert!(rt;
        answer(
            alloc,
            b"define i32 @f(i32 %a) {\n  %p = alloca i32, align 4\n  store i32 %a, ptr %p, align 4\n  %v = load i32, ptr %p, align 4\n  ret i32 %v\n}\n"
        ) == (b'm', 1)
    );
    assert!(rt;
        answer(
            alloc,
            b"define ptr @f(ptr %p, i64 %i) {\n  %q = getelementptr inbounds { i32, [2 x i64] }, ptr %p, i64 %i, i32 1\n  ret ptr %q\n}\n"
        ) == (b'm', 1)
    );
    assert!(rt;
        answer(
            alloc,
            b"define void @f() {\n%p = alloca i8, align 32\nret void\n}"
        ) == (b'l', 35)
    );
    assert!(rt; answer(alloc, b"define void @f() {\n%p = alloca i7\nret void\n}") == (b'l', 31));
    assert!(rt;
        answer(
            alloc,
            b"define void @f() {\nbr label %a\na:\n%p = alloca i8\nret void\n}"
        ) == (b'l', 39)
    );
    assert!(rt;
        answer(
            alloc,
            b"define void @f(i32 %n) {\n%p = alloca i8, i32 %n\nret void\n}"
        ) == (b'l', 30)
    );
    assert!(rt;
        answer(
            alloc,
            b"define void @f() {\n%p = alloca [4294967297 x i8]\nret void\n}"
        ) == (b'c', 4_294_967_297)
    );
    assert!(rt; answer(alloc, b"define void @f() {\n%p = alloca %t\nret void\n}") == (b'n', 31));
}

#[test]
fn refusals(rt: HostRuntime) {
    let alloc = rt.alloc();
    assert!(rt; answer(alloc, b"define i64 @f(i64 %a) {\n  %x = add i64 %a,") == (b's', 42));
    assert!(rt; answer(alloc, b"define void @f() !dbg !-5 {\nret void\n}") == (b's', 23));
    assert!(rt;
        answer(
            alloc,
            b"define i32 @f(i32 %a) {\n%b = call i32 @llvm.smax.i032(i32 %a, i32 0)\nret i32 %b\n}"
        ) == (b'l', 38)
    );
    assert!(rt; answer(alloc, b"define float @f() { }") == (b'l', 7));
    assert!(rt; answer(alloc, b"x") == (b's', 0));
    assert!(rt; answer(alloc, b"define i64 @f(i64 %a) {\nret i64 %b\n}") == (b'n', 32));
    assert!(rt; answer(alloc, b"define i64 @f(i64 %a, i64 %a) {\nret i64 %a\n}") == (b'n', 26));
    assert!(rt; answer(alloc, b"define i8 @f() {\nret i8 256\n}") == (b's', 24));
    assert!(rt; answer(alloc, b"define i8 @f() {\nret i8 -129\n}") == (b's', 24));
    assert!(rt; answer(alloc, b"define i2 @f() {\nret i2 true\n}") == (b's', 24));
    assert!(rt; answer(alloc, b"define i64 @f(i32 %a) {\nret i32 %a\n}") == (b's', 28));
    assert!(rt; answer(alloc, b"define i65 @f() {\nret i65 1\n}") == (b'l', 7));
    assert!(rt;
        answer(
            alloc,
            b"define i64 @f(i64 %0) {\n  %1 = add i64 %0, 1\n  ret i64 %1\n}"
        ) == (b'n', 26)
    );
    assert!(rt;
        answer(
            alloc,
            b"define void @f(i1, i1, i1, i1, i1, i1, i1, i1, i1) {\nret void\n}"
        ) == (b'p', 9)
    );
    assert!(rt; answer(alloc, b"define void @f(void) {\nret void\n}") == (b's', 15));
    assert!(rt; answer(alloc, b"define void @llvm.abs.i32() {\nret void\n}") == (b'n', 12));
    assert!(rt;
        answer(
            alloc,
            b"define void @f() {\ncall void @llvm.trap()\nret void\n}"
        ) == (b'l', 29)
    );
    assert!(rt;
        answer(
            alloc,
            b"define void @llvm.f() {\ncall void @\"ll\\76m.f\"()\nret void\n}"
        ) == (b'l', 34)
    );
    assert!(rt;
        answer(
            alloc,
            b"define i8 @f() {\n%b = call i8 @\"llvm.smax\\2Ei8\"(i8 1, i8 2)\nret i8 %b\n}"
        ) == (b'm', 1)
    );
    assert!(rt;
        answer(
            alloc,
            b"define i64 @f(i64 %a) {\n%b = call i64 @llvm.smax.i32(i64 %a, i64 0)\nret i64 %b\n}"
        ) == (b'n', 38)
    );
}

#[test]
fn what_is_shown(rt: HostRuntime) {
    let alloc = rt.alloc();
    let text =
        b"define void @f(ptr %p) {\ncall void @llvm.memset.p0.i64(ptr %p, i8 0, i64 8, i1 true)\nret void\n}";
    let told = read(alloc, text);
    let shown = match &told {
        Err(ReadRefusal::LeftOut { at, word }) => (*at, word.as_slice() == b"volatile".as_slice()),
        _ => (0, false),
    };
    assert!(rt; shown == (79, true));
    let told = read(alloc, b"define void @f() {\nbr label %\"a b\"\n}");
    let shown = match &told {
        Err(ReadRefusal::Name { at, name }) => (*at, name.as_slice() == b"%\"a b\"".as_slice()),
        _ => (0, false),
    };
    assert!(rt; shown == (28, true));
}

/// A file as clang writes it.
const SUM: &[u8] =
    b"; ModuleID = 'sum.c'\nsource_filename = \"sum.c\"\ntarget datalayout = \"e-m:e-p:64:64-i64:64-i128:128-n32:64-S128\"\ntarget triple = \"riscv64-unknown-linux-gnu\"\n\n%struct.pair = type { i32, i64 }\n\n@table = dso_local global [2 x %struct.pair] [%struct.pair { i32 3, i64 40 }, %struct.pair { i32 5, i64 -2 }], align 16\n\n; Function Attrs: noinline nounwind\ndefine dso_local signext i32 @sum(i32 noundef signext %0) #0 {\n  %2 = alloca i32, align 4\n  %3 = alloca [2 x %struct.pair], align 16\n  store i32 %0, ptr %2, align 4\n  call void @llvm.memcpy.p0.p0.i64(ptr align 16 %3, ptr align 16 @table, i64 32, i1 false)\n  %4 = load i32, ptr %2, align 4\n  %5 = sext i32 %4 to i64\n  %6 = getelementptr inbounds [2 x %struct.pair], ptr %3, i64 0, i64 %5\n  %7 = getelementptr inbounds %struct.pair, ptr %6, i32 0, i32 1\n  %8 = load i64, ptr %7, align 8\n  %9 = trunc i64 %8 to i32\n  ret i32 %9\n}\n\ndeclare void @llvm.memcpy.p0.p0.i64(ptr noalias, ptr noalias, i64, i1 immarg) #1\n\nattributes #0 = { noinline nounwind \"no-trapping-math\"=\"true\" }\nattributes #1 = { nounwind willreturn }\n\n!llvm.module.flags = !{!0}\n!0 = !{i32 1, !\"wchar_size\", i32 4}\n";

/// The last instruction of the first block of the first function.
fn last_of(module: &Module) -> Option<&Inst> {
    module
        .functions
        .as_slice()
        .first()?
        .blocks
        .as_slice()
        .first()?
        .insts
        .as_slice()
        .last()
}

/// Whether the file's global is called `table`, and how many parts its initial value and its function's first block have.
fn sum_counts(alloc: Global) -> Option<(bool, usize, usize)> {
    let Ok(module) = read(alloc, SUM) else {
        return None;
    };
    let table = module.globals.as_slice().first()?;
    let block = module
        .functions
        .as_slice()
        .first()?
        .blocks
        .as_slice()
        .first()?;
    let Init::List(items) = &table.init else {
        return None;
    };
    Some((
        table.name.as_slice() == b"table".as_slice(),
        items.len(),
        block.insts.len(),
    ))
}

/// The global and the offset that a text's first function returns.
fn returned_place(alloc: Global, text: &[u8]) -> Option<(u32, u64)> {
    let Ok(module) = read(alloc, text) else {
        return None;
    };
    match &last_of(&module)?.op {
        Op::Ret(Some(Operand::Place(global, offset))) => Some((*global, *offset)),
        _ => None,
    }
}

#[test]
fn named_types_and_globals(rt: HostRuntime) {
    let alloc = rt.alloc();
    assert!(rt; sum_counts(alloc) == Some((true, 2, 11)));
    assert!(rt;
        returned_place(
            alloc,
            b"%t = type { i32, [2 x i64] }\n@a = global i8 0\n@b = global %t zeroinitializer\ndefine ptr @f() {\nret ptr getelementptr inbounds (%t, ptr @b, i64 0, i32 1, i64 1)\n}"
        ) == Some((1, 16))
    );
    assert!(rt;
        returned_place(alloc, b"@a = global i8 0\ndefine ptr @f() {\nret ptr @a\n}") == Some((0, 0))
    );
    assert!(rt; answer(alloc, b"%t = type i64\ndefine %t @f(%t %a) {\nret %t %a\n}") == (b'm', 1));
    assert!(rt; answer(alloc, b"@g = global i32 1\n@g = global i32 2\n") == (b'n', 18));
    assert!(rt; answer(alloc, b"@f = global i32 1\ndefine void @f() {\nret void\n}") == (b'n', 30));
    assert!(rt; answer(alloc, b"@g = global i1 true\n") == (b'l', 12));
    assert!(rt;
        answer(
            alloc,
            b"@g = global ptr @f\ndefine void @f() {\nret void\n}"
        ) == (b'l', 16)
    );
    assert!(rt; answer(alloc, b"define ptr @f() {\nret ptr @f\n}") == (b'l', 26));
    assert!(rt; answer(alloc, b"@g = global ptr @h\n") == (b'n', 16));
    assert!(rt; answer(alloc, b"@g = global i8 256\n") == (b's', 15));
    assert!(rt; answer(alloc, b"%t = type { %t }\n") == (b'n', 12));
    assert!(rt; answer(alloc, b"%t = type { %u }\n") == (b'n', 12));
    assert!(rt; answer(alloc, b"%t = type i8\n%t = type i8\n") == (b'n', 13));
}

/// An `alloca` of a struct of so many bytes.
fn wide_alloca(alloc: Global, fields: usize) -> Result<Items<u8>, AllocError> {
    let mut text = Items::from_slice(alloc, b"define void @f() {\n%p = alloca { i8")?;
    for _ in 1..fields {
        text.push(b',')?;
        text.push(b'i')?;
        text.push(b'8')?;
    }
    for byte in b" }\nret void\n}" {
        text.push(*byte)?;
    }
    Ok(text)
}

#[test]
fn limits(rt: HostRuntime) -> Result<(), AllocError> {
    let alloc = rt.alloc();
    assert!(rt; answer(alloc, wide_alloca(alloc, 4095)?.as_slice()) == (b'm', 1));
    assert!(rt; answer(alloc, wide_alloca(alloc, 4096)?.as_slice()) == (b'k', 4097));
    assert!(rt; answer(alloc, vec![in alloc; b' '; 4_194_305]?.as_slice()) == (b'b', 4_194_305));
    Ok(())
}

// Types, words and operators as clang writes them.
use ir_grammar::operators::{flags_of, is_binary, is_cast, predicate, samesign_flag};
use ir_grammar::types::type_form;
use ir_grammar::words::{attributes, suffixes, words};
use ir_text::{Reader, token_at};
use std::alloc::Global;

/// How many parts a type has, and how many bytes are left behind it; none where no type stands there.
fn parts(alloc: Global, text: &[u8]) -> Option<(usize, usize)> {
    let mut reader = Reader::new(alloc, text);
    match type_form(&mut reader) {
        Ok(ty) => Some((ty.len(), reader.left())),
        Err(_) => None,
    }
}

#[test]
fn types(rt: HostRuntime) {
    let alloc = rt.alloc();
    assert!(rt; parts(alloc, b"i64 %a") == Some((1, 2)));
    assert!(rt; parts(alloc, b"void") == Some((1, 0)));
    assert!(rt; parts(alloc, b"%\"a b\", ptr") == Some((1, 5)));
    assert!(rt; parts(alloc, b"[4 x [2 x i8]] x") == Some((3, 1)));
    assert!(rt; parts(alloc, b"<{ i8, { ptr, i32 } }>,") == Some((7, 1)));
    assert!(rt; parts(alloc, b"{}") == Some((2, 0)));
    assert!(rt; parts(alloc, b"<{ i8 }") == None);
    assert!(rt; parts(alloc, b"[4 x i8}") == None);
    assert!(rt; parts(alloc, b"<4 x i8>") == None);
    assert!(rt; parts(alloc, b"float") == None);
}

/// How many bytes are left behind words and then attributes that are dropped.
fn behind_dropped(alloc: Global, text: &[u8]) -> Option<usize> {
    let mut reader = Reader::new(alloc, text);
    if words(&mut reader).is_err() || attributes(&mut reader).is_err() {
        return None;
    }
    Some(reader.left())
}

#[test]
fn dropped_words(rt: HostRuntime) {
    let alloc = rt.alloc();
    assert!(rt; behind_dropped(alloc, b"dso_local noundef range(i32 0, 9) i32 @f") == Some(6));
    assert!(rt; behind_dropped(alloc, b"align 8 \"a\"=\"b\" #3 %p") == Some(2));
    assert!(rt; behind_dropped(alloc, b"cc 10 i32") == Some(3));
    assert!(rt; behind_dropped(alloc, b"byval(i8) %p") == Some(12));
    assert!(rt; behind_dropped(alloc, b"range(i32 0") == None);
    assert!(rt; behind_dropped(alloc, b"align -8 i32") == Some(6));
    assert!(rt; behind_dropped(alloc, b"cc -1 i32") == Some(6));
    assert!(rt; behind_dropped(alloc, b"#-1 %p") == Some(6));
}

/// How many `align` the suffixes have, and how many bytes are left behind them.
fn aligned(alloc: Global, text: &[u8]) -> Option<(usize, usize)> {
    let mut reader = Reader::new(alloc, text);
    match suffixes(&mut reader) {
        Ok(aligns) => Some((aligns.len(), reader.left())),
        Err(_) => None,
    }
}

#[test]
fn what_stands_behind(rt: HostRuntime) {
    let alloc = rt.alloc();
    assert!(rt; aligned(alloc, b", align 8, !tbaa !3\n}") == Some((1, 1)));
    assert!(rt; aligned(alloc, b", section \"s\", comdat, align 1 x") == Some((1, 1)));
    assert!(rt; aligned(alloc, b", !dbg !DILocation(line: 1), !a !{i64 1}") == Some((0, 0)));
    assert!(rt; aligned(alloc, b"") == Some((0, 0)));
    assert!(rt; aligned(alloc, b", align x") == None);
    assert!(rt; aligned(alloc, b", align -8") == None);
    assert!(rt; aligned(alloc, b", !dbg !-5") == None);
}

#[test]
fn operators(rt: HostRuntime) {
    assert!(rt; is_binary(token_at(b"ashr exact").0));
    assert!(rt; !is_binary(token_at(b"fadd").0));
    assert!(rt; is_cast(token_at(b"inttoptr").0));
    let mut reader = Reader::new(rt.alloc(), b"samesign ult i8");
    assert!(rt; flags_of(&mut reader, samesign_flag()).is_ok());
    assert!(rt; predicate(&mut reader).is_ok());
    assert!(rt; reader.left() == 2);
    assert!(rt; predicate(&mut reader).is_err());
}

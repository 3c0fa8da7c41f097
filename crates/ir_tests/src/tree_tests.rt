// Texts in the form that clang writes, and what is wrong with others.
use ir_tree::{TextRefusal, read_text};
use std::alloc::Global as Alloc;

/// `f` and the number of functions where there is a tree; else `s` or `l` and the place.
fn answer(alloc: Alloc, text: &[u8]) -> (u8, usize) {
    match read_text(alloc, text) {
        Ok(tree) => (b'f', tree.functions.len()),
        Err(TextRefusal::Syntax(left)) => (b's', text.len().saturating_sub(left)),
        Err(TextRefusal::LeftOut(left)) => (b'l', text.len().saturating_sub(left)),
        Err(TextRefusal::NoMemory) => (b'm', 0),
    }
}

#[test]
fn items(rt: HostRuntime) {
    let alloc = rt.alloc();
    assert!(rt; answer(alloc, b"") == (b'f', 0));
    assert!(rt;
        answer(
            alloc,
            b"; a comment\ntarget triple = \"riscv64\"\n%t = type opaque\n!0 = !{i32 1}\n$c = comdat any\n"
        ) == (b'f', 0)
    );
    assert!(rt;
        answer(
            alloc,
            b"@g = private unnamed_addr constant <{ i8, [2 x ptr] }> <{ i8 -1, [2 x ptr] [ptr @g, ptr null] }>, align 1, !dbg !3\n"
        ) == (b'f', 0)
    );
    assert!(rt;
        answer(
            alloc,
            b"@t = global i1 true\n@c = global [3 x i8] c\"a\\5C\\00\"\n"
        ) == (b'f', 0)
    );
    assert!(rt;
        answer(
            alloc,
            b"define dso_local noundef range(i32 0, 9) i32 @f(ptr noundef captures(none) %0) local_unnamed_addr #0 !dbg !5 {\n  ret i32 0\n}\n"
        ) == (b'f', 1)
    );
}

#[test]
fn instructions(rt: HostRuntime) {
    let alloc = rt.alloc();
    assert!(rt;
        answer(
            alloc,
            b"define void @f() {\n  #dbg_value(i32 undef, !5, !DIExpression(), !6)\n  br label %b, !llvm.loop !7\nb:\n  ret void\n}"
        ) == (b'f', 1)
    );
    assert!(rt;
        answer(
            alloc,
            b"define void @f() {\n  %x = tail call i64 @llvm.smax.i64(i64 %a, i64 7), !range !{i64 0}\n  call void @llvm.assume(i1 %y) [ \"align\"(ptr %p) ]\n  unreachable\n}"
        ) == (b'f', 1)
    );
    assert!(rt;
        answer(
            alloc,
            b"define void @f() {\n  %x = getelementptr inbounds nuw i8, ptr @g, i64 1\n  %y = alloca i8, i64 %n, align 32\n  switch i1 %c, label %a [ i1 true, label %b ]\n}"
        ) == (b'f', 1)
    );
    assert!(rt; answer(alloc, b"define i64 @f(i64 %a) {\n  %x = add i64 %a,") == (b's', 42));
    assert!(rt; answer(alloc, b"define void @f() {\n  %x = add nuw nuw i8 1, 2\n}") == (b's', 34));
}

#[test]
fn left_out_words(rt: HostRuntime) {
    let alloc = rt.alloc();
    assert!(rt; answer(alloc, b"define float @f() { }") == (b'l', 7));
    assert!(rt; answer(alloc, b"x") == (b's', 0));
    assert!(rt; answer(alloc, b"declare float @g(...)\nx") == (b's', 22));
    assert!(rt; answer(alloc, b"declare float @g(...)\nx <4 x i8>") == (b'l', 24));
    assert!(rt; answer(alloc, b"x byval(float)") == (b'l', 2));
    assert!(rt;
        answer(
            alloc,
            b"x sret(float) !{half} !a (undef) \"nest\" %asm fence: ; fneg\n"
        ) == (b's', 0)
    );
    assert!(rt; answer(alloc, b"x !dbg !5 { undef }") == (b'l', 12));
}

//! Modules that the tests share.

/// The sum of two numbers.
pub const ADD: &str = "define i64 @add(i64 %a, i64 %b) {\n  %s = add i64 %a, %b\n  ret i64 %s\n}\n";

/// A value that one of two ways doesn't define.
pub const UNASSIGNED: &str =
    "define i64 @w(i1 %c) {\nentry:\n  br i1 %c, label %left, label %right\nleft:\n  %x = add i64 1, 2\n  br label %join\nright:\n  br label %join\njoin:\n  ret i64 %x\n}\n";

/// A block that no way leads to uses a value of another such block.
pub const UNREACHED: &str =
    "define i64 @v() {\nentry:\n  ret i64 4\nlost:\n  ret i64 %y\nlater:\n  %y = add i64 1, 2\n  br label %lost\n}\n";

/// Poison that is not used.
pub const SHIFTED: &str = "define i8 @s(i8 %a) {\n  %x = shl i8 %a, 9\n  ret i8 1\n}\n";

/// A quotient of bytes.
pub const QUOTIENT: &str = "define i8 @q(i8 %a, i8 %b) {\n  %c = sdiv i8 %a, %b\n  ret i8 %c\n}\n";

/// A quotient of five bits.
pub const FIVE_BITS: &str = "define i5 @u(i5 %a, i5 %b) {\n  %c = udiv i5 %a, %b\n  ret i5 %c\n}\n";

/// Two phis that take each other's value, three times.
pub const SWAP: &str =
    "define i64 @swap(i64 %a, i64 %b) {\nentry:\n  br label %loop\nloop:\n  %x = phi i64 [ %a, %entry ], [ %y, %loop ]\n  %y = phi i64 [ %b, %entry ], [ %x, %loop ]\n  %i = phi i64 [ 0, %entry ], [ %j, %loop ]\n  %j = add i64 %i, 1\n  %c = icmp eq i64 %j, 3\n  br i1 %c, label %out, label %loop\nout:\n  %r = sub i64 %x, %y\n  ret i64 %r\n}\n";

/// Calls itself so often.
pub const DOWN: &str =
    "define i64 @down(i64 %n) {\n  %z = icmp eq i64 %n, 0\n  br i1 %z, label %done, label %more\nmore:\n  %m = sub i64 %n, 1\n  %r = call i64 @down(i64 %m)\n  ret i64 %r\ndone:\n  ret i64 7\n}\n";

/// A loop without an end.
pub const SPIN: &str = "define void @spin() {\n  br label %loop\nloop:\n  br label %loop\n}\n";

/// A file in the form that clang writes.
pub const SUM: &str =
    "; ModuleID = 'sum.c'\nsource_filename = \"sum.c\"\ntarget datalayout = \"e-m:e-p:64:64-i64:64-i128:128-n32:64-S128\"\ntarget triple = \"riscv64-unknown-linux-gnu\"\n\n%struct.pair = type { i32, i64 }\n\n@table = dso_local global [2 x %struct.pair] [%struct.pair { i32 3, i64 40 }, %struct.pair { i32 5, i64 -2 }], align 16\n\n; Function Attrs: noinline nounwind\ndefine dso_local signext i32 @sum(i32 noundef signext %0) #0 {\n  %2 = alloca i32, align 4\n  %3 = alloca [2 x %struct.pair], align 16\n  store i32 %0, ptr %2, align 4\n  call void @llvm.memcpy.p0.p0.i64(ptr align 16 %3, ptr align 16 @table, i64 32, i1 false)\n  %4 = load i32, ptr %2, align 4\n  %5 = sext i32 %4 to i64\n  %6 = getelementptr inbounds [2 x %struct.pair], ptr %3, i64 0, i64 %5\n  %7 = getelementptr inbounds %struct.pair, ptr %6, i32 0, i32 1\n  %8 = load i64, ptr %7, align 8\n  %9 = trunc i64 %8 to i32\n  ret i32 %9\n}\n\ndeclare void @llvm.memcpy.p0.p0.i64(ptr noalias, ptr noalias, i64, i1 immarg) #1\n\nattributes #0 = { noinline nounwind \"no-trapping-math\"=\"true\" }\nattributes #1 = { nounwind willreturn }\n\n!llvm.module.flags = !{!0}\n!0 = !{i32 1, !\"wchar_size\", i32 4}\n";

/// One parameter too many.
pub const NINE: &str =
    "define i64 @f(i64 %a, i64 %b, i64 %c, i64 %d, i64 %e, i64 %g, i64 %h, i64 %i, i64 %j) {\n  ret i64 %a\n}\n";

/// Twice a number, in two blocks.
pub const TWICE: &str =
    "define i64 @twice(i64 %a) {\nentry:\n  %b = add i64 %a, %a\n  br label %out\nout:\n  ret i64 %b\n}\n";

/// Takes the place of the number in a global, and answers the difference.
pub const KEEPS: &str =
    "@g = global i32 7\ndefine i32 @keep(i32 %a) {\n  %b = load i32, ptr @g\n  store i32 %a, ptr @g\n  %c = load i32, ptr @g\n  %d = sub i32 %c, %b\n  ret i32 %d\n}\n";

/// Operators of 64 bits, on lines with and without spaces before them.
pub const OTHERS: &str =
    "define i64 @f(i64 %a, i64 %b) {\n%c = sub i64 %a, %b\n%d = mul i64 %c, %c\n%e = and i64 %d, %a\n%g = or i64 %e, %b\n   %h = xor i64 %g, %d\n  ret i64 %h\n}";

/// A function that calls another twice.
pub const TWO: &str =
    "define i64 @two(i64 %a) {\n  %b = call i64 @inc(i64 %a)\n  %c = call i64 @inc(i64 %b)\n  ret i64 %c\n}\ndefine i64 @inc(i64 %a) {\n  %b = add i64 %a, 1\n  ret i64 %b\n}\n";

/// Calls itself without an end.
pub const DEEP: &str = "define i64 @r(i64 %a) {\n  %b = call i64 @r(i64 %a)\n  ret i64 %b\n}\n";

/// Fibonacci numbers by a loop and by calls, beside a global.
pub const FIBONACCI: &str =
    "@unused = global i64 5\ndefine i64 @loop(i64 %n) {\nentry:\n  %none = icmp eq i64 %n, 0\n  br i1 %none, label %out, label %body\nbody:\n  %i = phi i64 [ 0, %entry ], [ %j, %body ]\n  %a = phi i64 [ 0, %entry ], [ %b, %body ]\n  %b = phi i64 [ 1, %entry ], [ %sum, %body ]\n  %sum = add i64 %a, %b\n  %j = add i64 %i, 1\n  %less = icmp ult i64 %j, %n\n  br i1 %less, label %body, label %out\nout:\n  %r = phi i64 [ 0, %entry ], [ %b, %body ]\n  ret i64 %r\n}\ndefine i64 @calls(i64 %n) {\n  %small = icmp slt i64 %n, 2\n  br i1 %small, label %done, label %more\ndone:\n  ret i64 %n\nmore:\n  %m = sub i64 %n, 1\n  %k = sub i64 %n, 2\n  %a = call i64 @calls(i64 %m)\n  %b = call i64 @calls(i64 %k)\n  %s = add i64 %a, %b\n  ret i64 %s\n}\n";

/// The mean of two signed bytes, half of the lesser of two numbers, and a function without a result.
pub const NARROW: &str =
    "define i8 @mean(i8 %a, i8 %b) {\n  %c = sext i8 %a to i16\n  %d = sext i8 %b to i16\n  %e = add nsw i16 %c, %d\n  %f = sdiv i16 %e, 2\n  %g = trunc i16 %f to i8\n  ret i8 %g\n}\ndefine i32 @half(i32 %a, i32 %b) {\n  %c = icmp slt i32 %a, %b\n  %d = select i1 %c, i32 %a, i32 %b\n  %e = ashr i32 %d, 1\n  ret i32 %e\n}\ndefine void @none(i64 %a) {\n  %b = call i8 @mean(i8 1, i8 2)\n  ret void\n}\n";

/// A switch over bytes.
pub const SWITCHES: &str =
    "define i8 @d(i8 %a) {\n  switch i8 %a, label %other [ i8 -1, label %last  i8 3, label %third ]\nother:\n  ret i8 %a\nlast:\n  ret i8 10\nthird:\n  ret i8 20\n}\n";

/// The address of a part.
pub const PARTS: &str =
    "define i64 @d() {\n  %p = getelementptr i64, ptr null, i64 1\n  ret i64 3\n}\n";

/// Data memory of a function's own.
pub const ALLOCATES: &str = "define i64 @d() {\n  %p = alloca i64\n  ret i64 3\n}\n";

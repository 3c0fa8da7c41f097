//! Listings of words.
use crate::program::answers;
use crate::texts::TWICE;
use std::test::Fail;

/// The listing of `@twice` at level 1.
const TWICE_WORDS: &str =
    "@twice level 1 words 19\n00100293 addi t0,x0,1\n00000313 addi t1,x0,0\n00000073 ecall\nf4010293 addi t0,sp,-192\n400003b7 lui t2,0x40000\n0072f663 bgeu t0,t2,12\n00200293 addi t0,x0,2\n00000073 ecall\nf4010113 addi sp,sp,-192\n0a113c23 sd ra,184(sp)\n00a13023 sd a0,0(sp)\n00013283 ld t0,0(sp)\n00013303 ld t1,0(sp)\n006282b3 add t0,t0,t1\n02513023 sd t0,32(sp)\n02013503 ld a0,32(sp)\n0b813083 ld ra,184(sp)\n0c010113 addi sp,sp,192\n00008067 jalr x0,0(ra)\n";

/// Two functions, the second under a name that isn't bare, beside a global that doesn't fit the data memory.
const NAMED: &str =
    "@much = global [2000000 x i8] zeroinitializer\ndefine void @1() {\n  unreachable\n}\ndefine void @\"a \\22\"() {\n  unreachable\n}\n";

/// Their listing.
const NAMED_LISTED: &str = "\
@1 level 1 words 10\n\
00100293 addi t0,x0,1\n\
00000313 addi t1,x0,0\n\
00000073 ecall\n\
f8010293 addi t0,sp,-128\n\
400003b7 lui t2,0x40000\n\
0072f663 bgeu t0,t2,12\n\
00200293 addi t0,x0,2\n\
00000073 ecall\n\
f8010113 addi sp,sp,-128\n\
06113c23 sd ra,120(sp)\n\
@\"a \\22\" level 1 words 10\n\
00100293 addi t0,x0,1\n\
00100313 addi t1,x0,1\n\
00000073 ecall\n\
f8010293 addi t0,sp,-128\n\
400003b7 lui t2,0x40000\n\
0072f663 bgeu t0,t2,12\n\
00200293 addi t0,x0,2\n\
00000073 ecall\n\
f8010113 addi sp,sp,-128\n\
06113c23 sd ra,120(sp)\n";

#[test]
fn of_words(rt: HostRuntime) -> Result<(), Fail> {
    let row = (TWICE, "", 0, TWICE_WORDS, "");
    for words in ["dump a.ll", "dump --level 1 a.ll", "dump a.ll --level=01"] {
        answers(&rt, rt.alloc(), words, row)?;
    }
    answers(
        &rt,
        rt.alloc(),
        "dump a.ll",
        (NAMED, "", 0, NAMED_LISTED, ""),
    )?;
    answers(&rt, rt.alloc(), "dump a.ll", ("", "", 0, "", ""))
}

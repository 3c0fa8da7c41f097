// A listing over every format's ends of range. Words and texts are those of LLVM's assembler.

use rj_num::NoMemory;
use rv_print::listing::listing;

#[test]
fn lists_words(rt: HostRuntime) -> Result<(), NoMemory> {
    let words = [
        0x00000537,
        0xffffffb7,
        0x12345097,
        0x800000ef,
        0x7ffff06f,
        0x00008067,
        0x800f8567,
        0x80b50063,
        0x7e0d9fe3,
        0x0072f663,
        0x80010503,
        0x0b813083,
        0xffffef83,
        0x80a10023,
        0x0a113c23,
        0xf4010293,
        0x7ff50513,
        0x0ff5f513,
        0x03f51513,
        0x41f55513,
        0xfff5051b,
        0x41f5551b,
        0x00b50533,
        0x411d8fb3,
        0x00c5d533,
        0x02c5a533,
        0x02c5c533,
        0x02c5853b,
        0x0ff0000f,
        0x00000073,
        0x00100073,
        0,
        0x4015_1513,
    ];
    let wanted = "\
00000537 lui a0,0x0\n\
ffffffb7 lui t6,0xfffff\n\
12345097 auipc ra,0x12345\n\
800000ef jal ra,-1048576\n\
7ffff06f jal x0,1048574\n\
00008067 jalr x0,0(ra)\n\
800f8567 jalr a0,-2048(t6)\n\
80b50063 beq a0,a1,-4096\n\
7e0d9fe3 bne s11,x0,4094\n\
0072f663 bgeu t0,t2,12\n\
80010503 lb a0,-2048(sp)\n\
0b813083 ld ra,184(sp)\n\
ffffef83 lwu t6,-1(t6)\n\
80a10023 sb a0,-2048(sp)\n\
0a113c23 sd ra,184(sp)\n\
f4010293 addi t0,sp,-192\n\
7ff50513 addi a0,a0,2047\n\
0ff5f513 andi a0,a1,255\n\
03f51513 slli a0,a0,63\n\
41f55513 srai a0,a0,31\n\
fff5051b addiw a0,a0,-1\n\
41f5551b sraiw a0,a0,31\n\
00b50533 add a0,a0,a1\n\
411d8fb3 sub t6,s11,a7\n\
00c5d533 srl a0,a1,a2\n\
02c5a533 mulhsu a0,a1,a2\n\
02c5c533 div a0,a1,a2\n\
02c5853b mulw a0,a1,a2\n\
0ff0000f fence\n\
00000073 ecall\n\
00100073 ebreak\n\
00000000 word\n\
40151513 word\n";
    let text = listing(rt.alloc(), &words)?;
    assert!(rt; text.as_slice() == wanted.as_bytes());
    Ok(())
}

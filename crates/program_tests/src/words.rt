//! Words that are no command line.
use crate::program::answers;
use crate::texts::ADD;
use std::test::Fail;

#[test]
fn no_command_lines(rt: HostRuntime) -> Result<(), Fail> {
    let lines = [
        "",
        "walk a.ll c.txt",
        "Run a.ll c.txt",
        "a.ll c.txt",
        "run",
        "run a.ll",
        "run a.ll c.txt c.txt",
        "eval a.ll",
        "dump",
        "dump a.ll c.txt",
        "sim a.ll",
        "big",
        "big 1 2",
        "help",
        "run --help",
        "run -h",
        "run --version a.ll c.txt",
        "run a.ll c.txt --walk",
        "run a.ll c.txt -r",
        "run a.ll c.txt --har 2",
        "run a.ll c.txt --harts",
        "run a.ll c.txt --harts two",
        "run a.ll c.txt --harts 0",
        "run a.ll c.txt --harts 17",
        "run a.ll c.txt --harts=+1",
        "run a.ll c.txt --harts -1",
        "run a.ll c.txt --harts 000000000000000000001",
        "run a.ll c.txt --harts 1 --harts 1",
        "run a.ll c.txt --harts 1 --harts=2",
        "run a.ll c.txt --workers 9",
        "run a.ll c.txt --code-words 0",
        "run a.ll c.txt --code-words 4194305",
        "run a.ll c.txt --room 0",
        "run a.ll c.txt --room 4080",
        "run a.ll c.txt --room 4104",
        "run a.ll c.txt --room 67108880",
        "run a.ll c.txt --report --report",
        "run a.ll c.txt --report=1",
        "run a.ll -- c.txt --report",
        "run a.ll c.txt --level 1",
        "eval a.ll c.txt --harts 1",
        "eval a.ll c.txt --room 512",
        "dump a.ll --level 0",
        "dump a.ll --level 4",
        "dump a.ll --room 4096",
        "sim a.ll c.txt --steps 1000001",
        "sim a.ll c.txt --draw 18446744073709551616",
        "sim a.ll c.txt --workers 1",
        "sim a.ll c.txt --report",
        "big 0",
        "big 65537",
        "big many",
    ];
    for line in lines {
        answers(&rt, rt.alloc(), line, (ADD, "", 3, "", "reopt: usage\n"))?;
    }
    Ok(())
}

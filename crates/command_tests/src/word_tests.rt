// Words that are command lines, and others that are none.
use command_words::{CommandLine, RunOptions, SimOptions, read_words};
use std::alloc::{AllocError, Global};

const USUAL: RunOptions = RunOptions {
    harts: 1,
    workers: 1,
    code_words: 262_144,
    room: 1_048_576,
    report: false,
};

const USUAL_SIM: SimOptions = SimOptions {
    draw: 0,
    steps: 1_000,
    harts: 1,
    code_words: 262_144,
    room: 1_048_576,
};

fn words(alloc: Global, texts: &[&str]) -> Result<Vec<String>, AllocError> {
    let mut words = Vec::new(alloc);
    for text in texts {
        words.push(String::from_str(alloc, text)?)?;
    }
    Ok(words)
}

/// Whether the words are read as this command line.
fn reads(alloc: Global, texts: &[&str], wanted: Option<CommandLine<'static>>) -> bool {
    match words(alloc, texts) {
        Ok(words) => match read_words(alloc, words.as_slice()) {
            Ok(line) => line == wanted,
            Err(_) => false,
        },
        Err(_) => false,
    }
}

/// Whether the words are read, and are no command line.
fn is_none(alloc: Global, texts: &[&str]) -> bool {
    reads(alloc, texts, None)
}

fn run(
    module_name: &'static str,
    calls_name: &'static str,
    options: RunOptions,
) -> Option<CommandLine<'static>> {
    Some(CommandLine::Run {
        module_name,
        calls_name,
        options,
    })
}

fn eval(room: u64) -> Option<CommandLine<'static>> {
    Some(CommandLine::Eval {
        module_name: "m",
        calls_name: "c",
        room,
    })
}

#[test]
fn each_command(rt: HostRuntime) {
    let alloc = rt.alloc();
    assert!(rt; reads(alloc, ["run", "m", "c"].as_slice(), run("m", "c", USUAL)));
    let big = Some(CommandLine::Big {
        calls: 65_536,
        options: USUAL,
    });
    assert!(rt; reads(alloc, ["big", "65536"].as_slice(), big));
    assert!(rt; reads(alloc, ["eval", "m", "c"].as_slice(), eval(1_048_576)));
    let sim = Some(CommandLine::Sim {
        module_name: "m",
        calls_name: "c",
        options: USUAL_SIM,
    });
    assert!(rt; reads(alloc, ["sim", "m", "c"].as_slice(), sim));
    let dump = Some(CommandLine::Dump {
        module_name: "m",
        level: 1,
    });
    assert!(rt; reads(alloc, ["dump", "m"].as_slice(), dump));
}

#[test]
fn each_option(rt: HostRuntime) {
    let alloc = rt.alloc();
    let options = RunOptions {
        harts: 16,
        workers: 0,
        code_words: 4_194_304,
        room: 67_108_864,
        report: true,
    };
    let words = [
        "run",
        "--harts",
        "16",
        "m",
        "--workers=0",
        "--code-words",
        "4194304",
        "c",
        "--report",
        "--room=67108864",
    ];
    assert!(rt; reads(alloc, words.as_slice(), run("m", "c", options)));
    let sim = Some(CommandLine::Sim {
        module_name: "m",
        calls_name: "c",
        options: SimOptions {
            draw: u64::MAX,
            steps: 0,
            harts: 2,
            code_words: 1,
            room: 4_096,
        },
    });
    let words = [
        "sim",
        "--draw=18446744073709551615",
        "--steps",
        "0",
        "--harts=2",
        "m",
        "--code-words=1",
        "--room",
        "4096",
        "c",
    ];
    assert!(rt; reads(alloc, words.as_slice(), sim));
}

#[test]
fn words_behind_the_end_of_options(rt: HostRuntime) {
    let alloc = rt.alloc();
    assert!(rt;
        reads(
            alloc,
            ["run", "--", "--harts", "--"].as_slice(),
            run("--harts", "--", USUAL)
        )
    );
    assert!(rt;
        reads(
            alloc,
            ["run", "m", "--", "-c"].as_slice(),
            run("m", "-c", USUAL)
        )
    );
    assert!(rt;
        reads(
            alloc,
            ["run", "-", "", "--"].as_slice(),
            run("-", "", USUAL)
        )
    );
    assert!(rt; is_none(alloc, ["run", "m", "c", "--", "--report"].as_slice()));
    assert!(rt; is_none(alloc, ["--", "run", "m", "c"].as_slice()));
    assert!(rt; is_none(alloc, ["run", "m", "c", "--harts", "--", "2"].as_slice()));
}

#[test]
fn numbers(rt: HostRuntime) {
    let alloc = rt.alloc();
    assert!(rt;
        reads(
            alloc,
            ["eval", "m", "c", "--room", "00000000000000004096"].as_slice(),
            eval(4_096)
        )
    );
    assert!(rt;
        is_none(
            alloc,
            ["eval", "m", "c", "--room", "000000000000000004096"].as_slice()
        )
    );
    assert!(rt; is_none(alloc, ["eval", "m", "c", "--room", "4097"].as_slice()));
    assert!(rt; is_none(alloc, ["eval", "m", "c", "--room", "4080"].as_slice()));
    assert!(rt; is_none(alloc, ["eval", "m", "c", "--room", "67108880"].as_slice()));
    assert!(rt; is_none(alloc, ["eval", "m", "c", "--room="].as_slice()));
    assert!(rt; is_none(alloc, ["eval", "m", "c", "--room", ""].as_slice()));
    assert!(rt; is_none(alloc, ["eval", "m", "c", "--room", "-"].as_slice()));
    assert!(rt; is_none(alloc, ["eval", "m", "c", "--room", "+4096"].as_slice()));
    assert!(rt; is_none(alloc, ["eval", "m", "c", "--room", "4096 "].as_slice()));
    assert!(rt;
        is_none(
            alloc,
            ["sim", "m", "c", "--draw", "18446744073709551616"].as_slice()
        )
    );
    assert!(rt;
        is_none(
            alloc,
            ["sim", "m", "c", "--draw", "99999999999999999999"].as_slice()
        )
    );
    assert!(rt; is_none(alloc, ["big", "0"].as_slice()));
    assert!(rt; is_none(alloc, ["big", "65537"].as_slice()));
    assert!(rt; is_none(alloc, ["dump", "m", "--level", "2"].as_slice()));
    assert!(rt; is_none(alloc, ["dump", "m", "--level", "0"].as_slice()));
}

#[test]
fn no_command_lines(rt: HostRuntime) {
    let alloc = rt.alloc();
    assert!(rt; is_none(alloc, [].as_slice()));
    assert!(rt; is_none(alloc, ["ru", "m", "c"].as_slice()));
    assert!(rt; is_none(alloc, ["run", "m"].as_slice()));
    assert!(rt; is_none(alloc, ["run", "m", "c", "d"].as_slice()));
    assert!(rt;
        is_none(
            alloc,
            ["run", "m", "c", "--harts", "1", "--harts", "1"].as_slice()
        )
    );
    assert!(rt; is_none(alloc, ["run", "m", "c", "--report", "--report"].as_slice()));
    assert!(rt; is_none(alloc, ["run", "m", "c", "--report=true"].as_slice()));
    assert!(rt; is_none(alloc, ["run", "m", "c", "--harts"].as_slice()));
    assert!(rt;
        is_none(
            alloc,
            ["run", "m", "c", "--harts", "--workers", "1"].as_slice()
        )
    );
    assert!(rt; is_none(alloc, ["run", "m", "c", "--harts", "-1"].as_slice()));
    assert!(rt; is_none(alloc, ["run", "m", "c", "--hart", "1"].as_slice()));
    assert!(rt; is_none(alloc, ["run", "m", "c", "--=1"].as_slice()));
    assert!(rt; is_none(alloc, ["run", "m", "---"].as_slice()));
    assert!(rt; is_none(alloc, ["run", "m", "-c"].as_slice()));
    assert!(rt; is_none(alloc, ["run", "m", "c", "-h"].as_slice()));
    assert!(rt; is_none(alloc, ["run", "m", "c", "--help"].as_slice()));
    assert!(rt; is_none(alloc, ["run", "m", "c", "--version"].as_slice()));
    assert!(rt; is_none(alloc, ["eval", "m", "c", "--harts", "1"].as_slice()));
}

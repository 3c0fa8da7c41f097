// The module of many functions, its calls, and the line of their counts.
use ir_meaning::calls::Ended;
use jit_text::{counts_line, generate};

#[test]
fn module_and_calls(rt: HostRuntime) {
    let (module, calls) = generate(rt.alloc(), 66).expect(&rt, "memory");
    let begin =
        "define i64 @f0(i64 %v0) {\nb0:\n  ret i64 %v0\n}\ndefine i64 @f1(i64 %v0) {\nb0:\n  %v1 = call i64 @f0(i64 %v0)\n  %v2 = add i64 %v1, %v0\n  ret i64 %v2\n}\n";
    assert!(rt; module.as_slice().starts_with(begin.as_bytes()));
    let end =
        "define i64 @f63(i64 %v0) {\nb0:\n  %v1 = call i64 @f62(i64 %v0)\n  %v2 = add i64 %v1, %v0\n  ret i64 %v2\n}\n";
    assert!(rt; module.as_slice().ends_with(end.as_bytes()));
    assert!(rt; calls.as_slice().starts_with(b"@f0(i64 0)\n@f1(i64 1)\n"));
    assert!(rt;
        calls
            .as_slice()
            .ends_with(b"@f63(i64 63)\n@f0(i64 64)\n@f1(i64 65)\n")
    );
}

#[test]
fn counts_of_each_kind(rt: HostRuntime) {
    let list = [
        Ended::Value(18_446_744_073_709_551_615),
        Ended::Fault { pc: 4 },
        Ended::Value(3),
        Ended::Void,
        Ended::Stack,
        Ended::Fuel { spent: 256 },
        Ended::Stack,
    ];
    let line = counts_line(rt.alloc(), list.as_slice()).expect(&rt, "memory");
    assert!(rt;
        line.as_slice() == b"calls 7 value 2 void 1 stack 2 fuel 1 fault 1 sum 2\n".as_slice()
    );
}

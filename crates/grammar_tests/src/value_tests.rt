// Operands and initial values as clang writes them.
use ir_text::Reader;
use ir_value_trees::value_tree::Value;
use ir_value_trees::values::{argument, init_form, operand};
use std::alloc::Global;

/// How many bytes are left behind an operand; none where no operand stands there.
fn behind_operand(alloc: Global, text: &[u8]) -> Option<usize> {
    let mut reader = Reader::new(alloc, text);
    match operand(&mut reader) {
        Ok(_) => Some(reader.left()),
        Err(_) => None,
    }
}

#[test]
fn operands(rt: HostRuntime) {
    let alloc = rt.alloc();
    assert!(rt; behind_operand(alloc, b"%\"a\", 1") == Some(3));
    assert!(rt; behind_operand(alloc, b"-12 x") == Some(1));
    assert!(rt; behind_operand(alloc, b"poison") == Some(0));
    assert!(rt; behind_operand(alloc, b"@g)") == Some(1));
    assert!(rt;
        behind_operand(
            alloc,
            b"getelementptr inbounds nuw ([4 x i8], ptr @g, i64 0, i64 -1) x"
        ) == Some(1)
    );
    assert!(rt;
        behind_operand(
            alloc,
            b"getelementptr inrange(0, 8) (i8, ptr getelementptr (i8, ptr @g, i64 1), i32 2)"
        ) == Some(0)
    );
    assert!(rt; behind_operand(alloc, b"getelementptr (i8, ptr %p, i64 1)") == None);
    assert!(rt; behind_operand(alloc, b"undef") == None);
    assert!(rt; behind_operand(alloc, b"zeroinitializer") == None);
}

/// How many heads and tails an address has.
fn nesting(alloc: Global, text: &[u8]) -> Option<(usize, usize)> {
    let mut reader = Reader::new(alloc, text);
    match operand(&mut reader) {
        Ok(Value::Address(address)) => Some((address.heads.len(), address.tails.len())),
        _ => None,
    }
}

#[test]
fn addresses(rt: HostRuntime) {
    let alloc = rt.alloc();
    assert!(rt; nesting(alloc, b"@g") == Some((0, 0)));
    assert!(rt;
        nesting(
            alloc,
            b"getelementptr (i8, ptr getelementptr (i8, ptr @g, i64 1), i64 2)"
        ) == Some((2, 2))
    );
    assert!(rt; nesting(alloc, b"null") == None);
}

#[test]
fn arguments(rt: HostRuntime) {
    let mut reader = Reader::new(rt.alloc(), b"ptr noundef align 4 %p, i1 true");
    assert!(rt; argument(&mut reader).is_ok());
    assert!(rt; reader.left() == 9);
}

/// How many parts an initial value has, and how many bytes are left behind it.
fn init_parts(alloc: Global, text: &[u8]) -> Option<(usize, usize)> {
    let mut reader = Reader::new(alloc, text);
    match init_form(&mut reader) {
        Ok(nodes) => Some((nodes.len(), reader.left())),
        Err(_) => None,
    }
}

#[test]
fn initial_values(rt: HostRuntime) {
    let alloc = rt.alloc();
    assert!(rt; init_parts(alloc, b"7, align 4") == Some((1, 9)));
    assert!(rt; init_parts(alloc, b"c\"a\\00\"") == Some((1, 0)));
    assert!(rt; init_parts(alloc, b"[i8 1, i8 2] x") == Some((6, 1)));
    assert!(rt; init_parts(alloc, b"<{ i8, ptr }>") == None);
    assert!(rt; init_parts(alloc, b"<{ i8 3, ptr @g }>,") == Some((6, 1)));
    assert!(rt; init_parts(alloc, b"{}") == Some((2, 0)));
    assert!(rt; init_parts(alloc, b"zeroinitializer") == Some((1, 0)));
    assert!(rt; init_parts(alloc, b"[i8 1}") == None);
}

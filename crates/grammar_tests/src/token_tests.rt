// Tokens and quoted text by LLVM's lexer.
use ir_text::{Reader, Spelling, Token, token_at, unquote};
use std::alloc::Global;

/// What kind of token stands at the front, and how many bytes are left behind it.
fn kind(text: &[u8]) -> (u8, usize) {
    let (token, rest) = token_at(text);
    let kind = match token {
        Token::Word(_) => b'w',
        Token::Local(Spelling::Numbered, _) => b'n',
        Token::Local(..) => b'l',
        Token::Global(..) => b'g',
        Token::Label(..) => b':',
        Token::Number(true, _) => b'-',
        Token::Number(false, _) => b'0',
        Token::String(_) => b's',
        Token::Bytes(_) => b'c',
        Token::Mark(_) => b'm',
        Token::End => b'e',
    };
    (kind, rest.len())
}

#[test]
fn tokens(rt: HostRuntime) {
    assert!(rt; kind(b" ; a comment\n\t define i64") == (b'w', 4));
    assert!(rt; kind(b"%x, 1") == (b'l', 3));
    assert!(rt; kind(b"%12 = add") == (b'n', 6));
    assert!(rt; kind(b"@\"a b\\22\"(") == (b'g', 1));
    assert!(rt; kind(b"entry:\n") == (b':', 1));
    assert!(rt; kind(b"-1: 2") == (b':', 2));
    assert!(rt; kind(b"\"two words\": x") == (b':', 2));
    assert!(rt; kind(b"-7, 2") == (b'-', 3));
    assert!(rt; kind(b"42]") == (b'0', 1));
    assert!(rt; kind(b"\"text\" x") == (b's', 2));
    assert!(rt; kind(b"c\"text\\00\", x") == (b'c', 3));
    assert!(rt; kind(b"...)") == (b'w', 1));
    assert!(rt; kind(b"\"never closed") == (b'm', 12));
    assert!(rt; kind(b" ;") == (b'e', 0));
}

/// How many bytes quoted text says.
fn said_len(alloc: Global, text: &[u8]) -> Option<usize> {
    match unquote(alloc, text) {
        Ok(Some(bytes)) => Some(bytes.len()),
        _ => None,
    }
}

#[test]
fn quoted_text(rt: HostRuntime) {
    let alloc = rt.alloc();
    assert!(rt; said_len(alloc, b"a\\5Cb") == Some(3));
    assert!(rt; said_len(alloc, b"a\\5cb") == Some(3));
    assert!(rt; said_len(alloc, b"a\\\\ b") == Some(4));
    assert!(rt; said_len(alloc, b"a\\4 b") == None);
    assert!(rt; said_len(alloc, b"a\\gab") == None);
    assert!(rt; said_len(alloc, b"a\\") == None);
}

#[test]
fn groups(rt: HostRuntime) {
    let mut reader = Reader::new(rt.alloc(), b"({ [] \"]\" } ; )\n) x");
    assert!(rt; reader.group().is_ok());
    assert!(rt; reader.left() == 1);
    let mut crossed = Reader::new(rt.alloc(), b"([)]");
    assert!(rt; crossed.group().is_err());
}

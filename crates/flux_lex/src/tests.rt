// What no clause says: that calls succeed, with tokens and places worked out by hand.
use crate::{LexFault, TokenKind, lex};
use std::alloc::Global;
use std::process::Abort;
use std::test::Fail;

fn letter(kind: TokenKind) -> &'static str {
    match kind {
        TokenKind::Word => "w",
        TokenKind::Quoted => "q",
        TokenKind::Var => "v",
        TokenKind::Str => "t",
        TokenKind::Number => "n",
        TokenKind::Sign => "s",
    }
}

// The tokens of a script, a letter for the kind and where each begins and ends; or where the bytes
// stop being the beginning of tokens.
fn told(rt: &impl Abort, alloc: Global, script: &[u8]) -> Result<String, Fail> {
    assert!(rt; script.len() < 100_000_000);
    let tokens = match lex(alloc, script) {
        Ok(tokens) => tokens,
        Err(LexFault::Bad { place }) => return Ok(format!(in alloc; "bad at {place}")?),
        Err(LexFault::Memory(error)) => return Err(error.into()),
    };
    let mut text = String::new(alloc);
    for token in tokens.as_slice() {
        let kind = letter(token.kind);
        let from = token.span.from;
        let to = token.span.to;
        let one = format!(in alloc; "{kind}{from}-{to} ")?;
        text.push_str(one.as_str())?;
    }
    Ok(text)
}

#[test]
fn scripts(rt: HostRuntime) -> Result<(), Fail> {
    let alloc = rt.alloc();
    for (script, wanted) in [
        (b"".as_slice(), ""),
        (b" \t\r\n", ""),
        (b"_", "w0-1 "),
        (b"INPUT a DO", "w0-5 w6-7 w8-10 "),
        (b"for $x-1 in a.b_c", "w0-3 v4-8 w9-11 w12-17 "),
        (b"true\tFALSE\n", "w0-4 w5-10 "),
        (b"a-1", "w0-3 "),
        (b"'label'", "q0-7 "),
        (b"'IF'", "q0-4 "),
        (b"'tru'", "q0-5 "),
        (b"'truea'", "q0-7 "),
        (b"'a''b'c", "q0-3 q3-6 w6-7 "),
        (b"\"\"", "t0-2 "),
        (b"\"a\\n\\u{e9} \xC3\xA9\"b", "t0-14 w14-15 "),
        (b"0", "n0-1 "),
        (b"0-1", "n0-1 n1-3 "),
        (b"9223372036854775807", "n0-19 "),
        (b"-9223372036854775808", "n0-20 "),
        (b"12abc", "n0-2 w2-5 "),
        (b"1.5", "n0-1 s1-2 n2-3 "),
        (b".a", "s0-1 w1-2 "),
        (b"()[]{}", "s0-1 s1-2 s2-3 s3-4 s4-5 s5-6 "),
        (b",;</*+?|", "s0-1 s1-2 s2-3 s3-4 s4-5 s5-6 s6-7 s7-8 "),
        (b"::=", "s0-2 s2-3 "),
        (b":::", "s0-2 s2-3 "),
        (b":=>", "s0-1 s1-3 "),
        (b"==", "s0-1 s1-2 "),
        (b": :", "s0-1 s2-3 "),
        (b"#", ""),
        (b"a#b", "w0-1 "),
        (b"#\na", "w2-3 "),
        (b"#'\xFF$\n#\"\n1", "n8-9 "),
        (b"$x#y\n,'z'", "v0-2 s5-6 q6-9 "),
        (b"00", "bad at 1"),
        (b"01", "bad at 1"),
        (b"-0", "bad at 1"),
        (b"-", "bad at 1"),
        (b"- 1", "bad at 1"),
        (b"-a", "bad at 1"),
        (b"9223372036854775808", "bad at 18"),
        (b"-9223372036854775809", "bad at 19"),
        (b"'true'", "bad at 5"),
        (b"'false'", "bad at 6"),
        (b"'", "bad at 1"),
        (b"''", "bad at 1"),
        (b"'1'", "bad at 1"),
        (b"'a b'", "bad at 2"),
        (b"'a", "bad at 2"),
        (b"$", "bad at 1"),
        (b"$1", "bad at 1"),
        (b"$ a", "bad at 1"),
        (b"!", "bad at 0"),
        (b"a >", "bad at 2"),
        (b"=>>", "bad at 2"),
        (b"\"\\x\"", "bad at 2"),
        (b"\"\xFF\"", "bad at 1"),
        (b"1\xC3\xA9", "bad at 1"),
        (b"a\x00", "bad at 1"),
    ] {
        let tokens = told(&rt, alloc, script)?;
        assert_eq!(rt; tokens.as_str(), wanted, "{script:?}");
    }
    Ok(())
}

#[test]
fn open_strings(rt: HostRuntime) -> Result<(), Fail> {
    let alloc = rt.alloc();
    let script = b"a \"b\\\"\\u{41}\xE2\x82\xAC c";
    assert_eq!(rt; script.len(), 17);
    for end in 3..18 {
        let wanted = format!(in alloc; "bad at {end}")?;
        let tokens = told(&rt, alloc, &script[..end])?;
        assert_eq!(rt; tokens.as_str(), wanted.as_str());
    }
    Ok(())
}

// How many tokens a script has, or where it stops beginning any.
fn counted(rt: &impl Abort, alloc: Global, script: &[u8]) -> Result<usize, Fail> {
    assert!(rt; script.len() < 100_000_000);
    match lex(alloc, script) {
        Ok(tokens) => Ok(tokens.as_slice().len()),
        Err(LexFault::Bad { place }) => Ok(place as usize),
        Err(LexFault::Memory(error)) => Err(error.into()),
    }
}

#[test]
fn long_scripts(rt: HostRuntime) -> Result<(), Fail> {
    let alloc = rt.alloc();
    for (first, byte, wanted) in [
        // a string that isn't closed, a comment, a name, signs, white space
        (b'"', b'a', 500_001),
        (b'#', b'"', 0),
        (b'a', b'.', 1),
        (b':', b',', 500_001),
        (b'\n', b' ', 0),
    ] {
        let mut script = Vec::new(alloc);
        script.push(first)?;
        for _ in 0..500_000 {
            script.push(byte)?;
        }
        assert_eq!(rt; counted(&rt, alloc, &script)?, wanted);
    }
    Ok(())
}

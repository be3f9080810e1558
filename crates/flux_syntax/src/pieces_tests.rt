// What no clause says: that calls succeed, with pieces and names worked out by hand.
use crate::pieces::pieces;
use crate::words::{keyword, sign, soft, truth};
use flux_atom::{Atom, Names, is_name};
use flux_grammar::Lexeme;
use flux_lex::{LexFault, lex};
use std::alloc::Global;
use std::process::Abort;
use std::test::Fail;

fn shown_atom(alloc: Global, atom: &Atom) -> Result<String, Fail> {
    match atom {
        Atom::Bool(truth) => Ok(format!(in alloc; "{truth}")?),
        Atom::Text(word) => {
            let text = word.as_str();
            Ok(format!(in alloc; "<{text}>")?)
        }
        Atom::Int(number) => Ok(format!(in alloc; "{number}")?),
    }
}

fn shown(alloc: Global, lexeme: &Lexeme) -> Result<String, Fail> {
    match lexeme {
        Lexeme::Reserved(word) => Ok(format!(in alloc; "{word:?}")?),
        Lexeme::Sign(sign) => Ok(format!(in alloc; "{sign:?}")?),
        Lexeme::Word(name) => {
            let number = name.number();
            Ok(format!(in alloc; "word{number}")?)
        }
        Lexeme::Soft(word, name) => {
            let number = name.number();
            Ok(format!(in alloc; "{word:?}{number}")?)
        }
        Lexeme::Quoted(name) => {
            let number = name.number();
            Ok(format!(in alloc; "quoted{number}")?)
        }
        Lexeme::Var(name) => {
            let number = name.number();
            Ok(format!(in alloc; "variable{number}")?)
        }
        Lexeme::Literal(atom) => shown_atom(alloc, atom),
    }
}

// The pieces of a script, each with a space behind it.
fn told(rt: &impl Abort, alloc: Global, script: &[u8], names: &mut Names) -> Result<String, Fail> {
    assert!(rt; script.len() < 1000);
    assert!(rt; names.len() < 1000);
    let tokens = match lex(alloc, script) {
        Ok(tokens) => tokens,
        Err(LexFault::Bad { place }) => return Ok(format!(in alloc; "bad at {place}")?),
        Err(LexFault::Memory(error)) => return Err(error.into()),
    };
    let mut text = String::new(alloc);
    for piece in pieces(alloc, script, tokens.as_slice(), names)? {
        let one = shown(alloc, &piece.lexeme)?;
        text.push_str(one.as_str())?;
        text.push(' ')?;
    }
    Ok(text)
}

// The table has these names, in this order, and no others.
fn has_names(rt: &impl Abort, names: &mut Names, wanted: &str) -> Result<(), Fail> {
    let mut count = 0;
    for name in wanted.split_whitespace() {
        assert!(rt; is_name(name));
        assert!(rt; names.len() < 1000);
        assert_eq!(rt; names.intern(name)?.number() as usize, count, "{name}");
        count += 1;
    }
    assert_eq!(rt; names.len(), count, "{wanted}");
    Ok(())
}

#[test]
fn scripts(rt: HostRuntime) -> Result<(), Fail> {
    let alloc = rt.alloc();
    for (script, wanted, learnt) in [
        (b"".as_slice(), "", ""),
        (b" # a 'b'\n", "", ""),
        (
            b"TYPE PROCEDURE INPUT OUTPUT DO SKIP INSERT BEFORE AFTER AS FIRST LAST",
            "Type Procedure Input Output Do Skip Insert Before After As First Last ",
            "",
        ),
        (
            b"INTO VALUE DELETE FROM RENAME TO REPLACE IN WITH UPDATE BY IF THEN ELSE",
            "Into Value Delete From Rename To Replace In With Update By If Then Else ",
            "",
        ),
        (b"LET CALL WHERE", "Let Call Where ", ""),
        (
            b"for in return let if then else",
            "QueryFor QueryIn QueryReturn QueryLet QueryIf QueryThen QueryElse ",
            "",
        ),
        (
            b"()[]{},;: ::",
            "Open Close OpenSquare CloseSquare OpenBrace CloseBrace Comma Semicolon Colon \
             DoubleColon ",
            "",
        ),
        (
            b"= => </*+?|.",
            "Equal Arrow Less Slash Star Plus Question Bar Dot ",
            "",
        ),
        (
            b"string bool int child any",
            "StringWord0 BoolWord1 IntWord2 ChildWord3 AnyWord4 ",
            "string bool int child any",
        ),
        (
            b"any 'any' $any any",
            "AnyWord0 quoted0 variable0 AnyWord0 ",
            "any",
        ),
        (b"true false True", "true false word0 ", "True"),
        (
            b"types If FOR strings a.b-1 _",
            "word0 word1 word2 word3 word4 word5 ",
            "types If FOR strings a.b-1 _",
        ),
        (
            b"'IF' 'return' 'a'",
            "quoted0 quoted1 quoted2 ",
            "IF return a",
        ),
        (
            b"$for $TYPE $true $_",
            "variable0 variable1 variable2 variable3 ",
            "for TYPE true _",
        ),
        (
            b"b a b 'a' $b string c 'string' b",
            "word0 word1 word0 quoted1 variable0 StringWord2 word3 quoted2 word0 ",
            "b a string c",
        ),
        (b"\"\" \"a b\" \"true\"", "<> <a b> <true> ", ""),
        (
            b"\"\\\"\\\\\\n\\t\\u{41}\\u{e9}\xC3\xA9\"",
            "<\"\\\n\tA\u{e9}\u{e9}> ",
            "",
        ),
        (b"0 -1 12", "0 -1 12 ", ""),
        (
            b"9223372036854775807 -9223372036854775808",
            "9223372036854775807 -9223372036854775808 ",
            "",
        ),
        (
            b"DELETE lib/book[$x/child()=\"a\"];",
            "Delete word0 Slash word1 OpenSquare variable2 Slash ChildWord3 Open Close Equal <a> \
             CloseSquare Semicolon ",
            "lib book x child",
        ),
    ] {
        let mut names = Names::new(alloc);
        let told = told(&rt, alloc, script, &mut names)?;
        assert_eq!(rt; told.as_str(), wanted, "{script:?}");
        has_names(&rt, &mut names, learnt)?;
    }
    Ok(())
}

#[test]
fn two_scripts(rt: HostRuntime) -> Result<(), Fail> {
    let alloc = rt.alloc();
    let mut names = Names::new(alloc);
    let first = told(&rt, alloc, b"a $b", &mut names)?;
    assert_eq!(rt; first.as_str(), "word0 variable1 ");
    let second = told(&rt, alloc, b"b c 'a'", &mut names)?;
    assert_eq!(rt; second.as_str(), "word1 word2 quoted0 ");
    has_names(&rt, &mut names, "a b c")
}

#[test]
fn no_words(rt: HostRuntime) {
    for text in [
        b"".as_slice(),
        b"Type",
        b"TYPES",
        b"TYP",
        b"tru",
        b"trues",
        b"anything",
        b"String",
        b"::=",
        b"!",
    ] {
        assert!(rt; keyword(text).is_none(), "{text:?}");
        assert!(rt; sign(text).is_none(), "{text:?}");
        assert!(rt; soft(text).is_none(), "{text:?}");
        assert!(rt; truth(text).is_none(), "{text:?}");
    }
}

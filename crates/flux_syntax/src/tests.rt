// What no clause says: that calls succeed, with trees and places worked out by hand.
ghost use Rattle.std.specs.Prelude.{◌^◌, ◌-◌, ◌<◌, length, IfOk};
ghost use Rattle.flux_grammar.specs.Tokens.{AreTokens};

use crate::{Expr, Script, Stmt, SynFault, TypeText, parse, parse_query, parse_type};
use flux_atom::Names;
use flux_lex::{LexFault, Tokens, lex};
use std::alloc::{AllocError, Global};
use std::fmt::Debug;
use std::process::Abort;
use std::test::Fail;

#[derive(Clone, Copy, Debug)]
enum Kind {
    Type,
    Query,
    Script,
}

fn tokens(rt: &impl Abort, alloc: Global, text: &[u8]) -> Result<Tokens, AllocError>
    requires { length text.now < 2 ^ 32 - 1 }
    ensures { IfOk result (AreTokens text.now) }
{
    match lex(alloc, text) {
        Ok(tokens) => Ok(tokens),
        Err(LexFault::Bad { place }) => panic!(rt; "no tokens at {place}"),
        Err(LexFault::Memory(error)) => Err(error),
    }
}

fn read_type(rt: &impl Abort, alloc: Global, text: &str) -> Result<TypeText, SynFault> {
    let bytes = text.as_bytes();
    assert!(rt; bytes.len() < 100_000_000);
    let tokens = tokens(rt, alloc, bytes)?;
    let mut names = Names::new(alloc);
    parse_type(alloc, bytes, &tokens, &mut names)
}

fn read_query(rt: &impl Abort, alloc: Global, text: &str) -> Result<Expr, SynFault> {
    let bytes = text.as_bytes();
    assert!(rt; bytes.len() < 100_000_000);
    let tokens = tokens(rt, alloc, bytes)?;
    let mut names = Names::new(alloc);
    parse_query(alloc, bytes, &tokens, &mut names)
}

fn read_script(rt: &impl Abort, alloc: Global, text: &str) -> Result<Script, SynFault> {
    let bytes = text.as_bytes();
    assert!(rt; bytes.len() < 100_000_000);
    let tokens = tokens(rt, alloc, bytes)?;
    let mut names = Names::new(alloc);
    parse(alloc, bytes, &tokens, &mut names)
}

// What stands here for parts of the text that `Debug` writes.
const SHORT: [(&str, &str); 18] = [
    ("Items { items: ", ""),
    ("Boxed { inner: ", ""),
    ("Path { steps: ", ""),
    ("Word { text: ", ""),
    ("Span { from: ", ""),
    (", to: ", "-"),
    ("Step { var: ", "Step "),
    ("Mark { repetition: ", "Mark "),
    (", test: ", ", "),
    (", filter: ", ", "),
    (", span: ", ", "),
    (" { ", " "),
    (" }", ""),
    ("Name(0)", "n0"),
    ("Name(1)", "n1"),
    ("Name(2)", "n2"),
    ("Name(3)", "n3"),
    // the head of each script of `statements`
    (
        "Script types: [], procs: [], input: Elem(n0, None, 6-9), output: None, body: ",
        "",
    ),
];

fn short(alloc: Global, text: &str) -> Result<String, Fail> {
    let mut short = String::from_str(alloc, text)?;
    for (long, brief) in SHORT {
        short = short.as_str().replace(alloc, long, brief)?;
    }
    Ok(short)
}

// The tree, in which a name is `n` and its number, and a span its ends; or the place of the fault.
fn shown<T: Debug + Drop>(alloc: Global, answer: Result<T, SynFault>) -> Result<String, Fail> {
    match answer {
        Ok(tree) => {
            let text = format!(in alloc; "{tree:?}")?;
            short(alloc, text.as_str())
        }
        Err(SynFault::Syntax { place }) => Ok(format!(in alloc; "place {place}")?),
        Err(SynFault::Memory(error)) => Err(error.into()),
    }
}

fn told(rt: &impl Abort, alloc: Global, kind: Kind, text: &str) -> Result<String, Fail> {
    match kind {
        Kind::Type => shown(alloc, read_type(rt, alloc, text)),
        Kind::Query => shown(alloc, read_query(rt, alloc, text)),
        Kind::Script => shown(alloc, read_script(rt, alloc, text)),
    }
}

#[test]
fn types(rt: HostRuntime) -> Result<(), Fail> {
    let alloc = rt.alloc();
    for (text, wanted) in [
        ("()", "Group(None, 0-2)"),
        ("(a[])", "Group(Some(Elem(n0, None, 1-4)), 0-5)"),
        ("a[]", "Elem(n0, None, 0-3)"),
        ("a[b[]]", "Elem(n0, Some(Elem(n1, None, 2-5)), 0-6)"),
        ("'any'[ () ]", "Elem(n0, Some(Group(None, 7-9)), 0-11)"),
        ("any[]", "AnyElem(None, 0-5)"),
        ("any[a[]]", "AnyElem(Some(Elem(n1, None, 4-7)), 0-8)"),
        ("string", "Kind(Text, 0-6)"),
        ("bool", "Kind(Bool, 0-4)"),
        ("int", "Kind(Int, 0-3)"),
        ("string[]", "Elem(n0, None, 0-8)"),
        ("bool[]", "Elem(n0, None, 0-6)"),
        ("int[string]", "Elem(n0, Some(Kind(Text, 4-10)), 0-11)"),
        ("child", "Named(n0, 0-5)"),
        ("child[]", "Elem(n0, None, 0-7)"),
        (" A ", "Named(n0, 1-2)"),
        ("a[]*", "Marked(Elem(n0, None, 0-3), [Mark Star, 0-4], 0-4)"),
        ("A+", "Marked(Named(n0, 0-1), [Mark Plus, 0-2], 0-2)"),
        ("A ?", "Marked(Named(n0, 0-1), [Mark Optional, 0-3], 0-3)"),
        (
            "A*+?",
            "Marked(Named(n0, 0-1), [Mark Star, 0-2, Mark Plus, 0-3, Mark Optional, 0-4], 0-4)",
        ),
        (
            "A,B, C",
            "Seq([Named(n0, 0-1), Named(n1, 2-3), Named(n2, 5-6)], 0-6)",
        ),
        (
            "A|B |C",
            "Alt([Named(n0, 0-1), Named(n1, 2-3), Named(n2, 5-6)], 0-6)",
        ),
        (
            "A,B*|C?,(A|B)",
            "Alt([Seq([Named(n0, 0-1), Marked(Named(n1, 2-3), [Mark Star, 2-4], 2-4)], 0-4), \
             Seq([Marked(Named(n2, 5-6), [Mark Optional, 5-7], 5-7), \
             Group(Some(Alt([Named(n0, 9-10), Named(n1, 11-12)], 9-12)), 8-13)], 5-13)], 0-13)",
        ),
        ("", "place 0"),
        ("any", "place 3"),
        ("any*", "place 3"),
        ("any,a[]", "place 3"),
        ("any()", "place 3"),
        ("string()", "place 6"),
        ("bool()", "place 4"),
        ("int()", "place 3"),
        ("child()", "place 5"),
        ("'a'", "place 3"),
        ("a[", "place 2"),
        ("a[)]", "place 2"),
        ("A B", "place 2"),
        ("A,", "place 2"),
        ("A|", "place 2"),
        ("|A", "place 0"),
        ("* *", "place 0"),
        ("$x", "place 0"),
        ("\"x\"", "place 0"),
        ("true[]", "place 0"),
        ("a[]]", "place 3"),
        ("(A", "place 2"),
        ("()()", "place 2"),
        ("A**]*", "place 3"),
        ("A;", "place 1"),
    ] {
        let told = told(&rt, alloc, Kind::Type, text)?;
        assert_eq!(rt; told.as_str(), wanted, "{text}");
    }
    Ok(())
}

// Types that inclusion is asked of, and a query of an element.
#[test]
fn types_that_are_compared(rt: HostRuntime) -> Result<(), Fail> {
    let alloc = rt.alloc();
    for (kind, text, wanted) in [
        (
            Kind::Type,
            "a[]*,a[]*",
            "Seq([Marked(Elem(n0, None, 0-3), [Mark Star, 0-4], 0-4), \
             Marked(Elem(n0, None, 5-8), [Mark Star, 5-9], 5-9)], 0-9)",
        ),
        (
            Kind::Type,
            "a[b[]|c[]]",
            "Elem(n0, Some(Alt([Elem(n1, None, 2-5), Elem(n2, None, 6-9)], 2-9)), 0-10)",
        ),
        (
            Kind::Type,
            "a[b[]]|a[c[]]",
            "Alt([Elem(n0, Some(Elem(n1, None, 2-5)), 0-6), \
             Elem(n0, Some(Elem(n2, None, 9-12)), 7-13)], 0-13)",
        ),
        (
            Kind::Type,
            "a[(b[]|c[])*]",
            "Elem(n0, Some(Marked(Group(Some(Alt([Elem(n1, None, 3-6), \
             Elem(n2, None, 7-10)], 3-10)), 2-11), [Mark Star, 2-12], 2-12)), 0-13)",
        ),
        (
            Kind::Type,
            "a[b[]*]|a[c[]*]",
            "Alt([Elem(n0, Some(Marked(Elem(n1, None, 2-5), [Mark Star, 2-6], 2-6)), 0-7), \
             Elem(n0, Some(Marked(Elem(n2, None, 10-13), [Mark Star, 10-14], 10-14)), 8-15)], 0-15)",
        ),
        (Kind::Query, "b[$x]", "Elem(n0, Some(Var(n1, 2-4)), 0-5)"),
    ] {
        let told = told(&rt, alloc, kind, text)?;
        assert_eq!(rt; told.as_str(), wanted, "{text}");
    }
    Ok(())
}

#[test]
fn queries(rt: HostRuntime) -> Result<(), Fail> {
    let alloc = rt.alloc();
    for (text, wanted) in [
        ("-12", "Lit(Int(-12), 0-3)"),
        ("\"x\"", "Lit(Text([120]), 0-3)"),
        ("true", "Lit(Bool(true), 0-4)"),
        ("false", "Lit(Bool(false), 0-5)"),
        ("$x", "Var(n0, 0-2)"),
        ("a[]", "Elem(n0, None, 0-3)"),
        ("a[1]", "Elem(n0, Some(Lit(Int(1), 2-3)), 0-4)"),
        ("'for'[ ]", "Elem(n0, None, 0-8)"),
        ("any[]", "Elem(n0, None, 0-5)"),
        ("child[]", "Elem(n0, None, 0-7)"),
        ("string[]", "Elem(n0, None, 0-8)"),
        ("bool[1]", "Elem(n0, Some(Lit(Int(1), 5-6)), 0-7)"),
        ("int[]", "Elem(n0, None, 0-5)"),
        ("()", "Group(None, 0-2)"),
        ("( $x )", "Group(Some(Var(n0, 2-4)), 0-6)"),
        (
            "1,2, 3",
            "List([Lit(Int(1), 0-1), Lit(Int(2), 2-3), Lit(Int(3), 5-6)], 0-6)",
        ),
        (
            "for $x in 1,2 return $x,3",
            "List([For(n0, List([Lit(Int(1), 10-11), Lit(Int(2), 12-13)], 10-13), \
             Var(n0, 21-23), 0-23), Lit(Int(3), 24-25)], 0-25)",
        ),
        (
            "let $y = $x in $y",
            "Let(n0, Var(n1, 9-11), Var(n0, 15-17), 0-17)",
        ),
        (
            "if true then 1 else 2",
            "If(Lit(Bool(true), 3-7), Lit(Int(1), 13-14), Lit(Int(2), 20-21), 0-21)",
        ),
        ("$x = 1", "Same(Var(n0, 0-2), Lit(Int(1), 5-6), 0-6)"),
        ("1<2", "Less(Lit(Int(1), 0-1), Lit(Int(2), 2-3), 0-3)"),
        (
            "(1=2)=true",
            "Same(Group(Some(Same(Lit(Int(1), 1-2), Lit(Int(2), 3-4), 1-4)), 0-5), \
             Lit(Bool(true), 6-10), 0-10)",
        ),
        ("$x/a", "Stepped(Var(n0, 0-2), [Down(Label(n1), 0-4)], 0-4)"),
        (
            "$x/*",
            "Stepped(Var(n0, 0-2), [Down(AnyElement, 0-4)], 0-4)",
        ),
        (
            "$x/'for'",
            "Stepped(Var(n0, 0-2), [Down(Label(n1), 0-8)], 0-8)",
        ),
        ("$x/child()", "Stepped(Var(n0, 0-2), [Child(0-10)], 0-10)"),
        (
            "$x/child()/a",
            "Stepped(Var(n0, 0-2), [Child(0-10), Down(Label(n2), 0-12)], 0-12)",
        ),
        (
            "$x/child",
            "Stepped(Var(n0, 0-2), [Down(Label(n1), 0-8)], 0-8)",
        ),
        (
            "$x/any",
            "Stepped(Var(n0, 0-2), [Down(Label(n1), 0-6)], 0-6)",
        ),
        (
            "$x/string()",
            "Stepped(Var(n0, 0-2), [Down(OfText, 0-11)], 0-11)",
        ),
        (
            "$x/string",
            "Stepped(Var(n0, 0-2), [Down(Label(n1), 0-9)], 0-9)",
        ),
        (
            "$x/bool()",
            "Stepped(Var(n0, 0-2), [Down(OfBool, 0-9)], 0-9)",
        ),
        (
            "$x/int( )",
            "Stepped(Var(n0, 0-2), [Down(OfInt, 0-9)], 0-9)",
        ),
        (
            "$x::a",
            "Stepped(Var(n0, 0-2), [Filter(Label(n1), 0-5)], 0-5)",
        ),
        (
            "$x::*",
            "Stepped(Var(n0, 0-2), [Filter(AnyElement, 0-5)], 0-5)",
        ),
        (
            "$x::child",
            "Stepped(Var(n0, 0-2), [Filter(Label(n1), 0-9)], 0-9)",
        ),
        (
            "$x::any",
            "Stepped(Var(n0, 0-2), [Filter(Label(n1), 0-7)], 0-7)",
        ),
        (
            "$x::string",
            "Stepped(Var(n0, 0-2), [Filter(Label(n1), 0-10)], 0-10)",
        ),
        (
            "$x::string()",
            "Stepped(Var(n0, 0-2), [Filter(OfText, 0-12)], 0-12)",
        ),
        (
            "$x::bool()",
            "Stepped(Var(n0, 0-2), [Filter(OfBool, 0-10)], 0-10)",
        ),
        (
            "$x::int()",
            "Stepped(Var(n0, 0-2), [Filter(OfInt, 0-9)], 0-9)",
        ),
        (
            "a[]::b/c",
            "Stepped(Elem(n0, None, 0-3), [Filter(Label(n1), 0-6), Down(Label(n2), 0-8)], 0-8)",
        ),
    ] {
        let told = told(&rt, alloc, Kind::Query, text)?;
        assert_eq!(rt; told.as_str(), wanted, "{text}");
    }
    Ok(())
}

#[test]
fn queries_with_faults(rt: HostRuntime) -> Result<(), Fail> {
    let alloc = rt.alloc();
    for (text, wanted) in [
        ("", "place 0"),
        ("1=2=3", "place 3"),
        ("1<2=3", "place 3"),
        ("1 = 2 < 3", "place 6"),
        ("1,", "place 2"),
        ("1 2", "place 2"),
        ("a", "place 1"),
        ("a[", "place 2"),
        ("a[)]", "place 2"),
        ("a[1", "place 3"),
        ("(1]", "place 2"),
        ("[1]", "place 0"),
        ("string", "place 6"),
        ("string()", "place 6"),
        ("bool", "place 4"),
        ("int()", "place 3"),
        ("child", "place 5"),
        ("child()", "place 5"),
        ("any", "place 3"),
        ("any()", "place 3"),
        ("$x/", "place 3"),
        ("$x/.", "place 3"),
        ("$x/any()", "place 6"),
        ("$x/child(1)", "place 9"),
        ("$x/string(", "place 10"),
        ("$x/string(1)", "place 10"),
        ("$x::child()", "place 9"),
        ("$x[1]", "place 2"),
        ("for[]", "place 3"),
        ("true[]", "place 4"),
        ("for x in 1 return 2", "place 4"),
        ("for $x in 1", "place 11"),
        ("let $x = 1 return 1", "place 11"),
        ("if true then 1", "place 14"),
        (", ,", "place 0"),
        ("1 ) ] x", "place 2"),
    ] {
        let told = told(&rt, alloc, Kind::Query, text)?;
        assert_eq!(rt; told.as_str(), wanted, "{text}");
    }
    Ok(())
}

#[test]
fn statements(rt: HostRuntime) -> Result<(), Fail> {
    let alloc = rt.alloc();
    for (statement, wanted) in [
        ("SKIP", "[Skip(20-24)]"),
        ("SKIP ; SKIP;", "[Skip(20-24), Skip(27-31)]"),
        ("SKIP # end", "[Skip(20-24)]"),
        ("INSERT VALUE a[]", "[Insert(Elem(n0, None, 33-36), 20-36)]"),
        (
            "INSERT BEFORE a VALUE 1",
            "[InsertBefore([Step None, Some(Label(n0)), None, 34-35], Lit(Int(1), 42-43), 20-43)]",
        ),
        (
            "INSERT AFTER * VALUE 1",
            "[InsertAfter([Step None, Some(AnyElement), None, 33-34], Lit(Int(1), 41-42), 20-42)]",
        ),
        (
            "INSERT AS FIRST INTO a VALUE 1",
            "[InsertFirst([Step None, Some(Label(n0)), None, 41-42], Lit(Int(1), 49-50), 20-50)]",
        ),
        (
            "INSERT AS LAST INTO . VALUE 1",
            "[InsertLast([Step None, None, None, 40-41], Lit(Int(1), 48-49), 20-49)]",
        ),
        (
            "DELETE a",
            "[Delete([Step None, Some(Label(n0)), None, 27-28], 20-28)]",
        ),
        (
            "DELETE FROM a",
            "[DeleteFrom([Step None, Some(Label(n0)), None, 32-33], 20-33)]",
        ),
        (
            "DELETE 'FROM'",
            "[Delete([Step None, Some(Label(n1)), None, 27-33], 20-33)]",
        ),
        (
            "RENAME a TO b",
            "[Rename([Step None, Some(Label(n0)), None, 27-28], n1, 20-33)]",
        ),
        (
            "RENAME a TO 'TO'",
            "[Rename([Step None, Some(Label(n0)), None, 27-28], n1, 20-36)]",
        ),
        (
            "REPLACE a WITH 1",
            "[Replace([Step None, Some(Label(n0)), None, 28-29], Lit(Int(1), 35-36), 20-36)]",
        ),
        (
            "REPLACE IN a WITH 1,2",
            "[ReplaceIn([Step None, Some(Label(n0)), None, 31-32], \
             List([Lit(Int(1), 38-39), Lit(Int(2), 40-41)], 38-41), 20-41)]",
        ),
        ("CALL p()", "[Call(n1, [], 20-28)]"),
        (
            "CALL p(1,$x)",
            "[Call(n1, [Lit(Int(1), 27-28), Var(n2, 29-31)], 20-32)]",
        ),
        ("{SKIP;}", "[Block([Skip(21-25)], 20-27)]"),
        (
            "{ SKIP; DELETE a } ;",
            "[Block([Skip(22-26), Delete([Step None, Some(Label(n0)), None, 35-36], 28-36)], \
             20-38)]",
        ),
        (
            "UPDATE a BY SKIP",
            "[Update([Step None, Some(Label(n0)), None, 27-28], Skip(32-36), 20-36)]",
        ),
        (
            "UPDATE a BY SKIP WHERE true",
            "[Update([Step None, Some(Label(n0)), None, 27-28], \
             Guarded(Skip(32-36), Lit(Bool(true), 43-47), 32-47), 20-47)]",
        ),
        (
            "{UPDATE a BY SKIP} WHERE true",
            "[Guarded(Block([Update([Step None, Some(Label(n0)), None, 28-29], Skip(33-37), \
             21-37)], 20-38), Lit(Bool(true), 45-49), 20-49)]",
        ),
        (
            "DELETE a WHERE 1<2",
            "[Guarded(Delete([Step None, Some(Label(n0)), None, 27-28], 20-28), \
             Less(Lit(Int(1), 35-36), Lit(Int(2), 37-38), 35-38), 20-38)]",
        ),
        (
            "IF true THEN SKIP ELSE SKIP",
            "[If(Lit(Bool(true), 23-27), Skip(33-37), Skip(43-47), 20-47)]",
        ),
        (
            "LET $x = 1 IN SKIP",
            "[Let(n1, Lit(Int(1), 29-30), Skip(34-38), 20-38)]",
        ),
        (
            "DELETE $x AS a/./*",
            "[Delete([Step Some(n1), Some(Label(n0)), None, 27-34, \
             Step None, None, None, 35-36, Step None, Some(AnyElement), None, 37-38], 20-38)]",
        ),
        (
            "DELETE a[$x=1]/b",
            "[Delete([Step None, Some(Label(n0)), \
             Some(Same(Var(n1, 29-31), Lit(Int(1), 32-33), 29-33)), 27-34, \
             Step None, Some(Label(n2)), None, 35-36], 20-36)]",
        ),
        (
            "DELETE $x AS .[true]",
            "[Delete([Step Some(n1), None, Some(Lit(Bool(true), 35-39)), 27-40], 20-40)]",
        ),
        (
            "DELETE string()/string",
            "[Delete([Step None, Some(OfText), None, 27-35, \
             Step None, Some(Label(n1)), None, 36-42], 20-42)]",
        ),
        (
            "DELETE bool()/bool[1]",
            "[Delete([Step None, Some(OfBool), None, 27-33, \
             Step None, Some(Label(n1)), Some(Lit(Int(1), 39-40)), 34-41], 20-41)]",
        ),
        (
            "DELETE int()[1]/child/any",
            "[Delete([Step None, Some(OfInt), Some(Lit(Int(1), 33-34)), 27-35, \
             Step None, Some(Label(n2)), None, 36-41, \
             Step None, Some(Label(n3)), None, 42-45], 20-45)]",
        ),
        ("", "place 20"),
        ("SKIP;;", "place 25"),
        (";", "place 20"),
        ("SKIP SKIP", "place 25"),
        ("SKIP WHERE 1 WHERE 2", "place 33"),
        ("IF true THEN SKIP ELSE SKIP WHERE 1 WHERE 2", "place 56"),
        ("IF true THEN SKIP", "place 37"),
        ("UPDATE a BY", "place 31"),
        ("LET x = 1 IN SKIP", "place 24"),
        ("INSERT a", "place 27"),
        ("INSERT AS INTO a VALUE 1", "place 30"),
        ("DELETE FROM", "place 31"),
        ("DELETE child()", "place 32"),
        ("DELETE any()", "place 30"),
        ("DELETE string(", "place 34"),
        ("DELETE a/", "place 29"),
        ("DELETE a[]", "place 29"),
        ("DELETE .a", "place 28"),
        ("DELETE $x a", "place 30"),
        ("RENAME a TO TO", "place 32"),
        ("REPLACE a BY 1", "place 30"),
        ("CALL 'p'(]", "place 29"),
        ("CALL p(1", "place 28"),
        ("{}", "place 21"),
        ("{SKIP", "place 25"),
        ("{SKIP;}}", "place 27"),
    ] {
        let script = format!(in alloc; "INPUT a[] DO        {statement}")?;
        let told = told(&rt, alloc, Kind::Script, script.as_str())?;
        assert_eq!(rt; told.as_str(), wanted, "{statement}");
    }
    Ok(())
}

#[test]
fn scripts(rt: HostRuntime) -> Result<(), Fail> {
    let alloc = rt.alloc();
    for (script, wanted) in [
        (
            "INPUT () DO SKIP",
            "Script types: [], procs: [], input: Group(None, 6-8), output: None, \
             body: [Skip(12-16)]",
        ),
        (
            "INPUT A OUTPUT B DO SKIP;# end",
            "Script types: [], procs: [], input: Named(n0, 6-7), output: Some(Named(n1, 15-16)), \
             body: [Skip(20-24)]",
        ),
        (
            "TYPE A = a[]; TYPE child=A; INPUT A DO SKIP",
            "Script types: [TypeDef name: n0, at: 5-6, body: Elem(n1, None, 9-12), \
             TypeDef name: n2, at: 19-24, body: Named(n0, 25-26)], procs: [], \
             input: Named(n0, 34-35), output: None, body: [Skip(39-43)]",
        ),
        (
            "PROCEDURE p() : A => B { SKIP; } INPUT A DO CALL p()",
            "Script types: [], procs: [ProcDef name: n0, at: 10-11, params: [], \
             focus: Named(n1, 16-17), result: Named(n2, 21-22), body: [Skip(25-29)]], \
             input: Named(n1, 39-40), output: None, body: [Call(n0, [], 44-52)]",
        ),
        (
            "PROCEDURE 'IF'($x:A*,$y:()) : A => A {SKIP} INPUT A DO SKIP",
            "Script types: [], procs: [ProcDef name: n0, at: 10-14, \
             params: [ParamDef var: n1, at: 15-17, \
             ty: Marked(Named(n2, 18-19), [Mark Star, 18-20], 18-20), \
             ParamDef var: n3, at: 21-23, ty: Group(None, 24-26)], \
             focus: Named(n2, 30-31), result: Named(n2, 35-36), body: [Skip(38-42)]], \
             input: Named(n2, 50-51), output: None, body: [Skip(55-59)]",
        ),
        ("", "place 0"),
        ("# only", "place 6"),
        ("SKIP", "place 0"),
        ("INPUT", "place 5"),
        ("INPUT A", "place 7"),
        ("INPUT A DO", "place 10"),
        ("INPUT any DO SKIP", "place 10"),
        ("INPUT A DO SKIP\nINPUT", "place 16"),
        ("INPUT A DO SKIP # a\n x y", "place 21"),
        ("TYPE string = A; INPUT A DO SKIP", "place 5"),
        ("TYPE any=A; INPUT A DO SKIP", "place 5"),
        ("TYPE 'A' = A; INPUT A DO SKIP", "place 5"),
        ("TYPE A = B INPUT A DO SKIP", "place 11"),
        ("PROCEDURE p(]", "place 12"),
        ("PROCEDURE p($x:A|B)", "place 16"),
        (
            "PROCEDURE p() : A => A {SKIP} TYPE A = B; INPUT A DO SKIP",
            "place 30",
        ),
    ] {
        let told = told(&rt, alloc, Kind::Script, script)?;
        assert_eq!(rt; told.as_str(), wanted, "{script}");
    }
    Ok(())
}

#[test]
fn reserved_words(rt: HostRuntime) -> Result<(), Fail> {
    let alloc = rt.alloc();
    let words = "TYPE PROCEDURE INPUT OUTPUT DO SKIP INSERT BEFORE AFTER AS FIRST LAST INTO VALUE \
                 DELETE FROM RENAME TO REPLACE IN WITH UPDATE BY IF THEN ELSE LET CALL WHERE \
                 for in return let if then else";
    for word in words.split_whitespace() {
        let quoted = format!(in alloc; "'{word}'[]")?;
        let end = quoted.len();
        let wanted = format!(in alloc; "Elem(n0, None, 0-{end})")?;
        let as_type = told(&rt, alloc, Kind::Type, quoted.as_str())?;
        assert_eq!(rt; as_type.as_str(), wanted.as_str());
        let as_query = told(&rt, alloc, Kind::Query, quoted.as_str())?;
        assert_eq!(rt; as_query.as_str(), wanted.as_str());
        let bare = format!(in alloc; "{word}[]")?;
        let as_type = told(&rt, alloc, Kind::Type, bare.as_str())?;
        assert_eq!(rt; as_type.as_str(), "place 0", "{word}");
        let as_step = format!(in alloc; "$x/{word}")?;
        let as_step = told(&rt, alloc, Kind::Query, as_step.as_str())?;
        assert_eq!(rt; as_step.as_str(), "place 3", "{word}");
    }
    Ok(())
}

// Levels, of which 200 are read.
#[test]
fn levels(rt: HostRuntime) -> Result<(), Fail> {
    let alloc = rt.alloc();
    let script = "INPUT a[] DO ";
    for (kind, before, open, count, inside, close, wanted) in [
        (Kind::Type, "", "a[", 200, "", "]", None),
        (Kind::Type, "", "a[", 201, "", "]", Some("place 400")),
        (Kind::Type, "", "(", 200, "", ")", None),
        (Kind::Type, "", "(", 201, "", ")", Some("place 200")),
        (Kind::Type, "", "any[", 199, "A", "]", None),
        (Kind::Type, "", "any[", 200, "A", "]", Some("place 800")),
        (Kind::Query, "", "(", 200, "", ")", None),
        (Kind::Query, "", "(", 201, "", ")", Some("place 200")),
        (Kind::Query, "", "a[", 199, "1=1,1", "]", None),
        (Kind::Query, "", "a[", 200, "1=1,1", "]", Some("place 400")),
        (Kind::Query, "", "let $x=1 in ", 199, "1", "", None),
        (
            Kind::Query,
            "",
            "let $x=1 in ",
            200,
            "1",
            "",
            Some("place 2395"),
        ),
        (Kind::Script, script, "{", 199, "SKIP", "}", None),
        (
            Kind::Script,
            script,
            "{",
            200,
            "SKIP",
            "}",
            Some("place 213"),
        ),
        (Kind::Script, script, "{", 198, "SKIP WHERE 1", "}", None),
        (
            Kind::Script,
            script,
            "{",
            199,
            "SKIP WHERE 1",
            "}",
            Some("place 223"),
        ),
        (
            Kind::Script,
            script,
            "LET $x = 1 IN ",
            199,
            "SKIP",
            "",
            None,
        ),
        (
            Kind::Script,
            script,
            "LET $x = 1 IN ",
            200,
            "SKIP",
            "",
            Some("place 2808"),
        ),
        // two statements each, and then items
        (
            Kind::Script,
            script,
            "{IF 1 THEN ",
            99,
            "INSERT VALUE 1",
            " ELSE SKIP}",
            None,
        ),
        (
            Kind::Script,
            script,
            "{IF 1 THEN ",
            99,
            "INSERT VALUE (1)",
            " ELSE SKIP}",
            Some("place 1116"),
        ),
        // the type of a parameter begins no chain, but what is in it does
        (
            Kind::Script,
            "PROCEDURE p($x:",
            "a[",
            201,
            "",
            "]",
            Some("place 618"),
        ),
        (
            Kind::Script,
            "PROCEDURE p($x:",
            "a[",
            202,
            "",
            "]",
            Some("place 417"),
        ),
    ] {
        let opened = open.repeat(alloc, count)?;
        let closed = close.repeat(alloc, count)?;
        let text = format!(in alloc; "{before}{opened}{inside}{closed}")?;
        let told = told(&rt, alloc, kind, text.as_str())?;
        match wanted {
            Some(place) => assert_eq!(rt; told.as_str(), place, "{open}"),
            None => assert!(rt; !told.as_str().starts_with("place"), "{open}"),
        }
    }
    Ok(())
}

fn parts_of_type(tree: &TypeText) -> usize {
    match tree {
        TypeText::Alt(parts, _) | TypeText::Seq(parts, _) => parts.len(),
        TypeText::Marked(_, marks, _) => marks.len(),
        TypeText::Group(_, _)
        | TypeText::Elem(_, _, _)
        | TypeText::AnyElem(_, _)
        | TypeText::Kind(_, _)
        | TypeText::Named(_, _) => 1,
    }
}

fn parts_of_query(tree: &Expr) -> usize {
    match tree {
        Expr::List(parts, _) => parts.len(),
        Expr::Stepped(_, steps, _) => steps.len(),
        Expr::For(_, _, _, _)
        | Expr::Let(_, _, _, _)
        | Expr::If(_, _, _, _)
        | Expr::Same(_, _, _)
        | Expr::Less(_, _, _)
        | Expr::Group(_, _)
        | Expr::Lit(_, _)
        | Expr::Var(_, _)
        | Expr::Elem(_, _, _) => 1,
    }
}

// The steps of one deletion, or the statements.
fn parts_of_script(script: &Script) -> usize {
    match script.body.as_slice() {
        [Stmt::Delete(path, _)] => path.steps.len(),
        statements => statements.len(),
    }
}

fn parts(rt: &impl Abort, alloc: Global, kind: Kind, text: &str) -> Result<usize, SynFault> {
    match kind {
        Kind::Type => Ok(parts_of_type(&read_type(rt, alloc, text)?)),
        Kind::Query => Ok(parts_of_query(&read_query(rt, alloc, text)?)),
        Kind::Script => Ok(parts_of_script(&read_script(rt, alloc, text)?)),
    }
}

#[test]
fn long_texts(rt: HostRuntime) -> Result<(), Fail> {
    let alloc = rt.alloc();
    for (kind, before, part) in [
        (Kind::Type, "a[]", ",a[]"),
        (Kind::Type, "A", "|A"),
        (Kind::Type, "A+", "*"),
        (Kind::Query, "1", ",1"),
        (Kind::Query, "$x/b", "/a"),
        (Kind::Query, "$x/b", "::a"),
        (Kind::Script, "INPUT a[] DO DELETE a", "/a"),
        (Kind::Script, "INPUT a[] DO SKIP", ";SKIP"),
    ] {
        let more = part.repeat(alloc, 299_999)?;
        let text = format!(in alloc; "{before}{more}")?;
        let count = parts(&rt, alloc, kind, text.as_str()).unwrap_or(0);
        assert_eq!(rt; count, 300_000, "{part}");
    }
    Ok(())
}

#[test]
fn long_texts_with_faults(rt: HostRuntime) -> Result<(), Fail> {
    let alloc = rt.alloc();
    for (kind, before, part, count, wanted) in [
        (Kind::Type, "", "a[],", 300_000, "place 1200000"),
        (Kind::Query, "", "1,", 300_000, "place 600000"),
        (Kind::Script, "", ";", 1_000_000, "place 0"),
        (Kind::Script, "INPUT a[] DO SKIP", ";", 300_000, "place 18"),
        (
            Kind::Script,
            "INPUT a[] DO DELETE ",
            "a/",
            300_000,
            "place 600020",
        ),
    ] {
        let more = part.repeat(alloc, count)?;
        let text = format!(in alloc; "{before}{more}")?;
        let told = told(&rt, alloc, kind, text.as_str())?;
        assert_eq!(rt; told.as_str(), wanted, "{part}");
    }
    Ok(())
}

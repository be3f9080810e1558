// The normal forms of scripts, and what is wrong with those that have none, by the command `core`.
// What is wanted was worked out by hand.
use crate::Status;
use crate::tests::core;
use std::alloc::{AllocError, Global};
use std::process::Abort;
use std::test::Fail;

// The line of a fault of this kind where the mark `^` stands in a line of a script, or none where no
// mark stands in it.
fn line(alloc: Global, kind: &str, marked: &str) -> Result<String, AllocError> {
    match marked.find('^') {
        None => Ok(String::new(alloc)),
        Some(place) => {
            let column = place.saturating_add(1);
            format!(in alloc; "script:1:{column}: {kind}\n")
        }
    }
}

// Checks that a script has a fault of this kind where the mark stands in its text, which is no part
// of it, and a normal form where no mark stands in it.
fn check(rt: &impl Abort, alloc: Global, kind: &str, marked: &str) -> Result<(), AllocError> {
    let script = marked.replace(alloc, "^", "")?;
    let line = line(alloc, kind, marked)?;
    let status = if line.is_empty() {
        Status::Done
    } else {
        Status::Script
    };
    let ended = core(alloc, script.as_str())?;
    assert_eq!(rt; ended.err.bytes(), line.as_bytes(), "{marked}");
    assert_eq!(rt; ended.status, status, "{marked}");
    Ok(())
}

fn check_text(rt: &impl Abort, alloc: Global, script: &str, text: &str) -> Result<(), AllocError> {
    let ended = core(alloc, script)?;
    assert_eq!(rt; ended.out.bytes(), text.as_bytes(), "{script}");
    assert_eq!(rt; ended.err.bytes(), b"".as_slice(), "{script}");
    assert_eq!(rt; ended.status, Status::Done, "{script}");
    Ok(())
}

#[test]
fn duplicates(rt: HostRuntime) -> Result<(), Fail> {
    for marked in [
        "TYPE T=a[];TYPE ^T=b[];INPUT a[] DO SKIP",
        "TYPE T=a[];TYPE S=a[];TYPE ^T=a[];TYPE S=a[];TYPE T=a[];INPUT a[] DO SKIP",
        "PROCEDURE p():a[]=>a[]{SKIP}PROCEDURE ^p():b[]=>b[]{SKIP}INPUT a[] DO SKIP",
        "PROCEDURE p($x:int,^$x:bool):a[]=>a[]{SKIP}INPUT a[] DO SKIP",
        "PROCEDURE p($x:int,$y:int,^$y:int,$x:int):a[]=>a[]{SKIP}INPUT a[] DO SKIP",
        "TYPE T=a[];TYPE ^T=b[];PROCEDURE p($x:int,$x:int):a[]=>a[]{SKIP}INPUT a[] DO SKIP",
        "PROCEDURE p($x:int,^$x:int):a[]=>a[]{SKIP}PROCEDURE p():a[]=>a[]{SKIP}INPUT a[] DO SKIP",
        "PROCEDURE p():a[]=>a[]{SKIP}PROCEDURE ^p($x:int,$x:int):a[]=>a[]{SKIP}INPUT a[] DO SKIP",
        "PROCEDURE p($x:int):a[]=>a[]{SKIP}PROCEDURE q($x:int):a[]=>a[]{SKIP}INPUT a[] DO SKIP",
        "TYPE p=a[];PROCEDURE p($p:int):a[]=>a[]{SKIP}INPUT p DO LET $x=1 IN LET $x=2 IN SKIP",
    ] {
        check(&rt, rt.alloc(), "Duplicate", marked)?;
    }
    Ok(())
}

#[test]
fn unknown_types(rt: HostRuntime) -> Result<(), Fail> {
    for marked in [
        "INPUT ^T DO SKIP",
        "INPUT a[] OUTPUT ^T DO SKIP",
        "INPUT a[any[int|(b[],^T)*]] DO SKIP",
        "TYPE S=^T+;INPUT S DO SKIP",
        "TYPE S=T;TYPE T=a[S];INPUT S OUTPUT T DO SKIP",
        "PROCEDURE p($x:^T):a[]=>a[]{SKIP}INPUT a[] DO SKIP",
        "PROCEDURE p():^T=>a[]{SKIP}INPUT a[] DO SKIP",
        "PROCEDURE p():a[]=>^T{SKIP}INPUT a[] DO SKIP",
        "TYPE S=a[],^T;PROCEDURE p($x:U):U=>U{SKIP}INPUT V OUTPUT W DO SKIP",
        "PROCEDURE p($x:int,$y:^T):U=>V{SKIP}INPUT V OUTPUT W DO SKIP",
        "PROCEDURE p():^T=>U{SKIP}INPUT V OUTPUT W DO SKIP",
        "PROCEDURE p():a[]=>a[]{SKIP}PROCEDURE T():a[]=>^T{SKIP}INPUT V OUTPUT W DO SKIP",
        "INPUT ^V OUTPUT W DO SKIP",
    ] {
        check(&rt, rt.alloc(), "UnknownType", marked)?;
    }
    Ok(())
}

#[test]
fn unguarded_types(rt: HostRuntime) -> Result<(), Fail> {
    for marked in [
        "TYPE ^T=T;INPUT a[] DO SKIP",
        "TYPE T=a[T]|any[T];INPUT T DO SKIP",
        "TYPE S=a[T];TYPE ^T=a[],(S,T?)*;INPUT S DO SKIP",
        "TYPE ^S=T;TYPE T=a[]|S;INPUT S DO SKIP",
        "TYPE R=S;TYPE ^S=T;TYPE T=S;INPUT R DO SKIP",
        "TYPE R=S;TYPE S=T;TYPE T=int;INPUT R DO SKIP",
    ] {
        check(&rt, rt.alloc(), "Unguarded", marked)?;
    }
    Ok(())
}

// The kind of the fault with each script, since calls have two.
#[test]
fn calls_that_do_not_fit(rt: HostRuntime) -> Result<(), Fail> {
    for (kind, marked) in [
        ("UnknownProc", "INPUT a[] DO ^CALL p()"),
        (
            "UnknownProc",
            "INPUT a[] DO SKIP;UPDATE a BY IF true THEN SKIP ELSE ^CALL p() WHERE true",
        ),
        (
            "UnknownProc",
            "INPUT a[] DO LET $x=1 IN {SKIP;^CALL p();CALL q()}",
        ),
        (
            "Arity",
            "PROCEDURE p():a[]=>a[]{^CALL p(1)}INPUT a[] DO CALL q()",
        ),
        (
            "UnknownProc",
            "PROCEDURE p():a[]=>a[]{^CALL q()}INPUT a[] DO CALL p(1)",
        ),
        (
            "Arity",
            "PROCEDURE p():a[]=>a[]{SKIP}INPUT a[] DO ^CALL p(1);CALL q()",
        ),
        (
            "Arity",
            "PROCEDURE p($x:int):a[]=>a[]{SKIP}INPUT a[] DO CALL p((1,2));^CALL p(1,2)",
        ),
        (
            "Arity",
            "PROCEDURE p($x:int):a[]=>a[]{SKIP}INPUT a[] DO CALL p(());^CALL p()",
        ),
        (
            "",
            "PROCEDURE p():a[]=>a[]{CALL p();CALL q(1,2)}\
              PROCEDURE q($x:int,$y:int):a[]=>a[]{CALL p()}INPUT a[] DO CALL q(1,2)",
        ),
    ] {
        check(&rt, rt.alloc(), kind, marked)?;
    }
    Ok(())
}

// Scripts in which a part stands so often.
#[test]
fn big_types(rt: HostRuntime) -> Result<(), Fail> {
    let alloc = rt.alloc();
    for (before, part, count, behind) in [
        // `t+` has two nodes more than twice those of `t`: int* has 2, 13 marks make them 32,766
        ("INPUT int*", "+", 13, "*+ DO SKIP"),
        ("INPUT ^int*", "+", 13, "*+* DO SKIP"),
        ("INPUT ^int", "+", 200, " DO SKIP"),
        // levels
        ("INPUT int", "*", 499, " DO SKIP"),
        ("INPUT ^int", "*", 500, " DO SKIP"),
        ("INPUT int", "?", 499, " DO SKIP"),
        ("INPUT ^int", "?", 500, " DO SKIP"),
        ("INPUT int", ",int", 499, " DO SKIP"),
        ("INPUT ^int", ",int", 500, " DO SKIP"),
        ("INPUT int", "|int", 499, " DO SKIP"),
        ("INPUT ^int", "|int", 500, " DO SKIP"),
        ("INPUT a[int", "*", 498, "] DO SKIP"),
        ("INPUT ^(a[(int", "*", 499, ")]) DO SKIP"),
        ("TYPE T=int", "*", 499, ";INPUT a[T*] DO SKIP"),
        ("TYPE T=^int", "*", 500, ";INPUT a[T*] DO SKIP"),
        ("INPUT a[] OUTPUT ^int", "*", 500, " DO SKIP"),
        (
            "PROCEDURE p($x:int,$y:^int",
            "*",
            500,
            "):a[]=>a[]{SKIP}INPUT a[] DO SKIP",
        ),
        (
            "PROCEDURE p():^int",
            "*",
            500,
            "=>a[]{SKIP}INPUT a[] DO SKIP",
        ),
        (
            "PROCEDURE p():a[]=>^int",
            "*",
            500,
            "{SKIP}INPUT a[] DO SKIP",
        ),
    ] {
        let part = part.repeat(alloc, count)?;
        let marked = format!(in alloc; "{before}{part}{behind}")?;
        check(&rt, alloc, "BigType", marked.as_str())?;
    }
    Ok(())
}

// In the order of the text another fault stands first, where the kinds can stand so. `BIG` stands
// for a type that is over the limits, `DEEP` for a statement that is nested too deep.
#[test]
fn the_first_kind_decides(rt: HostRuntime) -> Result<(), Fail> {
    let alloc = rt.alloc();
    let stars = "*".repeat(alloc, 500)?;
    let big = format!(in alloc; "int{stars}")?;
    let steps = "./".repeat(alloc, 200)?;
    let deep = format!(in alloc; "DELETE {steps}.")?;
    for (kind, marked) in [
        ("Duplicate", "TYPE S=T;TYPE ^S=a[];INPUT T DO SKIP"),
        (
            "Duplicate",
            "TYPE S=T;PROCEDURE p($x:int,^$x:int):a[]=>a[]{SKIP}INPUT T DO SKIP",
        ),
        ("Duplicate", "TYPE S=BIG;TYPE ^S=a[];INPUT a[] DO SKIP"),
        (
            "Duplicate",
            "TYPE T=T;PROCEDURE p():a[]=>a[]{CALL q()}PROCEDURE ^p():a[]=>a[]{SKIP}INPUT a[] DO DEEP",
        ),
        ("UnknownType", "TYPE S=BIG;INPUT ^T DO SKIP"),
        (
            "UnknownType",
            "TYPE S=S;PROCEDURE p():a[]=>a[]{CALL q();DEEP}INPUT ^T DO SKIP",
        ),
        (
            "BigType",
            "TYPE S=S;PROCEDURE p():a[]=>a[]{CALL q();DEEP}INPUT ^BIG DO SKIP",
        ),
        (
            "Unguarded",
            "TYPE ^S=S;PROCEDURE p():a[]=>a[]{CALL q();DEEP}INPUT a[] DO SKIP",
        ),
        (
            "UnknownProc",
            "PROCEDURE p():a[]=>a[]{DEEP}INPUT a[] DO DEEP;^CALL q()",
        ),
        (
            "Arity",
            "PROCEDURE p():a[]=>a[]{DEEP}INPUT a[] DO DEEP;^CALL p(1)",
        ),
        (
            "TooNested",
            "PROCEDURE p():a[]=>a[]{^DEEP}INPUT a[] DO DEEP;CALL p()",
        ),
    ] {
        let marked = marked.replace(alloc, "BIG", big.as_str())?;
        let marked = marked.as_str().replace(alloc, "DEEP", deep.as_str())?;
        check(&rt, alloc, kind, marked.as_str())?;
    }
    Ok(())
}

// Checks a script in whose body a part stands so often.
fn check_nested(
    rt: &impl Abort,
    alloc: Global,
    before: &str,
    part: &str,
    count: usize,
    behind: &str,
) -> Result<(), AllocError> {
    let part = part.repeat(alloc, count)?;
    let head = "PROCEDURE p($x:int,$y:int):a[]=>a[]{SKIP}INPUT a[] DO ";
    let marked = format!(in alloc; "{head}{before}{part}{behind}")?;
    check(rt, alloc, "TooNested", marked.as_str())
}

// A step has three nodes, the last one two, and `delete` is one.
#[test]
fn nesting_of_tests(rt: HostRuntime) -> Result<(), Fail> {
    for (before, count, behind) in [
        ("DELETE ", 65, "a"),
        ("^DELETE ", 66, "a"),
        ("DELETE ", 66, "^a/a"),
    ] {
        check_nested(&rt, rt.alloc(), before, "a/", count, behind)?;
    }
    Ok(())
}

// A path of steps `.` has a `children` for each slash.
#[test]
fn nesting_of_steps(rt: HostRuntime) -> Result<(), Fail> {
    for (before, count, behind) in [
        ("DELETE ", 199, "."),
        ("^DELETE ", 200, "."),
        ("DELETE ", 200, "^./."),
        ("DELETE ", 200, "^./a/b/c[$x/d]"),
        ("DELETE ", 197, "a"),
        ("^DELETE ", 198, "a"),
        ("DELETE ", 199, "^a"),
        ("DELETE ", 198, "$x AS ."),
        ("^DELETE ", 199, "$x AS ."),
        ("DELETE ", 200, "^$x AS ."),
        ("DELETE ", 198, ".[true]"),
        ("DELETE ", 199, ".[ ^true]"),
        ("DELETE ", 200, "^.[true]"),
        ("DELETE ", 195, "$x AS a[true]"),
        ("DELETE ", 196, "$x AS a[^true]"),
    ] {
        check_nested(&rt, rt.alloc(), before, "./", count, behind)?;
    }
    Ok(())
}

#[test]
fn nesting_of_simple_statements(rt: HostRuntime) -> Result<(), Fail> {
    for (before, count, behind) in [
        ("INSERT BEFORE ", 197, ". VALUE 1"),
        ("INSERT BEFORE ", 198, ". VALUE ^1"),
        ("INSERT AFTER ", 197, ". VALUE 1"),
        ("^INSERT AFTER ", 199, ". VALUE 1"),
        ("INSERT AS FIRST INTO ", 196, ". VALUE 1"),
        ("INSERT AS FIRST INTO ", 197, ". VALUE ^1"),
        ("INSERT AS LAST INTO ", 196, ". VALUE 1"),
        ("^INSERT AS LAST INTO ", 198, ". VALUE 1"),
        ("DELETE FROM ", 198, "."),
        ("^DELETE FROM ", 199, "."),
        ("RENAME ", 199, ". TO b"),
        ("^RENAME ", 200, ". TO b"),
        ("REPLACE ", 197, ". WITH 1"),
        ("REPLACE ", 198, ". WITH ^1"),
        ("^REPLACE ", 199, ". WITH 1"),
        ("REPLACE IN ", 196, ". WITH 1"),
        ("REPLACE IN ", 197, ". WITH ^1"),
        ("^REPLACE IN ", 198, ". WITH 1"),
    ] {
        check_nested(&rt, rt.alloc(), before, "./", count, behind)?;
    }
    Ok(())
}

// The `if` of a WHERE has the query first, a list the place of its first statement.
#[test]
fn nesting_of_updates(rt: HostRuntime) -> Result<(), Fail> {
    for (before, count, behind) in [
        ("UPDATE ", 199, ". BY SKIP"),
        ("UPDATE ", 200, ". BY ^SKIP"),
        ("UPDATE ", 198, ". BY INSERT VALUE 1"),
        ("UPDATE ", 199, ". BY INSERT VALUE ^1"),
        ("UPDATE ", 198, ". BY IF true THEN SKIP ELSE SKIP"),
        ("UPDATE ", 199, ". BY IF ^true THEN SKIP ELSE SKIP"),
        ("UPDATE ", 198, ". BY IF true THEN SKIP ELSE ^DELETE FROM ."),
        ("UPDATE ", 198, ". BY LET $x=1 IN SKIP"),
        ("UPDATE ", 199, ". BY LET $x=^1 IN SKIP"),
        ("UPDATE ", 198, ". BY SKIP WHERE true"),
        ("UPDATE ", 199, ". BY SKIP WHERE ^true"),
        ("UPDATE ", 200, ". BY ^SKIP WHERE true"),
        ("UPDATE ", 198, ". BY CALL p(1,2)"),
        ("UPDATE ", 199, ". BY CALL p(^1,2)"),
        ("UPDATE ", 200, ". BY ^CALL p(1,2)"),
        ("UPDATE ", 199, ". BY { SKIP }"),
        ("UPDATE ", 200, ". BY { ^SKIP; }"),
        ("UPDATE ", 198, ". BY { SKIP; SKIP }"),
        ("UPDATE ", 199, ". BY { ^SKIP; SKIP }"),
        ("UPDATE ", 200, ". BY { ^SKIP; SKIP }"),
        ("UPDATE ", 198, ". BY { SKIP; ^DELETE FROM . }"),
    ] {
        check_nested(&rt, rt.alloc(), before, "./", count, behind)?;
    }
    Ok(())
}

#[test]
fn nesting_of_bindings(rt: HostRuntime) -> Result<(), Fail> {
    for (before, count, behind) in [
        ("", 199, "SKIP"),
        ("", 198, "DELETE FROM ."),
        ("", 198, "^DELETE a"),
        ("SKIP;", 197, "DELETE FROM ."),
        ("SKIP;", 198, "^DELETE FROM ."),
    ] {
        check_nested(&rt, rt.alloc(), before, "LET $x=1 IN ", count, behind)?;
    }
    Ok(())
}

// Queries in an `insert`.
#[test]
fn nesting_of_queries(rt: HostRuntime) -> Result<(), Fail> {
    let alloc = rt.alloc();
    for (before, part, count, behind) in [
        ("", "if true then 2 else ", 198, "1"),
        ("", "if true then 2 else ", 197, "b[]"),
        ("", "if true then 2 else ", 198, "^b[]"),
        ("", "let $x = 2 in ", 197, "(1,2)"),
        ("1,", "let $x = 2 in ", 197, "(^1,2)"),
        ("", "for $x in 2 return ", 197, "1 < 2"),
        ("", "for $x in 2 return ", 198, "^1 = 2"),
        ("1,", "for $x in 2 return ", 197, "(^1) = 2"),
        ("1,", "if true then 2 else ", 197, "1"),
        ("1,", "if true then 2 else ", 197, "^b[]"),
        ("($x)", "::b", 198, ""),
        ("(^$x)", "::b", 199, ""),
        ("($x)", "/child()", 198, ""),
        ("(^$x)", "/child()", 199, ""),
        // the first step has a `filter` that has a `child`
        ("($x)", "/b", 197, ""),
        ("^($x)", "/b", 198, ""),
        ("2, 1 < ", "$x", 1, "/b"),
        ("( )", "::b", 198, ""),
        ("^( )", "::b", 199, ""),
        ("(( ^( )))", "::b", 199, ""),
        ("(b[^1])", "::b", 198, ""),
    ] {
        let part = part.repeat(alloc, count)?;
        let marked = format!(in alloc; "INPUT a[] DO INSERT VALUE {before}{part}{behind}")?;
        check(&rt, alloc, "TooNested", marked.as_str())?;
    }
    Ok(())
}

// Statements and queries together. `PATH` stands for 99 times `./`, `TESTS` for 99 times `::b`,
// `DEEP` for 200 times `./`.
#[test]
fn nesting_of_both(rt: HostRuntime) -> Result<(), Fail> {
    let alloc = rt.alloc();
    let path = "./".repeat(alloc, 99)?;
    let tests = "::b".repeat(alloc, 99)?;
    let deep = "./".repeat(alloc, 200)?;
    for marked in [
        "INPUT a[] DO UPDATE PATH. BY INSERT VALUE $xTESTS",
        "INPUT a[] DO UPDATE PATH. BY INSERT VALUE ^$xTESTS::b",
        "INPUT a[] DO INSERT BEFORE PATH. VALUE ^$xTESTS",
        "INPUT a[] DO DELETE PATH.[$xTESTS]",
        "INPUT a[] DO DELETE PATH.[ ^$xTESTS::b ]",
        "INPUT a[] DO SKIP; DELETE PATH.[ ^$xTESTS ]/DEEP.",
        "INPUT a[] DO UPDATE PATH. BY DELETE . WHERE ^$xTESTS::b",
        "INPUT a[] DO UPDATE PATH. BY DELETE DEEP. WHERE ^$xTESTS::b",
        "INPUT a[] DO UPDATE PATH. BY ^DELETE PATH./. WHERE $xTESTS",
        "INPUT a[] DO UPDATE PATH. BY IF $xTESTS THEN DELETE PATH^a ELSE DELETE DEEP.",
        "PROCEDURE p():a[]=>a[]{SKIP}PROCEDURE q():a[]=>a[]{^DELETE DEEP.}\
         PROCEDURE r():a[]=>a[]{DELETE DEEP.}INPUT a[] DO DELETE DEEP.",
        "PROCEDURE p():a[]=>a[]{DELETE PATH.[$xTESTS]}INPUT a[] DO ^DELETE DEEP.",
    ] {
        let marked = marked.replace(alloc, "PATH", path.as_str())?;
        let marked = marked.as_str().replace(alloc, "TESTS", tests.as_str())?;
        let marked = marked.as_str().replace(alloc, "DEEP", deep.as_str())?;
        check(&rt, alloc, "TooNested", marked.as_str())?;
    }
    Ok(())
}

#[test]
fn steps_and_statements(rt: HostRuntime) -> Result<(), Fail> {
    let alloc = rt.alloc();
    for (body, wanted) in [
        ("DELETE .", "delete"),
        ("DELETE a", "iter[a?delete]"),
        ("DELETE 'for'", "iter[for?delete]"),
        ("DELETE *", "iter[*?delete]"),
        ("DELETE string()", "iter[string()?delete]"),
        ("DELETE bool()", "iter[bool()?delete]"),
        ("DELETE int()", "iter[int()?delete]"),
        ("DELETE int", "iter[int?delete]"),
        ("DELETE a[true]", "iter[a?if(true)then delete else skip]"),
        ("DELETE .[true]", "if(true)then delete else skip"),
        ("DELETE $x AS a", "iter[a?snapshot $x in delete]"),
        ("DELETE $x AS .", "snapshot $x in delete"),
        (
            "DELETE $x AS a[$x = 1]",
            "iter[a?snapshot $x in if(($x=1))then delete else skip]",
        ),
        ("DELETE lib/book", "iter[lib?children[iter[book?delete]]]"),
        ("DELETE a/./b", "iter[a?children[children[iter[b?delete]]]]"),
        (
            "DELETE $x AS a[true]/$y AS .[false]/*",
            "iter[a?snapshot $x in if(true)then children[snapshot $y in if(false)then \
             children[iter[*?delete]] else skip] else skip]",
        ),
        ("SKIP", "skip"),
        ("INSERT VALUE 1", "insert(1)"),
        ("INSERT BEFORE a VALUE 1", "iter[a?left[insert(1)]]"),
        ("INSERT AFTER a VALUE 1", "iter[a?right[insert(1)]]"),
        (
            "INSERT AS FIRST INTO a VALUE 1",
            "iter[a?children[left[insert(1)]]]",
        ),
        (
            "INSERT AS LAST INTO a VALUE 1",
            "iter[a?children[right[insert(1)]]]",
        ),
        ("DELETE FROM a", "iter[a?children[delete]]"),
        ("RENAME a TO b", "iter[a?rename b]"),
        ("REPLACE a WITH 1", "iter[a?{delete;insert(1)}]"),
        (
            "REPLACE IN a WITH 1",
            "iter[a?children[{delete;insert(1)}]]",
        ),
        ("UPDATE a/b BY SKIP", "iter[a?children[iter[b?skip]]]"),
        (
            "UPDATE a BY {DELETE b;RENAME . TO c}",
            "iter[a?{iter[b?delete];rename c}]",
        ),
        (
            "IF true THEN SKIP ELSE DELETE .",
            "if(true)then skip else delete",
        ),
        ("LET $x = 1 IN INSERT VALUE $x", "let $x=1 in insert($x)"),
        (
            "DELETE a WHERE true",
            "if(true)then iter[a?delete] else skip",
        ),
        (
            "DELETE a[false] WHERE true",
            "if(true)then iter[a?if(false)then delete else skip] else skip",
        ),
        (
            "{DELETE .;SKIP} WHERE true",
            "if(true)then {delete;skip} else skip",
        ),
        (
            "UPDATE a BY DELETE . WHERE true",
            "iter[a?if(true)then delete else skip]",
        ),
        (
            "{UPDATE a BY DELETE .} WHERE true",
            "if(true)then iter[a?delete] else skip",
        ),
        ("SKIP;", "skip"),
        ("SKIP;DELETE .", "{skip;delete}"),
        ("SKIP;DELETE .;SKIP", "{skip;delete;skip}"),
        ("{SKIP;DELETE .};SKIP", "{{skip;delete};skip}"),
        ("{{SKIP};}", "skip"),
        ("UPDATE a BY {{SKIP}}", "iter[a?skip]"),
    ] {
        let script = format!(in alloc; "INPUT a[] DO {body}")?;
        let wanted = format!(in alloc; "{wanted}\n")?;
        check_text(&rt, alloc, script.as_str(), wanted.as_str())?;
    }
    Ok(())
}

#[test]
fn queries(rt: HostRuntime) -> Result<(), Fail> {
    let alloc = rt.alloc();
    for (query, wanted) in [
        ("()", "()"),
        ("(())", "()"),
        ("1", "1"),
        ("(1)", "1"),
        ("1,true,\"x\\n\"", "(1,true,\"x\\n\")"),
        ("(1,2),-3", "((1,2),-3)"),
        ("1,()", "(1,())"),
        ("b[]", "b[]"),
        ("'for'[]", "for[]"),
        ("b[()]", "b[]"),
        ("b[1]", "b[1]"),
        ("b[(1)]", "b[1]"),
        ("b[1,c[]]", "b[(1,c[])]"),
        ("$x", "$x"),
        ("$x/b", "(for $1 in $x return $1/child::b)"),
        ("$x/*", "(for $1 in $x return $1/child::*)"),
        ("$x/string()", "(for $1 in $x return $1/child::string())"),
        ("$x/bool()", "(for $1 in $x return $1/child::bool())"),
        ("$x/int()", "(for $1 in $x return $1/child::int())"),
        ("$x/child()", "(for $1 in $x return $1/child)"),
        ("$x/child", "(for $1 in $x return $1/child::child)"),
        ("$x::b", "$x::b"),
        ("$x::*", "$x::*"),
        ("$x::int()", "$x::int()"),
        (
            "$x/b/c",
            "(for $2 in (for $1 in $x return $1/child::b) return $2/child::c)",
        ),
        (
            "$x/b::c/child()",
            "(for $2 in (for $1 in $x return $1/child::b)::c return $2/child)",
        ),
        ("$x = 1", "($x=1)"),
        ("$x < 1", "($x<1)"),
        (
            "if true then $x/b else $x/c",
            "(if true then (for $1 in $x return $1/child::b) else (for $2 in $x return $2/child::c))",
        ),
        ("let $y = $x in $y", "(let $y=$x in $y)"),
        ("for $y in $x return $y", "(for $y in $x return $y)"),
        (
            "for $y in $x/b return $y/c",
            "(for $y in (for $1 in $x return $1/child::b) return (for $2 in $y return $2/child::c))",
        ),
        (
            "b[$x/b]/c,$x/d",
            "((for $2 in b[(for $1 in $x return $1/child::b)] return $2/child::c),\
             (for $3 in $x return $3/child::d))",
        ),
        (
            "$x/b = $y/c",
            "((for $1 in $x return $1/child::b)=(for $2 in $y return $2/child::c))",
        ),
    ] {
        let script = format!(in alloc; "INPUT a[] DO INSERT VALUE {query}")?;
        let wanted = format!(in alloc; "insert({wanted})\n")?;
        check_text(&rt, alloc, script.as_str(), wanted.as_str())?;
    }
    Ok(())
}

// In these `Qn` is the query of a child `b` of `$x`, or how the normal form has it, with the
// variable `$n`.
#[test]
fn variables_are_counted_through_the_script(rt: HostRuntime) -> Result<(), Fail> {
    let alloc = rt.alloc();
    for (script, wanted) in [
        (
            "INPUT a[] DO INSERT VALUE Q1;INSERT VALUE $x::b;INSERT VALUE Q2",
            "{insert(Q1);insert($x::b);insert(Q2)}",
        ),
        (
            "PROCEDURE p($x:int):a[]=>a[]{INSERT VALUE Q1;INSERT VALUE Q2}\
             PROCEDURE q($x:int,$y:int):a[]=>a[]{INSERT VALUE Q3}\
             INPUT a[] DO CALL p(Q4);CALL q(1,2);CALL q(Q5,Q6)",
            "procedure p($x:int):a[]=>a[]{{insert(Q1);insert(Q2)}}\n\
             procedure q($x:int,$y:int):a[]=>a[]{insert(Q3)}\n\
             {call p(Q4);call q(1,2);call q(Q5,Q6)}",
        ),
        // a statement stands before its WHERE, a path before what is inserted or done
        (
            "INPUT a[] DO INSERT VALUE Q1 WHERE Q2",
            "if(Q2)then insert(Q1) else skip",
        ),
        (
            "INPUT a[] DO REPLACE a[Q1]/.[Q2] WITH Q3 WHERE Q4",
            "if(Q4)then iter[a?if(Q1)then children[if(Q2)then {delete;insert(Q3)} else skip] else skip] else skip",
        ),
        (
            "INPUT a[] DO UPDATE .[Q1] BY INSERT VALUE Q2",
            "if(Q1)then insert(Q2) else skip",
        ),
        (
            "INPUT a[] DO IF Q1 THEN INSERT VALUE Q2 ELSE LET $y = Q3 IN INSERT VALUE Q4",
            "if(Q1)then insert(Q2) else let $y=Q3 in insert(Q4)",
        ),
    ] {
        let mut script = String::from_str(alloc, script)?;
        let mut wanted = format!(in alloc; "{wanted}\n")?;
        for number in 1..7 {
            let query = format!(in alloc; "Q{number}")?;
            let made = format!(in alloc; "(for ${number} in $x return ${number}/child::b)")?;
            script = script.as_str().replace(alloc, query.as_str(), "$x/b")?;
            wanted = wanted
                .as_str()
                .replace(alloc, query.as_str(), made.as_str())?;
        }
        check_text(&rt, alloc, script.as_str(), wanted.as_str())?;
    }
    Ok(())
}

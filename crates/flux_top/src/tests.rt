// The top call over folders and sinks in memory. What is wanted was worked out by hand.
use crate::{Status, flux};
use flux_io::{MemFolder, MemSink};
use std::alloc::{AllocError, Global};
use std::test::Fail;

/// How a run ended, and what it wrote.
#[derive(Drop)]
pub(crate) struct Ended {
    pub status: Status,
    pub out: MemSink,
    pub err: MemSink,
}

const USAGE: &str = "usage: flux check SCRIPT | run [--depth N] SCRIPT DOC \
    | edits [--depth N] SCRIPT DOC | core SCRIPT | trial [--seed N] BOOKS\n";

const SCRIPT: &str = "INPUT lib[book[string]*,cd[string]] DO DELETE lib/book";

const DOCUMENT: &str = "lib[book[\"A\"],cd[\"B\"]]";

const RESULT: &str = "lib[cd[\"B\"]]\n";

fn texts(alloc: Global, words: &[&str]) -> Result<Vec<String>, AllocError> {
    let mut texts = Vec::new(alloc);
    for word in words {
        texts.push(String::from_str(alloc, word)?)?;
    }
    Ok(texts)
}

// A folder with these bytes in the files `s` and `d`.
fn folder(
    alloc: Global,
    script: &[u8],
    document: &[u8],
    fails: u64,
) -> Result<MemFolder, AllocError> {
    let mut files = Vec::new(alloc);
    let script = Vec::from_slice(alloc, script)?;
    files.push((String::from_str(alloc, "s")?, script))?;
    let document = Vec::from_slice(alloc, document)?;
    files.push((String::from_str(alloc, "d")?, document))?;
    Ok(MemFolder::new(alloc, files, Vec::from_slice(alloc, &[fails])?))
}

fn end(
    alloc: Global,
    words: &[&str],
    mut folder: MemFolder,
    mut out: MemSink,
    mut err: MemSink,
) -> Result<Ended, AllocError> {
    let words = texts(alloc, words)?;
    let status = flux(alloc, &words, &mut folder, &mut out, &mut err);
    Ok(Ended { status, out, err })
}

// The words with these files, ample sinks and no fault.
fn ample(alloc: Global, words: &[&str], script: &str, document: &str) -> Result<Ended, AllocError> {
    let folder = folder(alloc, script.as_bytes(), document.as_bytes(), 0)?;
    end(
        alloc,
        words,
        folder,
        MemSink::new(alloc, None),
        MemSink::new(alloc, None),
    )
}

fn run(alloc: Global, script: &str, document: &str) -> Result<Ended, AllocError> {
    ample(alloc, &["run", "s", "d"], script, document)
}

// `core s` with this script.
pub(crate) fn core(alloc: Global, script: &str) -> Result<Ended, AllocError> {
    ample(alloc, &["core", "s"], script, DOCUMENT)
}

// Whether the program answers this to these files.
fn answers(
    alloc: Global,
    (script, document): (&str, &str),
    status: Status,
    out: &str,
    err: &str,
) -> Result<bool, AllocError> {
    let ended = run(alloc, script, document)?;
    Ok(
        ended.status == status
            && ended.out.bytes() == out.as_bytes()
            && ended.err.bytes() == err.as_bytes(),
    )
}

#[test]
fn runs(rt: HostRuntime) -> Result<(), Fail> {
    let table = [
        (SCRIPT, DOCUMENT, RESULT),
        (SCRIPT, "lib[ ]", "lib[]\n"),
        (SCRIPT, "lib[book[\"A\"],cd[\"B\"]]\n", RESULT),
        ("INPUT a[]* DO DELETE a", "()", "()\n"),
        ("INPUT a[] DO DELETE a", " a [ \"x\" ] , b[] \n", "b[]\n"),
        // what may stand before and behind a deletion
        ("INPUT a[] DO DELETE a;", "a[],b[]", "b[]\n"),
        ("INPUT a[] DO DELETE a # the end", "a[],b[]", "b[]\n"),
        (
            "# a\n INPUT\ta[]\r\nDO # b\n\nDELETE a / b\n",
            "a[b[],c[]]",
            "a[c[]]\n",
        ),
        ("INPUT(a[]|b[])+DO DELETE a", "a[],b[]", "b[]\n"),
        ("INPUT a[] OUTPUT () DO DELETE a", "a[],b[]", "b[]\n"),
        ("TYPE A=a[A*]; INPUT A DO DELETE a", "a[],b[]", "b[]\n"),
        (
            "PROCEDURE p($x:int):a[]=>b[]{SKIP} INPUT a[] DO DELETE a",
            "a[],b[]",
            "b[]\n",
        ),
        (
            "TYPE A=a[A*]; TYPE B=b[B*]; PROCEDURE strip() : A* => B* { UPDATE a/. BY \
                CALL strip(); RENAME a TO b } INPUT A* OUTPUT B* DO DELETE b/a;",
            "a[b[a[]]],b[b[],a[]]",
            "a[b[a[]]],b[b[]]\n",
        ),
        // labels of all kinds
        ("INPUT a[] DO DELETE 'a'", "a[],b[]", "b[]\n"),
        (
            "INPUT a[] DO DELETE 'for'/'DELETE'",
            "for[DELETE[],a[]]",
            "for[a[]]\n",
        ),
        ("INPUT a[] DO DELETE any", "any[],b[]", "b[]\n"),
        (
            "INPUT a[] DO DELETE string/bool/int/child",
            "string[bool[int[child[]]]]",
            "string[bool[int[]]]\n",
        ),
        (
            "INPUT a[] DO DELETE a-1/_b.2",
            "a-1[_b.2[],b[]]",
            "a-1[b[]]\n",
        ),
    ];
    for (script, document, out) in table {
        let right = answers(rt.alloc(), (script, document), Status::Done, out, "")?;
        assert!(rt; right, "{script} on {document}");
    }
    Ok(())
}

// A path of so many steps, deleted.
fn long_path(alloc: Global, steps: u32) -> Result<String, AllocError> {
    let mut script = String::from_str(alloc, "INPUT a[] DO DELETE a")?;
    for _ in 1..steps {
        script.push_str("/a")?;
    }
    Ok(script)
}

#[test]
fn writes_normal_forms(rt: HostRuntime) -> Result<(), Fail> {
    let alloc = rt.alloc();
    let table = [
        (SCRIPT, "iter[lib?children[iter[book?delete]]]\n"),
        (
            "INPUT a[string] DO UPDATE $x AS a BY REPLACE . WITH b[$x]",
            "iter[a?snapshot $x in {delete;insert(b[$x])}]\n",
        ),
        (
            "TYPE A=a[A*]; TYPE B=b[B*]; PROCEDURE strip() : A* => B* { UPDATE a/. BY \
                CALL strip(); RENAME a TO b } INPUT A* OUTPUT B* DO CALL strip()",
            "procedure strip():A*=>B*{{iter[a?children[call strip()]];iter[a?rename b]}}\n\
                call strip()\n",
        ),
        (
            "PROCEDURE p($x:int,$y:'for'[()]?):a[]=>b[]{SKIP} \
                INPUT a[] DO IF $x/b < 1 THEN CALL p(1,'for'[]) ELSE SKIP",
            "procedure p($x:int,$y:'for'[]|()):a[]=>b[]{skip}\n\
                if(((for $1 in $x return $1/child::b)<1))then call p(1,for[]) else skip\n",
        ),
        (
            "INPUT a[] DO LET $x = (\"b\\u{41}\",true) IN INSERT VALUE $x; INSERT VALUE ()",
            "{let $x=(\"bA\",true) in insert($x);insert(())}\n",
        ),
    ];
    for (script, text) in table {
        let ended = core(alloc, script)?;
        assert_eq!(rt; ended.status, Status::Done, "{script}");
        assert_eq!(rt; ended.out.bytes(), text.as_bytes(), "{script}");
        assert_eq!(rt; ended.err.bytes(), b"".as_slice(), "{script}");
    }
    Ok(())
}

// 66 steps lie 198 deep, 67 lie 201 deep.
#[test]
fn keeps_the_nesting(rt: HostRuntime) -> Result<(), Fail> {
    let alloc = rt.alloc();
    let mut text = String::new(alloc);
    for _ in 1..66 {
        text.push_str("iter[a?children[")?;
    }
    text.push_str("iter[a?delete]")?;
    for _ in 1..66 {
        text.push_str("]]")?;
    }
    text.push_str("\n")?;
    let deep = long_path(alloc, 66)?;
    let ended = core(alloc, deep.as_str())?;
    assert_eq!(rt; ended.status, Status::Done);
    assert_eq!(rt; ended.out.bytes(), text.as_bytes());
    let ended = run(alloc, deep.as_str(), "a[a[]]")?;
    assert_eq!(rt; ended.status, Status::Done);
    let deeper = long_path(alloc, 67)?;
    for ended in [
        core(alloc, deeper.as_str())?,
        run(alloc, deeper.as_str(), DOCUMENT)?,
    ] {
        assert_eq!(rt; ended.status, Status::Script);
        assert_eq!(rt; ended.err.bytes(), b"script:1:14: TooNested\n".as_slice());
    }
    Ok(())
}

// Scripts that have no reading, and bytes that are no tokens: the first place of which no script
// goes on. Then scripts that have no normal form.
#[test]
fn refuses_faulty_scripts(rt: HostRuntime) -> Result<(), Fail> {
    let alloc = rt.alloc();
    let table = [
        ("DELETE lib/book", "1:1: Syntax"),
        ("INPUT a[] DO", "1:13: Syntax"),
        ("INPUT a[] DO DELETE a @", "1:23: Bad"),
        ("INPUT INPUT @", "1:13: Bad"),
        ("", "1:1: Syntax"),
        ("\n", "2:1: Syntax"),
        ("SKIP", "1:1: Syntax"),
        ("input a[] DO DELETE a", "1:1: Syntax"),
        ("INPUT a[ DO DELETE a", "1:10: Syntax"),
        ("INPUT any DO SKIP", "1:11: Syntax"),
        ("INPUT a[] OUTPUT DO DELETE a", "1:18: Syntax"),
        ("TYPE A=a[] INPUT A DO DELETE a", "1:12: Syntax"),
        ("TYPE any=a[]; INPUT a[] DO SKIP", "1:6: Syntax"),
        ("INPUT a[] DO DELETE", "1:20: Syntax"),
        ("INPUT a[] DO delete a", "1:14: Syntax"),
        ("INPUT a[] DO DELETE /a", "1:21: Syntax"),
        ("INPUT a[] DO DELETE 9", "1:21: Syntax"),
        ("INPUT a[] DO DELETE child(", "1:26: Syntax"),
        ("INPUT a[] DO DELETE a/", "1:23: Syntax"),
        ("INPUT a[] DO DELETE a b", "1:23: Syntax"),
        ("INPUT a[] DO DELETE a;;", "1:23: Syntax"),
        ("INPUT a[] DO\nDELETE a//b", "2:10: Syntax"),
        ("INPUT a[] DO DELETE a WHERE", "1:28: Syntax"),
        ("INPUT a[] DO { DELETE a", "1:24: Syntax"),
        ("INPUT a[] DO DELETE a/-b", "1:24: Bad"),
        ("INPUT a[] DO DELETE é", "1:21: Bad"),
        ("INPUT a[] DO DELETE 'true'", "1:26: Bad"),
        ("INPUT a[] DO\n\nDELETE a!", "3:9: Bad"),
        (
            "TYPE A=a[];\nTYPE A=b[]; INPUT A DO DELETE a",
            "2:6: Duplicate",
        ),
        ("INPUT Unknown DO DELETE a", "1:7: UnknownType"),
        ("TYPE X=X,a[]; INPUT X DO SKIP", "1:6: Unguarded"),
        ("INPUT a[] DO CALL q()", "1:14: UnknownProc"),
        (
            "PROCEDURE p():a[]=>a[]{SKIP} INPUT a[] DO CALL p(1)",
            "1:43: Arity",
        ),
    ];
    for (script, fault) in table {
        let line = format!(in alloc; "script:{fault}\n")?;
        let right = answers(alloc, (script, DOCUMENT), Status::Script, "", line.as_str())?;
        assert!(rt; right, "{script}");
        let ended = core(alloc, script)?;
        assert_eq!(rt; ended.status, Status::Script, "{script}");
        assert_eq!(rt; ended.out.bytes(), b"".as_slice(), "{script}");
        assert_eq!(rt; ended.err.bytes(), line.as_bytes(), "{script}");
    }
    Ok(())
}

// Scripts that have a reading and aren't run yet.
#[test]
fn refuses_other_scripts(rt: HostRuntime) -> Result<(), Fail> {
    let alloc = rt.alloc();
    let table = [
        "SKIP",
        "DELETE a WHERE true",
        "DELETE FROM a",
        "DELETE a; DELETE b",
        "DELETE a; SKIP",
        "SKIP; DELETE a",
        "DELETE a[true]",
        "DELETE a/b[$x = 1]/c",
        "DELETE $x AS a",
        "DELETE a/$x AS b",
        "DELETE *",
        "DELETE a/*",
        "DELETE .",
        "DELETE a/.",
        "DELETE a/string()",
        "DELETE bool()",
        "DELETE int()/a",
        "{ DELETE a }",
        "UPDATE a BY DELETE b",
        "IF true THEN DELETE a ELSE DELETE b",
        "LET $x = 1 IN DELETE a",
        "INSERT VALUE b[]",
        "INSERT BEFORE a VALUE 1",
        "INSERT AFTER a VALUE 1",
        "INSERT AS FIRST INTO a VALUE b[]",
        "INSERT AS LAST INTO a VALUE b[]",
        "RENAME a TO b",
        "REPLACE a WITH b[]",
        "REPLACE IN a WITH \"x\"",
    ];
    for body in table {
        let script = format!(in alloc; "INPUT a[] DO {body}")?;
        let files = (script.as_str(), DOCUMENT);
        let right = answers(alloc, files, Status::Script, "", "script: not built yet\n")?;
        assert!(rt; right, "{body}");
    }
    Ok(())
}

// Documents that are spelled in other ways, and what isn't one, with the end of its longest viable
// prefix.
#[test]
fn reads_documents(rt: HostRuntime) -> Result<(), Fail> {
    let table = [
        (
            "a[\"\\u{41}\\\"\\n\"]",
            Status::Done,
            "a[\"A\\\"\\n\"]\n",
            "",
        ),
        ("\t( )\r\n", Status::Done, "()\n", ""),
        ("a[()],true", Status::Done, "a[],true\n", ""),
        (
            "lib[book[\"A\"",
            Status::DocText,
            "",
            "document:1:13: no forest\n",
        ),
        (
            "\"\\u{00D800}\"",
            Status::DocText,
            "",
            "document:1:10: no forest\n",
        ),
        ("", Status::DocText, "", "document:1:1: no forest\n"),
        ("\n\n", Status::DocText, "", "document:3:1: no forest\n"),
        (
            "lib[\n book[],\n ]",
            Status::DocText,
            "",
            "document:3:2: no forest\n",
        ),
        (
            "a[\"\nb\"\"\"]",
            Status::DocText,
            "",
            "document:2:3: no forest\n",
        ),
        ("a[]]\n", Status::DocText, "", "document:1:4: no forest\n"),
        ("1", Status::Done, "1\n", ""),
        ("1,2 , -3", Status::Done, "1,2,-3\n", ""),
        (
            "a[-9223372036854775808]",
            Status::Done,
            "a[-9223372036854775808]\n",
            "",
        ),
        (
            "a[9223372036854775808]",
            Status::DocText,
            "",
            "document:1:21: no forest\n",
        ),
        ("a[007]", Status::DocText, "", "document:1:4: no forest\n"),
        ("a[-0]", Status::DocText, "", "document:1:4: no forest\n"),
        ("a[1.5]", Status::DocText, "", "document:1:4: no forest\n"),
        ("a[12abc]", Status::DocText, "", "document:1:5: no forest\n"),
        ("-", Status::DocText, "", "document:1:2: no forest\n"),
    ];
    for (document, status, out, err) in table {
        let ended = run(rt.alloc(), "INPUT x[] DO DELETE x", document)?;
        assert_eq!(rt; ended.status, status, "{document}");
        assert_eq!(rt; ended.out.bytes(), out.as_bytes(), "{document}");
        assert_eq!(rt; ended.err.bytes(), err.as_bytes(), "{document}");
    }
    Ok(())
}

#[test]
fn deletes_what_the_path_leads_to(rt: HostRuntime) -> Result<(), Fail> {
    let table = [
        // three steps
        (
            "DELETE a/b/c",
            "a[b[c[],d[]],c[]],b[c[]]",
            "a[b[d[]],c[]],b[c[]]\n",
        ),
        // a label at several levels
        (
            "DELETE a/a",
            "a[a[a[]],b[a[]]],a[\"x\"]",
            "a[b[a[]]],a[\"x\"]\n",
        ),
        // atoms among the elements
        (
            "DELETE a/b",
            "a[\"b\",b[],true,b[\"b\"],false],\"a\"",
            "a[\"b\",true,false],\"a\"\n",
        ),
        // everything at the top
        ("DELETE a", "a[],a[b[\"x\"]],a[a[]]", "()\n"),
        // nothing that matches
        ("DELETE b/a", "a[b[a[]]],\"b\"", "a[b[a[]]],\"b\"\n"),
        // a match inside what is deleted
        ("DELETE a", "b[a[]],a[a[],c[]],c[a[]]", "b[a[]],c[a[]]\n"),
        // a label that another begins with, and quoted signs
        ("DELETE a", "ab[],a-b[],a[],\"a[]\"", "ab[],a-b[],\"a[]\"\n"),
    ];
    for (deletion, document, out) in table {
        let script = format!(in rt.alloc(); "INPUT any[]* DO {deletion}")?;
        let files = (script.as_str(), document);
        let right = answers(rt.alloc(), files, Status::Done, out, "")?;
        assert!(rt; right, "{deletion} on {document}");
    }
    Ok(())
}

// Each word of the language is no label of a path, but is one between quotes, and begins others;
// `true` and `false` aren't labels at all.
#[test]
fn tells_words_from_labels(rt: HostRuntime) -> Result<(), Fail> {
    let alloc = rt.alloc();
    let words = "TYPE PROCEDURE INPUT OUTPUT DO SKIP INSERT BEFORE AFTER AS FIRST LAST INTO VALUE \
        DELETE FROM RENAME TO REPLACE IN WITH UPDATE BY IF THEN ELSE LET CALL WHERE for in return \
        let if then else true false";
    for word in words.split(' ') {
        let script = format!(in alloc; "INPUT a[] DO DELETE a/{word}")?;
        let ended = run(alloc, script.as_str(), DOCUMENT)?;
        assert_eq!(rt;
            ended.err.bytes(),
            b"script:1:23: Syntax\n".as_slice(),
            "{word}"
        );
        let script = format!(in alloc; "INPUT a[] DO DELETE a/{word}s")?;
        let ended = run(alloc, script.as_str(), DOCUMENT)?;
        assert_eq!(rt; ended.status, Status::Done, "{word}s");
        let script = format!(in alloc; "INPUT a[] DO DELETE a/'{word}'")?;
        let ended = run(alloc, script.as_str(), DOCUMENT)?;
        let line = match word {
            "true" => "script:1:28: Bad\n",
            "false" => "script:1:29: Bad\n",
            _ => "",
        };
        assert_eq!(rt; ended.err.bytes(), line.as_bytes(), "'{word}'");
    }
    Ok(())
}

#[test]
fn refuses_other_words(rt: HostRuntime) -> Result<(), Fail> {
    let alloc = rt.alloc();
    let table: [&[&str]; 10] = [
        &[],
        &["run"],
        &["run", "s"],
        &["run", "s", "d", "d"],
        &["--help"],
        &["check", "s"],
        &["core"],
        &["core", "s", "d"],
        &["Core", "s"],
        &["Run", "s", "d"],
    ];
    for words in table {
        let folder = folder(alloc, SCRIPT.as_bytes(), DOCUMENT.as_bytes(), 0)?;
        let ended = end(
            alloc,
            words,
            folder,
            MemSink::new(alloc, None),
            MemSink::new(alloc, None),
        )?;
        assert_eq!(rt; ended.status, Status::Usage);
        assert_eq!(rt; ended.out.bytes(), b"".as_slice());
        assert_eq!(rt; ended.err.bytes(), USAGE.as_bytes());
    }
    Ok(())
}

// Two calls begin a file, two read its bytes and its end: six in all.
#[test]
fn ends_where_a_call_of_the_folder_fails(rt: HostRuntime) -> Result<(), Fail> {
    let alloc = rt.alloc();
    for call in 1..8 {
        let folder = folder(alloc, SCRIPT.as_bytes(), DOCUMENT.as_bytes(), call)?;
        let ended = end(
            alloc,
            &["run", "s", "d"],
            folder,
            MemSink::new(alloc, None),
            MemSink::new(alloc, None),
        )?;
        let (status, out, err) = if call < 7 {
            (Status::ReadFault, "", "flux: read fault\n")
        } else {
            (Status::Done, RESULT, "")
        };
        assert_eq!(rt; ended.status, status, "call {call}");
        assert_eq!(rt; ended.out.bytes(), out.as_bytes(), "call {call}");
        assert_eq!(rt; ended.err.bytes(), err.as_bytes(), "call {call}");
    }
    Ok(())
}

#[test]
fn ends_where_a_file_is_missing(rt: HostRuntime) -> Result<(), Fail> {
    let alloc = rt.alloc();
    let ended = ample(alloc, &["core", "x"], SCRIPT, DOCUMENT)?;
    assert_eq!(rt; ended.status, Status::ReadFault);
    assert_eq!(rt; ended.out.bytes(), b"".as_slice());
    let table: [(&str, &str, &str, Status); 5] = [
        (SCRIPT, "s", "x", Status::ReadFault),
        (SCRIPT, "x", "d", Status::ReadFault),
        // the script is judged before the document's turn comes
        ("INPUT a[] DO SKIP", "s", "x", Status::Script),
        ("DELETE a", "s", "x", Status::Script),
        ("DELETE a", "x", "x", Status::ReadFault),
    ];
    for (script, script_name, document_name, status) in table {
        let folder = folder(alloc, script.as_bytes(), DOCUMENT.as_bytes(), 0)?;
        let ended = end(
            alloc,
            &["run", script_name, document_name],
            folder,
            MemSink::new(alloc, None),
            MemSink::new(alloc, None),
        )?;
        assert_eq!(rt; ended.status, status, "{script_name} {document_name}");
        assert_eq!(rt; ended.out.bytes(), b"".as_slice());
    }
    Ok(())
}

#[test]
fn ends_where_a_sink_is_full(rt: HostRuntime) -> Result<(), Fail> {
    let alloc = rt.alloc();
    let files = folder(alloc, SCRIPT.as_bytes(), DOCUMENT.as_bytes(), 0)?;
    let ended = end(
        alloc,
        &["run", "s", "d"],
        files,
        MemSink::new(alloc, Some(4)),
        MemSink::new(alloc, None),
    )?;
    assert_eq!(rt; ended.status, Status::WriteFault);
    assert_eq!(rt; ended.out.bytes(), b"lib[".as_slice());
    assert_eq!(rt; ended.err.bytes(), b"flux: write fault\n".as_slice());
    // a line that doesn't fit changes no status
    let files = folder(alloc, b"INPUT a[] DO SKIP", DOCUMENT.as_bytes(), 0)?;
    let ended = end(
        alloc,
        &["run", "s", "d"],
        files,
        MemSink::new(alloc, None),
        MemSink::new(alloc, Some(6)),
    )?;
    assert_eq!(rt; ended.status, Status::Script);
    assert_eq!(rt; ended.err.bytes(), b"script".as_slice());
    Ok(())
}

// A deletion of one long label, of this many bytes in all.
fn long_script(alloc: Global, length: usize) -> Result<Vec<u8>, AllocError> {
    let mut script = Vec::from_elem(alloc, b'a', length)?;
    for (byte, letter) in script.iter_mut().zip(b"INPUT a[] DO DELETE ".iter()) {
        *byte = *letter;
    }
    Ok(script)
}

#[test]
fn keeps_the_limits(rt: HostRuntime) -> Result<(), Fail> {
    let alloc = rt.alloc();
    for (length, status, line) in [
        (1_048_576, Status::Done, ""),
        (
            1_048_577,
            Status::Script,
            "script: longer than 1048576 bytes\n",
        ),
    ] {
        let script = long_script(alloc, length)?;
        let files = folder(alloc, script.as_slice(), DOCUMENT.as_bytes(), 0)?;
        let ended = end(
            alloc,
            &["run", "s", "d"],
            files,
            MemSink::new(alloc, None),
            MemSink::new(alloc, None),
        )?;
        assert_eq!(rt; ended.status, status, "a script of {length} bytes");
        assert_eq!(rt; ended.err.bytes(), line.as_bytes());
    }
    for (length, line) in [
        (33_554_432, "document:1:1: no forest\n"),
        (33_554_433, "document: longer than 33554432 bytes\n"),
    ] {
        let document = Vec::from_elem(alloc, b',', length)?;
        let files = folder(alloc, SCRIPT.as_bytes(), document.as_slice(), 0)?;
        let ended = end(
            alloc,
            &["run", "s", "d"],
            files,
            MemSink::new(alloc, None),
            MemSink::new(alloc, None),
        )?;
        assert_eq!(rt;
            ended.status,
            Status::DocText,
            "a document of {length} bytes"
        );
        assert_eq!(rt; ended.err.bytes(), line.as_bytes());
    }
    Ok(())
}

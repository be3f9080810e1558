// What no clause says: that runs end as one works out by hand, over an editor of plain documents.
ghost use Rattle.std.specs.Prelude.{◌≡◌, ◌∷◌, [], length, IfOk};
ghost use Rattle.flux_trees.specs.Draft.{depth};
ghost use Rattle.flux_calculus.specs.declared.ask.Var.TheVariants.{Made};
ghost use Rattle.flux_calculus.specs.Query.{element};
ghost use Rattle.flux_calculus.specs.Core as calculus;
ghost use Rattle.flux_query.specs.Read.{query_of};
ghost use Rattle.flux_core.specs.Statements.{core_of, procs_of, procedure_of};
ghost use Rattle.flux_run.specs.Cases.{start, inner, seen, behind, on_each, two, call_inside, strip, HasValue, DoesAlone, AlwaysRuns};

use crate::{RunFault, run};
use flux_atom::{Atom, Boxed, Items, Name, Names, Word};
use flux_calculus::{Span, Test, Var};
use flux_core::{Core, Proc, Procs};
use flux_editor::Editor;
use flux_forest::Forest;
use flux_plain::PlainEditor;
use flux_query::Query;
use flux_types::Ty;
use std::alloc::{AllocError, Global};
use std::process::Abort;
use std::test::Fail;

// ---- documents

// The text that a sign stands for.
fn words_of(sign: u8) -> &'static str {
    match sign {
        b'1' => "1",
        b'2' => "2",
        b'n' => "n",
        _ => "?",
    }
}

// A document: `a` or `b` and a bracket begin an element, a bracket ends it, and each other sign is
// a text.
fn built(rt: &impl Abort, alloc: Global, a: Name, b: Name, signs: &str) -> Result<Forest, Fail>
    ensures { IfOk result (λ forest. depth forest ≡ 0) }
{
    let mut forest = Forest::new(alloc);
    for sign in signs.as_bytes() {
        match *sign {
            b'a' => forest.begin_element(a)?,
            b'b' => forest.begin_element(b)?,
            b'(' => {}
            b')' => {
                assert!(rt; !forest.is_whole());
                forest.end_element();
            }
            other => forest.push_atom(Atom::Text(Word::of(alloc, words_of(other))?))?,
        }
    }
    assert!(rt; forest.is_whole());
    Ok(forest)
}

// So many elements with this label, each in the one before.
fn nested(rt: &impl Abort, alloc: Global, label: Name, count: u32) -> Result<Forest, Fail>
    ensures { IfOk result (λ forest. depth forest ≡ 0) }
{
    let mut forest = Forest::new(alloc);
    for _ in 0..count {
        forest.begin_element(label)?;
    }
    for _ in 0..count {
        assert!(rt; !forest.is_whole());
        forest.end_element();
    }
    assert!(rt; forest.is_whole());
    Ok(forest)
}

// ---- statements

fn nowhere() -> Span
    ensures { result ≡ start }
{
    Span { from: 0, to: 0 }
}

fn within() -> Span
    ensures { result ≡ inner }
{
    Span { from: 7, to: 14 }
}

// label["n"]
fn marker(alloc: Global, label: Name) -> Result<Query, AllocError>
    ensures { IfOk result (λ q. HasValue (query_of q)) }
{
    let text = Query::Lit(Atom::Text(Word::of(alloc, "n")?), nowhere());
    Ok(Query::Elem(label, Boxed::new(alloc, text)?, nowhere()))
}

fn variable() -> Query
    ensures { query_of result ≡ seen }
{
    Query::Var(Var::Made(0), nowhere())
}

// label[$x]
fn around(alloc: Global, label: Name) -> Result<Query, AllocError>
    ensures { IfOk result (λ q. query_of q ≡ element start label seen) }
{
    Ok(Query::Elem(label, Boxed::new(alloc, variable())?, nowhere()))
}

fn delete() -> Core
    ensures { core_of result ≡ calculus.delete start }
{
    Core::Delete(nowhere())
}

fn insert(query: Query) -> Core
    ensures { core_of result ≡ calculus.insert start (query_of query) }
{
    Core::Insert(query, nowhere())
}

fn insert_behind(alloc: Global, query: Query) -> Result<Core, AllocError>
    ensures { IfOk result (λ core. core_of core ≡ behind (query_of query)) }
{
    Ok(Core::Right(Boxed::new(alloc, insert(query))?, nowhere()))
}

fn pair(alloc: Global, first: Core, second: Core) -> Result<Core, AllocError>
    ensures { IfOk result (λ core. core_of core ≡ two (core_of first) (core_of second)) }
{
    let parts = vec![in alloc; first, second]?;
    Ok(Core::Seq(Items::from_vec(parts), nowhere()))
}

fn note(alloc: Global, body: Core) -> Result<Core, AllocError>
    ensures { IfOk result (λ core.
        core_of core ≡ calculus.snapshot start (Made 0) (core_of body)) }
{
    Ok(Core::Snapshot(Var::Made(0), Boxed::new(alloc, body)?, nowhere()))
}

fn each(alloc: Global, label: Name, body: Core) -> Result<Core, AllocError>
    ensures { IfOk result (λ core. core_of core ≡ on_each label (core_of body)) }
{
    let tested = Core::Test(Test::Label(label), Boxed::new(alloc, body)?, nowhere());
    Ok(Core::Iter(Boxed::new(alloc, tested)?, nowhere()))
}

fn call(alloc: Global, span: Span) -> Core
    ensures { core_of result ≡ calculus.call span 0 [] }
{
    Core::Call(0, Items::new(alloc), span)
}

fn inside(alloc: Global, label: Name) -> Result<Core, AllocError>
    ensures { IfOk result (λ core. core_of core ≡ call_inside label) }
{
    let body = Core::Children(Boxed::new(alloc, call(alloc, within()))?, nowhere());
    let core = each(alloc, label, body)?;
    Ok(core)
}

fn stripping(alloc: Global, a: Name, b: Name) -> Result<Core, AllocError>
    ensures { IfOk result (λ core. core_of core ≡ strip a b) }
{
    let renamed = each(alloc, a, Core::Rename(b, nowhere()))?;
    let core = pair(alloc, inside(alloc, a)?, renamed)?;
    Ok(core)
}

fn alone(alloc: Global, name: Name, body: Core) -> Result<Procs, AllocError>
    ensures { IfOk result (λ procs. DoesAlone (procs_of procs) (core_of body)) }
{
    let mut procs = Procs::new(alloc);
    procs.push(Proc {
        name,
        params: Items::new(alloc),
        focus: Ty::Empty,
        result: Ty::Empty,
        result_at: 0,
        body,
    })?;
    Ok(procs)
}

// ---- what is run

// Procedures, and a statement that may call them.
#[derive(Drop)]
struct Script {
    procs: Procs,
    main: Core,
}

// What is done.
#[derive(Clone, Copy)]
enum Way {
    // iter[a?right[insert(a["n"])]]
    BehindEach,
    // iter[a?snapshot $x in {delete;insert(b[$x])}]
    Wrapped,
    // snapshot $x in right[insert($x)], twice
    Doubled,
    // snapshot $x in {right[insert($x)];right[insert($x)]}
    Kept,
    // call p(), where p is {iter[a?children[call p()]];iter[a?rename b]}
    Stripped,
    // call p(), where p is iter[a?children[call p()]]
    Sought,
}

fn behind_each(alloc: Global, a: Name) -> Result<Script, AllocError>
    ensures { IfOk result (λ script. AlwaysRuns (procs_of script.procs) (core_of script.main)) }
{
    let body = insert_behind(alloc, marker(alloc, a)?)?;
    let main = each(alloc, a, body)?;
    let procs = Procs::new(alloc);
    Ok(Script { procs, main })
}

fn wrapped(alloc: Global, a: Name, b: Name) -> Result<Script, AllocError>
    ensures { IfOk result (λ script. AlwaysRuns (procs_of script.procs) (core_of script.main)) }
{
    let replaced = insert(around(alloc, b)?);
    let body = pair(alloc, delete(), replaced)?;
    let main = each(alloc, a, note(alloc, body)?)?;
    let procs = Procs::new(alloc);
    Ok(Script { procs, main })
}

fn doubled(alloc: Global) -> Result<Script, AllocError>
    ensures { IfOk result (λ script. AlwaysRuns (procs_of script.procs) (core_of script.main)) }
{
    let first = note(alloc, insert_behind(alloc, variable())?)?;
    let second = note(alloc, insert_behind(alloc, variable())?)?;
    let main = pair(alloc, first, second)?;
    let procs = Procs::new(alloc);
    Ok(Script { procs, main })
}

fn kept(alloc: Global) -> Result<Script, AllocError>
    ensures { IfOk result (λ script. AlwaysRuns (procs_of script.procs) (core_of script.main)) }
{
    let first = insert_behind(alloc, variable())?;
    let second = insert_behind(alloc, variable())?;
    let main = note(alloc, pair(alloc, first, second)?)?;
    let procs = Procs::new(alloc);
    Ok(Script { procs, main })
}

fn stripped(alloc: Global, a: Name, b: Name) -> Result<Script, AllocError>
    ensures { IfOk result (λ script. AlwaysRuns (procs_of script.procs) (core_of script.main)) }
{
    let body = stripping(alloc, a, b)?;
    let procs = alone(alloc, a, body)?;
    let main = call(alloc, nowhere());
    Ok(Script { procs, main })
}

fn sought(alloc: Global, a: Name) -> Result<Script, AllocError>
    ensures { IfOk result (λ script. AlwaysRuns (procs_of script.procs) (core_of script.main)) }
{
    let body = inside(alloc, a)?;
    let procs = alone(alloc, a, body)?;
    let main = call(alloc, nowhere());
    Ok(Script { procs, main })
}

fn script_of(alloc: Global, a: Name, b: Name, way: Way) -> Result<Script, AllocError>
    ensures { IfOk result (λ script. AlwaysRuns (procs_of script.procs) (core_of script.main)) }
{
    match way {
        Way::BehindEach => behind_each(alloc, a),
        Way::Wrapped => wrapped(alloc, a, b),
        Way::Doubled => doubled(alloc),
        Way::Kept => kept(alloc),
        Way::Stripped => stripped(alloc, a, b),
        Way::Sought => sought(alloc, a),
    }
}

// The place of the call that was one too many, if there was one, and the document that is left.
#[derive(Drop)]
struct Ending {
    place: Option<u32>,
    document: Forest,
}

fn place_of(rt: &impl Abort, outcome: Result<(), RunFault>) -> Result<Option<u32>, Fail> {
    match outcome {
        Ok(()) => Ok(None),
        Err(RunFault::TooDeep { place }) => Ok(Some(place)),
        Err(RunFault::Memory(error)) => Err(error.into()),
    }
}

fn ending_of(
    rt: &impl Abort,
    alloc: Global,
    script: &Script,
    document: Forest,
    calls: u32,
) -> Result<Ending, Fail>
    requires whole { depth document ≡ 0 }
    requires runs { AlwaysRuns (procs_of script.now.procs) (core_of script.now.main) }
    ensures { IfOk result (λ ending. depth ending.document ≡ 0) }
{
    let mut editor = PlainEditor::new(alloc, document)?;
    let outcome = run(alloc, &script.procs, &script.main, &mut editor, calls);
    let place = place_of(rt, outcome)?;
    let document = editor.finish()?;
    Ok(Ending { place, document })
}

// The end of a script on a document, with so many calls to go.
fn tried(
    rt: &impl Abort,
    alloc: Global,
    script: Result<Script, AllocError>,
    document: Forest,
    calls: u32,
) -> Result<Ending, Fail>
    requires whole { depth document ≡ 0 }
    requires runs { IfOk script
        (λ script. AlwaysRuns (procs_of script.procs) (core_of script.main)) }
    ensures { IfOk result (λ ending. depth ending.document ≡ 0) }
{
    let script = script?;
    let ending = ending_of(rt, alloc, &script, document, calls)?;
    Ok(ending)
}

fn is_end(ending: &Ending, place: Option<u32>, wanted: &Forest) -> bool
    requires ending { depth ending.now.document ≡ 0 }
    requires wanted { depth wanted.now ≡ 0 }
{
    ending.place == place && ending.document.view().equal(wanted.view())
}

// ---- the cases

// A document, so many calls to go, the place of a call too many, and the document that is left.
#[derive(Clone, Copy)]
struct Case<'a> {
    way: Way,
    calls: u32,
    before: &'a str,
    place: Option<u32>,
    after: &'a str,
}

fn ends_so(
    rt: &impl Abort,
    alloc: Global,
    a: Name,
    b: Name,
    case: &Case<'_>,
) -> Result<bool, Fail> {
    let document = built(rt, alloc, a, b, case.before)?;
    let wanted = built(rt, alloc, a, b, case.after)?;
    let script = script_of(alloc, a, b, case.way);
    let ending = tried(rt, alloc, script, document, case.calls)?;
    Ok(is_end(&ending, case.place, &wanted))
}

#[test]
fn ends_as_by_hand(rt: HostRuntime) -> Result<(), Fail> {
    let alloc = rt.alloc();
    let mut names = Names::new(alloc);
    let a = names.intern("a")?;
    let b = names.intern("b")?;
    for (way, calls, before, place, after) in [
        // what an iteration puts behind a tree isn't visited
        (Way::BehindEach, 0, "a(1)a(2)", None, "a(1)a(n)a(2)a(n)"),
        // a variable still holds what was deleted
        (Way::Wrapped, 0, "1a(1)b()", None, "1b(a(1))b()"),
        // a query is read anew after a change
        (Way::Doubled, 0, "1a()", None, "1a()1a()1a()1a()"),
        // a variable holds what it was bound to, not what the focus has become
        (Way::Kept, 0, "1", None, "111"),
        // three levels take four calls inside one another
        (Way::Stripped, 4, "a(a(a()))", None, "b(b(b()))"),
        (Way::Stripped, 3, "a(a(a()))", Some(7), "a(a(a()))"),
        // what the first tree contains was renamed when the second met a call too many
        (
            Way::Stripped,
            3,
            "a(a())a(a(a()))",
            Some(7),
            "a(a())a(a(a()))",
        ),
        (Way::Stripped, 4, "a(a())a(a(a()))", None, "b(b())b(b(b()))"),
        (Way::Stripped, 0, "", Some(0), ""),
        (Way::Stripped, 1, "1b(a())", None, "1b(a())"),
    ] {
        let case = Case {
            way,
            calls,
            before,
            place,
            after,
        };
        assert!(&rt; ends_so(&rt, alloc, a, b, &case)?);
    }
    Ok(())
}

// So many nested elements, so many calls to go, the place of a call too many, and whether the
// elements are renamed.
#[derive(Clone, Copy)]
struct Tower {
    way: Way,
    levels: u32,
    calls: u32,
    place: Option<u32>,
    renamed: bool,
}

fn is_left_so(
    rt: &impl Abort,
    alloc: Global,
    a: Name,
    b: Name,
    tower: Tower,
) -> Result<bool, Fail> {
    let document = nested(rt, alloc, a, tower.levels)?;
    let label = if tower.renamed { b } else { a };
    let wanted = nested(rt, alloc, label, tower.levels)?;
    let script = script_of(alloc, a, b, tower.way);
    let ending = tried(rt, alloc, script, document, tower.calls)?;
    Ok(is_end(&ending, tower.place, &wanted))
}

#[test]
fn goes_as_deep_as_it_has_calls(rt: HostRuntime) -> Result<(), Fail> {
    let alloc = rt.alloc();
    let mut names = Names::new(alloc);
    let a = names.intern("a")?;
    let b = names.intern("b")?;
    for (way, levels, calls, place, renamed) in [
        (Way::Stripped, 999, 1_000, None, true),
        (Way::Stripped, 1_000, 1_000, Some(7), false),
        (Way::Stripped, 99_999, 100_000, None, true),
        (Way::Stripped, 100_000, 100_000, Some(7), false),
        (Way::Sought, 100_000, 100_001, None, false),
    ] {
        let tower = Tower {
            way,
            levels,
            calls,
            place,
            renamed,
        };
        assert!(&rt; is_left_so(&rt, alloc, a, b, tower)?);
    }
    Ok(())
}

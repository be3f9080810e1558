// What no clause says: that values are what one works out by hand, and that calls succeed.
ghost use Rattle.std.specs.Prelude.{◌≡◌, ◌∷◌, [], IsSome, IfOk};
ghost use Rattle.flux_trees.specs.Hedge.{Plain};
ghost use Rattle.flux_trees.specs.Draft.{depth};
ghost use Rattle.flux_atom.specs.declared.atom.Atom.TheVariants.{Bool, Text as Words, Int};
ghost use Rattle.flux_calculus.specs.declared.ask.Var.TheVariants.{Made};
ghost use Rattle.flux_calculus.specs.Query.{value, element, variable, literal, binding, choice, alike, less, child, filter, each};
ghost use Rattle.flux_query.specs.Read.{query_of, queries_of};
ghost use Rattle.flux_query.specs.Cases.{HasValue, start};

use crate::{Env, Query, Span, Test, Var, eval};
use flux_atom::{Atom, Boxed, Items, Name, Names, Word, is_name};
use flux_forest::Forest;
use std::alloc::{AllocError, Global};
use std::process::Abort;
use std::test::Fail;

// What a forest is built of.
#[derive(Clone, Copy)]
enum Step<'a> {
    Begin(Name),
    End,
    Truth(bool),
    Text(&'a str),
    Number(i64),
}

use Step::{Begin, End, Number, Text, Truth};

fn built(rt: &impl Abort, alloc: Global, steps: &[Step<'_>]) -> Result<Forest, Fail>
    ensures { IfOk result (λ forest. depth forest ≡ 0) }
{
    let mut forest = Forest::new(alloc);
    for step in steps {
        match step {
            Begin(name) => forest.begin_element(*name)?,
            End => {
                assert!(rt; !forest.is_whole());
                forest.end_element();
            }
            Truth(truth) => forest.push_atom(Atom::Bool(*truth))?,
            Text(text) => forest.push_atom(Atom::Text(Word::of(alloc, text)?))?,
            Number(number) => forest.push_atom(Atom::Int(*number))?,
        }
    }
    assert!(rt; forest.is_whole());
    Ok(forest)
}

fn name(rt: &impl Abort, names: &mut Names, text: &str) -> Result<Name, Fail> {
    assert!(rt; is_name(text) && names.len() < 100);
    Ok(names.intern(text)?)
}

fn nowhere() -> Span
    ensures { result ≡ start }
{
    Span { from: 0, to: 0 }
}

fn var(x: u32) -> Query
    ensures { query_of result ≡ variable start (Made x) }
{
    Query::Var(Var::Made(x), nowhere())
}

fn child_of(x: u32) -> Query
    ensures { query_of result ≡ child start (Made x) }
{
    Query::Child(Var::Made(x), nowhere())
}

fn truth(truth: bool) -> Query
    ensures { query_of result ≡ literal start (Bool truth) }
{
    Query::Lit(Atom::Bool(truth), nowhere())
}

fn text(alloc: Global, text: &str) -> Result<Query, AllocError>
    ensures { IfOk result (λ q. query_of q ≡ literal start (Words text.now)) }
{
    Ok(Query::Lit(Atom::Text(Word::of(alloc, text)?), nowhere()))
}

fn number(number: i64) -> Query
    ensures { query_of result ≡ literal start (Int number) }
{
    Query::Lit(Atom::Int(number), nowhere())
}

fn list(parts: Vec<Query>) -> Query
    ensures { query_of result ≡ queries_of start parts.items }
{
    Query::Concat(Items::from_vec(parts), nowhere())
}

fn for_each(alloc: Global, x: u32, over: Query, body: Query) -> Result<Query, AllocError>
    ensures { IfOk result (λ q. query_of q ≡ each start (Made x) (query_of over) (query_of body)) }
{
    Ok(Query::For(
        Var::Made(x),
        Boxed::new(alloc, over)?,
        Boxed::new(alloc, body)?,
        nowhere(),
    ))
}

fn inside(alloc: Global, label: Name, content: Query) -> Result<Query, AllocError>
    ensures { IfOk result (λ q. query_of q ≡ element start label (query_of content)) }
{
    Ok(Query::Elem(label, Boxed::new(alloc, content)?, nowhere()))
}

fn filtered(alloc: Global, from: Query, test: Test) -> Result<Query, AllocError>
    ensures { IfOk result (λ q. query_of q ≡ filter start (query_of from) test) }
{
    Ok(Query::Filter(Boxed::new(alloc, from)?, test, nowhere()))
}

fn same(alloc: Global, left: Query, right: Query) -> Result<Query, AllocError>
    ensures { IfOk result (λ q. query_of q ≡ alike start (query_of left) (query_of right)) }
{
    Ok(Query::Same(
        Boxed::new(alloc, left)?,
        Boxed::new(alloc, right)?,
        nowhere(),
    ))
}

fn is_less(alloc: Global, left: Query, right: Query) -> Result<Query, AllocError>
    ensures { IfOk result (λ q. query_of q ≡ less start (query_of left) (query_of right)) }
{
    Ok(Query::Less(
        Boxed::new(alloc, left)?,
        Boxed::new(alloc, right)?,
        nowhere(),
    ))
}

fn bound_to(alloc: Global, x: u32, bound: Query, body: Query) -> Result<Query, AllocError>
    ensures { IfOk result (λ q.
        query_of q ≡ binding start (Made x) (query_of bound) (query_of body)) }
{
    Ok(Query::Let(
        Var::Made(x),
        Boxed::new(alloc, bound)?,
        Boxed::new(alloc, body)?,
        nowhere(),
    ))
}

fn either(alloc: Global, condition: Query, yes: Query, no: Query) -> Result<Query, AllocError>
    ensures { IfOk result (λ q.
        query_of q ≡ choice start (query_of condition) (query_of yes) (query_of no)) }
{
    Ok(Query::If(
        Boxed::new(alloc, condition)?,
        Boxed::new(alloc, yes)?,
        Boxed::new(alloc, no)?,
        nowhere(),
    ))
}

// Asserts that the value is the forest of these steps where variable 0 is bound to a forest.
fn gives(
    rt: &impl Abort,
    alloc: Global,
    bound: &[Step<'_>],
    query: &Query,
    wanted: &[Step<'_>],
) -> Result<(), Fail>
    requires { HasValue (query_of query.now) }
{
    let mut env = Env::new(alloc);
    env.bind(Var::Made(0), built(rt, alloc, bound)?)?;
    let value = eval(alloc, query, &mut env)?;
    let wanted = built(rt, alloc, wanted)?;
    assert!(rt; value.view().equal(wanted.view()));
    Ok(())
}

// for 1 in 0 return the trees inside 1 that have the label
#[tactic(auto, using(crate::proofs::CaseLaws::cases))]
fn labelled_inside(alloc: Global, label: Name) -> Result<Query, AllocError>
    ensures { IfOk result (λ q. HasValue (query_of q)) }
{
    let inside = filtered(alloc, child_of(1), Test::Label(label))?;
    let query = for_each(alloc, 1, var(0), inside)?;
    Ok(query)
}

// for 1 in 0 return what 1 contains
#[tactic(auto, using(crate::proofs::CaseLaws::cases))]
fn all_inside(alloc: Global) -> Result<Query, AllocError>
    ensures { IfOk result (λ q. HasValue (query_of q)) }
{
    let query = for_each(alloc, 1, var(0), child_of(1))?;
    Ok(query)
}

// whether 0 is "T", true
#[tactic(auto, using(crate::proofs::CaseLaws::cases))]
fn is_text_and_truth(alloc: Global) -> Result<Query, AllocError>
    ensures { IfOk result (λ q. HasValue (query_of q)) }
{
    let parts = list(vec![in alloc; text(alloc, "T")?, truth(true)]?);
    let query = same(alloc, var(0), parts)?;
    Ok(query)
}

// whether one number is less than another
#[tactic(auto, using(crate::proofs::CaseLaws::cases))]
fn ordered(alloc: Global, left: i64, right: i64) -> Result<Query, AllocError>
    ensures { IfOk result (λ q. HasValue (query_of q)) }
{
    let query = is_less(alloc, number(left), number(right))?;
    Ok(query)
}

// whether two numbers are the same
#[tactic(auto, using(crate::proofs::CaseLaws::cases))]
fn number_pair(alloc: Global, left: i64, right: i64) -> Result<Query, AllocError>
    ensures { IfOk result (λ q. HasValue (query_of q)) }
{
    let query = same(alloc, number(left), number(right))?;
    Ok(query)
}

// for 1 in "A", false return 1, 1
#[tactic(auto, using(crate::proofs::CaseLaws::cases))]
fn twice(alloc: Global) -> Result<Query, AllocError>
    ensures { IfOk result (λ q. HasValue (query_of q)) }
{
    let over = list(vec![in alloc; text(alloc, "A")?, truth(false)]?);
    let twice = list(vec![in alloc; var(1), var(1)]?);
    let query = for_each(alloc, 1, over, twice)?;
    Ok(query)
}

#[tactic(auto, using(crate::proofs::CaseLaws::cases))]
fn passing(alloc: Global, test: Test) -> Result<Query, AllocError>
    ensures { IfOk result (λ q. HasValue (query_of q)) }
{
    let query = filtered(alloc, var(0), test)?;
    Ok(query)
}

// (let 0 = "inner" in 0), 0
#[tactic(auto, using(crate::proofs::CaseLaws::cases))]
fn hidden(alloc: Global) -> Result<Query, AllocError>
    ensures { IfOk result (λ q. HasValue (query_of q)) }
{
    let inner = bound_to(alloc, 0, text(alloc, "inner")?, var(0))?;
    Ok(list(vec![in alloc; inner, var(0)]?))
}

#[tactic(auto, using(crate::proofs::CaseLaws::cases))]
fn chosen(alloc: Global, condition: bool) -> Result<Query, AllocError>
    ensures { IfOk result (λ q. HasValue (query_of q)) }
{
    let yes = text(alloc, "yes")?;
    let no = text(alloc, "no")?;
    let query = either(alloc, truth(condition), yes, no)?;
    Ok(query)
}

#[tactic(auto, using(crate::proofs::CaseLaws::cases))]
fn joined(alloc: Global) -> Result<Query, AllocError>
    ensures { IfOk result (λ q. HasValue (query_of q)) }
{
    Ok(list(vec![in alloc; text(alloc, "A")?, truth(true), text(alloc, "B")?]?))
}

#[tactic(auto, using(crate::proofs::CaseLaws::cases))]
fn nothing(alloc: Global) -> Query
    ensures { HasValue (query_of result) }
{
    list(Vec::new(alloc))
}

#[tactic(auto, using(crate::proofs::CaseLaws::cases))]
fn alone(alloc: Global) -> Result<Query, AllocError>
    ensures { IfOk result (λ q. HasValue (query_of q)) }
{
    Ok(list(vec![in alloc; truth(true)]?))
}

// label[0]
#[tactic(auto, using(crate::proofs::CaseLaws::cases))]
fn wrapped(alloc: Global, label: Name) -> Result<Query, AllocError>
    ensures { IfOk result (λ q. HasValue (query_of q)) }
{
    let query = inside(alloc, label, var(0))?;
    Ok(query)
}

fn author_of_book(rt: &impl Abort, alloc: Global, names: (Name, Name, Name)) -> Result<(), Fail> {
    let (book, title, author) = names;
    let steps = [
        Begin(book),
        Begin(title),
        Text("T"),
        End,
        Begin(author),
        Text("X"),
        End,
        End,
    ];
    let query = labelled_inside(alloc, author)?;
    gives(rt, alloc, &steps, &query, &[Begin(author), Text("X"), End])
}

#[test]
fn goes_over_trees(rt: HostRuntime) -> Result<(), Fail> {
    let alloc = rt.alloc();
    let mut names = Names::new(alloc);
    let book = name(&rt, &mut names, "book")?;
    let title = name(&rt, &mut names, "title")?;
    let author = name(&rt, &mut names, "author")?;
    author_of_book(&rt, alloc, (book, title, author))
}

#[test]
fn shows_what_trees_contain(rt: HostRuntime) -> Result<(), Fail> {
    let alloc = rt.alloc();
    let mut names = Names::new(alloc);
    let a = name(&rt, &mut names, "a")?;
    let query = all_inside(alloc)?;
    gives(
        &rt,
        alloc,
        &[Begin(a), Text("T"), Truth(true), End],
        &query,
        &[Text("T"), Truth(true)],
    )
}

#[test]
fn shows_nothing_in_atoms(rt: HostRuntime) -> Result<(), Fail> {
    let alloc = rt.alloc();
    gives(&rt, alloc, &[Text("T")], &all_inside(alloc)?, &[])
}

#[test]
fn makes_elements(rt: HostRuntime) -> Result<(), Fail> {
    let alloc = rt.alloc();
    let mut names = Names::new(alloc);
    let a = name(&rt, &mut names, "a")?;
    let query = wrapped(alloc, a)?;
    let wanted = [Begin(a), Text("T"), Truth(true), End];
    gives(&rt, alloc, &[Text("T"), Truth(true)], &query, &wanted)
}

#[test]
fn compares_forests(rt: HostRuntime) -> Result<(), Fail> {
    let alloc = rt.alloc();
    let mut names = Names::new(alloc);
    let a = name(&rt, &mut names, "a")?;
    let query = is_text_and_truth(alloc)?;
    gives(
        &rt,
        alloc,
        &[Text("T"), Truth(true)],
        &query,
        &[Truth(true)],
    )?;
    gives(
        &rt,
        alloc,
        &[Text("T"), Truth(true), Begin(a), End],
        &query,
        &[Truth(false)],
    )
}

#[test]
fn goes_over_atoms(rt: HostRuntime) -> Result<(), Fail> {
    let alloc = rt.alloc();
    let wanted = [Text("A"), Text("A"), Truth(false), Truth(false)];
    gives(&rt, alloc, &[], &twice(alloc)?, &wanted)
}

#[test]
fn compares_numbers(rt: HostRuntime) -> Result<(), Fail> {
    let alloc = rt.alloc();
    for (left, right, less) in [
        (i64::MIN, i64::MAX, true),
        (i64::MAX, i64::MIN, false),
        (i64::MIN, i64::MIN, false),
        (-1, 0, true),
        (7, 7, false),
    ] {
        gives(
            &rt,
            alloc,
            &[],
            &ordered(alloc, left, right)?,
            &[Truth(less)],
        )?;
        let same = left == right;
        gives(
            &rt,
            alloc,
            &[],
            &number_pair(alloc, left, right)?,
            &[Truth(same)],
        )?;
    }
    let query = is_text_and_truth(alloc)?;
    gives(
        &rt,
        alloc,
        &[Number(1), Truth(true)],
        &query,
        &[Truth(false)],
    )
}

// What passes of an element a with "A" in it, "T", an element b, a truth value and a number.
fn passes(
    rt: &impl Abort,
    alloc: Global,
    names: (Name, Name),
    test: Test,
    wanted: &[Step<'_>],
) -> Result<(), Fail> {
    let (a, b) = names;
    let steps = [
        Begin(a),
        Text("A"),
        End,
        Text("T"),
        Begin(b),
        End,
        Truth(true),
        Number(-7),
    ];
    let query = passing(alloc, test)?;
    gives(rt, alloc, &steps, &query, wanted)
}

#[test]
fn filters_elements(rt: HostRuntime) -> Result<(), Fail> {
    let alloc = rt.alloc();
    let mut names = Names::new(alloc);
    let a = name(&rt, &mut names, "a")?;
    let b = name(&rt, &mut names, "b")?;
    passes(&rt, alloc, (a, b), Test::Label(b), &[Begin(b), End])?;
    let texts = [Begin(a), Text("1"), End, Begin(b), Text("2"), End];
    let query = passing(alloc, Test::Label(a))?;
    gives(&rt, alloc, &texts, &query, &[Begin(a), Text("1"), End])?;
    let elements = [Begin(a), Text("A"), End, Begin(b), End];
    passes(&rt, alloc, (a, b), Test::AnyElement, &elements)
}

#[test]
fn filters_atoms(rt: HostRuntime) -> Result<(), Fail> {
    let alloc = rt.alloc();
    let mut names = Names::new(alloc);
    let a = name(&rt, &mut names, "a")?;
    passes(&rt, alloc, (a, a), Test::OfText, &[Text("T")])?;
    passes(&rt, alloc, (a, a), Test::OfBool, &[Truth(true)])?;
    passes(&rt, alloc, (a, a), Test::OfInt, &[Number(-7)])
}

#[test]
fn hides_what_was_bound(rt: HostRuntime) -> Result<(), Fail> {
    let alloc = rt.alloc();
    gives(
        &rt,
        alloc,
        &[Text("outer")],
        &hidden(alloc)?,
        &[Text("inner"), Text("outer")],
    )
}

#[test]
fn chooses(rt: HostRuntime) -> Result<(), Fail> {
    let alloc = rt.alloc();
    gives(&rt, alloc, &[], &chosen(alloc, true)?, &[Text("yes")])?;
    gives(&rt, alloc, &[], &chosen(alloc, false)?, &[Text("no")])
}

#[test]
fn joins(rt: HostRuntime) -> Result<(), Fail> {
    let alloc = rt.alloc();
    gives(&rt, alloc, &[], &nothing(alloc), &[])?;
    gives(&rt, alloc, &[], &alone(alloc)?, &[Truth(true)])?;
    gives(
        &rt,
        alloc,
        &[],
        &joined(alloc)?,
        &[Text("A"), Truth(true), Text("B")],
    )
}

#[test]
fn finds_the_last(rt: HostRuntime) -> Result<(), Fail> {
    let alloc = rt.alloc();
    let mut env = Env::new(alloc);
    env.bind(Var::Made(0), built(&rt, alloc, &[Text("first")])?)?;
    env.bind(Var::Made(1), built(&rt, alloc, &[Truth(true)])?)?;
    env.bind(Var::Made(0), built(&rt, alloc, &[Text("last")])?)?;
    let last = built(&rt, alloc, &[Text("last")])?;
    assert!(rt; matches!(env.get(Var::Made(0)), Some(view) if view.equal(last.view())));
    assert!(rt; env.get(Var::Made(2)).is_none());
    env.unbind();
    let first = built(&rt, alloc, &[Text("first")])?;
    assert!(rt; matches!(env.get(Var::Made(0)), Some(view) if view.equal(first.view())));
    Ok(())
}

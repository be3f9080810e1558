// What no clause says: that calls succeed, with types and places worked out by hand.
ghost use Rattle.std.specs.Prelude.{◌≡◌, ℕ, ◌↔◌, ◌+◌, ◌<◌, ◌≤◌, [], false, length, IsTrue, IfOk, OnOk};
ghost use Rattle.flux_atom.specs.declared.word.Word.{Word as Letters};
ghost use Rattle.flux_atom.specs.declared.atom.Atom.TheVariants.{Text as Words};
ghost use Rattle.flux_trees.specs.Hedge.{leaf, nil};
ghost use Rattle.flux_trees.specs.Draft.{done};
ghost use Rattle.flux_schema.specs.Ty.{atom, NamesBelow};
ghost use Rattle.flux_schema.specs.Definitions.{Definitions};
ghost use Rattle.flux_schema.specs.Labels.{Lacks, BodiesLack};
ghost use Rattle.flux_schema.specs.Member.{Member, Included};
ghost use Rattle.flux_types.specs.Read.{ty_of};
ghost use Rattle.flux_types.specs.Kept.{AreKept};
ghost use Rattle.flux_types.specs.Verdicts.{IsVerdict};
ghost use Rattle.flux_calculus.specs.declared.ask.Span.{Span as Place};
ghost use Rattle.flux_calculus.specs.Labels.{EachLabelOfTest};
ghost use Rattle.flux_query.specs.Read.{query_of, queries_of};
ghost use Rattle.flux_core.specs.Faults.{IsUsable, AreUsable};
ghost use Rattle.flux_querytype.specs.Answers.{QueryLacks, ContextLacks};

use crate::type_query;
use flux_atom::{Atom, AtomKind, Boxed, Items, Name, Names, Word, is_name};
use flux_calculus::{Span, Test, Var};
use flux_core::{Gamma, KindFault, Param};
use flux_forest::{Forest, Head};
use flux_query::Query;
use flux_types::{Decider, Defs, Draft, Ty, Verdict, copy_of, height, size, tidy};
use std::alloc::{AllocError, Global};
use std::marker::Model;
use std::process::Abort;
use std::test::Fail;

// Decides only that `bool` is included in `bool` and `int` in `int`, and that `string` isn't
// included in either. The label stands in no body.
#[derive(Drop)]
struct Texts<'d> {
    defs: &'d Defs,
    other: Name,
}

impl<'d> Model for Texts<'d> {
    ghost use Rattle.std.specs.Prelude.{ℕ};
    ghost use Rattle.std.specs.Coded.{coded×, coded_ℕ};
    ghost use Rattle.flux_schema.specs.Definitions.{Definitions};
    ghost use Rattle.flux_schema.specs.DefinitionCodes.{definitions_code};
    ghost use Rattle.flux_schema.specs.Labels.{BodiesLack};

    ghost Value = { Definitions × ℕ };

    ghost coded = { coded× definitions_code coded_ℕ };

    ghost view = { λ d. (d.defs.now, d.other) };

    ghost invariant = { λ d. BodiesLack d.other d.defs.now };
}

#[tactic(auto, using(flux_types::proofs::Variants::of_atom))]
fn is_atom(ty: &Ty, kind: AtomKind) -> bool
    ensures { IsTrue result → ty_of ty.now ≡ atom kind }
{
    match ty {
        Ty::Atom(found) => *found == kind,
        _ => false,
    }
}

// Whether both types are that of one kind of atoms.
fn are_atoms(left: &Ty, right: &Ty, kind: AtomKind) -> bool
    ensures { (defs : Definitions) → IsTrue result →
        Included defs (ty_of left.now) (ty_of right.now) }
{
    is_atom(left, kind) && is_atom(right, kind)
}

// Whether the type is `bool` or `int`: no text is a member of it.
#[tactic(auto, using(crate::proofs::Shown::no_truth, crate::proofs::Shown::no_number))]
fn takes_no_text(ty: &Ty) -> bool
    ensures { (defs : Definitions) (word : Letters) → IsTrue result →
        ¬ (Member defs (leaf tt (Words word) nil) (ty_of ty.now)) }
{
    is_atom(ty, AtomKind::Bool) || is_atom(ty, AtomKind::Int)
}

// A text, where the types are `string` and `bool` or `int`.
fn verdict(alloc: Global, left: &Ty, right: &Ty) -> Result<Verdict, AllocError>
    ensures { (defs : Definitions) (other : ℕ) →
        IfOk result (IsVerdict defs other (ty_of left.now) (ty_of right.now)) }
{
    if are_atoms(left, right, AtomKind::Bool) || are_atoms(left, right, AtomKind::Int) {
        return Ok(Verdict::Yes);
    }
    if !is_atom(left, AtomKind::Text) || !takes_no_text(right) {
        return Err(AllocError);
    }
    let shown = some_text(alloc)?;
    Ok(Verdict::No(shown))
}

impl<'d> Decider for Texts<'d> {
    ghost definitions = { λ d. d.0 };

    ghost unnamed = { λ d. d.1 };

    ghost keeps = { λ _. false };

    ghost known = { λ _. [] };

    fn other(&self) -> Name {
        self.other
    }

    fn defs(&self) -> &Defs {
        self.defs.as_kept()
    }

    fn included(&mut self, alloc: Global, left: &Ty, right: &Ty) -> Result<Verdict, AllocError> {
        verdict(alloc, left, right)
    }
}

fn some_text(alloc: Global) -> Result<Forest, AllocError>
    ensures { IfOk result (λ made. (word : Word) × (made ≡ done (leaf tt (Words word) nil))) }
{
    let word = Word::of(alloc, "text")?;
    let mut made = Forest::new(alloc);
    made.push_atom(Atom::Text(word))?;
    Ok(made)
}

fn name(rt: &impl Abort, names: &mut Names, text: &str) -> Result<Name, AllocError> {
    assert!(rt; is_name(text) && names.len() < 100);
    names.intern(text)
}

fn lacks(ty: &Ty, other: Name) -> bool
    ensures { IsTrue result → Lacks other (ty_of ty.now) }
{
    match ty {
        Ty::Empty | Ty::Atom(_) | Ty::Named(_) => true,
        Ty::Elem(label, inner) => *label != other && lacks(inner.get(), other),
        Ty::AnyElem(inner) | Ty::Star(inner) => lacks(inner.get(), other),
        Ty::Seq(left, right) | Ty::Alt(left, right) => {
            lacks(left.get(), other) && lacks(right.get(), other)
        }
    }
}

// Whether no body has the label.
fn bodies_lack(defs: &Defs, other: Name) -> bool
    ensures { IsTrue result → BodiesLack other defs.now }
{
    for index in 0..defs.len() {
        if !lacks(defs.unfold(index), other) {
            return false;
        }
    }
    true
}

// A label of a table of its own, for types and queries where no label stands.
fn lone_label(rt: &impl Abort, alloc: Global) -> Result<Name, AllocError> {
    let mut names = Names::new(alloc);
    name(rt, &mut names, "other")
}

#[cycle(lacking)]
fn query_lacks(query: &Query, other: Name) -> bool
    ensures { IsTrue result → QueryLacks other (query_of query.now) }
{
    match query {
        Query::Concat(queries, _) => queries_lack(queries.as_slice(), other),
        Query::Elem(label, content, _) => *label != other && query_lacks(content.get(), other),
        Query::Lit(_, _) | Query::Var(_, _) | Query::Child(_, _) => true,
        Query::Let(_, first, second, _)
        | Query::Same(first, second, _)
        | Query::Less(first, second, _)
        | Query::For(_, first, second, _) => {
            query_lacks(first.get(), other) && query_lacks(second.get(), other)
        }
        Query::If(condition, yes, no, _) => {
            query_lacks(condition.get(), other)
                && query_lacks(yes.get(), other)
                && query_lacks(no.get(), other)
        }
        Query::Filter(from, test, _) => {
            test_lacks(test, other) && query_lacks(from.get(), other)
        }
    }
}

#[cycle(lacking)]
fn queries_lack(queries: &[Query], other: Name) -> bool
    ensures { (at : Place) → IsTrue result → QueryLacks other (queries_of at queries.now) }
{
    for query in queries {
        if !query_lacks(query, other) {
            return false;
        }
    }
    true
}

fn test_lacks(test: &Test, other: Name) -> bool
    ensures { IsTrue result → EachLabelOfTest (λ label. ¬ (label ≡ other)) test.now }
{
    match test {
        Test::Label(label) => *label != other,
        Test::AnyElement | Test::OfText | Test::OfBool | Test::OfInt => true,
    }
}

fn is_known(ty: &Ty, count: u32) -> bool
    ensures { IsTrue result ↔ NamesBelow count (ty_of ty.now) }
{
    match ty {
        Ty::Empty | Ty::Atom(_) => true,
        Ty::Elem(_, inner) | Ty::AnyElem(inner) | Ty::Star(inner) => is_known(inner.get(), count),
        Ty::Seq(left, right) | Ty::Alt(left, right) => {
            is_known(left.get(), count) && is_known(right.get(), count)
        }
        Ty::Named(index) => *index < count,
    }
}

fn is_usable(ty: &Ty, defs: &Defs, other: Name) -> bool
    ensures usable { IsTrue result → IsUsable defs.now (ty_of ty.now) }
    ensures lacks { IsTrue result → Lacks other (ty_of ty.now) }
    ensures kept { AreKept defs.now }
{
    let count = defs.len();
    let is_kept = size(ty) <= 65_536 && height(ty) <= 500 && is_known(ty, count);
    is_kept && lacks(ty, other)
}

fn bind(
    rt: &impl Abort,
    gamma: &mut Gamma,
    ty: Ty,
    defs: &Defs,
    other: Name,
) -> Result<(), AllocError>
    requires usable { AreUsable defs.now gamma.old }
    requires lacks { ContextLacks other gamma.old }
    ensures usable { OnOk result (AreUsable defs.now gamma.new) }
    ensures lacks { OnOk result (ContextLacks other gamma.new) }
{
    let usable = is_usable(&ty, defs, other);
    assert!(rt; usable);
    gamma.bind(Param {
        var: Var::Made(0),
        ty,
    })?;
    Ok(())
}

fn none_bound(alloc: Global, defs: &Defs, other: Name) -> Gamma
    ensures usable { AreUsable defs.now result }
    ensures lacks { ContextLacks other result }
{
    Gamma::new(alloc)
}

fn typed(
    rt: &impl Abort,
    alloc: Global,
    gamma: &mut Gamma,
    query: &Query,
    defs: &Defs,
    other: Name,
) -> Result<Ty, KindFault>
    requires usable { AreUsable defs.now gamma.old }
    requires lacks { ContextLacks other gamma.old }
    ensures { gamma.new ≡ gamma.old }
{
    let lacks = query_lacks(query, other);
    assert!(rt; lacks);
    let bodies_lack = bodies_lack(defs, other);
    assert!(rt; bodies_lack);
    let mut decider = Texts { defs, other };
    type_query(alloc, gamma, query, &mut decider)
}

fn same(left: &Ty, right: &Ty) -> bool {
    match (left, right) {
        (Ty::Empty, Ty::Empty) => true,
        (Ty::Atom(kind), Ty::Atom(other)) => kind == other,
        (Ty::Elem(label, inner), Ty::Elem(other, content)) => {
            label == other && same(inner.get(), content.get())
        }
        (Ty::AnyElem(inner), Ty::AnyElem(content)) => same(inner.get(), content.get()),
        (Ty::Seq(t, u), Ty::Seq(v, w)) => same(t.get(), v.get()) && same(u.get(), w.get()),
        (Ty::Alt(t, u), Ty::Alt(v, w)) => same(t.get(), v.get()) && same(u.get(), w.get()),
        (Ty::Star(inner), Ty::Star(content)) => same(inner.get(), content.get()),
        (Ty::Named(index), Ty::Named(other)) => index == other,
        _ => false,
    }
}

// Asserts that a query was typed so.
fn assert_type(rt: &impl Abort, outcome: &Result<Ty, KindFault>, wanted: &Ty) {
    match outcome {
        Ok(ty) => assert!(rt; same(ty, wanted)),
        Err(_) => assert!(rt; false),
    }
}

fn element(alloc: Global, label: Name, inner: Ty) -> Result<Ty, AllocError> {
    Ok(Ty::Elem(label, Boxed::new(alloc, inner)?))
}

fn seq(alloc: Global, left: Ty, right: Ty) -> Result<Ty, AllocError> {
    Ok(Ty::Seq(Boxed::new(alloc, left)?, Boxed::new(alloc, right)?))
}

fn either(alloc: Global, left: Ty, right: Ty) -> Result<Ty, AllocError> {
    Ok(Ty::Alt(Boxed::new(alloc, left)?, Boxed::new(alloc, right)?))
}

fn star(alloc: Global, inner: Ty) -> Result<Ty, AllocError> {
    Ok(Ty::Star(Boxed::new(alloc, inner)?))
}

fn at(place: u32) -> Span {
    Span {
        from: place,
        to: place,
    }
}

fn seen(var: Var, place: u32) -> Query {
    Query::Var(var, at(place))
}

fn text(alloc: Global, place: u32) -> Result<Query, AllocError> {
    Ok(Query::Lit(Atom::Text(Word::of(alloc, "t")?), at(place)))
}

fn both(alloc: Global, first: Query, second: Query, place: u32) -> Result<Query, AllocError> {
    let mut queries = Items::new(alloc);
    queries.push(first)?;
    queries.push(second)?;
    Ok(Query::Concat(queries, at(place)))
}

fn binding(alloc: Global, var: Var, bound: Query, body: Query) -> Result<Query, AllocError> {
    Ok(Query::Let(
        var,
        Boxed::new(alloc, bound)?,
        Boxed::new(alloc, body)?,
        at(0),
    ))
}

fn each(alloc: Global, var: Var, over: Query, body: Query) -> Result<Query, AllocError> {
    Ok(Query::For(
        var,
        Boxed::new(alloc, over)?,
        Boxed::new(alloc, body)?,
        at(0),
    ))
}

fn no_definitions(alloc: Global) -> Result<Defs, Fail> {
    Ok(Draft::new(alloc).close()?)
}

// author[string],author[string]*
fn authors(alloc: Global, author: Name) -> Result<Ty, AllocError> {
    let one = element(alloc, author, Ty::Atom(AtomKind::Text))?;
    let each = element(alloc, author, Ty::Atom(AtomKind::Text))?;
    let more = star(alloc, each)?;
    seq(alloc, one, more)
}

// book[title[string],author[string],author[string]*]
fn book(alloc: Global, names: &[Name; 3]) -> Result<Ty, AllocError> {
    let title = element(alloc, names[1], Ty::Atom(AtomKind::Text))?;
    let authors = authors(alloc, names[2])?;
    let content = seq(alloc, title, authors)?;
    element(alloc, names[0], content)
}

// for 1 in 0 return Filter(Child(1), author)
fn authors_inside(alloc: Global, author: Name) -> Result<Query, AllocError> {
    let child = Boxed::new(alloc, Query::Child(Var::Made(1), at(2)))?;
    let body = Query::Filter(child, Test::Label(author), at(1));
    each(alloc, Var::Made(1), seen(Var::Made(0), 0), body)
}

// The type of a query, tidied, where the variable `Made(0)` is of a type and no name is defined.
fn tidied(
    rt: &impl Abort,
    alloc: Global,
    bound: Ty,
    query: &Query,
    other: Name,
) -> Result<Ty, Fail> {
    let defs = no_definitions(alloc)?;
    let mut gamma = none_bound(alloc, &defs, other);
    bind(rt, &mut gamma, bound, &defs, other)?;
    let outcome = typed(rt, alloc, &mut gamma, query, &defs, other);
    assert!(rt; outcome.is_ok());
    Ok(tidy(alloc, &outcome.unwrap_or(Ty::Empty))?)
}

#[test]
fn the_authors_of_a_book(rt: HostRuntime) -> Result<(), Fail> {
    let alloc = rt.alloc();
    let mut names = Names::new(alloc);
    let label = name(&rt, &mut names, "book")?;
    let title = name(&rt, &mut names, "title")?;
    let author = name(&rt, &mut names, "author")?;
    let other = name(&rt, &mut names, "other")?;
    let bound = book(alloc, &[label, title, author])?;
    let query = authors_inside(alloc, author)?;
    let found = tidied(&rt, alloc, bound, &query, other)?;
    let wanted = authors(alloc, author)?;
    assert!(rt; same(&found, &wanted));
    Ok(())
}

// Whether a condition at the place isn't a truth value, and a text is shown.
fn shows_a_text(outcome: &Result<Ty, KindFault>, at: u32) -> bool {
    match outcome {
        Err(KindFault::NotBool { place, shown }) => *place == at && is_text(shown),
        _ => false,
    }
}

fn is_text(shown: &Forest) -> bool {
    shown.is_whole() && matches!(shown.view().head(), Head::Atom(Atom::Text(_)))
}

// if "t" then "t" else "t"
fn text_chooses(alloc: Global) -> Result<Query, AllocError> {
    let condition = Boxed::new(alloc, text(alloc, 3)?)?;
    let yes = Boxed::new(alloc, text(alloc, 4)?)?;
    let no = Boxed::new(alloc, text(alloc, 5)?)?;
    Ok(Query::If(condition, yes, no, at(1)))
}

#[test]
fn a_text_as_a_condition(rt: HostRuntime) -> Result<(), Fail> {
    let alloc = rt.alloc();
    let defs = no_definitions(alloc)?;
    let other = lone_label(&rt, alloc)?;
    let mut gamma = none_bound(alloc, &defs, other);
    let query = text_chooses(alloc)?;
    let outcome = typed(&rt, alloc, &mut gamma, &query, &defs, other);
    assert!(rt; shows_a_text(&outcome, 3));
    Ok(())
}

// a[]*
fn many(alloc: Global, a: Name) -> Result<Ty, AllocError> {
    let one = element(alloc, a, Ty::Empty)?;
    star(alloc, one)
}

#[test]
fn what_is_not_one_tree(rt: HostRuntime) -> Result<(), Fail> {
    let alloc = rt.alloc();
    let defs = no_definitions(alloc)?;
    let mut names = Names::new(alloc);
    let a = name(&rt, &mut names, "a")?;
    let other = name(&rt, &mut names, "other")?;
    let mut gamma = none_bound(alloc, &defs, other);
    bind(&rt, &mut gamma, many(alloc, a)?, &defs, other)?;
    let query = Query::Child(Var::Made(0), at(7));
    let outcome = typed(&rt, alloc, &mut gamma, &query, &defs, other);
    assert!(rt; matches!(outcome, Err(KindFault::NotSingle { place: 7 })));
    Ok(())
}

#[test]
fn what_is_not_bound(rt: HostRuntime) -> Result<(), Fail> {
    let alloc = rt.alloc();
    let defs = no_definitions(alloc)?;
    let other = lone_label(&rt, alloc)?;
    let mut gamma = none_bound(alloc, &defs, other);
    bind(&rt, &mut gamma, Ty::Empty, &defs, other)?;
    let query = both(alloc, seen(Var::Made(0), 1), seen(Var::Made(1), 9), 0)?;
    let outcome = typed(&rt, alloc, &mut gamma, &query, &defs, other);
    assert!(rt; matches!(outcome, Err(KindFault::UnknownVar { place: 9 })));
    Ok(())
}

// let 0 = true in (let 0 = "t" in 0), 0
fn hidden(alloc: Global) -> Result<Query, AllocError> {
    let inner = binding(alloc, Var::Made(0), text(alloc, 1)?, seen(Var::Made(0), 2))?;
    let body = both(alloc, inner, seen(Var::Made(0), 3), 4)?;
    binding(
        alloc,
        Var::Made(0),
        Query::Lit(Atom::Bool(true), at(5)),
        body,
    )
}

#[test]
fn a_variable_that_is_hidden_and_seen_again(rt: HostRuntime) -> Result<(), Fail> {
    let alloc = rt.alloc();
    let defs = no_definitions(alloc)?;
    let other = lone_label(&rt, alloc)?;
    let mut gamma = none_bound(alloc, &defs, other);
    let query = hidden(alloc)?;
    let outcome = typed(&rt, alloc, &mut gamma, &query, &defs, other);
    let wanted = seq(alloc, Ty::Atom(AtomKind::Text), Ty::Atom(AtomKind::Bool))?;
    assert_type(&rt, &outcome, &wanted);
    Ok(())
}

// The query in `depth` elements, the innermost at the place 0.
fn nested(alloc: Global, label: Name, mut query: Query, depth: u32) -> Result<Query, AllocError> {
    for place in 0..depth {
        query = Query::Elem(label, Boxed::new(alloc, query)?, at(place));
    }
    Ok(query)
}

// The query, with the variable 15 bound to a sequence of 2^15 truth values: a type of 65,535 nodes.
fn with_many(alloc: Global, mut query: Query) -> Result<Query, AllocError> {
    for step in 0..15 {
        let below = seen(Var::Made(14 - step), 97);
        let bound = both(alloc, below, seen(Var::Made(14 - step), 98), 96)?;
        query = binding(alloc, Var::Made(15 - step), bound, query)?;
    }
    binding(
        alloc,
        Var::Made(0),
        Query::Lit(Atom::Bool(true), at(95)),
        query,
    )
}

fn large(alloc: Global, label: Name, depth: u32) -> Result<Query, AllocError> {
    let query = nested(alloc, label, seen(Var::Made(15), 99), depth)?;
    with_many(alloc, query)
}

#[test]
fn a_type_at_the_limit(rt: HostRuntime) -> Result<(), Fail> {
    let alloc = rt.alloc();
    let defs = no_definitions(alloc)?;
    let mut names = Names::new(alloc);
    let a = name(&rt, &mut names, "a")?;
    let other = name(&rt, &mut names, "other")?;
    let mut gamma = none_bound(alloc, &defs, other);
    let query = large(alloc, a, 1)?;
    match typed(&rt, alloc, &mut gamma, &query, &defs, other) {
        Ok(ty) => assert_eq!(rt; size(&ty), 65_536),
        Err(_) => assert!(rt; false),
    }
    Ok(())
}

#[test]
fn a_type_over_the_limit(rt: HostRuntime) -> Result<(), Fail> {
    let alloc = rt.alloc();
    let defs = no_definitions(alloc)?;
    let mut names = Names::new(alloc);
    let a = name(&rt, &mut names, "a")?;
    let other = name(&rt, &mut names, "other")?;
    let mut gamma = none_bound(alloc, &defs, other);
    let query = large(alloc, a, 2)?;
    let outcome = typed(&rt, alloc, &mut gamma, &query, &defs, other);
    assert!(rt; matches!(outcome, Err(KindFault::TypeTooLarge { place: 1 })));
    Ok(())
}

// X = a[X]*
#[tactic(auto, using(flux_types::proofs::KeptLaws::counts))]
fn recursive(rt: &impl Abort, alloc: Global, label: Name) -> Result<Defs, Fail> {
    let mut draft = Draft::new(alloc);
    let index = draft.declare(label)?;
    let each = element(alloc, label, Ty::Named(0))?;
    let body = star(alloc, each)?;
    assert!(rt; is_known(&body, 1));
    assert!(rt; size(&body) <= 65_536 && height(&body) <= 500);
    draft.define(index, body)?;
    Ok(draft.close()?)
}

// for 1 in 0 return Child(1)
fn each_inside(alloc: Global) -> Result<Query, AllocError> {
    let body = Query::Child(Var::Made(1), at(1));
    each(alloc, Var::Made(1), seen(Var::Made(0), 0), body)
}

#[test]
fn a_step_at_a_recursive_name(rt: HostRuntime) -> Result<(), Fail> {
    let alloc = rt.alloc();
    let mut names = Names::new(alloc);
    let a = name(&rt, &mut names, "a")?;
    let other = name(&rt, &mut names, "other")?;
    let defs = recursive(&rt, alloc, a)?;
    let mut gamma = none_bound(alloc, &defs, other);
    bind(&rt, &mut gamma, Ty::Named(0), &defs, other)?;
    let query = each_inside(alloc)?;
    let outcome = typed(&rt, alloc, &mut gamma, &query, &defs, other);
    let wanted = star(alloc, Ty::Named(0))?;
    assert_type(&rt, &outcome, &wanted);
    Ok(())
}

// ---- a table

// Types in prefix notation.
#[derive(Clone, Copy)]
enum Sign {
    Nothing,
    Kind(AtomKind),
    Name(u32),
    Tree(Name),
    Any,
    Star,
    Seq,
    Alt,
}

const TEXT: Sign = Sign::Kind(AtomKind::Text);

const TRUTH: Sign = Sign::Kind(AtomKind::Bool);

const NUMBER: Sign = Sign::Kind(AtomKind::Int);

fn one(alloc: Global, sign: Sign, parts: &mut Vec<Ty>) -> Result<Ty, AllocError> {
    let part = parts.pop().unwrap_or(Ty::Empty);
    match sign {
        Sign::Tree(name) => element(alloc, name, part),
        Sign::Any => Ok(Ty::AnyElem(Boxed::new(alloc, part)?)),
        Sign::Star => star(alloc, part),
        _ => Ok(part),
    }
}

fn two(alloc: Global, sign: Sign, parts: &mut Vec<Ty>) -> Result<Ty, AllocError> {
    let left = parts.pop().unwrap_or(Ty::Empty);
    let right = parts.pop().unwrap_or(Ty::Empty);
    match sign {
        Sign::Seq => seq(alloc, left, right),
        _ => either(alloc, left, right),
    }
}

fn ty(alloc: Global, signs: &[Sign]) -> Result<Ty, AllocError> {
    let mut parts = Vec::new(alloc);
    for sign in signs.iter().rev() {
        let made = match *sign {
            Sign::Nothing => Ty::Empty,
            Sign::Kind(kind) => Ty::Atom(kind),
            Sign::Name(index) => Ty::Named(index),
            Sign::Tree(_) | Sign::Any | Sign::Star => one(alloc, *sign, &mut parts)?,
            Sign::Seq | Sign::Alt => two(alloc, *sign, &mut parts)?,
        };
        parts.push(made)?;
    }
    Ok(parts.pop().unwrap_or(Ty::Empty))
}

// Queries in prefix notation, over the variables `Made(0)`, which is bound, and `Made(1)`. A text
// stands at 7, all else at 0.
#[derive(Clone, Copy)]
enum Ask {
    None,
    True,
    Text,
    Number,
    Seen(u32),
    Child(u32),
    If,
    Same,
    Less,
    For,
    Filter(Test),
}

fn taken(alloc: Global, parts: &mut Vec<Query>) -> Result<Boxed<Query>, AllocError> {
    let part = parts.pop();
    Boxed::new(alloc, part.unwrap_or(Query::Lit(Atom::Bool(true), at(0))))
}

fn pair(alloc: Global, ask: Ask, parts: &mut Vec<Query>) -> Result<Query, AllocError> {
    let first = taken(alloc, parts)?;
    let second = taken(alloc, parts)?;
    match ask {
        Ask::Same => Ok(Query::Same(first, second, at(0))),
        Ask::Less => Ok(Query::Less(first, second, at(0))),
        _ => Ok(Query::For(Var::Made(1), first, second, at(0))),
    }
}

fn chosen(alloc: Global, parts: &mut Vec<Query>) -> Result<Query, AllocError> {
    let condition = taken(alloc, parts)?;
    let yes = taken(alloc, parts)?;
    let no = taken(alloc, parts)?;
    Ok(Query::If(condition, yes, no, at(0)))
}

fn asked(alloc: Global, ask: Ask, parts: &mut Vec<Query>) -> Result<Query, AllocError> {
    match ask {
        Ask::None => Ok(Query::Concat(Items::new(alloc), at(0))),
        Ask::True => Ok(Query::Lit(Atom::Bool(true), at(0))),
        Ask::Text => text(alloc, 7),
        Ask::Number => Ok(Query::Lit(Atom::Int(1), at(0))),
        Ask::Seen(index) => Ok(seen(Var::Made(index), 0)),
        Ask::Child(index) => Ok(Query::Child(Var::Made(index), at(0))),
        Ask::If => chosen(alloc, parts),
        Ask::Same | Ask::Less | Ask::For => pair(alloc, ask, parts),
        Ask::Filter(test) => Ok(Query::Filter(taken(alloc, parts)?, test, at(0))),
    }
}

fn query(alloc: Global, asks: &[Ask]) -> Result<Query, AllocError> {
    let mut parts = Vec::new(alloc);
    for ask in asks.iter().rev() {
        let made = asked(alloc, *ask, &mut parts)?;
        parts.push(made)?;
    }
    let made = parts.pop();
    Ok(made.unwrap_or(Query::Lit(Atom::Bool(true), at(0))))
}

// What a query is typed with where the variable `Made(0)` is of a type.
fn outcome(
    rt: &impl Abort,
    alloc: Global,
    defs: &Defs,
    other: Name,
    bound: &[Sign],
    asks: &[Ask],
) -> Result<Result<Ty, KindFault>, Fail> {
    let bound = ty(alloc, bound)?;
    let query = query(alloc, asks)?;
    let mut gamma = none_bound(alloc, defs, other);
    bind(rt, &mut gamma, bound, defs, other)?;
    Ok(typed(rt, alloc, &mut gamma, &query, defs, other))
}

fn assert_typed(
    rt: &impl Abort,
    alloc: Global,
    defs: &Defs,
    other: Name,
    bound: &[Sign],
    asks: &[Ask],
    wanted: &[Sign],
) -> Result<(), Fail> {
    let outcome = outcome(rt, alloc, defs, other, bound, asks)?;
    let wanted = ty(alloc, wanted)?;
    assert_type(rt, &outcome, &wanted);
    Ok(())
}

// X = bool
#[tactic(auto, using(flux_types::proofs::KeptLaws::counts))]
fn one_truth(rt: &impl Abort, alloc: Global, label: Name) -> Result<Defs, Fail> {
    let mut draft = Draft::new(alloc);
    let index = draft.declare(label)?;
    let body = Ty::Atom(AtomKind::Bool);
    assert!(rt; is_known(&body, 1));
    assert!(rt; size(&body) <= 65_536 && height(&body) <= 500);
    draft.define(index, body)?;
    Ok(draft.close()?)
}

#[test]
fn conditions(rt: HostRuntime) -> Result<(), Fail> {
    let alloc = rt.alloc();
    let defs = no_definitions(alloc)?;
    let other = lone_label(&rt, alloc)?;
    let none = [Sign::Nothing];
    let chosen = [Ask::If, Ask::True, Ask::Text, Ask::True];
    assert_typed(
        &rt,
        alloc,
        &defs,
        other,
        &none,
        &chosen,
        &[Sign::Alt, TEXT, TRUTH],
    )?;
    let same = [Ask::Same, Ask::Text, Ask::None];
    assert_typed(&rt, alloc, &defs, other, &none, &same, &[TRUTH])?;
    assert_typed(&rt, alloc, &defs, other, &none, &[Ask::None], &none)?;
    let refused = outcome(
        &rt,
        alloc,
        &defs,
        other,
        &none,
        &[Ask::If, Ask::Text, Ask::None, Ask::None],
    )?;
    assert!(rt; shows_a_text(&refused, 7));
    Ok(())
}

#[test]
fn loops(rt: HostRuntime) -> Result<(), Fail> {
    let alloc = rt.alloc();
    let mut names = Names::new(alloc);
    let x = name(&rt, &mut names, "X")?;
    let other = name(&rt, &mut names, "other")?;
    let defs = one_truth(&rt, alloc, x)?;
    let each = [Ask::For, Ask::Seen(0), Ask::Seen(1)];
    let row = [Sign::Seq, TRUTH, TEXT];
    assert_typed(&rt, alloc, &defs, other, &row, &each, &row)?;
    let either = [Sign::Alt, TEXT, TRUTH];
    assert_typed(&rt, alloc, &defs, other, &either, &each, &either)?;
    assert_typed(&rt, alloc, &defs, other, &[Sign::Name(0)], &each, &[TRUTH])?;
    assert_typed(
        &rt,
        alloc,
        &defs,
        other,
        &[Sign::Nothing],
        &each,
        &[Sign::Nothing],
    )?;
    let empty = [Ask::Child(0)];
    assert_typed(
        &rt,
        alloc,
        &defs,
        other,
        &[Sign::Name(0)],
        &empty,
        &[Sign::Nothing],
    )
}

#[test]
fn filters(rt: HostRuntime) -> Result<(), Fail> {
    let alloc = rt.alloc();
    let mut names = Names::new(alloc);
    let a = name(&rt, &mut names, "a")?;
    let other = name(&rt, &mut names, "other")?;
    let defs = one_truth(&rt, alloc, a)?;
    // a[],(string|X)*
    let mixed = [
        Sign::Seq,
        Sign::Tree(a),
        Sign::Nothing,
        Sign::Star,
        Sign::Alt,
        TEXT,
        Sign::Name(0),
    ];
    let any = [Ask::Filter(Test::AnyElement), Ask::Seen(0)];
    let nothing = [
        Sign::Seq,
        Sign::Tree(a),
        Sign::Nothing,
        Sign::Star,
        Sign::Alt,
        Sign::Nothing,
        Sign::Nothing,
    ];
    assert_typed(&rt, alloc, &defs, other, &mixed, &any, &nothing)?;
    let texts = [Ask::Filter(Test::OfText), Ask::Seen(0)];
    let wanted = [
        Sign::Seq,
        Sign::Nothing,
        Sign::Star,
        Sign::Alt,
        TEXT,
        Sign::Nothing,
    ];
    assert_typed(&rt, alloc, &defs, other, &mixed, &texts, &wanted)?;
    let truths = [Ask::Filter(Test::OfBool), Ask::Seen(0)];
    let wanted = [
        Sign::Seq,
        Sign::Nothing,
        Sign::Star,
        Sign::Alt,
        Sign::Nothing,
        TRUTH,
    ];
    assert_typed(&rt, alloc, &defs, other, &mixed, &truths, &wanted)
}

// Whether a side of a comparison at the place isn't a number, and a text is shown.
fn shows_no_number(outcome: &Result<Ty, KindFault>, at: u32) -> bool {
    match outcome {
        Err(KindFault::NotInt { place, shown }) => *place == at && is_text(shown),
        _ => false,
    }
}

// Asserts that the side of a comparison at 7 isn't a number.
fn assert_no_number(
    rt: &impl Abort,
    alloc: Global,
    defs: &Defs,
    other: Name,
    asks: &[Ask],
) -> Result<(), Fail> {
    let refused = outcome(rt, alloc, defs, other, &[Sign::Nothing], asks)?;
    assert!(rt; shows_no_number(&refused, 7));
    Ok(())
}

#[test]
fn comparisons(rt: HostRuntime) -> Result<(), Fail> {
    let alloc = rt.alloc();
    let defs = no_definitions(alloc)?;
    let other = lone_label(&rt, alloc)?;
    let none = [Sign::Nothing];
    let numbers = [Ask::Less, Ask::Number, Ask::Number];
    assert_typed(&rt, alloc, &defs, other, &none, &numbers, &[TRUTH])?;
    let bound = [Ask::Less, Ask::Seen(0), Ask::Number];
    assert_typed(&rt, alloc, &defs, other, &[NUMBER], &bound, &[TRUTH])?;
    let left = [Ask::Less, Ask::Text, Ask::Number];
    assert_no_number(&rt, alloc, &defs, other, &left)?;
    let right = [Ask::Less, Ask::Number, Ask::Text];
    assert_no_number(&rt, alloc, &defs, other, &right)
}

#[test]
fn the_left_side_of_a_comparison_first(rt: HostRuntime) -> Result<(), Fail> {
    let alloc = rt.alloc();
    let defs = no_definitions(alloc)?;
    let other = lone_label(&rt, alloc)?;
    let unbound = [Ask::Less, Ask::Seen(1), Ask::Text];
    let refused = outcome(&rt, alloc, &defs, other, &[Sign::Nothing], &unbound)?;
    assert!(rt; matches!(refused, Err(KindFault::UnknownVar { place: 0 })));
    Ok(())
}

#[test]
fn elements_of_any_label(rt: HostRuntime) -> Result<(), Fail> {
    let alloc = rt.alloc();
    let mut names = Names::new(alloc);
    let a = name(&rt, &mut names, "a")?;
    let other = name(&rt, &mut names, "other")?;
    let defs = no_definitions(alloc)?;
    let row = [Sign::Star, Sign::Any, TEXT];
    let labelled = [Ask::Filter(Test::Label(a)), Ask::Seen(0)];
    let wanted = [Sign::Star, Sign::Alt, Sign::Tree(a), TEXT, Sign::Nothing];
    assert_typed(&rt, alloc, &defs, other, &row, &labelled, &wanted)?;
    let elements = [Ask::Filter(Test::AnyElement), Ask::Seen(0)];
    assert_typed(&rt, alloc, &defs, other, &row, &elements, &row)?;
    let texts = [Ask::Filter(Test::OfText), Ask::Seen(0)];
    let wanted = [Sign::Star, Sign::Nothing];
    assert_typed(&rt, alloc, &defs, other, &row, &texts, &wanted)?;
    let child = [Ask::Child(0)];
    assert_typed(
        &rt,
        alloc,
        &defs,
        other,
        &[Sign::Any, NUMBER],
        &child,
        &[NUMBER],
    )?;
    let row = [Sign::Star, Sign::Any, NUMBER];
    let each = [Ask::For, Ask::Seen(0), Ask::Seen(1)];
    assert_typed(&rt, alloc, &defs, other, &row, &each, &row)
}

#[test]
fn numbers(rt: HostRuntime) -> Result<(), Fail> {
    let alloc = rt.alloc();
    let defs = no_definitions(alloc)?;
    let other = lone_label(&rt, alloc)?;
    let none = [Sign::Nothing];
    assert_typed(&rt, alloc, &defs, other, &[NUMBER], &[Ask::Child(0)], &none)?;
    let numbers = [Ask::Filter(Test::OfInt), Ask::Seen(0)];
    assert_typed(&rt, alloc, &defs, other, &[NUMBER], &numbers, &[NUMBER])?;
    let texts = [Ask::Filter(Test::OfText), Ask::Seen(0)];
    assert_typed(&rt, alloc, &defs, other, &[NUMBER], &texts, &none)?;
    let mixed = [Sign::Star, Sign::Alt, NUMBER, TEXT];
    let wanted = [Sign::Star, Sign::Alt, NUMBER, Sign::Nothing];
    assert_typed(&rt, alloc, &defs, other, &mixed, &numbers, &wanted)
}

// ---- deep and long

// `count` literals, one behind the other.
fn literals(alloc: Global, count: u32) -> Result<Query, AllocError> {
    let mut queries = Items::new(alloc);
    for _ in 0..count {
        queries.push(Query::Lit(Atom::Bool(true), at(1)))?;
    }
    Ok(Query::Concat(queries, at(5)))
}

#[test]
fn many_queries(rt: HostRuntime) -> Result<(), Fail> {
    let alloc = rt.alloc();
    let defs = no_definitions(alloc)?;
    let other = lone_label(&rt, alloc)?;
    let mut gamma = none_bound(alloc, &defs, other);
    let query = literals(alloc, 400)?;
    let outcome = typed(&rt, alloc, &mut gamma, &query, &defs, other);
    assert_eq!(rt; size(&outcome.unwrap_or(Ty::Empty)), 799);
    Ok(())
}

#[test]
fn too_many_queries(rt: HostRuntime) -> Result<(), Fail> {
    let alloc = rt.alloc();
    let defs = no_definitions(alloc)?;
    let other = lone_label(&rt, alloc)?;
    let mut gamma = none_bound(alloc, &defs, other);
    let query = literals(alloc, 20_000)?;
    let outcome = typed(&rt, alloc, &mut gamma, &query, &defs, other);
    assert!(rt; matches!(outcome, Err(KindFault::TypeTooLarge { place: 5 })));
    Ok(())
}

fn stars(alloc: Global, count: u32) -> Result<Ty, AllocError> {
    let mut ty = Ty::Atom(AtomKind::Text);
    for _ in 0..count {
        ty = star(alloc, ty)?;
    }
    Ok(ty)
}

// any[string*..*], with `count` stars: it has `count` + 2 levels.
fn any_high(alloc: Global, count: u32) -> Result<Ty, AllocError> {
    let content = stars(alloc, count)?;
    Ok(Ty::AnyElem(Boxed::new(alloc, content)?))
}

// Filter(0, a), at the place 3
fn labelled(alloc: Global, a: Name) -> Result<Query, AllocError> {
    let from = Boxed::new(alloc, seen(Var::Made(0), 5))?;
    Ok(Query::Filter(from, Test::Label(a), at(3)))
}

#[test]
fn a_label_of_a_high_element_of_any_label(rt: HostRuntime) -> Result<(), Fail> {
    let alloc = rt.alloc();
    let mut names = Names::new(alloc);
    let a = name(&rt, &mut names, "a")?;
    let other = name(&rt, &mut names, "other")?;
    let defs = no_definitions(alloc)?;
    let query = labelled(alloc, a)?;
    let mut gamma = none_bound(alloc, &defs, other);
    bind(&rt, &mut gamma, any_high(alloc, 497)?, &defs, other)?;
    let outcome = typed(&rt, alloc, &mut gamma, &query, &defs, other);
    let found = element(alloc, a, stars(alloc, 497)?)?;
    let wanted = either(alloc, found, Ty::Empty)?;
    assert_eq!(rt; height(&wanted), 500);
    assert_type(&rt, &outcome, &wanted);
    let mut gamma = none_bound(alloc, &defs, other);
    let above = any_high(alloc, 498)?;
    assert_eq!(rt; height(&above), 500);
    bind(&rt, &mut gamma, above, &defs, other)?;
    let outcome = typed(&rt, alloc, &mut gamma, &query, &defs, other);
    assert!(rt; matches!(outcome, Err(KindFault::TypeTooLarge { place: 3 })));
    Ok(())
}

// `depth` loops over the variable `Made(0)`, each in the one before, the innermost at the place 0.
fn nested_loops(alloc: Global, depth: u32) -> Result<Query, AllocError> {
    let mut body = text(alloc, 99)?;
    for place in 0..depth {
        let over = Boxed::new(alloc, seen(Var::Made(0), 98))?;
        body = Query::For(Var::Made(1), over, Boxed::new(alloc, body)?, at(place));
    }
    Ok(body)
}

#[test]
fn loops_in_loops_over_a_high_type(rt: HostRuntime) -> Result<(), Fail> {
    let alloc = rt.alloc();
    let defs = no_definitions(alloc)?;
    let other = lone_label(&rt, alloc)?;
    let mut gamma = none_bound(alloc, &defs, other);
    bind(&rt, &mut gamma, stars(alloc, 490)?, &defs, other)?;
    let outcome = typed(
        &rt,
        alloc,
        &mut gamma,
        &nested_loops(alloc, 190)?,
        &defs,
        other,
    );
    assert!(rt; matches!(outcome, Err(KindFault::TypeTooLarge { place: 1 })));
    Ok(())
}

// A sequence of 2^10 texts.
fn thousand_texts(alloc: Global) -> Result<Ty, AllocError> {
    let mut ty = Ty::Atom(AtomKind::Text);
    for _ in 0..10 {
        let twice = copy_of(alloc, &ty)?;
        ty = seq(alloc, ty, twice)?;
    }
    Ok(ty)
}

// for 1 in 0 return let 1 = 0 in true
fn bound_in_a_loop(alloc: Global) -> Result<Query, AllocError> {
    let truth = Query::Lit(Atom::Bool(true), at(0));
    let body = binding(alloc, Var::Made(1), seen(Var::Made(0), 0), truth)?;
    each(alloc, Var::Made(1), seen(Var::Made(0), 0), body)
}

#[test]
fn a_binding_for_each_of_a_thousand_trees(rt: HostRuntime) -> Result<(), Fail> {
    let alloc = rt.alloc();
    let defs = no_definitions(alloc)?;
    let other = lone_label(&rt, alloc)?;
    let mut gamma = none_bound(alloc, &defs, other);
    bind(&rt, &mut gamma, thousand_texts(alloc)?, &defs, other)?;
    match typed(
        &rt,
        alloc,
        &mut gamma,
        &bound_in_a_loop(alloc)?,
        &defs,
        other,
    ) {
        Ok(ty) => assert_eq!(rt; size(&ty), 2_047),
        Err(_) => assert!(rt; false),
    }
    Ok(())
}

const CHAIN: u32 = 60_000;

#[tactic(auto, using(flux_types::proofs::KeptLaws::counts))]
fn declare_many(rt: &impl Abort, alloc: Global, draft: &mut Draft, count: u32) -> Result<(), Fail>
    requires new { draft.old ≡ [] }
    requires few { count ≤ 100000 }
    ensures { OnOk result (length draft.new ≡ count) }
{
    let mut names = Names::new(alloc);
    for i in 0..count {
        let text = format!(in alloc; "x{i}")?;
        assert!(rt; is_name(&text) && names.len() < 100_000);
        let label = names.intern(&text)?;
        draft.declare(label)?;
    }
    Ok(())
}

#[tactic(auto, using(flux_types::proofs::KeptLaws::counts))]
fn set(rt: &impl Abort, draft: &mut Draft, index: u32, body: Ty, count: u32) -> Result<(), Fail>
    requires declared { length draft.old ≡ count }
    requires within { index < count }
    ensures { OnOk result (length draft.new ≡ count) }
{
    assert!(rt; is_known(&body, count));
    assert!(rt; size(&body) <= 65_536 && height(&body) <= 500);
    draft.define(index, body)?;
    Ok(())
}

// Each name stands for the next one.
fn chain(rt: &impl Abort, draft: &mut Draft, last: u32) -> Result<(), Fail>
    requires few { last ≤ 100000 }
    requires declared { length draft.old ≡ last + 1 }
    ensures { OnOk result (length draft.new ≡ last + 1) }
{
    for i in 0..last {
        set(rt, draft, i, Ty::Named(i + 1), last + 1)?;
    }
    Ok(())
}

// CHAIN names, each of which stands for the next one, and the last for `string`.
fn chained(rt: &impl Abort, alloc: Global) -> Result<Defs, Fail> {
    let mut draft = Draft::new(alloc);
    declare_many(rt, alloc, &mut draft, CHAIN)?;
    chain(rt, &mut draft, CHAIN - 1)?;
    set(rt, &mut draft, CHAIN - 1, Ty::Atom(AtomKind::Text), CHAIN)?;
    Ok(draft.close()?)
}

#[test]
fn a_name_at_the_head_of_a_chain(rt: HostRuntime) -> Result<(), Fail> {
    let alloc = rt.alloc();
    let defs = chained(&rt, alloc)?;
    let other = lone_label(&rt, alloc)?;
    let head = [Sign::Name(0)];
    let each = [Ask::For, Ask::Seen(0), Ask::Seen(1)];
    assert_typed(&rt, alloc, &defs, other, &head, &each, &[TEXT])?;
    let texts = [Ask::Filter(Test::OfText), Ask::Seen(0)];
    assert_typed(&rt, alloc, &defs, other, &head, &texts, &[TEXT])
}

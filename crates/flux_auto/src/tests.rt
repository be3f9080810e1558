// What no clause says: that calls succeed, and answers worked out by hand.
ghost use Rattle.std.specs.Prelude.{◌≡◌, ◌<◌, ◌↔◌, IsTrue, length, IfOk};
ghost use Rattle.flux_schema.specs.Ty.{NamesBelow};
ghost use Rattle.flux_types.specs.Read.{ty_of};

use crate::{Auto, Edge};
use flux_atom::{Atom, AtomKind, Boxed, Name, Names, Word, is_name};
use flux_forest::Forest;
use flux_types::{Defs, Draft, Ty, height, size};
use std::alloc::{AllocError, Global};
use std::process::Abort;
use std::test::Fail;

// Whether a type names only indices below a count.
fn is_known(ty: &Ty, count: u32) -> bool
    ensures { IsTrue result ↔ NamesBelow count (ty_of ty.now) }
{
    match ty {
        Ty::Empty | Ty::Atom(_) => true,
        Ty::Elem(_, inner) | Ty::AnyElem(inner) | Ty::Star(inner) => is_known(inner.get(), count),
        Ty::Seq(left, right) | Ty::Alt(left, right) => {
            is_known(left.get(), count) && is_known(right.get(), count)
        }
        Ty::Named(index) => *index < count,
    }
}

// ---- what cases are spelled by

// The labels `a`, `x`, `b`, `c` and `other`, by which names the cases spell.
fn make_labels(rt: &impl Abort, alloc: Global, names: &mut Names) -> Result<Vec<Name>, Fail> {
    let mut labels = Vec::new(alloc);
    for text in ["a", "x", "b", "c", "other"] {
        assert!(rt; is_name(text) && names.len() < 100);
        labels.push(names.intern(text)?)?;
    }
    Ok(labels)
}

fn label_of(labels: &[Name], letter: u8) -> Option<Name> {
    let index: usize = match letter {
        b'a' => 0,
        b'x' => 1,
        b'b' => 2,
        b'c' => 3,
        b'o' => 4,
        _ => return None,
    };
    labels.get(index).copied()
}

fn next(alloc: Global, parts: &mut Vec<Ty>) -> Result<Boxed<Ty>, AllocError> {
    Boxed::new(alloc, parts.pop().unwrap_or(Ty::Empty))
}

// The type that a sign stands for, where its parts are spelled behind it: an element by the letter
// of its label, one of any label by `?`, the empty forest by `.`, and the names by capitals.
fn part(alloc: Global, labels: &[Name], sign: u8, parts: &mut Vec<Ty>) -> Result<Ty, AllocError> {
    match sign {
        b's' => Ok(Ty::Atom(AtomKind::Text)),
        b't' => Ok(Ty::Atom(AtomKind::Bool)),
        b'i' => Ok(Ty::Atom(AtomKind::Int)),
        b'A' => Ok(Ty::Named(0)),
        b'X' => Ok(Ty::Named(1)),
        b'B' => Ok(Ty::Named(2)),
        b'?' => Ok(Ty::AnyElem(next(alloc, parts)?)),
        b'*' => Ok(Ty::Star(next(alloc, parts)?)),
        b',' => Ok(Ty::Seq(next(alloc, parts)?, next(alloc, parts)?)),
        b'|' => Ok(Ty::Alt(next(alloc, parts)?, next(alloc, parts)?)),
        _ => match label_of(labels, sign) {
            Some(label) => Ok(Ty::Elem(label, next(alloc, parts)?)),
            None => Ok(Ty::Empty),
        },
    }
}

// A type in prefix notation.
fn read_type(alloc: Global, labels: &[Name], spelled: &str) -> Result<Ty, AllocError> {
    let mut parts = Vec::new(alloc);
    for sign in spelled.as_bytes().iter().rev() {
        let made = part(alloc, labels, *sign, &mut parts)?;
        parts.push(made)?;
    }
    Ok(parts.pop().unwrap_or(Ty::Empty))
}

// An element begins with the letter of its label and ends with `]`; `t` and `f` are truth values,
// `1` is a number and `s` the text 1.
fn add_piece(
    rt: &impl Abort,
    alloc: Global,
    labels: &[Name],
    forest: &mut Forest,
    piece: u8,
) -> Result<(), Fail> {
    match piece {
        b't' => forest.push_atom(Atom::Bool(true))?,
        b'f' => forest.push_atom(Atom::Bool(false))?,
        b'1' => forest.push_atom(Atom::Int(1))?,
        b'2' => forest.push_atom(Atom::Int(2))?,
        b's' => forest.push_atom(Atom::Text(Word::of(alloc, "1")?))?,
        _ => match label_of(labels, piece) {
            Some(label) => forest.begin_element(label)?,
            None => {
                assert!(rt; !forest.is_whole());
                forest.end_element();
            }
        },
    }
    Ok(())
}

fn read_forest(
    rt: &impl Abort,
    alloc: Global,
    labels: &[Name],
    pieces: &str,
) -> Result<Forest, Fail> {
    let mut forest = Forest::new(alloc);
    for piece in pieces.as_bytes() {
        add_piece(rt, alloc, labels, &mut forest, *piece)?;
    }
    Ok(forest)
}

// ---- definitions

#[tactic(auto, using(flux_types::proofs::KeptLaws::counts))]
fn set(
    rt: &impl Abort,
    draft: &mut Draft,
    count: u32,
    index: u32,
    body: Ty,
) -> Result<(), AllocError>
    requires { length draft.old ≡ count }
    ensures { length draft.new ≡ count }
{
    assert!(rt; index < count && is_known(&body, count));
    assert!(rt; size(&body) <= 65_536 && height(&body) <= 500);
    draft.define(index, body)
}

// So many names, which have no bodies.
#[tactic(auto, using(flux_types::proofs::KeptLaws::counts))]
fn declare_many(
    rt: &impl Abort,
    alloc: Global,
    names: &mut Names,
    count: u32,
) -> Result<Draft, Fail>
    ensures { IfOk result (λ draft. length draft ≡ count) }
{
    let mut draft = Draft::new(alloc);
    for index in 0..count {
        let text = format!(in alloc; "x{index}")?;
        assert!(rt; is_name(&text) && names.len() < 1_000_000);
        let name = names.intern(&text)?;
        draft.declare(name)?;
    }
    Ok(draft)
}

// Labels, and the definitions A = a[A*], X = x[X] and B = any[B].
#[derive(Drop)]
struct Scene {
    labels: Vec<Name>,
    other: Name,
    defs: Defs,
}

fn make_scene(rt: &impl Abort, alloc: Global) -> Result<Scene, Fail> {
    let mut names = Names::new(alloc);
    let labels = make_labels(rt, alloc, &mut names)?;
    let other = label_of(&labels, b'o').ok_or("a label")?;
    let mut draft = declare_many(rt, alloc, &mut names, 3)?;
    for (index, spelled) in [(0, "a*A"), (1, "xX"), (2, "?B")] {
        let body = read_type(alloc, &labels, spelled)?;
        set(rt, &mut draft, 3, index, body)?;
    }
    let defs = draft.close()?;
    Ok(Scene {
        labels,
        other,
        defs,
    })
}

// ---- members

// Whether a forest is a member of a type, by an automaton of its own.
fn is_member(
    rt: &impl Abort,
    alloc: Global,
    defs: &Defs,
    other: Name,
    ty: &Ty,
    forest: &Forest,
) -> Result<bool, Fail> {
    assert!(rt; is_known(ty, defs.len()));
    assert!(rt; forest.is_whole());
    let mut auto = Auto::new(alloc, defs, other)?;
    let start = auto.add(ty)?;
    Ok(auto.member(start, forest.view())?)
}

fn assert_member(
    rt: &impl Abort,
    alloc: Global,
    at: &Scene,
    spelled: &str,
    pieces: &str,
    want: bool,
) -> Result<(), Fail> {
    let ty = read_type(alloc, &at.labels, spelled)?;
    let forest = read_forest(rt, alloc, &at.labels, pieces)?;
    let found = is_member(rt, alloc, &at.defs, at.other, &ty, &forest)?;
    assert_eq!(rt; found, want, "{spelled} {pieces}");
    Ok(())
}

#[test]
fn members(rt: HostRuntime) -> Result<(), Fail> {
    let alloc = rt.alloc();
    let at = make_scene(&rt, alloc)?;
    for (ty, forest, want) in [
        // a[b[string]*,c[string]]: order counts
        ("a,*bscs", "abs]cs]]", true),
        ("a,*bscs", "acs]bs]]", false),
        // (string|a[]),bool
        (",|sa.t", "a]t", true),
        (",|sa.t", "sf", true),
        (",|sa.t", "tf", false),
        // x[]|a[x[X]], where X has no member
        ("|x.axX", "x]", true),
        // ((a[]*)*)* and ()*
        ("***a.", "", true),
        ("***a.", "a]a]a]", true),
        ("***a.", "a]x]", false),
        ("*.", "", true),
        ("*.", "a]", false),
        // any[], a[]|b[], int, string and int|string
        ("?.", "c]", true),
        ("?.", "a]", true),
        ("?.", "o]", true),
        ("?.", "s", false),
        ("?.", "1", false),
        ("|a.b.", "c]", false),
        ("|a.b.", "o]", false),
        ("i", "1", true),
        ("s", "1", false),
        ("|is", "1", true),
        // any[int] and a[int]|any[string]
        ("?i", "a1]", true),
        ("?i", "as]", false),
        ("?i", "a12]", false),
        ("|ai?s", "a1]", true),
        ("|ai?s", "as]", true),
        ("|ai?s", "b1]", false),
        ("|ai?s", "bs]", true),
        // A*, with equal trees and others
        ("*A", "aa]a]]aa]a]]a]", true),
        ("*A", "aa]a]]aa]b]]a]", false),
        // a[b[]],b[a[]]: equal contents behind each other
        (",ab.ba.", "ab]]ba]]", true),
        (",ab.ba.", "ba]]ab]]", false),
        (",ab.ba.", "ab]]ab]]", false),
    ] {
        assert_member(&rt, alloc, &at, ty, forest, want)?;
    }
    Ok(())
}

// Asserts that a member of the type is shown that the second type has too, or none where the second
// is not spelled.
fn assert_shown(
    rt: &impl Abort,
    alloc: Global,
    at: &Scene,
    spelled: &str,
    shown: &str,
) -> Result<(), Fail> {
    let ty = read_type(alloc, &at.labels, spelled)?;
    assert!(rt; is_known(&ty, at.defs.len()));
    let mut auto = Auto::new(alloc, &at.defs, at.other)?;
    let start = auto.add(&ty)?;
    let Some(forest) = auto.some(start)? else {
        assert!(rt; shown.is_empty(), "{spelled}");
        return Ok(());
    };
    assert!(rt; !shown.is_empty(), "{spelled}");
    let narrow = read_type(alloc, &at.labels, shown)?;
    assert!(rt;
        is_member(rt, alloc, &at.defs, at.other, &ty, &forest)?,
        "{spelled}"
    );
    assert!(rt;
        is_member(rt, alloc, &at.defs, at.other, &narrow, &forest)?,
        "{spelled}"
    );
    Ok(())
}

#[test]
fn shown_members(rt: HostRuntime) -> Result<(), Fail> {
    let alloc = rt.alloc();
    let at = make_scene(&rt, alloc)?;
    for (ty, shown) in [
        // a[]*, A, (string|a[]),bool and int
        ("*a.", "*a."),
        ("A", "A"),
        (",|sa.t", ",|sa.t"),
        ("i", "i"),
        // X, a[x[X]], x[]|a[x[X]] and B
        ("X", ""),
        ("axX", ""),
        ("|x.axX", "x."),
        ("B", ""),
        // of any[int] it is other[int]
        ("?i", "oi"),
    ] {
        assert_shown(&rt, alloc, &at, ty, shown)?;
    }
    Ok(())
}

fn add_nested(rt: &impl Abort, forest: &mut Forest, name: Name, levels: u32) -> Result<(), Fail> {
    for _ in 0..levels {
        forest.begin_element(name)?;
    }
    for _ in 0..levels {
        assert!(rt; !forest.is_whole());
        forest.end_element();
    }
    Ok(())
}

// So many trees, each of so many elements in one another.
fn grown(
    rt: &impl Abort,
    alloc: Global,
    name: Name,
    levels: u32,
    trees: u32,
) -> Result<Forest, Fail> {
    let mut forest = Forest::new(alloc);
    for _ in 0..trees {
        add_nested(rt, &mut forest, name, levels)?;
    }
    Ok(forest)
}

#[test]
fn great_forests(rt: HostRuntime) -> Result<(), Fail> {
    let alloc = rt.alloc();
    let at = make_scene(&rt, alloc)?;
    let a = label_of(&at.labels, b'a').ok_or("a label")?;
    let ty = read_type(alloc, &at.labels, "*A")?;
    for (levels, trees) in [(1_000_000, 1), (1, 100_000), (3, 100_000)] {
        let mut forest = grown(&rt, alloc, a, levels, trees)?;
        assert!(rt; is_member(&rt, alloc, &at.defs, at.other, &ty, &forest)?);
        forest.push_atom(Atom::Bool(true))?;
        assert!(rt; !is_member(&rt, alloc, &at.defs, at.other, &ty, &forest)?);
    }
    Ok(())
}

#[test]
fn starts_stay(rt: HostRuntime) -> Result<(), Fail> {
    let alloc = rt.alloc();
    let at = make_scene(&rt, alloc)?;
    // a[], and later x[string]
    let first = read_type(alloc, &at.labels, "a.")?;
    let second = read_type(alloc, &at.labels, "xs")?;
    assert!(rt; is_known(&first, at.defs.len()) && is_known(&second, at.defs.len()));
    let mut auto = Auto::new(alloc, &at.defs, at.other)?;
    let start = auto.add(&first)?;
    let state = auto.state(start);
    let other = auto.add(&second)?;
    assert_eq!(rt; auto.state(start), state);
    assert!(rt; !auto.ends(state) && matches!(auto.edges(state), [Edge::Elem(_, _, _)]));
    assert!(rt; auto.state(other) < auto.states());
    Ok(())
}

// ---- chains of names

// More names than calls that nest have room for: as many as a script has room for, and fewer where
// each has a content of its own, since a profile has a truth value for each state.
const CHAIN: u32 = 60_000;

const NESTED: u32 = 10_000;

// How a definition names the next one: plainly, twice in a choice, beside an element, or inside
// one.
#[derive(Clone, Copy)]
enum Link {
    Plain,
    Twice,
    Beside(Name),
    Inside(Name),
}

fn link_to(alloc: Global, link: &Link, index: u32) -> Result<Ty, AllocError> {
    let next = Ty::Named(index);
    match link {
        Link::Plain => Ok(next),
        Link::Twice => {
            let again = Boxed::new(alloc, Ty::Named(index))?;
            Ok(Ty::Alt(Boxed::new(alloc, next)?, again))
        }
        Link::Inside(label) => Ok(Ty::Elem(*label, Boxed::new(alloc, next)?)),
        Link::Beside(label) => {
            let beside = Ty::Elem(*label, Boxed::new(alloc, Ty::Empty)?);
            Ok(Ty::Alt(Boxed::new(alloc, next)?, Boxed::new(alloc, beside)?))
        }
    }
}

// So many definitions, each with a link to the next, and the last with a body of its own.
fn chain(rt: &impl Abort, alloc: Global, count: u32, link: &Link, last: Ty) -> Result<Defs, Fail>
    requires { 0 < count }
{
    let mut names = Names::new(alloc);
    let mut draft = declare_many(rt, alloc, &mut names, count)?;
    for index in 1..count {
        set(
            rt,
            &mut draft,
            count,
            index - 1,
            link_to(alloc, link, index)?,
        )?;
    }
    set(rt, &mut draft, count, count - 1, last)?;
    Ok(draft.close()?)
}

fn assert_chain(
    rt: &impl Abort,
    alloc: Global,
    at: &Scene,
    link: &Link,
    last: &str,
    cases: &[(&str, bool)],
) -> Result<(), Fail> {
    let last = read_type(alloc, &at.labels, last)?;
    let defs = chain(rt, alloc, CHAIN, link, last)?;
    for (pieces, want) in cases {
        let forest = read_forest(rt, alloc, &at.labels, pieces)?;
        let found = is_member(rt, alloc, &defs, at.other, &Ty::Named(0), &forest)?;
        assert_eq!(rt; found, *want, "{pieces}");
    }
    Ok(())
}

#[test]
fn chains_of_names(rt: HostRuntime) -> Result<(), Fail> {
    let alloc = rt.alloc();
    let at = make_scene(&rt, alloc)?;
    let b = label_of(&at.labels, b'b').ok_or("a label")?;
    let plain = [("a]", true), ("b]", false)];
    assert_chain(&rt, alloc, &at, &Link::Plain, "a.", &plain)?;
    assert_chain(&rt, alloc, &at, &Link::Twice, "a.", &plain)?;
    let beside = [("a]", true), ("b]", true), ("c]", false)];
    assert_chain(&rt, alloc, &at, &Link::Beside(b), "a.", &beside)?;
    let empty = [("", true), ("a]", false)];
    assert_chain(&rt, alloc, &at, &Link::Plain, ".", &empty)
}

// A member of the last definition is found first, and then one of each before it.
#[test]
fn deep_members(rt: HostRuntime) -> Result<(), Fail> {
    let alloc = rt.alloc();
    let at = make_scene(&rt, alloc)?;
    let a = label_of(&at.labels, b'a').ok_or("a label")?;
    let last = read_type(alloc, &at.labels, "b.")?;
    let defs = chain(&rt, alloc, NESTED, &Link::Inside(a), last)?;
    let first = Ty::Named(0);
    assert!(rt; is_known(&first, defs.len()));
    let mut auto = Auto::new(alloc, &defs, at.other)?;
    let start = auto.add(&first)?;
    let forest = auto.some(start)?.ok_or("a member")?;
    assert!(rt; forest.is_whole());
    assert!(rt; auto.member(start, forest.view())?);
    Ok(())
}

// ---- towers of elements

const TOWERS: u32 = 130;

const LEVELS: u32 = 480;

// The label of a level, by a bit of the tower's number: no two towers are alike from eight levels
// on.
fn level_label(one: Name, zero: Name, number: u32, level: u32) -> Name {
    if (number >> (level % 8)) % 2 == 1 {
        one
    } else {
        zero
    }
}

fn tower_type(alloc: Global, one: Name, zero: Name, number: u32) -> Result<Ty, AllocError> {
    let mut ty = Ty::Empty;
    for level in 0..LEVELS {
        let inner = Boxed::new(alloc, ty)?;
        ty = Ty::Elem(level_label(one, zero, number, level), inner);
    }
    Ok(ty)
}

fn tower(
    rt: &impl Abort,
    alloc: Global,
    one: Name,
    zero: Name,
    number: u32,
) -> Result<Forest, Fail> {
    let mut forest = Forest::new(alloc);
    for level in (0..LEVELS).rev() {
        forest.begin_element(level_label(one, zero, number, level))?;
    }
    for _ in 0..LEVELS {
        assert!(rt; !forest.is_whole());
        forest.end_element();
    }
    Ok(forest)
}

// As many elements as a type has room for, each with a content of its own.
#[test]
fn towers(rt: HostRuntime) -> Result<(), Fail> {
    let alloc = rt.alloc();
    let at = make_scene(&rt, alloc)?;
    let a = label_of(&at.labels, b'a').ok_or("a label")?;
    let b = label_of(&at.labels, b'b').ok_or("a label")?;
    let mut choice = Ty::Empty;
    for number in 0..TOWERS {
        let tower = Boxed::new(alloc, tower_type(alloc, a, b, number)?)?;
        choice = Ty::Alt(tower, Boxed::new(alloc, choice)?);
    }
    for (number, want) in [(77, true), (129, true), (130, false)] {
        let forest = tower(&rt, alloc, a, b, number)?;
        let found = is_member(&rt, alloc, &at.defs, at.other, &choice, &forest)?;
        assert_eq!(rt; found, want, "{number}");
    }
    Ok(())
}

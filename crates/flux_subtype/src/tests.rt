// What no clause says: that calls succeed, and answers worked out by hand.
ghost use Rattle.std.specs.Prelude.{◌≡◌, ◌<◌, ◌↔◌, IsTrue, length, IfOk};
ghost use Rattle.flux_schema.specs.Ty.{NamesBelow};
ghost use Rattle.flux_schema.specs.Labels.{Lacks, BodiesLack};
ghost use Rattle.flux_types.specs.Read.{ty_of};

use crate::Profiles;
use flux_atom::{AtomKind, Boxed, Name, Names, is_name};
use flux_auto::Auto;
use flux_forest::Forest;
use flux_types::{Decider, Defs, Draft, Ty, Verdict, height, size};
use std::alloc::{AllocError, Global};
use std::process::Abort;
use std::test::Fail;

// Whether a type names only indices below a count.
fn is_known(ty: &Ty, count: u32) -> bool
    ensures { IsTrue result ↔ NamesBelow count (ty_of ty.now) }
{
    match ty {
        Ty::Empty | Ty::Atom(_) => true,
        Ty::Elem(_, inner) | Ty::AnyElem(inner) | Ty::Star(inner) => is_known(inner.get(), count),
        Ty::Seq(left, right) | Ty::Alt(left, right) => {
            is_known(left.get(), count) && is_known(right.get(), count)
        }
        Ty::Named(index) => *index < count,
    }
}

// Whether a label doesn't stand in a type.
fn lacks(ty: &Ty, label: Name) -> bool
    ensures { IsTrue result → Lacks label (ty_of ty.now) }
{
    match ty {
        Ty::Empty | Ty::Atom(_) | Ty::Named(_) => true,
        Ty::Elem(first, inner) => *first != label && lacks(inner.get(), label),
        Ty::AnyElem(inner) | Ty::Star(inner) => lacks(inner.get(), label),
        Ty::Seq(left, right) | Ty::Alt(left, right) => {
            lacks(left.get(), label) && lacks(right.get(), label)
        }
    }
}

fn bodies_lack(defs: &Defs, label: Name) -> bool
    ensures { IsTrue result → BodiesLack label defs.now }
{
    for index in 0..defs.len() {
        if !lacks(defs.unfold(index), label) {
            return false;
        }
    }
    true
}

// Types in prefix notation.
#[derive(Clone, Copy)]
enum Sign {
    Nothing,
    Kind(AtomKind),
    Named(u32),
    Element(Name),
    AnyLabel,
    Star,
    Seq,
    Alt,
}

use Sign::{Alt, AnyLabel, Element, Kind, Named, Nothing, Seq, Star};

const TEXT: Sign = Kind(AtomKind::Text);

const TRUTH: Sign = Kind(AtomKind::Bool);

const WHOLE: Sign = Kind(AtomKind::Int);

fn one(alloc: Global, sign: Sign, parts: &mut Vec<Ty>) -> Result<Ty, AllocError> {
    let first = parts.pop().unwrap_or(Ty::Empty);
    match sign {
        Element(name) => Ok(Ty::Elem(name, Boxed::new(alloc, first)?)),
        AnyLabel => Ok(Ty::AnyElem(Boxed::new(alloc, first)?)),
        Star => Ok(Ty::Star(Boxed::new(alloc, first)?)),
        _ => Ok(first),
    }
}

fn two(alloc: Global, sign: Sign, parts: &mut Vec<Ty>) -> Result<Ty, AllocError> {
    let left = Boxed::new(alloc, parts.pop().unwrap_or(Ty::Empty))?;
    let right = Boxed::new(alloc, parts.pop().unwrap_or(Ty::Empty))?;
    match sign {
        Seq => Ok(Ty::Seq(left, right)),
        _ => Ok(Ty::Alt(left, right)),
    }
}

// The types that signs spell, the last first.
fn types(alloc: Global, signs: &[Sign]) -> Result<Vec<Ty>, AllocError> {
    let mut parts = Vec::new(alloc);
    for sign in signs.iter().rev() {
        let made = match *sign {
            Nothing => Ty::Empty,
            Kind(kind) => Ty::Atom(kind),
            Named(index) => Ty::Named(index),
            Element(_) | AnyLabel | Star => one(alloc, *sign, &mut parts)?,
            Seq | Alt => two(alloc, *sign, &mut parts)?,
        };
        parts.push(made)?;
    }
    Ok(parts)
}

fn ty(alloc: Global, signs: &[Sign]) -> Result<Ty, AllocError> {
    Ok(types(alloc, signs)?.pop().unwrap_or(Ty::Empty))
}

fn label(rt: &impl Abort, names: &mut Names, text: &str) -> Result<Name, Fail> {
    assert!(rt; is_name(text) && names.len() < 100);
    Ok(names.intern(text)?)
}

#[tactic(auto, using(flux_types::proofs::KeptLaws::counts))]
fn set(
    rt: &impl Abort,
    draft: &mut Draft,
    count: u32,
    index: u32,
    body: Ty,
) -> Result<(), AllocError>
    requires { length draft.old ≡ count }
    ensures { length draft.new ≡ count }
{
    assert!(rt; index < count && is_known(&body, count));
    assert!(rt; size(&body) <= 65_536 && height(&body) <= 500);
    draft.define(index, body)
}

#[tactic(auto, using(flux_types::proofs::KeptLaws::counts))]
fn declare_many(
    rt: &impl Abort,
    alloc: Global,
    names: &mut Names,
    count: u32,
) -> Result<Draft, Fail>
    ensures { IfOk result (λ draft. length draft ≡ count) }
{
    let mut draft = Draft::new(alloc);
    for index in 0..count {
        let text = format!(in alloc; "x{index}")?;
        assert!(rt; is_name(&text) && names.len() < 1_000_000);
        let name = names.intern(&text)?;
        draft.declare(name)?;
    }
    Ok(draft)
}

// Labels, of which no type names `other`, and the definitions 0 = a[0*], 1 = a[1*], 2 = c[2] and
// 3 = a[]|b[].
#[derive(Drop)]
struct Scene {
    a: Name,
    b: Name,
    c: Name,
    other: Name,
    defs: Defs,
}

fn make_scene(rt: &impl Abort, alloc: Global) -> Result<Scene, Fail> {
    let mut names = Names::new(alloc);
    let a = label(rt, &mut names, "a")?;
    let b = label(rt, &mut names, "b")?;
    let c = label(rt, &mut names, "c")?;
    let other = label(rt, &mut names, "other")?;
    let either = [Alt, Element(a), Nothing, Element(b), Nothing];
    let mut draft = declare_many(rt, alloc, &mut names, 4)?;
    set(
        rt,
        &mut draft,
        4,
        0,
        ty(alloc, &[Element(a), Star, Named(0)])?,
    )?;
    set(
        rt,
        &mut draft,
        4,
        1,
        ty(alloc, &[Element(a), Star, Named(1)])?,
    )?;
    set(rt, &mut draft, 4, 2, ty(alloc, &[Element(c), Named(2)])?)?;
    set(rt, &mut draft, 4, 3, ty(alloc, &either)?)?;
    let defs = draft.close()?;
    Ok(Scene {
        a,
        b,
        c,
        other,
        defs,
    })
}

// Whether a forest is a member of a type, by an automaton of its own.
fn is_member(
    rt: &impl Abort,
    alloc: Global,
    defs: &Defs,
    other: Name,
    ty: &Ty,
    forest: &Forest,
) -> Result<bool, Fail> {
    assert!(rt; is_known(ty, defs.len()));
    assert!(rt; forest.is_whole());
    let mut auto = Auto::new(alloc, defs, other)?;
    let start = auto.add(ty)?;
    Ok(auto.member(start, forest.view())?)
}

fn assert_included(
    rt: &impl Abort,
    alloc: Global,
    defs: &Defs,
    other: Name,
    left: &Ty,
    right: &Ty,
    want: bool,
) -> Result<(), Fail> {
    assert!(rt; is_known(left, defs.len()) && is_known(right, defs.len()));
    assert!(rt; size(left) <= 65_536 && height(left) <= 500);
    assert!(rt; size(right) <= 65_536 && height(right) <= 500);
    assert!(rt; bodies_lack(defs, other) && lacks(left, other) && lacks(right, other));
    let mut profiles = Profiles::new(defs, other);
    match profiles.included(alloc, left, right)? {
        Verdict::Yes => assert!(rt; want),
        Verdict::No(forest) => {
            assert!(rt; !want);
            assert!(rt; is_member(rt, alloc, defs, other, left, &forest)?);
            assert!(rt; !is_member(rt, alloc, defs, other, right, &forest)?);
        }
    }
    Ok(())
}

fn sign_of(at: &Scene, byte: u8) -> Option<Sign> {
    match byte {
        b'.' => Some(Nothing),
        b'a' => Some(Element(at.a)),
        b'b' => Some(Element(at.b)),
        b'c' => Some(Element(at.c)),
        b'?' => Some(AnyLabel),
        b's' => Some(TEXT),
        b't' => Some(TRUTH),
        b'i' => Some(WHOLE),
        b'*' => Some(Star),
        b',' => Some(Seq),
        b'|' => Some(Alt),
        b'0' => Some(Named(0)),
        b'1' => Some(Named(1)),
        b'2' => Some(Named(2)),
        b'3' => Some(Named(3)),
        _ => None,
    }
}

fn spelled(alloc: Global, at: &Scene, text: &str) -> Result<Vec<Sign>, AllocError> {
    let mut signs = Vec::new(alloc);
    for byte in text.as_bytes() {
        if let Some(sign) = sign_of(at, *byte) {
            signs.push(sign)?;
        }
    }
    Ok(signs)
}

// Of the types that the text spells, two by two, whether each is included in the other.
fn assert_cases(
    rt: &impl Abort,
    alloc: Global,
    at: &Scene,
    text: &str,
    wants: &[(bool, bool)],
) -> Result<(), Fail> {
    let signs = spelled(alloc, at, text)?;
    let mut parts = types(alloc, &signs)?;
    for want in wants {
        let left = parts.pop().unwrap_or(Ty::Empty);
        let right = parts.pop().unwrap_or(Ty::Empty);
        assert_included(rt, alloc, &at.defs, at.other, &left, &right, want.0)?;
        assert_included(rt, alloc, &at.defs, at.other, &right, &left, want.1)?;
    }
    assert!(rt; parts.is_empty());
    Ok(())
}

const BOTH: (bool, bool) = (true, true);

const LEFT_ONLY: (bool, bool) = (true, false);

const RIGHT_ONLY: (bool, bool) = (false, true);

const NEITHER: (bool, bool) = (false, false);

#[test]
fn elements(rt: HostRuntime) -> Result<(), Fail> {
    let alloc = rt.alloc();
    let at = make_scene(&rt, alloc)?;
    // a[]*,a[]* and a[]*; a[]* and a[]; a[b[]|c[]] and a[b[]]|a[c[]]; a[(b[]|c[])*] and
    // a[b[]*]|a[c[]*]; a[b[c[]]] and a[b[]]; a[],b[] and b[],a[]
    let text = ",*a.*a. *a.  *a. a.  a|b.c. |ab.ac.  a*|b.c. |a*b.a*c.  abc. ab.  ,a.b. ,b.a.";
    let wants = [BOTH, RIGHT_ONLY, BOTH, RIGHT_ONLY, NEITHER, NEITHER];
    assert_cases(&rt, alloc, &at, text, &wants)
}

#[test]
fn names_and_atoms(rt: HostRuntime) -> Result<(), Fail> {
    let alloc = rt.alloc();
    let at = make_scene(&rt, alloc)?;
    // the name 2, without members, and (); c[2] and 2; a[]|b[] and its name; two names of one form;
    // () and string*; string|bool and string; string,bool and bool,string; a[bool] and a[string]
    let text = "2 .  c2 2  |a.b. 3  0 1  . *s  |st s  ,st ,ts  at as";
    let wants = [
        LEFT_ONLY, BOTH, BOTH, BOTH, LEFT_ONLY, RIGHT_ONLY, NEITHER, NEITHER,
    ];
    assert_cases(&rt, alloc, &at, text, &wants)
}

#[test]
fn any_labels_and_numbers(rt: HostRuntime) -> Result<(), Fail> {
    let alloc = rt.alloc();
    let at = make_scene(&rt, alloc)?;
    // a[]|b[] and any[]; any[any[]] and any[a[]]; any[int] and any[int|string];
    // int and string|bool; any[] and any[]|a[]; a[int] and any[string]; any[]* and (a[]|any[])*
    let text = "|a.b. ?.  ??. ?a.  ?i ?|is  i |st  ?. |?.a.  ai ?s  *?. *|a.?.";
    let wants = [
        LEFT_ONLY, RIGHT_ONLY, LEFT_ONLY, NEITHER, BOTH, NEITHER, BOTH,
    ];
    assert_cases(&rt, alloc, &at, text, &wants)
}

#[test]
fn a_label_that_no_type_names(rt: HostRuntime) -> Result<(), Fail> {
    let alloc = rt.alloc();
    let at = make_scene(&rt, alloc)?;
    // any[] isn't in a[]|b[]: other[] is against it
    let left = ty(alloc, &[AnyLabel, Nothing])?;
    let right = ty(
        alloc,
        &[Alt, Element(at.a), Nothing, Element(at.b), Nothing],
    )?;
    let shown = ty(alloc, &[Element(at.other), Nothing])?;
    assert!(rt; is_known(&left, at.defs.len()) && is_known(&right, at.defs.len()));
    assert!(rt; size(&left) <= 65_536 && height(&left) <= 500);
    assert!(rt; size(&right) <= 65_536 && height(&right) <= 500);
    assert!(rt; lacks(&left, at.other) && lacks(&right, at.other));
    assert!(rt; bodies_lack(&at.defs, at.other));
    let mut profiles = Profiles::new(&at.defs, at.other);
    match profiles.included(alloc, &left, &right)? {
        Verdict::Yes => assert!(rt; false),
        Verdict::No(forest) => {
            assert!(rt; is_member(&rt, alloc, &at.defs, at.other, &shown, &forest)?);
        }
    }
    Ok(())
}

// More names than calls that nest have room for: as many as a script has room for, and fewer where
// each has a part beside it.
const CHAIN: u32 = 60_000;

const CHOICES: u32 = 20_000;

// A name, or its choice with an empty element.
fn link(alloc: Global, index: u32, beside: Option<Name>) -> Result<Ty, AllocError> {
    match beside {
        None => Ok(Ty::Named(index)),
        Some(label) => ty(alloc, &[Alt, Named(index), Element(label), Nothing]),
    }
}

// The definitions 0 = 1, 1 = 2 and so on, or 0 = 1|b[], 1 = 2|b[] and so on, to a last one, a[].
fn chain(
    rt: &impl Abort,
    alloc: Global,
    names: &mut Names,
    count: u32,
    last: Name,
    beside: Option<Name>,
) -> Result<Defs, Fail>
    requires { 0 < count }
{
    let mut draft = declare_many(rt, alloc, names, count)?;
    for index in 1..count {
        set(
            rt,
            &mut draft,
            count,
            index - 1,
            link(alloc, index, beside)?,
        )?;
    }
    let body = ty(alloc, &[Element(last), Nothing])?;
    set(rt, &mut draft, count, count - 1, body)?;
    Ok(draft.close()?)
}

#[test]
fn chains_of_names(rt: HostRuntime) -> Result<(), Fail> {
    let alloc = rt.alloc();
    let mut names = Names::new(alloc);
    let a = label(&rt, &mut names, "a")?;
    let b = label(&rt, &mut names, "b")?;
    let other = label(&rt, &mut names, "other")?;
    let head = Ty::Named(0);
    let last = ty(alloc, &[Element(a), Nothing])?;
    let plain = chain(&rt, alloc, &mut names, CHAIN, a, None)?;
    assert_included(&rt, alloc, &plain, other, &head, &last, true)?;
    assert_included(&rt, alloc, &plain, other, &last, &head, true)?;
    let choices = chain(&rt, alloc, &mut names, CHOICES, a, Some(b))?;
    assert_included(&rt, alloc, &choices, other, &head, &last, false)?;
    assert_included(&rt, alloc, &choices, other, &last, &head, true)
}

fn numbered(
    rt: &impl Abort,
    names: &mut Names,
    alloc: Global,
    front: &str,
    number: u32,
) -> Result<Name, Fail> {
    let text = format!(in alloc; "{front}{number}")?;
    label(rt, names, &text)
}

fn labels(
    rt: &impl Abort,
    alloc: Global,
    names: &mut Names,
    front: &str,
    count: u32,
) -> Result<Vec<Name>, Fail> {
    let mut labels = Vec::new(alloc);
    for number in 0..count {
        labels.push(numbered(rt, names, alloc, front, number)?)?;
    }
    Ok(labels)
}

// A choice between the elements of all inner labels but one, any number of times.
fn all_but(alloc: Global, inner: &[Name], missing: usize) -> Result<Ty, AllocError> {
    let mut choice = Ty::Empty;
    for index in 0..inner.len() {
        if index != missing {
            let leaf = Ty::Elem(inner[index], Boxed::new(alloc, Ty::Empty)?);
            choice = Ty::Alt(Boxed::new(alloc, leaf)?, Boxed::new(alloc, choice)?);
        }
    }
    Ok(Ty::Star(Boxed::new(alloc, choice)?))
}

// A choice between elements of the outer labels, whose contents lack one inner label each. Their
// forests have a profile for each set of inner labels.
fn ladder(alloc: Global, outer: &[Name], inner: &[Name]) -> Result<Ty, AllocError> {
    let mut choice = Ty::Empty;
    for index in 0..outer.len() {
        let content = all_but(alloc, inner, index)?;
        let element = Ty::Elem(outer[index], Boxed::new(alloc, content)?);
        choice = Ty::Alt(Boxed::new(alloc, element)?, Boxed::new(alloc, choice)?);
    }
    Ok(choice)
}

#[test]
fn equal_types_take_no_search(rt: HostRuntime) -> Result<(), Fail> {
    let alloc = rt.alloc();
    let mut names = Names::new(alloc);
    let outer = labels(&rt, alloc, &mut names, "e", 15)?;
    let inner = labels(&rt, alloc, &mut names, "f", 15)?;
    let other = label(&rt, &mut names, "other")?;
    let defs = Draft::new(alloc).close()?;
    let left = ladder(alloc, &outer, &inner)?;
    let right = ladder(alloc, &outer, &inner)?;
    assert_included(&rt, alloc, &defs, other, &left, &right, true)
}

// Repetitions of the elements of all labels, one behind the other, in order.
fn repetitions(alloc: Global, labels: &[Name]) -> Result<Ty, AllocError> {
    let mut rest = Ty::Empty;
    for label in labels.iter().rev() {
        let leaf = Ty::Elem(*label, Boxed::new(alloc, Ty::Empty)?);
        let star = Ty::Star(Boxed::new(alloc, leaf)?);
        rest = Ty::Seq(Boxed::new(alloc, star)?, Boxed::new(alloc, rest)?);
    }
    Ok(rest)
}

// There are more states than two blocks have, and an edge from each to all later ones.
#[test]
fn repetitions_one_behind_the_other(rt: HostRuntime) -> Result<(), Fail> {
    let alloc = rt.alloc();
    let mut names = Names::new(alloc);
    let mut labels = labels(&rt, alloc, &mut names, "e", 70)?;
    let other = label(&rt, &mut names, "other")?;
    let defs = Draft::new(alloc).close()?;
    let all = repetitions(alloc, &labels)?;
    let any = all_but(alloc, &labels, labels.len())?;
    labels.pop();
    let most = repetitions(alloc, &labels)?;
    assert_included(&rt, alloc, &defs, other, &all, &any, true)?;
    assert_included(&rt, alloc, &defs, other, &any, &all, false)?;
    assert_included(&rt, alloc, &defs, other, &most, &all, true)?;
    assert_included(&rt, alloc, &defs, other, &all, &most, false)
}

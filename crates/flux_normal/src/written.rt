// What is asked of one written type.
ghost use Rattle.std.specs.Prelude.{◌≡◌, ◌||◌, ℕ, List, [], Some, None, map, length, nat_lt, IfOk};
ghost use Rattle.flux_schema.specs.Ty.{Ty as Spelled};
ghost use Rattle.flux_schema.specs.Definitions.{declared_names};
ghost use Rattle.flux_types.specs.Read.{ty_of};
ghost use Rattle.flux_grammar.specs.NormalFaults.{first, unknown};
ghost use Rattle.flux_grammar.specs.TypeOf.{type_in, under_marks, repeated, nested};
ghost use Rattle.flux_normal.specs.Written.{unknowns, unknowns_among, unknowns_inside, type_inside, join_of, extent_of, above, above_both, IsJoin, Measures, TellsBig, IsTypeOf};

use flux_atom::{Boxed, Name};
use flux_grammar::{Mark, Repetition, TypeText};
use flux_types::{Draft, Ty, copy_of};
use std::alloc::{AllocError, Global};

// The most nodes and levels of a written type.
const NODES: u64 = 65_536;

const LEVELS: u64 = 500;

/// The place of the first name in a written type that isn't declared.
#[cycle(unknown_in)]
pub(crate) fn unknown_in(ty: &TypeText, known: &Draft) -> Option<u32>
    ensures { result ≡ first (unknowns (declared_names known.now) ty.now) }
{
    match ty {
        TypeText::Alt(parts, _) => unknown_among(parts.as_slice(), known),
        TypeText::Seq(parts, _) => unknown_among(parts.as_slice(), known),
        TypeText::Marked(inner, _, _) => unknown_in(inner.get(), known),
        TypeText::Group(content, _) => unknown_inside(content, known),
        TypeText::Elem(_, content, _) => unknown_inside(content, known),
        TypeText::AnyElem(content, _) => unknown_inside(content, known),
        TypeText::Kind(_, _) => None,
        TypeText::Named(name, span) => unless_known(*name, span.from, known),
    }
}

#[cycle(unknown_in)]
fn unknown_among(parts: &[TypeText], known: &Draft) -> Option<u32>
    ensures { result ≡ first (unknowns_among (declared_names known.now) parts.now) }
{
    for part in parts {
        if let Some(place) = unknown_in(part, known) {
            return Some(place);
        }
    }
    None
}

#[cycle(unknown_in)]
fn unknown_inside(content: &Option<Boxed<TypeText>>, known: &Draft) -> Option<u32>
    ensures { result ≡ first (unknowns_inside (declared_names known.now) content.now) }
{
    match content {
        None => None,
        Some(inner) => unknown_in(inner.get(), known),
    }
}

fn unless_known(name: Name, place: u32, known: &Draft) -> Option<u32>
    ensures { result ≡ unknown (declared_names known.now) (name, place) }
{
    match known.lookup(name) {
        None => Some(place),
        Some(_) => None,
    }
}

// How many nodes and levels a type has, `u64::MAX` where these are more: marks double a type.
#[derive(Clone, Copy)]
struct Extent {
    nodes: u64,
    levels: u64,
}

/// Whether a written type has more than 65,536 nodes or more than 500 levels. It takes the time of
/// its text, however large the type is.
pub(crate) fn is_big(ty: &TypeText) -> bool
    ensures { (names : List ℕ) → TellsBig result (type_in names ty.now) (unknowns names ty.now) }
{
    match measure(ty) {
        None => false,
        Some(extent) => exceeds(&extent),
    }
}

fn exceeds(extent: &Extent) -> bool
    ensures { result ≡ (nat_lt 65536 extent.now.nodes || nat_lt 500 extent.now.levels) }
{
    NODES < extent.nodes || LEVELS < extent.levels
}

// There is none where a list has no parts.
#[cycle(measure)]
fn measure(ty: &TypeText) -> Option<Extent>
    ensures { (names : List ℕ) → Measures result (type_in names ty.now) (unknowns names ty.now) }
{
    match ty {
        TypeText::Alt(parts, _) => measure_list(parts.as_slice()),
        TypeText::Seq(parts, _) => measure_list(parts.as_slice()),
        TypeText::Marked(inner, marks, _) => marked(measure(inner.get()), marks.as_slice()),
        TypeText::Group(content, _) => measure_inside(content),
        TypeText::Elem(_, content, _) => over(measure_inside(content)),
        TypeText::AnyElem(content, _) => over(measure_inside(content)),
        TypeText::Kind(_, _) => Some(leaf()),
        TypeText::Named(_, _) => Some(leaf()),
    }
}

// Lists nest to the right: they are measured from the last part on.
#[cycle(measure)]
fn measure_list(parts: &[TypeText]) -> Option<Extent>
    ensures { (names : List ℕ) (join : Spelled → Spelled → Spelled) → IsJoin join →
        Measures result (nested join (map (type_in names) parts.now))
        (unknowns_among names parts.now) }
{
    let mut whole = None;
    let mut index = parts.len();
    while index > 0 {
        index -= 1;
        whole = Some(before(measure(&parts[index])?, whole));
    }
    whole
}

#[cycle(measure)]
fn measure_inside(content: &Option<Boxed<TypeText>>) -> Option<Extent>
    ensures { (names : List ℕ) →
        Measures result (type_inside names content.now) (unknowns_inside names content.now) }
{
    match content {
        None => Some(leaf()),
        Some(inner) => measure(inner.get()),
    }
}

fn marked(inner: Option<Extent>, marks: &[Mark]) -> Option<Extent>
    ensures none { inner ≡ None → result ≡ None }
    ensures measured { (t : Spelled) → inner ≡ Some (extent_of t) →
        result ≡ Some (extent_of (under_marks t marks.now)) }
{
    let mut extent = inner?;
    for mark in marks {
        extent = under_mark(extent, &mark.repetition);
    }
    Some(extent)
}

fn under_mark(inner: Extent, repetition: &Repetition) -> Extent
    ensures { (t : Spelled) → inner ≡ extent_of t → result ≡ extent_of (repeated t repetition.now) }
{
    match repetition {
        Repetition::Star => over_one(inner),
        Repetition::Plus => over_two(inner, over_one(inner)),
        Repetition::Optional => over_two(inner, leaf()),
    }
}

fn before(first: Extent, others: Option<Extent>) -> Extent
    ensures last { others ≡ None → result ≡ first }
    ensures joined { (e : Extent) → others ≡ Some e → result ≡ above_both first e }
{
    match others {
        None => first,
        Some(others) => over_two(first, others),
    }
}

fn over(inner: Option<Extent>) -> Option<Extent>
    ensures none { inner ≡ None → result ≡ None }
    ensures measured { (e : Extent) → inner ≡ Some e → result ≡ Some (above e) }
{
    Some(over_one(inner?))
}

fn leaf() -> Extent
    ensures nodes { result.nodes ≡ 1 }
    ensures levels { result.levels ≡ 1 }
{
    Extent {
        nodes: 1,
        levels: 1,
    }
}

fn over_one(inner: Extent) -> Extent
    ensures { result ≡ above inner }
{
    Extent {
        nodes: inner.nodes.saturating_add(1),
        levels: inner.levels.saturating_add(1),
    }
}

fn over_two(left: Extent, right: Extent) -> Extent
    ensures { result ≡ above_both left right }
{
    Extent {
        nodes: left.nodes.saturating_add(right.nodes).saturating_add(1),
        levels: left.levels.max(right.levels).saturating_add(1),
    }
}

// What stands between the parts of a list.
enum Join {
    Comma,
    Bar,
}

/// The type that a written type stands for, where each of its names is declared. A list without
/// parts, which no text spells, has none: memory is said to be wanting. It is for types within the
/// limits: it takes the time of the type that it makes.
#[cycle(made)]
pub(crate) fn made(alloc: Global, ty: &TypeText, known: &Draft) -> Result<Ty, AllocError>
    requires { unknowns (declared_names known.now) ty.now ≡ [] }
    ensures { IfOk result (λ made. IsTypeOf (length (declared_names known.now))
        (type_in (declared_names known.now) ty.now) (ty_of made)) }
{
    match ty {
        TypeText::Alt(parts, _) => made_list(alloc, parts.as_slice(), &Join::Bar, known),
        TypeText::Seq(parts, _) => made_list(alloc, parts.as_slice(), &Join::Comma, known),
        TypeText::Marked(inner, marks, _) => {
            let inner = made(alloc, inner.get(), known)?;
            made_marked(alloc, inner, marks.as_slice())
        }
        TypeText::Group(content, _) => made_inside(alloc, content, known),
        TypeText::Elem(label, content, _) => {
            let content = made_inside(alloc, content, known)?;
            Ok(Ty::Elem(*label, Boxed::new(alloc, content)?))
        }
        TypeText::AnyElem(content, _) => {
            let content = made_inside(alloc, content, known)?;
            Ok(Ty::AnyElem(Boxed::new(alloc, content)?))
        }
        TypeText::Kind(kind, _) => Ok(Ty::Atom(*kind)),
        TypeText::Named(name, _) => match known.lookup(*name) {
            Some(index) => Ok(Ty::Named(index)),
            None => Err(AllocError),
        },
    }
}

// Lists nest to the right: they are made from the last part on.
#[cycle(made)]
fn made_list(
    alloc: Global,
    parts: &[TypeText],
    join: &Join,
    known: &Draft,
) -> Result<Ty, AllocError>
    requires { unknowns_among (declared_names known.now) parts.now ≡ [] }
    ensures { IfOk result (λ made. IsTypeOf (length (declared_names known.now))
        (nested (join_of join.now) (map (type_in (declared_names known.now)) parts.now))
        (ty_of made)) }
{
    let mut whole = None;
    let mut index = parts.len();
    while index > 0 {
        index -= 1;
        let part = made(alloc, &parts[index], known)?;
        whole = Some(put_before(alloc, part, join, whole)?);
    }
    whole.ok_or(AllocError)
}

#[cycle(made)]
fn made_inside(
    alloc: Global,
    content: &Option<Boxed<TypeText>>,
    known: &Draft,
) -> Result<Ty, AllocError>
    requires { unknowns_inside (declared_names known.now) content.now ≡ [] }
    ensures { IfOk result (λ made. IsTypeOf (length (declared_names known.now))
        (type_inside (declared_names known.now) content.now) (ty_of made)) }
{
    match content {
        None => Ok(Ty::Empty),
        Some(inner) => made(alloc, inner.get(), known),
    }
}

fn put_before(alloc: Global, first: Ty, join: &Join, others: Option<Ty>) -> Result<Ty, AllocError>
    ensures last { IfOk result (λ made. others ≡ None → made ≡ first) }
    ensures joined { IfOk result (λ made. (t : Ty) → others ≡ Some t →
        ty_of made ≡ join_of join.now (ty_of first) (ty_of t)) }
{
    let Some(others) = others else {
        return Ok(first);
    };
    let first = Boxed::new(alloc, first)?;
    let others = Boxed::new(alloc, others)?;
    Ok(match join {
        Join::Comma => Ty::Seq(first, others),
        Join::Bar => Ty::Alt(first, others),
    })
}

fn made_marked(alloc: Global, inner: Ty, marks: &[Mark]) -> Result<Ty, AllocError>
    ensures { IfOk result (λ made. ty_of made ≡ under_marks (ty_of inner) marks.now) }
{
    let mut ty = inner;
    for mark in marks {
        ty = made_under(alloc, ty, &mark.repetition)?;
    }
    Ok(ty)
}

fn made_under(alloc: Global, inner: Ty, repetition: &Repetition) -> Result<Ty, AllocError>
    ensures { IfOk result (λ made. ty_of made ≡ repeated (ty_of inner) repetition.now) }
{
    match repetition {
        Repetition::Star => Ok(Ty::Star(Boxed::new(alloc, inner)?)),
        Repetition::Plus => {
            let more = copy_of(alloc, &inner)?;
            let more = Ty::Star(Boxed::new(alloc, more)?);
            Ok(Ty::Seq(Boxed::new(alloc, inner)?, Boxed::new(alloc, more)?))
        }
        Repetition::Optional => {
            let nothing = Boxed::new(alloc, Ty::Empty)?;
            Ok(Ty::Alt(Boxed::new(alloc, inner)?, nothing))
        }
    }
}

// The edges of an automaton, by the trees that they go by.
ghost use Rattle.std.specs.Prelude.{◌≡◌, ◌<◌, ◌++◌, ◌∷◌, ◌⊎◌, ◌↔◌, [], ℕ, length, IfOk, OnOk, IsTrue, false};
ghost use Rattle.flux_auto.specs.Arcs.{IsArc, IsLeap, ArcMore, LeapMore, arcs_at, leaps_at, leaps_along, leaps_by, Lists, Adds, IsIndex};
ghost use Rattle.flux_auto.specs.declared.edge.Edge.TheVariants.{Atom, Elem, AnyElem};

use crate::Edge;
use crate::block::Block;
use crate::set::Set;
use flux_atom::{AtomKind, Name};
use std::alloc::{AllocError, Global};

// Edges by an element of a known label, or of any: the states that they leave, of one block, that
// of the content, and that of the trees after the element.
#[derive(Clone, Copy)]
pub(crate) struct Arc {
    pub(crate) sources: Block,
    pub(crate) content: u64,
    pub(crate) next: u64,
}

/// Edges by a known tree: the states that they leave, of one block, and that of the trees after it.
#[derive(Clone, Copy, Debug, PartialEq, Eq, Hash)]
pub struct Leap {
    pub sources: Block,
    pub next: u64,
}

/// The edges of states: those by elements, at the number of their label, those by elements of any
/// label, and those by atoms, of each kind. Edges of a block of states that go the same way stand
/// together where they were added one after another.
#[derive(Drop)]
pub struct Arcs {
    pub(crate) by_label: Vec<Vec<Arc>>,
    pub(crate) labels: Vec<Name>,
    pub(crate) any_label: Vec<Arc>,
    pub(crate) texts: Vec<Leap>,
    pub(crate) truths: Vec<Leap>,
    pub(crate) numbers: Vec<Leap>,
}

impl Arcs {
    /// The edges of no states.
    pub fn new(alloc: Global) -> Arcs
        ensures { IsIndex [] result }
    {
        Arcs {
            by_label: Vec::new(alloc),
            labels: Vec::new(alloc),
            any_label: Vec::new(alloc),
            texts: Vec::new(alloc),
            truths: Vec::new(alloc),
            numbers: Vec::new(alloc),
        }
    }

    /// Adds the edges of a state.
    pub fn add_all(&mut self, source: u64, edges: &[Edge]) -> Result<(), AllocError>
        ensures { OnOk result (Adds self.old self.new source edges.now) }
    {
        for edge in edges {
            add(self, source, edge)?;
        }
        Ok(())
    }

    /// The labels of the edges by elements with a label alone, each once.
    pub fn labels(&self) -> &[Name]
        ensures { result.now ≡ self.now.labels.items }
    {
        self.labels.as_slice()
    }

    // The edges by an element with a label alone.
    fn for_label(&self, label: Name) -> &[Arc]
        ensures { result.now ≡ arcs_at self.now.by_label.items label }
    {
        match self.by_label.get(label.number() as usize) {
            Some(arcs) => arcs.as_slice(),
            None => &[],
        }
    }

    /// The edges by an atom of a kind.
    pub fn for_kind(&self, kind: AtomKind) -> &[Leap]
        ensures { result.now ≡ leaps_at self.now kind }
    {
        match kind {
            AtomKind::Bool => self.truths.as_slice(),
            AtomKind::Text => self.texts.as_slice(),
            AtomKind::Int => self.numbers.as_slice(),
        }
    }

    /// The edges by an element with a label whose content has a profile.
    pub fn for_element(
        &self,
        alloc: Global,
        label: Name,
        content: &Set,
    ) -> Result<Vec<Leap>, AllocError>
        ensures { IfOk result (λ leaps. leaps.items ≡ leaps_by self.now label content.now) }
    {
        let mut leaps = Vec::new(alloc);
        add_leaps(&mut leaps, self.for_label(label), content)?;
        add_leaps(&mut leaps, self.any_label.as_slice(), content)?;
        Ok(leaps)
    }
}

// Adds the edges whose content has a profile.
fn add_leaps(leaps: &mut Vec<Leap>, arcs: &[Arc], content: &Set) -> Result<(), AllocError>
    ensures { OnOk result (leaps.new.items ≡ leaps.old.items ++ leaps_along content.now arcs.now) }
{
    for arc in arcs {
        add_leap_along(leaps, arc, content)?;
    }
    Ok(())
}

fn add_leap_along(leaps: &mut Vec<Leap>, arc: &Arc, content: &Set) -> Result<(), AllocError>
    ensures { OnOk result
        (leaps.new.items ≡ leaps.old.items ++ leaps_along content.now (arc.now ∷ [])) }
{
    if content.has(arc.content) {
        let (sources, next) = (arc.sources, arc.next);
        leaps.push(Leap { sources, next })?;
    }
    Ok(())
}

// Makes a place for a label.
fn make_place(by_label: &mut Vec<Vec<Arc>>, number: usize) -> Result<(), AllocError>
    ensures there { OnOk result (number < length by_label.new.items) }
    ensures same { (n : ℕ) → arcs_at by_label.new.items n ≡ arcs_at by_label.old.items n }
{
    let alloc = *by_label.allocator();
    while by_label.len() <= number {
        by_label.push(Vec::new(alloc))?;
    }
    Ok(())
}

// Lists a label, if it has no edges yet.
fn list(labels: &mut Vec<Name>, label: Name, arcs: &[Arc]) -> Result<(), AllocError>
    ensures { OnOk result (Lists labels.old.items labels.new.items label arcs.now) }
{
    if arcs.is_empty() {
        labels.push(label)?;
    }
    Ok(())
}

// Adds an arc to another, where the two go the same way and leave one block, and tells whether they
// do.
fn join_arc(last: &mut Arc, arc: Arc) -> bool
    ensures joined { IsTrue result → (s c r : ℕ)
        → IsArc last.new s c r ↔ (IsArc last.old s c r ⊎ IsArc arc s c r) }
    ensures same { result ≡ false → last.new ≡ last.old }
{
    last.content == arc.content && last.next == arc.next && last.sources.join(arc.sources)
}

fn join_leap(last: &mut Leap, leap: Leap) -> bool
    ensures joined { IsTrue result → (s r : ℕ)
        → IsLeap last.new s r ↔ (IsLeap last.old s r ⊎ IsLeap leap s r) }
    ensures same { result ≡ false → last.new ≡ last.old }
{
    last.next == leap.next && last.sources.join(leap.sources)
}

// Adds an arc, if it can to the last one.
fn push_arc(arcs: &mut Vec<Arc>, arc: Arc) -> Result<(), AllocError>
    ensures { OnOk result (ArcMore arcs.old.items arc arcs.new.items) }
{
    if let Some(last) = arcs.last_mut() {
        if join_arc(last, arc) {
            return Ok(());
        }
    }
    arcs.push(arc)?;
    Ok(())
}

fn push_leap(leaps: &mut Vec<Leap>, leap: Leap) -> Result<(), AllocError>
    ensures { OnOk result (LeapMore leaps.old.items leap leaps.new.items) }
{
    if let Some(last) = leaps.last_mut() {
        if join_leap(last, leap) {
            return Ok(());
        }
    }
    leaps.push(leap)?;
    Ok(())
}

fn add_arc(
    arcs: &mut Arcs,
    label: Name,
    source: u64,
    content: u64,
    next: u64,
) -> Result<(), AllocError>
    ensures { OnOk result (Adds arcs.old arcs.new source (Elem label content next ∷ [])) }
{
    let number = label.number() as usize;
    make_place(&mut arcs.by_label, number)?;
    list(&mut arcs.labels, label, arcs.by_label[number].as_slice())?;
    let sources = Block::of(source);
    let arc = Arc {
        sources,
        content,
        next,
    };
    push_arc(&mut arcs.by_label[number], arc)?;
    Ok(())
}

fn add_any(arcs: &mut Arcs, source: u64, content: u64, next: u64) -> Result<(), AllocError>
    ensures { OnOk result (Adds arcs.old arcs.new source (AnyElem content next ∷ [])) }
{
    let sources = Block::of(source);
    let arc = Arc {
        sources,
        content,
        next,
    };
    push_arc(&mut arcs.any_label, arc)?;
    Ok(())
}

fn add_leap(arcs: &mut Arcs, kind: AtomKind, source: u64, next: u64) -> Result<(), AllocError>
    ensures { OnOk result (Adds arcs.old arcs.new source (Atom kind next ∷ [])) }
{
    let sources = Block::of(source);
    let leap = Leap { sources, next };
    match kind {
        AtomKind::Bool => push_leap(&mut arcs.truths, leap)?,
        AtomKind::Text => push_leap(&mut arcs.texts, leap)?,
        AtomKind::Int => push_leap(&mut arcs.numbers, leap)?,
    }
    Ok(())
}

// Adds an edge that leaves a state.
fn add(arcs: &mut Arcs, source: u64, edge: &Edge) -> Result<(), AllocError>
    ensures { OnOk result (Adds arcs.old arcs.new source (edge.now ∷ [])) }
{
    match edge {
        Edge::Atom(kind, next) => add_leap(arcs, *kind, source, *next),
        Edge::Elem(label, content, next) => add_arc(arcs, *label, source, *content, *next),
        Edge::AnyElem(content, next) => add_any(arcs, source, *content, *next),
    }
}

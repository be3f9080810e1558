// The search for a name that reaches itself without passing an element. Ranks tell of most names
// that they don't; the others are searched from, each alone.
ghost use Rattle.std.specs.Prelude.{◌≡◌, ◌↔◌, ◌^◌, ◌<◌, ℕ, length, slice_index, IsTrue, IfOk, OnOk, MatchOption};
ghost use Rattle.flux_schema.specs.Ty.{NamesBelow, named};
ghost use Rattle.flux_schema.specs.Definitions.{body_of, AreKnown, Reaches, IsFirst};
ghost use Rattle.flux_types.specs.Read.{ty_of};
ghost use Rattle.flux_types.specs.Kept.{definitions_of};
ghost use Rattle.flux_types.specs.Search.{Visits, RanksBelow, NeverRises, FallsFrom};

use crate::Ty;
use crate::defs::Kept;
use crate::ranks::ranks;
use std::alloc::{AllocError, Global};

/// The first name that reaches itself.
pub(crate) fn first_unguarded(alloc: Global, kept: &[Kept]) -> Result<Option<u32>, AllocError>
    requires few { length kept.now < 2 ^ 32 }
    requires known { AreKnown (definitions_of kept.now) }
    ensures { IfOk result (λ found.
        MatchOption found
        ((x : ℕ) → ¬ (Reaches (body_of (definitions_of kept.now)) x x))
        (IsFirst (λ x. Reaches (body_of (definitions_of kept.now)) x x))) }
{
    let ranks = ranks(alloc, kept)?;
    let is_ranking = never_rises(kept, &ranks);
    for index in 0..kept.len() as u32 {
        if is_unguarded(alloc, kept, &ranks, is_ranking, index)? {
            return Ok(Some(index));
        }
    }
    Ok(None)
}

// Whether a name reaches itself. The ranks tell of most names that they don't.
fn is_unguarded(
    alloc: Global,
    kept: &[Kept],
    ranks: &[usize],
    is_ranking: bool,
    index: u32,
) -> Result<bool, AllocError>
    requires within { index < length kept.now }
    requires known { AreKnown (definitions_of kept.now) }
    requires ranking { IsTrue is_ranking →
        NeverRises (slice_index ranks.now) (body_of (definitions_of kept.now)) }
    ensures { IfOk result (λ found.
        IsTrue found ↔ Reaches (body_of (definitions_of kept.now)) index index) }
{
    if is_ranking && falls_from(kept, ranks, index) {
        return Ok(false);
    }
    reaches_itself(alloc, kept, index)
}

fn rank_of(ranks: &[usize], index: u32) -> usize
    ensures { result ≡ slice_index ranks.now index }
{
    match ranks.get(index as usize) {
        Some(rank) => *rank,
        None => 0,
    }
}

// Whether the names that stand in a type outside its elements have ranks below the bound. It
// recurses by the height of the type.
fn are_below(ty: &Ty, ranks: &[usize], bound: usize) -> bool
    ensures { IsTrue result ↔ RanksBelow (slice_index ranks.now) bound (ty_of ty.now) }
{
    match ty {
        Ty::Empty | Ty::Atom(_) | Ty::Elem(_, _) | Ty::AnyElem(_) => true,
        Ty::Seq(left, right) | Ty::Alt(left, right) => {
            are_below(left.get(), ranks, bound) && are_below(right.get(), ranks, bound)
        }
        Ty::Star(inner) => are_below(inner.get(), ranks, bound),
        Ty::Named(index) => rank_of(ranks, *index) < bound,
    }
}

fn never_rises(kept: &[Kept], ranks: &[usize]) -> bool
    requires { length kept.now < 2 ^ 32 }
    ensures { IsTrue result →
        NeverRises (slice_index ranks.now) (body_of (definitions_of kept.now)) }
{
    for (index, one) in kept.iter().enumerate() {
        let bound = rank_of(ranks, index as u32).saturating_add(1);
        if !are_below(&one.body, ranks, bound) {
            return false;
        }
    }
    true
}

fn falls_from(kept: &[Kept], ranks: &[usize], index: u32) -> bool
    requires { index < length kept.now }
    ensures { IsTrue result →
        FallsFrom (slice_index ranks.now) (body_of (definitions_of kept.now)) index }
{
    are_below(&kept[index as usize].body, ranks, rank_of(ranks, index))
}

fn reaches_itself(alloc: Global, kept: &[Kept], index: u32) -> Result<bool, AllocError>
    requires within { index < length kept.now }
    requires known { AreKnown (definitions_of kept.now) }
    ensures { IfOk result (λ found.
        IsTrue found ↔ Reaches (body_of (definitions_of kept.now)) index index) }
{
    let mut marks = vec![in alloc; false; kept.len()]?;
    let mut waiting = Vec::new(alloc);
    mark_standing(&kept[index as usize].body, &mut marks, &mut waiting)?;
    while let Some(next) = waiting.pop() {
        mark_standing(&kept[next as usize].body, &mut marks, &mut waiting)?;
    }
    Ok(marks[index as usize])
}

// Marks the names that stand in a type outside its elements. Those that had no mark wait. It
// recurses by the height of the type; names are followed by the loop above.
fn mark_standing(ty: &Ty, marks: &mut [bool], waiting: &mut Vec<u32>) -> Result<(), AllocError>
    requires { NamesBelow (length marks.old) (ty_of ty.now) }
    ensures { OnOk result
        (Visits (ty_of ty.now) marks.old marks.new waiting.old.items waiting.new.items) }
{
    match ty {
        Ty::Empty | Ty::Atom(_) | Ty::Elem(_, _) | Ty::AnyElem(_) => Ok(()),
        Ty::Seq(left, right) | Ty::Alt(left, right) => {
            mark_standing(left.get(), marks, waiting)?;
            mark_standing(right.get(), marks, waiting)
        }
        Ty::Star(inner) => mark_standing(inner.get(), marks, waiting),
        Ty::Named(index) => mark(*index, marks, waiting),
    }
}

fn mark(index: u32, marks: &mut [bool], waiting: &mut Vec<u32>) -> Result<(), AllocError>
    requires { index < length marks.old }
    ensures { OnOk result
        (Visits (named index) marks.old marks.new waiting.old.items waiting.new.items) }
{
    if !marks[index as usize] {
        waiting.push(index)?;
        marks[index as usize] = true;
    }
    Ok(())
}

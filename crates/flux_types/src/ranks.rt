// Ranks of names, found by one search along what they name outside elements. No name has a lesser
// rank than one that it leads to, and only names that reach each other share one. Nothing of this
// is proved: who uses a rank tests it.
ghost use Rattle.std.specs.Prelude.{◌<◌, All, length, IfOk};

use crate::Ty;
use crate::defs::Kept;
use std::alloc::{AllocError, Global};

// Where a name stands in the search.
#[derive(Clone, Copy)]
enum Place {
    New,
    // not all that it reaches was seen: when it was met, and when the first of the open names was
    // that it is known to reach
    Open { met: usize, first: usize },
    Closed { rank: usize },
}

// What is still to be done.
#[derive(Clone, Copy)]
enum Task {
    // the step from a name to one that it names
    Enter { from: u32, to: u32 },
    // the way back, when all steps from the second name were taken
    Leave { from: u32, to: u32 },
}

#[derive(Drop)]
struct Search {
    places: Vec<Place>,
    // the open names as they were met
    open: Vec<u32>,
    // the closed ones as they were closed
    closed: Vec<u32>,
    tasks: Vec<Task>,
}

fn place_of(places: &[Place], name: u32) -> Place {
    match places.get(name as usize) {
        Some(place) => *place,
        None => Place::New,
    }
}

fn set_place(places: &mut [Place], name: u32, place: Place) {
    let index = name as usize;
    if index < places.len() {
        places[index] = place;
    }
}

// The name reaches an open one that was met then.
fn lower(places: &mut [Place], name: u32, then: usize) {
    if let Place::Open { met, first } = place_of(places, name) {
        let first = first.min(then);
        set_place(places, name, Place::Open { met, first });
    }
}

// The steps to the names that stand in a type outside its elements. It recurses by the height of
// the type.
fn push_steps(ty: &Ty, from: u32, tasks: &mut Vec<Task>) -> Result<(), AllocError> {
    match ty {
        Ty::Empty | Ty::Atom(_) | Ty::Elem(_, _) | Ty::AnyElem(_) => Ok(()),
        Ty::Seq(left, right) | Ty::Alt(left, right) => {
            push_steps(left.get(), from, tasks)?;
            push_steps(right.get(), from, tasks)
        }
        Ty::Star(inner) => push_steps(inner.get(), from, tasks),
        Ty::Named(index) => {
            tasks.push(Task::Enter { from, to: *index })?;
            Ok(())
        }
    }
}

fn enter(kept: &[Kept], search: &mut Search, from: u32, to: u32) -> Result<(), AllocError> {
    match place_of(&search.places, to) {
        Place::New => {
            let Some(one) = kept.get(to as usize) else {
                return Ok(());
            };
            let met = search.closed.len().saturating_add(search.open.len());
            set_place(&mut search.places, to, Place::Open { met, first: met });
            search.open.push(to)?;
            search.tasks.push(Task::Leave { from, to })?;
            push_steps(&one.body, to, &mut search.tasks)
        }
        Place::Open { met, first: _ } => {
            lower(&mut search.places, from, met);
            Ok(())
        }
        Place::Closed { rank: _ } => Ok(()),
    }
}

// Closes a name and those that were met after it: they all reach each other.
fn close(search: &mut Search, name: u32) -> Result<(), AllocError> {
    let rank = search.closed.len();
    while let Some(member) = search.open.pop() {
        search.closed.push(member)?;
        set_place(&mut search.places, member, Place::Closed { rank });
        if member == name {
            break;
        }
    }
    Ok(())
}

fn leave(search: &mut Search, from: u32, to: u32) -> Result<(), AllocError> {
    if let Place::Open { met, first } = place_of(&search.places, to) {
        if first == met {
            return close(search, to);
        }
        lower(&mut search.places, from, first);
    }
    Ok(())
}

// All that is reached from a name. Each task is an entry of a name, a step or a way back.
fn visit(kept: &[Kept], search: &mut Search, name: u32) -> Result<(), AllocError> {
    search.tasks.push(Task::Enter {
        from: name,
        to: name,
    })?;
    for _ in 0..u64::MAX {
        match search.tasks.pop() {
            Some(Task::Enter { from, to }) => enter(kept, search, from, to)?,
            Some(Task::Leave { from, to }) => leave(search, from, to)?,
            None => break,
        }
    }
    Ok(())
}

fn search_all(alloc: Global, kept: &[Kept]) -> Result<Search, AllocError> {
    let mut search = Search {
        places: vec![in alloc; Place::New; kept.len()]?,
        open: Vec::new(alloc),
        closed: Vec::new(alloc),
        tasks: Vec::new(alloc),
    };
    for index in 0..kept.len() {
        if let Ok(name) = u32::try_from(index) {
            visit(kept, &mut search, name)?;
        }
    }
    Ok(search)
}

// The rank of each name.
pub(crate) fn ranks(alloc: Global, kept: &[Kept]) -> Result<Vec<usize>, AllocError> {
    let search = search_all(alloc, kept)?;
    let mut ranks = Vec::new(alloc);
    for place in &search.places {
        let rank = match place {
            Place::Closed { rank } => *rank,
            Place::New | Place::Open { met: _, first: _ } => 0,
        };
        ranks.push(rank)?;
    }
    Ok(ranks)
}

// The names as they were closed: each comes after those that it leads to, but for those that reach
// it.
pub(crate) fn closing_order(alloc: Global, kept: &[Kept]) -> Result<Vec<u32>, AllocError>
    ensures { IfOk result (λ order. All (λ x. x < length kept.now) order.items) }
{
    let search = search_all(alloc, kept)?;
    let mut order = Vec::new(alloc);
    for name in &search.closed {
        if (*name as usize) < kept.len() {
            order.push(*name)?;
        }
    }
    Ok(order)
}

// Links of a run that are taken apart and put together.
ghost use Rattle.std.specs.Prelude.{◌≡◌, length};
ghost use Rattle.flux_nodes.specs.Seats.{ahead, ahead_top, behind, behind_top};
ghost use Rattle.flux_nodes.specs.Kept.{
  IsWithin,
  HasRun,
  HasPlace,
  IsTable,
  Follows,
  seat_unlink,
  seat_link,
};

use crate::cell::{
    Cell, NodeId, first_of, next_of, parent_of, prev_of, put_first, put_last, put_next, put_prev,
};
use crate::parents::put_parents;
use crate::run::{Place, Run};

// What follows `prev` under `parent` becomes `to`.
fn put_ahead(
    cells: &mut [Cell],
    top: &mut Option<NodeId>,
    parent: Option<NodeId>,
    prev: Option<NodeId>,
    to: Option<NodeId>,
)
    requires prev_in { IsWithin prev (length cells.old) }
    requires parent_in { IsWithin parent (length cells.old) }
    ensures cells { cells.new ≡ ahead cells.old parent prev to }
    ensures top { top.new ≡ ahead_top top.old parent prev to }
{
    match prev {
        Some(prev) => put_next(cells, prev, to),
        None => match parent {
            Some(parent) => put_first(cells, parent, to),
            None => *top = to,
        },
    }
}

// What stands before `next` under `parent` becomes `to`.
pub(crate) fn put_behind(
    cells: &mut [Cell],
    end: &mut Option<NodeId>,
    parent: Option<NodeId>,
    next: Option<NodeId>,
    to: Option<NodeId>,
)
    requires next_in { IsWithin next (length cells.old) }
    requires parent_in { IsWithin parent (length cells.old) }
    ensures cells { cells.new ≡ behind cells.old parent next to }
    ensures end { end.new ≡ behind_top end.old parent next to }
{
    match next {
        Some(next) => put_prev(cells, next, to),
        None => match parent {
            Some(parent) => put_last(cells, parent, to),
            None => *end = to,
        },
    }
}

// Takes a run out of the document.
pub(crate) fn unlink(
    cells: &mut [Cell],
    top: &mut Option<NodeId>,
    end: &mut Option<NodeId>,
    run: Run,
)
    requires { HasRun cells.old top.old end.old run }
    ensures { (h : HasRun cells.old top.old end.old run) →
        IsTable cells.new top.new end.new h.free (seat_unlink h.meaning run h.at.seat h.at.trees) }
{
    let parent = parent_of(cells, run.first);
    let prev = prev_of(cells, run.first);
    let next = next_of(cells, run.last);
    put_parents(cells, run, None);
    put_prev(cells, run.first, None);
    put_next(cells, run.last, None);
    put_ahead(cells, top, parent, prev, next);
    put_behind(cells, end, parent, next, prev);
}

// What follows a place.
fn following(cells: &[Cell], top: Option<NodeId>, place: Place) -> Option<NodeId>
    requires after_in { IsWithin place.after (length cells.now) }
    requires parent_in { IsWithin place.parent (length cells.now) }
    ensures { Follows cells.now top place.parent place.after result }
{
    match place.after {
        Some(prev) => next_of(cells, prev),
        None => match place.parent {
            Some(parent) => first_of(cells, parent),
            None => top,
        },
    }
}

// Puts an unlinked run at a place of the document.
pub(crate) fn link(
    cells: &mut [Cell],
    top: &mut Option<NodeId>,
    end: &mut Option<NodeId>,
    place: Place,
    run: Run,
)
    requires { HasPlace cells.old top.old end.old place run }
    ensures { (h : HasPlace cells.old top.old end.old place run) →
        IsTable cells.new top.new end.new h.free (seat_link h.meaning run h.at.seat) }
{
    let next = following(cells, *top, place);
    put_parents(cells, run, place.parent);
    put_prev(cells, run.first, place.after);
    put_next(cells, run.last, next);
    put_ahead(cells, top, place.parent, place.after, Some(run.first));
    put_behind(cells, end, place.parent, next, Some(run.last));
}

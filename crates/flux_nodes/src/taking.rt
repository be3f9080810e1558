// Numbers that are taken for new nodes.
ghost use Rattle.std.specs.Prelude.{◌≡◌, ◌<◌, ◌≤◌, ◌+◌, length, Option, None, IfOk, OnErr};
ghost use Rattle.std.specs.Vec.{vec_capacity};
ghost use Rattle.flux_nodes.specs.Kept.{HasSpare, IsTaken, AreTaken};

use crate::cell::{Cell, NodeId, next_of};
use std::alloc::AllocError;

// Takes the first number of the free list, or else that of a new cell.
fn take_number(cells: &mut Vec<Cell>, free: &mut Option<NodeId>) -> NodeId
    requires spare { HasSpare cells.old.items free.old }
    requires room { free.old ≡ None → length cells.old.items < vec_capacity cells.old }
    ensures taken { (h : HasSpare cells.old.items free.old) →
        IsTaken cells.old.items cells.new.items h.spare free.new result }
    ensures room { vec_capacity cells.old ≤ vec_capacity cells.new }
{
    match *free {
        Some(node) => {
            *free = next_of(cells.as_slice(), node);
            node
        }
        None => {
            let node = NodeId(cells.len() as u64);
            if let Err(_) = cells.push(Cell::free(None)) {
                unreachable!()
            }
            node
        }
    }
}

// Takes so many numbers, of which the free list has `spare`.
pub(crate) fn take_numbers(
    cells: &mut Vec<Cell>,
    free: &mut Option<NodeId>,
    spare: usize,
    count: usize,
) -> Result<Vec<NodeId>, AllocError>
    requires list { HasSpare cells.old.items free.old }
    requires spare { (h : HasSpare cells.old.items free.old) → spare ≡ length h.spare }
    ensures ok { (h : HasSpare cells.old.items free.old) → IfOk result (λ numbers.
        AreTaken cells.old.items cells.new.items h.spare free.new numbers.items count) }
    ensures err_cells { OnErr result (cells.new.items ≡ cells.old.items) }
    ensures err_free { OnErr result (free.new ≡ free.old) }
{
    let mut numbers = Vec::new(*cells.allocator());
    numbers.try_reserve(count)?;
    cells.try_reserve(count.saturating_sub(spare))?;
    'taken: for _taken in 0..count {
        let number = take_number(cells, free);
        if let Err(_) = numbers.push(number) {
            unreachable!()
        }
    }
    Ok(numbers)
}

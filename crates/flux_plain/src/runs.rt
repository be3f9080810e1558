// Nodes that move from the end of one vector to the end of another, and room for them.
ghost use Rattle.std.specs.Prelude.{◌≡◌, ◌+◌, ◌<◌, ◌^◌, ◌≤◌, length, OnOk};
ghost use Rattle.std.specs.Vec.{vec_capacity};
ghost use Rattle.flux_plain.specs.Layout.{HasMoved};

use flux_forest::Node;
use std::alloc::AllocError;

// The last nodes of one vector go to the end of another, the last one first.
pub(crate) fn move_nodes(from: &mut Vec<Node>, to: &mut Vec<Node>, count: usize)
    requires enough { count ≤ length from.old.items }
    requires room { length to.old.items + count ≤ vec_capacity to.old }
    ensures moved { HasMoved from.old.items to.old.items from.new.items to.new.items count }
    ensures from_room { vec_capacity from.old ≤ vec_capacity from.new }
    ensures to_room { vec_capacity to.old ≤ vec_capacity to.new }
{
    for _ in 0..count {
        if let Some(node) = from.pop() {
            if let Err(_) = to.push(node) {
                unreachable!()
            }
        }
    }
}

// Room in both vectors for the nodes of both, and for more.
pub(crate) fn make_room(
    left: &mut Vec<Node>,
    right: &mut Vec<Node>,
    more: usize,
) -> Result<(), AllocError>
    requires { more < 2 ^ 63 }
    ensures left { left.new.items ≡ left.old.items }
    ensures right { right.new.items ≡ right.old.items }
    ensures left_room { vec_capacity left.old ≤ vec_capacity left.new }
    ensures right_room { vec_capacity right.old ≤ vec_capacity right.new }
    ensures ok_left { OnOk result
        (length left.new.items + length right.new.items + more ≤ vec_capacity left.new) }
    ensures ok_right { OnOk result
        (length left.new.items + length right.new.items + more ≤ vec_capacity right.new) }
{
    left.try_reserve(right.len() + more)?;
    right.try_reserve(left.len() + more)?;
    Ok(())
}

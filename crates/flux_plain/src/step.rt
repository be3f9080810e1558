// What leads back to what stood in a focus before.

/// A step back. `start` is where the focus began among the nodes on the left, `count` how many
/// nodes on the right come back into it.
#[derive(Clone, Copy)]
pub enum Step {
    Down { start: usize },
    Before { count: usize },
    After { start: usize },
    Each { start: usize, count: usize },
}

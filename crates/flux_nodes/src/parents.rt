// The parents of the trees of a run.
ghost use Rattle.flux_nodes.specs.Laid.{RunLaid, IsUnder};

use crate::cell::{Cell, NodeId, next_of, put_parent};
use crate::run::Run;

// Puts the run's trees under a parent.
pub(crate) fn put_parents(cells: &mut [Cell], run: Run, parent: Option<NodeId>)
    requires { RunLaid cells.old run }
    ensures { (r : RunLaid cells.old run) → IsUnder cells.old cells.new run parent r }
{
    let mut at = run.first;
    'trees: for _step in 0..cells.len() {
        put_parent(cells, at, parent);
        if at.0 == run.last.0 {
            return;
        }
        match next_of(cells, at) {
            Some(next) => at = next,
            None => return,
        }
    }
}

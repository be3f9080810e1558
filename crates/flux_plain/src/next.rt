// The next of several trees that are treated one by one.
ghost use Rattle.std.specs.Prelude.{◌≡◌, ℕ, List};
ghost use Rattle.flux_trees.specs.Hedge.{Plain, size, first};
ghost use Rattle.flux_plain.specs.declared.step.Step.{Step};
ghost use Rattle.flux_plain.specs.Next.{StandFirst, BringsBack, TakesNext};

use crate::step::Step;
use flux_forest::Node;

// How many nodes the first tree on the right has, of those with so many nodes in all.
fn first_size(right: &[Node], count: usize) -> usize
    requires { (rest : Plain) × (count ≡ size rest) × StandFirst rest right.now }
    ensures { (rest : Plain) → count ≡ size rest → StandFirst rest right.now →
        result ≡ size (first rest) }
{
    if count == 0 {
        return 0;
    }
    right[right.len() - 1].size
}

// Takes the next tree from those that the last step brings back, and answers how many nodes it
// has: none where no tree is left.
pub(crate) fn take_next(steps: &mut Vec<Step>, right: &[Node]) -> usize
    requires { (rest : Plain) × (outer : List Step) × (start : ℕ)
        × StandFirst rest right.now × BringsBack rest steps.old.items outer start }
    ensures { TakesNext right.now steps.old.items steps.new.items result }
{
    if let Some(Step::Each { start, count }) = steps.pop() {
        let size = first_size(right, count);
        let count = count - size;
        if let Err(_) = steps.push(Step::Each { start, count }) {
            unreachable!()
        }
        return size;
    }
    0
}

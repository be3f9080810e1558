// What a run of nodes looks like.
ghost use Rattle.std.specs.Prelude.{◌≡◌};
ghost use Rattle.flux_forest.specs.Flat.{hedge_of, IsFlat};
ghost use Rattle.flux_editor.specs.Looks.{look_of};

use flux_atom::kind;
use flux_editor::Look;
use flux_forest::{Item, Node};

// What the trees of these nodes are, if they are no more than one.
pub(crate) fn look_at(nodes: &[Node]) -> Look
    requires { IsFlat nodes.now }
    ensures { result ≡ look_of (hedge_of nodes.now) }
{
    match nodes {
        [] => Look::Nothing,
        [node, ..] => {
            if node.size < nodes.len() {
                return Look::Many;
            }
            match &node.item {
                Item::Element(name) => Look::Elem(*name),
                Item::Leaf(atom) => Look::Atom(kind(atom)),
            }
        }
    }
}

// The pairs of types that are known.
ghost use Rattle.std.specs.Prelude.{◌≡◌, ◌↔◌, ◌++◌, ◌∷◌, [], map, IsTrue, OnOk, OnErr, Contains};
ghost use Rattle.flux_types.specs.Read.{ty_of};
ghost use Rattle.flux_goals.specs.Known.{pairs_of, pair_of};

use flux_auto::is_same;
use flux_types::{Ty, copy_of};
use std::alloc::{AllocError, Global};

// Types of which the first is included in the second.
#[derive(Drop)]
pub(crate) struct Pair {
    pub(crate) left: Ty,
    pub(crate) right: Ty,
}

fn is_pair(pair: &Pair, left: &Ty, right: &Ty) -> bool
    ensures { IsTrue result ↔ (pair_of pair.now ≡ (ty_of left.now, ty_of right.now)) }
{
    is_same(&pair.left, left) && is_same(&pair.right, right)
}

fn is_among(pairs: &[Pair], left: &Ty, right: &Ty) -> bool
    ensures { IsTrue result ↔ Contains (map pair_of pairs.now) (ty_of left.now, ty_of right.now) }
{
    for index in 0..pairs.len() {
        if is_pair(&pairs[index], left, right) {
            return true;
        }
    }
    false
}

// Whether the pair of the types is known.
pub(crate) fn is_known(pairs: &Option<Vec<Pair>>, left: &Ty, right: &Ty) -> bool
    ensures { IsTrue result ↔ Contains (pairs_of pairs.now) (ty_of left.now, ty_of right.now) }
{
    match pairs {
        None => false,
        Some(pairs) => is_among(pairs, left, right),
    }
}

fn push(alloc: Global, pairs: &mut Option<Vec<Pair>>, pair: Pair) -> Result<(), AllocError>
    ensures ok { OnOk result
        (pairs_of pairs.new ≡ pairs_of pairs.old ++ pair_of pair ∷ []) }
    ensures err { OnErr result (pairs_of pairs.new ≡ pairs_of pairs.old) }
{
    match pairs {
        Some(pairs) => {
            pairs.push(pair)?;
        }
        None => *pairs = Some(vec![in alloc; pair]?),
    }
    Ok(())
}

// Adds the pair of the types.
pub(crate) fn keep(
    alloc: Global,
    pairs: &mut Option<Vec<Pair>>,
    left: &Ty,
    right: &Ty,
) -> Result<(), AllocError>
    ensures ok { OnOk result (pairs_of pairs.new
        ≡ pairs_of pairs.old ++ (ty_of left.now, ty_of right.now) ∷ []) }
    ensures err { OnErr result (pairs_of pairs.new ≡ pairs_of pairs.old) }
{
    let left = copy_of(alloc, left)?;
    let right = copy_of(alloc, right)?;
    push(alloc, pairs, Pair { left, right })
}

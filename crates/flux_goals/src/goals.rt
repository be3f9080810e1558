// Inclusion of types by goals.
ghost use Rattle.std.specs.Prelude.{◌≡◌, [], IfOk};
ghost use Rattle.flux_schema.specs.Definitions.{IsKnown};
ghost use Rattle.flux_schema.specs.Labels.{Lacks, BodiesLack};
ghost use Rattle.flux_types.specs.Read.{ty_of};
ghost use Rattle.flux_goals.specs.Known.{IsAnswer};

use crate::goal::Goal;
use crate::pairs::{Pair, is_known, keep};
use crate::search::decide;
use crate::table::begin_table;
use flux_atom::Name;
use flux_auto::{Auto, build};
use flux_forest::Forest;
use flux_types::{Decider, Defs, Ty, Verdict};
use std::alloc::{AllocError, Global};
use std::marker::Model;

/// Decides inclusion by goals: that each forest of one state of an automaton is one of others'
/// states. A goal is answered by the first tree that a member can begin with. It remembers each
/// pair of types that it has answered with yes.
#[derive(Drop)]
pub struct Goals<'d> {
    defs: &'d Defs,
    other: Name,
    // none before the first is kept
    pairs: Option<Vec<Pair>>,
}

impl<'d> Model for Goals<'d> {
    ghost use Rattle.flux_goals.specs.Known.{Known, known_code, pairs_of, IsKept};

    ghost Value = { Known };

    ghost coded = { known_code };

    ghost view = { λ g.
        record { definitions = g.defs.now; other = g.other; pairs = pairs_of g.pairs } };

    ghost invariant = { λ g. IsKept g.defs.now g.other (pairs_of g.pairs) };
}

// A forest against the inclusion of the left type in the right one, over an automaton of both.
fn against(
    alloc: Global,
    defs: &Defs,
    other: Name,
    left: &Ty,
    right: &Ty,
) -> Result<Option<Forest>, AllocError>
    requires left_known { IsKnown defs.now (ty_of left.now) }
    requires right_known { IsKnown defs.now (ty_of right.now) }
    requires bodies { BodiesLack other defs.now }
    requires left_lacks { Lacks other (ty_of left.now) }
    requires right_lacks { Lacks other (ty_of right.now) }
    ensures { IfOk result (IsAnswer defs.now other (ty_of left.now) (ty_of right.now)) }
{
    let mut auto = Auto::new(alloc, defs, other)?;
    let left = auto.add(left)?;
    let right = auto.add(right)?;
    // each label of its edges stands in the definitions or in one of the types
    let _states = auto.states();
    let left = auto.state(left);
    let right = vec![in alloc; auto.state(right)]?;
    let mut table = begin_table(alloc);
    match decide(alloc, &auto, other, &mut table, Goal { left, right })? {
        None => Ok(None),
        Some(place) => Ok(Some(build(alloc, &table.shown, place as u64)?)),
    }
}

impl<'d> Goals<'d> {
    /// A decider under the definitions, which knows no pair. The label `other`, which stands in
    /// none of them and in no type that it is asked for, stands in its forests for all labels that
    /// no type names.
    pub fn new(defs: &'d Defs, other: Name) -> Goals<'d>
        requires { BodiesLack other defs.now }
        ensures definitions { result.definitions ≡ defs.now }
        ensures other { result.other ≡ other }
        ensures none { result.pairs ≡ [] }
    {
        Goals {
            defs,
            other,
            pairs: None,
        }
    }
}

impl<'d> Decider for Goals<'d> {
    ghost use Rattle.std.specs.Prelude.{true};

    ghost definitions = { λ g. g.definitions };

    ghost unnamed = { λ g. g.other };

    ghost keeps = { λ _. true };

    ghost known = { λ g. g.pairs };

    fn other(&self) -> Name {
        self.other
    }

    fn defs(&self) -> &Defs {
        self.defs.as_kept()
    }

    fn included(&mut self, alloc: Global, left: &Ty, right: &Ty) -> Result<Verdict, AllocError> {
        if is_known(&self.pairs, left, right) {
            return Ok(Verdict::Yes);
        }
        match against(alloc, self.defs, self.other, left, right)? {
            None => {
                keep(alloc, &mut self.pairs, left, right)?;
                Ok(Verdict::Yes)
            }
            Some(forest) => Ok(Verdict::No(forest)),
        }
    }
}

// Inclusion of types by the profiles of forests.
ghost use Rattle.std.specs.Prelude.{◌≡◌};
ghost use Rattle.flux_schema.specs.Labels.{BodiesLack};

use crate::search::search;
use flux_atom::Name;
use flux_auto::Auto;
use flux_types::{Decider, Defs, Ty, Verdict};
use std::alloc::{AllocError, Global};
use std::marker::Model;

/// Decides inclusion by an automaton of both types: it finds the profiles that forests have, until
/// one has the left type's state and lacks the right one's, or none is new. The profile of a forest
/// is the set of the states that take it. Types that have one state, as equal ones do, take no
/// search. It remembers nothing. The time may be exponential in the sizes of the types, and the
/// forest that is answered may be exponentially large.
#[derive(Drop)]
pub struct Profiles<'d> {
    defs: &'d Defs,
    other: Name,
}

impl<'d> Model for Profiles<'d> {
    ghost use Rattle.flux_schema.specs.Labels.{BodiesLack};
    ghost use Rattle.flux_subtype.specs.Setting.{Setting, setting_code};

    ghost Value = { Setting };

    ghost coded = { setting_code };

    ghost view = { λ p. record { definitions = p.defs.now; other = p.other } };

    ghost invariant = { λ p. BodiesLack p.other p.defs.now };
}

impl<'d> Profiles<'d> {
    /// A decider under the definitions. The label `other`, which stands in none of them and in no
    /// type that it is asked for, stands in its forests for all labels that no type names.
    pub fn new(defs: &'d Defs, other: Name) -> Profiles<'d>
        requires { BodiesLack other defs.now }
        ensures definitions { result.definitions ≡ defs.now }
        ensures other { result.other ≡ other }
    {
        Profiles { defs, other }
    }
}

impl<'d> Decider for Profiles<'d> {
    ghost use Rattle.std.specs.Prelude.{false, []};

    ghost definitions = { λ p. p.definitions };

    ghost unnamed = { λ p. p.other };

    ghost keeps = { λ _. false };

    ghost known = { λ _. [] };

    fn other(&self) -> Name {
        self.other
    }

    fn defs(&self) -> &Defs {
        self.defs.as_kept()
    }

    fn included(&mut self, alloc: Global, left: &Ty, right: &Ty) -> Result<Verdict, AllocError> {
        let mut auto = Auto::new(alloc, self.defs, self.other)?;
        let left = auto.add(left)?;
        let right = auto.add(right)?;
        // each label of its edges stands in the definitions or in one of the types
        let _states = auto.states();
        let (left, right) = (auto.state(left), auto.state(right));
        // equal types have one state
        if left == right {
            return Ok(Verdict::Yes);
        }
        let found = search(alloc, &auto, self.other, left, right)?;
        match found {
            None => Ok(Verdict::Yes),
            Some(forest) => Ok(Verdict::No(forest)),
        }
    }
}

// What decides whether a type is included in another.
ghost use Rattle.std.specs.Prelude.{◌≡◌, ◌==◌, ℕ, Bool, List, IsTrue, All, Contains, Ok, IfOk, IsOkAnd};
ghost use Rattle.flux_schema.specs.Ty.{IsWithinLimits};
ghost use Rattle.flux_schema.specs.Definitions.{Definitions, IsKnown};
ghost use Rattle.flux_schema.specs.Labels.{Lacks, BodiesLack};
ghost use Rattle.flux_types.specs.Read.{ty_of};
ghost use Rattle.flux_types.specs.Kept.{AreKept};
ghost use Rattle.flux_types.specs.Verdicts.{TypePair, IsKnownPair, IsVerdict, IsYes};

use crate::{Defs, Ty};
use flux_atom::Name;
use flux_forest::Forest;
use std::alloc::{AllocError, Global};

/// Whether a type is included in another.
#[derive(Drop)]
pub enum Verdict {
    /// Each member of the left type is a member of the right one.
    Yes,
    /// It isn't: a whole forest that is a member of the left type and not of the right one. Each
    /// of its labels is `other` of the decider, or stands in a definition or in one of the types.
    /// Which such forest it is, is free.
    No(Forest),
}

/// Decides inclusion of types under definitions that it has. It may remember what it was asked:
/// a pair of types that it knows is answered without want of memory.
pub trait Decider {
    /// The definitions of the names in the types that it is asked for.
    ghost definitions: { Self → Definitions };

    /// A label that stands in none of them.
    ghost unnamed: { Self → ℕ };

    /// Whether it remembers each inclusion that it has found.
    ghost keeps: { Self → Bool };

    /// The pairs of which it remembers that the first is included in the second.
    ghost known: { Self → List TypePair };

    /// A label that stands in none of the definitions, and in no type that it is asked for. It
    /// stands in a forest for all labels that no type names.
    fn other(&self) -> Name
        ensures value { result ≡ unnamed self.now }
        ensures lacks { BodiesLack (unnamed self.now) (definitions self.now) };

    /// The definitions, which are good. What it remembers is of types that name these alone.
    fn defs(&self) -> &Defs
        ensures value { result.now ≡ definitions self.now }
        ensures good { AreKept (definitions self.now) }
        ensures known { All (IsKnownPair (definitions self.now)) (known self.now) };

    /// Whether each member of the left type is a member of the right one.
    fn included(&mut self, alloc: Global, left: &Ty, right: &Ty) -> Result<Verdict, AllocError>
        requires left_known { IsKnown (definitions self.old) (ty_of left.now) }
        requires right_known { IsKnown (definitions self.old) (ty_of right.now) }
        requires left_limits { IsWithinLimits (ty_of left.now) }
        requires right_limits { IsWithinLimits (ty_of right.now) }
        requires left_lacks { Lacks (unnamed self.old) (ty_of left.now) }
        requires right_lacks { Lacks (unnamed self.old) (ty_of right.now) }
        ensures verdict { IfOk result (IsVerdict (definitions self.old) (unnamed self.old)
            (ty_of left.now) (ty_of right.now)) }
        ensures remembered { Contains (known self.old) (ty_of left.now, ty_of right.now) →
            IsOkAnd result IsYes }
        ensures kept { IsTrue (keeps self.old) → IsOkAnd result IsYes →
            Contains (known self.new) (ty_of left.now, ty_of right.now) }
        ensures still { (p : TypePair) → Contains (known self.old) p → Contains (known self.new) p }
        ensures same_definitions { definitions self.new ≡ definitions self.old }
        ensures same_other { unnamed self.new ≡ unnamed self.old }
        ensures same_keeps { keeps self.new ≡ keeps self.old };
}

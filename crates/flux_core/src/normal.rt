// Scripts in the core language.
ghost use Rattle.std.proofs.Props.{props};
ghost use Rattle.flux_core.specs.Statements.{normal_from};
ghost use Rattle.flux_core.specs.WellFormed.{IsWellFormed};
ghost use Rattle.flux_core.specs.OneProof.{NamesBelow-prop, CallsFit-prop};

use crate::{Core, Declared, Procs};
use flux_types::{Defs, Ty};

/// A script in the core language: what its names of types stand for, its procedures, the type of
/// its documents, the type that it declares for its results, if there is one, and its main
/// statement. Each of its types is known under the definitions and within the limits, and each of
/// its calls has an argument for each parameter of the procedure that it names.
#[derive(Drop)]
pub struct Normal {
    defs: Defs,
    procs: Procs,
    input: Ty,
    declared: Option<Declared>,
    main: Core,
    pub ghost kept: { IsWellFormed
        (normal_from defs procs input declared main) } by { Prim.hlevel
            (props, NamesBelow-prop, CallsFit-prop) },
}

impl Normal {
    ghost use Rattle.std.specs.Prelude.{◌≡◌};
    ghost use Rattle.std.specs.Option.{option_map, option_copied};
    ghost use Rattle.flux_types.specs.Read.{ty_of};
    ghost use Rattle.flux_core.specs.Statements.{core_of, procs_of, declared_of};
    ghost use Rattle.flux_core.specs.Normals.{normal_of};

    pub fn new(
        defs: Defs,
        procs: Procs,
        input: Ty,
        declared: Option<Declared>,
        main: Core,
    ) -> Normal
        requires { IsWellFormed (normal_from defs procs input declared main) }
        ensures { normal_of result ≡ normal_from defs procs input declared main }
    {
        Normal {
            defs,
            procs,
            input,
            declared,
            main,
        }
    }

    /// This normal form, with what it keeps: for one who gets it from a caller.
    pub fn as_kept(&self) -> &Normal
        ensures same { normal_of result.now ≡ normal_of self.now }
        ensures kept { IsWellFormed (normal_of self.now) }
    {
        self
    }

    /// What its names of types stand for.
    pub fn defs(&self) -> &Defs
        ensures { result.now ≡ (normal_of self.now).defs }
    {
        &self.defs
    }

    pub fn procs(&self) -> &Procs
        ensures { procs_of result.now ≡ (normal_of self.now).procs }
    {
        &self.procs
    }

    /// The type of its documents.
    pub fn input(&self) -> &Ty
        ensures { ty_of result.now ≡ (normal_of self.now).input }
    {
        &self.input
    }

    /// The type that it declares for its results, if it declares one.
    pub fn declared(&self) -> Option<&Declared>
        ensures { option_map declared_of (option_copied result) ≡ (normal_of self.now).declared }
    {
        self.declared.as_ref()
    }

    pub fn main(&self) -> &Core
        ensures { core_of result.now ≡ (normal_of self.now).main }
    {
        &self.main
    }
}

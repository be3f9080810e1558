// Definitions that are being made.
ghost use Rattle.std.specs.Prelude.{◌≡◌, ◌↔◌, ◌+◌, ◌-◌, ◌^◌, ◌<◌, ◌++◌, ◌∷◌, ℕ, List, [], Some, None, length, map, slice_get, slice_set, IfOk, IfErr, OnOk, OnErr, IfSome, IfNone};
ghost use Rattle.flux_schema.specs.Ty.{NamesBelow, IsWithinLimits};
ghost use Rattle.flux_schema.specs.Definitions.{Declared, declared_names, as_declared, with_body, IsGood, LacksBody, IsFirst};
ghost use Rattle.flux_types.specs.Read.{ty_of};
ghost use Rattle.flux_types.specs.Kept.{declarations_of, definitions_of, IsDraft};
ghost use Rattle.flux_types.specs.Faults.{DeclareFault, CloseFault};

use crate::Ty;
use crate::defs::{Defs, Kept};
use crate::indices::{index_of, make_room, set_index};
use crate::search::first_unguarded;
use flux_atom::Name;
use std::alloc::{AllocError, Global};
use std::marker::Model;

/// Why a name can't be declared, or a draft can't be closed. The index is that of the name at
/// fault.
#[derive(Debug, Drop)]
pub enum DefFault {
    /// The name was declared before.
    Duplicate { index: u32 },
    /// The name has no body.
    Unknown { index: u32 },
    /// The name reaches itself without passing an element.
    Unguarded { index: u32 },
    Memory(AllocError),
}

impl From<AllocError> for DefFault {
    ghost use Rattle.std.specs.Prelude.{◌≡◌};
    ghost use Rattle.flux_types.specs.declared.draft.DefFault.TheVariants.{Memory};

    ghost from_gives = { λ error fault. fault ≡ Memory error };

    fn from(error: AllocError) -> DefFault {
        DefFault::Memory(error)
    }
}

// A name that is declared, and its body where it has one.
#[derive(Drop)]
struct Entry {
    name: Name,
    body: Option<Ty>,
}

/// Names that are declared, each with its place as its index, and the bodies that they have so
/// far. A name is found by its number: the draft keeps eight bytes for each number up to the
/// greatest that was declared.
#[derive(Drop)]
pub struct Draft {
    entries: Vec<Entry>,
    // the index of each name, at its number
    indices: Vec<Option<u32>>,
}

impl Model for Draft {
    ghost use Rattle.flux_schema.specs.Definitions.{Declarations};
    ghost use Rattle.flux_schema.specs.DefinitionCodes.{declarations_code};

    ghost Value = { Declarations };

    ghost coded = { declarations_code };

    ghost use Rattle.flux_schema.specs.Definitions.{declared_names};
    ghost use Rattle.flux_types.specs.Kept.{declarations_of, IsDraft};
    ghost use Rattle.flux_types.specs.Indices.{Locates};

    ghost view = { λ d. declarations_of d.entries.items };

    ghost invariant = { λ d. IsDraft (declarations_of d.entries.items)
        × Locates d.indices.items (declared_names (declarations_of d.entries.items)) };
}

impl Draft {
    /// No names. It takes no memory.
    pub fn new(alloc: Global) -> Draft
        ensures { result ≡ [] }
    {
        Draft {
            entries: Vec::new(alloc),
            indices: Vec::new(alloc),
        }
    }

    /// Declares a name, which gets the next index.
    pub fn declare(&mut self, name: Name) -> Result<u32, DefFault>
        requires { length self.old < 2 ^ 32 - 1 }

        ensures index { IfOk result (λ index. index ≡ length self.old) }
        ensures ok { OnOk result (self.new ≡ self.old ++ record { name = name; body = None } ∷ []) }
        ensures fresh { OnOk result
            ((x : ℕ) → ¬ (slice_get (declared_names self.old) x ≡ Some name)) }
        ensures fault { IfErr result (DeclareFault self.old name) }
        ensures err { OnErr result (self.new ≡ self.old) }
    {
        if let Some(index) = index_of(&self.indices, name) {
            return Err(DefFault::Duplicate { index });
        }
        make_room(&mut self.indices, name)?;
        let index = self.entries.len() as u32;
        push_name(&mut self.entries, name)?;
        set_index(&mut self.indices, name, index);
        Ok(index)
    }

    /// The index of a name.
    pub fn lookup(&self, name: Name) -> Option<u32>
        ensures { (x : ℕ) →
            (result ≡ Some x) ↔ (slice_get (declared_names self.now) x ≡ Some name) }
    {
        index_of(&self.indices, name)
    }

    /// Gives a name its body, in place of one that it has. The body is dropped where this fails.
    pub fn define(&mut self, index: u32, body: Ty) -> Result<(), AllocError>
        requires declared { index < length self.old }
        requires known { NamesBelow (length self.old) (ty_of body) }
        requires limits { IsWithinLimits (ty_of body) }

        ensures ok { OnOk result (self.new ≡ with_body self.old index (ty_of body)) }
        ensures err { OnErr result (self.new ≡ self.old) }
    {
        put_body(&mut self.entries, index, body);
        Ok(())
    }

    /// The definitions, where these are good. The draft is given up on every answer.
    pub fn close(self) -> Result<Defs, DefFault>
        ensures ok { IfOk result (λ defs. map as_declared defs ≡ self) }
        ensures good { IfOk result IsGood }
        ensures fault { IfErr result (CloseFault self) }
    {
        let alloc = *self.entries.allocator();
        if let Some(index) = first_unknown(&self.entries) {
            return Err(DefFault::Unknown { index });
        }
        let kept = with_bodies(alloc, self.entries)?;
        match first_unguarded(alloc, &kept)? {
            Some(index) => Err(DefFault::Unguarded { index }),
            None => Ok(Defs::over(kept)),
        }
    }
}

fn push_name(entries: &mut Vec<Entry>, name: Name) -> Result<(), AllocError>
    ensures ok { OnOk result (declarations_of entries.new.items ≡
        declarations_of entries.old.items ++ record { name = name; body = None } ∷ []) }
    ensures err { OnErr result (entries.new.items ≡ entries.old.items) }
{
    entries.push(Entry { name, body: None })?;
    Ok(())
}

fn put_body(entries: &mut [Entry], index: u32, body: Ty)
    requires { index < length entries.old }
    ensures { declarations_of entries.new
        ≡ with_body (declarations_of entries.old) index (ty_of body) }
{
    entries[index as usize].body = Some(body);
}

fn first_unknown(entries: &[Entry]) -> Option<u32>
    requires { length entries.now < 2 ^ 32 }
    ensures found { IfSome result (IsFirst (LacksBody (declarations_of entries.now))) }
    ensures none { IfNone result ((x : ℕ) → ¬ (LacksBody (declarations_of entries.now) x)) }
{
    for (index, entry) in entries.iter().enumerate() {
        if entry.body.is_none() {
            return Some(index as u32);
        }
    }
    None
}

fn with_bodies(alloc: Global, entries: Vec<Entry>) -> Result<Vec<Kept>, AllocError>
    requires { (x : ℕ) → ¬ (LacksBody (declarations_of entries.items) x) }
    ensures { IfOk result (λ kept.
        map as_declared (definitions_of kept.items) ≡ declarations_of entries.items) }
{
    let mut kept = Vec::new(alloc);
    for entry in entries {
        let Entry { name, body } = entry;
        if let Some(body) = body {
            kept.push(Kept { name, body })?;
        }
    }
    Ok(kept)
}

// Scripts, types and queries from their tokens.
ghost use Rattle.std.specs.Prelude.{◌≡◌, ◌+◌, ◌-◌, ◌^◌, ◌<◌, ◌≤◌, ◌++◌, ℕ, List, length, IfOk, IfErr};
ghost use Rattle.flux_atom.specs.Names.{IsTable};
ghost use Rattle.flux_grammar.specs.Grammar.{type, expr, script};
ghost use Rattle.flux_grammar.specs.Readings.{start_of};
ghost use Rattle.flux_grammar.specs.Tokens.{AreTokens};
ghost use Rattle.flux_syntax.specs.At.{at};
ghost use Rattle.flux_syntax.specs.Learnt.{learnt};
ghost use Rattle.flux_syntax.specs.Parses.{Ran};
ghost use Rattle.flux_syntax.specs.Trees.{IsTree, IsSynFault, Learns};
ghost use Rattle.flux_syntax.specs.declared.trees.SynFault.TheVariants.{Syntax, Memory};

use crate::pieces::pieces;
use crate::reader::{Fault, Reader};
use flux_atom::Names;
use flux_grammar::{Expr, Script, TypeText};
use flux_lex::Tokens;
use std::alloc::{AllocError, Global};

/// Why tokens have no reading.
#[derive(Debug, Drop)]
pub enum SynFault {
    /// The tokens have no reading. The place is the first byte of the first token that doesn't
    /// fit, where levels count as well, or the length of the text.
    Syntax { place: u32 },
    /// There is not enough memory, whatever the tokens are.
    Memory(AllocError),
}

impl From<AllocError> for SynFault {
    ghost from_gives = { λ error fault. fault ≡ Memory error };

    fn from(error: AllocError) -> SynFault {
        SynFault::Memory(error)
    }
}

/// The tree of a script's tokens. The table learns the names that the script writes, in the order
/// of the text, whether it has a reading or not.
pub fn parse(
    alloc: Global,
    bytes: &[u8],
    tokens: &Tokens,
    names: &mut Names,
) -> Result<Script, SynFault>
    requires tokens { AreTokens bytes.now tokens.now }
    requires room { length names.old + length bytes.now < 2 ^ 32 - 1 }
    ensures ok { IfOk result (IsTree script names.new bytes.now tokens.now) }
    ensures fault { IfErr result (IsSynFault script names.new bytes.now tokens.now) }
    ensures learnt { Learns (learnt bytes.now tokens.now names.old) names.new result }
    ensures grown { (more : List (List ℕ)) × (names.new ≡ names.old ++ more) }
    ensures room { length names.new ≤ length names.old + length bytes.now }
    ensures table { IsTable names.new }
{
    let pieces = pieces(alloc, bytes, tokens.as_slice(), names)?;
    let mut reader = Reader {
        alloc,
        left: pieces.as_slice(),
        end: 0,
    };
    match reader.whole_script() {
        Ok(tree) => Ok(tree),
        Err(Fault::Unfit) => Err(reader.misfit(bytes.len())),
        Err(Fault::Memory(error)) => Err(SynFault::Memory(error)),
    }
}

/// The tree of a type's tokens, as `parse` reads those of a script.
pub fn parse_type(
    alloc: Global,
    bytes: &[u8],
    tokens: &Tokens,
    names: &mut Names,
) -> Result<TypeText, SynFault>
    requires tokens { AreTokens bytes.now tokens.now }
    requires room { length names.old + length bytes.now < 2 ^ 32 - 1 }
    ensures ok { IfOk result (IsTree (type 0) names.new bytes.now tokens.now) }
    ensures fault { IfErr result (IsSynFault (type 0) names.new bytes.now tokens.now) }
    ensures learnt { Learns (learnt bytes.now tokens.now names.old) names.new result }
    ensures grown { (more : List (List ℕ)) × (names.new ≡ names.old ++ more) }
    ensures room { length names.new ≤ length names.old + length bytes.now }
    ensures table { IsTable names.new }
{
    let pieces = pieces(alloc, bytes, tokens.as_slice(), names)?;
    let mut reader = Reader {
        alloc,
        left: pieces.as_slice(),
        end: 0,
    };
    match reader.whole_type() {
        Ok(tree) => Ok(tree),
        Err(Fault::Unfit) => Err(reader.misfit(bytes.len())),
        Err(Fault::Memory(error)) => Err(SynFault::Memory(error)),
    }
}

/// The tree of a query's tokens, as `parse` reads those of a script.
pub fn parse_query(
    alloc: Global,
    bytes: &[u8],
    tokens: &Tokens,
    names: &mut Names,
) -> Result<Expr, SynFault>
    requires tokens { AreTokens bytes.now tokens.now }
    requires room { length names.old + length bytes.now < 2 ^ 32 - 1 }
    ensures ok { IfOk result (IsTree (expr 0) names.new bytes.now tokens.now) }
    ensures fault { IfErr result (IsSynFault (expr 0) names.new bytes.now tokens.now) }
    ensures learnt { Learns (learnt bytes.now tokens.now names.old) names.new result }
    ensures grown { (more : List (List ℕ)) × (names.new ≡ names.old ++ more) }
    ensures room { length names.new ≤ length names.old + length bytes.now }
    ensures table { IsTable names.new }
{
    let pieces = pieces(alloc, bytes, tokens.as_slice(), names)?;
    let mut reader = Reader {
        alloc,
        left: pieces.as_slice(),
        end: 0,
    };
    match reader.whole_query() {
        Ok(tree) => Ok(tree),
        Err(Fault::Unfit) => Err(reader.misfit(bytes.len())),
        Err(Fault::Memory(error)) => Err(SynFault::Memory(error)),
    }
}

impl<'a> Reader<'a> {
    // Reads a script behind which nothing stands.
    fn whole_script(&mut self) -> Result<Script, Fault>
        ensures { Ran script (at self.old) (at self.new) result }
    {
        let tree = self.script()?;
        match self.left {
            [] => Ok(tree),
            [_, ..] => Err(Fault::Unfit),
        }
    }

    fn whole_type(&mut self) -> Result<TypeText, Fault>
        ensures { Ran (type 0) (at self.old) (at self.new) result }
    {
        let tree = self.type_text(0)?;
        match self.left {
            [] => Ok(tree),
            [_, ..] => Err(Fault::Unfit),
        }
    }

    fn whole_query(&mut self) -> Result<Expr, Fault>
        ensures { Ran (expr 0) (at self.old) (at self.new) result }
    {
        let tree = self.query(0)?;
        match self.left {
            [] => Ok(tree),
            [_, ..] => Err(Fault::Unfit),
        }
    }

    // The fault at the next piece, or at the end of a text of the size.
    fn misfit(&self, size: usize) -> SynFault
        requires { size < 2 ^ 32 }
        ensures { result ≡ Syntax (start_of self.now.left.now size) }
    {
        let place = match self.left {
            [] => size as u32,
            [next, ..] => next.span.from,
        };
        SynFault::Syntax { place }
    }
}

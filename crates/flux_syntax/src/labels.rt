// Labels, names of types, variables and tests.
ghost use Rattle.std.specs.Prelude.{◌≡◌, ◌≤◌, ◌<◌, Some, IsSome, length};
ghost use Rattle.flux_grammar.specs.Grammar.{label, tname, var, test, other, tested};
ghost use Rattle.flux_grammar.specs.States.{head};
ghost use Rattle.flux_syntax.specs.At.{at, next_label, next_tname, next_child, next_plain, next_typed};
ghost use Rattle.flux_syntax.specs.Parses.{Parses};

use crate::reader::{Fault, Reader};
use flux_atom::Name;
use flux_calculus::Span;
use flux_grammar::{Lexeme, Sign, Soft, TestText};

impl<'a> Reader<'a> {
    // The name, where the next piece is a label.
    fn next_label(&self) -> Option<Name>
        ensures name { result ≡ next_label (head (at self.now)) }
        ensures more { IsSome result → 0 < length self.now.left.now }
    {
        match self.left {
            [] => None,
            [next, ..] => name_of_label(&next.lexeme),
        }
    }

    // The name, where the next piece can be the name of a type.
    fn next_type_name(&self) -> Option<Name>
        ensures name { result ≡ next_tname (head (at self.now)) }
        ensures more { IsSome result → 0 < length self.now.left.now }
    {
        match self.left {
            [] => None,
            [next, ..] => name_of_type(&next.lexeme),
        }
    }

    // The name, where the next piece is the word `child`.
    pub(crate) fn next_child(&self) -> Option<Name>
        ensures name { result ≡ next_child (head (at self.now)) }
        ensures more { IsSome result → 0 < length self.now.left.now }
    {
        match self.left {
            [] => None,
            [next, ..] => name_of_child(&next.lexeme),
        }
    }

    // The name, where the next piece is a label whatever stands behind it.
    fn next_plain(&self) -> Option<Name>
        ensures name { result ≡ next_plain (head (at self.now)) }
        ensures more { IsSome result → 0 < length self.now.left.now }
    {
        match self.left {
            [] => None,
            [next, ..] => name_of_plain(&next.lexeme),
        }
    }

    // The test and the name, where the next piece is `string`, `bool` or `int`.
    fn next_typed(&self) -> Option<(TestText, Name)>
        ensures name { result ≡ next_typed (head (at self.now)) }
        ensures more { IsSome result → 0 < length self.now.left.now }
    {
        match self.left {
            [] => None,
            [next, ..] => typed_of(&next.lexeme),
        }
    }

    /// Reads a label.
    pub(crate) fn label(&mut self) -> Result<(Name, Span), Fault>
        ensures parses { Parses label (at self.old) (at self.new) result }
        ensures shorter { length self.new.left.now ≤ length self.old.left.now }
    {
        match self.next_label() {
            Some(name) => {
                let at = self.advance();
                Ok((name, at))
            }
            None => Err(Fault::Unfit),
        }
    }

    /// Reads the name of a type.
    pub(crate) fn type_name(&mut self) -> Result<(Name, Span), Fault>
        ensures parses { Parses tname (at self.old) (at self.new) result }
        ensures shorter { length self.new.left.now ≤ length self.old.left.now }
    {
        match self.next_type_name() {
            Some(name) => {
                let at = self.advance();
                Ok((name, at))
            }
            None => Err(Fault::Unfit),
        }
    }

    /// Reads a variable.
    pub(crate) fn var(&mut self) -> Result<(Name, Span), Fault>
        ensures parses { Parses var (at self.old) (at self.new) result }
        ensures shorter { length self.new.left.now ≤ length self.old.left.now }
    {
        match self.variable() {
            Some(name) => {
                let at = self.advance();
                Ok((name, at))
            }
            None => Err(Fault::Unfit),
        }
    }

    /// Reads a test, and where it begins.
    pub(crate) fn test(&mut self) -> Result<(TestText, u32), Fault>
        ensures parses { Parses test (at self.old) (at self.new) result }
        ensures shorter { length self.new.left.now ≤ length self.old.left.now }
    {
        match self.next_child() {
            Some(name) => {
                let from = self.advance().from;
                Ok((TestText::Label(name), from))
            }
            None => self.other_test(),
        }
    }

    /// Reads a test that isn't the word `child`, and where it begins.
    pub(crate) fn other_test(&mut self) -> Result<(TestText, u32), Fault>
        ensures parses { Parses other (at self.old) (at self.new) result }
        ensures shorter { length self.new.left.now ≤ length self.old.left.now }
    {
        if self.is_at(Sign::Star) {
            let from = self.advance().from;
            return Ok((TestText::AnyElement, from));
        }
        if let Some(name) = self.next_plain() {
            let from = self.advance().from;
            return Ok((TestText::Label(name), from));
        }
        match self.next_typed() {
            Some((typed, name)) => self.typed_test(typed, name),
            None => Err(Fault::Unfit),
        }
    }

    fn typed_test(&mut self, typed: TestText, name: Name) -> Result<(TestText, u32), Fault>
        requires word { next_typed (head (at self.old)) ≡ Some (typed, name) }
        requires more { 0 < length self.old.left.now }
        ensures parses { Parses other (at self.old) (at self.new) result }
        ensures shorter { length self.new.left.now ≤ length self.old.left.now }
    {
        let from = self.advance().from;
        let test = self.tested(name, typed)?;
        Ok((test, from))
    }

    fn tested(&mut self, name: Name, typed: TestText) -> Result<TestText, Fault>
        ensures parses { Parses (tested name typed) (at self.old) (at self.new) result }
        ensures shorter { length self.new.left.now ≤ length self.old.left.now }
    {
        if !self.is_at(Sign::Open) {
            return Ok(TestText::Label(name));
        }
        self.advance();
        self.take(Sign::Close)?;
        Ok(typed)
    }
}

fn name_of_label(lexeme: &Lexeme) -> Option<Name>
    ensures { result ≡ next_label (Some lexeme.now) }
{
    match lexeme {
        Lexeme::Word(name) | Lexeme::Soft(_, name) | Lexeme::Quoted(name) => Some(*name),
        Lexeme::Reserved(_) | Lexeme::Sign(_) | Lexeme::Var(_) | Lexeme::Literal(_) => None,
    }
}

fn name_of_type(lexeme: &Lexeme) -> Option<Name>
    ensures { result ≡ next_tname (Some lexeme.now) }
{
    match lexeme {
        Lexeme::Word(name) | Lexeme::Soft(Soft::ChildWord, name) => Some(*name),
        Lexeme::Soft(_, _)
        | Lexeme::Quoted(_)
        | Lexeme::Reserved(_)
        | Lexeme::Sign(_)
        | Lexeme::Var(_)
        | Lexeme::Literal(_) => None,
    }
}

fn name_of_child(lexeme: &Lexeme) -> Option<Name>
    ensures { result ≡ next_child (Some lexeme.now) }
{
    match lexeme {
        Lexeme::Soft(Soft::ChildWord, name) => Some(*name),
        Lexeme::Soft(_, _)
        | Lexeme::Word(_)
        | Lexeme::Quoted(_)
        | Lexeme::Reserved(_)
        | Lexeme::Sign(_)
        | Lexeme::Var(_)
        | Lexeme::Literal(_) => None,
    }
}

fn name_of_plain(lexeme: &Lexeme) -> Option<Name>
    ensures { result ≡ next_plain (Some lexeme.now) }
{
    match lexeme {
        Lexeme::Word(name) | Lexeme::Quoted(name) | Lexeme::Soft(Soft::AnyWord, name) => {
            Some(*name)
        }
        Lexeme::Soft(_, _)
        | Lexeme::Reserved(_)
        | Lexeme::Sign(_)
        | Lexeme::Var(_)
        | Lexeme::Literal(_) => None,
    }
}

fn typed_of(lexeme: &Lexeme) -> Option<(TestText, Name)>
    ensures { result ≡ next_typed (Some lexeme.now) }
{
    match lexeme {
        Lexeme::Soft(soft, name) => match soft {
            Soft::StringWord => Some((TestText::OfText, *name)),
            Soft::BoolWord => Some((TestText::OfBool, *name)),
            Soft::IntWord => Some((TestText::OfInt, *name)),
            Soft::ChildWord | Soft::AnyWord => None,
        },
        Lexeme::Word(_)
        | Lexeme::Quoted(_)
        | Lexeme::Reserved(_)
        | Lexeme::Sign(_)
        | Lexeme::Var(_)
        | Lexeme::Literal(_) => None,
    }
}

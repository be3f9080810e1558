// Paths.
ghost use Rattle.std.specs.Prelude.{◌≡◌, ◌≤◌, ◌<◌, Some, length};
ghost use Rattle.flux_grammar.specs.declared.lexeme.Lexeme.TheVariants.{Var};
ghost use Rattle.flux_grammar.specs.Grammar.{path, slashes, step, spot, filtered};
ghost use Rattle.flux_grammar.specs.States.{head};
ghost use Rattle.flux_syntax.specs.At.{at};
ghost use Rattle.flux_syntax.specs.Parses.{Parses};

use crate::made::made_path;
use crate::reader::{Fault, LIMIT, Reader};
use flux_atom::{Items, Name};
use flux_calculus::Span;
use flux_grammar::{Expr, Keyword, Path, Sign, Step, TestText};

impl<'a> Reader<'a> {
    /// Reads a path.
    pub(crate) fn path(&mut self, depth: u32) -> Result<Path, Fault>
        requires { depth ≤ LIMIT }
        ensures parses { Parses (path depth) (at self.old) (at self.new) result }
        ensures shorter { length self.new.left.now ≤ length self.old.left.now }
    {
        let first = self.step(depth)?;
        let rest = self.slashes(depth)?;
        made_path(self.alloc, first, rest)
    }

    fn slashes(&mut self, depth: u32) -> Result<Items<Step>, Fault>
        requires { depth ≤ LIMIT }
        ensures parses { Parses (slashes depth) (at self.old) (at self.new) result }
        ensures shorter { length self.new.left.now ≤ length self.old.left.now }
    {
        let mut all = Items::new(self.alloc);
        while self.is_at(Sign::Slash) {
            self.advance();
            let next = self.step(depth)?;
            all.push(next)?;
        }
        Ok(all)
    }

    fn step(&mut self, depth: u32) -> Result<Step, Fault>
        requires { depth ≤ LIMIT }
        ensures parses { Parses (step depth) (at self.old) (at self.new) result }
        ensures shorter { length self.new.left.now ≤ length self.old.left.now }
    {
        match self.variable() {
            Some(name) => self.bound_step(name, depth),
            None => {
                let (test, from) = self.spot()?;
                let filter = self.filtered(depth)?;
                let span = Span { from, to: self.end };
                Ok(Step {
                    var: None,
                    test,
                    filter,
                    span,
                })
            }
        }
    }

    fn bound_step(&mut self, name: Name, depth: u32) -> Result<Step, Fault>
        requires depth { depth ≤ LIMIT }
        requires var { head (at self.old) ≡ Some (Var name) }
        requires more { 0 < length self.old.left.now }
        ensures parses { Parses (step depth) (at self.old) (at self.new) result }
        ensures shorter { length self.new.left.now ≤ length self.old.left.now }
    {
        let word = self.advance();
        self.take_word(Keyword::As)?;
        let (test, _) = self.spot()?;
        let filter = self.filtered(depth)?;
        let span = Span {
            from: word.from,
            to: self.end,
        };
        Ok(Step {
            var: Some(name),
            test,
            filter,
            span,
        })
    }

    // The test of a step, or none for `.`, and where it begins.
    fn spot(&mut self) -> Result<(Option<TestText>, u32), Fault>
        ensures parses { Parses spot (at self.old) (at self.new) result }
        ensures shorter { length self.new.left.now ≤ length self.old.left.now }
    {
        if self.is_at(Sign::Dot) {
            let from = self.advance().from;
            return Ok((None, from));
        }
        let (test, from) = self.test()?;
        Ok((Some(test), from))
    }

    fn filtered(&mut self, depth: u32) -> Result<Option<Expr>, Fault>
        requires { depth ≤ LIMIT }
        ensures parses { Parses (filtered depth) (at self.old) (at self.new) result }
        ensures shorter { length self.new.left.now ≤ length self.old.left.now }
    {
        if !self.is_at(Sign::OpenSquare) {
            return Ok(None);
        }
        self.advance();
        let query = self.query(depth)?;
        self.take(Sign::CloseSquare)?;
        Ok(Some(query))
    }
}

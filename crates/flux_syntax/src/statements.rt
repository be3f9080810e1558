// Statements.
ghost use Rattle.std.specs.Prelude.{◌≡◌, ◌↔◌, ◌≤◌, ◌<◌, ◌+◌, Some, None, length, IsTrue};
ghost use Rattle.flux_grammar.specs.declared.lexeme.Keyword.TheVariants as key;
ghost use Rattle.flux_grammar.specs.declared.lexeme.Lexeme.TheVariants.{Reserved, Sign as Signed};
ghost use Rattle.flux_grammar.specs.Grammar.{stmts, stmt, guard, simple, inserting, placing, deleting, replacing, args};
ghost use Rattle.flux_grammar.specs.Spans.{stmt_span};
ghost use Rattle.flux_grammar.specs.States.{head};
ghost use Rattle.flux_syntax.specs.At.{at, IsEnding};
ghost use Rattle.flux_syntax.specs.Parses.{Parses, Gets};
ghost use Rattle.flux_syntax.specs.Steps.{path_and_value, path_and_other};

use crate::lexemes::is_sign;
use crate::made::prepended;
use crate::reader::{Fault, LIMIT, Reader};
use flux_atom::{Boxed, Items};
use flux_calculus::Span;
use flux_grammar::{Expr, Keyword, Path, Sign, Stmt};

impl<'a> Reader<'a> {
    /// Reads statements, each of which lies inside so many others.
    #[cycle(statements)]
    pub(crate) fn statements(&mut self, depth: u32) -> Result<Items<Stmt>, Fault>
        requires { depth ≤ LIMIT }
        ensures parses { Parses (stmts depth) (at self.old) (at self.new) result }
        ensures shorter { length self.new.left.now ≤ length self.old.left.now }
    {
        let first = self.statement(depth)?;
        let mut all = Items::new(self.alloc);
        all.push(first)?;
        while self.is_at(Sign::Semicolon) {
            self.advance();
            if self.is_ending() {
                return Ok(all);
            }
            let next = self.statement(depth)?;
            all.push(next)?;
        }
        Ok(all)
    }

    // Whether no statement follows: no piece is left, or a brace closes.
    fn is_ending(&self) -> bool
        ensures { IsTrue result ↔ IsEnding (head (at self.now)) }
    {
        match self.left {
            [] => true,
            [next, ..] => is_sign(&next.lexeme, Sign::CloseBrace),
        }
    }

    #[cycle(statements)]
    fn statement(&mut self, depth: u32) -> Result<Stmt, Fault>
        requires { depth ≤ LIMIT }
        ensures parses { Parses (stmt depth) (at self.old) (at self.new) result }
        ensures shorter { length self.new.left.now ≤ length self.old.left.now }
    {
        if depth >= LIMIT {
            return Err(Fault::Unfit);
        }
        if self.is_at_word(Keyword::Update) {
            return self.update(depth);
        }
        if self.is_at_word(Keyword::If) {
            return self.conditional(depth);
        }
        if self.is_at_word(Keyword::Let) {
            return self.binding(depth);
        }
        let inner = self.simple(depth + 1)?;
        if !self.is_at_word(Keyword::Where) {
            return Ok(inner);
        }
        let from = inner.span().from;
        let inner = Boxed::new(self.alloc, inner)?;
        self.guarded(depth + 1, inner, from)
    }

    #[cycle(statements)]
    fn update(&mut self, depth: u32) -> Result<Stmt, Fault>
        requires depth { depth < LIMIT }
        requires open { head (at self.old) ≡ Some (Reserved key.Update) }
        requires more { 0 < length self.old.left.now }
        ensures parses { Parses (stmt depth) (at self.old) (at self.new) result }
        ensures shorter { length self.new.left.now ≤ length self.old.left.now }
    {
        let word = self.advance();
        let path = self.path(depth + 1)?;
        self.take_word(Keyword::By)?;
        let body = self.boxed_statement(depth + 1)?;
        Ok(Stmt::Update(
            path,
            body,
            Span {
                from: word.from,
                to: self.end,
            },
        ))
    }

    #[cycle(statements)]
    fn conditional(&mut self, depth: u32) -> Result<Stmt, Fault>
        requires depth { depth < LIMIT }
        requires open { head (at self.old) ≡ Some (Reserved key.If) }
        requires more { 0 < length self.old.left.now }
        ensures parses { Parses (stmt depth) (at self.old) (at self.new) result }
        ensures shorter { length self.new.left.now ≤ length self.old.left.now }
    {
        let word = self.advance();
        let test = self.boxed_query(depth + 1)?;
        self.take_word(Keyword::Then)?;
        let yes = self.boxed_statement(depth + 1)?;
        self.take_word(Keyword::Else)?;
        let no = self.boxed_statement(depth + 1)?;
        Ok(Stmt::If(
            test.into_inner(),
            yes,
            no,
            Span {
                from: word.from,
                to: self.end,
            },
        ))
    }

    #[cycle(statements)]
    fn binding(&mut self, depth: u32) -> Result<Stmt, Fault>
        requires depth { depth < LIMIT }
        requires open { head (at self.old) ≡ Some (Reserved key.Let) }
        requires more { 0 < length self.old.left.now }
        ensures parses { Parses (stmt depth) (at self.old) (at self.new) result }
        ensures shorter { length self.new.left.now ≤ length self.old.left.now }
    {
        let word = self.advance();
        let (name, _) = self.var()?;
        self.take(Sign::Equal)?;
        let bound = self.boxed_query(depth + 1)?;
        self.take_word(Keyword::In)?;
        let body = self.boxed_statement(depth + 1)?;
        Ok(Stmt::Let(
            name,
            bound.into_inner(),
            body,
            Span {
                from: word.from,
                to: self.end,
            },
        ))
    }

    #[cycle(statements)]
    fn boxed_statement(&mut self, depth: u32) -> Result<Boxed<Stmt>, Fault>
        requires { depth ≤ LIMIT }
        ensures parses { Parses (stmt depth) (at self.old) (at self.new) result }
        ensures shorter { length self.new.left.now ≤ length self.old.left.now }
    {
        let tree = self.statement(depth)?;
        Ok(Boxed::new(self.alloc, tree)?)
    }

    // The condition of a statement.
    fn guarded(&mut self, depth: u32, inner: Boxed<Stmt>, from: u32) -> Result<Stmt, Fault>
        requires depth { depth ≤ LIMIT }
        requires open { head (at self.old) ≡ Some (Reserved key.Where) }
        requires more { 0 < length self.old.left.now }
        requires from { from ≡ (stmt_span inner).from }
        ensures parses { Parses (guard depth inner) (at self.old) (at self.new) result }
        ensures shorter { length self.new.left.now ≤ length self.old.left.now }
    {
        self.advance();
        let test = self.query(depth)?;
        Ok(Stmt::Guarded(inner, test, Span { from, to: self.end }))
    }

    #[cycle(statements)]
    fn simple(&mut self, depth: u32) -> Result<Stmt, Fault>
        requires { depth ≤ LIMIT }
        ensures parses { Parses (simple depth) (at self.old) (at self.new) result }
        ensures shorter { length self.new.left.now ≤ length self.old.left.now }
    {
        if self.is_at_word(Keyword::Skip) {
            let at = self.advance();
            return Ok(Stmt::Skip(at));
        }
        if self.is_at_word(Keyword::Insert) {
            let from = self.advance().from;
            return self.inserting(depth, from);
        }
        if self.is_at_word(Keyword::Delete) {
            let from = self.advance().from;
            return self.deleting(depth, from);
        }
        if self.is_at_word(Keyword::Replace) {
            let from = self.advance().from;
            return self.replacing(depth, from);
        }
        if self.is_at_word(Keyword::Rename) {
            return self.rename(depth);
        }
        if self.is_at_word(Keyword::Call) {
            return self.call(depth);
        }
        if self.is_at(Sign::OpenBrace) {
            return self.block(depth);
        }
        Err(Fault::Unfit)
    }

    fn rename(&mut self, depth: u32) -> Result<Stmt, Fault>
        requires depth { depth ≤ LIMIT }
        requires open { head (at self.old) ≡ Some (Reserved key.Rename) }
        requires more { 0 < length self.old.left.now }
        ensures parses { Parses (simple depth) (at self.old) (at self.new) result }
        ensures shorter { length self.new.left.now ≤ length self.old.left.now }
    {
        let word = self.advance();
        let path = self.path(depth)?;
        self.take_word(Keyword::To)?;
        let (name, at) = self.label()?;
        Ok(Stmt::Rename(
            path,
            name,
            Span {
                from: word.from,
                to: at.to,
            },
        ))
    }

    fn call(&mut self, depth: u32) -> Result<Stmt, Fault>
        requires depth { depth ≤ LIMIT }
        requires open { head (at self.old) ≡ Some (Reserved key.Call) }
        requires more { 0 < length self.old.left.now }
        ensures parses { Parses (simple depth) (at self.old) (at self.new) result }
        ensures shorter { length self.new.left.now ≤ length self.old.left.now }
    {
        let word = self.advance();
        let (name, _) = self.label()?;
        self.take(Sign::Open)?;
        let arguments = self.arguments(depth)?;
        let close = self.take(Sign::Close)?;
        Ok(Stmt::Call(
            name,
            arguments,
            Span {
                from: word.from,
                to: close.to,
            },
        ))
    }

    fn arguments(&mut self, depth: u32) -> Result<Items<Expr>, Fault>
        requires { depth ≤ LIMIT }
        ensures parses { Parses (args depth) (at self.old) (at self.new) result }
        ensures shorter { length self.new.left.now ≤ length self.old.left.now }
    {
        if self.is_at(Sign::Close) {
            return Ok(Items::new(self.alloc));
        }
        if self.is_at(Sign::CloseSquare) {
            return Ok(Items::new(self.alloc));
        }
        let first = self.item(depth)?;
        let rest = self.items(depth)?;
        prepended(self.alloc, first, rest)
    }

    #[cycle(statements)]
    fn block(&mut self, depth: u32) -> Result<Stmt, Fault>
        requires depth { depth ≤ LIMIT }
        requires open { head (at self.old) ≡ Some (Signed Sign.OpenBrace) }
        requires more { 0 < length self.old.left.now }
        ensures parses { Parses (simple depth) (at self.old) (at self.new) result }
        ensures shorter { length self.new.left.now ≤ length self.old.left.now }
    {
        let open = self.advance();
        let body = self.statements(depth)?;
        let close = self.take(Sign::CloseBrace)?;
        Ok(Stmt::Block(
            body,
            Span {
                from: open.from,
                to: close.to,
            },
        ))
    }

    // What stands behind `INSERT`, which begins at a place.
    fn inserting(&mut self, depth: u32, from: u32) -> Result<Stmt, Fault>
        requires { depth ≤ LIMIT }
        ensures parses { Parses (inserting depth from) (at self.old) (at self.new) result }
        ensures shorter { length self.new.left.now ≤ length self.old.left.now }
    {
        if self.is_at_word(Keyword::Value) {
            self.advance();
            let value = self.query(depth)?;
            return Ok(Stmt::Insert(value, Span { from, to: self.end }));
        }
        if self.is_at_word(Keyword::Before) {
            self.advance();
            let (path, value) = self.path_and_value(depth)?;
            return Ok(Stmt::InsertBefore(path, value, Span { from, to: self.end }));
        }
        if self.is_at_word(Keyword::After) {
            self.advance();
            let (path, value) = self.path_and_value(depth)?;
            return Ok(Stmt::InsertAfter(path, value, Span { from, to: self.end }));
        }
        if self.is_at_word(Keyword::As) {
            self.advance();
            return self.placing(depth, from);
        }
        Err(Fault::Unfit)
    }

    // What stands behind `INSERT AS`.
    fn placing(&mut self, depth: u32, from: u32) -> Result<Stmt, Fault>
        requires { depth ≤ LIMIT }
        ensures parses { Parses (placing depth from) (at self.old) (at self.new) result }
        ensures shorter { length self.new.left.now ≤ length self.old.left.now }
    {
        if self.is_at_word(Keyword::First) {
            self.advance();
            self.take_word(Keyword::Into)?;
            let (path, value) = self.path_and_value(depth)?;
            return Ok(Stmt::InsertFirst(path, value, Span { from, to: self.end }));
        }
        if self.is_at_word(Keyword::Last) {
            self.advance();
            self.take_word(Keyword::Into)?;
            let (path, value) = self.path_and_value(depth)?;
            return Ok(Stmt::InsertLast(path, value, Span { from, to: self.end }));
        }
        Err(Fault::Unfit)
    }

    fn path_and_value(&mut self, depth: u32) -> Result<(Path, Expr), Fault>
        requires { depth ≤ LIMIT }
        ensures parses { Gets (path_and_value depth) (at self.old) (at self.new) result }
        ensures shorter { length self.new.left.now ≤ length self.old.left.now }
    {
        let path = self.path(depth)?;
        self.take_word(Keyword::Value)?;
        let value = self.query(depth)?;
        Ok((path, value))
    }

    // What stands behind `DELETE`.
    fn deleting(&mut self, depth: u32, from: u32) -> Result<Stmt, Fault>
        requires { depth ≤ LIMIT }
        ensures parses { Parses (deleting depth from) (at self.old) (at self.new) result }
        ensures shorter { length self.new.left.now ≤ length self.old.left.now }
    {
        if self.is_at_word(Keyword::From) {
            self.advance();
            let path = self.path(depth)?;
            return Ok(Stmt::DeleteFrom(path, Span { from, to: self.end }));
        }
        let path = self.path(depth)?;
        Ok(Stmt::Delete(path, Span { from, to: self.end }))
    }

    // What stands behind `REPLACE`.
    fn replacing(&mut self, depth: u32, from: u32) -> Result<Stmt, Fault>
        requires { depth ≤ LIMIT }
        ensures parses { Parses (replacing depth from) (at self.old) (at self.new) result }
        ensures shorter { length self.new.left.now ≤ length self.old.left.now }
    {
        if self.is_at_word(Keyword::In) {
            self.advance();
            let (path, other) = self.path_and_other(depth)?;
            return Ok(Stmt::ReplaceIn(path, other, Span { from, to: self.end }));
        }
        let (path, other) = self.path_and_other(depth)?;
        Ok(Stmt::Replace(path, other, Span { from, to: self.end }))
    }

    fn path_and_other(&mut self, depth: u32) -> Result<(Path, Expr), Fault>
        requires { depth ≤ LIMIT }
        ensures parses { Gets (path_and_other depth) (at self.old) (at self.new) result }
        ensures shorter { length self.new.left.now ≤ length self.old.left.now }
    {
        let path = self.path(depth)?;
        self.take_word(Keyword::With)?;
        let other = self.query(depth)?;
        Ok((path, other))
    }
}

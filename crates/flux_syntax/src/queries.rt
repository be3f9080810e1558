// Queries.
ghost use Rattle.std.specs.Prelude.{◌≡◌, ◌≤◌, ◌<◌, ◌+◌, Some, OnOk, length, IfOk};
ghost use Rattle.flux_grammar.specs.declared.lexeme.Keyword.TheVariants.{QueryFor, QueryLet, QueryIf};
ghost use Rattle.flux_grammar.specs.declared.lexeme.Lexeme.TheVariants.{Reserved, Sign as Signed, Soft as Softly, Literal as Lit};
ghost use Rattle.flux_grammar.specs.declared.lexeme.Soft.TheVariants.{ChildWord};
ghost use Rattle.flux_grammar.specs.Grammar.{expr, items, item, compared, post, steps, qstep, childed, prim, within};
ghost use Rattle.flux_grammar.specs.States.{head};
ghost use Rattle.flux_syntax.specs.At.{at, next_literal, IsOther};
ghost use Rattle.flux_syntax.specs.Parses.{Parses, Gets};
ghost use Rattle.flux_syntax.specs.Steps.{slash_step};

use crate::made::{made_less, made_list, made_same, made_stepped};
use crate::reader::{Fault, LIMIT, Reader};
use flux_atom::{Atom, Boxed, Items, Name, copy};
use flux_calculus::Span;
use flux_grammar::{Expr, Keyword, Lexeme, QueryStep, Sign, TestText};
use std::alloc::{AllocError, Global};

// The atom, where the next piece is a literal.
fn literal_of(alloc: Global, lexeme: &Lexeme) -> Result<Option<Atom>, AllocError>
    ensures { IfOk result (λ atom. atom ≡ next_literal (Some lexeme.now)) }
{
    match lexeme {
        Lexeme::Literal(atom) => Ok(Some(copy(alloc, atom)?)),
        Lexeme::Reserved(_)
        | Lexeme::Sign(_)
        | Lexeme::Word(_)
        | Lexeme::Soft(_, _)
        | Lexeme::Quoted(_)
        | Lexeme::Var(_) => Ok(None),
    }
}

impl<'a> Reader<'a> {
    fn literal(&self) -> Result<Option<Atom>, AllocError>
        ensures { IfOk result (λ atom. atom ≡ next_literal (head (at self.now))) }
    {
        match self.left {
            [] => Ok(None),
            [next, ..] => literal_of(self.alloc, &next.lexeme),
        }
    }

    /// Reads a query that lies inside so many statements and items.
    #[cycle(queries)]
    pub(crate) fn query(&mut self, depth: u32) -> Result<Expr, Fault>
        requires { depth ≤ LIMIT }
        ensures parses { Parses (expr depth) (at self.old) (at self.new) result }
        ensures shorter { length self.new.left.now ≤ length self.old.left.now }
    {
        let first = self.item(depth)?;
        let rest = self.items(depth)?;
        made_list(self.alloc, first, rest, self.end)
    }

    /// Reads a query into a box.
    #[cycle(queries)]
    pub(crate) fn boxed_query(&mut self, depth: u32) -> Result<Boxed<Expr>, Fault>
        requires { depth ≤ LIMIT }
        ensures parses { Parses (expr depth) (at self.old) (at self.new) result }
        ensures shorter { length self.new.left.now ≤ length self.old.left.now }
    {
        let tree = self.query(depth)?;
        Ok(Boxed::new(self.alloc, tree)?)
    }

    #[cycle(queries)]
    fn boxed_item(&mut self, depth: u32) -> Result<Boxed<Expr>, Fault>
        requires { depth ≤ LIMIT }
        ensures parses { Parses (item depth) (at self.old) (at self.new) result }
        ensures shorter { length self.new.left.now ≤ length self.old.left.now }
    {
        let tree = self.item(depth)?;
        Ok(Boxed::new(self.alloc, tree)?)
    }

    /// Reads the items that stand behind one.
    #[cycle(queries)]
    pub(crate) fn items(&mut self, depth: u32) -> Result<Items<Expr>, Fault>
        requires { depth ≤ LIMIT }
        ensures parses { Parses (items depth) (at self.old) (at self.new) result }
        ensures shorter { length self.new.left.now ≤ length self.old.left.now }
    {
        let mut all = Items::new(self.alloc);
        while self.is_at(Sign::Comma) {
            self.advance();
            let next = self.item(depth)?;
            all.push(next)?;
        }
        Ok(all)
    }

    /// Reads an item of a query.
    #[cycle(queries)]
    pub(crate) fn item(&mut self, depth: u32) -> Result<Expr, Fault>
        requires { depth ≤ LIMIT }
        ensures parses { Parses (item depth) (at self.old) (at self.new) result }
        ensures shorter { length self.new.left.now ≤ length self.old.left.now }
    {
        if depth >= LIMIT {
            return Err(Fault::Unfit);
        }
        if self.is_at_word(Keyword::QueryFor) {
            return self.for_item(depth);
        }
        if self.is_at_word(Keyword::QueryLet) {
            return self.let_item(depth);
        }
        if self.is_at_word(Keyword::QueryIf) {
            return self.if_item(depth);
        }
        let left = self.post(depth + 1)?;
        self.compared(depth + 1, left)
    }

    #[cycle(queries)]
    fn for_item(&mut self, depth: u32) -> Result<Expr, Fault>
        requires depth { depth < LIMIT }
        requires open { head (at self.old) ≡ Some (Reserved QueryFor) }
        requires more { 0 < length self.old.left.now }
        ensures parses { Parses (item depth) (at self.old) (at self.new) result }
        ensures shorter { length self.new.left.now ≤ length self.old.left.now }
    {
        let word = self.advance();
        let (name, _) = self.var()?;
        self.take_word(Keyword::QueryIn)?;
        let over = self.boxed_query(depth + 1)?;
        self.take_word(Keyword::QueryReturn)?;
        let body = self.boxed_item(depth + 1)?;
        let span = Span {
            from: word.from,
            to: self.end,
        };
        Ok(Expr::For(name, over, body, span))
    }

    #[cycle(queries)]
    fn let_item(&mut self, depth: u32) -> Result<Expr, Fault>
        requires depth { depth < LIMIT }
        requires open { head (at self.old) ≡ Some (Reserved QueryLet) }
        requires more { 0 < length self.old.left.now }
        ensures parses { Parses (item depth) (at self.old) (at self.new) result }
        ensures shorter { length self.new.left.now ≤ length self.old.left.now }
    {
        let word = self.advance();
        let (name, _) = self.var()?;
        self.take(Sign::Equal)?;
        let bound = self.boxed_query(depth + 1)?;
        self.take_word(Keyword::QueryIn)?;
        let body = self.boxed_item(depth + 1)?;
        let span = Span {
            from: word.from,
            to: self.end,
        };
        Ok(Expr::Let(name, bound, body, span))
    }

    #[cycle(queries)]
    fn if_item(&mut self, depth: u32) -> Result<Expr, Fault>
        requires depth { depth < LIMIT }
        requires open { head (at self.old) ≡ Some (Reserved QueryIf) }
        requires more { 0 < length self.old.left.now }
        ensures parses { Parses (item depth) (at self.old) (at self.new) result }
        ensures shorter { length self.new.left.now ≤ length self.old.left.now }
    {
        let word = self.advance();
        let test = self.boxed_query(depth + 1)?;
        self.take_word(Keyword::QueryThen)?;
        let yes = self.boxed_item(depth + 1)?;
        self.take_word(Keyword::QueryElse)?;
        let no = self.boxed_item(depth + 1)?;
        let span = Span {
            from: word.from,
            to: self.end,
        };
        Ok(Expr::If(test, yes, no, span))
    }

    #[cycle(queries)]
    fn compared(&mut self, depth: u32, left: Expr) -> Result<Expr, Fault>
        requires { depth ≤ LIMIT }
        ensures parses { Parses (compared depth left) (at self.old) (at self.new) result }
        ensures shorter { length self.new.left.now ≤ length self.old.left.now }
    {
        if self.is_at(Sign::Equal) {
            self.advance();
            let right = self.post(depth)?;
            return made_same(self.alloc, left, right, self.end);
        }
        if self.is_at(Sign::Less) {
            self.advance();
            let right = self.post(depth)?;
            return made_less(self.alloc, left, right, self.end);
        }
        Ok(left)
    }

    #[cycle(queries)]
    fn post(&mut self, depth: u32) -> Result<Expr, Fault>
        requires { depth ≤ LIMIT }
        ensures parses { Parses (post depth) (at self.old) (at self.new) result }
        ensures shorter { length self.new.left.now ≤ length self.old.left.now }
    {
        let first = self.primary(depth)?;
        let steps = self.steps(first.span().from)?;
        made_stepped(self.alloc, first, steps, self.end)
    }

    // Reads the steps behind a query that begins there.
    fn steps(&mut self, from: u32) -> Result<Items<QueryStep>, Fault>
        ensures parses { Parses (steps from) (at self.old) (at self.new) result }
        ensures shorter { length self.new.left.now ≤ length self.old.left.now }
    {
        let mut all = Items::new(self.alloc);
        loop {
            if self.is_at(Sign::Slash) {
                let step = self.slash_step(from)?;
                all.push(step)?;
            } else if self.is_at(Sign::DoubleColon) {
                self.advance();
                let (test, _) = self.test()?;
                let to = self.end;
                all.push(QueryStep::Filter(test, Span { from, to }))?;
            } else {
                return Ok(all);
            }
        }
    }

    fn slash_step(&mut self, from: u32) -> Result<QueryStep, Fault>
        requires open { head (at self.old) ≡ Some (Signed Sign.Slash) }
        requires more { 0 < length self.old.left.now }
        ensures parses { Gets (slash_step from) (at self.old) (at self.new) result }
        ensures shorter { length self.new.left.now < length self.old.left.now }
    {
        self.advance();
        match self.next_child() {
            Some(name) => self.child_step(from, name),
            None => {
                let (test, _) = self.other_test()?;
                let to = self.end;
                Ok(QueryStep::Down(test, Span { from, to }))
            }
        }
    }

    // The word `child` alone is a label, and with parentheses behind it stands for all children.
    fn child_step(&mut self, from: u32, name: Name) -> Result<QueryStep, Fault>
        requires child { head (at self.old) ≡ Some (Softly ChildWord name) }
        requires more { 0 < length self.old.left.now }
        ensures parses { Parses (qstep from) (at self.old) (at self.new) result }
        ensures shorter { length self.new.left.now ≤ length self.old.left.now }
    {
        self.advance();
        if !self.is_at(Sign::Open) {
            let to = self.end;
            return Ok(QueryStep::Down(TestText::Label(name), Span { from, to }));
        }
        self.advance();
        let to = self.take(Sign::Close)?.to;
        Ok(QueryStep::Child(Span { from, to }))
    }

    #[cycle(queries)]
    fn primary(&mut self, depth: u32) -> Result<Expr, Fault>
        requires { depth ≤ LIMIT }
        ensures parses { Parses (prim depth) (at self.old) (at self.new) result }
        ensures shorter { length self.new.left.now ≤ length self.old.left.now }
    {
        if self.is_at(Sign::Open) {
            return self.query_group(depth);
        }
        if let Some(name) = self.variable() {
            let at = self.advance();
            return Ok(Expr::Var(name, at));
        }
        match self.literal()? {
            Some(atom) => {
                let at = self.advance();
                Ok(Expr::Lit(atom, at))
            }
            None => self.query_element(depth),
        }
    }

    #[cycle(queries)]
    fn query_group(&mut self, depth: u32) -> Result<Expr, Fault>
        requires depth { depth ≤ LIMIT }
        requires open { head (at self.old) ≡ Some (Signed Sign.Open) }
        requires more { 0 < length self.old.left.now }
        ensures parses { Parses (prim depth) (at self.old) (at self.new) result }
        ensures shorter { length self.new.left.now ≤ length self.old.left.now }
    {
        let open = self.advance();
        let inside = self.within(depth)?;
        let close = self.take(Sign::Close)?;
        Ok(Expr::Group(
            inside,
            Span {
                from: open.from,
                to: close.to,
            },
        ))
    }

    #[cycle(queries)]
    fn query_element(&mut self, depth: u32) -> Result<Expr, Fault>
        requires depth { depth ≤ LIMIT }
        requires other { IsOther (head (at self.old)) }
        ensures parses { Parses (prim depth) (at self.old) (at self.new) result }
        ensures shorter { length self.new.left.now ≤ length self.old.left.now }
    {
        let (name, at) = self.label()?;
        self.take(Sign::OpenSquare)?;
        let inside = self.within(depth)?;
        let close = self.take(Sign::CloseSquare)?;
        Ok(Expr::Elem(
            name,
            inside,
            Span {
                from: at.from,
                to: close.to,
            },
        ))
    }

    #[cycle(queries)]
    fn within(&mut self, depth: u32) -> Result<Option<Boxed<Expr>>, Fault>
        requires { depth ≤ LIMIT }
        ensures parses { Parses (within depth) (at self.old) (at self.new) result }
        ensures shorter { length self.new.left.now ≤ length self.old.left.now }
    {
        if self.is_at(Sign::Close) {
            return Ok(None);
        }
        if self.is_at(Sign::CloseSquare) {
            return Ok(None);
        }
        let inside = self.query(depth)?;
        Ok(Some(Boxed::new(self.alloc, inside)?))
    }
}

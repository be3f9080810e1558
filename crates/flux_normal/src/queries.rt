// The core queries that written queries stand for.
ghost use Rattle.std.specs.Prelude.{◌≡◌, suc, map, IfOk};
ghost use Rattle.flux_calculus.specs.Query.{nothing};
ghost use Rattle.flux_grammar.specs.NormalQueries.{plain, of_all, test_of, step_on, steps_on, query_form};
ghost use Rattle.flux_query.specs.Read.{query_of};

use flux_atom::{Boxed, Items};
use flux_calculus::{Span, Test, Var};
use flux_grammar::{Expr, QueryStep, TestText};
use flux_query::Query;
use std::alloc::{AllocError, Global};

/// What writes a script in the core language.
#[derive(Drop)]
pub(crate) struct Normalizer {
    pub(crate) alloc: Global,
    /// How many variables are made so far.
    pub(crate) made: u32,
}

/// The test that a written test stands for.
pub(crate) fn test(written: &TestText) -> Test
    ensures { result ≡ test_of written.now }
{
    match written {
        TestText::Label(name) => Test::Label(*name),
        TestText::AnyElement => Test::AnyElement,
        TestText::OfText => Test::OfText,
        TestText::OfBool => Test::OfBool,
        TestText::OfInt => Test::OfInt,
    }
}

impl Normalizer {
    /// The core query.
    #[cycle(queries)]
    pub(crate) fn query(&mut self, expr: &Expr) -> Result<Query, AllocError>
        ensures { IfOk result (λ query.
            query_form expr.now self.old.made ≡ (query_of query, self.new.made)) }
    {
        match expr {
            Expr::List(exprs, span) => Ok(Query::Concat(self.queries(exprs.as_slice())?, *span)),
            Expr::For(name, over, body, span) => {
                let over = self.boxed(over.get())?;
                let body = self.boxed(body.get())?;
                Ok(Query::For(Var::Named(*name), over, body, *span))
            }
            Expr::Let(name, bound, body, span) => {
                let bound = self.boxed(bound.get())?;
                let body = self.boxed(body.get())?;
                Ok(Query::Let(Var::Named(*name), bound, body, *span))
            }
            Expr::If(condition, yes, no, span) => {
                let condition = self.boxed(condition.get())?;
                let yes = self.boxed(yes.get())?;
                let no = self.boxed(no.get())?;
                Ok(Query::If(condition, yes, no, *span))
            }
            Expr::Same(left, right, span) => {
                let left = self.boxed(left.get())?;
                let right = self.boxed(right.get())?;
                Ok(Query::Same(left, right, *span))
            }
            Expr::Less(left, right, span) => {
                let left = self.boxed(left.get())?;
                let right = self.boxed(right.get())?;
                Ok(Query::Less(left, right, *span))
            }
            Expr::Stepped(inner, steps, _) => self.stepped(inner.get(), steps.as_slice()),
            Expr::Group(None, span) => Ok(self.nothing(*span)),
            Expr::Group(Some(inner), _) => self.query(inner.get()),
            Expr::Lit(atom, span) => {
                let atom = flux_atom::copy(self.alloc, atom)?;
                Ok(Query::Lit(atom, *span))
            }
            Expr::Var(name, span) => Ok(Query::Var(Var::Named(*name), *span)),
            Expr::Elem(name, None, span) => {
                let content = Boxed::new(self.alloc, self.nothing(*span))?;
                Ok(Query::Elem(*name, content, *span))
            }
            Expr::Elem(name, Some(content), span) => {
                let content = self.boxed(content.get())?;
                Ok(Query::Elem(*name, content, *span))
            }
        }
    }

    #[cycle(queries)]
    fn boxed(&mut self, expr: &Expr) -> Result<Boxed<Query>, AllocError>
        ensures { IfOk result (λ query.
            query_form expr.now self.old.made ≡ (query_of query, self.new.made)) }
    {
        let query = self.query(expr)?;
        Boxed::new(self.alloc, query)
    }

    /// The core queries, in order.
    #[cycle(queries)]
    pub(crate) fn queries(&mut self, exprs: &[Expr]) -> Result<Items<Query>, AllocError>
        ensures { IfOk result (λ queries.
            of_all (map query_form exprs.now) self.old.made
            ≡ (map query_of queries, self.new.made)) }
    {
        let mut queries = Items::new(self.alloc);
        for expr in exprs {
            queries.push(self.query(expr)?)?;
        }
        Ok(queries)
    }

    // A query with steps behind it.
    #[cycle(queries)]
    fn stepped(&mut self, inner: &Expr, steps: &[QueryStep]) -> Result<Query, AllocError>
        ensures { IfOk result (λ query.
            steps_on (query_form inner.now) steps.now self.old.made
            ≡ (query_of query, self.new.made)) }
    {
        let mut query = self.query(inner)?;
        for step in steps {
            query = self.step(query, step)?;
        }
        Ok(query)
    }

    // A query with one step behind it.
    fn step(&mut self, query: Query, step: &QueryStep) -> Result<Query, AllocError>
        ensures { IfOk result (λ stepped.
            step_on (plain (query_of query)) step.now self.old.made
            ≡ (query_of stepped, self.new.made)) }
    {
        let query = Boxed::new(self.alloc, query)?;
        match step {
            QueryStep::Down(written, span) => {
                let made = self.next_variable()?;
                let child = Boxed::new(self.alloc, Query::Child(Var::Made(made), *span))?;
                let passing = Query::Filter(child, test(written), *span);
                let passing = Boxed::new(self.alloc, passing)?;
                Ok(Query::For(Var::Made(made), query, passing, *span))
            }
            QueryStep::Child(span) => {
                let made = self.next_variable()?;
                let child = Boxed::new(self.alloc, Query::Child(Var::Made(made), *span))?;
                Ok(Query::For(Var::Made(made), query, child, *span))
            }
            QueryStep::Filter(written, span) => Ok(Query::Filter(query, test(written), *span)),
        }
    }

    // No queries.
    fn nothing(&self, span: Span) -> Query
        ensures { query_of result ≡ nothing span }
    {
        Query::Concat(Items::new(self.alloc), span)
    }

    // The number of the next variable. There are no more numbers than 32 bits have.
    fn next_variable(&mut self) -> Result<u32, AllocError>
        ensures { IfOk result (λ made.
            (made ≡ suc self.old.made) × (self.new.made ≡ suc self.old.made)) }
    {
        if self.made == u32::MAX {
            return Err(AllocError);
        }
        self.made += 1;
        Ok(self.made)
    }
}

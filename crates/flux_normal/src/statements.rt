// The core statements that written statements stand for.
ghost use Rattle.std.specs.Prelude.{◌≡◌, ◌∷◌, [], Some, map, flat_map, find, All, IfOk, length};
ghost use Rattle.flux_calculus.specs.declared.ask.Var.TheVariants.{Named};
ghost use Rattle.flux_calculus.specs.Core.{skip, in_order, choice, binding, insert, delete, left, right, children, call};
ghost use Rattle.flux_core.specs.Statements.{core_of};
ghost use Rattle.flux_grammar.specs.NormalFaults.{calls};
ghost use Rattle.flux_grammar.specs.NormalQueries.{plain, of_one, of_two, of_all, query_form};
ghost use Rattle.flux_grammar.specs.NormalStatements.{on_path, index_of, stmt_form, stmts_form};
ghost use Rattle.flux_grammar.specs.Spans.{stmt_span};
ghost use Rattle.flux_normal.specs.Heads.{has_name, names_in, Fits, AllFit};
ghost use Rattle.flux_normal.specs.Together.{span_of_all, together_of};

use crate::paths::{inside, under_layers};
use crate::procedures::Procedures;
use crate::queries::Normalizer;
use flux_atom::{Boxed, Items, Name};
use flux_calculus::{Span, Var};
use flux_core::Core;
use flux_grammar::{Expr, Path, Stmt};
use std::alloc::{AllocError, Global};

impl Normalizer {
    /// The core statement of a body.
    pub(crate) fn body(&mut self, stmts: &[Stmt], procs: &Procedures) -> Result<Core, AllocError>
        requires { All (Fits procs.now) (flat_map calls stmts.now) }
        ensures form { IfOk result (λ core.
            stmts_form (names_in procs.now) stmts.now self.old.made
            ≡ (core_of core, self.new.made)) }
        ensures fit { IfOk result (λ core. AllFit procs.now (core_of core)) }
    {
        self.statements(stmts, procs)
    }

    #[cycle(statements)]
    fn statement(&mut self, stmt: &Stmt, procs: &Procedures) -> Result<Core, AllocError>
        requires { All (Fits procs.now) (calls stmt.now) }
        ensures { IfOk result (λ core.
            stmt_form (names_in procs.now) stmt.now self.old.made
            ≡ (core_of core, self.new.made)) }
    {
        match stmt {
            Stmt::Update(path, inner, _) => self.updated(inner.get(), path, procs),
            Stmt::If(condition, yes, no, span) => {
                let condition = self.query(condition)?;
                let yes = self.boxed_statement(yes.get(), procs)?;
                let no = self.boxed_statement(no.get(), procs)?;
                Ok(Core::If(condition, yes, no, *span))
            }
            Stmt::Let(name, bound, body, span) => {
                self.bound(body.get(), *name, bound, *span, procs)
            }
            Stmt::Guarded(inner, condition, span) => {
                self.guarded(inner.get(), condition, *span, procs)
            }
            Stmt::Skip(span) => Ok(Core::Skip(*span)),
            Stmt::Insert(expr, span) => self.inserted(expr, *span),
            Stmt::InsertBefore(path, expr, span) => self.inserted_before(path, expr, *span),
            Stmt::InsertAfter(path, expr, span) => self.inserted_after(path, expr, *span),
            Stmt::InsertFirst(path, expr, span) => self.inserted_first(path, expr, *span),
            Stmt::InsertLast(path, expr, span) => self.inserted_last(path, expr, *span),
            Stmt::Delete(path, span) => self.on_path(path, Core::Delete(*span)),
            Stmt::DeleteFrom(path, span) => {
                let delete = inside(self.alloc, Core::Delete(*span), *span)?;
                self.on_path(path, delete)
            }
            Stmt::Rename(path, name, span) => self.on_path(path, Core::Rename(*name, *span)),
            Stmt::Replace(path, expr, span) => self.replaced(path, expr, *span),
            Stmt::ReplaceIn(path, expr, span) => self.replaced_inside(path, expr, *span),
            Stmt::Call(name, exprs, span) => self.call(*name, exprs.as_slice(), *span, procs),
            Stmt::Block(stmts, _) => self.statements(stmts.as_slice(), procs),
        }
    }

    #[cycle(statements)]
    fn boxed_statement(
        &mut self,
        stmt: &Stmt,
        procs: &Procedures,
    ) -> Result<Boxed<Core>, AllocError>
        requires { All (Fits procs.now) (calls stmt.now) }
        ensures { IfOk result (λ core.
            stmt_form (names_in procs.now) stmt.now self.old.made
            ≡ (core_of core, self.new.made)) }
    {
        let core = self.statement(stmt, procs)?;
        Boxed::new(self.alloc, core)
    }

    // One statement alone is that one, several are one statement.
    #[cycle(statements)]
    fn statements(&mut self, stmts: &[Stmt], procs: &Procedures) -> Result<Core, AllocError>
        requires { All (Fits procs.now) (flat_map calls stmts.now) }
        ensures { IfOk result (λ core.
            stmts_form (names_in procs.now) stmts.now self.old.made
            ≡ (core_of core, self.new.made)) }
    {
        let mut cores = Items::new(self.alloc);
        for stmt in stmts {
            cores.push(self.statement(stmt, procs)?)?;
        }
        Ok(together(stmts, cores))
    }

    #[cycle(statements)]
    fn updated(&mut self, inner: &Stmt, path: &Path, procs: &Procedures) -> Result<Core, AllocError>
        requires { All (Fits procs.now) (calls inner.now) }
        ensures { IfOk result (λ core.
            on_path path.now (stmt_form (names_in procs.now) inner.now) self.old.made
            ≡ (core_of core, self.new.made)) }
    {
        let layers = self.layers(path)?;
        let core = self.statement(inner, procs)?;
        under_layers(self.alloc, layers, core)
    }

    #[cycle(statements)]
    fn bound(
        &mut self,
        body: &Stmt,
        name: Name,
        bound: &Expr,
        span: Span,
        procs: &Procedures,
    ) -> Result<Core, AllocError>
        requires { All (Fits procs.now) (calls body.now) }
        ensures { IfOk result (λ core.
            of_two (binding span (Named name)) (query_form bound.now)
            (stmt_form (names_in procs.now) body.now) self.old.made
            ≡ (core_of core, self.new.made)) }
    {
        let bound = self.query(bound)?;
        let body = self.boxed_statement(body, procs)?;
        Ok(Core::Let(Var::Named(name), bound, body, span))
    }

    // The statement stands before its condition, so that its variables are made first.
    #[cycle(statements)]
    fn guarded(
        &mut self,
        inner: &Stmt,
        condition: &Expr,
        span: Span,
        procs: &Procedures,
    ) -> Result<Core, AllocError>
        requires { All (Fits procs.now) (calls inner.now) }
        ensures { IfOk result (λ core.
            of_two (λ s q. choice span q s (skip span))
            (stmt_form (names_in procs.now) inner.now) (query_form condition.now) self.old.made
            ≡ (core_of core, self.new.made)) }
    {
        let core = self.boxed_statement(inner, procs)?;
        let condition = self.query(condition)?;
        let skip = Boxed::new(self.alloc, Core::Skip(span))?;
        Ok(Core::If(condition, core, skip, span))
    }

    // A path round a statement in which no variables are made.
    fn on_path(&mut self, path: &Path, core: Core) -> Result<Core, AllocError>
        ensures { IfOk result (λ made.
            on_path path.now (plain (core_of core)) self.old.made
            ≡ (core_of made, self.new.made)) }
    {
        let layers = self.layers(path)?;
        under_layers(self.alloc, layers, core)
    }

    fn inserted(&mut self, expr: &Expr, span: Span) -> Result<Core, AllocError>
        ensures { IfOk result (λ core.
            of_one (insert span) (query_form expr.now) self.old.made
            ≡ (core_of core, self.new.made)) }
    {
        let query = self.query(expr)?;
        Ok(Core::Insert(query, span))
    }

    fn inserted_before(&mut self, path: &Path, expr: &Expr, span: Span) -> Result<Core, AllocError>
        ensures { IfOk result (λ core.
            on_path path.now (of_one (λ q. left span (insert span q)) (query_form expr.now))
            self.old.made ≡ (core_of core, self.new.made)) }
    {
        let layers = self.layers(path)?;
        let insert = self.inserted(expr, span)?;
        let before = in_front(self.alloc, insert, span)?;
        under_layers(self.alloc, layers, before)
    }

    fn inserted_after(&mut self, path: &Path, expr: &Expr, span: Span) -> Result<Core, AllocError>
        ensures { IfOk result (λ core.
            on_path path.now (of_one (λ q. right span (insert span q)) (query_form expr.now))
            self.old.made ≡ (core_of core, self.new.made)) }
    {
        let layers = self.layers(path)?;
        let insert = self.inserted(expr, span)?;
        let after = behind(self.alloc, insert, span)?;
        under_layers(self.alloc, layers, after)
    }

    fn inserted_first(&mut self, path: &Path, expr: &Expr, span: Span) -> Result<Core, AllocError>
        ensures { IfOk result (λ core.
            on_path path.now
            (of_one (λ q. children span (left span (insert span q))) (query_form expr.now))
            self.old.made ≡ (core_of core, self.new.made)) }
    {
        let layers = self.layers(path)?;
        let insert = self.inserted(expr, span)?;
        let before = in_front(self.alloc, insert, span)?;
        let first = inside(self.alloc, before, span)?;
        under_layers(self.alloc, layers, first)
    }

    fn inserted_last(&mut self, path: &Path, expr: &Expr, span: Span) -> Result<Core, AllocError>
        ensures { IfOk result (λ core.
            on_path path.now
            (of_one (λ q. children span (right span (insert span q))) (query_form expr.now))
            self.old.made ≡ (core_of core, self.new.made)) }
    {
        let layers = self.layers(path)?;
        let insert = self.inserted(expr, span)?;
        let after = behind(self.alloc, insert, span)?;
        let last = inside(self.alloc, after, span)?;
        under_layers(self.alloc, layers, last)
    }

    // The value of a query in the place of what stands there.
    fn written_over(&mut self, expr: &Expr, span: Span) -> Result<Core, AllocError>
        ensures { IfOk result (λ core.
            of_one (λ q. in_order span (delete span ∷ insert span q ∷ [])) (query_form expr.now)
            self.old.made ≡ (core_of core, self.new.made)) }
    {
        let insert = self.inserted(expr, span)?;
        let mut cores = Items::new(self.alloc);
        cores.push(Core::Delete(span))?;
        cores.push(insert)?;
        Ok(Core::Seq(cores, span))
    }

    fn replaced(&mut self, path: &Path, expr: &Expr, span: Span) -> Result<Core, AllocError>
        ensures { IfOk result (λ core.
            on_path path.now
            (of_one (λ q. in_order span (delete span ∷ insert span q ∷ [])) (query_form expr.now))
            self.old.made ≡ (core_of core, self.new.made)) }
    {
        let layers = self.layers(path)?;
        let core = self.written_over(expr, span)?;
        under_layers(self.alloc, layers, core)
    }

    fn replaced_inside(&mut self, path: &Path, expr: &Expr, span: Span) -> Result<Core, AllocError>
        ensures { IfOk result (λ core.
            on_path path.now
            (of_one (λ q. children span (in_order span (delete span ∷ insert span q ∷ [])))
            (query_form expr.now)) self.old.made ≡ (core_of core, self.new.made)) }
    {
        let layers = self.layers(path)?;
        let core = self.written_over(expr, span)?;
        let content = inside(self.alloc, core, span)?;
        under_layers(self.alloc, layers, content)
    }

    fn call(
        &mut self,
        name: Name,
        exprs: &[Expr],
        span: Span,
        procs: &Procedures,
    ) -> Result<Core, AllocError>
        requires { find (has_name name) procs.now ≡ Some (name, length exprs.now) }
        ensures { IfOk result (λ core.
            of_one (call span (index_of (names_in procs.now) name))
            (of_all (map query_form exprs.now)) self.old.made
            ≡ (core_of core, self.new.made)) }
    {
        let Some(found) = procs.find(name) else {
            unreachable!()
        };
        let queries = self.queries(exprs)?;
        Ok(Core::Call(found.index, queries, span))
    }
}

// The statement on the empty forest before the focus.
fn in_front(alloc: Global, core: Core, span: Span) -> Result<Core, AllocError>
    ensures { IfOk result (λ made. core_of made ≡ left span (core_of core)) }
{
    Ok(Core::Left(Boxed::new(alloc, core)?, span))
}

// The statement on the empty forest behind the focus.
fn behind(alloc: Global, core: Core, span: Span) -> Result<Core, AllocError>
    ensures { IfOk result (λ made. core_of made ≡ right span (core_of core)) }
{
    Ok(Core::Right(Boxed::new(alloc, core)?, span))
}

// The core statements of statements as one.
fn together(stmts: &[Stmt], cores: Items<Core>) -> Core
    ensures { core_of result ≡ together_of (map stmt_span stmts.now) (map core_of cores) }
{
    if cores.len() != 1 {
        return Core::Seq(cores, span_of(stmts));
    }
    let mut cores = cores;
    match cores.pop() {
        Some(core) => core,
        None => unreachable!(),
    }
}

// From the start of the first statement to the end of the last.
fn span_of(stmts: &[Stmt]) -> Span
    ensures { result ≡ span_of_all (map stmt_span stmts.now) }
{
    match stmts {
        [] => Span { from: 0, to: 0 },
        [only] => only.span(),
        [first, .., last] => Span {
            from: first.span().from,
            to: last.span().to,
        },
    }
}

// Nodes of a normal form that lie under too many others. They are told of the script before its
// normal form is made, so that no tree is made that is deeper than it may be.
//
// A part that may have such nodes answers the place of the first of them as an error. `levels` is
// how many nodes one must lie under; parts of a node lie under one more, so that their own count is
// one less, and stays 0, where the node itself is found.
ghost use Rattle.std.specs.Prelude.{◌≡◌, ◌-◌, ℕ, List, [], ◌∷◌, Some, length, map, flat_map, IfOk, IfErr};
ghost use Rattle.flux_calculus.specs.declared.ask.Span.{Span};
ghost use Rattle.flux_calculus.specs.Core.{in_order, insert, delete, left, right};
ghost use Rattle.flux_calculus.specs.Query.{Query};
ghost use Rattle.flux_grammar.specs.Nesting.{level, query_level, core_level, most_nested};
ghost use Rattle.flux_grammar.specs.NormalFaults.{first, nested};
ghost use Rattle.flux_grammar.specs.NormalQueries.{Numbered, of_one, of_all, query_form, step_on, steps_on};
ghost use Rattle.flux_grammar.specs.NormalStatements.{stmt_form, stmts_form, filtered, remembered, tested, on_step, on_path};
ghost use Rattle.flux_normal.specs.Levels.{told, either, Finds, Leaves, levels_left, found_round, behind_step};

use flux_atom::Name;
use flux_calculus::Span;
use flux_grammar::{Expr, Path, ProcDef, QueryStep, Script, Step, Stmt, TestText};

const MOST_NESTED: u32 = 200;

// The place of the first node of the normal form that lies under 200 others, as an error. The
// recursion goes as deep as queries and statements are written inside one another.
pub(crate) fn check_nesting(script: &Script) -> Result<(), u32>
    ensures { first (nested script.now) ≡ told result }
{
    let procs = check_procs(script.procs.as_slice());
    let main = check_statements(script.body.as_slice(), MOST_NESTED);
    both(procs, main)
}

// The bodies of procedures, one behind the other.
fn check_procs(procs: &[ProcDef]) -> Result<(), u32>
    ensures { (names : List ℕ) → Finds (λ cs n. flat_map (λ c. core_level c n) cs)
        (of_all (map (λ p. stmts_form names p.body) procs.now)) most_nested (told result) }
{
    let mut found = Ok(());
    for proc in procs {
        found = both(found, check_statements(proc.body.as_slice(), MOST_NESTED));
    }
    found
}

// A node at a place, round what its parts answered.
fn node(place: u32, levels: u32, parts: Result<(), u32>) -> Result<(), u32>
    ensures { (nodes : ℕ → List ℕ) → first (nodes (levels - 1)) ≡ told parts →
        first (level place nodes levels) ≡ told result }
{
    if levels == 0 { Err(place) } else { parts }
}

fn leaf(place: u32, levels: u32) -> Result<(), u32>
    ensures { first (level place (λ n. []) levels) ≡ told result }
{
    node(place, levels, Ok(()))
}

// The first of two parts that has such a node.
fn both(left: Result<(), u32>, right: Result<(), u32>) -> Result<(), u32>
    ensures { told result ≡ either (told left) (told right) }
{
    match left {
        Ok(()) => right,
        Err(place) => Err(place),
    }
}

#[cycle(queries)]
fn check_query(expr: &Expr, levels: u32) -> Result<(), u32>
    ensures { Finds query_level (query_form expr.now) levels (told result) }
{
    let below = levels.saturating_sub(1);
    match expr {
        Expr::List(items, span) => {
            let items = check_queries(items.as_slice(), below);
            node(span.from, levels, items)
        }
        Expr::For(_, left, right, span)
        | Expr::Let(_, left, right, span)
        | Expr::Same(left, right, span)
        | Expr::Less(left, right, span) => {
            let left = check_query(left.get(), below);
            let right = check_query(right.get(), below);
            node(span.from, levels, both(left, right))
        }
        Expr::If(condition, yes, no, span) => {
            let condition = check_query(condition.get(), below);
            let yes = check_query(yes.get(), below);
            let no = check_query(no.get(), below);
            node(span.from, levels, both(both(condition, yes), no))
        }
        Expr::Stepped(from, steps, _) => {
            let from = check_query(from.get(), past(steps.as_slice().len(), levels));
            check_steps(steps.as_slice(), levels, from)
        }
        Expr::Group(Some(inner), _) => check_query(inner.get(), levels),
        Expr::Elem(_, content, span) => {
            let content = match content {
                Some(content) => check_query(content.get(), below),
                None => leaf(span.from, below),
            };
            node(span.from, levels, content)
        }
        Expr::Group(None, span) | Expr::Lit(_, span) | Expr::Var(_, span) => {
            leaf(span.from, levels)
        }
    }
}

#[cycle(queries)]
fn check_queries(queries: &[Expr], levels: u32) -> Result<(), u32>
    ensures { Finds (λ qs n. flat_map (λ q. query_level q n) qs)
        (of_all (map query_form queries.now)) levels (told result) }
{
    let mut found = Ok(());
    for query in queries {
        found = both(found, check_query(query, levels));
    }
    found
}

// The levels of what so many nodes stand round.
fn past(nodes: usize, levels: u32) -> u32
    ensures { result ≡ levels - nodes }
{
    if (levels as usize) < nodes {
        0
    } else {
        levels - nodes as u32
    }
}

// Steps, round what the query that they stand behind answered.
fn check_steps(steps: &[QueryStep], levels: u32, from: Result<(), u32>) -> Result<(), u32>
    ensures { (e : Numbered Query) → Finds query_level e (levels - length steps.now) (told from) →
        Finds query_level (steps_on e steps.now) levels (told result) }
{
    let mut found = from;
    let mut behind = steps.len();
    for step in steps {
        behind -= 1;
        found = check_query_step(step, past(behind, levels), found);
    }
    found
}

// A step is a node with the query that it stands behind as its first part. What `/φ` does with each
// tree is two nodes deep, what `/child()` does is one.
fn check_query_step(step: &QueryStep, levels: u32, from: Result<(), u32>) -> Result<(), u32>
    ensures { (e : Numbered Query) → Finds query_level e (levels - 1) (told from) →
        Finds query_level (step_on e step.now) levels (told result) }
{
    let below = levels.saturating_sub(1);
    match step {
        QueryStep::Down(_, span) => {
            let child = leaf(span.from, below.saturating_sub(1));
            let filter = node(span.from, below, child);
            node(span.from, levels, both(from, filter))
        }
        QueryStep::Child(span) => node(span.from, levels, both(from, leaf(span.from, below))),
        QueryStep::Filter(_, span) => node(span.from, levels, from),
    }
}

// A statement, whatever names procedures have.
#[cycle(statements)]
fn check_statement(stmt: &Stmt, levels: u32) -> Result<(), u32>
    ensures { (procs : List ℕ) →
        Finds core_level (stmt_form procs stmt.now) levels (told result) }
{
    let below = levels.saturating_sub(1);
    match stmt {
        Stmt::Update(path, body, _) => {
            let path = check_path(path, levels);
            let body = check_statement(body.get(), inner(&path));
            within(path, body)
        }
        Stmt::If(condition, yes, no, span) => {
            let condition = check_query(condition, below);
            let yes = check_statement(yes.get(), below);
            let no = check_statement(no.get(), below);
            node(span.from, levels, both(both(condition, yes), no))
        }
        Stmt::Let(_, query, body, span) | Stmt::Guarded(body, query, span) => {
            let query = check_query(query, below);
            let body = check_statement(body.get(), below);
            node(span.from, levels, both(query, body))
        }
        Stmt::Call(_, arguments, span) => {
            let arguments = check_queries(arguments.as_slice(), below);
            node(span.from, levels, arguments)
        }
        Stmt::Block(parts, _) => check_statements(parts.as_slice(), levels),
        Stmt::Skip(span) => leaf(span.from, levels),
        Stmt::Insert(value, span) => check_insert(value, *span, levels),
        Stmt::InsertBefore(path, value, span) | Stmt::InsertAfter(path, value, span) => {
            let path = check_path(path, levels);
            let inserted = check_insert_in(value, *span, inner(&path));
            within(path, inserted)
        }
        Stmt::InsertFirst(path, value, span) | Stmt::InsertLast(path, value, span) => {
            let path = check_path(path, levels);
            let left = inner(&path);
            let inserted = check_insert_in(value, *span, left.saturating_sub(1));
            within(path, node(span.from, left, inserted))
        }
        Stmt::Delete(path, span) | Stmt::Rename(path, _, span) => {
            let path = check_path(path, levels);
            let left = inner(&path);
            within(path, leaf(span.from, left))
        }
        Stmt::DeleteFrom(path, span) => {
            let path = check_path(path, levels);
            let left = inner(&path);
            let deleted = leaf(span.from, left.saturating_sub(1));
            within(path, node(span.from, left, deleted))
        }
        Stmt::Replace(path, value, span) => {
            let path = check_path(path, levels);
            let replaced = check_replace(value, *span, inner(&path));
            within(path, replaced)
        }
        Stmt::ReplaceIn(path, value, span) => {
            let path = check_path(path, levels);
            let left = inner(&path);
            let replaced = check_replace(value, *span, left.saturating_sub(1));
            within(path, node(span.from, left, replaced))
        }
    }
}

// Statements: one alone is as it is, several are the parts of one node.
#[cycle(statements)]
fn check_statements(stmts: &[Stmt], levels: u32) -> Result<(), u32>
    ensures { (procs : List ℕ) →
        Finds core_level (stmts_form procs stmts.now) levels (told result) }
{
    match stmts {
        [] => leaf(0, levels),
        [only] => check_statement(only, levels),
        [first, _, ..] => {
            let parts = check_each(stmts, levels.saturating_sub(1));
            node(first.span().from, levels, parts)
        }
    }
}

#[cycle(statements)]
fn check_each(stmts: &[Stmt], levels: u32) -> Result<(), u32>
    ensures { (procs : List ℕ) → Finds (λ cs n. flat_map (λ c. core_level c n) cs)
        (of_all (map (stmt_form procs) stmts.now)) levels (told result) }
{
    let mut found = Ok(());
    for stmt in stmts {
        found = both(found, check_statement(stmt, levels));
    }
    found
}

fn check_insert(value: &Expr, at: Span, levels: u32) -> Result<(), u32>
    ensures { Finds core_level (of_one (insert at) (query_form value.now)) levels (told result) }
{
    let value = check_query(value, levels.saturating_sub(1));
    node(at.from, levels, value)
}

// `insert` in one node.
fn check_insert_in(value: &Expr, at: Span, levels: u32) -> Result<(), u32>
    ensures before { Finds core_level (of_one (λ q. left at (insert at q)) (query_form value.now))
        levels (told result) }
    ensures behind { Finds core_level (of_one (λ q. right at (insert at q)) (query_form value.now))
        levels (told result) }
{
    let inserted = check_insert(value, at, levels.saturating_sub(1));
    node(at.from, levels, inserted)
}

// `delete` and `insert` of a query, one behind the other.
fn check_replace(value: &Expr, at: Span, levels: u32) -> Result<(), u32>
    ensures { Finds core_level
        (of_one (λ q. in_order at (delete at ∷ insert at q ∷ [])) (query_form value.now))
        levels (told result) }
{
    let below = levels.saturating_sub(1);
    let deleted = leaf(at.from, below);
    let inserted = check_insert(value, at, below);
    node(at.from, levels, both(deleted, inserted))
}

// How many levels are left to the statement inside.
fn inner(round: &Result<u32, u32>) -> u32
    ensures { result ≡ levels_left round.now }
{
    match round {
        Ok(levels) => *levels,
        Err(_) => 0,
    }
}

// What stands round a statement, and the statement.
fn within(round: Result<u32, u32>, inside: Result<(), u32>) -> Result<(), u32>
    ensures { told result ≡ found_round round (told inside) }
{
    match round {
        Ok(_) => inside,
        Err(place) => Err(place),
    }
}

// One more node round a statement.
fn below(place: u32, levels: u32) -> Result<u32, u32>
    ensures ok { IfOk result (λ m. (nodes : ℕ → List ℕ) →
        first (level place nodes levels) ≡ first (nodes m)) }
    ensures err { IfErr result (λ p. (nodes : ℕ → List ℕ) →
        first (level place nodes levels) ≡ Some p) }
{
    if levels == 0 {
        Err(place)
    } else {
        Ok(levels - 1)
    }
}

// What stands round the statement at the end of a path.
fn check_path(path: &Path, levels: u32) -> Result<u32, u32>
    ensures { Leaves (on_path path.now) levels result }
{
    let steps = path.steps.as_slice();
    let mut levels = levels;
    let mut behind = steps.len();
    for step in steps {
        behind -= 1;
        match check_step(step, behind > 0, levels) {
            Ok(left) => levels = left,
            Err(place) => return Err(place),
        }
    }
    Ok(levels)
}

// A step, and the node that the slash behind it makes.
fn check_step(step: &Step, goes_on: bool, levels: u32) -> Result<u32, u32>
    ensures { Leaves (λ s. on_step step.now (behind_step step.now goes_on s)) levels result }
{
    match check_test(&step.test, step.span, levels) {
        Ok(left) => match check_variable(&step.var, step.span, left) {
            Ok(left) => match check_filter(&step.filter, step.span, left) {
                Ok(left) => check_slash(step, goes_on, left),
                Err(place) => Err(place),
            },
            Err(place) => Err(place),
        },
        Err(place) => Err(place),
    }
}

fn check_slash(step: &Step, goes_on: bool, levels: u32) -> Result<u32, u32>
    ensures { Leaves (behind_step step.now goes_on) levels result }
{
    if goes_on {
        below(step.span.from, levels)
    } else {
        Ok(levels)
    }
}

fn check_test(test: &Option<TestText>, at: Span, levels: u32) -> Result<u32, u32>
    ensures { Leaves (tested at test.now) levels result }
{
    match test {
        None => Ok(levels),
        Some(_) => match below(at.from, levels) {
            Ok(left) => below(at.from, left),
            Err(place) => Err(place),
        },
    }
}

fn check_variable(var: &Option<Name>, at: Span, levels: u32) -> Result<u32, u32>
    ensures { Leaves (remembered at var.now) levels result }
{
    match var {
        None => Ok(levels),
        Some(_) => below(at.from, levels),
    }
}

fn check_filter(filter: &Option<Expr>, at: Span, levels: u32) -> Result<u32, u32>
    ensures { Leaves (filtered at filter.now) levels result }
{
    match filter {
        None => Ok(levels),
        Some(filter) => match below(at.from, levels) {
            Ok(left) => match check_query(filter, left) {
                Ok(()) => Ok(left),
                Err(place) => Err(place),
            },
            Err(place) => Err(place),
        },
    }
}

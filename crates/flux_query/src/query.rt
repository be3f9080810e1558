// The syntax tree of queries.

use flux_atom::{Atom, Boxed, Items, Name};
use flux_calculus::{Span, Test, Var};

/// A query, with the text that it comes from.
#[derive(Debug, Drop)]
pub enum Query {
    /// Queries one behind the other.
    Concat(Items<Query>, Span),
    /// An element with this label and with the value of a query as its content.
    Elem(Name, Boxed<Query>, Span),
    Lit(Atom, Span),
    Var(Var, Span),
    /// The second query, with the variable bound to the value of the first.
    Let(Var, Boxed<Query>, Boxed<Query>, Span),
    /// The second query where the first is true, the third where it is false.
    If(Boxed<Query>, Boxed<Query>, Boxed<Query>, Span),
    /// Whether two queries have the same value.
    Same(Boxed<Query>, Boxed<Query>, Span),
    /// Whether the number that the first query gives is less than that of the second.
    Less(Boxed<Query>, Boxed<Query>, Span),
    /// What the one tree of the variable contains.
    Child(Var, Span),
    /// The trees of a query that pass the test.
    Filter(Boxed<Query>, Test, Span),
    /// The second query for each tree of the first, which the variable is bound to.
    For(Var, Boxed<Query>, Boxed<Query>, Span),
}

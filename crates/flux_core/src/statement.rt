// The syntax tree of statements.

use flux_atom::{Boxed, Items, Name};
use flux_calculus::{Span, Test, Var};
use flux_query::Query;

/// A statement, with the text that it comes from.
#[derive(Debug, Drop)]
pub enum Core {
    /// The focus stays.
    Skip(Span),
    /// Statements one behind the other.
    Seq(Items<Core>, Span),
    /// The first statement where the query is true, the second where it is false.
    If(Query, Boxed<Core>, Boxed<Core>, Span),
    /// The statement, with the variable bound to the value of the query.
    Let(Var, Query, Boxed<Core>, Span),
    /// The statement, with the variable bound to the focus.
    Snapshot(Var, Boxed<Core>, Span),
    /// The value of the query in an empty focus' place.
    Insert(Query, Span),
    /// Nothing in the focus' place.
    Delete(Span),
    /// Another label for the one element.
    Rename(Name, Span),
    /// The statement on the one tree, where it passes the test.
    Test(Test, Boxed<Core>, Span),
    /// The statement on the content of the one element.
    Children(Boxed<Core>, Span),
    /// The statement on the empty forest before the focus.
    Left(Boxed<Core>, Span),
    /// The statement on the empty forest behind the focus.
    Right(Boxed<Core>, Span),
    /// The statement on each tree of the focus by itself.
    Iter(Boxed<Core>, Span),
    /// The procedure with this index, with the values of the queries for its parameters.
    Call(u32, Items<Query>, Span),
}

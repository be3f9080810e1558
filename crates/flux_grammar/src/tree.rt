// Scripts as they are written.
ghost use Rattle.std.specs.Prelude.{◌≡◌};
ghost use Rattle.flux_grammar.specs.Spans.{type_span, expr_span, stmt_span};

use flux_atom::{Atom, AtomKind, Boxed, Items, Name};
use flux_calculus::Span;

/// A script.
#[derive(Debug, Drop)]
pub struct Script {
    pub types: Items<TypeDef>,
    pub procs: Items<ProcDef>,
    pub input: TypeText,
    pub output: Option<TypeText>,
    pub body: Items<Stmt>,
}

/// The definition of a type.
#[derive(Debug, Drop)]
pub struct TypeDef {
    pub name: Name,
    /// Where the name stands.
    pub at: Span,
    pub body: TypeText,
}

/// The definition of a procedure.
#[derive(Debug, Drop)]
pub struct ProcDef {
    pub name: Name,
    /// Where the name stands.
    pub at: Span,
    pub params: Items<ParamDef>,
    pub focus: TypeText,
    pub result: TypeText,
    pub body: Items<Stmt>,
}

/// A parameter of a procedure.
#[derive(Debug, Drop)]
pub struct ParamDef {
    pub var: Name,
    /// Where the variable stands.
    pub at: Span,
    pub ty: TypeText,
}

/// A type as it is written, with the span of its text.
#[derive(Debug, Drop)]
pub enum TypeText {
    /// Two parts or more with `|` between them.
    Alt(Items<TypeText>, Span),
    /// Two parts or more with `,` between them.
    Seq(Items<TypeText>, Span),
    /// A type and one mark or more behind it.
    Marked(Boxed<TypeText>, Items<Mark>, Span),
    /// A pair of parentheses.
    Group(Option<Boxed<TypeText>>, Span),
    Elem(Name, Option<Boxed<TypeText>>, Span),
    /// `any` and its content.
    AnyElem(Option<Boxed<TypeText>>, Span),
    Kind(AtomKind, Span),
    Named(Name, Span),
}

impl TypeText {
    /// Where its text stands.
    pub fn span(&self) -> Span
        ensures { result ≡ type_span self.now }
    {
        match self {
            TypeText::Alt(_, span)
            | TypeText::Seq(_, span)
            | TypeText::Marked(_, _, span)
            | TypeText::Group(_, span)
            | TypeText::Elem(_, _, span)
            | TypeText::AnyElem(_, span)
            | TypeText::Kind(_, span)
            | TypeText::Named(_, span) => *span,
        }
    }
}

/// A mark behind a type.
#[derive(Clone, Copy, Debug, PartialEq, Eq)]
pub struct Mark {
    pub repetition: Repetition,
    /// The type up to this mark and with it.
    pub span: Span,
}

/// How often a type with a mark stands.
#[derive(Clone, Copy, Debug, PartialEq, Eq)]
pub enum Repetition {
    /// `*`: any number of times.
    Star,
    /// `+`: once or more.
    Plus,
    /// `?`: once or not at all.
    Optional,
}

/// A statement as it is written, with the span of its text.
#[derive(Debug, Drop)]
pub enum Stmt {
    Update(Path, Boxed<Stmt>, Span),
    If(Expr, Boxed<Stmt>, Boxed<Stmt>, Span),
    Let(Name, Expr, Boxed<Stmt>, Span),
    /// A statement and its `WHERE`.
    Guarded(Boxed<Stmt>, Expr, Span),
    Skip(Span),
    Insert(Expr, Span),
    InsertBefore(Path, Expr, Span),
    InsertAfter(Path, Expr, Span),
    InsertFirst(Path, Expr, Span),
    InsertLast(Path, Expr, Span),
    Delete(Path, Span),
    DeleteFrom(Path, Span),
    Rename(Path, Name, Span),
    Replace(Path, Expr, Span),
    ReplaceIn(Path, Expr, Span),
    Call(Name, Items<Expr>, Span),
    /// Statements between braces.
    Block(Items<Stmt>, Span),
}

impl Stmt {
    /// Where its text stands.
    pub fn span(&self) -> Span
        ensures { result ≡ stmt_span self.now }
    {
        match self {
            Stmt::Update(_, _, span)
            | Stmt::If(_, _, _, span)
            | Stmt::Let(_, _, _, span)
            | Stmt::Guarded(_, _, span)
            | Stmt::Skip(span)
            | Stmt::Insert(_, span)
            | Stmt::InsertBefore(_, _, span)
            | Stmt::InsertAfter(_, _, span)
            | Stmt::InsertFirst(_, _, span)
            | Stmt::InsertLast(_, _, span)
            | Stmt::Delete(_, span)
            | Stmt::DeleteFrom(_, span)
            | Stmt::Rename(_, _, span)
            | Stmt::Replace(_, _, span)
            | Stmt::ReplaceIn(_, _, span)
            | Stmt::Call(_, _, span)
            | Stmt::Block(_, span) => *span,
        }
    }
}

/// A path: one step or more.
#[derive(Debug, Drop)]
pub struct Path {
    pub steps: Items<Step>,
}

/// A step of a path.
#[derive(Debug, Drop)]
pub struct Step {
    /// The variable before `AS`.
    pub var: Option<Name>,
    /// The test, or none for `.`.
    pub test: Option<TestText>,
    /// The query between square brackets.
    pub filter: Option<Expr>,
    pub span: Span,
}

/// A test as it is written.
#[derive(Clone, Copy, Debug, PartialEq, Eq)]
pub enum TestText {
    Label(Name),
    AnyElement,
    OfText,
    OfBool,
    OfInt,
}

/// A query as it is written, with the span of its text.
#[derive(Debug, Drop)]
pub enum Expr {
    /// Two items or more with `,` between them.
    List(Items<Expr>, Span),
    For(Name, Boxed<Expr>, Boxed<Expr>, Span),
    Let(Name, Boxed<Expr>, Boxed<Expr>, Span),
    If(Boxed<Expr>, Boxed<Expr>, Boxed<Expr>, Span),
    Same(Boxed<Expr>, Boxed<Expr>, Span),
    Less(Boxed<Expr>, Boxed<Expr>, Span),
    /// A query and one step or more behind it.
    Stepped(Boxed<Expr>, Items<QueryStep>, Span),
    /// A pair of parentheses.
    Group(Option<Boxed<Expr>>, Span),
    Lit(Atom, Span),
    Var(Name, Span),
    Elem(Name, Option<Boxed<Expr>>, Span),
}

impl Expr {
    /// Where its text stands.
    pub fn span(&self) -> Span
        ensures { result ≡ expr_span self.now }
    {
        match self {
            Expr::List(_, span)
            | Expr::For(_, _, _, span)
            | Expr::Let(_, _, _, span)
            | Expr::If(_, _, _, span)
            | Expr::Same(_, _, span)
            | Expr::Less(_, _, span)
            | Expr::Stepped(_, _, span)
            | Expr::Group(_, span)
            | Expr::Lit(_, span)
            | Expr::Var(_, span)
            | Expr::Elem(_, _, span) => *span,
        }
    }
}

/// A step behind a query, with the span of the query up to this step and with it.
#[derive(Debug, Drop)]
pub enum QueryStep {
    /// `/` and a test.
    Down(TestText, Span),
    /// `/child()`.
    Child(Span),
    /// `::` and a test.
    Filter(TestText, Span),
}

// Types.
ghost use Rattle.std.specs.Prelude.{◌≡◌, ◌≤◌, ◌<◌, ◌+◌, Some, IsSome, length};
ghost use Rattle.flux_grammar.specs.declared.lexeme.Lexeme.TheVariants.{Sign as Signed, Word, Quoted, Soft as Softly};
ghost use Rattle.flux_grammar.specs.Grammar.{type, alts, tseq, seqs, tpost, marks, tatom, labelled, content, alt_of, seq_of, marked_of};
ghost use Rattle.flux_grammar.specs.States.{head};
ghost use Rattle.flux_syntax.specs.At.{at, next_repetition};
ghost use Rattle.flux_syntax.specs.Parses.{Parses, Made};

use crate::reader::{Fault, LIMIT, Reader};
use flux_atom::{AtomKind, Boxed, Items, Name};
use flux_calculus::Span;
use flux_grammar::{Mark, Repetition, Sign, Soft, TypeText};
use std::alloc::Global;

fn made_alt(
    alloc: Global,
    first: TypeText,
    rest: Items<TypeText>,
    to: u32,
) -> Result<TypeText, Fault>
    ensures { Made (alt_of first rest to) result }
{
    if rest.is_empty() {
        return Ok(first);
    }
    let from = first.span().from;
    let mut all = Items::new(alloc);
    all.push(first)?;
    all.append(rest)?;
    Ok(TypeText::Alt(all, Span { from, to }))
}

fn made_seq(
    alloc: Global,
    first: TypeText,
    rest: Items<TypeText>,
    to: u32,
) -> Result<TypeText, Fault>
    ensures { Made (seq_of first rest to) result }
{
    if rest.is_empty() {
        return Ok(first);
    }
    let from = first.span().from;
    let mut all = Items::new(alloc);
    all.push(first)?;
    all.append(rest)?;
    Ok(TypeText::Seq(all, Span { from, to }))
}

fn made_marked(
    alloc: Global,
    inner: TypeText,
    marks: Items<Mark>,
    to: u32,
) -> Result<TypeText, Fault>
    ensures { Made (marked_of inner marks to) result }
{
    if marks.is_empty() {
        return Ok(inner);
    }
    let from = inner.span().from;
    let inner = Boxed::new(alloc, inner)?;
    Ok(TypeText::Marked(inner, marks, Span { from, to }))
}

impl<'a> Reader<'a> {
    /// Reads a type that lies inside so many others.
    #[cycle(types)]
    pub(crate) fn type_text(&mut self, depth: u32) -> Result<TypeText, Fault>
        requires { depth ≤ LIMIT }
        ensures parses { Parses (type depth) (at self.old) (at self.new) result }
        ensures shorter { length self.new.left.now ≤ length self.old.left.now }
    {
        if depth >= LIMIT {
            return Err(Fault::Unfit);
        }
        let first = self.sequence(depth + 1)?;
        let rest = self.alternatives(depth + 1)?;
        made_alt(self.alloc, first, rest, self.end)
    }

    #[cycle(types)]
    fn alternatives(&mut self, depth: u32) -> Result<Items<TypeText>, Fault>
        requires { depth ≤ LIMIT }
        ensures parses { Parses (alts depth) (at self.old) (at self.new) result }
        ensures shorter { length self.new.left.now ≤ length self.old.left.now }
    {
        let mut all = Items::new(self.alloc);
        while self.is_at(Sign::Bar) {
            self.advance();
            let next = self.sequence(depth)?;
            all.push(next)?;
        }
        Ok(all)
    }

    #[cycle(types)]
    fn sequence(&mut self, depth: u32) -> Result<TypeText, Fault>
        requires { depth ≤ LIMIT }
        ensures parses { Parses (tseq depth) (at self.old) (at self.new) result }
        ensures shorter { length self.new.left.now ≤ length self.old.left.now }
    {
        let first = self.repeated(depth)?;
        let rest = self.followers(depth)?;
        made_seq(self.alloc, first, rest, self.end)
    }

    #[cycle(types)]
    fn followers(&mut self, depth: u32) -> Result<Items<TypeText>, Fault>
        requires { depth ≤ LIMIT }
        ensures parses { Parses (seqs depth) (at self.old) (at self.new) result }
        ensures shorter { length self.new.left.now ≤ length self.old.left.now }
    {
        let mut all = Items::new(self.alloc);
        while self.is_at(Sign::Comma) {
            self.advance();
            let next = self.repeated(depth)?;
            all.push(next)?;
        }
        Ok(all)
    }

    /// Reads a type without `|` and `,` outside brackets.
    #[cycle(types)]
    pub(crate) fn repeated(&mut self, depth: u32) -> Result<TypeText, Fault>
        requires { depth ≤ LIMIT }
        ensures parses { Parses (tpost depth) (at self.old) (at self.new) result }
        ensures shorter { length self.new.left.now ≤ length self.old.left.now }
    {
        let inner = self.atom(depth)?;
        let marks = self.marks(inner.span().from)?;
        made_marked(self.alloc, inner, marks, self.end)
    }

    /// Reads a type that lies inside no other, into a box.
    pub(crate) fn boxed_type(&mut self) -> Result<Boxed<TypeText>, Fault>
        ensures parses { Parses (type 0) (at self.old) (at self.new) result }
        ensures shorter { length self.new.left.now ≤ length self.old.left.now }
    {
        let tree = self.type_text(0)?;
        Ok(Boxed::new(self.alloc, tree)?)
    }

    fn repetition(&self) -> Option<Repetition>
        ensures next { result ≡ next_repetition (head (at self.now)) }
        ensures more { IsSome result → 0 < length self.now.left.now }
    {
        if self.is_at(Sign::Star) {
            return Some(Repetition::Star);
        }
        if self.is_at(Sign::Plus) {
            return Some(Repetition::Plus);
        }
        if self.is_at(Sign::Question) {
            return Some(Repetition::Optional);
        }
        None
    }

    // Reads the marks behind a type that begins there.
    fn marks(&mut self, from: u32) -> Result<Items<Mark>, Fault>
        ensures parses { Parses (marks from) (at self.old) (at self.new) result }
        ensures shorter { length self.new.left.now ≤ length self.old.left.now }
    {
        let mut all = Items::new(self.alloc);
        while let Some(repetition) = self.repetition() {
            let to = self.advance().to;
            let span = Span { from, to };
            all.push(Mark { repetition, span })?;
        }
        Ok(all)
    }

    #[cycle(types)]
    fn atom(&mut self, depth: u32) -> Result<TypeText, Fault>
        requires { depth ≤ LIMIT }
        ensures parses { Parses (tatom depth) (at self.old) (at self.new) result }
        ensures shorter { length self.new.left.now ≤ length self.old.left.now }
    {
        if self.is_at(Sign::Open) {
            return self.group(depth);
        }
        if let Some(name) = self.quoted() {
            return self.quoted_element(name, depth);
        }
        if let Some((soft, name)) = self.soft() {
            return self.soft_atom(soft, name, depth);
        }
        match self.word() {
            Some(name) => self.named(name, depth),
            None => Err(Fault::Unfit),
        }
    }

    #[cycle(types)]
    fn group(&mut self, depth: u32) -> Result<TypeText, Fault>
        requires depth { depth ≤ LIMIT }
        requires open { head (at self.old) ≡ Some (Signed Sign.Open) }
        requires more { 0 < length self.old.left.now }
        ensures parses { Parses (tatom depth) (at self.old) (at self.new) result }
        ensures shorter { length self.new.left.now ≤ length self.old.left.now }
    {
        let from = self.advance().from;
        let inside = self.content(depth)?;
        let to = self.take(Sign::Close)?.to;
        Ok(TypeText::Group(inside, Span { from, to }))
    }

    #[cycle(types)]
    fn quoted_element(&mut self, name: Name, depth: u32) -> Result<TypeText, Fault>
        requires depth { depth ≤ LIMIT }
        requires label { head (at self.old) ≡ Some (Quoted name) }
        requires more { 0 < length self.old.left.now }
        ensures parses { Parses (tatom depth) (at self.old) (at self.new) result }
        ensures shorter { length self.new.left.now ≤ length self.old.left.now }
    {
        let from = self.advance().from;
        self.take(Sign::OpenSquare)?;
        let inside = self.content(depth)?;
        let to = self.take(Sign::CloseSquare)?.to;
        Ok(TypeText::Elem(name, inside, Span { from, to }))
    }

    #[cycle(types)]
    fn soft_atom(&mut self, soft: Soft, name: Name, depth: u32) -> Result<TypeText, Fault>
        requires depth { depth ≤ LIMIT }
        requires soft { head (at self.old) ≡ Some (Softly soft name) }
        requires more { 0 < length self.old.left.now }
        ensures parses { Parses (tatom depth) (at self.old) (at self.new) result }
        ensures shorter { length self.new.left.now ≤ length self.old.left.now }
    {
        match soft {
            Soft::AnyWord => self.any_element(name, depth),
            Soft::StringWord => {
                let at = self.advance();
                self.labelled(depth, at, name, TypeText::Kind(AtomKind::Text, at))
            }
            Soft::BoolWord => {
                let at = self.advance();
                self.labelled(depth, at, name, TypeText::Kind(AtomKind::Bool, at))
            }
            Soft::IntWord => {
                let at = self.advance();
                self.labelled(depth, at, name, TypeText::Kind(AtomKind::Int, at))
            }
            Soft::ChildWord => {
                let at = self.advance();
                self.labelled(depth, at, name, TypeText::Named(name, at))
            }
        }
    }

    #[cycle(types)]
    fn any_element(&mut self, name: Name, depth: u32) -> Result<TypeText, Fault>
        requires depth { depth ≤ LIMIT }
        requires any { head (at self.old) ≡ Some (Softly Soft.AnyWord name) }
        requires more { 0 < length self.old.left.now }
        ensures parses { Parses (tatom depth) (at self.old) (at self.new) result }
        ensures shorter { length self.new.left.now ≤ length self.old.left.now }
    {
        let from = self.advance().from;
        self.take(Sign::OpenSquare)?;
        let inside = self.content(depth)?;
        let to = self.take(Sign::CloseSquare)?.to;
        Ok(TypeText::AnyElem(inside, Span { from, to }))
    }

    #[cycle(types)]
    fn named(&mut self, name: Name, depth: u32) -> Result<TypeText, Fault>
        requires depth { depth ≤ LIMIT }
        requires word { head (at self.old) ≡ Some (Word name) }
        requires more { 0 < length self.old.left.now }
        ensures parses { Parses (tatom depth) (at self.old) (at self.new) result }
        ensures shorter { length self.new.left.now ≤ length self.old.left.now }
    {
        let at = self.advance();
        self.labelled(depth, at, name, TypeText::Named(name, at))
    }

    // What stands behind a word: the content of an element, or nothing, and the word is the type
    // that it is alone.
    #[cycle(types)]
    fn labelled(
        &mut self,
        depth: u32,
        word: Span,
        name: Name,
        bare: TypeText,
    ) -> Result<TypeText, Fault>
        requires { depth ≤ LIMIT }
        ensures parses { Parses (labelled depth word name bare) (at self.old) (at self.new) result }
        ensures shorter { length self.new.left.now ≤ length self.old.left.now }
    {
        if !self.is_at(Sign::OpenSquare) {
            return Ok(bare);
        }
        self.advance();
        let inside = self.content(depth)?;
        let to = self.take(Sign::CloseSquare)?.to;
        Ok(TypeText::Elem(
            name,
            inside,
            Span {
                from: word.from,
                to,
            },
        ))
    }

    #[cycle(types)]
    fn content(&mut self, depth: u32) -> Result<Option<Boxed<TypeText>>, Fault>
        requires { depth ≤ LIMIT }
        ensures parses { Parses (content depth) (at self.old) (at self.new) result }
        ensures shorter { length self.new.left.now ≤ length self.old.left.now }
    {
        if self.is_at(Sign::Close) {
            return Ok(None);
        }
        if self.is_at(Sign::CloseSquare) {
            return Ok(None);
        }
        let inside = self.type_text(depth)?;
        Ok(Some(Boxed::new(self.alloc, inside)?))
    }
}

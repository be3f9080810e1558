// Whole scripts.
ghost use Rattle.std.specs.Prelude.{◌≡◌, ◌≤◌, ◌<◌, Some, length};
ghost use Rattle.flux_grammar.specs.declared.lexeme.Keyword.TheVariants as key;
ghost use Rattle.flux_grammar.specs.declared.lexeme.Lexeme.TheVariants.{Reserved};
ghost use Rattle.flux_grammar.specs.Grammar.{typedefs, typedef, procdefs, procdef, params, params_on, param, output, script};
ghost use Rattle.flux_grammar.specs.States.{head};
ghost use Rattle.flux_syntax.specs.At.{at};
ghost use Rattle.flux_syntax.specs.Parses.{Parses};

use crate::made::prepended;
use crate::reader::{Fault, Reader};
use flux_atom::Items;
use flux_grammar::{Keyword, ParamDef, ProcDef, Script, Sign, TypeDef, TypeText};

impl<'a> Reader<'a> {
    /// Reads a script.
    pub(crate) fn script(&mut self) -> Result<Script, Fault>
        ensures parses { Parses script (at self.old) (at self.new) result }
        ensures shorter { length self.new.left.now ≤ length self.old.left.now }
    {
        let types = self.type_definitions()?;
        let procs = self.procedures()?;
        self.take_word(Keyword::Input)?;
        let input = self.boxed_type()?;
        let output = self.output()?;
        self.take_word(Keyword::Do)?;
        let body = self.statements(0)?;
        Ok(Script {
            types,
            procs,
            input: input.into_inner(),
            output,
            body,
        })
    }

    fn type_definitions(&mut self) -> Result<Items<TypeDef>, Fault>
        ensures parses { Parses typedefs (at self.old) (at self.new) result }
        ensures shorter { length self.new.left.now ≤ length self.old.left.now }
    {
        let mut all = Items::new(self.alloc);
        while self.is_at_word(Keyword::Type) {
            let next = self.type_definition()?;
            all.push(next)?;
        }
        Ok(all)
    }

    fn type_definition(&mut self) -> Result<TypeDef, Fault>
        requires open { head (at self.old) ≡ Some (Reserved key.Type) }
        requires more { 0 < length self.old.left.now }
        ensures parses { Parses typedef (at self.old) (at self.new) result }
        ensures shorter { length self.new.left.now < length self.old.left.now }
    {
        self.advance();
        let (name, at) = self.type_name()?;
        self.take(Sign::Equal)?;
        let body = self.type_text(0)?;
        self.take(Sign::Semicolon)?;
        Ok(TypeDef { name, at, body })
    }

    fn procedures(&mut self) -> Result<Items<ProcDef>, Fault>
        ensures parses { Parses procdefs (at self.old) (at self.new) result }
        ensures shorter { length self.new.left.now ≤ length self.old.left.now }
    {
        let mut all = Items::new(self.alloc);
        while self.is_at_word(Keyword::Procedure) {
            let next = self.procedure()?;
            all.push(next)?;
        }
        Ok(all)
    }

    fn procedure(&mut self) -> Result<ProcDef, Fault>
        requires open { head (at self.old) ≡ Some (Reserved key.Procedure) }
        requires more { 0 < length self.old.left.now }
        ensures parses { Parses procdef (at self.old) (at self.new) result }
        ensures shorter { length self.new.left.now < length self.old.left.now }
    {
        self.advance();
        let (name, at) = self.label()?;
        self.take(Sign::Open)?;
        let params = self.parameters()?;
        self.take(Sign::Close)?;
        self.take(Sign::Colon)?;
        let focus = self.boxed_type()?;
        self.take(Sign::Arrow)?;
        let result = self.boxed_type()?;
        self.take(Sign::OpenBrace)?;
        let body = self.statements(0)?;
        self.take(Sign::CloseBrace)?;
        Ok(ProcDef {
            name,
            at,
            params,
            focus: focus.into_inner(),
            result: result.into_inner(),
            body,
        })
    }

    fn parameters(&mut self) -> Result<Items<ParamDef>, Fault>
        ensures parses { Parses params (at self.old) (at self.new) result }
        ensures shorter { length self.new.left.now ≤ length self.old.left.now }
    {
        if self.is_at(Sign::Close) {
            return Ok(Items::new(self.alloc));
        }
        if self.is_at(Sign::CloseSquare) {
            return Ok(Items::new(self.alloc));
        }
        let first = self.parameter()?;
        let rest = self.parameters_on()?;
        prepended(self.alloc, first, rest)
    }

    fn parameters_on(&mut self) -> Result<Items<ParamDef>, Fault>
        ensures parses { Parses params_on (at self.old) (at self.new) result }
        ensures shorter { length self.new.left.now ≤ length self.old.left.now }
    {
        let mut all = Items::new(self.alloc);
        while self.is_at(Sign::Comma) {
            self.advance();
            let next = self.parameter()?;
            all.push(next)?;
        }
        Ok(all)
    }

    fn parameter(&mut self) -> Result<ParamDef, Fault>
        ensures parses { Parses param (at self.old) (at self.new) result }
        ensures shorter { length self.new.left.now ≤ length self.old.left.now }
    {
        let (var, at) = self.var()?;
        self.take(Sign::Colon)?;
        let ty = self.repeated(0)?;
        Ok(ParamDef { var, at, ty })
    }

    fn output(&mut self) -> Result<Option<TypeText>, Fault>
        ensures parses { Parses output (at self.old) (at self.new) result }
        ensures shorter { length self.new.left.now ≤ length self.old.left.now }
    {
        if !self.is_at_word(Keyword::Output) {
            return Ok(None);
        }
        self.advance();
        let output = self.type_text(0)?;
        Ok(Some(output))
    }
}

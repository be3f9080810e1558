// What a path puts round a statement.
ghost use Rattle.std.specs.Prelude.{◌≡◌, map, IfOk};
ghost use Rattle.std.specs.Option.{option_map};
ghost use Rattle.flux_calculus.specs.Core.{children};
ghost use Rattle.flux_core.specs.Statements.{core_of};
ghost use Rattle.flux_grammar.specs.NormalQueries.{of_all, test_of};
ghost use Rattle.flux_normal.specs.Layers.{layer_of, filter_form, step_form, under_filter, under_variable, under_test, under_step, under_steps};
ghost use Rattle.flux_query.specs.Read.{query_of};

use crate::queries::{Normalizer, test};
use flux_atom::{Boxed, Items, Name};
use flux_calculus::{Span, Test, Var};
use flux_core::Core;
use flux_grammar::{Expr, Path, Step, TestText};
use flux_query::Query;
use std::alloc::{AllocError, Global};

/// A step of a path, with the query of its filter.
#[derive(Drop)]
pub(crate) struct Layer {
    span: Span,
    var: Option<Name>,
    test: Option<Test>,
    filter: Option<Query>,
}

impl Normalizer {
    /// The steps of a path, with the queries of their filters.
    pub(crate) fn layers(&mut self, path: &Path) -> Result<Items<Layer>, AllocError>
        ensures { IfOk result (λ layers.
            of_all (map step_form path.now.steps) self.old.made
            ≡ (map layer_of layers, self.new.made)) }
    {
        let mut layers = Items::new(self.alloc);
        for step in path.steps.as_slice() {
            layers.push(self.layer(step)?)?;
        }
        Ok(layers)
    }

    fn layer(&mut self, step: &Step) -> Result<Layer, AllocError>
        ensures { IfOk result (λ layer.
            step_form step.now self.old.made ≡ (layer_of layer, self.new.made)) }
    {
        let filter = self.filter(&step.filter)?;
        Ok(Layer {
            span: step.span,
            var: step.var,
            test: test_in(&step.test),
            filter,
        })
    }

    fn filter(&mut self, written: &Option<Expr>) -> Result<Option<Query>, AllocError>
        ensures { IfOk result (λ filter.
            filter_form written.now self.old.made
            ≡ (option_map query_of filter, self.new.made)) }
    {
        match written {
            None => Ok(None),
            Some(expr) => Ok(Some(self.query(expr)?)),
        }
    }
}

fn test_in(written: &Option<TestText>) -> Option<Test>
    ensures { result ≡ option_map test_of written.now }
{
    match written {
        None => None,
        Some(written) => Some(test(written)),
    }
}

/// The statement with the steps of a path round it.
pub(crate) fn under_layers(
    alloc: Global,
    layers: Items<Layer>,
    core: Core,
) -> Result<Core, AllocError>
    ensures { IfOk result (λ made.
        core_of made ≡ under_steps (map layer_of layers) (core_of core)) }
{
    let mut layers = layers;
    let Some(last) = layers.pop() else {
        return Ok(core);
    };
    let mut made = under_layer(alloc, last, core)?;
    while let Some(layer) = layers.pop() {
        let children = inside(alloc, made, layer.span)?;
        made = under_layer(alloc, layer, children)?;
    }
    Ok(made)
}

/// The statement on the content of the one element.
pub(crate) fn inside(alloc: Global, core: Core, span: Span) -> Result<Core, AllocError>
    ensures { IfOk result (λ made. core_of made ≡ children span (core_of core)) }
{
    Ok(Core::Children(Boxed::new(alloc, core)?, span))
}

// The statement with one step round it.
fn under_layer(alloc: Global, layer: Layer, core: Core) -> Result<Core, AllocError>
    ensures { IfOk result (λ made.
        core_of made ≡ under_step (layer_of layer) (core_of core)) }
{
    let Layer {
        span,
        var,
        test,
        filter,
    } = layer;
    let core = filtered(alloc, span, filter, core)?;
    let core = remembered(alloc, span, var, core)?;
    tested(alloc, span, test, core)
}

fn filtered(
    alloc: Global,
    span: Span,
    filter: Option<Query>,
    core: Core,
) -> Result<Core, AllocError>
    ensures { IfOk result (λ made.
        core_of made ≡ under_filter span (option_map query_of filter) (core_of core)) }
{
    match filter {
        None => Ok(core),
        Some(query) => {
            let core = Boxed::new(alloc, core)?;
            let skip = Boxed::new(alloc, Core::Skip(span))?;
            Ok(Core::If(query, core, skip, span))
        }
    }
}

fn remembered(alloc: Global, span: Span, var: Option<Name>, core: Core) -> Result<Core, AllocError>
    ensures { IfOk result (λ made. core_of made ≡ under_variable span var (core_of core)) }
{
    match var {
        None => Ok(core),
        Some(name) => Ok(Core::Snapshot(Var::Named(name), Boxed::new(alloc, core)?, span)),
    }
}

fn tested(alloc: Global, span: Span, test: Option<Test>, core: Core) -> Result<Core, AllocError>
    ensures { IfOk result (λ made. core_of made ≡ under_test span test (core_of core)) }
{
    match test {
        None => Ok(core),
        Some(test) => {
            let core = Boxed::new(alloc, core)?;
            let passing = Boxed::new(alloc, Core::Test(test, core, span))?;
            Ok(Core::Iter(passing, span))
        }
    }
}

// Tests of what an editor shows.
ghost use Rattle.std.specs.Prelude.{◌≡◌};
ghost use Rattle.flux_calculus.specs.Tests.{kind_matches};
ghost use Rattle.flux_run.specs.Passing.{look_matches};

use flux_atom::AtomKind;
use flux_calculus::Test;
use flux_editor::Look;

pub(crate) fn passes(test: Test, look: Look) -> bool
    ensures { result ≡ look_matches test look }
{
    match look {
        Look::Nothing => false,
        Look::Elem(name) => match test {
            Test::Label(label) => name == label,
            Test::AnyElement => true,
            Test::OfText => false,
            Test::OfBool => false,
            Test::OfInt => false,
        },
        Look::Atom(kind) => is_of_kind(test, kind),
        Look::Many => false,
    }
}

fn is_of_kind(test: Test, kind: AtomKind) -> bool
    ensures { result ≡ kind_matches test kind }
{
    match test {
        Test::Label(_) => false,
        Test::AnyElement => false,
        Test::OfText => matches!(kind, AtomKind::Text),
        Test::OfBool => matches!(kind, AtomKind::Bool),
        Test::OfInt => matches!(kind, AtomKind::Int),
    }
}

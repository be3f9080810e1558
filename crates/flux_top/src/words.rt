// What the words of the command line ask for.
ghost use Rattle.std.specs.Prelude.{◌≡◌, MatchOption, Some, None};
ghost use Rattle.flux_top.specs.Words.{texts, form, command_of};

/// What is asked for, by the names of files.
#[derive(Debug)]
pub enum Words<'w> {
    /// The update of a document, the second, by a script.
    Run(&'w str, &'w str),
    /// The text of a script in the core language.
    Core(&'w str),
}

/// What the words ask for, where they are a form.
pub fn read_words(words: &[String]) -> Option<Words<'_>>
    ensures { MatchOption result
        (form (texts words.now) ≡ None)
        (λ found. form (texts words.now) ≡ Some (command_of found)) }
{
    match words {
        [command, script] => {
            if command.as_str() == "core" {
                Some(Words::Core(script.as_str()))
            } else {
                None
            }
        }
        [command, script, document] => {
            if command.as_str() == "run" {
                Some(Words::Run(script.as_str(), document.as_str()))
            } else {
                None
            }
        }
        _ => None,
    }
}

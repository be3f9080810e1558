// A reader of documents, byte by byte.
ghost use Rattle.std.specs.Prelude.{◌≡◌, ◌+◌, ◌-◌, ◌^◌, ◌<◌, ◌≤◌, ℕ, List, [], ◌∷◌, ◌++◌, Some, length, take, IfOk, IfSome, IfNone, string_bytes};
ghost use Rattle.std.specs.List.{AllPass};
ghost use Rattle.flux_atom.specs.Names.{continues_name, name_text, IsName, IsTable};
ghost use Rattle.flux_atom.specs.NumberSteps.{number_step};
ghost use Rattle.flux_atom.specs.TextSteps.{no_text, read_text, text_step};
ghost use Rattle.flux_trees.specs.Draft.{Draft, depth};
ghost use Rattle.flux_doctext.specs.Reading.{behind_step, close_step, closed_step, content_step, digit_step, end_named, end_numbered, end_step, label_step, name_step, named_step, numbered_step, opened_step, sign_of, step, string_step, tree_step, truth_of};
ghost use Rattle.flux_doctext.specs.Steps.{shape_of, Ends, Follows, HasGrown, IsSound, Passes};

use crate::sign::Sign;
use flux_atom::{Atom, Name, Names, NumberState, Taken, TextReader, can_continue};
use flux_forest::Forest;
use std::alloc::{AllocError, Global};

// Where a reader is. It holds no text but that of the token that it is in.
#[derive(Drop)]
pub(crate) enum State {
    // A forest is expected, or the end of the element that has just begun.
    Content,
    // A tree is expected, as behind a comma.
    Tree,
    // In a name, or at its end.
    Name(String),
    // Behind a label and white space: the bracket has to follow.
    Label(Name),
    // Behind `(`.
    Opened,
    // Behind `()`.
    Closed,
    // In a string.
    Text(TextReader),
    // In a number, or at its end.
    Number(NumberState),
    // Behind a tree.
    Behind,
}

// Where the next byte leads; none where it fits nowhere. The forest and the table hold what is
// read.
pub(crate) fn step(
    alloc: Global,
    state: State,
    byte: u8,
    names: &mut Names,
    forest: &mut Forest,
) -> Result<Option<State>, AllocError>
    requires sound { IsSound names.old state }
    requires table { IsTable names.old }
    requires room { length names.old < 2 ^ 32 - 1 }
    ensures grown { HasGrown names.old names.new 1 }
    ensures next { IfOk result (Follows names.old
        (step (shape_of names.old state) (depth forest.old) byte)
        forest.old names.new forest.new) }
{
    let sign = Sign::of(byte);
    match state {
        State::Content => in_content(alloc, sign, byte, forest),
        State::Tree => at_tree(alloc, State::Tree, sign, byte),
        State::Name(text) => in_name(text, sign, byte, names, forest),
        State::Label(name) => behind_label(name, sign, forest),
        State::Opened => Ok(in_parentheses(sign)),
        State::Closed => Ok(behind_parentheses(sign, forest)),
        State::Text(text) => in_text(text, byte, forest),
        State::Number(number) => in_number(number, sign, byte, forest),
        State::Behind => Ok(behind_tree(sign, forest)),
    }
}

fn in_content(
    alloc: Global,
    sign: Sign,
    byte: u8,
    forest: &mut Forest,
) -> Result<Option<State>, AllocError>
    requires { sign ≡ sign_of byte }
    ensures { (names : List (List ℕ)) → IfOk result (Follows names
        (content_step (depth forest.old) byte sign) forest.old names forest.new) }
{
    match sign {
        Sign::RightBracket => Ok(end_element(forest)),
        Sign::LeftParen => Ok(Some(State::Opened)),
        _ => at_tree(alloc, State::Content, sign, byte),
    }
}

// White space before a tree, or its first byte.
fn at_tree(alloc: Global, state: State, sign: Sign, byte: u8) -> Result<Option<State>, AllocError>
    requires { sign ≡ sign_of byte }
    ensures { (names : List (List ℕ)) (d : Draft (Unit {0})) → IsSound names state
        → IfOk result (Follows names (tree_step (shape_of names state) byte sign) d names d) }
{
    match sign {
        Sign::Space => Ok(Some(state)),
        Sign::Quote => Ok(Some(State::Text(TextReader::new(alloc)))),
        Sign::Letter => {
            let text = longer(String::new(alloc), byte)?;
            Ok(Some(State::Name(text)))
        }
        Sign::Digit => match NumberState::begin(byte) {
            Some(number) => Ok(Some(State::Number(number))),
            None => Ok(None),
        },
        _ => Ok(None),
    }
}

// A name, and a byte that it goes on with.
fn longer(mut text: String, byte: u8) -> Result<String, AllocError>
    requires { byte < 128 }
    ensures { IfOk result (λ longer. string_bytes longer ≡ string_bytes text ++ byte ∷ []) }
{
    push_byte(&mut text, byte)?;
    Ok(text)
}

fn push_byte(text: &mut String, byte: u8) -> Result<(), AllocError>
    requires { byte < 128 }
    ensures { IfOk result (λ _. string_bytes text.new ≡ string_bytes text.old ++ byte ∷ []) }
{
    text.push(char::from(byte))?;
    Ok(())
}

fn in_name(
    text: String,
    sign: Sign,
    byte: u8,
    names: &mut Names,
    forest: &mut Forest,
) -> Result<Option<State>, AllocError>
    requires sign { sign ≡ sign_of byte }
    requires name { IsName (string_bytes text) }
    requires room { length names.old < 2 ^ 32 - 1 }
    ensures grown { HasGrown names.old names.new 1 }
    ensures next { IfOk result (Follows names.old
        (name_step (string_bytes text) (depth forest.old) byte sign)
        forest.old names.new forest.new) }
{
    match sign {
        Sign::Letter | Sign::Digit => {
            let text = longer(text, byte)?;
            Ok(Some(State::Name(text)))
        }
        _ => behind_name(text, sign, names, forest),
    }
}

// A byte that ends a name, which is an atom or a label.
fn behind_name(
    text: String,
    sign: Sign,
    names: &mut Names,
    forest: &mut Forest,
) -> Result<Option<State>, AllocError>
    requires name { IsName (string_bytes text) }
    requires room { length names.old < 2 ^ 32 - 1 }
    ensures grown { HasGrown names.old names.new 1 }
    ensures next { IfOk result (Follows names.old
        (named_step (string_bytes text) (truth_of (string_bytes text)) (depth forest.old) sign)
        forest.old names.new forest.new) }
{
    if let Some(truth) = truth_in(text.as_str()) {
        forest.push_atom(Atom::Bool(truth))?;
        return Ok(behind_tree(sign, forest));
    }
    match sign {
        Sign::Space | Sign::LeftBracket => {
            let name = names.intern(text.as_str())?;
            behind_label(name, sign, forest)
        }
        _ => Ok(None),
    }
}

fn behind_label(name: Name, sign: Sign, forest: &mut Forest) -> Result<Option<State>, AllocError>
    ensures { (names : List (List ℕ)) → IsTable names → name < length names
        → IfOk result (Follows names (label_step (name_text names name) sign)
        forest.old names forest.new) }
{
    match sign {
        Sign::Space => Ok(Some(State::Label(name))),
        Sign::LeftBracket => {
            forest.begin_element(name)?;
            Ok(Some(State::Content))
        }
        _ => Ok(None),
    }
}

fn in_parentheses(sign: Sign) -> Option<State>
    ensures { (names : List (List ℕ)) (d : Draft (Unit {0}))
        → Follows names (opened_step sign) d names d result }
{
    match sign {
        Sign::Space => Some(State::Opened),
        Sign::RightParen => Some(State::Closed),
        _ => None,
    }
}

fn behind_parentheses(sign: Sign, forest: &mut Forest) -> Option<State>
    ensures { (names : List (List ℕ))
        → Follows names (closed_step (depth forest.old) sign) forest.old names forest.new result }
{
    match sign {
        Sign::Space => Some(State::Closed),
        Sign::RightBracket => end_element(forest),
        _ => None,
    }
}

fn in_text(mut text: TextReader, byte: u8, forest: &mut Forest) -> Result<Option<State>, AllocError>
    requires { (items : List ℕ) × (read_text no_text items ≡ Some text) }
    ensures { (names : List (List ℕ)) → IfOk result (Follows names
        (string_step text (text_step text.0 byte)) forest.old names forest.new) }
{
    match text.take(byte)? {
        Taken::On => Ok(Some(State::Text(text))),
        Taken::Closes => {
            forest.push_atom(Atom::Text(text.into_word()))?;
            Ok(Some(State::Behind))
        }
        Taken::Misfits => Ok(None),
    }
}

// The number ends before the first byte that it doesn't go on with.
fn in_number(
    number: NumberState,
    sign: Sign,
    byte: u8,
    forest: &mut Forest,
) -> Result<Option<State>, AllocError>
    ensures { (names : List (List ℕ)) → IfOk result (Follows names
        (digit_step number (number_step number byte) (depth forest.old) sign)
        forest.old names forest.new) }
{
    match number.step(byte) {
        Some(longer) => Ok(Some(State::Number(longer))),
        None => behind_number(number, sign, forest),
    }
}

fn behind_number(
    number: NumberState,
    sign: Sign,
    forest: &mut Forest,
) -> Result<Option<State>, AllocError>
    ensures { (names : List (List ℕ)) → IfOk result (Follows names
        (numbered_step number (depth forest.old) sign) forest.old names forest.new) }
{
    match number {
        NumberState::Minus => Ok(None),
        NumberState::Digits(value) => {
            forest.push_atom(Atom::Int(value))?;
            Ok(behind_tree(sign, forest))
        }
    }
}

fn behind_tree(sign: Sign, forest: &mut Forest) -> Option<State>
    ensures { (names : List (List ℕ))
        → Follows names (behind_step (depth forest.old) sign) forest.old names forest.new result }
{
    match sign {
        Sign::Space => Some(State::Behind),
        Sign::Comma => Some(State::Tree),
        Sign::RightBracket => end_element(forest),
        _ => None,
    }
}

// A bracket ends the element that was begun last.
fn end_element(forest: &mut Forest) -> Option<State>
    ensures { (names : List (List ℕ))
        → Follows names (close_step (depth forest.old)) forest.old names forest.new result }
{
    if forest.is_whole() {
        return None;
    }
    forest.end_element();
    Some(State::Behind)
}

// The bytes in front that a name goes on with, or that stand for themselves in a string: it goes
// on behind them. Returns how many they are.
pub(crate) fn pass_plain(state: &mut State, bytes: &[u8]) -> Result<usize, AllocError>
    ensures { IfOk result (λ count. Passes state.old bytes.now count state.new) }
{
    match state {
        State::Name(text) => pass_name(text, bytes),
        State::Text(text) => text.take_plain(bytes),
        _ => Ok(0),
    }
}

fn pass_name(text: &mut String, bytes: &[u8]) -> Result<usize, AllocError>
    ensures within { IfOk result (λ count. count ≤ length bytes.now) }
    ensures name { IfOk result (λ count. AllPass continues_name (take count bytes.now)) }
    ensures longer { IfOk result (λ count.
        string_bytes text.new ≡ string_bytes text.old ++ take count bytes.now) }
{
    for place in 0..bytes.len() {
        let byte = bytes[place];
        if !can_continue(byte) {
            return Ok(place);
        }
        push_byte(text, byte)?;
    }
    Ok(bytes.len())
}

// Whether the text may end here, where the last atom may end too.
pub(crate) fn end(state: State, forest: &mut Forest) -> Result<bool, AllocError>
    ensures { (names : List (List ℕ))
        → IfOk result (Ends (end_step (shape_of names state)) forest.old forest.new) }
{
    match state {
        State::Name(text) => end_name(text.as_str(), forest),
        State::Number(number) => end_number(number, forest),
        State::Closed | State::Behind => Ok(forest.is_whole()),
        _ => Ok(false),
    }
}

fn end_name(text: &str, forest: &mut Forest) -> Result<bool, AllocError>
    ensures { IfOk result (Ends (end_named (truth_of text.now)) forest.old forest.new) }
{
    let Some(truth) = truth_in(text) else {
        return Ok(false);
    };
    forest.push_atom(Atom::Bool(truth))?;
    Ok(forest.is_whole())
}

fn end_number(number: NumberState, forest: &mut Forest) -> Result<bool, AllocError>
    ensures { IfOk result (Ends (end_numbered number) forest.old forest.new) }
{
    match number {
        NumberState::Minus => Ok(false),
        NumberState::Digits(value) => {
            forest.push_atom(Atom::Int(value))?;
            Ok(forest.is_whole())
        }
    }
}

// The truth value that a name is, if it is one.
fn truth_in(text: &str) -> Option<bool>
    ensures truth { IfSome result (λ truth. truth_of text.now ≡ Some (Atom.Bool truth)) }
    ensures other { IfNone result (truth_of text.now ≡ None) }
{
    match text {
        "true" => Some(true),
        "false" => Some(false),
        _ => None,
    }
}

// A reader of tokens, byte by byte.
ghost use Rattle.std.specs.Prelude.{◌≡◌, ◌==◌, ◌&&◌, not, [], Some, IfOk, option_map, if◌then◌else◌};
ghost use Rattle.std.specs.Char.{is_ascii_digit};
ghost use Rattle.flux_atom.specs.Names.{begins_name, continues_name};
ghost use Rattle.flux_atom.specs.NumberSteps.{number_step};
ghost use Rattle.flux_atom.specs.TextSteps.{text_step};
ghost use Rattle.flux_grammar.specs.TokenSteps.{begin_stage, end_move, goes_on, ends, stuck, is_longer_sign, is_quoted_truth, is_sign, label, move, number_end, number_move, remark, sign, string_move};
ghost use Rattle.flux_lex.specs.Stages.{move_of, stage_of};

use flux_atom::{NumberState, Taken, TextReader, can_continue};
use flux_grammar::TokenKind;
use std::alloc::{AllocError, Global};

// Where a reader of tokens is.
#[derive(Drop)]
pub(crate) enum State {
    // Between tokens.
    Blank,
    // In a comment, or at its end.
    Comment,
    // In a name, or at its end.
    Word,
    // Behind `$`.
    Dollar,
    // In the name behind `$`, or at its end.
    Variable,
    // Behind a single quote.
    Opened,
    // In the name behind a single quote.
    Label,
    // In a string.
    Text(TextReader),
    // In a number, or at its end.
    Number(NumberState),
    // Behind a sign of this byte.
    Sign(u8),
    // Behind a token that goes on with no byte.
    Closed(TokenKind),
}

// What a byte, or the end of the bytes, does to a reader.
#[derive(Drop)]
pub(crate) enum Move {
    // What is read goes on with the byte.
    On(State),
    // It ended before the byte: a token of the kind, or else white space or a comment.
    Ends(Option<TokenKind>),
    // The byte fits nowhere.
    Stuck,
}

// Where the first byte of a token or a comment leads, and a byte of white space; no other byte
// stands between tokens.
pub(crate) fn begin(alloc: Global, byte: u8) -> Option<State>
    ensures { option_map stage_of result ≡ begin_stage byte }
{
    match byte {
        b' ' | b'\t' | b'\r' | b'\n' => Some(State::Blank),
        b'#' => Some(State::Comment),
        b'_' => Some(State::Word),
        b'\'' => Some(State::Opened),
        b'$' => Some(State::Dollar),
        b'"' => Some(State::Text(TextReader::new(alloc))),
        _ if byte.is_ascii_alphabetic() => Some(State::Word),
        _ if is_sign(byte) => Some(State::Sign(byte)),
        _ => match NumberState::begin(byte) {
            Some(number) => Some(State::Number(number)),
            None => None,
        },
    }
}

fn is_sign(byte: u8) -> bool
    ensures { result ≡ is_sign byte }
{
    b"()[]{},;:=</*+?|.".iter().any(|&sign| sign == byte)
}

// Where a byte leads behind the bytes that are read of a token.
pub(crate) fn step(state: State, text: &[u8], byte: u8) -> Result<Move, AllocError>
    ensures { IfOk result (λ step. move_of step ≡ move (stage_of state) text.now byte) }
{
    match state {
        State::Blank => Ok(Move::Ends(None)),
        State::Comment => Ok(in_comment(byte)),
        State::Word => Ok(in_name(State::Word, TokenKind::Word, byte)),
        State::Dollar => Ok(before_name(State::Variable, byte)),
        State::Variable => Ok(in_name(State::Variable, TokenKind::Var, byte)),
        State::Opened => Ok(before_name(State::Label, byte)),
        State::Label => Ok(in_label(text, byte)),
        State::Text(reader) => in_text(reader, byte),
        State::Number(number) => Ok(in_number(number, byte)),
        State::Sign(first) => Ok(behind_sign(first, byte)),
        State::Closed(kind) => Ok(Move::Ends(Some(kind))),
    }
}

fn in_comment(byte: u8) -> Move
    ensures { move_of result ≡ move remark [] byte }
{
    if byte == b'\n' {
        Move::Ends(None)
    } else {
        Move::On(State::Comment)
    }
}

fn before_name(name: State, byte: u8) -> Move
    ensures { move_of result ≡ (if begins_name byte then goes_on (stage_of name) else stuck) }
{
    if can_begin(byte) {
        Move::On(name)
    } else {
        Move::Stuck
    }
}

fn can_begin(byte: u8) -> bool
    ensures { result ≡ begins_name byte }
{
    byte.is_ascii_alphabetic() || byte == b'_'
}

fn in_name(name: State, kind: TokenKind, byte: u8) -> Move
    ensures { move_of result
        ≡ (if continues_name byte then goes_on (stage_of name) else ends (Some kind)) }
{
    if can_continue(byte) {
        Move::On(name)
    } else {
        Move::Ends(Some(kind))
    }
}

fn in_label(text: &[u8], byte: u8) -> Move
    ensures { move_of result ≡ move label text.now byte }
{
    if can_continue(byte) {
        Move::On(State::Label)
    } else if closes_label(text, byte) {
        Move::On(State::Closed(TokenKind::Quoted))
    } else {
        Move::Stuck
    }
}

// `true` and `false` are no labels.
fn closes_label(text: &[u8], byte: u8) -> bool
    ensures { result ≡ (byte == 39 && not (is_quoted_truth text.now)) }
{
    byte == b'\'' && !is_quoted_truth(text)
}

fn is_quoted_truth(text: &[u8]) -> bool
    ensures { result ≡ is_quoted_truth text.now }
{
    text == b"'true".as_slice() || text == b"'false".as_slice()
}

fn in_text(mut reader: TextReader, byte: u8) -> Result<Move, AllocError>
    ensures { IfOk result (λ step. move_of step ≡ string_move reader (text_step reader.0 byte)) }
{
    match reader.take(byte)? {
        Taken::On => Ok(Move::On(State::Text(reader))),
        Taken::Closes => Ok(Move::On(State::Closed(TokenKind::Str))),
        Taken::Misfits => Ok(Move::Stuck),
    }
}

fn in_number(number: NumberState, byte: u8) -> Move
    ensures { move_of result
        ≡ number_move number (number_step number byte) (is_ascii_digit byte) }
{
    match number.step(byte) {
        Some(longer) => Move::On(State::Number(longer)),
        None => behind_number(number, byte),
    }
}

// A number ends before the first byte that is no digit.
fn behind_number(number: NumberState, byte: u8) -> Move
    ensures { move_of result ≡ (if is_ascii_digit byte then stuck else number_end number) }
{
    if byte.is_ascii_digit() {
        Move::Stuck
    } else {
        end_number(number)
    }
}

fn behind_sign(first: u8, byte: u8) -> Move
    ensures { move_of result ≡ move (sign first) [] byte }
{
    if is_longer_sign(first, byte) {
        Move::On(State::Closed(TokenKind::Sign))
    } else {
        Move::Ends(Some(TokenKind::Sign))
    }
}

fn is_longer_sign(first: u8, second: u8) -> bool
    ensures { result ≡ is_longer_sign first second }
{
    (first == b':' && second == b':') || (first == b'=' && second == b'>')
}

// What the end of the bytes does.
pub(crate) fn end(state: State) -> Move
    ensures { move_of result ≡ end_move (stage_of state) }
{
    match state {
        State::Blank | State::Comment => Move::Ends(None),
        State::Word => Move::Ends(Some(TokenKind::Word)),
        State::Variable => Move::Ends(Some(TokenKind::Var)),
        State::Number(number) => end_number(number),
        State::Sign(_) => Move::Ends(Some(TokenKind::Sign)),
        State::Closed(kind) => Move::Ends(Some(kind)),
        State::Dollar | State::Opened | State::Label | State::Text(_) => Move::Stuck,
    }
}

fn end_number(number: NumberState) -> Move
    ensures { move_of result ≡ number_end number }
{
    match number {
        NumberState::Minus => Move::Stuck,
        NumberState::Digits(_) => Move::Ends(Some(TokenKind::Number)),
    }
}

// A reader of whole numbers, byte by byte.
ghost use Rattle.std.specs.Prelude.{◌≡◌, ◌<◌};
ghost use Rattle.flux_atom.specs.declared.number.NumberState.TheVariants.{Minus};
ghost use Rattle.flux_atom.specs.Numbers.{NumberReaderFollowsGrammar};
ghost use Rattle.flux_atom.specs.NumberSteps.{digit_behind, number_begin, number_step};

/// Where a reader of a number is, behind its first byte.
#[derive(Clone, Copy, Debug, PartialEq, Eq)]
pub enum NumberState {
    /// Behind `-`: a digit other than `0` has to follow.
    Minus,
    /// Behind a digit: the number so far, which may end here.
    Digits(i64),
}

impl NumberState {
    /// Where the first byte of a number leads. It is `-` or a digit.
    pub fn begin(byte: u8) -> Option<NumberState>
        ensures { result ≡ number_begin byte }
    {
        match byte {
            b'-' => Some(NumberState::Minus),
            b'0'..=b'9' => Some(NumberState::Digits(i64::from(byte - b'0'))),
            _ => None,
        }
    }

    /// Where one more byte leads: nowhere where it is no digit, and where the digit would follow
    /// `0`, be a `0` behind `-`, or lead out of the range of an `i64`.
    pub fn step(self, byte: u8) -> Option<NumberState>
        ensures { result ≡ number_step self byte }
    {
        match self {
            NumberState::Minus => first_below_zero(byte),
            NumberState::Digits(number) if byte.is_ascii_digit() => {
                digit_behind(number, byte - b'0')
            }
            NumberState::Digits(_) => None,
        }
    }
}

fn first_below_zero(byte: u8) -> Option<NumberState>
    ensures { result ≡ number_step Minus byte }
{
    match byte {
        b'1'..=b'9' => Some(NumberState::Digits(-i64::from(byte - b'0'))),
        _ => None,
    }
}

// A digit behind a number leads away from 0.
fn digit_behind(number: i64, digit: u8) -> Option<NumberState>
    requires { digit < 10 }
    ensures { result ≡ digit_behind number digit }
{
    if number == 0 {
        return None;
    }
    let shifted = number.checked_mul(10)?;
    let digit = i64::from(digit);
    let longer = if number < 0 {
        shifted.checked_sub(digit)?
    } else {
        shifted.checked_add(digit)?
    };
    Some(NumberState::Digits(longer))
}

/// The machine that clauses of `NumberState` cite reads the literals of numbers and nothing else,
/// and stops no later than it must. It does nothing: its contract is the law.
pub fn number_reader_follows_grammar()
    ensures { NumberReaderFollowsGrammar }
{}

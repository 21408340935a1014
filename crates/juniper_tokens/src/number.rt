//! Ints (section 2.9.1 of the Specification).

ghost use Rattle.std.specs.Prelude.{◌≡◌, ◌≤◌, length, MatchResult, Some, None};
ghost use Rattle.std.specs.Char as char;
ghost use Rattle.std.specs.List.{list_all, prefix_len};
ghost use Rattle.graphql_spec.specs.Tokens as tokens;
ghost use Rattle.graphql_spec.specs.Tokens.{decoded_int};
ghost use Rattle.juniper_tokens.specs.Lexing as read;
ghost use Rattle.juniper_syntax.specs.declared.error.ParseError.TheVariants.{UnexpectedToken};

use crate::lexer::continues_name;
use crate::token::Fault;
use juniper_syntax::ParseError;

/// That each byte is a digit.
fn are_digits(word: &[u8]) -> bool
    ensures { result ≡ list_all char.is_ascii_digit word.now }
{
    word.iter().all(|b| b.is_ascii_digit())
}

/// 0, or digits of which the first is not 0.
#[tactic(auto, using(crate::proofs::Numbers::no_digits, crate::proofs::Numbers::one_digit, crate::proofs::Numbers::more_digits))]
fn is_digits(word: &[u8]) -> bool
    ensures { result ≡ tokens.is_digits word.now }
{
    match word {
        [] => false,
        [first, rest @ ..] => {
            if rest.is_empty() {
                first.is_ascii_digit()
            } else {
                *first != b'0' && are_digits(word)
            }
        }
    }
}

/// Perhaps `-`, and digits.
#[tactic(auto, unfolding(graphql_spec::specs::Tokens::is_int))]
fn is_int(word: &[u8]) -> bool
    ensures { result ≡ tokens.is_int word.now }
{
    match word {
        [] => false,
        [first, rest @ ..] => {
            if *first == b'-' {
                is_digits(rest)
            } else {
                is_digits(word)
            }
        }
    }
}

/// How many digits stand at the front.
fn digits_len(text: &[u8]) -> usize
    ensures length { result ≤ length text.now }
    ensures run { result ≡ prefix_len char.is_ascii_digit text.now }
{
    text.iter().take_while(|b| b.is_ascii_digit()).count()
}

/// How many bytes the number at the front has: perhaps `-`, and digits.
#[tactic(auto, unfolding(crate::specs::Lexing::number_len))]
fn number_len(text: &[u8]) -> usize
    ensures length { result ≤ length text.now }
    ensures run { result ≡ read.number_len text.now }
{
    match text {
        [] => 0,
        [first, rest @ ..] => {
            if *first == b'-' {
                digits_len(rest) + 1
            } else {
                digits_len(text)
            }
        }
    }
}

/// That no Int goes on here: a digit, a letter, `_` or `.` would have it go on.
#[tactic(auto, unfolding(graphql_spec::specs::Tokens::ends_before, graphql_spec::specs::Tokens::continues_int))]
fn ends_int(rest: &[u8]) -> bool
    ensures { result ≡ tokens.ends_before tokens.continues_int rest.now }
{
    match rest {
        [] => true,
        [first, ..] => !continues_name(*first) && *first != b'.',
    }
}

/// How many bytes the Int at the front has; 0 where the text begins with none.
#[tactic(auto, unfolding(crate::specs::Lexing::int_len))]
pub fn int_len(text: &[u8]) -> usize
    ensures { result ≡ read.int_len text.now }
{
    let length = number_len(text);
    let (number, rest) = text.split_at(length);
    if is_int(number) && ends_int(rest) {
        length
    } else {
        0
    }
}

/// `-` or a digit.
#[tactic(auto, unfolding(crate::specs::Lexing::starts_int))]
pub fn starts_int(b: u8) -> bool
    ensures { result ≡ read.starts_int b }
{
    b == b'-' || b.is_ascii_digit()
}

/// What is wrong with the number at the front, which is no Int: after an Int `.`, `e` and `E` go on as a float (2.9.2).
pub fn number_fault(text: &[u8]) -> Fault<'_> {
    let (number, rest) = text.split_at(number_len(text));
    match rest {
        [b'.' | b'e' | b'E', ..] if is_int(number) => Fault::Float,
        _ => Fault::Number,
    }
}

/// The number that an Int stands for.
///
/// # Errors
/// [`ParseError::UnexpectedToken`] where the text is no Int (2.9.1): perhaps `-`, and 0 or digits that begin with
/// another; and where 32 bits do not hold its number (3.5.1).
#[tactic(auto, using(crate::proofs::Decoding::no_int_decoded))]
pub fn decode_int(word: &str) -> Result<i32, ParseError>
    ensures { MatchResult result
        (λ i. decoded_int word.now ≡ Some i)
        (λ e. (e ≡ UnexpectedToken) × (decoded_int word.now ≡ None)) }
{
    if !is_int(word.as_bytes()) {
        return Err(ParseError::UnexpectedToken);
    }
    match word.parse::<i32>() {
        Ok(value) => Ok(value),
        Err(_) => Err(ParseError::UnexpectedToken),
    }
}

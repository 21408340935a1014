//! Strings (section 2.9.4 of the Specification).

ghost use Rattle.std.specs.Prelude.{◌≡◌, ◌≢◌, ◌++◌, ◌≤◌, ◌<◌, drop, length, IfSome, OnSome, OnOk, MatchResult, option_map, not, Some, None};
ghost use Rattle.std.specs.Char as char;
ghost use Rattle.std.specs.Char.{encode_utf8};
ghost use Rattle.std.specs.List.{prefix_len};
ghost use Rattle.std.specs.String.{string_bytes};
ghost use Rattle.graphql_spec.specs.Tokens as tokens;
ghost use Rattle.graphql_spec.specs.Tokens.{after_backslash, characters, decoded_string, hex_digits};
ghost use Rattle.juniper_tokens.specs.Strings as read;
ghost use Rattle.juniper_tokens.specs.TokenViews.{view_part};
ghost use Rattle.juniper_syntax.specs.declared.error.ParseError.TheVariants.{Memory};

use crate::lexer::is_source_byte;
use crate::token::Fault;
use juniper_syntax::{LexerError, ParseError};
use std::alloc::{AllocError, Global};

/// A byte of a character that stands for itself: tab, and any from the space up but a quote and a backslash.
#[tactic(auto, unfolding(crate::specs::Strings::is_plain))]
fn is_plain(b: u8) -> bool
    ensures { result ≡ read.is_plain b }
{
    is_source_byte(b) && b != b'"' && b != b'\\'
}

/// How many bytes at the front are of characters that stand for themselves.
fn plain_len(text: &[u8]) -> usize
    ensures length { result ≤ length text.now }
    ensures run { result ≡ prefix_len read.is_plain text.now }
{
    text.iter().take_while(|b| is_plain(**b)).count()
}

/// The value of a hex digit, in upper or lower case.
#[tactic(auto, unfolding(graphql_spec::specs::Tokens::hex_value))]
fn hex_value(b: u8) -> Option<u32>
    ensures value { result ≡ tokens.hex_value b }
    ensures bound { IfSome result (λ d. d < 16) }
{
    char::from(b).to_digit(16)
}

/// The character that a letter or a mark stands for behind a backslash; `u` is read by [`unicode`].
#[tactic(auto, unfolding(graphql_spec::specs::Tokens::escaped))]
fn escaped(letter: u8) -> Option<char>
    ensures { result ≡ tokens.escaped letter }
{
    match letter {
        b'"' | b'\\' | b'/' => Some(char::from(letter)),
        b'b' => Some('\u{8}'),
        b'f' => Some('\u{C}'),
        b'n' => Some('\n'),
        b'r' => Some('\r'),
        b't' => Some('\t'),
        _ => None,
    }
}

/// The character that the four hex digits at the front name; a surrogate is none.
fn unicode(digits: &[u8]) -> Option<char>
    ensures value { option_map (λ c. (encode_utf8 c, drop 4 digits.now)) result ≡ read.escape_from (hex_digits 0 0) digits.now }
    ensures length { OnSome result (4 ≤ length digits.now) }
{
    match digits {
        [a, b, c, d, ..] => {
            let first = hex_value(*a)?;
            let second = hex_value(*b)?;
            let third = hex_value(*c)?;
            let fourth = hex_value(*d)?;
            char::from_u32(first * 4096 + second * 256 + third * 16 + fourth)
        }
        _ => None,
    }
}

/// The character that an escape stands for, from behind its backslash, and how many bytes it has there.
fn escaped_character(text: &[u8]) -> Option<(char, usize)>
    ensures value { option_map (λ p. (encode_utf8 p.0, drop p.1 text.now)) result ≡ read.escape_from after_backslash text.now }
    ensures length { IfSome result (λ p. p.1 ≤ length text.now) }
{
    match text {
        [] => None,
        [first, rest @ ..] => {
            if *first == b'u' {
                let character = unicode(rest)?;
                Some((character, 5))
            } else {
                let character = escaped(*first)?;
                Some((character, 1))
            }
        }
    }
}

/// What the escape at the front stands for, and what is left then.
#[tactic(auto, unfolding(crate::specs::Strings::escape))]
fn escape(text: &str) -> Option<(char, &str)>
    ensures { option_map (λ p. (encode_utf8 p.0, p.1.now)) result ≡ read.escape text.now }
{
    match text.as_bytes() {
        [] => None,
        [first, rest @ ..] => {
            if *first != b'\\' {
                return None;
            }
            let (character, length) = escaped_character(rest)?;
            let (_, left) = text.split_at(length + 1);
            Some((character, left))
        }
    }
}

/// The first characters of a string.
#[derive(Clone, Copy)]
enum Part<'a> {
    /// All that stand for themselves.
    Plain(&'a str),
    /// One that an escape stands for.
    Escape(char),
}

/// The characters at the front of a string, and what is left then.
fn first_part(text: &str) -> Option<(Part<'_>, &str)>
    ensures { option_map (λ p. (view_part p.0, p.1.now)) result ≡ read.first_part text.now }
{
    let plain = plain_len(text.as_bytes());
    if plain > 0 {
        let (front, left) = text.split_at(plain);
        return Some((Part::Plain(front), left));
    }
    let (character, left) = escape(text)?;
    Some((Part::Escape(character), left))
}

/// Appends what a part stands for.
fn push_part(text: &mut String, part: Part<'_>) -> Result<(), AllocError>
    ensures { OnOk result (string_bytes text.new ≡ string_bytes text.old ++ view_part part.entry) }
{
    match part {
        Part::Plain(characters) => text.push_str(characters),
        Part::Escape(character) => text.push(character),
    }
}

/// What stands behind the quote at the front, if one stands there.
fn behind_quote(text: &str) -> Option<&str>
    ensures { option_map (λ left. left.now) result ≡ read.behind_quote text.now }
{
    text.strip_prefix('"')
}

/// What stands from the quote on that ends a string, from behind the quote that begins it.
///
/// # Errors
/// What stands from the first fault on.
#[tactic(auto, using(crate::proofs::StringTokens::nothing_closing))]
fn closing(text: &str) -> Result<&str, &str>
    ensures { MatchResult result (λ left. read.closing characters text.now ≡ Some left.now) (λ _. read.closing characters text.now ≡ None) }
{
    let mut left = text;
    while !left.is_empty() {
        if behind_quote(left).is_some() {
            return Ok(left);
        }
        let Some((_, behind)) = first_part(left) else {
            return Err(left);
        };
        left = behind;
    }
    Err(left)
}

/// How many bytes the string token at the front has; 0 where the text begins with none, as with three quotes.
pub fn string_len(text: &str) -> usize
    ensures { result ≡ read.string_len text.now }
{
    if text.as_bytes().starts_with(b"\"\"\"") {
        return 0;
    }
    match behind_quote(text) {
        None => 0,
        Some(behind) => match closing(behind) {
            Ok(left) => text.len() - left.len() + 1,
            Err(_) => 0,
        },
    }
}

/// What stands between the quotes of a string token.
pub fn without_quotes(word: &str) -> &str
    ensures { result.now ≡ read.without_quotes word.now }
{
    match behind_quote(word) {
        None => word,
        Some(left) => match left.strip_suffix('"') {
            None => left,
            Some(raw) => raw,
        },
    }
}

/// Why no string token stands at the front.
pub fn string_fault(text: &str) -> Fault<'_> {
    if text.as_bytes().starts_with(b"\"\"\"") {
        return Fault::BlockString;
    }
    match behind_quote(text) {
        None => Fault::Character,
        Some(behind) => match closing(behind) {
            Ok(left) | Err(left) => Fault::String(left),
        },
    }
}

/// How many hex digits stand at the front.
fn hex_digits_len(text: &[u8]) -> usize
    ensures length { result ≤ length text.now }
    ensures run { result ≡ prefix_len char.is_ascii_hexdigit text.now }
{
    text.iter().take_while(|b| b.is_ascii_hexdigit()).count()
}

/// Whether the text or its line ends here.
#[tactic(auto, unfolding(graphql_spec::specs::Tokens::ends_before, graphql_spec::specs::Tokens::is_line_end))]
fn ends_line(text: &[u8]) -> bool
    ensures { result ≡ tokens.ends_before (λ b. not (tokens.is_line_end b)) text.now }
{
    matches!(text, [] | [b'\n' | b'\r', ..])
}

/// Whether an escape is cut short by the end of the text or of its line, from behind its backslash.
fn is_cut_short(escape: &[u8]) -> bool {
    match escape {
        [b'u', digits @ ..] => {
            let count = hex_digits_len(digits);
            count < 4 && ends_line(digits.split_at(count).1)
        }
        _ => ends_line(escape),
    }
}

/// The escape at the front as it is written: a backslash and a character, and behind `\u` up to four more of the string.
fn written_escape(alloc: Global, text: &str) -> Result<String, AllocError> {
    let most = if text.starts_with("\\u") { 6 } else { 2 };
    text.chars()
        .take(most)
        .take_while(|c| !matches!(*c, '"' | '\n' | '\r'))
        .collect(alloc)
}

/// Why a string does not go on with this text.
pub fn string_error(alloc: Global, text: &str) -> Result<LexerError, AllocError> {
    match text.as_bytes() {
        [] | [b'"' | b'\n' | b'\r', ..] => Ok(LexerError::UnterminatedString),
        [b'\\', escape @ ..] if is_cut_short(escape) => Ok(LexerError::UnterminatedString),
        [b'\\', ..] => {
            let escape = written_escape(alloc, text)?;
            Ok(LexerError::UnknownEscapeSequence(escape))
        }
        _ => Ok(LexerError::UnknownCharacter),
    }
}

/// The text that a string stands for (2.9.4), from what stands between its quotes: its characters, and for each escape the
/// character that it stands for.
///
/// # Errors
/// Exactly where no string is written so, a [`ParseError::LexerError`] of the first fault:
/// - [`LexerError::UnknownEscapeSequence`] with the escape as it is written, where it is none of `\"`, `\\`, `\/`, `\b`,
///   `\f`, `\n`, `\r`, `\t` and `\u` with four hex digits that name no surrogate: the backslash and the character behind
///   it, and behind `\u` up to four more;
/// - [`LexerError::UnterminatedString`] where a quote, LF or CR stands, or where the text ends in the middle of an escape;
/// - [`LexerError::UnknownCharacter`] where another character below U+0020 stands than tab.
///
/// Where memory is refused, [`ParseError::Memory`].
#[tactic(auto, using(crate::proofs::StringParts::decodes_start, crate::proofs::StringParts::decodes_none, crate::proofs::StringParts::decodes_end))]
pub fn decode_string(alloc: Global, raw: &str) -> Result<String, ParseError>
    ensures { MatchResult result
        (λ text. decoded_string raw.now ≡ Some (string_bytes text))
        (λ e. e ≢ Memory → decoded_string raw.now ≡ None) }
{
    let mut text = String::new(alloc);
    let mut left = raw;
    while !left.is_empty() {
        let Some((found, behind)) = first_part(left) else {
            return Err(ParseError::LexerError(string_error(alloc, left)?));
        };
        push_part(&mut text, found)?;
        left = behind;
    }
    Ok(text)
}

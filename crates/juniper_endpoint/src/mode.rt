//! The words of the command line.

ghost use Rattle.std.specs.Prelude.{◌≡◌, map, string_bytes};
ghost use Rattle.juniper_endpoint.specs.Modes.{mode_of, named_mode};

/// What is served.
#[derive(Clone, Copy, Debug, PartialEq, Eq)]
pub enum Mode {
    /// A connection of HTTP/1.1.
    Http,
    /// A request in each line.
    Lines,
    /// The schema.
    Sdl,
}

/// The mode that the words name; `None` where they are not understood.
pub fn mode_of(words: &[String]) -> Option<Mode>
    ensures { result ≡ mode_of (map (λ w. string_bytes w) words.now) }
{
    match words {
        [] => Some(Mode::Http),
        [word] => named_mode(word.as_str()),
        [_, _, ..] => None,
    }
}

/// The mode of a word.
fn named_mode(word: &str) -> Option<Mode>
    ensures { result ≡ named_mode word.now }
{
    match word {
        "--lines" => Some(Mode::Lines),
        "--sdl" => Some(Mode::Sdl),
        _ => None,
    }
}

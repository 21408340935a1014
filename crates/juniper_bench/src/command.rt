//! What the program is asked to do.

ghost use Rattle.std.specs.Prelude.{◌≡◌, ◌<◌, ◌≤◌, MatchOption};
ghost use Rattle.juniper_bench.specs.Commands.{IsNumber, IsSize, written};

/// How large a text is to be made.
#[derive(Clone, Copy)]
pub struct Size {
    /// How many fields it has: at least three, since each of its three definitions selects one.
    pub fields: usize,
    /// How deep the selection sets of its operation are nested: at most 250, so that no more than 256 brackets are open.
    pub depth: usize,
    ghost three_fields: { 3 ≤ fields },
    ghost a_set: { 1 ≤ depth },
    ghost few_sets: { depth ≤ 250 },
}

/// What the words ask for.
#[derive(Clone, Copy)]
pub enum Command<'a> {
    /// To read a file as a document, so many times.
    Parse(&'a str, usize),
    /// To read a file as a document, and to validate it so many times.
    Validate(&'a str, usize),
    /// To execute the request of a file, so many times.
    Execute(&'a str, usize),
    /// To read a file as JSON, so many times.
    Scan(&'a str, usize),
    /// To make a text.
    Make(Size),
    /// To make a request of so many fields whose aliases collide.
    MakeColliding(usize),
    /// To make a text, and to tell what its document counts.
    Count(Size),
    /// To make a request of so many fields whose aliases collide, and to tell what its document counts.
    CountColliding(usize),
    /// To make a schema of so many types, and to test so many times whether requests can be executed on it.
    Schema(usize, usize),
}

/// What the words ask for; nothing where they are none of `parse FILE TIMES`, `validate FILE TIMES`,
/// `execute FILE TIMES`, `scan FILE TIMES`, `make FIELDS DEPTH`, `make-colliding FIELDS`, `count FIELDS DEPTH`,
/// `count-colliding FIELDS` and `schema TYPES TIMES`, or a number is not in its bounds.
pub fn read_command(words: &[String]) -> Option<Command<'_>> {
    match words {
        [word, only] => match word.as_str() {
            "make-colliding" => Some(Command::MakeColliding(number(only.as_str())?)),
            "count-colliding" => Some(Command::CountColliding(number(only.as_str())?)),
            _ => None,
        },
        [word, first, second] => read_long(word.as_str(), first, second),
        _ => None,
    }
}

/// What a word and two others ask for.
fn read_long<'a>(word: &str, first: &'a String, second: &String) -> Option<Command<'a>> {
    let last = number(second.as_str())?;
    match word {
        "parse" => Some(Command::Parse(first.as_str(), last)),
        "validate" => Some(Command::Validate(first.as_str(), last)),
        "execute" => Some(Command::Execute(first.as_str(), last)),
        "scan" => Some(Command::Scan(first.as_str(), last)),
        "make" => {
            let size = bounded_size(number(first.as_str())?, last)?;
            Some(Command::Make(size))
        }
        "count" => {
            let size = bounded_size(number(first.as_str())?, last)?;
            Some(Command::Count(size))
        }
        "schema" => Some(Command::Schema(number(first.as_str())?, last)),
        _ => None,
    }
}

/// A size within its bounds.
fn bounded_size(fields: usize, depth: usize) -> Option<Size>
    ensures { MatchOption result (¬ IsSize fields depth) (λ s. (s.fields ≡ fields) × (s.depth ≡ depth)) }
{
    if fields < 3 || depth < 1 || depth > 250 {
        return None;
    }
    Some(Size { fields, depth })
}

/// A decimal number above 0.
fn number(word: &str) -> Option<usize>
    ensures { MatchOption result (¬ IsNumber word.now) (λ n. IsNumber word.now × (written word.now ≡ n)) }
{
    match word.parse::<usize>() {
        Ok(0) | Err(_) => None,
        Ok(number) => Some(number),
    }
}

//! The tables of a server that starts.

use crate::tracker::{Issue, State, Tracker, User, Word};
use std::alloc::{AllocError, Global};

/// Three users, one of whom shows no address, and five issues.
pub fn start(alloc: Global) -> Result<Tracker, AllocError> {
    let mut users = Vec::new(alloc);
    for (id, login, email) in [
        ("u1", "ada", Some("ada@example.org")),
        ("u2", "brook", None),
        ("u3", "chen", Some("chen@example.org")),
    ] {
        let email = match email {
            None => None,
            Some(email) => Some(word(alloc, email)?),
        };
        users.push(User {
            id: word(alloc, id)?,
            login: word(alloc, login)?,
            email,
        })?;
    }
    let mut issues = Vec::new(alloc);
    for (id, title, state, color, author) in [
        ("i1", "Crash at start", State::Open, "#d73a4a", 0),
        ("i2", "Typing error in README", State::Closed, "#0075ca", 1),
        ("i3", "Crash on exit", State::Open, "#d73a4a", 1),
        ("i4", "Dark mode", State::Open, "#a2eeef", 2),
        ("i5", "Crash in the night", State::Closed, "#d73a4a", 2),
    ] {
        issues.push(Issue {
            id: word(alloc, id)?,
            title: word(alloc, title)?,
            state,
            color: word(alloc, color)?,
            author,
        })?;
    }
    Ok(Tracker { users, issues })
}

/// A text of its own.
fn word(alloc: Global, text: &str) -> Result<Word, AllocError> {
    let text = String::from_str(alloc, text)?;
    Ok(Word { text })
}

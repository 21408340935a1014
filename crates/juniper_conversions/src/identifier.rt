//! The type, how it is made, and what it shows.

ghost use Rattle.std.specs.Prelude.{◌≡◌, IfOk, Some, string_bytes};
ghost use Rattle.std.specs.Fmt.{styled_text};
ghost use Rattle.juniper_conversions.specs.IdText.{id_text};

use serde::{Deserialize, Serialize};
use std::alloc::{AllocError, Global};
use std::fmt;

/// The text that names one object among those of its type (3.5.5). It is opaque: it need not be fit for a reader. A format
/// has it as a plain text.
#[derive(Debug, Deserialize, Drop, Eq, PartialEq, Serialize)]
#[serde(transparent)]
pub struct ID {
    text: String,
}

impl ID {
    /// The ID of this text (3.5.5).
    pub fn new(text: String) -> Self
        ensures { id_text result ≡ string_bytes text }
    {
        ID { text }
    }

    /// The text of the ID (3.5.5).
    pub fn as_str(&self) -> &str
        ensures { result.now ≡ id_text self.now }
    {
        self.text.as_str()
    }

    /// An equal ID (3.5.5); an error where memory is refused.
    pub fn try_clone(&self, alloc: Global) -> Result<Self, AllocError>
        ensures { IfOk result (λ made. id_text made ≡ id_text self.now) }
    {
        Ok(ID {
            text: String::from_str(alloc, self.as_str())?,
        })
    }
}

/// The ID of a text (3.5.5).
impl From<String> for ID {
    ghost from_gives = { λ text id. id_text id ≡ string_bytes text };

    fn from(text: String) -> Self {
        ID::new(text)
    }
}

/// The text of an ID (3.5.5).
impl From<ID> for String {
    ghost from_gives = { λ id text. string_bytes text ≡ id_text id };

    fn from(id: ID) -> String {
        id.text
    }
}

/// The text of the ID (3.5.5), under the options of a hole as any text.
impl fmt::Display for ID {
    ghost output = { λ id. Some (id_text id) };

    ghost styled_output = { λ id style. Some (styled_text style (id_text id)) };

    fn fmt<W: fmt::Write>(&self, f: &mut fmt::Formatter<W>) -> fmt::Result {
        f.pad(self.as_str())
    }
}

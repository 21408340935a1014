//! Faults: what of a schema has no text of the language for type systems (section 3 of the Specification).

ghost use Rattle.std.specs.Prelude.{◌≡◌, Some};
ghost use Rattle.juniper_sdl.specs.Messages.{flaw_text};
ghost use Rattle.juniper_sdl.specs.declared.fault.SdlError.TheVariants.{Memory};

use std::alloc::AllocError;
use std::error::Error;
use std::fmt;

/// What of a type has no text.
#[derive(Clone, Copy, Debug, PartialEq, Eq)]
pub enum Flaw {
    /// An object or interface lists no field whose name is not reserved, an enum no value, a union no member, an input object no
    /// field (3.6 to 3.10).
    NoParts,
    /// A name is no Name (2.1.9), a value of an enum is `true`, `false` or `null` (3.9), or a default value is no constant (3.6.1).
    NoName,
}

impl Flaw {
    /// What is wrong, in a sentence.
    pub fn text(self) -> &'static str
        ensures { result.now ≡ flaw_text self }
    {
        match self {
            Flaw::NoParts => "it lists no field, value or member",
            Flaw::NoName => "a name is no Name, or a default value is no constant",
        }
    }
}

/// Why a schema has no text: what is wrong, and of which type. Shown as `Query: ..`.
#[derive(Clone, Copy, Debug)]
pub struct SdlFault<'s> {
    /// What is wrong.
    pub flaw: Flaw,
    /// The name of the type.
    pub type_name: &'s str,
}

impl fmt::Display for SdlFault<'_> {
    ghost use Rattle.juniper_sdl.specs.Faults.{view_fault};
    ghost use Rattle.juniper_sdl.specs.Messages.{fault_text};

    ghost output = { λ f. Some (fault_text (view_fault f)) };

    fn fmt<W: fmt::Write>(&self, f: &mut fmt::Formatter<W>) -> fmt::Result {
        write!(f, "{}: {}", self.type_name, self.flaw.text())
    }
}

impl Error for SdlFault<'_> {}

/// Why a schema is not written.
#[derive(Debug, Drop)]
pub enum SdlError<'s> {
    /// It has no text.
    Fault(SdlFault<'s>),
    /// Memory was refused.
    Memory,
}

impl fmt::Display for SdlError<'_> {
    ghost use Rattle.juniper_sdl.specs.Messages.{error_text};

    ghost output = { λ e. Some (error_text e) };

    fn fmt<W: fmt::Write>(&self, f: &mut fmt::Formatter<W>) -> fmt::Result {
        match self {
            SdlError::Fault(fault) => write!(f, "{fault}"),
            SdlError::Memory => f.write_str("Out of memory"),
        }
    }
}

impl Error for SdlError<'_> {}

impl From<AllocError> for SdlError<'_> {
    ghost from_gives = { λ _ made. made ≡ Memory };

    fn from(_refused: AllocError) -> Self {
        SdlError::Memory
    }
}

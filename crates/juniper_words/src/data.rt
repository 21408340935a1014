//! Declarations as data (section 3 of the Specification).

ghost use Rattle.std.specs.Prelude.{◌≡◌, IfOk};
ghost use Rattle.juniper_words.specs.Data.{name_of, notes_on};

use crate::notes::Note;
use juniper_meta::ScalarKinds;
use std::alloc::{AllocError, Global};

/// A reference to a type (2.11).
#[derive(Clone, Copy)]
pub enum Reference {
    /// The type of this name, or null.
    Nullable(&'static str),
    /// The type of this name.
    NonNull(&'static str),
    /// The list of such items, or null.
    List(&'static Reference),
    /// The list of such items.
    NonNullList(&'static Reference),
}

/// The value of a default (2.9).
#[derive(Clone, Copy)]
pub enum Literal {
    /// Null.
    Null,
    /// An Int.
    Int(i32),
    /// A String, or an ID.
    Text(&'static str),
    /// A Boolean.
    Boolean(bool),
    /// The value of an enum, by its name.
    Enum(&'static str),
    /// A list, by its items.
    List(&'static [Literal]),
    /// An input object, by its fields, each with its name and its value.
    Object(&'static [(&'static str, Literal)]),
}

/// An argument, or a field of an input object (3.6.1, 3.10): its name, its type, and its default where it has one.
#[derive(Clone, Copy)]
pub struct DeclaredInput(pub &'static str, pub Reference, pub Option<Literal>);

/// A field of an object or an interface (3.6): its name, its arguments and its type.
#[derive(Clone, Copy)]
pub struct DeclaredField(
    pub &'static str,
    pub &'static [DeclaredInput],
    pub Reference,
);

/// A named type (3.4). It has a description, and something of it is deprecated, where it is `Noted`.
#[derive(Clone, Copy)]
pub enum DeclaredType {
    /// A scalar: its name, the kinds of literals and of variables' values that it takes, and where it is specified, as a URL, where
    /// that is said (3.5, 3.13.4).
    Scalar(&'static str, ScalarKinds, Option<&'static str>),
    /// An object: its name, the interfaces that it implements, and its fields (3.6).
    Object(&'static str, &'static [&'static str], &'static [DeclaredField]),
    /// An interface: its name and its fields (3.7).
    Interface(&'static str, &'static [DeclaredField]),
    /// An interface that implements interfaces: its name, these, and its fields (3.7).
    SubInterface(&'static str, &'static [&'static str], &'static [DeclaredField]),
    /// A union: its name and its members (3.8).
    Union(&'static str, &'static [&'static str]),
    /// An enum: its name and the names of its values (3.9).
    Enum(&'static str, &'static [&'static str]),
    /// An input object: its name and its fields (3.10).
    InputObject(&'static str, &'static [DeclaredInput]),
    /// This type, with notes on it. Where notes are put round notes, those inside come first.
    Noted(&'static DeclaredType, &'static [Note]),
}

impl DeclaredType {
    /// Its name.
    pub fn name(&self) -> &'static str
        ensures { result.now ≡ name_of self.now }
    {
        match self {
            DeclaredType::Scalar(name, _, _) => name,
            DeclaredType::Object(name, _, _) => name,
            DeclaredType::Interface(name, _) => name,
            DeclaredType::SubInterface(name, _, _) => name,
            DeclaredType::Union(name, _) => name,
            DeclaredType::Enum(name, _) => name,
            DeclaredType::InputObject(name, _) => name,
            DeclaredType::Noted(inner, _) => inner.name(),
        }
    }

    /// The notes on it, those next to it first; an error where memory is refused.
    pub(crate) fn notes(&self, alloc: Global) -> Result<Vec<Note>, AllocError>
        ensures { IfOk result (λ notes. notes.items ≡ notes_on self.now) }
    {
        match self {
            DeclaredType::Noted(inner, own) => {
                let mut notes = inner.notes(alloc)?;
                notes.extend_from_slice(own)?;
                Ok(notes)
            }
            DeclaredType::Scalar(_, _, _) => Ok(Vec::new(alloc)),
            DeclaredType::Object(_, _, _) => Ok(Vec::new(alloc)),
            DeclaredType::Interface(_, _) => Ok(Vec::new(alloc)),
            DeclaredType::SubInterface(_, _, _) => Ok(Vec::new(alloc)),
            DeclaredType::Union(_, _) => Ok(Vec::new(alloc)),
            DeclaredType::Enum(_, _) => Ok(Vec::new(alloc)),
            DeclaredType::InputObject(_, _) => Ok(Vec::new(alloc)),
        }
    }
}

//! The catalogue, which requests bring along: books, films and authors.

ghost use Rattle.std.specs.Prelude.{◌≡◌, IfOk};

use juniper::Context;
use juniper::words::EnumType;
use std::alloc::{AllocError, Global};
use std::marker::Model;

/// `enum Genre { NOVEL POETRY SCIENCE }`.
#[derive(Clone, Copy, Debug, PartialEq, Eq, Drop)]
pub enum Genre {
    Novel,
    Poetry,
    Science,
}

impl EnumType for Genre {
    ghost use Rattle.juniper_library.specs.Catalogue.{genre_name, genres};

    ghost values = { genres };

    ghost name_of = { genre_name };

    fn values() -> &'static [Genre] {
        &[Genre::Novel, Genre::Poetry, Genre::Science]
    }

    fn value_name(&self) -> &'static str {
        match self {
            Genre::Novel => "NOVEL",
            Genre::Poetry => "POETRY",
            Genre::Science => "SCIENCE",
        }
    }
}

/// A film or an author: what has a number and a name alone.
#[derive(Drop)]
pub struct Entry {
    pub id: String,
    pub name: String,
}

impl Model for Entry {
    ghost use Rattle.std.specs.Prelude.{string_bytes};
    ghost use Rattle.juniper_library.specs.Entries.{Named};

    ghost Value = { Named };

    ghost view = { λ e. record { id = string_bytes e.id; name = string_bytes e.name } };
}

impl Entry {
    /// What has this number and this name.
    pub fn new(alloc: Global, id: &str, name: &str) -> Result<Entry, AllocError>
        ensures { IfOk result (λ entry. entry ≡ record { id = id.now; name = name.now }) }
    {
        let id = String::from_str(alloc, id)?;
        let name = String::from_str(alloc, name)?;
        Ok(Entry { id, name })
    }
}

/// A book: its title, and the place of its author among the authors.
#[derive(Drop)]
pub struct Book {
    pub titled: Entry,
    pub genre: Genre,
    pub author: usize,
}

/// The catalogue of a library, and beside it a table that stands for a slow store: how many copies there are of each book, by its place.
/// A book that is added has no entry there.
#[derive(Drop)]
pub struct Library {
    pub books: Vec<Book>,
    pub films: Vec<Entry>,
    pub authors: Vec<Entry>,
    pub copies: Vec<i32>,
}

impl Model for Library {
    ghost use Rattle.juniper_library.specs.Catalogue.{Catalogue};

    ghost Value = { Catalogue };

    ghost view = { λ l. record { books = l.books.items; films = l.films.items; authors = l.authors.items; copies = l.copies.items } };
}

impl Context for Library {}

impl Library {
    /// How many copies there are of each book: all numbers, by one look-up.
    pub fn load_copies(&self) -> &[i32]
        ensures { result.now ≡ self.now.copies }
    {
        &self.copies
    }
}

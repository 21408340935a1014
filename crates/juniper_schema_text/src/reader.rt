//! Words of a text, and references to types.

use juniper_syntax::{DefaultScalarValue, Type};
use std::alloc::Global;
use std::collections::HashMap;

/// The scalars of the texts.
pub type Scalar = DefaultScalarValue;

/// What is left of a text.
#[derive(Drop)]
pub struct Reader<'t> {
    pub(crate) alloc: Global,
    rest: &'t str,
    is_sound: bool,
    pub(crate) is_bare: bool,
}

impl<'t> Reader<'t> {
    /// A reader of this text.
    pub fn new(alloc: Global, text: &'t str) -> Self {
        Reader {
            alloc,
            rest: text.trim_start(),
            is_sound: true,
            is_bare: false,
        }
    }

    /// Whether all of the text is read, and was as it should be.
    pub fn is_done(&self) -> bool {
        self.is_sound && self.ends()
    }

    /// Whether the end, or a `#`, stands next.
    pub(crate) fn ends(&self) -> bool {
        self.rest.is_empty() || self.rest.starts_with('#')
    }

    /// How many bytes are left.
    pub(crate) fn left(&self) -> usize {
        self.rest.len()
    }

    /// The next word, a mark or what stands before the next mark or blank, and what stands behind it.
    fn cut(&self) -> (&'t str, &'t str) {
        let end = match self
            .rest
            .find(|mark: char| " \n,!()[]{}:=|&;@".contains(mark))
        {
            Some(0) => 1,
            Some(end) => end,
            None => self.rest.len(),
        };
        match self.rest.split_at_checked(end) {
            Some((word, rest)) => (
                word,
                rest.trim_start_matches(|mark: char| " \n,".contains(mark)),
            ),
            None => ("", ""),
        }
    }

    /// The next word.
    pub fn word(&mut self) -> &'t str {
        let (word, rest) = self.cut();
        self.rest = rest;
        word
    }

    /// Whether the next word is this one; it is then read.
    pub fn eats(&mut self, word: &str) -> bool {
        let (next, rest) = self.cut();
        if next == word {
            self.rest = rest;
            return true;
        }
        false
    }

    /// Reads this word; where another one stands next, the text cannot be read.
    pub fn expect(&mut self, word: &str) {
        if !self.eats(word) {
            self.is_sound = false;
        }
    }

    /// Puts an item behind the others.
    pub(crate) fn push<T: Drop>(&mut self, items: &mut Vec<T>, item: T) {
        if items.push(item).is_err() {
            self.is_sound = false;
        }
    }

    /// Puts a value at a key.
    pub(crate) fn put<T: Drop>(&mut self, values: &mut HashMap<String, T>, key: String, value: T) {
        if values.insert(key, value).is_err() {
            self.is_sound = false;
        }
    }

    /// The text cannot be read, or memory is refused.
    pub(crate) fn refuse(&mut self) {
        self.is_sound = false;
    }

    /// The text, owned.
    pub(crate) fn text(&mut self, text: &str) -> String {
        match String::from_str(self.alloc, text) {
            Ok(owned) => owned,
            Err(_) => {
                self.is_sound = false;
                String::new(self.alloc)
            }
        }
    }

    /// The next word, owned.
    pub(crate) fn name(&mut self) -> String {
        let name = self.word();
        self.text(name)
    }

    /// A type.
    pub fn read_type(&mut self) -> Type<String> {
        let mut open = 0u32;
        for _level in 0..4 {
            if self.eats("[") {
                open = open.wrapping_add(1);
            }
        }
        let mut made = Type::Named(self.name());
        for _mark in 0..9 {
            if self.eats("!") {
                made = made.wrap_non_null();
            } else if open != 0 {
                open = open.wrapping_sub(1);
                made = self.read_list(made);
            }
        }
        made
    }

    /// The end of a list's type.
    fn read_list(&mut self, item: Type<String>) -> Type<String> {
        let mut size = None;
        if self.eats(";") {
            size = self.word().parse::<usize>().ok();
        }
        self.expect("]");
        match item.wrap_list(self.alloc, size) {
            Ok(made) => made,
            Err(_) => {
                self.is_sound = false;
                Type::Named(String::new(self.alloc))
            }
        }
    }
}

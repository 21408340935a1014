//! Notes on types that are told by data: descriptions, and what is deprecated (sections 3.3 to 3.10 and 3.13.3 of the Specification).

ghost use Rattle.std.specs.Prelude.{◌≡◌, IfOk, None, Some, cond, option_map};
ghost use Rattle.juniper_words.specs.Notes.{argument_text, deprecation, noted, part_text, reason, said, type_text};
ghost use Rattle.juniper_meta.specs.MetaView.{view_deprecation, view_text};

use juniper_meta::DeprecationStatus;
use std::alloc::{AllocError, Global};

/// A note on a type. Of several notes that say the same of the same part the first stands; one on a part that the type does not have
/// says nothing.
#[derive(Clone, Copy)]
pub enum Note {
    /// The description of the type.
    About(&'static str),
    /// The description of one of its fields or values: its name, and the text.
    AboutPart(&'static str, &'static str),
    /// The description of an argument: the name of its field, its own, and the text.
    AboutArgument(&'static str, &'static str, &'static str),
    /// One of its fields, of an object or an interface, or of its values is deprecated: its name, and the reason (3.13.3).
    Deprecated(&'static str, &'static str),
}

/// What notes are asked for.
#[derive(Clone, Copy)]
pub(crate) enum Subject<'a> {
    /// The description of the type.
    Type,
    /// The description of the field or value of this name.
    Part(&'a str),
    /// The description of an argument, by the name of its field and its own.
    Argument(&'a str, &'a str),
    /// Why the field or value of this name is deprecated.
    Reason(&'a str),
}

impl Note {
    /// What it says of this.
    fn says(&self, subject: &Subject) -> Option<&'static str>
        ensures { option_map (λ t. t.now) result ≡ said subject.now self.now }
    {
        match subject {
            Subject::Type => self.type_text(),
            Subject::Part(name) => self.part_text(name),
            Subject::Argument(field, name) => self.argument_text(field, name),
            Subject::Reason(name) => self.reason(name),
        }
    }

    /// The description that it gives the type.
    fn type_text(&self) -> Option<&'static str>
        ensures { option_map (λ t. t.now) result ≡ type_text self.now }
    {
        match self {
            Note::About(text) => Some(text),
            Note::AboutPart(_, _) => None,
            Note::AboutArgument(_, _, _) => None,
            Note::Deprecated(_, _) => None,
        }
    }

    /// The description that it gives the field or value of this name.
    fn part_text(&self, name: &str) -> Option<&'static str>
        ensures { option_map (λ t. t.now) result ≡ part_text name.now self.now }
    {
        match self {
            Note::About(_) => None,
            Note::AboutPart(own, text) => text_if(*own == name, text),
            Note::AboutArgument(_, _, _) => None,
            Note::Deprecated(_, _) => None,
        }
    }

    /// The description that it gives the argument of this name of this field.
    fn argument_text(&self, field: &str, name: &str) -> Option<&'static str>
        ensures { option_map (λ t. t.now) result ≡ argument_text field.now name.now self.now }
    {
        match self {
            Note::About(_) => None,
            Note::AboutPart(_, _) => None,
            Note::AboutArgument(of, own, text) => text_if(*of == field && *own == name, text),
            Note::Deprecated(_, _) => None,
        }
    }

    /// Why the field or value of this name is deprecated by it.
    fn reason(&self, name: &str) -> Option<&'static str>
        ensures { option_map (λ t. t.now) result ≡ reason name.now self.now }
    {
        match self {
            Note::About(_) => None,
            Note::AboutPart(_, _) => None,
            Note::AboutArgument(_, _, _) => None,
            Note::Deprecated(own, text) => text_if(*own == name, text),
        }
    }
}

/// The text, where this holds.
fn text_if(holds: bool, text: &'static str) -> Option<&'static str>
    ensures { option_map (λ t. t.now) result ≡ cond holds (Some text.now) None }
{
    if holds { Some(text) } else { None }
}

/// What these notes say of this, the first that does.
pub(crate) fn noted(notes: &[Note], subject: &Subject) -> Option<&'static str>
    ensures { option_map (λ t. t.now) result ≡ noted (said subject.now) notes.now }
{
    let (first, rest) = notes.split_first()?;
    match first.says(subject) {
        Some(text) => Some(text),
        None => noted(rest, subject),
    }
}

/// The description that these notes give.
pub(crate) fn described(
    alloc: Global,
    notes: &[Note],
    subject: &Subject,
) -> Result<Option<String>, AllocError>
    ensures { IfOk result (λ d. view_text d ≡ noted (said subject.now) notes.now) }
{
    match noted(notes, subject) {
        None => Ok(None),
        Some(text) => Ok(Some(String::from_str(alloc, text)?)),
    }
}

/// Whether the field or value of this name is deprecated by these notes.
pub(crate) fn deprecation_of(
    alloc: Global,
    notes: &[Note],
    name: &str,
) -> Result<DeprecationStatus, AllocError>
    ensures { IfOk result (λ d. view_deprecation d ≡ deprecation (noted (reason name.now) notes.now)) }
{
    match noted(notes, &Subject::Reason(name)) {
        None => Ok(DeprecationStatus::Current),
        Some(text) => {
            let reason = String::from_str(alloc, text)?;
            Ok(DeprecationStatus::Deprecated(Some(reason)))
        }
    }
}

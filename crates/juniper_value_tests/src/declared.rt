//! What types that are told by data declare, part by part.

use juniper_meta::{Argument, DeprecationStatus, MetaType, ScalarKinds};
use juniper_syntax::DefaultScalarValue;
use juniper_words::DeclaredType::{
    Enum, InputObject, Interface, Noted, Object, Scalar, SubInterface, Union,
};
use juniper_words::Note::{About, AboutArgument, AboutPart, Deprecated};
use juniper_words::Reference::{List, NonNull, NonNullList, Nullable};
use juniper_words::{
    DeclaredField as Field, DeclaredInput as Input, DeclaredType, Literal, registry_of,
};
use std::alloc::{AllocError, Global};
use std::test::Fail;

const ID: Field = Field("id", &[], NonNull("ID"));

const TITLE: Field = Field("title", &[], NonNull("String"));

const ISBN: Field = Field("isbn", &[], Nullable("String"));

const BOTH: Literal = Literal::List(&[Literal::Enum("NOVEL"), Literal::Enum("POETRY")]);

const NESTED: Literal = Literal::List(&[
    Literal::List(&[Literal::Int(1), Literal::Null]),
    Literal::List(&[]),
]);

const WIDE: Literal = Literal::Object(&[
    ("genres", BOTH),
    ("inside", Literal::Object(&[])),
    ("word", Literal::Text("a")),
    ("deep", Literal::Boolean(true)),
]);

const GENRES: Input = Input("genres", List(&NonNull("Genre")), Some(BOTH));

const ROWS: Input = Input("rows", List(&List(&Nullable("Int"))), Some(NESTED));

const WHICH: Input = Input("which", Nullable("Filter"), Some(WIDE));

const FIRST: Input = Input("first", Nullable("Int"), Some(Literal::Int(10)));

const PAGES: Field = Field("pages", &[FIRST, WHICH], NonNullList(&NonNull("ID")));

const TEXTS: ScalarKinds = ScalarKinds {
    int: false,
    text: true,
    boolean: false,
};

const NUMBERS: ScalarKinds = ScalarKinds {
    int: true,
    text: false,
    boolean: true,
};

static COLOR: [DeclaredType; 1] = [Noted(
    &Scalar("Color", TEXTS, Some("https://color.example")),
    &[About("A colour."), About("Another text.")],
)];

static NUMBER: [DeclaredType; 1] = [Scalar("Number", NUMBERS, None)];

static MEDIA: [DeclaredType; 1] = [SubInterface("Media", &["Node", "Named"], &[ID, TITLE])];

static NODE: [DeclaredType; 1] = [Noted(&Interface("Node", &[ID]), &[About("With an id.")])];

static PLAIN: [DeclaredType; 1] = [Object("Book", &["Media"], &[ID, PAGES])];

static BOOK: [DeclaredType; 1] = [Noted(
    &Object("Book", &["Media"], &[ID, TITLE, ISBN, PAGES]),
    &[
        About("A book."),
        AboutPart("title", "Its title."),
        AboutPart("first", "No field."),
        Deprecated("isbn", "Use `id`."),
        AboutArgument("pages", "first", "How many."),
        AboutArgument("title", "which", "No argument."),
    ],
)];

static TWICE: [DeclaredType; 1] = [Noted(
    &Noted(&Object("Book", &[], &[ID]), &[AboutPart("id", "Inside.")]),
    &[AboutPart("id", "Outside."), About("Both.")],
)];

static GENRE: [DeclaredType; 1] = [Noted(
    &Enum("Genre", &["NOVEL", "POETRY", "DRAMA"]),
    &[
        Deprecated("POETRY", "None left."),
        AboutPart("NOVEL", "Long."),
        AboutPart("POETRY", "Short."),
    ],
)];

static FILTER: [DeclaredType; 1] = [Noted(
    &InputObject("Filter", &[GENRES, ROWS]),
    &[AboutPart("rows", "Of numbers."), About("What to find.")],
)];

static FOUND: [DeclaredType; 1] = [Noted(&Union("Found", &["Book"]), &[About("A book or none.")])];

/// The only one of these types, as it is declared: its name, kinds, interfaces and members, and then its parts.
fn shown(alloc: Global, name: &str, types: &[DeclaredType]) -> Result<String, AllocError> {
    let Ok(registry) = registry_of::<DefaultScalarValue>(alloc, types) else {
        return String::from_str(alloc, "refused");
    };
    let types = registry.into_types();
    let mut out = String::new(alloc);
    match types.get(name) {
        Some(meta) => write_type(&mut out, meta)?,
        None => write!(out, "missing")?,
    }
    Ok(out)
}

fn write_type(out: &mut String, meta: &MetaType<DefaultScalarValue>) -> Result<(), AllocError> {
    match meta.name() {
        Some(name) => write!(out, "{name}")?,
        None => write!(out, "no name")?,
    }
    write_text(out, meta.description())?;
    if let Some(kinds) = meta.kinds() {
        write!(out, " {} {} {}", kinds.int, kinds.text, kinds.boolean)?;
    }
    if let Some(url) = meta.specified_by_url() {
        write!(out, " {url}")?;
    }
    for interface in meta.interface_names() {
        write!(out, " &{interface}")?;
    }
    for member in meta.of_type_names() {
        write!(out, " |{member}")?;
    }
    for field in meta.fields() {
        write!(out, "; {}", field.name.as_str())?;
        for argument in field.declared_arguments() {
            write!(out, " (")?;
            write_argument(out, argument)?;
            write!(out, ")")?;
        }
        write!(out, ": {}", field.field_type)?;
        write_text(out, field.description.as_deref())?;
        write_deprecation(out, &field.deprecation_status)?;
    }
    for value in meta.values() {
        write!(out, "; {}", value.name.as_str())?;
        write_text(out, value.description.as_deref())?;
        write_deprecation(out, &value.deprecation_status)?;
    }
    for input in meta.input_fields() {
        write!(out, "; ")?;
        write_argument(out, input)?;
    }
    Ok(())
}

fn write_argument(
    out: &mut String,
    argument: &Argument<DefaultScalarValue>,
) -> Result<(), AllocError> {
    write!(out, "{}: {}", argument.name.as_str(), argument.arg_type)?;
    if let Some(value) = &argument.default_value {
        write!(out, " = {value}")?;
    }
    write_text(out, argument.description.as_deref())
}

fn write_text(out: &mut String, text: Option<&str>) -> Result<(), AllocError> {
    match text {
        Some(text) => Ok(write!(out, " \"{text}\"")?),
        None => Ok(()),
    }
}

fn write_deprecation(out: &mut String, status: &DeprecationStatus) -> Result<(), AllocError> {
    match status.reason() {
        Some(reason) => Ok(write!(out, " @deprecated {reason}")?),
        None => Ok(()),
    }
}

#[test]
fn types_are_declared_as_they_are_told(rt: HostRuntime) -> Result<(), Fail> {
    let alloc = rt.alloc();
    let rows: [(&str, &'static [DeclaredType], &str); 10] = [
        (
            "Color",
            &COLOR,
            "Color \"A colour.\" false true false https://color.example",
        ),
        ("Number", &NUMBER, "Number true false true"),
        (
            "Media",
            &MEDIA,
            "Media &Node &Named; id: ID!; title: String!; __typename: String!",
        ),
        (
            "Node",
            &NODE,
            "Node \"With an id.\"; id: ID!; __typename: String!",
        ),
        ("Book", &PLAIN, PLAIN_TEXT),
        ("Book", &BOOK, BOOK_TEXT),
        (
            "Book",
            &TWICE,
            "Book \"Both.\"; id: ID! \"Inside.\"; __typename: String!",
        ),
        ("Genre", &GENRE, GENRE_TEXT),
        ("Filter", &FILTER, FILTER_TEXT),
        ("Found", &FOUND, "Found \"A book or none.\" |Book"),
    ];
    for (name, types, expected) in rows {
        assert_eq!(rt; shown(alloc, name, types)?.as_str(), expected);
    }
    Ok(())
}

/// A default that is an object.
const PLAIN_TEXT: &str = "Book &Media; id: ID!; pages (first: Int = 10) \
(which: Filter = {genres: [NOVEL, POETRY], inside: {}, word: \"a\", deep: true}): [ID!]!; __typename: String!";

/// Notes of each kind.
const BOOK_TEXT: &str = "Book \"A book.\" &Media; id: ID!; title: String! \"Its title.\"; \
isbn: String @deprecated Use `id`.; pages (first: Int = 10 \"How many.\") \
(which: Filter = {genres: [NOVEL, POETRY], inside: {}, word: \"a\", deep: true}): [ID!]!; __typename: String!";

const GENRE_TEXT: &str = "Genre; NOVEL \"Long.\"; POETRY \"Short.\" @deprecated None left.; DRAMA";

/// Defaults that are lists.
const FILTER_TEXT: &str = "Filter \"What to find.\"; genres: [Genre!] = [NOVEL, POETRY]; \
rows: [[Int]] = [[1, null], []] \"Of numbers.\"";

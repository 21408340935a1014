//! The resolvers of the library: each field's answer by its name (sections 6.2.2 and 6.4.2 of the Specification).

ghost use Rattle.std.specs.Prelude.{◌≡◌, IfOk, map};
ghost use Rattle.juniper.specs.Server.{AllAnswer, Answers, Leaves, id_text, view_arguments};
ghost use Rattle.juniper_library.specs.Replies as reply;
ghost use Rattle.juniper_library.specs.declared.resolvers.Node.TheVariants as at;

use crate::catalogue::{Book, Entry, Genre, Library};
use juniper::words::{
    Answer, EnumType, InputType, MutationType, QueryType, given, input_field, input_field_or, int,
    nodes, nodes_where, null, object, object_or_null, text,
};
use juniper::{Arguments, Executor, ID, InputValue, ResolveError, ScalarValue};
use std::alloc::{AllocError, Global};

/// An object, by its place in the catalogue.
#[derive(Clone, Copy, Debug, PartialEq, Eq, Drop)]
pub enum Node {
    Query,
    Book(usize),
    Film(usize),
    Author(usize),
}

/// `type Query`.
#[derive(Drop)]
pub struct Query;

/// The copies of up to 100 books are loaded at once.
impl<S: ScalarValue> QueryType<S> for Query {
    type Context = Library;

    type Node = Node;

    ghost concrete = { reply.concrete_type };

    ghost answer = { reply.reply };

    ghost root = { λ _. at.Query };

    fn root_node(&self) -> &Node {
        &Node::Query
    }

    fn concrete_type_name(node: &Node) -> &'static str {
        match node {
            Node::Query => "Query",
            Node::Book(_) => "Book",
            Node::Film(_) => "Film",
            Node::Author(_) => "Author",
        }
    }

    fn resolve_field(
        alloc: Global,
        node: &Node,
        field_name: &str,
        arguments: &Arguments<'_, S>,
        executor: &Executor<Library, S>,
    ) -> Answer<Node, S> {
        let library = executor.context();
        match field_name {
            "copies" => copies_answer(library.load_copies(), node),
            _ => other_field(alloc, library, node, field_name, arguments),
        }
    }

    fn nodes_at_once(type_name: &str) -> usize {
        if type_name == "Book" { 100 } else { 1 }
    }

    fn resolve_fields(
        alloc: Global,
        nodes: &[&Node],
        field_name: &str,
        arguments: &Arguments<'_, S>,
        executor: &Executor<Library, S>,
    ) -> Result<Vec<Answer<Node, S>>, AllocError> {
        if field_name == "copies" {
            return copies_of(alloc, nodes, executor.context().load_copies());
        }
        <Self as QueryType<S>>::resolve_each(alloc, nodes, field_name, arguments, executor)
    }
}

/// What `copies` answers of each of these nodes.
fn copies_of<S: ScalarValue>(
    alloc: Global,
    nodes: &[&Node],
    known: &[i32],
) -> Result<Vec<Answer<Node, S>>, AllocError>
    ensures { IfOk result (λ made. AllAnswer S.shown (λ n. reply.copies_reply (reply.copies known.now n)) (map (λ n. n.now) nodes.now) made.items) }
{
    let mut made = Vec::with_capacity(alloc, nodes.len())?;
    for node in nodes {
        let answer = copies_answer(known, node);
        made.push(answer)?;
    }
    Ok(made)
}

/// What `copies` answers of a node: the number at its place if it is a book, null where there is none.
fn copies_answer<S: ScalarValue>(known: &[i32], node: &Node) -> Answer<Node, S>
    ensures { Answers S.shown result (reply.copies_reply (reply.copies known.now node.now)) }
{
    match *node {
        Node::Book(place) => match known.get(place) {
            Some(number) => int(*number),
            None => null(),
        },
        Node::Query => null(),
        Node::Film(_) => null(),
        Node::Author(_) => null(),
    }
}

/// A field of a node that is not `copies`.
fn other_field<S: ScalarValue>(
    alloc: Global,
    library: &Library,
    node: &Node,
    field_name: &str,
    arguments: &Arguments<'_, S>,
) -> Answer<Node, S>
    ensures { Answers S.shown result (reply.other_field library.now node.now field_name.now (view_arguments S.shown arguments.now)) }
{
    match *node {
        Node::Query => query_field(alloc, library, field_name, arguments),
        Node::Book(place) => match library.books.get(place) {
            None => null(),
            Some(book) => match field_name {
                "id" => text(alloc, book.titled.id.as_str()),
                "title" => text(alloc, book.titled.name.as_str()),
                "genre" => text(alloc, book.genre.value_name()),
                "author" => object(Node::Author(book.author)),
                _ => null(),
            },
        },
        Node::Film(place) => match library.films.get(place) {
            None => null(),
            Some(film) => match field_name {
                "id" => text(alloc, film.id.as_str()),
                "title" => text(alloc, film.name.as_str()),
                _ => null(),
            },
        },
        Node::Author(place) => match library.authors.get(place) {
            None => null(),
            Some(author) => match field_name {
                "name" => text(alloc, author.name.as_str()),
                "books" => nodes(alloc, &books_by(alloc, library, place)?),
                _ => null(),
            },
        },
    }
}

/// A field of `Query`.
fn query_field<S: ScalarValue>(
    alloc: Global,
    library: &Library,
    field_name: &str,
    arguments: &Arguments<'_, S>,
) -> Answer<Node, S>
    ensures { Answers S.shown result (reply.query_field library.now field_name.now (view_arguments S.shown arguments.now)) }
{
    match field_name {
        "book" => {
            let place = book(library, given(alloc, arguments, "isbn")?);
            object_or_null(place.map(Node::Book))
        }
        "books" => {
            let first = given(alloc, arguments, "first")?;
            let genre = given(alloc, arguments, "genre")?;
            nodes(alloc, &books(alloc, library, first, genre)?)
        }
        "search" => {
            let needle: String = given(alloc, arguments, "text")?;
            nodes(alloc, &found(alloc, library, needle.as_str())?)
        }
        _ => null(),
    }
}

/// The place of the first book of this number.
fn book(library: &Library, id: ID) -> Option<usize>
    ensures { result ≡ reply.book library.now (id_text id) }
{
    let mut books = library.books.iter();
    books.position(|book| book.titled.id.as_str() == id.as_str())
}

/// The first books of a genre: ten where no number is given, none where it is negative.
fn books(
    alloc: Global,
    library: &Library,
    first: Option<i32>,
    genre: Option<Genre>,
) -> Result<Vec<Node>, AllocError>
    ensures { IfOk result (λ nodes. nodes.items ≡ reply.books library.now first genre) }
{
    let shown = usize::try_from(first.unwrap_or(10)).unwrap_or(0);
    let books = library.books.iter().enumerate();
    books
        .filter(|entry| is_of(entry.1, genre))
        .map(|entry| Node::Book(entry.0))
        .take(shown)
        .collect(alloc)
}

/// Whether a book is of a genre, where one is asked for.
fn is_of(book: &Book, genre: Option<Genre>) -> bool
    ensures { result ≡ reply.is_of genre book.now }
{
    match genre {
        None => true,
        Some(genre) => book.genre.value_name() == genre.value_name(),
    }
}

/// The books, films and authors whose names begin so.
fn found(alloc: Global, library: &Library, needle: &str) -> Result<Vec<Node>, AllocError>
    ensures { IfOk result (λ nodes. nodes.items ≡ reply.found library.now needle.now) }
{
    let titled = |book: &Book| begins(&book.titled, needle);
    let named = |entry: &Entry| begins(entry, needle);
    let mut found = nodes_where(alloc, &library.books, Node::Book, titled)?;
    found.append(&mut nodes_where(alloc, &library.films, Node::Film, named)?)?;
    found.append(&mut nodes_where(alloc, &library.authors, Node::Author, named)?)?;
    Ok(found)
}

/// Whether a name begins so.
#[tactic(auto, using(std::proofs::lemmas::Str::Pattern::starts_text))]
fn begins(entry: &Entry, needle: &str) -> bool
    ensures { result ≡ reply.begins needle.now entry.now }
{
    entry.name.starts_with(needle)
}

/// The books of an author.
fn books_by(alloc: Global, library: &Library, author: usize) -> Result<Vec<Node>, AllocError>
    ensures { IfOk result (λ nodes. nodes.items ≡ reply.books_by library.now author) }
{
    let theirs = |book: &Book| book.author == author;
    nodes_where(alloc, &library.books, Node::Book, theirs)
}

/// `input NewBook { title: String!, genre: Genre = NOVEL }`, as it is read.
#[derive(Drop)]
pub struct NewBook {
    title: String,
    genre: Genre,
}

impl<S: ScalarValue> InputType<S> for NewBook {
    ghost Seen = { reply.Draft };

    ghost seen = { reply.seen };

    ghost read = { reply.read_new_book };

    fn read_input(alloc: Global, value: &InputValue<S>) -> Result<NewBook, ResolveError<S>> {
        Ok(NewBook {
            title: input_field(alloc, value, "title")?,
            genre: input_field_or(alloc, value, "genre", Genre::Novel)?,
        })
    }
}

/// `type Mutation`.
#[derive(Drop)]
pub struct Mutation;

impl<S: ScalarValue> MutationType<S> for Mutation {
    type Context = Library;

    type Node = Node;

    ghost step = { reply.step };

    ghost torn = { reply.torn };

    #[tactic(auto, using(crate::proofs::Torn::nothing_torn))]
    fn resolve_root(
        alloc: Global,
        field_name: &str,
        arguments: &Arguments<'_, S>,
        _executor: &Executor<(), S>,
        library: &mut Library,
    ) -> Answer<Node, S> {
        match field_name {
            "addBook" => add_book(alloc, library, given(alloc, arguments, "new")?),
            _ => null(),
        }
    }
}

/// A book behind the others. Its number is made of its place, and its author is the first one.
#[tactic(auto, using(crate::proofs::Torn::nothing_torn))]
fn add_book<S: ScalarValue>(alloc: Global, library: &mut Library, new: NewBook) -> Answer<Node, S>
    ensures answer { Answers S.shown result (reply.add_book library.old (reply.seen new)).1 }
    ensures context { Leaves (reply.add_book library.old (reply.seen new)).0 (reply.torn library.old) result library.new }
{
    let NewBook { title: name, genre } = new;
    let place = library.books.len();
    let id = format!(in alloc; "new-{place}")?;
    library.books.push(Book {
        titled: Entry { id, name },
        genre,
        author: 0,
    })?;
    object(Node::Book(place))
}

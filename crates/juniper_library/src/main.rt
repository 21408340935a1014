//! A catalogue of books, films and authors: `juniper_library TEXT..` executes the request of each
//! text, one after the other on one catalogue, and prints its response as a line of JSON.
#![tactic(auto)]

mod catalogue;
mod resolvers;
mod types;

use catalogue::{Book, Entry, Genre, Library};
use juniper::words::served;
use juniper::{
    DefaultScalarValue, GraphQLError, SchemaType, Variables, execute_sync, parse_document_source,
};
use juniper_explain::{Explanation, explain};
use juniper_json::{BrokenRule, Refusal, explained_line, response_line};
use resolvers::{Mutation, Query};
use std::alloc::{AllocError, Global};
use std::{env, io};

/// The catalogue of a server that starts; its first author stands for those who are not known.
fn shelves(alloc: Global) -> Result<Library, AllocError> {
    let mut authors = Vec::new(alloc);
    for name in "Unknown, Mary Shelley, Emily Dickinson, Charles Darwin".split(", ") {
        authors.push(Entry::new(alloc, "", name)?)?;
    }
    let mut books = Vec::new(alloc);
    for (id, title, genre, author) in [
        ("1", "Frankenstein", Genre::Novel, 1),
        ("2", "Poems", Genre::Poetry, 2),
        ("3", "The Last Man", Genre::Novel, 1),
        ("4", "On the Origin of Species", Genre::Science, 3),
    ] {
        let titled = Entry::new(alloc, id, title)?;
        books.push(Book {
            titled,
            genre,
            author,
        })?;
    }
    let mut films = Vec::new(alloc);
    films.push(Entry::new(alloc, "f1", "Frankenstein (1931)")?)?;
    let copies = vec![in alloc; 3, 1, 2, 4]?;
    Ok(Library {
        books,
        films,
        authors,
        copies,
    })
}

/// What explains the error of a request: where it is not valid, each node that violates a rule.
fn explanations(
    alloc: Global,
    request: &str,
    schema: &SchemaType<DefaultScalarValue>,
    error: &GraphQLError,
) -> Result<Vec<Refusal>, AllocError> {
    let mut refusals = Vec::new(alloc);
    if !matches!(error, GraphQLError::ValidationError(_)) {
        return Ok(refusals);
    }
    let Ok(document) = parse_document_source(alloc, request) else {
        return Ok(refusals);
    };
    for explanation in explain(alloc, &document, schema, false)? {
        refusals.push(refusal(alloc, explanation)?)?;
    }
    Ok(refusals)
}

/// An explanation as an error: its text, its place, and its rule with the number, which is the place of the rule in their order.
fn refusal(alloc: Global, explanation: Explanation) -> Result<Refusal, AllocError> {
    let text = String::from_str(alloc, explanation.rule.message())?;
    let number = Some(explanation.rule as usize + 1);
    Ok(Refusal {
        message: explanation.message,
        place: Some(explanation.location),
        rule: Some(BrokenRule { text, number }),
    })
}

/// The response to a request, as a line of JSON; where the request is not valid, its errors are what explains it.
fn respond(alloc: Global, request: &str, library: &mut Library) -> Result<String, AllocError> {
    let root = match served::<_, _, DefaultScalarValue>(alloc, Query, Mutation, &types::TYPES) {
        Ok(root) => root,
        Err(error) => return error.to_string(alloc),
    };
    let outcome = execute_sync(alloc, request, None, &root, &Variables::new(alloc), library);
    match &outcome {
        Err(error) => {
            let explained = explanations(alloc, request, root.schema(), error)?;
            explained_line(alloc, error, explained.as_slice())
        }
        Ok(_) => response_line(alloc, &outcome),
    }
}

fn main(rt: HostRuntime) -> io::Result<()> {
    let mut library = shelves(rt.alloc())?;
    for request in env::args(&rt)?.skip(1) {
        let line = respond(rt.alloc(), request.as_str(), &mut library)?;
        println!(rt; "{line}")?;
    }
    Ok(())
}

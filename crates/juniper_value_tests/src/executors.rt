//! Executors, contexts, and resolvers that stand for another.

use crate::executor_samples::{Counter, Requests, occurrence, path, variables};
use juniper_conversions::{FieldError, PathPart, PathSegment};
use juniper_lookahead::{LookAheadChildren, LookAheadList, LookAheadObject, Occurrence};
use juniper_schema::{SchemaType, TypeType};
use juniper_syntax::{DefaultScalarValue, Field, InputValue, Span, Spanning, Value};
use juniper_types::{Executor, FromContext, GraphQLValue};
use std::alloc::{AllocError, Global};
use std::collections::HashMap;
use std::fmt::Display;
use std::test::Fail;

/// What an executor is asked, and what it and one with a replaced context answer.
const ASKED: &str = "\
context => 7 | other
schema => Query | Query
variable size => 3 | 3
variable other => none | none
location => 0:9 | 0:9
type => String | String
fragment Other => none | none
ahead => mate: friend | mate: friend
occurrences => 2: mate mate | 2: mate mate
occurrences from the back => 1 left after mate | 1 left after mate
error => 0:9 hero 2 mate failed | 0:9 hero 2 mate failed";

/// How a resolver is held: its type, its concrete type, its root, and for how many nodes it is asked at once.
const RESOLVERS: &str = "\
itself => Counter Counted 5 100
in a box => Counter Counted 5 100
behind a reference => Counter Counted 5 100";

/// What is told of a case that no table has.
fn unknown(alloc: Global) -> Result<String, AllocError> {
    String::from_str(alloc, "no such case")
}

/// What an executor of this context answers.
fn asked<C: Display>(
    alloc: Global,
    executor: &Executor<C, DefaultScalarValue>,
    case: &str,
) -> Result<String, AllocError> {
    match case {
        "context" => executor.context().to_string(alloc),
        "schema" => String::from_str(alloc, executor.schema().query_name()),
        "variable size" => value_of(alloc, executor.variables().get("size")),
        "variable other" => value_of(alloc, executor.variables().get("other")),
        "location" => {
            let place = executor.location();
            let (line, column) = (place.line(), place.column());
            format!(in alloc; "{line}:{column}")
        }
        "type" => type_of(alloc, executor.current_type()),
        "fragment Other" => fragment_of(alloc, executor, "Other"),
        "ahead" => ahead_of(alloc, executor),
        "occurrences" => occurrences_of(alloc, executor),
        "occurrences from the back" => last_occurrence_of(alloc, executor),
        "error" => error_of(alloc, executor),
        _ => unknown(alloc),
    }
}

/// The value of a variable.
fn value_of(
    alloc: Global,
    value: Option<&InputValue<DefaultScalarValue>>,
) -> Result<String, AllocError> {
    match value {
        Some(value) => value.to_string(alloc),
        None => String::from_str(alloc, "none"),
    }
}

/// The name of a type.
fn type_of(alloc: Global, declared: &TypeType<DefaultScalarValue>) -> Result<String, AllocError> {
    match declared {
        TypeType::Concrete(meta) => String::from_str(alloc, meta.name().unwrap_or("no name")),
        TypeType::List(_, _) | TypeType::NonNull(_) => unknown(alloc),
    }
}

/// The type that a fragment is on.
fn fragment_of<C>(
    alloc: Global,
    executor: &Executor<C, DefaultScalarValue>,
    name: &str,
) -> Result<String, AllocError> {
    match executor.fragment_by_name(name) {
        Some(fragment) => String::from_str(alloc, fragment.type_condition.item),
        None => String::from_str(alloc, "none"),
    }
}

/// The names that look-ahead shows.
fn ahead_of<C>(
    alloc: Global,
    executor: &Executor<C, DefaultScalarValue>,
) -> Result<String, AllocError> {
    let selection = executor.look_ahead();
    let (alias, name) = (selection.field_name(), selection.field_original_name());
    format!(in alloc; "{alias}: {name}")
}

/// How many occurrences the field has, and the names that look-ahead shows of them.
fn occurrences_of<C>(
    alloc: Global,
    executor: &Executor<C, DefaultScalarValue>,
) -> Result<String, AllocError> {
    let occurrences = executor.look_ahead_occurrences();
    let count = occurrences.len();
    let mut text = format!(in alloc; "{count}:")?;
    for occurrence in occurrences {
        text.push(' ')?;
        text.push_str(occurrence.field_name())?;
    }
    Ok(text)
}

/// What is left when the last occurrence was taken, and its name.
fn last_occurrence_of<C>(
    alloc: Global,
    executor: &Executor<C, DefaultScalarValue>,
) -> Result<String, AllocError> {
    let mut occurrences = executor.look_ahead_occurrences();
    match occurrences.next_back() {
        Some(last) => {
            let (count, name) = (occurrences.len(), last.field_name());
            format!(in alloc; "{count} left after {name}")
        }
        None => String::from_str(alloc, "none"),
    }
}

/// An error at the field: its place, its path and its message.
fn error_of<C>(
    alloc: Global,
    executor: &Executor<C, DefaultScalarValue>,
) -> Result<String, AllocError> {
    let error = FieldError::new(alloc, "failed", Value::Null)?;
    let made = executor.new_error(alloc, error)?;
    let (line, column) = (made.location().line(), made.location().column());
    let mut text = format!(in alloc; "{line}:{column}")?;
    for segment in made.path() {
        text.push(' ')?;
        let shown = match segment {
            PathSegment::Index(position) => position.to_string(alloc)?,
            PathSegment::Key(key) => String::from_str(alloc, key.as_str())?,
        };
        text.push_str(shown.as_str())?;
    }
    text.push(' ')?;
    text.push_str(made.error().message())?;
    Ok(text)
}

/// How a resolver is held that answers as `Counter` does.
fn resolved(
    alloc: Global,
    executor: &Executor<i32, DefaultScalarValue>,
    case: &str,
) -> Result<String, AllocError> {
    let counter = Counter { root: 5 };
    match case {
        "itself" => resolved_by(alloc, &counter, &(), executor),
        "in a box" => resolved_by(alloc, &Box::new(alloc, counter)?, &(), executor),
        "behind a reference" => resolved_by(alloc, &&counter, &(), executor),
        _ => unknown(alloc),
    }
}

/// The type of a resolver, its concrete type, its root, and for how many nodes it is asked at once.
fn resolved_by<T: GraphQLValue<DefaultScalarValue, Node = i32>>(
    alloc: Global,
    resolver: &T,
    info: &T::TypeInfo,
    executor: &Executor<T::Context, DefaultScalarValue>,
) -> Result<String, AllocError> {
    let name = resolver.type_name(info).unwrap_or("no name");
    let root = resolver.root_node();
    let concrete = resolver.concrete_type_name(executor.context(), info, root);
    let at_once = resolver.nodes_at_once(info, "Counted");
    format!(in alloc; "{name} {concrete} {root} {at_once}")
}

/// What is told of a case of the tables.
fn told_of(alloc: Global, case: &str) -> Result<String, AllocError> {
    let query = String::from_str(alloc, "Query")?;
    let schema = SchemaType::new(alloc, HashMap::new(alloc), query, None)?;
    let field = occurrence();
    told_at(alloc, &schema, &field, case)
}

/// What is told of a case where the field is resolved.
fn told_at<'d>(
    alloc: Global,
    schema: &'d SchemaType<DefaultScalarValue>,
    field: &'d Spanning<Field<'static, DefaultScalarValue>, Span>,
    case: &str,
) -> Result<String, AllocError> {
    let variables = variables(alloc)?;
    let path = path(alloc)?;
    let fragments = HashMap::new(alloc);
    match schema.type_by_name("String") {
        Some(declared) => {
            let occurrences = [Occurrence { field }, Occurrence { field }];
            let executor = Executor::at_field(
                &7,
                schema,
                &variables,
                &fragments,
                &path,
                &declared,
                "Human",
                &[],
                &occurrences,
            );
            told_by(alloc, &executor, case)
        }
        None => unknown(alloc),
    }
}

/// What is told of a case by this executor.
fn told_by(
    alloc: Global,
    executor: &Executor<i32, DefaultScalarValue>,
    case: &str,
) -> Result<String, AllocError> {
    if RESOLVERS.contains(case) {
        return resolved(alloc, executor, case);
    }
    let own = asked(alloc, executor, case)?;
    let other = asked(alloc, &executor.replaced_context(&"other"), case)?;
    format!(in alloc; "{own} | {other}")
}

/// The first row, `CASE => TEXT`, that says something else than what is told of its case; of an empty table its empty row.
fn first_other(alloc: Global, rows: &str) -> Result<Option<&str>, AllocError> {
    for row in rows.split('\n') {
        match row.split_once(" => ") {
            Some((case, text)) => {
                if told_of(alloc, case)?.as_str() != text {
                    return Ok(Some(row));
                }
            }
            None => return Ok(Some(row)),
        }
    }
    Ok(None)
}

#[test]
fn executors_answer_what_they_were_given(rt: HostRuntime) {
    assert_eq!(rt; first_other(rt.alloc(), ASKED), Ok(None));
}

#[test]
fn resolvers_are_forwarded_to(rt: HostRuntime) {
    assert_eq!(rt; first_other(rt.alloc(), RESOLVERS), Ok(None));
}

#[test]
fn other_rows_are_found(rt: HostRuntime) {
    let rows = "schema => Query | Query\nlocation => 0:9 | 0:2";
    assert_eq!(rt;
        first_other(rt.alloc(), rows),
        Ok(Some("location => 0:9 | 0:2"))
    );
    assert_eq!(rt; first_other(rt.alloc(), ""), Ok(Some("")));
}

/// The count of a context that can be taken of another.
fn count_of<T>(context: &T) -> i32
where
    Requests: FromContext<T>,
{
    <Requests as FromContext<T>>::from(context).count
}

#[test]
fn copies_of_paths_have_their_parts(rt: HostRuntime) -> Result<(), Fail> {
    let alloc = rt.alloc();
    let parts = path(alloc)?.clone()?.parts(alloc)?;
    let wanted = [
        PathPart::Key("hero"),
        PathPart::Index(2),
        PathPart::Key("mate"),
    ];
    assert_eq!(rt; parts.as_slice(), wanted.as_slice());
    Ok(())
}

#[test]
fn contexts_are_taken_as_they_are(rt: HostRuntime) {
    let requests = Requests { count: 7 };
    assert_eq!(rt; count_of(&requests), 7);
    let lent = &requests;
    assert_eq!(rt; <&Requests as FromContext<&Requests>>::from(&lent).count, 7);
}

#[test]
fn what_is_not_written_is_empty(rt: HostRuntime) {
    let none: LookAheadChildren<'_, '_, '_, DefaultScalarValue> = LookAheadChildren::empty(
        rt.alloc(),
    );
    assert_eq!(rt; (none.len(), none.is_empty()), (0, true));
    let list: LookAheadList<DefaultScalarValue> = LookAheadList::default();
    assert_eq!(rt; list.iter().len(), 0);
    let object: LookAheadObject<DefaultScalarValue> = LookAheadObject::default();
    assert_eq!(rt; object.iter().len(), 0);
}

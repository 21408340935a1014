//! The errors of requests, rules and fields.

use juniper::{
    DefaultScalarValue, ExecutionError, FieldError, GraphQLError, Object, PathPart, RootError,
    RuleError, Value,
};
use juniper_json::answer_line;
use juniper_language::{ParseError, SourcePosition, Span, Spanning};
use std::alloc::{AllocError, AllocFailed, Global};
use std::test::Fail;

fn broken(alloc: Global, message: &str) -> Result<RuleError, AllocError> {
    RuleError::new(alloc, message, SourcePosition::new_origin())
}

/// Whether an error, and its copy, have this text.
fn has_text(alloc: Global, error: &GraphQLError, text: &str) -> Result<bool, AllocError> {
    let copy = error.try_clone(alloc)?;
    let shown = copy.to_string(alloc)?;
    Ok(copy == *error && shown.as_str() == text)
}

/// The texts of the errors that hold no text, in the order of [`error_at`].
const TEXTS: &str = "\
Unexpected end of input
No operation provided
Multiple operations provided
Unknown operation name
Operation is a subscription
Operation is not a subscription
Mutations are not supported
Out of memory";

/// The error whose text stands in this line.
fn error_at(line: usize) -> GraphQLError {
    match line {
        0 => GraphQLError::ParseError(Spanning::unlocated(ParseError::UnexpectedEndOfFile)),
        1 => GraphQLError::NoOperationProvided,
        2 => GraphQLError::MultipleOperationsProvided,
        3 => GraphQLError::UnknownOperationName,
        4 => GraphQLError::IsSubscription,
        5 => GraphQLError::NotSubscription,
        6 => GraphQLError::MutationNotSupported,
        _ => GraphQLError::OutOfMemory,
    }
}

/// The first text that is not the one of its error.
fn first_other<'r>(alloc: Global, texts: &'r str) -> Result<&'r str, AllocError> {
    for (line, text) in texts.lines().enumerate() {
        if !has_text(alloc, &error_at(line), text)? {
            return Ok(text);
        }
    }
    Ok("")
}

#[test]
fn each_error_has_its_text(rt: HostRuntime) -> Result<(), Fail> {
    assert_eq!(rt; first_other(rt.alloc(), TEXTS)?, "");
    Ok(())
}

#[test]
fn a_wrong_text_is_found(rt: HostRuntime) -> Result<(), Fail> {
    let texts = "Unexpected end of input\nNo operation";
    assert_eq!(rt; first_other(rt.alloc(), texts)?, "No operation");
    Ok(())
}

#[test]
fn an_error_shows_a_variable_s_name(rt: HostRuntime) -> Result<(), Fail> {
    let error = GraphQLError::VariableNotConstant(String::from_str(rt.alloc(), "id")?);
    assert!(rt; has_text(rt.alloc(), &error, "Variable `$id` holds a variable")?);
    Ok(())
}

#[test]
fn errors_of_roots_have_their_texts(rt: HostRuntime) -> Result<(), Fail> {
    let text = RootError::NotExecutable.to_string(rt.alloc())?;
    assert_eq!(rt; text.as_str(), "The schema cannot be executed");
    let text = RootError::Memory.to_string(rt.alloc())?;
    assert_eq!(rt; text.as_str(), "Out of memory");
    Ok(())
}

#[test]
fn errors_of_rules_are_shown_by_lines(rt: HostRuntime) -> Result<(), Fail> {
    let alloc = rt.alloc();
    let one = GraphQLError::from_rule(alloc, broken(alloc, "Unknown field")?)?;
    assert!(rt; has_text(alloc, &one, "Unknown field")?);
    let mut rules = Vec::new(alloc);
    for message in ["One", "Two", "Three"] {
        rules.push(broken(alloc, message)?)?;
    }
    assert!(rt;
        has_text(
            alloc,
            &GraphQLError::ValidationError(rules),
            "One\nTwo\nThree"
        )?
    );
    Ok(())
}

#[test]
fn errors_are_converted(rt: HostRuntime) -> Result<(), Fail> {
    let alloc = rt.alloc();
    let memory = GraphQLError::from(Spanning::unlocated(ParseError::Memory));
    assert!(rt; memory == GraphQLError::OutOfMemory);
    let place = SourcePosition::new(3, 0, 3);
    let span = Span {
        start: place,
        end: place,
    };
    let parse = GraphQLError::from(Spanning::new(span, ParseError::UnexpectedToken));
    assert!(rt;
        parse == GraphQLError::ParseError(Spanning::new(span, ParseError::UnexpectedToken))
    );
    assert!(rt; GraphQLError::from(AllocError) == GraphQLError::OutOfMemory);
    assert!(rt; GraphQLError::from(AllocFailed { value: 1u8 }) == GraphQLError::OutOfMemory);
    let rules = GraphQLError::from(vec![in alloc; broken(alloc, "One")?]?);
    assert!(rt; rules == GraphQLError::from_rule(alloc, broken(alloc, "One")?)?);
    Ok(())
}

#[test]
fn an_error_keeps_its_message_and_place(rt: HostRuntime) -> Result<(), Fail> {
    let error = RuleError::new(rt.alloc(), "Unknown field", SourcePosition::new(7, 1, 3))?;
    assert_eq!(rt; error.message(), "Unknown field");
    assert_eq!(rt;
        error.locations(),
        [SourcePosition::new(7, 1, 3)].as_slice()
    );
    let clone = error.try_clone(rt.alloc())?;
    assert!(rt; error == clone);
    Ok(())
}

#[test]
fn a_place_is_lent_with_its_item(rt: HostRuntime) {
    let span = Span {
        start: SourcePosition::new(3, 0, 3),
        end: SourcePosition::new(4, 0, 4),
    };
    let located = Spanning::new(span, 7);
    let lent = located.as_ref();
    assert_eq!(rt; *lent.item, 7);
    assert_eq!(rt; *lent.span, span);
}

/// The extensions of a field's error, and how the error is printed behind data that is null (7.1.2).
const EXTENDED: &str =
    r#"null => {"data":null,"errors":[{"message":"failed","locations":[{"line":2,"column":5}],"path":["a",1]}]}
7 => {"data":null,"errors":[{"message":"failed","locations":[{"line":2,"column":5}],"path":["a",1],"extensions":7}]}
[7,null] => {"data":null,"errors":[{"message":"failed","locations":[{"line":2,"column":5}],"path":["a",1],"extensions":[7,null]}]}
{"code":7} => {"data":null,"errors":[{"message":"failed","locations":[{"line":2,"column":5}],"path":["a",1],"extensions":{"code":7}}]}"#;

/// The extensions of a row.
fn extensions_of(alloc: Global, case: &str) -> Result<Value<DefaultScalarValue>, AllocError> {
    let seven = Value::Scalar(DefaultScalarValue::Int(7));
    match case {
        "7" => Ok(seven),
        "[7,null]" => Ok(Value::List(vec![in alloc; seven, Value::Null]?)),
        "{\"code\":7}" => {
            let mut object = Object::with_capacity(alloc, 1)?;
            drop(object.add_field(String::from_str(alloc, "code")?, seven)?);
            Ok(Value::Object(object))
        }
        _ => Ok(Value::Null),
    }
}

/// An answer with one error, which has the extensions of a row.
fn extended_line(alloc: Global, case: &str) -> Result<String, AllocError> {
    let error = FieldError::new(alloc, "failed", extensions_of(alloc, case)?)?;
    let path = [PathPart::Key("a"), PathPart::Index(1)];
    let made = ExecutionError::new(alloc, SourcePosition::new(9, 1, 4), &path, error)?;
    answer_line(alloc, &Value::Null, &[made])
}

/// The first of these rows that tells another line than the one that is printed; nothing where there is none.
fn first_other_line<'r>(alloc: Global, rows: &'r str) -> Result<&'r str, AllocError> {
    for row in rows.lines() {
        let (case, line) = row.split_once(" => ").unwrap_or((row, ""));
        if extended_line(alloc, case)?.as_str() != line {
            return Ok(row);
        }
    }
    Ok("")
}

#[test]
fn extensions_are_printed(rt: HostRuntime) -> Result<(), Fail> {
    assert_eq!(rt; first_other_line(rt.alloc(), EXTENDED)?, "");
    assert_eq!(rt; first_other_line(rt.alloc(), "7 => {}")?, "7 => {}");
    Ok(())
}

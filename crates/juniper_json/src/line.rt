//! Responses as lines of JSON (sections 7.1 and 7.2.2 of the Specification).

ghost use Rattle.std.specs.Prelude.{◌≡◌, ◌+◌, IfOk, OnOk, map, string_bytes, [], ◌∷◌};
ghost use Rattle.juniper_conversions.specs.ErrorView.{view_listed};
ghost use Rattle.juniper_conversions.specs.SegmentView.{view_segment};
ghost use Rattle.juniper_syntax.specs.Positions.{view_position};
ghost use Rattle.juniper_syntax.specs.ValueView.{view_value, view_object, view_values};
ghost use Rattle.serde_json.specs.Data.{array, object};
ghost use Rattle.serde_json.specs.Events.{SendsValue, SendsMembers, members_len};
ghost use Rattle.juniper_json.specs.AnswerText.{answer_data, answer_text, scalar_data, value_data, values_data, entries_data, items_data, location_data};
ghost use Rattle.juniper_json.specs.AnswerText.{step_data, extensions_data, error_data, errors_data};

use juniper_syntax::{Object, ScalarValue, SourcePosition, Value};
use juniper_values::{ExecutionError, PathSegment};
use serde::{Described, Serialize, Serializer};
use serde_json::Number;
use std::alloc::{AllocError, Global};

/// The data and the errors that one answer shows.
#[derive(Drop)]
struct Shown<'a, S> {
    value: &'a Value<S>,
    errors: &'a [ExecutionError<S>],
}

/// The line of an answer: its data, and its errors where there are some (7.1). An error where memory is refused.
pub fn answer_line<S: ScalarValue>(
    alloc: Global,
    value: &Value<S>,
    errors: &[ExecutionError<S>],
) -> Result<String, AllocError>
    ensures { IfOk result (λ line. string_bytes line ≡ answer_text (view_value S.shown value.now) (map (view_listed S.shown) errors.now)) }
{
    match serde_json::to_string(alloc, &Shown { value, errors }) {
        Ok(line) => Ok(line),
        Err(_) => Err(AllocError),
    }
}

impl<S: ScalarValue> Described for Shown<'_, S> {
    ghost writes = { λ s. SendsValue (answer_data (view_value S.shown s.value.now) (map (view_listed S.shown) s.errors.now)) };
}

impl<S: ScalarValue> Serialize for Shown<'_, S> {
    fn serialize<W: Serializer>(&self, out: &mut W) -> Result<(), W::Error> {
        out.begin_map(Some(answer_members(self.errors)))?;
        out.key("data")?;
        send_value(self.value, out)?;
        end_with_errors(self.errors, out)
    }
}

/// How many members an answer has: its data, and its errors where there are some.
#[tactic(auto, unfolding(crate::specs::AnswerText::errors_data))]
fn answer_members<S: ScalarValue>(errors: &[ExecutionError<S>]) -> usize
    ensures { result ≡ 1 + members_len (errors_data (map (view_listed S.shown) errors.now)) }
{
    match errors {
        [] => 1,
        _ => 2,
    }
}

/// Sends the last member of an answer, the errors where there are some, and the end.
#[tactic(auto, unfolding(crate::specs::AnswerText::errors_data))]
fn end_with_errors<S: ScalarValue, W: Serializer>(
    errors: &[ExecutionError<S>],
    out: &mut W,
) -> Result<(), W::Error>
    ensures { OnOk result (SendsMembers (errors_data (map (view_listed S.shown) errors.now)) (W.written out.old) (W.written out.new)) }
{
    if errors.is_empty() {
        return out.end_map();
    }
    out.key("errors")?;
    send_errors(errors, out)?;
    out.end_map()
}

#[tactic(auto, unfolding(crate::specs::AnswerText::items_data))]
fn send_errors<S: ScalarValue, W: Serializer>(
    errors: &[ExecutionError<S>],
    out: &mut W,
) -> Result<(), W::Error>
    ensures { OnOk result (SendsValue (array (items_data error_data (map (view_listed S.shown) errors.now))) (W.written out.old) (W.written out.new)) }
{
    out.begin_seq(Some(errors.len()))?;
    for error in errors {
        send_error(error, out)?;
    }
    out.end_seq()
}

/// Sends an error with its place in the text and in the answer (7.1.2).
#[tactic(auto, unfolding(crate::specs::AnswerText::error_data, crate::specs::AnswerText::items_data))]
fn send_error<S: ScalarValue, W: Serializer>(
    error: &ExecutionError<S>,
    out: &mut W,
) -> Result<(), W::Error>
    ensures { OnOk result (SendsValue (error_data (view_listed S.shown error.now)) (W.written out.old) (W.written out.new)) }
{
    let field_error = error.error();
    let extensions = field_error.extensions();
    out.begin_map(Some(error_members(extensions)))?;
    out.key("message")?;
    out.str(field_error.message())?;
    out.key("locations")?;
    send_locations(error.location(), out)?;
    out.key("path")?;
    send_path(error.path(), out)?;
    end_with_extensions(extensions, out)
}

/// Sends the one place of an error, whose line and column count from 1.
#[tactic(auto, unfolding(crate::specs::AnswerText::items_data, crate::specs::AnswerText::location_data))]
pub(crate) fn send_locations<W: Serializer>(
    location: &SourcePosition,
    out: &mut W,
) -> Result<(), W::Error>
    ensures { OnOk result (SendsValue (array (items_data location_data (view_position location.now ∷ []))) (W.written out.old) (W.written out.new)) }
{
    out.begin_seq(Some(1))?;
    out.begin_map(Some(2))?;
    out.key("line")?;
    out.u128(location.line() as u128 + 1)?;
    out.key("column")?;
    out.u128(location.column() as u128 + 1)?;
    out.end_map()?;
    out.end_seq()
}

#[tactic(auto, unfolding(crate::specs::AnswerText::items_data, crate::specs::AnswerText::step_data))]
fn send_path<W: Serializer>(path: &[PathSegment], out: &mut W) -> Result<(), W::Error>
    ensures { OnOk result (SendsValue (array (items_data step_data (map view_segment path.now))) (W.written out.old) (W.written out.new)) }
{
    out.begin_seq(Some(path.len()))?;
    for segment in path {
        send_segment(segment, out)?;
    }
    out.end_seq()
}

/// Sends a step of a path: a position as a number, from 0, or a response key as a text (7.1.2).
#[tactic(auto, unfolding(crate::specs::AnswerText::step_data))]
fn send_segment<W: Serializer>(segment: &PathSegment, out: &mut W) -> Result<(), W::Error>
    ensures { OnOk result (SendsValue (step_data (view_segment segment.now)) (W.written out.old) (W.written out.new)) }
{
    match segment {
        PathSegment::Index(position) => out.u128(*position as u128),
        PathSegment::Key(key) => out.str(key.as_str()),
    }
}

/// How many members an error has: three, and its extensions where they are not null.
#[tactic(auto, using(crate::proofs::Members::none_count, crate::proofs::Members::some_count))]
fn error_members<S: ScalarValue>(extensions: &Value<S>) -> usize
    ensures { result ≡ 3 + members_len (extensions_data (view_value S.shown extensions.now)) }
{
    if extensions.is_null() { 3 } else { 4 }
}

/// Sends the last member of an error, its extensions where they are not null, and the end.
#[tactic(auto, using(crate::proofs::Members::none_sent, crate::proofs::Members::some_sent))]
fn end_with_extensions<S: ScalarValue, W: Serializer>(
    extensions: &Value<S>,
    out: &mut W,
) -> Result<(), W::Error>
    ensures { OnOk result (SendsMembers (extensions_data (view_value S.shown extensions.now)) (W.written out.old) (W.written out.new)) }
{
    if extensions.is_null() {
        return out.end_map();
    }
    out.key("extensions")?;
    send_value(extensions, out)?;
    out.end_map()
}

/// Sends a value of an answer.
#[cycle(send)]
#[tactic(auto, unfolding(crate::specs::AnswerText::value_data))]
fn send_value<S: ScalarValue, W: Serializer>(value: &Value<S>, out: &mut W) -> Result<(), W::Error>
    ensures { OnOk result (SendsValue (value_data (view_value S.shown value.now)) (W.written out.old) (W.written out.new)) }
{
    match value {
        Value::Null => out.unit(),
        Value::Scalar(scalar) => send_scalar(scalar, out),
        Value::List(items) => send_items(items.as_slice(), out),
        Value::Object(entries) => send_entries(entries, out),
    }
}

/// Sends a scalar.
#[tactic(auto, unfolding(crate::specs::AnswerText::scalar_data))]
fn send_scalar<S: ScalarValue, W: Serializer>(scalar: &S, out: &mut W) -> Result<(), W::Error>
    ensures { OnOk result (SendsValue (scalar_data (S.shown scalar.now)) (W.written out.old) (W.written out.new)) }
{
    if let Some(number) = scalar.try_to_int() {
        return Number::from(number).serialize(out);
    }
    if let Some(truth) = scalar.try_to_bool() {
        return out.bool(truth);
    }
    match scalar.try_to_str() {
        Some(text) => out.str(text),
        None => unreachable!(),
    }
}

#[cycle(send)]
#[tactic(auto, unfolding(crate::specs::AnswerText::values_data))]
fn send_items<S: ScalarValue, W: Serializer>(
    items: &[Value<S>],
    out: &mut W,
) -> Result<(), W::Error>
    ensures { OnOk result (SendsValue (array (values_data (view_values S.shown items.now))) (W.written out.old) (W.written out.new)) }
{
    out.begin_seq(Some(items.len()))?;
    for item in items {
        send_value(item, out)?;
    }
    out.end_seq()
}

#[cycle(send)]
#[tactic(auto, unfolding(crate::specs::AnswerText::entries_data))]
fn send_entries<S: ScalarValue, W: Serializer>(
    entries: &Object<S>,
    out: &mut W,
) -> Result<(), W::Error>
    ensures { OnOk result (SendsValue (object (entries_data (view_object S.shown entries.now))) (W.written out.old) (W.written out.new)) }
{
    out.begin_map(Some(entries.field_count()))?;
    for (key, value) in entries.iter() {
        out.key(key.as_str())?;
        send_value(value, out)?;
    }
    out.end_map()
}

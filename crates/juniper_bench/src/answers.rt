//! What the program answers.

ghost use Rattle.std.specs.Prelude.{◌≡◌, IfOk, length, map, string_bytes};
ghost use Rattle.juniper_syntax.specs.DocumentView.{view_document};
ghost use Rattle.juniper_syntax.specs.Positions.{view_position};
ghost use Rattle.juniper_syntax.specs.RuleView.{view_rule_error};
ghost use Rattle.juniper_syntax.specs.Scalars.{default_shown};
ghost use Rattle.juniper_schema.specs.SchemaView.{view_schema};
ghost use Rattle.graphql_spec.specs.Executable.{is_executable};
ghost use Rattle.juniper_bench.specs.Answers.{IsAnswerTo, IsListFor, IsListed, IsScanOf, IsTestOf, counts_line, executable_word, list_line, refusal_line};
ghost use Rattle.juniper_bench.specs.Answers.{schema_line};
ghost use Rattle.juniper_bench.specs.Counts.{capped, fields_of};

use crate::count::count_fields;
use crate::schema::made_schema;
use juniper_language::{
    DefaultScalarValue, Document, ParseError, RuleError, Span, Spanning, parse_document_source,
};
use juniper_rules::validate;
use juniper_schema::{SchemaType, schema_is_executable};
use serde_json::Value;
use std::alloc::{AllocError, Global};

/// How many types the schema has on which documents are validated.
const SCHEMA_TYPES: usize = 12;

/// What the program prints, and the status with which it ends: 0 where it did what it was asked for, 1 for a text that is
/// refused, 2 for words that are not understood and for a file that cannot be read.
#[derive(Debug, Drop)]
pub struct Answer {
    /// The status.
    pub status: u8,
    /// What is printed, without its last line feed.
    pub line: String,
}

/// Parses the text so many times, and answers what its document counts, or why and where it is refused. An error where
/// memory is refused.
pub fn parse_answer(alloc: Global, text: &str, times: usize) -> Result<Answer, AllocError>
    ensures { IfOk result (IsAnswerTo text.now) }
{
    for _turn in 1..times {
        let _parsed = parse_document_source::<DefaultScalarValue>(alloc, text);
    }
    match parse_document_source::<DefaultScalarValue>(alloc, text) {
        Ok(document) => counted(alloc, &document, text.len()),
        Err(refusal) => refused(alloc, &refusal),
    }
}

/// What a document of a text of so many bytes counts.
fn counted(
    alloc: Global,
    document: &Document<'_, DefaultScalarValue>,
    bytes: usize,
) -> Result<Answer, AllocError>
    ensures status { IfOk result (λ a. a.status ≡ 0) }
    ensures line { IfOk result (λ a. string_bytes a.line ≡ counts_line (length (view_document default_shown document.now))
        (capped (fields_of (view_document default_shown document.now))) bytes) }
{
    let definitions = document.len();
    let fields = count_fields(document);
    Ok(Answer {
        status: 0,
        line: format!(in alloc; "definitions: {definitions}, fields: {fields}, bytes: {bytes}")?,
    })
}

/// Why a text is refused, and where.
#[tactic(auto, unfolding(crate::specs::Counts::capped))]
fn refused(alloc: Global, refusal: &Spanning<ParseError, Span>) -> Result<Answer, AllocError>
    ensures status { IfOk result (λ a. a.status ≡ 1) }
    ensures line { IfOk result (λ a. string_bytes a.line ≡ refusal_line refusal.now.item (view_position refusal.now.span.start)) }
{
    let error = &refusal.item;
    let line = refusal.span.start.line().saturating_add(1);
    let column = refusal.span.start.column().saturating_add(1);
    Ok(Answer {
        status: 1,
        line: format!(in alloc; "refused: {error} at {line}:{column}")?,
    })
}

/// Parses the text, validates its document so many times on a schema that is made, with introspection allowed, and answers
/// how many errors are listed; or why and where the text is refused. An error where memory is refused.
pub fn validate_answer(alloc: Global, text: &str, times: usize) -> Result<Answer, AllocError>
    ensures { IfOk result (IsListFor text.now) }
{
    match parse_document_source::<DefaultScalarValue>(alloc, text) {
        Ok(document) => listed(alloc, &document, times),
        Err(refusal) => refused(alloc, &refusal),
    }
}

/// How many errors validation lists for a document.
fn listed(
    alloc: Global,
    document: &Document<'_, DefaultScalarValue>,
    times: usize,
) -> Result<Answer, AllocError>
    ensures { IfOk result (IsListed (view_document default_shown document.now)) }
{
    let schema = made_schema(alloc, SCHEMA_TYPES)?;
    for _turn in 1..times {
        let _listed = validate(alloc, &*document, &schema, false);
    }
    let errors = validate(alloc, &*document, &schema, false)?;
    list_answer(alloc, document, &errors)
}

/// How many definitions a document has, and how many errors are listed for it.
fn list_answer(
    alloc: Global,
    document: &Document<'_, DefaultScalarValue>,
    errors: &Vec<RuleError>,
) -> Result<Answer, AllocError>
    ensures status { IfOk result (λ a. a.status ≡ 0) }
    ensures line { IfOk result (λ a. string_bytes a.line ≡ list_line (length (view_document default_shown document.now))
        (length (map view_rule_error errors.now.items))) }
{
    let definition_count = document.len();
    let error_count = errors.len();
    Ok(Answer {
        status: 0,
        line: format!(in alloc; "definitions: {definition_count}, errors: {error_count}")?,
    })
}

/// Reads the text so many times as JSON, a yardstick for the parser, and answers how many bytes it has. An error where memory
/// is refused.
pub fn scan_answer(alloc: Global, text: &str, times: usize) -> Result<Answer, AllocError>
    ensures { IfOk result (IsScanOf text.now) }
{
    for _turn in 1..times {
        let _scanned = Value::from_str(alloc, text);
    }
    let bytes = text.len();
    match Value::from_str(alloc, text) {
        Ok(_) => Ok(Answer {
            status: 0,
            line: format!(in alloc; "bytes: {bytes}")?,
        }),
        Err(error) => {
            if error.is_memory() {
                return Err(AllocError);
            }
            Ok(Answer {
                status: 1,
                line: String::from_str(alloc, "refused: not JSON")?,
            })
        }
    }
}

/// Makes a schema of so many types beside the few that each has, tests it so many times, and answers whether requests can be
/// executed on it. An error where memory is refused.
pub fn schema_answer(alloc: Global, types: usize, times: usize) -> Result<Answer, AllocError>
    ensures { IfOk result (IsTestOf types) }
{
    let schema = made_schema(alloc, types)?;
    for _turn in 1..times {
        let _tested = schema_is_executable(&schema);
    }
    tested(alloc, &schema, types)
}

/// Whether requests can be executed on a schema that was made of so many types.
fn tested(
    alloc: Global,
    schema: &SchemaType<DefaultScalarValue>,
    types: usize,
) -> Result<Answer, AllocError>
    ensures status { IfOk result (λ a. a.status ≡ 0) }
    ensures line { IfOk result (λ a. string_bytes a.line ≡ schema_line types (is_executable (view_schema default_shown schema.now))) }
{
    let executable = is_told(schema);
    Ok(Answer {
        status: 0,
        line: format!(in alloc; "types: {types}, executable: {executable}")?,
    })
}

/// Whether requests can be executed on a schema, in a word.
fn is_told(schema: &SchemaType<DefaultScalarValue>) -> &'static str
    ensures { result.now ≡ executable_word (is_executable (view_schema default_shown schema.now)) }
{
    if schema_is_executable(schema) {
        "yes"
    } else {
        "no"
    }
}

//! Parts of given values: where they stand, what they are held to, and what is said of those that do not fit.

ghost use Rattle.std.specs.Prelude.{◌≡◌, ◌∷◌, [], ◌++◌, ◌&&◌, IfOk, OnOk, map, not, option_map, string_bytes, true};
ghost use Rattle.std.specs.Option.{is_some};
ghost use Rattle.graphql_spec.specs.Fields.{declaration_in, type_named};
ghost use Rattle.graphql_spec.specs.Fits as fit;
ghost use Rattle.graphql_spec.specs.Rules.{must_be_written};
ghost use Rattle.graphql_spec.specs.Types.{innermost};
ghost use Rattle.juniper_meta.specs.MetaView.{shape_of, view_argument, view_enum_value, view_type};
ghost use Rattle.juniper_schema.specs.SchemaView.{view_schema};
ghost use Rattle.juniper_syntax.specs.InputView.{view_fields, view_input};
ghost use Rattle.juniper_written.specs.WrittenView.{view_names};
ghost use Rattle.juniper_explain.specs.Reasons as reasons;
ghost use Rattle.juniper_explain.specs.Reasons.{meant_by, missing_at, missing_field, repeated_at, repeated_text, text_unless};
ghost use Rattle.juniper_explain.specs.Reasons.{undeclared_at, unfit_at, value_names, word_in, wrong_size};
ghost use Rattle.juniper_explain.specs.ReasonsView.{place_text, view_messages};

use crate::given::names_of;
use crate::nearest::{suggested, suggestion};
use juniper_meta::{Argument, EnumValue, MetaType, find_argument};
use juniper_schema::{SchemaType, has_field};
use juniper_syntax::{InputField, InputValue, ScalarValue, Type};
use juniper_type_rules::input_fields;
use std::alloc::{AllocError, Global};

/// Where a given value stands.
#[derive(Clone, Copy)]
pub(crate) enum ValuePlace<'p> {
    /// It is the value of the variable of this name.
    Variable(&'p str),
    /// In the object at this path, the field of this name.
    Field(&'p str, &'p str),
    /// In the list at this path, the item of this position.
    Item(&'p str, usize),
}

impl ValuePlace<'_> {
    /// The path of the value, from its variable on: `$f.filter[0].name`.
    #[tactic(auto, unfolding(crate::specs::ReasonsView::place_text, crate::specs::Reasons::variable_path, crate::specs::Reasons::field_path, crate::specs::Reasons::item_path))]
    pub fn path(&self, alloc: Global) -> Result<String, AllocError>
        ensures { IfOk result (λ t. string_bytes t ≡ place_text self.now) }
    {
        match self {
            ValuePlace::Variable(name) => format!(in alloc; "${name}"),
            ValuePlace::Field(path, name) => format!(in alloc; "{path}.{name}"),
            ValuePlace::Item(path, index) => format!(in alloc; "{path}[{index}]"),
        }
    }
}

/// Whether it is a list type.
#[tactic(auto, unfolding(crate::specs::Reasons::is_list))]
pub(crate) fn is_list(expected: &Type<String>) -> bool
    ensures { result ≡ reasons.is_list (view_type expected.now) }
{
    match expected {
        Type::Named(_) => false,
        Type::NonNullNamed(_) => false,
        Type::List(_, _) => true,
        Type::NonNullList(_, _) => true,
    }
}

/// Whether an object may stand at the type: an input object, or lists of one item each around one (3.10, 3.11).
#[tactic(auto, unfolding(crate::specs::Reasons::takes_fields, graphql_spec::specs::Fits::through))]
pub(crate) fn takes_fields<S: ScalarValue>(schema: &SchemaType<S>, expected: &Type<String>) -> bool
    ensures { result ≡ reasons.takes_fields (view_schema S.shown schema.now) (view_type expected.now) }
{
    match expected {
        Type::Named(name) => names_input_object(schema, name.as_str()),
        Type::NonNullNamed(name) => names_input_object(schema, name.as_str()),
        Type::List(inner, size) => is_of_one(*size) && takes_fields(schema, &**inner),
        Type::NonNullList(inner, size) => is_of_one(*size) && takes_fields(schema, &**inner),
    }
}

/// Whether a list of one item has the expected number of items, where there is one.
#[tactic(auto, unfolding(graphql_spec::specs::Fits::size_met))]
fn is_of_one(expected: Option<usize>) -> bool
    ensures { result ≡ fit.size_met expected 1 }
{
    match expected {
        Some(size) => size == 1,
        None => true,
    }
}

/// Whether an input object is declared at the name.
#[tactic(auto, unfolding(graphql_spec::specs::Fits::input_object_fits))]
fn names_input_object<S: ScalarValue>(schema: &SchemaType<S>, name: &str) -> bool
    ensures { result ≡ fit.input_object_fits (λ ds. true) (type_named (view_schema S.shown schema.now) name.now) }
{
    match schema.concrete_type_by_name(name) {
        Some(meta) => is_input_object(meta),
        None => false,
    }
}

/// Whether it is an input object.
#[tactic(auto, unfolding(juniper_meta::specs::MetaView::view_meta, graphql_spec::specs::Fits::input_object_fits))]
fn is_input_object<S: ScalarValue>(meta: &MetaType<S>) -> bool
    ensures { result ≡ fit.input_object_fits (λ ds. true) (shape_of S.shown meta.now) }
{
    match meta {
        MetaType::InputObject(_) => true,
        MetaType::Scalar(_)
        | MetaType::List(_)
        | MetaType::Nullable(_)
        | MetaType::Object(_)
        | MetaType::Enum(_)
        | MetaType::Interface(_)
        | MetaType::Union(_)
        | MetaType::Placeholder(_) => false,
    }
}

/// Adds a text.
pub(crate) fn say(messages: &mut Vec<String>, message: String) -> Result<(), AllocError>
    ensures { OnOk result (view_messages messages.new.items ≡ view_messages messages.old.items ++ string_bytes message ∷ []) }
{
    messages.push(message)?;
    Ok(())
}

/// Adds that a value is none of a type.
#[tactic(auto, unfolding(crate::specs::Reasons::unfit_at, crate::specs::Reasons::unfit_text))]
pub(crate) fn add_unfit<S: ScalarValue>(
    alloc: Global,
    schema: &SchemaType<S>,
    value: &InputValue<S>,
    expected: &Type<String>,
    path: &str,
    messages: &mut Vec<String>,
) -> Result<(), AllocError>
    ensures { OnOk result (view_messages messages.new.items ≡ view_messages messages.old.items
        ++ unfit_at (view_schema S.shown schema.now) (view_input S.shown value.now) (view_type expected.now) path.now ∷ []) }
{
    let near = meant_value(alloc, schema, value, expected)?;
    let meant = suggestion(alloc, near)?;
    let message = format!(in alloc; "Value `{value}` at `{path}` is no `{expected}`{meant}")?;
    say(messages, message)
}

/// The enum's value that may have been meant by a text at a type, or by a name that is none of its values.
fn meant_value<'s, S: ScalarValue>(
    alloc: Global,
    schema: &'s SchemaType<S>,
    value: &InputValue<S>,
    expected: &Type<String>,
) -> Result<Option<&'s str>, AllocError>
    ensures { IfOk result (λ o. option_map (λ k. k.now) o
        ≡ meant_by (value_names (type_named (view_schema S.shown schema.now) (innermost (view_type expected.now)))) (word_in (view_input S.shown value.now))) }
{
    match word_in(value) {
        Some(word) => {
            let names = value_names(alloc, schema, expected.innermost_name())?;
            suggested(alloc, word, &names)
        }
        None => Ok(None),
    }
}

/// The text or the name that a value is, where it is one.
#[tactic(auto, using(juniper_syntax::proofs::Inputs::input_views), unfolding(crate::specs::Reasons::word_in))]
fn word_in<S: ScalarValue>(value: &InputValue<S>) -> Option<&str>
    ensures { option_map (λ w. w.now) result ≡ word_in (view_input S.shown value.now) }
{
    match value {
        InputValue::Scalar(scalar) => scalar.try_to_str(),
        InputValue::Enum(name) => Some(name.as_str()),
        InputValue::Null => None,
        InputValue::Variable(_) => None,
        InputValue::List(_) => None,
        InputValue::Object(_) => None,
    }
}

/// The values of the enum at this name; none where none is declared there.
fn value_names<'s, S: ScalarValue>(
    alloc: Global,
    schema: &'s SchemaType<S>,
    type_name: &str,
) -> Result<Vec<&'s str>, AllocError>
    ensures { IfOk result (λ ns. view_names ns.items ≡ value_names (type_named (view_schema S.shown schema.now) type_name.now)) }
{
    match schema.concrete_type_by_name(type_name) {
        Some(meta) => names_of_values(alloc, meta.values()),
        None => Ok(Vec::new(alloc)),
    }
}

/// The names of an enum's values.
fn names_of_values<'s>(alloc: Global, values: &'s [EnumValue]) -> Result<Vec<&'s str>, AllocError>
    ensures { IfOk result (λ ns. view_names ns.items ≡ map (λ v. v.name) (map view_enum_value values.now)) }
{
    let mut names = Vec::with_capacity(alloc, values.len())?;
    for value in values {
        names.push(value.name.as_str())?;
    }
    Ok(names)
}

/// Adds that a list has not the expected number of items, where there is one and it has another.
#[tactic(auto, unfolding(crate::specs::Reasons::wrong_size, crate::specs::Reasons::text_unless, crate::specs::Reasons::size_text))]
pub(crate) fn add_wrong_size(
    alloc: Global,
    count: usize,
    expected: &Type<String>,
    path: &str,
    messages: &mut Vec<String>,
) -> Result<(), AllocError>
    ensures { OnOk result (view_messages messages.new.items ≡ view_messages messages.old.items
        ++ wrong_size (reasons.size_of (view_type expected.now)) count path.now) }
{
    match size_of(expected) {
        Some(size) if size != count => {
            let message = format!(in alloc; "List at `{path}` has length {count}, not {size}")?;
            say(messages, message)
        }
        _ => Ok(()),
    }
}

/// The number of items that a list type expects, where it expects one.
#[tactic(auto, unfolding(crate::specs::Reasons::size_of))]
fn size_of(expected: &Type<String>) -> Option<usize>
    ensures { result ≡ reasons.size_of (view_type expected.now) }
{
    match expected {
        Type::Named(_) => None,
        Type::NonNullNamed(_) => None,
        Type::List(_, size) => *size,
        Type::NonNullList(_, size) => *size,
    }
}

/// Adds which fields are declared, and written more than once (5.6.3).
#[tactic(auto, unfolding(crate::specs::Reasons::repeated_at, crate::specs::Reasons::repeated_names))]
pub(crate) fn add_repeated<S: ScalarValue>(
    alloc: Global,
    schema: &SchemaType<S>,
    fields: &[InputField<S>],
    expected: &Type<String>,
    path: &str,
    messages: &mut Vec<String>,
) -> Result<(), AllocError>
    ensures { OnOk result (view_messages messages.new.items ≡ view_messages messages.old.items
        ++ repeated_at (view_schema S.shown schema.now) (view_fields S.shown fields.now) (view_type expected.now) path.now) }
{
    let declared = input_fields(schema, expected);
    let mut left = fields;
    while let [(name, _), others @ ..] = left {
        add_repeat(alloc, declared, name.item.as_str(), others, path, messages)?;
        left = others;
    }
    Ok(())
}

/// Adds that a field is declared, and stands among the others too.
#[tactic(auto, unfolding(crate::specs::Reasons::text_unless, crate::specs::Reasons::repeated_text))]
fn add_repeat<S: ScalarValue>(
    alloc: Global,
    declared: &[Argument<S>],
    name: &str,
    others: &[InputField<S>],
    path: &str,
    messages: &mut Vec<String>,
) -> Result<(), AllocError>
    ensures { OnOk result (view_messages messages.new.items ≡ view_messages messages.old.items
        ++ text_unless (not (is_some (declaration_in (map (view_argument S.shown) declared.now) name.now)
        && fit.has_field name.now (view_fields S.shown others.now))) (repeated_text name.now path.now)) }
{
    if !is_repeated(declared, name, others) {
        return Ok(());
    }
    let message = format!(in alloc; "Field `{name}` is not unique at `{path}`")?;
    say(messages, message)
}

/// Whether a field is declared, and stands among the others too.
fn is_repeated<S: ScalarValue>(
    declared: &[Argument<S>],
    name: &str,
    others: &[InputField<S>],
) -> bool
    ensures { result ≡ (is_some (declaration_in (map (view_argument S.shown) declared.now) name.now)
        && fit.has_field name.now (view_fields S.shown others.now)) }
{
    find_argument(declared, name).is_some() && has_field(others, name)
}

/// Adds which declared fields of an input object must be written, and are not (3.10).
#[tactic(auto, unfolding(crate::specs::Reasons::missing_at))]
pub(crate) fn add_missing<S: ScalarValue>(
    alloc: Global,
    schema: &SchemaType<S>,
    fields: &[InputField<S>],
    expected: &Type<String>,
    path: &str,
    messages: &mut Vec<String>,
) -> Result<(), AllocError>
    ensures { OnOk result (view_messages messages.new.items ≡ view_messages messages.old.items
        ++ missing_at (view_schema S.shown schema.now) (view_fields S.shown fields.now) (view_type expected.now) path.now) }
{
    let type_name = expected.innermost_name();
    let declared = input_fields(schema, expected);
    for field in declared {
        add_missing_field(alloc, fields, field, type_name, path, messages)?;
    }
    Ok(())
}

/// Adds that a declared field must be written, and is not.
#[tactic(auto, unfolding(crate::specs::Reasons::missing_field, crate::specs::Reasons::text_unless, crate::specs::Reasons::missing_text))]
fn add_missing_field<S: ScalarValue>(
    alloc: Global,
    fields: &[InputField<S>],
    declared: &Argument<S>,
    type_name: &str,
    path: &str,
    messages: &mut Vec<String>,
) -> Result<(), AllocError>
    ensures { OnOk result (view_messages messages.new.items ≡ view_messages messages.old.items
        ++ missing_field (view_fields S.shown fields.now) type_name.now path.now (view_argument S.shown declared.now)) }
{
    let name = declared.name.as_str();
    if !must_be_written(declared) || has_field(fields, name) {
        return Ok(());
    }
    let reference = &declared.arg_type;
    let message = format!(in alloc;
        "Field `{name}` of `{type_name}` is missing at `{path}`; it is `{reference}`"
    )?;
    say(messages, message)
}

/// Whether a declared field is non-null and has no default.
#[tactic(auto, unfolding(graphql_spec::specs::Rules::must_be_written))]
fn must_be_written<S: ScalarValue>(declared: &Argument<S>) -> bool
    ensures { result ≡ must_be_written (view_argument S.shown declared.now) }
{
    declared.arg_type.is_non_null() && declared.default_value.is_none()
}

/// Adds that the input object at a type does not declare a field of this name.
#[tactic(auto, unfolding(crate::specs::Reasons::undeclared_at, crate::specs::Reasons::undeclared_text))]
pub(crate) fn add_undeclared<S: ScalarValue>(
    alloc: Global,
    schema: &SchemaType<S>,
    name: &str,
    expected: &Type<String>,
    path: &str,
    messages: &mut Vec<String>,
) -> Result<(), AllocError>
    ensures { OnOk result (view_messages messages.new.items ≡ view_messages messages.old.items
        ++ undeclared_at (view_schema S.shown schema.now) name.now (view_type expected.now) path.now ∷ []) }
{
    let names = names_of(alloc, input_fields(schema, expected))?;
    let near = suggested(alloc, name, &names)?;
    let meant = suggestion(alloc, near)?;
    let type_name = expected.innermost_name();
    let message = format!(in alloc; "Unknown field `{name}` of `{type_name}` at `{path}`{meant}")?;
    say(messages, message)
}

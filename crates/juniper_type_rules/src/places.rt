//! The variables that are used in arguments, each with its place in the text and with the type of its position (section 5.8.5
//! of the Specification).

ghost use Rattle.std.specs.Prelude.{◌≡◌, ◌++◌, ◌∷◌, [], IfOk, OnOk, map, option_map};
ghost use Rattle.std.specs.List.{flat_map};
ghost use Rattle.graphql_spec.specs.Fields.{type_named};
ghost use Rattle.graphql_spec.specs.Types.{innermost};
ghost use Rattle.graphql_spec.specs.VariableUses.{at_declared, input_fields, item_type};
ghost use Rattle.juniper_syntax.specs.Positions.{view_span};
ghost use Rattle.juniper_syntax.specs.InputView.{view_fields, view_input, view_items};
ghost use Rattle.juniper_meta.specs.MetaView.{view_argument, view_type};
ghost use Rattle.juniper_schema.specs.SchemaView.{view_schema};
ghost use Rattle.juniper_type_rules.specs.CallView.{view_call, view_calls};
ghost use Rattle.juniper_type_rules.specs.Positions.{places_at, places_in_call, places_in_fields, places_in_items, uses_of_places};
ghost use Rattle.juniper_type_rules.specs.UsesView.{place_at, view_places, view_uses};

use crate::Call;
use crate::uses::{Place, Use};
use juniper_meta::{Argument, find_argument};
use juniper_schema::SchemaType;
use juniper_syntax::ast::Arguments;
use juniper_syntax::{InputField, InputValue, ScalarValue, Span, Spanning, Type};
use std::alloc::{AllocError, Global};

/// The variables in arguments, each with its place and with the type of its position, in the order in which they are written;
/// none of arguments that are not declared (5.8.5). An error where memory is refused.
pub fn places_in_calls<'u, 'd: 'u, 'a, 's: 'u, S: ScalarValue>(
    alloc: Global,
    schema: &'u SchemaType<S>,
    calls: &[Call<'d, 'a, 's, S>],
) -> Result<Vec<Place<'u>>, AllocError>
    ensures { IfOk result (λ ps. view_places ps.items ≡ flat_map (places_in_call (view_schema S.shown schema.now)) (view_calls S.shown calls.now)) }
{
    let mut places = Vec::new(alloc);
    for call in calls {
        push_of_call(schema, call, &mut places)?;
    }
    Ok(places)
}

/// Adds those in the arguments of one field or directive.
fn push_of_call<'u, 'd: 'u, 'a, 's: 'u, S: ScalarValue>(
    schema: &'u SchemaType<S>,
    call: &Call<'d, 'a, 's, S>,
    places: &mut Vec<Place<'u>>,
) -> Result<(), AllocError>
    ensures { OnOk result (view_places places.new.items ≡ view_places places.old.items
        ++ places_in_call (view_schema S.shown schema.now) (view_call S.shown call.now)) }
{
    let declared: &'u [Argument<S>] = call.declared;
    let given: &'u Option<Spanning<Arguments<'a, S>, Span>> = call.given;
    match given {
        Some(arguments) => {
            for argument in &arguments.item.items {
                let found = find_argument(declared, argument.0.item);
                push_declared(schema, &argument.1.item, argument.1.span, found, places)?;
            }
            Ok(())
        }
        None => Ok(()),
    }
}

/// Adds those in a value that stands at a declared argument or input field; none where nothing is declared.
#[cycle(placing)]
fn push_declared<'u, S: ScalarValue>(
    schema: &'u SchemaType<S>,
    value: &'u InputValue<S>,
    span: Span,
    declared: Option<&'u Argument<S>>,
    places: &mut Vec<Place<'u>>,
) -> Result<(), AllocError>
    ensures { OnOk result (view_places places.new.items ≡ view_places places.old.items
        ++ at_declared (option_map (λ a. view_argument S.shown a.now) declared.entry)
        (λ t b. places_at (view_schema S.shown schema.now) (view_input S.shown value.now) (view_span span) t b)) }
{
    match declared {
        Some(argument) => {
            let has_default = argument.default_value.is_some();
            push_of_value(schema, value, span, &argument.arg_type, has_default, places)?;
            Ok(())
        }
        None => Ok(()),
    }
}

/// Adds those in a value that stands at a type.
#[cycle(placing)]
fn push_of_value<'u, S: ScalarValue>(
    schema: &'u SchemaType<S>,
    value: &'u InputValue<S>,
    span: Span,
    expected: &'u Type<String>,
    has_default: bool,
    places: &mut Vec<Place<'u>>,
) -> Result<(), AllocError>
    ensures { OnOk result (view_places places.new.items ≡ view_places places.old.items
        ++ places_at (view_schema S.shown schema.now) (view_input S.shown value.now) (view_span span) (view_type expected.now) has_default) }
{
    match value {
        InputValue::Null => Ok(()),
        InputValue::Scalar(_) => Ok(()),
        InputValue::Enum(_) => Ok(()),
        InputValue::Variable(name) => {
            push_place(name.as_str(), span, expected, has_default, places)?;
            Ok(())
        }
        InputValue::List(items) => {
            push_of_items(schema, items.as_slice(), item_type(expected), places)?;
            Ok(())
        }
        InputValue::Object(fields) => {
            push_of_fields(
                schema,
                fields.as_slice(),
                input_fields(schema, expected),
                places,
            )?;
            Ok(())
        }
    }
}

/// Adds those in the items of a list, which stand at this type.
#[cycle(placing)]
fn push_of_items<'u, S: ScalarValue>(
    schema: &'u SchemaType<S>,
    items: &'u [Spanning<InputValue<S>, Span>],
    expected: &'u Type<String>,
    places: &mut Vec<Place<'u>>,
) -> Result<(), AllocError>
    ensures { OnOk result (view_places places.new.items ≡ view_places places.old.items
        ++ places_in_items (view_schema S.shown schema.now) (view_items S.shown items.now) (view_type expected.now)) }
{
    for item in items {
        push_of_value(schema, &item.item, item.span, expected, false, places)?;
    }
    Ok(())
}

/// Adds those in the fields of an object, each at its declaration.
#[cycle(placing)]
fn push_of_fields<'u, S: ScalarValue>(
    schema: &'u SchemaType<S>,
    fields: &'u [InputField<S>],
    declared: &'u [Argument<S>],
    places: &mut Vec<Place<'u>>,
) -> Result<(), AllocError>
    ensures { OnOk result (view_places places.new.items ≡ view_places places.old.items
        ++ places_in_fields (view_schema S.shown schema.now) (view_fields S.shown fields.now) (map (view_argument S.shown) declared.now)) }
{
    for field in fields {
        let found = find_argument(declared, field.0.item.as_str());
        push_declared(schema, &field.1.item, field.1.span, found, places)?;
    }
    Ok(())
}

/// Adds a variable that stands here, at a position.
fn push_place<'u>(
    variable: &'u str,
    span: Span,
    expected: &'u Type<String>,
    has_default: bool,
    places: &mut Vec<Place<'u>>,
) -> Result<(), AllocError>
    ensures { OnOk result (view_places places.new.items ≡ view_places places.old.items
        ++ place_at variable.now (view_span span) (view_type expected.now) has_default ∷ []) }
{
    let used = Use {
        variable,
        place: expected,
        has_default,
    };
    places.push(Place { used, span })?;
    Ok(())
}

/// The variables with the types of their positions, wherever they are written.
pub(crate) fn uses_of_places<'u>(
    alloc: Global,
    places: &[Place<'u>],
) -> Result<Vec<Use<'u>>, AllocError>
    ensures { IfOk result (λ us. view_uses us.items ≡ uses_of_places (view_places places.now)) }
{
    let mut uses = Vec::with_capacity(alloc, places.len())?;
    for place in places {
        uses.push(place.used)?;
    }
    Ok(uses)
}

/// The type of a list's items; of what is no list it is the type itself.
#[tactic(auto, unfolding(graphql_spec::specs::VariableUses::item_type))]
pub fn item_type(expected: &Type<String>) -> &Type<String>
    ensures { view_type result.now ≡ item_type (view_type expected.now) }
{
    match expected {
        Type::Named(_) => expected,
        Type::NonNullNamed(_) => expected,
        Type::List(inner, _) => &**inner,
        Type::NonNullList(inner, _) => &**inner,
    }
}

/// The fields of the input object that a type names; none where it names none.
pub fn input_fields<'u, S: ScalarValue>(
    schema: &'u SchemaType<S>,
    expected: &Type<String>,
) -> &'u [Argument<S>]
    ensures { map (view_argument S.shown) result.now ≡ input_fields (type_named (view_schema S.shown schema.now) (innermost (view_type expected.now))) }
{
    match schema.concrete_type_by_name(expected.innermost_name()) {
        Some(meta) => meta.input_fields(),
        None => &[],
    }
}

//! Which operation a request executes (GetOperation, section 6.1 of the Specification).

ghost use Rattle.std.specs.Prelude.{◌≡◌, ◌∷◌, [], map, option_map};
ghost use Rattle.graphql_spec.specs.Documents as documents;
ghost use Rattle.graphql_spec.specs.Requests as requests;
ghost use Rattle.graphql_spec.specs.Requests.{choose_named, choose_only, is_named, unknown};
ghost use Rattle.juniper_syntax.specs.DocumentView.{view_definition, view_operation};
ghost use Rattle.juniper.specs.Choices.{choice_of, found_in, later, view_chosen};

use juniper_language::{Definition, Operation, ScalarValue, Span, Spanning};

/// The operation that a request executes, or why there is none.
#[derive(Drop)]
pub(crate) enum Chosen<'d, 'a, S> {
    /// This one.
    One(&'d Spanning<Operation<'a, S>, Span>),
    /// No name was given, and there are several.
    Many,
    /// There is none of the name, or none at all.
    Unknown,
}

/// The operation of the name, of several the last; without a name the only one.
pub(crate) fn choose<'d, 'a, S: ScalarValue>(
    document: &'d [Definition<'a, S>],
    name: Option<&str>,
) -> Chosen<'d, 'a, S>
    ensures { view_chosen S.shown result ≡ requests.choose (map (view_definition S.shown) document.now) (option_map (λ n. n.now) name.entry) }
{
    match name {
        Some(name) => match operation_named(document, name) {
            Some(operation) => Chosen::One(operation),
            None => Chosen::Unknown,
        },
        None => only_operation(document),
    }
}

/// The last operation of the name.
fn operation_named<'d, 'a, S: ScalarValue>(
    document: &'d [Definition<'a, S>],
    name: &str,
) -> Option<&'d Spanning<Operation<'a, S>, Span>>
    ensures { choice_of (option_map (λ o. view_operation S.shown o.now) result)
        ≡ choose_named name.now (documents.operations (map (view_definition S.shown) document.now)) unknown }
{
    let mut found = None;
    for definition in document {
        found = later_named(found, definition, name);
    }
    found
}

/// The operation of this definition, where it has the name, else the one that was found before.
fn later_named<'d, 'a, S: ScalarValue>(
    found: Option<&'d Spanning<Operation<'a, S>, Span>>,
    definition: &'d Definition<'a, S>,
    name: &str,
) -> Option<&'d Spanning<Operation<'a, S>, Span>>
    ensures { choice_of (option_map (λ o. view_operation S.shown o.now) result)
        ≡ later name.now (view_definition S.shown definition.now) (choice_of (option_map (λ o. view_operation S.shown o.now) found.entry)) }
{
    match operation_in(definition) {
        Some(operation) => {
            if has_name(operation, name) {
                Some(operation)
            } else {
                found
            }
        }
        None => found,
    }
}

/// Whether an operation has the name.
#[tactic(auto, unfolding(graphql_spec::specs::Requests::is_named, graphql_spec::specs::Documents::word_name))]
fn has_name<S: ScalarValue>(operation: &Spanning<Operation<'_, S>, Span>, name: &str) -> bool
    ensures { result ≡ is_named name.now (view_operation S.shown operation.now) }
{
    match &operation.item.name {
        Some(own) => name == own.item,
        None => false,
    }
}

/// The only operation.
fn only_operation<'d, 'a, S: ScalarValue>(document: &'d [Definition<'a, S>]) -> Chosen<'d, 'a, S>
    ensures { view_chosen S.shown result ≡ choose_only (documents.operations (map (view_definition S.shown) document.now)) }
{
    let mut found = None;
    for definition in document {
        match operation_in(definition) {
            Some(operation) => {
                if found.is_some() {
                    return Chosen::Many;
                }
                found = Some(operation);
            }
            None => {}
        }
    }
    match found {
        Some(operation) => Chosen::One(operation),
        None => Chosen::Unknown,
    }
}

/// The operation that a definition is.
fn operation_in<'d, 'a, S: ScalarValue>(
    definition: &'d Definition<'a, S>,
) -> Option<&'d Spanning<Operation<'a, S>, Span>>
    ensures { documents.operations (view_definition S.shown definition.now ∷ []) ≡ found_in (option_map (λ o. view_operation S.shown o.now) result) }
{
    match definition {
        Definition::Operation(operation) => Some(operation),
        Definition::Fragment(_) => None,
    }
}

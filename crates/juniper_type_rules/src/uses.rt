//! What a definition uses of variables (section 5.8 of the Specification).

ghost use Rattle.std.specs.Prelude.{◌≡◌, IfOk, option_map};
ghost use Rattle.juniper_syntax.specs.DocumentView.{view_definition};
ghost use Rattle.juniper_schema.specs.SchemaView.{view_schema};
ghost use Rattle.juniper_written.specs.WrittenView.{view_lists};
ghost use Rattle.juniper_type_rules.specs.CallView.{view_calls};
ghost use Rattle.juniper_type_rules.specs.UsesView.{IsUsageIn, fragment_name, has_variables, view_used};

use crate::Call;
use crate::once::{names_once, uses_once};
use crate::places::{places_in_calls, uses_of_places};
use crate::words::{names_of_words, words_in_lists};
use juniper_schema::SchemaType;
use juniper_syntax::{Definition, ScalarValue, Span, Type};
use juniper_written::ArgumentLists;
use std::alloc::{AllocError, Global};

/// A variable at a place (5.8.5).
#[derive(Clone, Copy)]
pub struct Use<'u> {
    /// Its name.
    pub variable: &'u str,
    /// The type of the place.
    pub place: &'u Type<String>,
    /// Whether the place has a default.
    pub has_default: bool,
}

/// A variable at a place, and where it is written.
#[derive(Clone, Copy)]
pub struct Place<'u> {
    /// The variable, with the type of its place.
    pub used: Use<'u>,
    /// Where it stands in the text.
    pub span: Span,
}

/// What a definition uses of variables in its own arguments.
#[derive(Drop)]
pub struct Used<'u> {
    /// The definition's name, where it is a fragment.
    pub fragment: Option<&'u str>,
    /// The names of the variables, in all arguments (5.8.3).
    pub names: Vec<&'u str>,
    /// The variables with their places, in the arguments that are declared (5.8.5).
    pub uses: Vec<Use<'u>>,
}

impl<'u> Used<'u> {
    /// Whether there is a variable.
    pub fn has_variables(&self) -> bool
        ensures { result ≡ has_variables (view_used self.now) }
    {
        !self.names.is_empty() || !self.uses.is_empty()
    }
}

/// What a definition uses, whose arguments are these, and those with their declarations these calls. An error where
/// memory is refused.
pub fn used_in<'u, 'd: 'u, 'a: 'u, 's: 'u, S: ScalarValue>(
    alloc: Global,
    schema: &'u SchemaType<S>,
    definition: &Definition<'a, S>,
    arguments: &ArgumentLists<'d, 'a, S>,
    calls: &[Call<'d, 'a, 's, S>],
) -> Result<Used<'u>, AllocError>
    ensures { IfOk result (λ u. IsUsageIn (view_schema S.shown schema.now) (view_definition S.shown definition.now) (view_lists S.shown arguments.now)
        (view_calls S.shown calls.now) (view_used u)) }
{
    let words = words_in_lists(alloc, arguments)?;
    let names = names_once(alloc, names_of_words(alloc, &words)?)?;
    let places = places_in_calls(alloc, schema, calls)?;
    let uses = uses_once(alloc, uses_of_places(alloc, &places)?)?;
    Ok(Used {
        fragment: fragment_name(definition),
        names,
        uses,
    })
}

/// The name of a fragment.
fn fragment_name<'u, 'a: 'u, S: ScalarValue>(definition: &Definition<'a, S>) -> Option<&'u str>
    ensures { option_map (λ n. n.now) result ≡ fragment_name (view_definition S.shown definition.now) }
{
    match definition {
        Definition::Fragment(fragment) => Some(fragment.item.name.item),
        Definition::Operation(_) => None,
    }
}

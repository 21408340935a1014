//! KnownArgumentNames and ArgumentsOfCorrectType (sections 5.4.1 and 5.6.1 of the Specification).

ghost use Rattle.std.specs.Prelude.{◌≡◌, ◌++◌, IfOk, OnOk, codes, map, string_bytes};
ghost use Rattle.std.specs.List.{flat_map};
ghost use Rattle.graphql_spec.specs.Display.{display};
ghost use Rattle.graphql_spec.specs.Types.{type_text};
ghost use Rattle.juniper_meta.specs.MetaView as metas;
ghost use Rattle.juniper_schema.specs.SchemaView.{view_schema};
ghost use Rattle.juniper_syntax.specs.DocumentView.{view_argument};
ghost use Rattle.juniper_syntax.specs.InputView.{view_input};
ghost use Rattle.juniper_written.specs.WrittenView.{view_names};
ghost use Rattle.juniper_explain.specs.Adding.{Adds};
ghost use Rattle.juniper_explain.specs.Nearest.{suggested};
ghost use Rattle.juniper_explain.specs.Nodes.{suggestion, unknown_argument, unknown_arguments, wrong_arguments, wrong_at};
ghost use Rattle.juniper_explain.specs.SitesView.{owner_text, view_site, view_sites};

use crate::explanation::{Explanation, add};
use crate::nearest::{suggested, suggestion};
use crate::rule::Rule;
use crate::sites::{Owner, Site};
use juniper_meta::{Argument, find_argument};
use juniper_schema::SchemaType;
use juniper_syntax::{InputValue, ScalarValue, Type, WrittenArgument};
use std::alloc::{AllocError, Global};

/// Explains the arguments that are not declared.
pub(crate) fn explain_unknown_arguments<'d, 'a, S: ScalarValue>(
    alloc: Global,
    sites: &[Site<'d, 'a, S>],
    explanations: &mut Vec<Explanation>,
) -> Result<(), AllocError>
    ensures { OnOk result (Adds explanations.old.items explanations.new.items (unknown_arguments (view_sites S.shown sites.now))) }
{
    for site in sites {
        explain_unknown_at(alloc, site, explanations)?;
    }
    Ok(())
}

/// Explains the arguments of a field or directive that are not declared.
fn explain_unknown_at<'d, 'a, S: ScalarValue>(
    alloc: Global,
    site: &Site<'d, 'a, S>,
    explanations: &mut Vec<Explanation>,
) -> Result<(), AllocError>
    ensures { OnOk result (Adds explanations.old.items explanations.new.items
        (flat_map (unknown_argument (view_site S.shown site.now)) (view_site S.shown site.now).given)) }
{
    match site.given {
        Some(arguments) => {
            for argument in &arguments.item.items {
                explain_unknown_argument(alloc, site, argument, explanations)?;
            }
            Ok(())
        }
        None => Ok(()),
    }
}

/// Explains an argument that is not declared.
#[tactic(auto, unfolding(crate::specs::Nodes::unknown_argument, crate::specs::Explanations::found))]
fn explain_unknown_argument<'d, 'a, S: ScalarValue>(
    alloc: Global,
    site: &Site<'d, 'a, S>,
    argument: &WrittenArgument<'a, S>,
    explanations: &mut Vec<Explanation>,
) -> Result<(), AllocError>
    ensures { OnOk result (Adds explanations.old.items explanations.new.items
        (unknown_argument (view_site S.shown site.now) (view_argument S.shown argument.now))) }
{
    let name = argument.0.item;
    match find_argument(site.declared, name) {
        Some(_) => Ok(()),
        None => {
            let message = unknown_text(alloc, name, &site.owner, site.declared)?;
            add(
                explanations,
                Rule::KnownArgumentNames,
                argument.0.span.start,
                message,
            )
        }
    }
}

/// What is said of an argument that is not one of these.
fn unknown_text<S: ScalarValue>(
    alloc: Global,
    name: &str,
    owner: &Owner<'_>,
    declared: &[Argument<S>],
) -> Result<String, AllocError>
    ensures { IfOk result (λ t. string_bytes t ≡ codes "Unknown argument `" ++ (name.now ++ (codes "` of `" ++ (owner_text owner.now ++ (codes "`"
        ++ suggestion (suggested name.now (map (λ d. d.name) (map (metas.view_argument S.shown) declared.now)))))))) }
{
    let names = names_of(alloc, declared)?;
    let near = suggested(alloc, name, &names)?;
    let meant = suggestion(alloc, near)?;
    format!(in alloc; "Unknown argument `{name}` of `{owner}`{meant}")
}

/// The names of arguments.
pub(crate) fn names_of<'s, S: ScalarValue>(
    alloc: Global,
    declared: &'s [Argument<S>],
) -> Result<Vec<&'s str>, AllocError>
    ensures { IfOk result (λ ns. view_names ns.items ≡ map (λ d. d.name) (map (metas.view_argument S.shown) declared.now)) }
{
    let mut names = Vec::with_capacity(alloc, declared.len())?;
    for argument in declared {
        names.push(argument.name.as_str())?;
    }
    Ok(names)
}

/// Explains the values that do not fit their declared arguments.
pub(crate) fn explain_wrong_arguments<'d, 'a, S: ScalarValue>(
    alloc: Global,
    schema: &SchemaType<S>,
    sites: &[Site<'d, 'a, S>],
    explanations: &mut Vec<Explanation>,
) -> Result<(), AllocError>
    ensures { OnOk result (Adds explanations.old.items explanations.new.items
        (wrong_arguments (view_schema S.shown schema.now) (view_sites S.shown sites.now))) }
{
    for site in sites {
        explain_wrong_at(alloc, schema, site, explanations)?;
    }
    Ok(())
}

/// Explains the values of a field's or directive's arguments that do not fit.
fn explain_wrong_at<'d, 'a, S: ScalarValue>(
    alloc: Global,
    schema: &SchemaType<S>,
    site: &Site<'d, 'a, S>,
    explanations: &mut Vec<Explanation>,
) -> Result<(), AllocError>
    ensures { OnOk result (Adds explanations.old.items explanations.new.items
        (flat_map (wrong_at (view_schema S.shown schema.now) (view_site S.shown site.now)) (view_site S.shown site.now).given)) }
{
    match site.given {
        Some(arguments) => {
            for argument in &arguments.item.items {
                explain_wrong_argument(alloc, schema, site, argument, explanations)?;
            }
            Ok(())
        }
        None => Ok(()),
    }
}

/// Explains a value that does not fit its declared argument.
#[tactic(auto, unfolding(crate::specs::Nodes::wrong_argument, crate::specs::Explanations::found))]
fn explain_wrong_argument<'d, 'a, S: ScalarValue>(
    alloc: Global,
    schema: &SchemaType<S>,
    site: &Site<'d, 'a, S>,
    argument: &WrittenArgument<'a, S>,
    explanations: &mut Vec<Explanation>,
) -> Result<(), AllocError>
    ensures { OnOk result (Adds explanations.old.items explanations.new.items
        (wrong_at (view_schema S.shown schema.now) (view_site S.shown site.now) (view_argument S.shown argument.now))) }
{
    let value = &argument.1;
    match find_argument(site.declared, argument.0.item) {
        Some(declared) => {
            let reference = &declared.arg_type;
            if schema.fits(&value.item, reference, false) {
                return Ok(());
            }
            let message = wrong_text(alloc, &value.item, argument.0.item, reference)?;
            add(
                explanations,
                Rule::ArgumentsOfCorrectType,
                value.span.start,
                message,
            )
        }
        None => Ok(()),
    }
}

/// What is said of such a value.
fn wrong_text<S: ScalarValue>(
    alloc: Global,
    value: &InputValue<S>,
    name: &str,
    reference: &Type<String>,
) -> Result<String, AllocError>
    ensures { IfOk result (λ t. string_bytes t ≡ codes "Value `" ++ (display (view_input S.shown value.now) ++ (codes "` of `"
        ++ (name.now ++ (codes "` is no `" ++ (type_text (metas.view_type reference.now) ++ codes "`")))))) }
{
    format!(in alloc; "Value `{value}` of `{name}` is no `{reference}`")
}

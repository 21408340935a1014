//! ProvidedNonNullArguments (section 5.4.2.1 of the Specification).

ghost use Rattle.std.specs.Prelude.{◌≡◌, ◌++◌, IfOk, OnOk, codes, string_bytes};
ghost use Rattle.std.specs.List.{flat_map};
ghost use Rattle.graphql_spec.specs.Types.{type_text};
ghost use Rattle.juniper_meta.specs.MetaView.{view_argument, view_type};
ghost use Rattle.juniper_explain.specs.Adding.{Adds};
ghost use Rattle.juniper_explain.specs.Nodes.{missing_argument, missing_arguments};
ghost use Rattle.juniper_explain.specs.SitesView.{owner_text, view_site, view_sites};

use crate::explanation::{Explanation, add};
use crate::rule::Rule;
use crate::sites::{Owner, Site};
use juniper_meta::meta::Argument;
use juniper_syntax::{ScalarValue, Type};
use juniper_type_rules::is_left_out;
use std::alloc::{AllocError, Global};

/// Explains the non-null arguments without default that are not given.
pub(crate) fn explain_missing_arguments<'d, 'a, S: ScalarValue>(
    alloc: Global,
    sites: &[Site<'d, 'a, S>],
    explanations: &mut Vec<Explanation>,
) -> Result<(), AllocError>
    ensures { OnOk result (Adds explanations.old.items explanations.new.items (missing_arguments (view_sites S.shown sites.now))) }
{
    for site in sites {
        explain_missing_at(alloc, site, explanations)?;
    }
    Ok(())
}

/// Explains those of a field or directive.
fn explain_missing_at<'d, 'a, S: ScalarValue>(
    alloc: Global,
    site: &Site<'d, 'a, S>,
    explanations: &mut Vec<Explanation>,
) -> Result<(), AllocError>
    ensures { OnOk result (Adds explanations.old.items explanations.new.items
        (flat_map (missing_argument (view_site S.shown site.now)) (view_site S.shown site.now).declared)) }
{
    for argument in site.declared {
        explain_missing_argument(alloc, site, argument, explanations)?;
    }
    Ok(())
}

/// Explains an argument that must be written, and is not given.
#[tactic(auto, unfolding(crate::specs::Nodes::missing_argument, crate::specs::Explanations::found))]
fn explain_missing_argument<'d, 'a, S: ScalarValue>(
    alloc: Global,
    site: &Site<'d, 'a, S>,
    argument: &Argument<S>,
    explanations: &mut Vec<Explanation>,
) -> Result<(), AllocError>
    ensures { OnOk result (Adds explanations.old.items explanations.new.items
        (missing_argument (view_site S.shown site.now) (view_argument S.shown argument.now))) }
{
    if !is_left_out(argument, site.given) {
        return Ok(());
    }
    let message = missing_text(
        alloc,
        argument.name.as_str(),
        &site.owner,
        &argument.arg_type,
    )?;
    add(
        explanations,
        Rule::ProvidedNonNullArguments,
        site.location,
        message,
    )
}

/// What is said of such an argument.
fn missing_text(
    alloc: Global,
    name: &str,
    owner: &Owner<'_>,
    reference: &Type<String>,
) -> Result<String, AllocError>
    ensures { IfOk result (λ t. string_bytes t ≡ codes "Argument `" ++ (name.now ++ (codes "` of `" ++ (owner_text owner.now
        ++ (codes "` is missing; it is `" ++ (type_text (view_type reference.now) ++ codes "`")))))) }
{
    format!(in alloc; "Argument `{name}` of `{owner}` is missing; it is `{reference}`")
}

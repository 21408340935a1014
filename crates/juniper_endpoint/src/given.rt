//! The values of variables that a request gives (section 6.1.2 of the Specification).

ghost use Rattle.std.specs.Prelude.{◌≡◌, [], IfOk, None, map, option_map};
ghost use Rattle.juniper_json.specs.Each.{view_refused};
ghost use Rattle.juniper_syntax.specs.InputView.{view_variables};
ghost use Rattle.juniper_syntax.specs.Scalars.{default_shown};
ghost use Rattle.serde_json.specs.View.{members_view};
ghost use Rattle.juniper_endpoint.specs.Replied.{given_among, refused_among};

use juniper::Variables;
use juniper_json::{GivenVariables, given_variables};
use juniper_request::Members;
use std::alloc::{AllocError, Global};

/// The values that the members of a request's `variables` give, and the names of those that are refused; none where it is left out.
pub fn given_by(alloc: Global, variables: Option<&Members>) -> Result<GivenVariables, AllocError>
    ensures values { IfOk result (λ given. view_variables default_shown given.values
        ≡ given_among (option_map (λ m. members_view m.now.entries) variables.entry)) }
    ensures refused { IfOk result (λ given. map view_refused given.refused.items
        ≡ refused_among (option_map (λ m. members_view m.now.entries) variables.entry)) }
{
    match variables {
        Some(members) => given_variables(alloc, members),
        None => Ok(no_values(alloc)),
    }
}

/// No values.
fn no_values(alloc: Global) -> GivenVariables
    ensures values { view_variables default_shown result.values ≡ given_among None }
    ensures refused { result.refused.items ≡ [] }
{
    GivenVariables {
        values: Variables::new(alloc),
        refused: Vec::new(alloc),
    }
}

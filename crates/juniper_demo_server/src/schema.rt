//! The root of the demo's server (section 3.3 of the Specification).

ghost use Rattle.std.specs.Prelude.{◌≡◌, IfErr, IfOk, false};
ghost use Rattle.juniper_intro.specs.RootView.{is_disabled, schema_of};
ghost use Rattle.juniper_intro.specs.declared.error.RootError.TheVariants as root_error;
ghost use Rattle.juniper_schema.specs.SchemaView.{view_schema};
ghost use Rattle.juniper_syntax.specs.Scalars.{default_shown};
ghost use Rattle.juniper_demo_server.specs.DemoSchema.{IsDemoSchema};

use crate::demo::{Demo, DemoContext};
use crate::mutation::DemoMutation;
use crate::types::demo_types;
use juniper::words::{ServedRoot, served};
use juniper::{DefaultScalarValue, RootError};
use std::alloc::{AllocError, Global};

/// The root of the demo's server.
pub type DemoRoot = ServedRoot<Demo, DemoMutation, DemoContext, DefaultScalarValue>;

/// The root of the demo's server; an error where memory is refused, and only there.
pub fn demo_root(alloc: Global) -> Result<DemoRoot, RootError>
    ensures schema { IfOk result (λ root. IsDemoSchema (view_schema default_shown (schema_of root))) }
    ensures introspection { IfOk result (λ root. is_disabled root ≡ false) }
    ensures refused { IfErr result (λ error. error ≡ root_error.Memory) }
{
    served(alloc, Demo, DemoMutation, demo_types())
}

/// The same; an error where memory is refused.
pub fn made_root(alloc: Global) -> Result<DemoRoot, AllocError>
    ensures { IfOk result (λ root. IsDemoSchema (view_schema default_shown (schema_of root))) }
{
    match demo_root(alloc) {
        Ok(root) => Ok(root),
        Err(_) => Err(AllocError),
    }
}

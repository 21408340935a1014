//! Prepared documents, and what a server takes (this project's own).

ghost use Rattle.std.specs.Prelude.{◌≡◌, Some, []};
ghost use Rattle.graphql_spec.specs.Outcomes.{Reads};
ghost use Rattle.graphql_spec.specs.Rules.{rule_errors};
ghost use Rattle.juniper_syntax.specs.DocumentView.{view_document};
ghost use Rattle.juniper_schema.specs.SchemaView.{view_schema};
ghost use Rattle.juniper_intro.specs.RootView.{is_disabled, schema_of};

use crate::error::GraphQLError;
use juniper_intro::RootNode;
use juniper_language::{Document, ScalarValue};
use juniper_types::{GraphQLType, GraphQLValue};
use std::error::Error;
use std::fmt;

/// What a server takes.
#[derive(Clone, Copy, Debug, PartialEq, Eq, Drop)]
pub struct Bounds {
    /// The most bytes of a text.
    pub bytes: usize,
    /// The most fields of each operation, as [`juniper_written::expanded_fields`] counts them.
    pub fields: u64,
    /// The most levels of each operation, as [`juniper_written::expanded_levels`] counts them.
    pub levels: u64,
}

impl Bounds {
    /// For texts of strangers: 32 KB, 10,000 fields, 64 levels.
    pub const DEFAULT: Bounds = Bounds {
        bytes: 32_768,
        fields: 10_000,
        levels: 64,
    };
}

const _: () = prove!(Bounds::DEFAULT.bytes == 32_768);

const _: () = prove!(Bounds::DEFAULT.fields == 10_000);

const _: () = prove!(Bounds::DEFAULT.levels == 64);

/// Why a text is not prepared.
#[derive(Debug, Drop)]
pub enum Objection {
    /// It has more bytes than are taken. Shown as `The text is too long`.
    TooLong,
    /// One of its operations has more fields than are taken. Shown as `An operation selects too many fields`.
    TooManyFields,
    /// One of its operations has more levels than are taken. Shown as `An operation nests too deep`.
    TooDeep,
    /// It is no document, or not valid, or memory was refused. Shown as the error.
    Refused(GraphQLError),
}

impl fmt::Display for Objection {
    ghost use Rattle.juniper.specs.Objections.{objection_text};

    ghost output = { λ e. Some (objection_text e) };

    fn fmt<W: fmt::Write>(&self, f: &mut fmt::Formatter<W>) -> fmt::Result {
        match self {
            Objection::TooLong => write!(f, "The text is too long"),
            Objection::TooManyFields => write!(f, "An operation selects too many fields"),
            Objection::TooDeep => write!(f, "An operation nests too deep"),
            Objection::Refused(error) => write!(f, "{error}"),
        }
    }
}

impl Error for Objection {}

/// A document that is valid for a root, with this root and with its text (6.1). [`crate::preparing::prepare`] makes it, and
/// [`crate::preparing::execute_prepared`] executes it, as often as one likes. It borrows both, so neither changes while it stands.
#[derive(Drop)]
pub struct Prepared<
    'r,
    'a,
    Q: GraphQLValue<S>,
    M: GraphQLType<S>,
    Sub: GraphQLType<S>,
    S: ScalarValue,
> {
    pub(crate) root: &'r RootNode<Q, M, Sub, S>,
    pub(crate) text: &'a str,
    pub(crate) document: Document<'a, S>,
    ghost reads: { ∥ Reads text.now (Some (view_document S.shown document)) ∥₁ },
    ghost valid: { rule_errors (view_schema S.shown (schema_of root.now)) (is_disabled root.now) (view_document S.shown document) ≡ [] },
}

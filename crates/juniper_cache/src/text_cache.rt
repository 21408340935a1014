//! A cache of texts.

ghost use Rattle.juniper_cache.specs.Texts.{AreAdmitted};
ghost use Rattle.juniper_intro.specs.RootView.{is_disabled, schema_of};
ghost use Rattle.juniper_schema.specs.SchemaView.{view_schema};

use juniper::{Bounds, GraphQLType, GraphQLValue, RootNode, ScalarValue};
use lru::LruCache;
use std::hash::RandomState;

/// Texts whose documents are valid for one root and within bounds, the most recently used first: a kept text is read, but neither
/// validated nor counted again. Where there are too many, the least recently used goes, and its memory is given back.
#[derive(Drop)]
pub struct TextCache<
    'r,
    Q: GraphQLValue<S>,
    M: GraphQLType<S>,
    Sub: GraphQLType<S>,
    S: ScalarValue,
> {
    pub(crate) root: &'r RootNode<Q, M, Sub, S>,
    pub(crate) bounds: Bounds,
    pub(crate) kept: LruCache<String, (), RandomState>,
    ghost fit: { AreAdmitted bounds (view_schema S.shown (schema_of root.now)) (is_disabled root.now) kept.entries },
}

//! A resolver, contexts and the parts of a request.

ghost use Rattle.std.specs.Prelude.{[], Some, codes};
ghost use Rattle.graphql_spec.specs.Resolvers.{answered, leaf};
ghost use Rattle.graphql_spec.specs.Shown.{int};
ghost use Rattle.juniper_registry.specs.DeclaredTypes.{object, type_named};

use juniper_conversions::FieldPath;
use juniper_meta::MetaType;
use juniper_syntax::{
    DefaultScalarValue, Field, InputValue, ScalarValue, SourcePosition, Span, Spanning, Type,
    Variables,
};
use juniper_types::{Context, Executor, GraphQLReference, GraphQLType, GraphQLValue, Registry};
use juniper_values::{Arguments, ResolveError, Resolved};
use std::alloc::{AllocError, Global};
use std::collections::HashMap;
use std::rc::Rc;

/// What requests bring along.
#[derive(Clone, Copy)]
pub struct Requests {
    /// Their count.
    pub count: i32,
}

impl Context for Requests {}

/// A type of one object, whose fields all answer the context.
#[derive(Drop)]
pub struct Counter {
    /// Its object.
    pub root: i32,
}

impl<S: ScalarValue> GraphQLReference<S> for Counter {
    type TypeInfo = ();

    ghost named = { λ _. Some (codes "Counter") };

    ghost reference = { λ _. type_named (codes "Counter") };

    fn name(_info: &()) -> Option<&str> {
        Some("Counter")
    }

    fn type_in(
        _alloc: Global,
        _info: &(),
        registry: &mut Registry<S>,
    ) -> Result<Type<String>, AllocError> {
        registry.named_type("Counter")
    }
}

impl<S: ScalarValue> GraphQLType<S> for Counter {
    ghost declaration = { λ _. object (codes "Counter") [] [] };

    fn meta(
        _alloc: Global,
        _info: &(),
        registry: &mut Registry<S>,
    ) -> Result<MetaType<S>, AllocError> {
        registry.object_type("Counter", [])
    }

    ghost keeps_name = { λ _ _ e. e };
}

impl<S: ScalarValue> GraphQLValue<S> for Counter {
    type Context = i32;

    type Node = i32;

    ghost concrete = { λ _ _ _ _. codes "Counted" };

    ghost answer = { λ _ _ context _ _ _. answered (leaf (int context)) };

    ghost root = { λ counter. counter.root };

    fn type_name<'i>(&self, _info: &'i ()) -> Option<&'i str> {
        Some("Counter")
    }

    fn root_node(&self) -> &i32 {
        &self.root
    }

    fn concrete_type_name<'r>(
        &'r self,
        _context: &'r i32,
        _info: &'r (),
        _node: &'r i32,
    ) -> &'r str {
        "Counted"
    }

    fn resolve_field(
        &self,
        _alloc: Global,
        _info: &(),
        _node: &i32,
        _field_name: &str,
        _arguments: &Arguments<'_, S>,
        executor: &Executor<i32, S>,
    ) -> Result<Resolved<i32, S>, ResolveError<S>> {
        Ok(Resolved::Scalar(S::from_int(*executor.context())))
    }

    fn nodes_at_once(&self, _info: &(), _type_name: &str) -> usize {
        100
    }
}

/// The place after so many characters of a text's first line.
fn at(column: usize) -> SourcePosition {
    SourcePosition::new(column, 0, column)
}

/// `mate: friend`, in `{ hero { mate: friend } }`
pub fn occurrence() -> Spanning<Field<'static, DefaultScalarValue>, Span> {
    let field = Field {
        alias: Some(Spanning::unlocated("mate")),
        name: Spanning::unlocated("friend"),
        arguments: None,
        directives: None,
        selection_set: None,
    };
    Spanning::new(
        Span {
            start: at(9),
            end: at(21),
        },
        field,
    )
}

/// The path down to it, below the third hero, which shares the steps down to that hero with a copy that is gone.
pub fn path(alloc: Global) -> Result<FieldPath<'static>, AllocError> {
    let root = Rc::new(alloc, FieldPath::Root(SourcePosition::new_origin()))?;
    let heroes = FieldPath::Field("hero", at(2), root);
    let hero = FieldPath::Item(2, Rc::new(alloc, heroes)?);
    let copy = hero.clone()?;
    drop(hero);
    Ok(FieldPath::Field("mate", at(9), Rc::new(alloc, copy)?))
}

/// The variable `size` with the value 3.
pub fn variables(alloc: Global) -> Result<Variables<DefaultScalarValue>, AllocError> {
    let mut variables = HashMap::new(alloc);
    variables.insert(
        String::from_str(alloc, "size")?,
        InputValue::Scalar(DefaultScalarValue::Int(3)),
    )?;
    Ok(variables)
}

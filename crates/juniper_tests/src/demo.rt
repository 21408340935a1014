//! The parts of the demo's root, and introspection that is disabled (section 4 of the Specification).

use juniper::{DefaultScalarValue, GraphQLError, GraphQLValue, IntrospectionFormat, introspect};
use juniper_demo_server::{DemoContext, made_root};
use std::test::Fail;

#[test]
fn roots_show_their_parts(rt: HostRuntime) -> Result<(), Fail> {
    let root = made_root(rt.alloc())?;
    assert_eq!(rt; root.schema().query_name(), "Query");
    assert_eq!(rt; root.schema().mutation_name(), Some("Mutation"));
    let name = GraphQLValue::<DefaultScalarValue>::type_name(root.query(), root.query_info());
    assert_eq!(rt; name, Some("Query"));
    assert!(rt; !root.is_introspection_disabled());
    Ok(())
}

#[test]
fn introspection_that_is_disabled_tells_nothing(rt: HostRuntime) -> Result<(), Fail> {
    let root = made_root(rt.alloc())?.disable_introspection();
    assert!(rt; root.is_introspection_disabled());
    let mut context = DemoContext::new();
    let answered = introspect(rt.alloc(), &root, &mut context, IntrospectionFormat::All);
    assert!(rt; matches!(&answered, Err(GraphQLError::ValidationError(_))));
    Ok(())
}

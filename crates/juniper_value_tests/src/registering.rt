//! A field with one argument (section 3.6.1 of the Specification).

use juniper_registry::Registry;
use juniper_syntax::DefaultScalarValue;
use std::test::Fail;

#[test]
fn a_field_has_its_argument(rt: HostRuntime) -> Result<(), Fail> {
    let alloc = rt.alloc();
    let mut registry: Registry<DefaultScalarValue> = Registry::empty(alloc);
    let first = registry.arg::<Option<i32>>("first", &())?;
    let field = registry.field_with::<String>("names", first, &())?;
    let (name, field_type) = (field.name.as_str(), &field.field_type);
    assert_eq!(rt;
        format!(in alloc; "{name}: {field_type}")?.as_str(),
        "names: String!"
    );
    let mut shown = String::new(alloc);
    for argument in field.declared_arguments() {
        write!(shown, "{}: {};", argument.name.as_str(), argument.arg_type)?;
    }
    assert_eq!(rt; shown.as_str(), "first: Int;");
    Ok(())
}

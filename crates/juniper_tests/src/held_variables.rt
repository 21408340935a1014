//! Values of variables that hold variables, which no JSON gives: they are refused (section 6.1.2 of the Specification).

use juniper::{DefaultScalarValue, InputValue, Variables, execute_sync};
use juniper_demo_server::{DemoContext, made_root};
use std::alloc::{AllocError, Global};
use std::test::Fail;

/// This value for the variable `a`.
fn given_for_a(
    alloc: Global,
    value: InputValue<DefaultScalarValue>,
) -> Result<Variables<DefaultScalarValue>, AllocError> {
    let mut variables = Variables::new(alloc);
    drop(variables.insert(String::from_str(alloc, "a")?, value)?);
    Ok(variables)
}

/// A variable.
fn variable(alloc: Global, name: &str) -> Result<InputValue<DefaultScalarValue>, AllocError> {
    Ok(InputValue::Variable(String::from_str(alloc, name)?))
}

/// Why the demo refuses a text with these values of variables.
fn refusal(
    alloc: Global,
    text: &str,
    variables: &Variables<DefaultScalarValue>,
) -> Result<String, AllocError> {
    let root = made_root(alloc)?;
    let mut context = DemoContext::new();
    match execute_sync(alloc, text, None, &root, variables, &mut context) {
        Ok(_) => String::from_str(alloc, "answered"),
        Err(refusal) => refusal.to_string(alloc),
    }
}

#[test]
fn lists_hold_no_variables(rt: HostRuntime) -> Result<(), Fail> {
    let alloc = rt.alloc();
    let list = InputValue::list(alloc, vec![in alloc; variable(alloc, "b")?]?)?;
    let variables = given_for_a(alloc, list)?;
    let fits = refusal(alloc, "query Q($a: [Int]) { id }", &variables)?;
    assert_eq!(rt; fits.as_str(), "Variable `$a` holds a variable");
    let misfits = refusal(alloc, "query Q($a: Int) { id }", &variables)?;
    assert_eq!(rt; misfits.as_str(), "Variable `$a` has no fitting value");
    Ok(())
}

/// More variables than are looked up one by one.
const MANY: &str =
    "query Q($b: Int, $c: Int, $d: Int, $e: Int, $f: Int, $g: Int, $h: Int, $i: Int, $j: Int, $k: Int, $l: Int,
    $m: Int, $n: Int, $o: Int, $p: Int, $a: Int, $q: Int) { number(plus: $a) }";

#[test]
fn a_variable_is_no_value(rt: HostRuntime) -> Result<(), Fail> {
    let alloc = rt.alloc();
    let variables = given_for_a(alloc, variable(alloc, "a")?)?;
    let few = refusal(alloc, "query Q($a: Int) { number(plus: $a) }", &variables)?;
    assert_eq!(rt; few.as_str(), "Variable `$a` holds a variable");
    let many = refusal(alloc, MANY, &variables)?;
    assert_eq!(rt; many.as_str(), "Variable `$a` holds a variable");
    Ok(())
}

//! The names of a schema's types, with their numbers (section 4.2.1 of the Specification).

ghost use Rattle.std.specs.Prelude.{◌≡◌, ◌≤◌, ◌++◌, [], IfOk, get_or, length, map, string_bytes, take};
ghost use Rattle.graphql_spec.specs.TypeList.{type_list};
ghost use Rattle.juniper_schema.specs.SchemaView.{view_schema};
ghost use Rattle.juniper_intro.specs.Numbers.{StandAt, all_names, hidden_names};

use juniper_schema::SchemaType;
use juniper_syntax::ScalarValue;
use std::alloc::{AllocError, Global};
use std::collections::HashMap;

/// The names of a schema's types: those that are listed, in their order, and then the two that are not; and the number of each.
#[derive(Drop)]
pub struct TypeNames {
    names: Vec<String>,
    listed: usize,
    numbers: HashMap<String, usize>,
    ghost within: { listed ≤ length names.items },
    ghost numbered: { StandAt (map (λ n. string_bytes n) names.items) (map (λ n. string_bytes n) names.items) numbers },
}

impl TypeNames {
    ghost use Rattle.juniper_intro.specs.Naming.{listed_in, names_in, number_of};

    /// The names of a schema's types; an error where memory is refused.
    pub fn new<S: ScalarValue>(alloc: Global, schema: &SchemaType<S>) -> Result<Self, AllocError>
        ensures all { IfOk result (λ made. names_in made ≡ all_names (view_schema S.shown schema.now)) }
        ensures listed { IfOk result (λ made. listed_in made ≡ map (λ e. e.key) (type_list (view_schema S.shown schema.now))) }
    {
        let listed = schema.type_names(alloc)?;
        let names = with_hidden(alloc, listed.as_slice())?;
        let numbers = numbers_of(alloc, names.as_slice())?;
        Ok(TypeNames {
            names,
            listed: listed.len(),
            numbers,
        })
    }

    /// The listed names, in their order.
    pub fn listed(&self) -> &[String]
        ensures { map (λ n. string_bytes n) result.now ≡ listed_in self.now }
    {
        &self.names.as_slice()[..self.listed]
    }

    /// The name of this number; empty where there is none.
    pub fn name(&self, number: usize) -> &str
        ensures { result.now ≡ get_or (names_in self.now) number [] }
    {
        match self.names.get(number) {
            Some(name) => name.as_str(),
            None => "",
        }
    }

    /// The number of this name; 0 where it has none.
    pub fn number(&self, name: &str) -> usize
        ensures { result ≡ number_of self.now name.now }
    {
        match self.numbers.get(name) {
            Some(number) => *number,
            None => 0,
        }
    }
}

/// The listed names, and behind them the two that are not listed.
fn with_hidden(alloc: Global, listed: &[&str]) -> Result<Vec<String>, AllocError>
    ensures { IfOk result (λ names. map (λ n. string_bytes n) names.items ≡ map (λ n. n.now) listed.now ++ hidden_names) }
{
    let mut names = Vec::with_capacity(alloc, listed.len())?;
    for name in listed {
        names.push(String::from_str(alloc, name)?)?;
    }
    names.push(String::from_str(alloc, "_EmptyMutation")?)?;
    names.push(String::from_str(alloc, "_EmptySubscription")?)?;
    Ok(names)
}

/// The number of each name.
fn numbers_of(alloc: Global, names: &[String]) -> Result<HashMap<String, usize>, AllocError>
    ensures { IfOk result (λ numbers. StandAt (map (λ n. string_bytes n) names.now) (map (λ n. string_bytes n) names.now) numbers) }
{
    let mut numbers = HashMap::new(alloc);
    for number in 0..names.len() {
        let name = String::from_str(alloc, names[number].as_str())?;
        drop(numbers.insert(name, number)?);
    }
    Ok(numbers)
}

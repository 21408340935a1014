//! The arguments that a resolver sees (section 6.4.1 of the Specification).

ghost use Rattle.std.specs.Prelude.{◌≡◌, IfOk, OnOk, Some, is_some, map, option_map, string_bytes};
ghost use Rattle.graphql_spec.specs.Arguments.{put_default, with_defaults};
ghost use Rattle.graphql_spec.specs.Constants.{find, meaning, no_members};
ghost use Rattle.juniper_syntax.specs.InputView.{view_input};
ghost use Rattle.juniper_values.specs.ArgumentView.{members_of, view_arguments, view_declared, view_given, GivesArgument};
ghost use Rattle.juniper_meta.specs.MetaView.{view_argument};

use indexmap::IndexMap;
use juniper_conversions::{FromInputValue, IntoFieldError, ResolveError};
use juniper_meta::meta::Argument;
use juniper_syntax::{InputValue, ScalarValue, Span, Spanning};
use std::alloc::{AllocError, Global};
use std::fmt;

/// The arguments of a field by their names: what is written for them, and the defaults of those that are declared and not
/// written. A value is made for the field, or lent by what holds it while the field is resolved.
#[derive(Debug, Drop)]
pub struct Arguments<'a, S> {
    items: IndexMap<&'a str, Spanning<InputValue<S>, Span>>,
    lent: LentArguments<'a, S>,
}

// The values that are lent.
#[derive(Drop)]
struct LentArguments<'a, S> {
    items: IndexMap<&'a str, &'a Spanning<InputValue<S>, Span>>,
}

impl<S: fmt::Debug> fmt::Debug for LentArguments<'_, S> {
    fn fmt<W: fmt::Write>(&self, f: &mut fmt::Formatter<W>) -> fmt::Result {
        for (name, value) in &self.items {
            write!(f, "{name}: {value:?} ")?;
        }
        Ok(())
    }
}

impl<'a, S: ScalarValue> Arguments<'a, S> {
    /// The given arguments, and the defaults of the declared ones that are not among them; an explicit null is kept
    /// (CoerceArgumentValues, 6.4.1). An error where memory is refused.
    pub fn new(
        alloc: Global,
        given: Option<IndexMap<&'a str, Spanning<InputValue<S>, Span>>>,
        declared: Option<&'a [Argument<S>]>,
    ) -> Result<Self, AllocError>
        ensures { IfOk result (λ made. view_arguments S.shown made ≡ with_defaults (view_declared S.shown declared.entry) (view_given S.shown given.entry)) }
    {
        let mut made = Arguments {
            items: or_empty(alloc, given),
            lent: LentArguments {
                items: IndexMap::new(alloc),
            },
        };
        made.put_defaults(alloc, or_none(declared))?;
        Ok(made)
    }

    /// No arguments: [`Arguments::put`], [`Arguments::lend`] and [`Arguments::put_defaults`] add some.
    pub fn none(alloc: Global) -> Self
        ensures { view_arguments S.shown result ≡ no_members }
    {
        Arguments {
            items: IndexMap::new(alloc),
            lent: LentArguments {
                items: IndexMap::new(alloc),
            },
        }
    }

    /// Whether there is an argument of that name.
    fn has(&self, name: &str) -> bool
        ensures { result ≡ is_some (find name.now (view_arguments S.shown self.now)) }
    {
        self.items.contains_key(name) || self.lent.items.contains_key(name)
    }

    /// Puts in a value, unless there is one of that name. An error where memory is refused.
    pub fn put(
        &mut self,
        name: &'a str,
        value: Spanning<InputValue<S>, Span>,
    ) -> Result<(), AllocError>
        ensures { OnOk result (view_arguments S.shown self.new
            ≡ put_default name.now (Some (view_input S.shown value.item)) (view_arguments S.shown self.old)) }
    {
        if self.has(name) {
            return Ok(());
        }
        drop(self.items.insert(name, value)?);
        Ok(())
    }

    /// Puts in a value that is lent, unless there is one of that name. An error where memory is refused.
    pub fn lend(
        &mut self,
        name: &'a str,
        value: &'a Spanning<InputValue<S>, Span>,
    ) -> Result<(), AllocError>
        ensures { OnOk result (view_arguments S.shown self.new
            ≡ put_default name.now (Some (view_input S.shown value.now.item)) (view_arguments S.shown self.old)) }
    {
        if self.has(name) {
            return Ok(());
        }
        self.lent.items.insert(name, value)?;
        Ok(())
    }

    /// Puts in the defaults of the declared arguments that are not there. An error where memory is refused.
    pub fn put_defaults(
        &mut self,
        alloc: Global,
        declared: &'a [Argument<S>],
    ) -> Result<(), AllocError>
        ensures { OnOk result (view_arguments S.shown self.new
            ≡ with_defaults (map (view_argument S.shown) declared.now) (view_arguments S.shown self.old)) }
    {
        for argument in declared {
            self.put_default(alloc, argument)?;
        }
        Ok(())
    }

    // Puts in the default of a declared argument that is not there.
    fn put_default(&mut self, alloc: Global, argument: &'a Argument<S>) -> Result<(), AllocError>
        ensures { OnOk result (view_arguments S.shown self.new ≡ put_default (string_bytes argument.now.name)
            (option_map (view_input S.shown) argument.now.default_value) (view_arguments S.shown self.old)) }
    {
        let name = argument.name.as_str();
        match &argument.default_value {
            None => Ok(()),
            Some(value) => {
                if self.has(name) {
                    return Ok(());
                }
                let value = Spanning::unlocated(value.try_clone(alloc)?);
                drop(self.items.insert(name, value)?);
                Ok(())
            }
        }
    }

    /// The value of the argument of that name with its place, if there is one. What is not written there, a default or the value of a
    /// variable, has the document's start as its place, but a value that is made for the field has that of what is written.
    pub fn get_input_value(&self, name: &str) -> Option<&Spanning<InputValue<S>, Span>>
        ensures { option_map (λ v. meaning (view_input S.shown v.now.item)) result ≡ find name.now (view_arguments S.shown self.now) }
    {
        match self.items.get(name) {
            Some(value) => Some(value),
            None => match self.lent.items.get(name) {
                Some(value) => Some(*value),
                None => None,
            },
        }
    }

    /// The argument of that name as a `T`; `Ok(None)` exactly where no argument and no default of that name is there. An
    /// error is that of the conversion, or says that memory was refused.
    pub fn get<T: FromInputValue<S>>(
        &self,
        alloc: Global,
        name: &str,
    ) -> Result<Option<T>, ResolveError<S>>
    where
        T::Error: IntoFieldError<S>,
        ensures { GivesArgument S.shown T.gives T.Error.becomes (find name.now (view_arguments S.shown self.now)) result }
    {
        let Some(value) = self.get_input_value(name) else {
            return Ok(None);
        };
        match T::from_input_value(alloc, &value.item)? {
            Ok(found) => Ok(Some(found)),
            Err(error) => Err(ResolveError::Field(error.into_field_error(alloc)?)),
        }
    }
}

/// The arguments, where there are any.
fn or_empty<'a, S: ScalarValue>(
    alloc: Global,
    given: Option<IndexMap<&'a str, Spanning<InputValue<S>, Span>>>,
) -> IndexMap<&'a str, Spanning<InputValue<S>, Span>>
    ensures { members_of S.shown result.entries ≡ view_given S.shown given.entry }
{
    match given {
        Some(items) => items,
        None => IndexMap::new(alloc),
    }
}

/// The declared arguments, where there are any.
fn or_none<'a, S: ScalarValue>(declared: Option<&'a [Argument<S>]>) -> &'a [Argument<S>]
    ensures { map (view_argument S.shown) result.now ≡ view_declared S.shown declared.entry }
{
    match declared {
        Some(declared) => declared,
        None => &[],
    }
}

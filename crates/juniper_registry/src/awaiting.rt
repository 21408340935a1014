//! Placeholders at the names that a declaration refers to (section 3 of the Specification).

ghost use Rattle.std.specs.Prelude.{◌∷◌, ◌++◌, map};
ghost use Rattle.graphql_spec.specs.Types.{innermost};
ghost use Rattle.juniper_meta.specs.MetaView.{view_argument, view_field, view_meta, view_names};
ghost use Rattle.juniper_registry.specs.Referred.{fields_refer, inputs_refer, referred};

use crate::registry::Registry;
use juniper_meta::meta::Field;
use juniper_meta::{Argument, MetaType};
use juniper_syntax::ScalarValue;
use std::alloc::AllocError;

impl<S: ScalarValue> Registry<S> {
    ghost use Rattle.juniper_registry.specs.Entries.{AwaitsEach, KeepsAdding};
    ghost use Rattle.juniper_registry.specs.RegistryView.{view_registry};

    /// Leaves placeholders at the names that a declaration refers to, where nothing stands there.
    #[tactic(auto, unfolding(juniper_meta::specs::MetaView::view_meta))]
    pub(crate) fn await_referred(&mut self, meta: &MetaType<S>) -> Result<(), AllocError>
        ensures awaited { AwaitsEach result (referred (view_meta S.shown meta.now).shape) (view_registry S.shown self.old) (view_registry S.shown self.new) }
        ensures added { KeepsAdding (view_registry S.shown self.old) (view_registry S.shown self.new) }
    {
        match meta {
            MetaType::Object(object) => {
                self.await_composite(&object.fields, &object.interface_names)
            }
            MetaType::Interface(interface) => {
                self.await_composite(&interface.fields, &interface.interface_names)
            }
            MetaType::Union(members) => self.await_names(&members.of_type_names),
            MetaType::InputObject(input) => self.await_inputs(&input.input_fields),
            MetaType::List(list) => self.await_type(list.of_type.innermost_name()),
            MetaType::Nullable(inner) => self.await_type(inner.of_type.innermost_name()),
            MetaType::Scalar(_) | MetaType::Enum(_) | MetaType::Placeholder(_) => Ok(()),
        }
    }

    /// The same for fields and interfaces.
    fn await_composite(
        &mut self,
        fields: &[Field<S>],
        interfaces: &[String],
    ) -> Result<(), AllocError>
        ensures awaited { AwaitsEach result (fields_refer (map (view_field S.shown) fields.now) ++ view_names interfaces.now)
            (view_registry S.shown self.old) (view_registry S.shown self.new) }
        ensures added { KeepsAdding (view_registry S.shown self.old) (view_registry S.shown self.new) }
    {
        self.await_fields(fields)?;
        self.await_names(interfaces)
    }

    /// The same for fields.
    fn await_fields(&mut self, fields: &[Field<S>]) -> Result<(), AllocError>
        ensures awaited { AwaitsEach result (fields_refer (map (view_field S.shown) fields.now))
            (view_registry S.shown self.old) (view_registry S.shown self.new) }
        ensures added { KeepsAdding (view_registry S.shown self.old) (view_registry S.shown self.new) }
    {
        for field in fields {
            self.await_field(field)?;
        }
        Ok(())
    }

    /// The same for a field, and the arguments behind it.
    fn await_field(&mut self, field: &Field<S>) -> Result<(), AllocError>
        ensures awaited { AwaitsEach result
            (innermost (view_field S.shown field.now).of_type ∷ inputs_refer (view_field S.shown field.now).arguments)
            (view_registry S.shown self.old) (view_registry S.shown self.new) }
        ensures added { KeepsAdding (view_registry S.shown self.old) (view_registry S.shown self.new) }
    {
        self.await_type(field.field_type.innermost_name())?;
        self.await_inputs(field.declared_arguments())
    }

    /// The same for arguments and input fields.
    fn await_inputs(&mut self, inputs: &[Argument<S>]) -> Result<(), AllocError>
        ensures awaited { AwaitsEach result (inputs_refer (map (view_argument S.shown) inputs.now))
            (view_registry S.shown self.old) (view_registry S.shown self.new) }
        ensures added { KeepsAdding (view_registry S.shown self.old) (view_registry S.shown self.new) }
    {
        for input in inputs {
            self.await_type(input.arg_type.innermost_name())?;
        }
        Ok(())
    }

    /// The same for names.
    fn await_names(&mut self, names: &[String]) -> Result<(), AllocError>
        ensures awaited { AwaitsEach result (view_names names.now) (view_registry S.shown self.old) (view_registry S.shown self.new) }
        ensures added { KeepsAdding (view_registry S.shown self.old) (view_registry S.shown self.new) }
    {
        for name in names {
            self.await_type(name.as_str())?;
        }
        Ok(())
    }
}

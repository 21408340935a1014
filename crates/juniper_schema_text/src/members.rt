//! What entries hold: fields, arguments, values of enums, names.

use crate::reader::{Reader, Scalar};
use juniper_meta::meta::Field;
use juniper_meta::{Argument, EnumValue, find_field};
use juniper_syntax::Type;

impl<'t> Reader<'t> {
    /// An argument, or a field of an input object.
    fn read_argument(&mut self) -> Argument<Scalar> {
        let name = self.name();
        self.expect(":");
        let argument = Argument::new(name, self.read_type()).description(self.text("argument"));
        if self.eats("=") {
            return argument.default_value(self.read_value(4));
        }
        argument
    }

    /// Fields of an input object, and the `}` behind them.
    pub(crate) fn read_inputs(&mut self) -> Vec<Argument<Scalar>> {
        let mut inputs = Vec::new(self.alloc);
        for _turn in 0..self.left() {
            if self.eats("}") {
                break;
            }
            let input = self.read_argument();
            self.push(&mut inputs, input);
        }
        inputs
    }

    fn read_field(&mut self) -> Field<Scalar> {
        let is_current = self.eats(";");
        let mut field = Field::new(self.name(), Type::Named(self.text("")));
        if self.eats("(") {
            for _turn in 0..self.left() {
                if self.eats(")") {
                    break;
                }
                field = self.read_argument_of(field);
            }
        }
        self.expect(":");
        field.field_type = self.read_type();
        let described = field.description(self.text("field"));
        if is_current {
            return described;
        }
        described.deprecated(Some(self.text("old")))
    }

    /// The field with one argument more.
    fn read_argument_of(&mut self, field: Field<Scalar>) -> Field<Scalar> {
        let argument = self.read_argument();
        match field.argument(self.alloc, argument) {
            Ok(field) => field,
            Err(_) => {
                self.refuse();
                self.typename()
            }
        }
    }

    /// Fields and the `}` behind them.
    pub(crate) fn read_fields(&mut self) -> Vec<Field<Scalar>> {
        let mut fields = Vec::new(self.alloc);
        for _turn in 0..self.left() {
            if self.eats("}") {
                break;
            }
            let field = self.read_field();
            self.push(&mut fields, field);
        }
        if !self.is_bare && find_field(&fields, "__typename").is_none() {
            let field = self.typename();
            self.push(&mut fields, field);
        }
        fields
    }

    /// The field that tells a type's name.
    fn typename(&mut self) -> Field<Scalar> {
        let name = self.text("__typename");
        Field::new(name, Type::NonNullNamed(self.text("String")))
    }

    /// Values of an enum and the `}` behind them.
    pub(crate) fn read_values(&mut self) -> Vec<EnumValue> {
        let mut values = Vec::new(self.alloc);
        for _turn in 0..self.left() {
            if self.eats("}") {
                break;
            }
            let value = self.read_enum_value();
            self.push(&mut values, value);
        }
        values
    }

    fn read_enum_value(&mut self) -> EnumValue {
        let is_current = self.eats(";");
        let value = EnumValue::new(self.name()).description(self.text("value"));
        if is_current {
            return value;
        }
        value.deprecated(None)
    }

    /// Names, each behind this mark.
    pub(crate) fn read_names(&mut self, mark: &str) -> Vec<Type<String>> {
        let mut names = Vec::new(self.alloc);
        for _turn in 0..self.left() {
            if !self.eats(mark) {
                break;
            }
            let name = Type::Named(self.name());
            self.push(&mut names, name);
        }
        names
    }
}

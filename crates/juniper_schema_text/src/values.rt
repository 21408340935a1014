//! Values.

use crate::reader::{Reader, Scalar};
use juniper_syntax::{InputValue, Spanning};

impl<'t> Reader<'t> {
    /// A value with so many levels at most.
    pub fn read_value(&mut self, levels: usize) -> InputValue<Scalar> {
        if levels == 0 {
            self.refuse();
            return InputValue::Null;
        }
        if self.eats("[") {
            let mut items = Vec::new(self.alloc);
            for _turn in 0..self.left() {
                if self.eats("]") {
                    break;
                }
                let item = Spanning::unlocated(self.read_value(levels - 1));
                self.push(&mut items, item);
            }
            return InputValue::List(items);
        }
        if self.eats("{") {
            let mut members = Vec::new(self.alloc);
            for _turn in 0..self.left() {
                if self.eats("}") {
                    break;
                }
                let name = Spanning::unlocated(self.name());
                self.expect(":");
                let value = Spanning::unlocated(self.read_value(levels - 1));
                self.push(&mut members, (name, value));
            }
            return InputValue::Object(members);
        }
        self.read_leaf()
    }

    /// A word that is a value by itself.
    fn read_leaf(&mut self) -> InputValue<Scalar> {
        let word = self.word();
        if let Some(name) = word.strip_prefix('$') {
            return InputValue::Variable(self.text(name));
        }
        if let Some(text) = word.strip_prefix('"') {
            return InputValue::Scalar(Scalar::String(self.text(text.trim_end_matches('"'))));
        }
        if let Ok(int) = word.parse::<i32>() {
            return InputValue::Scalar(Scalar::Int(int));
        }
        match word {
            "null" => InputValue::Null,
            "true" => InputValue::Scalar(Scalar::Boolean(true)),
            "false" => InputValue::Scalar(Scalar::Boolean(false)),
            _ => InputValue::Enum(self.text(word)),
        }
    }
}

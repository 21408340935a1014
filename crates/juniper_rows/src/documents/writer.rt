//! Writes what is told of a document, part by part, in the order of the text.

use juniper_language::ast::Arguments;
use juniper_language::{
    DefaultScalarValue, Definition, Directive, Document, Field, Fragment, InputValue, Operation,
    OperationType, Selection, SourcePosition, Span, Spanning, VariableDefinition,
    VariableDefinitions,
};
use std::alloc::{AllocError, Global};
use std::fmt::Display;

/// The arguments of a field or a directive, if it has any.
type Given<'a> = Option<Spanning<Arguments<'a, DefaultScalarValue>, Span>>;

/// The directives that stand behind something, if any do.
type Directives<'a> = Option<Vec<Spanning<Directive<'a, DefaultScalarValue>, Span>>>;

/// What is told of a text's document: of which kind it is, and what is written of it so far.
#[derive(Drop)]
pub struct DocumentWriter<'r> {
    alloc: Global,
    kind: &'r str,
    text: &'r str,
    written: String,
}

impl<'r> DocumentWriter<'r> {
    /// Nothing is written of the document of this text.
    pub fn new(alloc: Global, kind: &'r str, text: &'r str) -> Self {
        DocumentWriter {
            alloc,
            kind,
            text,
            written: String::new(alloc),
        }
    }

    /// What is told of the document.
    pub fn written(
        mut self,
        document: &Document<'_, DefaultScalarValue>,
    ) -> Result<String, AllocError> {
        for definition in document {
            self.write_definition(definition)?;
        }
        Ok(self.written)
    }

    /// Whether all that the document holds is told.
    fn is_outline(&self) -> bool {
        self.kind.ends_with("outline")
    }

    /// Writes this in an outline.
    fn outline(&mut self, part: &str) -> Result<(), AllocError> {
        if self.is_outline() {
            self.written.push_str(part)?;
        }
        Ok(())
    }

    /// Writes an item in an outline, and behind it what the text has there where that differs.
    fn write_item<T: Display>(&mut self, item: &T, found: &str) -> Result<(), AllocError> {
        if !self.is_outline() {
            return Ok(());
        }
        let written = item.to_string(self.alloc)?;
        self.written.push_str(written.as_str())?;
        if self.kind == "outline" && written.as_str() != found {
            write!(self.written, "<{found}>")?;
        }
        Ok(())
    }

    /// Writes a place, and what stands behind it.
    fn write_place(&mut self, place: SourcePosition, behind: &str) -> Result<(), AllocError> {
        let (index, line, column) = (place.index(), place.line(), place.column());
        write!(self.written, "{index}:{line}:{column}{behind}")
    }

    /// Writes the text of a part, or its place, where these are told; also where it does not begin and end so. Answers its text.
    fn write_part(
        &mut self,
        kind: &str,
        span: &Span,
        first: &str,
        last: &str,
    ) -> Result<&'r str, AllocError> {
        let text = self.text;
        let part = text.get(span.start.index()..span.end.index()).unwrap_or("");
        if !part.starts_with(first) || !part.ends_with(last) {
            write!(self.written, "<{part} is not {first}..{last}>")?;
        }
        if self.kind == "parts" {
            write!(self.written, "{part}/")?;
        }
        if self.kind.contains(kind) {
            self.write_place(span.start, "-")?;
            self.write_place(span.end, "/")?;
        }
        Ok(part)
    }

    /// Writes a word, and what stands in the text where that is another.
    fn write_word(&mut self, kind: &str, word: &Spanning<&str, Span>) -> Result<(), AllocError> {
        self.outline(word.item)?;
        let part = self.write_part(kind, &word.span, "", "")?;
        if part != word.item {
            write!(self.written, "<{part}>")?;
        }
        Ok(())
    }

    /// Writes a name, if there is one, with what stands before and behind it.
    fn write_name(
        &mut self,
        before: &str,
        name: &Option<Spanning<&str, Span>>,
        behind: &str,
    ) -> Result<(), AllocError> {
        let Some(word) = name else {
            return Ok(());
        };
        self.outline(before)?;
        self.write_word("name", word)?;
        self.outline(behind)
    }

    /// Writes a value, and its kind where that is told.
    fn write_value(
        &mut self,
        value: &Spanning<InputValue<DefaultScalarValue>, Span>,
    ) -> Result<(), AllocError> {
        let found = self.write_part("argument", &value.span, "", "")?;
        self.write_item(&value.item, found)?;
        if self.kind.ends_with("kinds") {
            self.written.push_str(kind_of(&value.item))?;
            self.written.push('/')?;
        }
        self.write_members(&value.item)
    }

    /// Writes the items of a list, or the names and values of an object.
    fn write_members(&mut self, value: &InputValue<DefaultScalarValue>) -> Result<(), AllocError> {
        match value {
            InputValue::List(items) => {
                for item in items {
                    self.write_part("item", &item.span, "", "")?;
                }
            }
            InputValue::Object(fields) => {
                for (name, field) in fields {
                    self.write_part("item", &name.span, "", "")?;
                    self.write_part("item", &field.span, "", "")?;
                }
            }
            InputValue::Null
            | InputValue::Scalar(_)
            | InputValue::Enum(_)
            | InputValue::Variable(_) => {}
        }
        Ok(())
    }

    /// Writes arguments, if there are any.
    fn write_arguments(&mut self, arguments: &Given<'_>) -> Result<(), AllocError> {
        let Some(arguments) = arguments else {
            return Ok(());
        };
        self.write_part("argument", &arguments.span, "(", ")")?;
        self.outline("(")?;
        for (name, value) in &arguments.item.items {
            self.outline(" ")?;
            self.write_word("argument", name)?;
            self.outline(":")?;
            self.write_value(value)?;
        }
        self.outline(" )")
    }

    /// Writes directives, if there are any; that there are none, where there should be.
    fn write_directives(&mut self, directives: &Directives<'_>) -> Result<(), AllocError> {
        let Some(directives) = directives else {
            return Ok(());
        };
        if directives.is_empty() {
            self.written.push_str("<no directives>")?;
        }
        for directive in directives {
            self.write_part("directive", &directive.span, "@", "")?;
            self.outline(" @")?;
            self.write_word("name", &directive.item.name)?;
            self.write_arguments(&directive.item.arguments)?;
        }
        Ok(())
    }

    /// Writes a field without its selections.
    fn write_field(
        &mut self,
        field: &Spanning<Field<'_, DefaultScalarValue>, Span>,
    ) -> Result<(), AllocError> {
        self.write_part("selection", &field.span, "", "")?;
        self.write_name("", &field.item.alias, ":")?;
        self.write_word("name", &field.item.name)?;
        self.write_arguments(&field.item.arguments)?;
        self.write_directives(&field.item.directives)
    }

    /// Writes a selection without its own selections. Answers these, if it has any.
    fn write_selection<'d, 'a>(
        &mut self,
        selection: &'d Selection<'a, DefaultScalarValue>,
    ) -> Result<Option<&'d [Selection<'a, DefaultScalarValue>]>, AllocError> {
        match selection {
            Selection::Field(field) => {
                self.write_field(field)?;
                match &field.item.selection_set {
                    None => Ok(None),
                    Some(set) => Ok(Some(set.as_slice())),
                }
            }
            Selection::FragmentSpread(spread) => {
                self.write_part("selection", &spread.span, "...", "")?;
                self.outline("...")?;
                self.write_word("name", &spread.item.name)?;
                self.write_directives(&spread.item.directives)?;
                Ok(None)
            }
            Selection::InlineFragment(inline) => {
                self.write_part("selection", &inline.span, "...", "}")?;
                self.outline("...")?;
                self.write_name("on ", &inline.item.type_condition, "")?;
                self.write_directives(&inline.item.directives)?;
                Ok(Some(inline.item.selection_set.as_slice()))
            }
        }
    }

    /// Writes selections in their braces, with all that is below them.
    fn write_set(&mut self, set: &[Selection<'_, DefaultScalarValue>]) -> Result<(), AllocError> {
        let mut open = Vec::new(self.alloc);
        open.push(set)?;
        self.outline(" {")?;
        for _step in 0..usize::MAX {
            let Some(left) = open.pop() else {
                break;
            };
            let Some((selection, others)) = left.split_first() else {
                self.outline(" }")?;
                continue;
            };
            open.push(others)?;
            self.outline(" ")?;
            if let Some(below) = self.write_selection(selection)? {
                self.outline(" {")?;
                open.push(below)?;
            }
        }
        Ok(())
    }

    /// Writes the definitions of variables.
    fn write_variables(
        &mut self,
        variables: &Spanning<VariableDefinitions<'_, DefaultScalarValue>, Span>,
    ) -> Result<(), AllocError> {
        self.write_part("variables", &variables.span, "(", ")")?;
        self.outline(" (")?;
        for (name, variable) in &variables.item.items {
            self.write_part("variables", &name.span, "$", name.item)?;
            self.outline(" $")?;
            self.outline(name.item)?;
            self.write_variable(variable)?;
        }
        self.outline(" )")
    }

    /// Writes what stands behind the name of a variable.
    fn write_variable(
        &mut self,
        variable: &VariableDefinition<'_, DefaultScalarValue>,
    ) -> Result<(), AllocError> {
        let found = self.write_part("variables", &variable.var_type.span, "", "")?;
        self.outline(":")?;
        self.write_item(&variable.var_type.item, found)?;
        if let Some(value) = &variable.default_value {
            self.outline("=")?;
            self.write_value(value)?;
        }
        self.write_directives(&variable.directives)
    }

    /// Writes an operation.
    fn write_operation(
        &mut self,
        operation: &Operation<'_, DefaultScalarValue>,
    ) -> Result<(), AllocError> {
        self.outline(match operation.operation_type {
            OperationType::Query => "query",
            OperationType::Mutation => "mutation",
            OperationType::Subscription => "subscription",
        })?;
        self.write_name(" ", &operation.name, "")?;
        if let Some(variables) = &operation.variable_definitions {
            self.write_variables(variables)?;
        }
        self.write_directives(&operation.directives)?;
        self.write_set(operation.selection_set.as_slice())
    }

    /// Writes a fragment.
    fn write_fragment(
        &mut self,
        fragment: &Fragment<'_, DefaultScalarValue>,
    ) -> Result<(), AllocError> {
        self.outline("fragment ")?;
        self.write_word("name", &fragment.name)?;
        self.outline(" on ")?;
        self.write_word("name", &fragment.type_condition)?;
        self.write_directives(&fragment.directives)?;
        self.write_set(fragment.selection_set.as_slice())
    }

    /// Writes a definition, with a `;` behind it in an outline.
    fn write_definition(
        &mut self,
        definition: &Definition<'_, DefaultScalarValue>,
    ) -> Result<(), AllocError> {
        match definition {
            Definition::Operation(operation) => {
                self.write_part("definition", &operation.span, "", "}")?;
                self.write_operation(&operation.item)?;
            }
            Definition::Fragment(fragment) => {
                self.write_part("definition", &fragment.span, "fragment", "}")?;
                self.write_fragment(&fragment.item)?;
            }
        }
        self.outline(";")
    }
}

/// What kind of value it is.
fn kind_of(value: &InputValue<DefaultScalarValue>) -> &str {
    match value {
        InputValue::Null => "null",
        InputValue::Scalar(DefaultScalarValue::Int(_)) => "an Int",
        InputValue::Scalar(DefaultScalarValue::String(_)) => "a String",
        InputValue::Scalar(DefaultScalarValue::Boolean(_)) => "a Boolean",
        InputValue::Enum(_) => "an enum's",
        InputValue::Variable(_) => "a variable",
        InputValue::List(_) => "a list",
        InputValue::Object(_) => "an object",
    }
}

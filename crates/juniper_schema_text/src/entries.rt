//! Entries, and whole schemas.

use crate::reader::{Reader, Scalar};
use juniper_meta::{
    EnumMeta, InputObjectMeta, InterfaceMeta, ListMeta, MetaType, NullableMeta, ObjectMeta,
    PlaceholderMeta, ScalarKinds, ScalarMeta, UnionMeta,
};
use juniper_schema::SchemaType;
use juniper_syntax::Type;
use std::alloc::Global;
use std::collections::HashMap;

/// Types by name.
type Types = HashMap<String, MetaType<Scalar>>;

/// What a text declares.
#[derive(Drop)]
pub struct Declarations<'t> {
    /// The name of the query type.
    pub query: &'t str,
    /// The name of the mutation type, where there is one.
    pub mutation: Option<&'t str>,
    /// What stands at each key.
    pub types: HashMap<String, MetaType<Scalar>>,
}

impl<'t> Reader<'t> {
    fn read_scalar(&mut self, name: String) -> MetaType<Scalar> {
        let kinds = ScalarKinds {
            int: self.eats("int"),
            text: self.eats("text"),
            boolean: self.eats("boolean"),
        };
        let meta = ScalarMeta::new(name, kinds).description(self.text("scalar"));
        meta.specified_by_url(self.text("there")).into_meta()
    }

    fn read_object(&mut self, name: String) -> MetaType<Scalar> {
        self.eats("implements");
        let interfaces = self.read_names("&");
        self.expect("{");
        let meta = ObjectMeta::new(self.alloc, name, self.read_fields());
        match meta.interfaces(self.alloc, &interfaces) {
            Ok(listed) => listed.description(self.text("type")).into_meta(),
            Err(_) => self.nothing(),
        }
    }

    fn read_interface(&mut self, name: String) -> MetaType<Scalar> {
        self.eats("implements");
        let interfaces = self.read_names("&");
        self.expect("{");
        let meta = InterfaceMeta::new(self.alloc, name, self.read_fields());
        match meta.interfaces(self.alloc, &interfaces) {
            Ok(listed) => listed.description(self.text("interface")).into_meta(),
            Err(_) => self.nothing(),
        }
    }

    fn read_union(&mut self, name: String) -> MetaType<Scalar> {
        self.expect("=");
        let members = self.read_names("|");
        match UnionMeta::new(self.alloc, name, &members) {
            Ok(meta) => meta.description(self.text("union")).into_meta(),
            Err(_) => self.nothing(),
        }
    }

    fn read_input_object(&mut self, name: String) -> MetaType<Scalar> {
        self.expect("{");
        let meta = InputObjectMeta::new(name, self.read_inputs());
        meta.description(self.text("input")).into_meta()
    }

    fn read_enum(&mut self, name: String) -> MetaType<Scalar> {
        self.expect("{");
        let meta = EnumMeta::new(name, self.read_values());
        meta.description(self.text("enum")).into_meta()
    }

    /// What stands where nothing can be read.
    fn nothing(&mut self) -> MetaType<Scalar> {
        self.refuse();
        PlaceholderMeta::new(Type::Named(String::new(self.alloc))).into_meta()
    }

    /// What is declared behind these words.
    fn read_meta(&mut self, kind: &str, name: String) -> MetaType<Scalar> {
        match kind {
            "scalar" => self.read_scalar(name),
            "enum" => self.read_enum(name),
            "type" => self.read_object(name),
            "interface" => self.read_interface(name),
            "union" => self.read_union(name),
            "input" => self.read_input_object(name),
            "list" => ListMeta::new(Type::Named(name), None).into_meta(),
            "nullable" => NullableMeta::new(Type::Named(name)).into_meta(),
            "placeholder" => PlaceholderMeta::new(Type::Named(name)).into_meta(),
            _ => self.nothing(),
        }
    }

    /// An entry, which is put into the types.
    fn read_entry(&mut self, kind: &str, types: &mut Types) {
        let name = self.word();
        let mut key = name;
        if self.eats("@") {
            key = self.word();
        }
        let own = self.text(name);
        let meta = self.read_meta(kind, own);
        let key = self.text(key);
        self.put(types, key, meta);
    }

    fn put_placeholder(&mut self, types: &mut Types, name: &str) {
        let named = Type::Named(self.text(name));
        let key = self.text(name);
        self.put(types, key, PlaceholderMeta::new(named).into_meta());
    }

    fn read_types(&mut self) -> Types {
        let mut types = HashMap::new(self.alloc);
        self.is_bare = self.eats("bare");
        if !self.is_bare {
            self.put_placeholder(&mut types, "Int");
            self.put_placeholder(&mut types, "ID");
        }
        for _turn in 0..self.left() {
            if self.ends() {
                break;
            }
            let kind = self.word();
            self.read_entry(kind, &mut types);
        }
        types
    }

    /// All of a text.
    fn read_declarations(&mut self) -> Declarations<'t> {
        let query = if self.eats("query") {
            self.word()
        } else {
            "Query"
        };
        let mutation = if self.eats("mutation") {
            Some(self.word())
        } else {
            None
        };
        Declarations {
            query,
            mutation,
            types: self.read_types(),
        }
    }
}

/// A value, which stays to the end of the program; `None` where memory is refused.
pub fn placed<'k, T: Drop + 'k>(alloc: Global, value: T) -> Option<&'k mut T> {
    let place = Box::new(alloc, value).ok()?;
    Some(Box::leak(place))
}

/// What was made, which stays to the end of the program; `None` where it was not made, or memory is refused.
pub fn kept<'k, T: Drop + 'k, E: Drop>(alloc: Global, made: Result<T, E>) -> Option<&'k T> {
    let place = placed(alloc, made.ok()?)?;
    Some(place)
}

/// What a text declares; `None` where the text has another form, or memory is refused.
pub fn read_declarations<'t>(alloc: Global, text: &'t str) -> Option<Declarations<'t>> {
    let mut reader = Reader::new(alloc, text);
    let declarations = reader.read_declarations();
    if reader.is_done() {
        Some(declarations)
    } else {
        None
    }
}

/// The schema of a text; `None` where the text has another form, or memory is refused.
pub fn read_schema(alloc: Global, text: &str) -> Option<SchemaType<Scalar>> {
    let Declarations {
        query,
        mutation,
        types,
    } = read_declarations(alloc, text)?;
    let query = String::from_str(alloc, query).ok()?;
    let mutation = match mutation {
        Some(name) => Some(String::from_str(alloc, name).ok()?),
        None => None,
    };
    SchemaType::new(alloc, types, query, mutation).ok()
}

/// The same, which stays to the end of the program.
pub fn schema_of(alloc: Global, text: &str) -> Option<&'static SchemaType<Scalar>> {
    kept(alloc, read_schema(alloc, text).ok_or(()))
}

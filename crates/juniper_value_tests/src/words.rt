//! What is read of arguments and of lists, what is answered, and roots over types that are told by data.

ghost use Rattle.std.specs.Prelude.{◌∷◌, [], None, Some, codes, cond, false, length, true};
ghost use Rattle.std.specs.Str.{bytes_eq};
ghost use Rattle.graphql_spec.specs.Resolvers.{answered, node, nothing};
ghost use Rattle.graphql_spec.specs.Schema.{scalar_type};
ghost use Rattle.juniper_meta.specs.MetaView.{named_meta};
ghost use Rattle.juniper_registry.specs.DeclaredTypes.{type_named};
ghost use Rattle.juniper_values.specs.ResolvedView.{Answers};
ghost use Rattle.juniper_values.specs.ArgumentsRead.{with_read};
ghost use Rattle.juniper_words.specs.Forgotten.{unanswered_reply};
ghost use Rattle.juniper_words.specs.Nodes.{nodes_at, nodes_reply};
ghost use Rattle.juniper_words.specs.Replies.{count_reply, fails_with_code, found_or_code};
ghost use Rattle.juniper_value_tests.specs.declared.words.Episode.TheVariants as episodes;

use juniper_conversions::{ID, ResolveError};
use juniper_meta::{Argument, MetaType, ScalarKinds};
use juniper_registry::{GraphQLReference, GraphQLType, Registry};
use juniper_syntax::{DefaultScalarValue, InputValue, ScalarValue, Spanning, Type, Value};
use juniper_types::Executor;
use juniper_values::{Arguments, Resolved};
use juniper_words::Reference::{List, NonNull, NonNullList, Nullable};
use juniper_words::{
    Answer, DeclaredField, DeclaredInput, DeclaredType, EnumType, FieldOf, InputType, Literal,
    MutationType, Note, QueryType, bool_argument, boolean, count, fails_with_code, found_or,
    found_or_code, given, id_argument, is_answered, nodes, nodes_at, nodes_where, null, object,
    object_fields, object_or_null, served, served_query, served_with, text_argument, text_or_null,
    unanswered, value,
};
use std::alloc::{AllocError, Global};
use std::test::Fail;

/// What is read of a value, as it is printed, or the message of its error.
fn read<T: InputType<DefaultScalarValue> + std::fmt::Debug>(
    alloc: Global,
    value: &InputValue<DefaultScalarValue>,
) -> Result<String, AllocError> {
    match T::read_input(alloc, value) {
        Ok(value) => format!(in alloc; "{value:?}"),
        Err(ResolveError::Field(error)) => {
            let message = error.message();
            format!(in alloc; "error: {message}")
        }
        Err(ResolveError::Memory) => Err(AllocError),
    }
}

#[test]
fn lists_are_read_item_by_item(rt: HostRuntime) -> Result<(), Fail> {
    let alloc = rt.alloc();
    let one = InputValue::Scalar(DefaultScalarValue::Int(1));
    assert_eq!(rt; read::<Vec<i32>>(alloc, &one)?.as_str(), "[1]");
    assert_eq!(rt;
        read::<Option<i32>>(alloc, &InputValue::Null)?.as_str(),
        "None"
    );
    assert_eq!(rt;
        read::<bool>(alloc, &one)?.as_str(),
        "error: Expected `Boolean`, found another scalar"
    );
    let mut items = Vec::new(alloc);
    items.push(Spanning::unlocated(one))?;
    items.push(Spanning::unlocated(InputValue::Null))?;
    let list = InputValue::List(items);
    assert_eq!(rt;
        read::<Vec<Option<i32>>>(alloc, &list)?.as_str(),
        "[Some(1), None]"
    );
    assert_eq!(rt;
        read::<Vec<i32>>(alloc, &list)?.as_str(),
        "error: Expected GraphQL scalar, found: null"
    );
    Ok(())
}

#[test]
fn booleans_are_read_of_arguments(rt: HostRuntime) -> Result<(), Fail> {
    let alloc = rt.alloc();
    let mut registry: Registry<DefaultScalarValue> = Registry::empty(alloc);
    let mut declared = Vec::new(alloc);
    declared.push(registry.arg_with_default::<bool>("flag", &true, &())?)?;
    let arguments = Arguments::new(alloc, None, Some(declared.as_slice()))?;
    for (name, expected) in [("flag", Some(true)), ("other", None)] {
        match bool_argument(alloc, &arguments, name) {
            Ok(found) => assert_eq!(rt; found, expected),
            Err(_) => return Err(Fail::from(AllocError)),
        }
    }
    Ok(())
}

/// Arguments `text` and `id` with these defaults.
fn with_texts(
    alloc: Global,
    text: &str,
    id: &str,
) -> Result<Vec<Argument<DefaultScalarValue>>, AllocError> {
    let mut registry: Registry<DefaultScalarValue> = Registry::empty(alloc);
    let text = String::from_str(alloc, text)?;
    let id = ID::new(String::from_str(alloc, id)?);
    let mut declared = Vec::new(alloc);
    declared.push(registry.arg_with_default::<String>("text", &text, &())?)?;
    declared.push(registry.arg_with_default::<ID>("id", &id, &())?)?;
    Ok(declared)
}

#[test]
fn texts_are_read_of_arguments(rt: HostRuntime) -> Result<(), Fail> {
    let alloc = rt.alloc();
    let declared = with_texts(alloc, "a", "1000")?;
    let arguments = Arguments::new(alloc, None, Some(declared.as_slice()))?;
    match text_argument(alloc, &arguments, "text") {
        Ok(Some(text)) => assert_eq!(rt; text.as_str(), "a"),
        _ => return Err(Fail::from(AllocError)),
    }
    match id_argument(alloc, &arguments, "id") {
        Ok(Some(id)) => assert_eq!(rt; id.as_str(), "1000"),
        _ => return Err(Fail::from(AllocError)),
    }
    match id_argument(alloc, &arguments, "other") {
        Ok(None) => Ok(()),
        _ => Err(Fail::from(AllocError)),
    }
}

#[test]
fn arguments_that_are_missing_are_read_as_null(rt: HostRuntime) -> Result<(), Fail> {
    let alloc = rt.alloc();
    let mut registry: Registry<DefaultScalarValue> = Registry::empty(alloc);
    let mut declared = Vec::new(alloc);
    declared.push(registry.arg_with_default::<i32>("first", &7, &())?)?;
    let arguments = Arguments::new(alloc, None, Some(declared.as_slice()))?;
    for (name, expected) in [("first", "7"), ("other", "None")] {
        match given::<Option<i32>, DefaultScalarValue>(alloc, &arguments, name) {
            Ok(Some(found)) => assert_eq!(rt; format!(in alloc; "{found}")?.as_str(), expected),
            Ok(None) => assert_eq!(rt; "None", expected),
            Err(_) => return Err(Fail::from(AllocError)),
        }
    }
    let wanted: Result<i32, ResolveError<DefaultScalarValue>> = given(alloc, &arguments, "other");
    match wanted {
        Err(ResolveError::Field(error)) => {
            assert_eq!(rt; error.message(), "Expected GraphQL scalar, found: null");
            Ok(())
        }
        _ => Err(Fail::from(AllocError)),
    }
}

#[test]
fn nodes_are_answered_as_objects_or_as_null(rt: HostRuntime) -> Result<(), Fail> {
    let there: Answer<u8, DefaultScalarValue> = object_or_null(Some(7));
    assert!(rt; matches!(there, Ok(Resolved::Node(7))));
    let missing: Answer<u8, DefaultScalarValue> = object_or_null(None);
    assert!(rt; matches!(missing, Ok(Resolved::Null)));
    let object: Answer<u8, DefaultScalarValue> = object(1);
    assert!(rt; matches!(object, Ok(Resolved::Node(1))));
    let null: Answer<u8, DefaultScalarValue> = null();
    assert!(rt; matches!(null, Ok(Resolved::Null)));
    Ok(())
}

/// What is answered, as it is printed: a scalar, or the message and the extensions of an error.
fn shown(alloc: Global, answer: &Answer<u8, DefaultScalarValue>) -> Result<String, AllocError> {
    match answer {
        Ok(Resolved::Scalar(scalar)) => format!(in alloc; "{scalar:?}"),
        Ok(Resolved::Null) => format!(in alloc; "null"),
        Ok(_) => format!(in alloc; "a list or an object"),
        Err(ResolveError::Field(error)) => {
            let message = error.message();
            let extensions = error.extensions();
            format!(in alloc; "{message}: {extensions:?}")
        }
        Err(ResolveError::Memory) => Err(AllocError),
    }
}

/// An enum of one value.
#[derive(Clone, Copy, Debug, PartialEq, Eq)]
enum Episode {
    Jedi,
}

impl EnumType for Episode {
    ghost values = { episodes.Jedi ∷ [] };

    ghost name_of = { λ _. codes "JEDI" };

    fn values() -> &'static [Episode] {
        &[Episode::Jedi]
    }

    fn value_name(&self) -> &'static str {
        "JEDI"
    }
}

#[test]
fn values_of_enums_are_texts(rt: HostRuntime) -> Result<(), Fail> {
    let answer = value(rt.alloc(), Episode::Jedi);
    assert_eq!(rt; shown(rt.alloc(), &answer)?.as_str(), "String(\"JEDI\")");
    Ok(())
}

#[test]
fn answers_are_one_word(rt: HostRuntime) -> Result<(), Fail> {
    let alloc = rt.alloc();
    assert_eq!(rt; shown(alloc, &boolean(true))?.as_str(), "Boolean(true)");
    assert_eq!(rt; shown(alloc, &count(alloc, 3))?.as_str(), "Int(3)");
    let most = count(alloc, 2_147_483_647);
    assert_eq!(rt; shown(alloc, &most)?.as_str(), "Int(2147483647)");
    let more = count(alloc, 2_147_483_648);
    assert_eq!(rt; shown(alloc, &more)?.as_str(), "The number is no Int: Null");
    let text = text_or_null(alloc, Some("a"));
    assert_eq!(rt; shown(alloc, &text)?.as_str(), "String(\"a\")");
    assert_eq!(rt; shown(alloc, &text_or_null(alloc, None))?.as_str(), "null");
    Ok(())
}

#[test]
fn errors_have_a_code(rt: HostRuntime) -> Result<(), Fail> {
    let alloc = rt.alloc();
    let answer: Answer<u8, DefaultScalarValue> = fails_with_code(alloc, "No", "FORBIDDEN");
    match answer {
        Err(ResolveError::Field(error)) => {
            assert_eq!(rt; error.message(), "No");
            match error.extensions() {
                Value::Object(extensions) => {
                    assert_eq!(rt; extensions.field_count(), 1);
                    match extensions.get_field_value("code") {
                        Some(Value::Scalar(code)) => {
                            assert_eq!(rt; code.try_to_str(), Some("FORBIDDEN"));
                        }
                        _ => return Err(Fail::from(AllocError)),
                    }
                }
                _ => return Err(Fail::from(AllocError)),
            }
        }
        _ => return Err(Fail::from(AllocError)),
    }
    Ok(())
}

#[test]
fn what_is_missing_ends_early(rt: HostRuntime) -> Result<(), Fail> {
    let alloc = rt.alloc();
    let found: Result<i32, ResolveError<DefaultScalarValue>> = found_or(alloc, Some(1), "No");
    assert!(rt; matches!(found, Ok(1)));
    let missing: Result<i32, ResolveError<DefaultScalarValue>> = found_or(alloc, None, "No");
    match missing {
        Err(ResolveError::Field(error)) => {
            assert_eq!(rt; error.message(), "No");
            assert!(rt; error.extensions().is_null());
        }
        _ => return Err(Fail::from(AllocError)),
    }
    let coded: Result<i32, ResolveError<DefaultScalarValue>> = found_or_code(
        alloc,
        None,
        "No",
        "NOT_FOUND",
    );
    match coded {
        Err(ResolveError::Field(error)) => {
            assert_eq!(rt; error.message(), "No");
            assert!(rt; !error.extensions().is_null());
        }
        _ => return Err(Fail::from(AllocError)),
    }
    Ok(())
}

#[test]
fn nodes_stand_at_places(rt: HostRuntime) -> Result<(), Fail> {
    let alloc = rt.alloc();
    let nodes = nodes_at(alloc, &[3, 1], Some)?;
    assert_eq!(rt;
        format!(in alloc; "{nodes:?}")?.as_str(),
        "[Some(3), Some(1)]"
    );
    Ok(())
}

/// Words of arms and of their definition: nothing is written to prove them.
fn places_field<S: ScalarValue>(
    alloc: Global,
    field_name: &str,
    places: &[usize],
    found: Option<usize>,
) -> Answer<usize, S>
    ensures { Answers S.shown result (cond (bytes_eq field_name.now (codes "first"))
        (with_read (found_or_code (codes "No node") (codes "GONE") found) (λ place. answered (node place)))
        (cond (bytes_eq field_name.now (codes "all")) (nodes_reply (nodes_at (λ place. place) places.now)) unanswered_reply)) }
{
    match field_name {
        "first" => {
            let place = found_or_code(alloc, found, "No node", "GONE")?;
            object(place)
        }
        "all" => nodes(alloc, &nodes_at(alloc, places, |place| place)?),
        _ => unanswered(alloc),
    }
}

/// A count, and a field that is refused.
fn totals_field<S: ScalarValue>(
    alloc: Global,
    field_name: &str,
    places: &[usize],
) -> Answer<usize, S>
    ensures { Answers S.shown result (cond (bytes_eq field_name.now (codes "total")) (count_reply (length places.now))
        (cond (bytes_eq field_name.now (codes "secret")) (fails_with_code (codes "Not public") (codes "FORBIDDEN")) unanswered_reply)) }
{
    match field_name {
        "total" => count(alloc, places.len()),
        "secret" => fails_with_code(alloc, "Not public", "FORBIDDEN"),
        _ => unanswered(alloc),
    }
}

#[test]
fn words_stand_beside_one_another(rt: HostRuntime) -> Result<(), Fail> {
    let alloc = rt.alloc();
    let first = places_field::<DefaultScalarValue>(alloc, "first", &[3, 1], Some(3));
    assert!(rt; matches!(first, Ok(Resolved::Node(3))));
    let all = places_field::<DefaultScalarValue>(alloc, "all", &[3, 1], None);
    assert!(rt; is_answered(&all));
    let other = places_field::<DefaultScalarValue>(alloc, "other", &[3, 1], None);
    assert!(rt; !is_answered(&other));
    let total = totals_field::<DefaultScalarValue>(alloc, "total", &[3, 1]);
    assert!(rt; is_answered(&total));
    let untold = totals_field::<DefaultScalarValue>(alloc, "other", &[3, 1]);
    assert!(rt; !is_answered(&untold));
    Ok(())
}

/// A resolver that names one of its two fields.
fn tally_field(alloc: Global, field_name: &str) -> Answer<u8, DefaultScalarValue> {
    match field_name {
        "there" => null(),
        _ => unanswered(alloc),
    }
}

const THERE: DeclaredField = DeclaredField("there", &[], Nullable("Int"));

const FORGOTTEN: DeclaredField = DeclaredField("forgotten", &[], Nullable("Int"));

/// Two objects, of which the second has notes and is not asked about, two interfaces, an enum and a scalar.
static TALLIES: [DeclaredType; 6] = [
    DeclaredType::Object("Tally", &[], &[THERE, FORGOTTEN]),
    DeclaredType::Interface("Counted", &[THERE]),
    DeclaredType::SubInterface("Summed", &["Counted"], &[THERE]),
    DeclaredType::Enum("Size", &["SMALL"]),
    DeclaredType::Scalar("Sum", NO_KINDS, None),
    DeclaredType::Noted(
        &DeclaredType::Object("Other", &[], &[THERE]),
        &[Note::About("Other.")],
    ),
];

const NO_KINDS: ScalarKinds = ScalarKinds {
    int: false,
    text: false,
    boolean: false,
};

fn asks(alloc: Global, field: &FieldOf) -> bool {
    match field.type_name {
        "Tally" => is_answered(&tally_field(alloc, field.field_name)),
        _ => false,
    }
}

#[test]
fn forgotten_fields_are_found(rt: HostRuntime) -> Result<(), Fail> {
    let alloc = rt.alloc();
    let mut line = String::new(alloc);
    for field in &object_fields(alloc, &TALLIES)? {
        if !asks(alloc, field) {
            write!(line, "{}.{} ", field.type_name, field.field_name)?;
        }
    }
    assert_eq!(rt; line.as_str(), "Tally.forgotten Other.there ");
    Ok(())
}

#[test]
fn nodes_of_entries_are_their_places(rt: HostRuntime) -> Result<(), Fail> {
    let alloc = rt.alloc();
    let long = nodes_where(
        alloc,
        &["ab", "c", "", "def"],
        |place| place + 10,
        |text| text.len() > 1,
    )?;
    assert_eq!(rt; format!(in alloc; "{long:?}")?.as_str(), "[10, 13]");
    let none = nodes_where(alloc, &["ab"], |place| place, |text| text.is_empty())?;
    assert!(rt; none.is_empty());
    Ok(())
}

/// A node, and a mutation that answers null.
#[derive(Drop)]
struct Greeter;

impl QueryType<DefaultScalarValue> for Greeter {
    type Context = ();

    type Node = u8;

    ghost concrete = { λ _. codes "Query" };

    ghost answer = { λ _ _ _ _. answered (node 1) };

    ghost root = { λ _. 0 };

    fn root_node(&self) -> &u8 {
        &0
    }

    fn concrete_type_name(_node: &u8) -> &'static str {
        "Query"
    }

    fn resolve_field(
        _alloc: Global,
        _node: &u8,
        _field_name: &str,
        _arguments: &Arguments<'_, DefaultScalarValue>,
        _executor: &Executor<(), DefaultScalarValue>,
    ) -> Answer<u8, DefaultScalarValue> {
        object(1)
    }
}

impl MutationType<DefaultScalarValue> for Greeter {
    type Context = ();

    type Node = u8;

    ghost step = { λ c _ _. (c, answered nothing) };

    ghost torn = { λ _ _. false };

    fn resolve_root(
        _alloc: Global,
        _field_name: &str,
        _arguments: &Arguments<'_, DefaultScalarValue>,
        _executor: &Executor<(), DefaultScalarValue>,
        _context: &mut (),
    ) -> Answer<u8, DefaultScalarValue> {
        null()
    }
}

const TRUTH: Option<Literal> = Some(Literal::Boolean(true));

const A: DeclaredInput = DeclaredInput("a", NonNull("Int"), Some(Literal::Int(1)));

const B: DeclaredInput = DeclaredInput("b", Nullable("ID"), Some(Literal::Null));

const C: DeclaredInput = DeclaredInput("c", NonNull("String"), Some(Literal::Text("c")));

const D: DeclaredInput = DeclaredInput("d", NonNull("Boolean"), TRUTH);

const E: DeclaredInput = DeclaredInput("e", NonNull("Letter"), Some(Literal::Enum("E")));

const F: DeclaredInput = DeclaredInput("f", Nullable("Letters"), None);

const NAME: DeclaredField = DeclaredField("name", &[], NonNull("String"));

const FOUND: DeclaredField = DeclaredField("found", &[A, B, C, D, E, F], List(&Nullable("Found")));

const KIN: DeclaredField = DeclaredField("kin", &[], NonNullList(&NonNull("Kin")));

const QUERY: DeclaredType = DeclaredType::Object("Query", &["Kin"], &[NAME, FOUND, KIN]);

const MUTATION: DeclaredType = DeclaredType::Object("Mutation", &[], &[NAME]);

const KIN_TYPE: DeclaredType = DeclaredType::Interface("Kin", &[NAME]);

const FOUND_TYPE: DeclaredType = DeclaredType::Union("Found", &["Query"]);

const LETTER: DeclaredType = DeclaredType::Enum("Letter", &["D", "E"]);

const LETTERS: DeclaredType = DeclaredType::InputObject("Letters", &[A, E]);

static ALL: [DeclaredType; 6] = [QUERY, MUTATION, KIN_TYPE, FOUND_TYPE, LETTER, LETTERS];

static TWICE: [DeclaredType; 2] = [MUTATION, MUTATION];

static NO_QUERY: [DeclaredType; 1] = [MUTATION];

/// Whether a query over these types makes a root.
fn is_query_root(alloc: Global, types: &[DeclaredType]) -> bool {
    served_query::<Greeter, DefaultScalarValue>(alloc, Greeter, types).is_ok()
}

/// Whether a query and a mutation over these types make a root.
fn is_root(alloc: Global, types: &[DeclaredType]) -> bool {
    served::<Greeter, Greeter, DefaultScalarValue>(alloc, Greeter, Greeter, types).is_ok()
}

/// A scalar that is declared by impls: `scalar Letters`.
#[derive(Drop)]
struct Cipher;

impl<S: ScalarValue> GraphQLReference<S> for Cipher {
    type TypeInfo = ();

    ghost named = { λ _. Some (codes "Letters") };

    ghost reference = { λ _. type_named (codes "Letters") };

    fn name(_info: &()) -> Option<&str> {
        Some("Letters")
    }

    fn type_in(
        _alloc: Global,
        _info: &(),
        registry: &mut Registry<S>,
    ) -> Result<Type<String>, AllocError> {
        registry.named_type("Letters")
    }
}

impl<S: ScalarValue> GraphQLType<S> for Cipher {
    ghost declaration = { λ _. named_meta (codes "Letters") (scalar_type (record { int = false; text = true; boolean = false }) None) };

    fn meta(
        _alloc: Global,
        _info: &(),
        registry: &mut Registry<S>,
    ) -> Result<MetaType<S>, AllocError> {
        let texts = ScalarKinds {
            int: false,
            text: true,
            boolean: false,
        };
        let scalar = registry.build_scalar_type::<Cipher>(&(), texts)?;
        Ok(scalar.into_meta())
    }

    ghost keeps_name = { λ _ _ e. e };
}

/// Types of which one refers to that scalar, which is not among them.
static BUT_LETTERS: [DeclaredType; 5] = [QUERY, MUTATION, KIN_TYPE, FOUND_TYPE, LETTER];

/// Whether a query and a mutation over these types, beside that scalar where it is registered, make a root.
fn is_root_beside(
    alloc: Global,
    types: &[DeclaredType],
    is_registered: bool,
) -> Result<bool, AllocError> {
    let mut more: Registry<DefaultScalarValue> = Registry::empty(alloc);
    if is_registered && more.register::<Cipher>(&()).is_err() {
        return Err(AllocError);
    }
    let root = served_with::<Greeter, Greeter, DefaultScalarValue>(
        alloc, Greeter, Greeter, types, more,
    );
    Ok(root.is_ok())
}

#[test]
fn types_by_impls_stand_beside_data(rt: HostRuntime) -> Result<(), Fail> {
    let alloc = rt.alloc();
    assert!(rt; is_root_beside(alloc, &BUT_LETTERS, true)?);
    assert!(rt; !is_root_beside(alloc, &BUT_LETTERS, false)?);
    assert!(rt; is_root_beside(alloc, &ALL, false)?);
    assert!(rt; !is_root_beside(alloc, &ALL, true)?);
    Ok(())
}

#[test]
fn roots_are_made_over_types_that_are_told(rt: HostRuntime) -> Result<(), Fail> {
    assert!(rt; is_root(rt.alloc(), &ALL));
    assert!(rt; is_query_root(rt.alloc(), &ALL));
    assert!(rt; !is_query_root(rt.alloc(), &TWICE));
    assert!(rt; !is_root(rt.alloc(), &NO_QUERY));
    Ok(())
}

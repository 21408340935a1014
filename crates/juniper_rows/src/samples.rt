//! Types of GraphQL, one of each kind, as types of Rust.

ghost use Rattle.std.specs.Prelude.{◌≡◌, [], ◌∷◌, IfOk, Some, codes, false, map, pos};
ghost use Rattle.graphql_spec.specs.Inputs.{scalar};
ghost use Rattle.graphql_spec.specs.Schema.{plain_field, plain_input};
ghost use Rattle.graphql_spec.specs.Shown.{boolean, int, text};
ghost use Rattle.juniper_meta.specs.MetaView.{view_field};
ghost use Rattle.juniper_registry.specs.DeclaredTypes.{enum, input_object, input_with_default, interface, list_type, object, optional, type_named, union};

use juniper_conversions::ID;
use juniper_meta::MetaType;
use juniper_meta::meta::Field;
use juniper_registry::{GraphQLReference, GraphQLType, Registry};
use juniper_syntax::{ScalarValue, Type};
use std::alloc::{AllocError, Global};

/// `enum Episode { NEWHOPE JEDI }`
#[derive(Drop)]
pub struct Episode;

impl<S: ScalarValue> GraphQLReference<S> for Episode {
    type TypeInfo = ();

    ghost named = { λ _. Some (codes "Episode") };

    ghost reference = { λ _. type_named (codes "Episode") };

    fn name(_info: &()) -> Option<&str> {
        Some("Episode")
    }

    fn type_in(
        _alloc: Global,
        _info: &(),
        registry: &mut Registry<S>,
    ) -> Result<Type<String>, AllocError> {
        registry.named_type("Episode")
    }
}

impl<S: ScalarValue> GraphQLType<S> for Episode {
    ghost declaration = { λ _. enum (codes "Episode") (codes "NEWHOPE" ∷ codes "JEDI" ∷ []) };

    fn meta(
        _alloc: Global,
        _info: &(),
        registry: &mut Registry<S>,
    ) -> Result<MetaType<S>, AllocError> {
        registry.enum_type("Episode", &["NEWHOPE", "JEDI"])
    }

    ghost keeps_name = { λ _ _ e. e };
}

/// `interface Character { id: ID! }`
#[derive(Drop)]
pub struct Character;

impl<S: ScalarValue> GraphQLReference<S> for Character {
    type TypeInfo = ();

    ghost named = { λ _. Some (codes "Character") };

    ghost reference = { λ _. type_named (codes "Character") };

    fn name(_info: &()) -> Option<&str> {
        Some("Character")
    }

    fn type_in(
        _alloc: Global,
        _info: &(),
        registry: &mut Registry<S>,
    ) -> Result<Type<String>, AllocError> {
        registry.named_type("Character")
    }
}

impl<S: ScalarValue> GraphQLType<S> for Character {
    ghost declaration = { λ _. interface (codes "Character") (plain_field (codes "id") [] (type_named (codes "ID")) ∷ []) };

    fn meta(
        _alloc: Global,
        _info: &(),
        registry: &mut Registry<S>,
    ) -> Result<MetaType<S>, AllocError> {
        let fields = character_fields(registry)?;
        registry.interface_type("Character", fields)
    }

    ghost keeps_name = { λ _ _ e. e };
}

/// The fields of `Character`, which its objects have too.
fn character_fields<S: ScalarValue>(registry: &mut Registry<S>) -> Result<[Field<S>; 1], AllocError>
    ensures { IfOk result (λ fields. map (view_field S.shown) fields ≡ plain_field (codes "id") [] (type_named (codes "ID")) ∷ []) }
{
    Ok([registry.field::<ID>("id", &())?])
}

/// `type Human implements Character { id: ID! episodes: [Episode!]! friends(first: Int = 3, review: Review): [Human] }`
#[derive(Drop)]
pub struct Human;

impl<S: ScalarValue> GraphQLReference<S> for Human {
    type TypeInfo = ();

    ghost named = { λ _. Some (codes "Human") };

    ghost reference = { λ _. type_named (codes "Human") };

    fn name(_info: &()) -> Option<&str> {
        Some("Human")
    }

    fn type_in(
        _alloc: Global,
        _info: &(),
        registry: &mut Registry<S>,
    ) -> Result<Type<String>, AllocError> {
        registry.named_type("Human")
    }
}

impl<S: ScalarValue> GraphQLType<S> for Human {
    ghost declaration = { λ _. object (codes "Human") (
        plain_field (codes "id") [] (type_named (codes "ID"))
        ∷ plain_field (codes "episodes") [] (list_type (type_named (codes "Episode")))
        ∷ plain_field (codes "friends") (
        input_with_default (codes "first") (optional (type_named (codes "Int"))) (scalar (int (pos 3)))
        ∷ plain_input (codes "review") (optional (type_named (codes "Review")))
        ∷ []) (optional (list_type (optional (type_named (codes "Human")))))
        ∷ []) (codes "Character" ∷ []) };

    fn meta(
        alloc: Global,
        _info: &(),
        registry: &mut Registry<S>,
    ) -> Result<MetaType<S>, AllocError> {
        let mut arguments = Vec::new(alloc);
        arguments.push(registry.arg_with_default::<Option<i32>>("first", &Some(3), &())?)?;
        arguments.push(registry.arg::<Option<Review>>("review", &())?)?;
        let fields = character_fields(registry)?;
        let own = [
            registry.field::<Vec<Episode>>("episodes", &())?,
            registry.field_with_all::<Option<Vec<Option<Human>>>>("friends", arguments, &())?,
        ];
        registry.object_type_of("Human", fields, own, &["Character"])
    }

    ghost keeps_name = { λ _ _ e. e };
}

/// `union Found = Human | Droid`
#[derive(Drop)]
pub struct Found;

impl<S: ScalarValue> GraphQLReference<S> for Found {
    type TypeInfo = ();

    ghost named = { λ _. Some (codes "Found") };

    ghost reference = { λ _. type_named (codes "Found") };

    fn name(_info: &()) -> Option<&str> {
        Some("Found")
    }

    fn type_in(
        _alloc: Global,
        _info: &(),
        registry: &mut Registry<S>,
    ) -> Result<Type<String>, AllocError> {
        registry.named_type("Found")
    }
}

impl<S: ScalarValue> GraphQLType<S> for Found {
    ghost declaration = { λ _. union (codes "Found") (codes "Human" ∷ codes "Droid" ∷ []) };

    fn meta(
        _alloc: Global,
        _info: &(),
        registry: &mut Registry<S>,
    ) -> Result<MetaType<S>, AllocError> {
        registry.union_type("Found", &["Human", "Droid"])
    }

    ghost keeps_name = { λ _ _ e. e };
}

/// `input Review { stars: Int! = 5 text: String! = "good" sure: Boolean! = false by: ID! = "me" film: Episode }`
#[derive(Drop)]
pub struct Review;

impl<S: ScalarValue> GraphQLReference<S> for Review {
    type TypeInfo = ();

    ghost named = { λ _. Some (codes "Review") };

    ghost reference = { λ _. type_named (codes "Review") };

    fn name(_info: &()) -> Option<&str> {
        Some("Review")
    }

    fn type_in(
        _alloc: Global,
        _info: &(),
        registry: &mut Registry<S>,
    ) -> Result<Type<String>, AllocError> {
        registry.named_type("Review")
    }
}

impl<S: ScalarValue> GraphQLType<S> for Review {
    ghost declaration = { λ _. input_object (codes "Review") (
        input_with_default (codes "stars") (type_named (codes "Int")) (scalar (int (pos 5)))
        ∷ input_with_default (codes "text") (type_named (codes "String")) (scalar (text (codes "good")))
        ∷ input_with_default (codes "sure") (type_named (codes "Boolean")) (scalar (boolean false))
        ∷ input_with_default (codes "by") (type_named (codes "ID")) (scalar (text (codes "me")))
        ∷ plain_input (codes "film") (optional (type_named (codes "Episode")))
        ∷ []) };

    fn meta(
        alloc: Global,
        _info: &(),
        registry: &mut Registry<S>,
    ) -> Result<MetaType<S>, AllocError> {
        let good = String::from_str(alloc, "good")?;
        let me = ID::new(String::from_str(alloc, "me")?);
        let mut fields = Vec::new(alloc);
        fields.push(registry.arg_with_default::<i32>("stars", &5, &())?)?;
        fields.push(registry.arg_with_default::<String>("text", &good, &())?)?;
        fields.push(registry.arg_with_default::<bool>("sure", &false, &())?)?;
        fields.push(registry.arg_with_default::<ID>("by", &me, &())?)?;
        fields.push(registry.arg::<Option<Episode>>("film", &())?)?;
        registry.input_object_type("Review", fields)
    }

    ghost keeps_name = { λ _ _ e. e };
}

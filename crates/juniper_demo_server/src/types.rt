//! The demo's types (section 3 of the Specification).

ghost use Rattle.std.specs.Prelude.{◌≡◌, map};
ghost use Rattle.juniper.specs.Server.{declared};
ghost use Rattle.juniper_demo_server.specs.DemoTypes.{demo_declarations};

use juniper::words::DeclaredType::{Enum, Interface, Object};
use juniper::words::Reference::{List, NonNull, NonNullList, Nullable};
use juniper::words::{DeclaredField as Field, DeclaredInput as Input, DeclaredType, Literal};

const PLUS: Input = Input("plus", Nullable("Int"), Some(Literal::Int(1)));

const EPISODE: Input = Input("episode", Nullable("Episode"), None);

const NUMBER: Field = Field("number", &[PLUS], Nullable("Int"));

const NOTHING: Field = Field("nothing", &[], Nullable("String"));

const FAIL: Field = Field("fail", &[], Nullable("Int"));

const ODD: Field = Field("odd", &[], Nullable("Int"));

const HERO: Field = Field("hero", &[EPISODE], Nullable("Character"));

const MUST_HERO: Field = Field("mustHero", &[], NonNull("Character"));

const IDS: Field = Field("ids", &[], List(&NonNull("Int")));

const GRID: Field = Field("grid", &[], List(&NonNullList(&NonNull("Cell"))));

const HOLES: Field = Field("holes", &[], NonNullList(&NonNullList(&Nullable("Cell"))));

const NEXT: Input = Input("n", NonNull("Int"), None);

const ADD: Field = Field("add", &[NEXT], NonNull("Tally"));

const MUST_FAIL: Field = Field("fail", &[], NonNull("Int"));

const TOTAL: Field = Field("total", &[], NonNull("Int"));

const COUNT: Field = Field("count", &[], NonNull("Int"));

const ID: Field = Field("id", &[], NonNull("ID"));

const NAME: Field = Field("name", &[], NonNull("String"));

const APPEARS_IN: Field = Field("appearsIn", &[], NonNullList(&NonNull("Episode")));

const FRIENDS: Field = Field("friends", &[], List(&Nullable("Character")));

const SECRET: Field = Field("secret", &[], NonNull("String"));

const PRIMARY_FUNCTION: Field = Field("primaryFunction", &[], Nullable("String"));

const HEIGHT: Field = Field("height", &[], Nullable("Int"));

const A: Field = Field("a", &[], NonNull("Int"));

const B: Field = Field("b", &[], NonNull("Int"));

/// `type Query`.
pub const QUERY: DeclaredType = Object(
    "Query",
    &[],
    &[
        ID, NAME, NUMBER, NOTHING, FAIL, ODD, HERO, MUST_HERO, IDS, GRID, HOLES,
    ],
);

/// `interface Character`.
pub const CHARACTER: DeclaredType = Interface(
    "Character",
    &[ID, NAME, APPEARS_IN, FRIENDS, SECRET],
);

/// `type Droid implements Character`.
pub const DROID: DeclaredType = Object(
    "Droid",
    &["Character"],
    &[ID, NAME, APPEARS_IN, FRIENDS, SECRET, PRIMARY_FUNCTION],
);

/// `type Human implements Character`.
pub const HUMAN: DeclaredType = Object(
    "Human",
    &["Character"],
    &[ID, NAME, APPEARS_IN, FRIENDS, SECRET, HEIGHT],
);

/// `type Cell`.
pub const CELL: DeclaredType = Object("Cell", &[], &[A, B]);

/// `enum Episode`.
pub const EPISODES: DeclaredType = Enum("Episode", &["NEWHOPE", "EMPIRE", "JEDI"]);

static TYPES: [DeclaredType; 8] = [
    QUERY,
    Object("Mutation", &[], &[ADD, MUST_FAIL]),
    Object("Tally", &[], &[TOTAL, COUNT]),
    CHARACTER,
    DROID,
    HUMAN,
    CELL,
    EPISODES,
];

/// The types of the demo.
#[tactic(auto, unfolding(graphql_spec::specs::Schema::plain_field, graphql_spec::specs::Schema::plain_input, graphql_spec::specs::Types::nullable))]
pub fn demo_types() -> &'static [DeclaredType]
    ensures { map declared result.now ≡ demo_declarations }
{
    &TYPES
}

//! The tracker's types (section 3 of the Specification).

use juniper::ScalarKinds;
use juniper::words::DeclaredType::{
    Enum, InputObject, Interface, Noted, Object, Scalar, SubInterface, Union,
};
use juniper::words::Note::{About, AboutArgument, AboutPart, Deprecated};
use juniper::words::Reference::{NonNull, NonNullList, Nullable};
use juniper::words::{DeclaredField as Field, DeclaredInput as Input, DeclaredType, Literal};

const TEXTS: ScalarKinds = ScalarKinds {
    int: false,
    text: true,
    boolean: false,
};

const COLOR: DeclaredType = Scalar("Color", TEXTS, None);

const BOTH: Literal = Literal::List(&[Literal::Enum("OPEN"), Literal::Enum("CLOSED")]);

const ALL: Literal = Literal::Object(&[("states", BOTH)]);

const PAGED: &[Input] = &[
    Input("filter", NonNull("IssueFilter"), Some(ALL)),
    Input("first", Nullable("Int"), Some(Literal::Int(10))),
    Input("after", Nullable("ID"), None),
];

const TEXT: Input = Input("text", NonNull("String"), None);

const OF_ID: Input = Input("id", NonNull("ID"), None);

const QUERY: &[Field] = &[
    Field("issues", PAGED, NonNull("IssueConnection")),
    Field("issue", &[OF_ID], Nullable("Issue")),
    Field("node", &[OF_ID], Nullable("Node")),
    Field("search", &[TEXT], NonNullList(&NonNull("SearchResult"))),
];

const INPUT: Input = Input("input", NonNull("CreateIssueInput"), None);

const TO: Input = Input("state", NonNull("State"), None);

const MUTATION: &[Field] = &[
    Field("createIssue", &[INPUT], NonNull("Issue")),
    Field("setState", &[OF_ID, TO], Nullable("Issue")),
];

const ID: Field = Field("id", &[], NonNull("ID"));

const AUTHOR: Field = Field("author", &[], Nullable("User"));

const USER: &[Field] = &[
    ID,
    Field("login", &[], NonNull("String")),
    Field("email", &[], NonNull("String")),
];

const ISSUE: &[Field] = &[
    ID,
    AUTHOR,
    Field("title", &[], NonNull("String")),
    Field("state", &[], NonNull("State")),
    Field("color", &[], NonNull("Color")),
];

const CONNECTION: &[Field] = &[
    Field("nodes", &[], NonNullList(&NonNull("Issue"))),
    Field("totalCount", &[], NonNull("Int")),
    Field("hasNextPage", &[], NonNull("Boolean")),
    Field("endCursor", &[], Nullable("ID")),
];

const FILTER: &[Input] = &[
    Input("states", NonNullList(&NonNull("State")), None),
    Input("author", Nullable("ID"), None),
];

const NEW: &[Input] = &[
    Input("title", NonNull("String"), None),
    Input("author", NonNull("ID"), None),
    Input("color", NonNull("Color"), None),
];

/// The types of the tracker: queries, mutations, and what these lead to.
pub static TYPES: [DeclaredType; 12] = [
    Noted(
        &Object("Query", &[], QUERY),
        &[
            AboutPart(
                "search",
                "Issues whose title begins so, and users whose login does.",
            ),
            AboutArgument("issues", "first", "How many, from 0 to 100."),
            Deprecated("issue", "Use `node`."),
        ],
    ),
    Object("Mutation", &[], MUTATION),
    Interface("Node", &[ID]),
    SubInterface("Authored", &["Node"], &[ID, AUTHOR]),
    Object("User", &["Node"], USER),
    Object("Issue", &["Authored", "Node"], ISSUE),
    Union("SearchResult", &["Issue", "User"]),
    Object("IssueConnection", &[], CONNECTION),
    Enum("State", &["OPEN", "CLOSED"]),
    Noted(&COLOR, &[About("A colour, as #rrggbb.")]),
    InputObject("IssueFilter", FILTER),
    InputObject("CreateIssueInput", NEW),
];

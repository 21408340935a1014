//! Schemas, types and values from texts, given values of variables, and a scalar type of one's own: for tests.
//!
//! A text of a schema is written as in the language for type systems (section 3 of the Specification), with these own forms:
//! - `query N`, then `mutation N` may stand first and name the root types; else `Query` is the query type, and there is no
//!   mutation type.
//! - `bare` may stand next: what no text declares is then left out, which is there else. That is placeholders `Int` and `ID`,
//!   and a last field `__typename: String!` of objects and interfaces that declare no `__typename`.
//! - Each interface that is listed stands behind a `&`, and each member of a union behind a `|`.
//! - `scalar Date int text boolean` says which kinds it accepts, in this order.
//! - `placeholder N`, `list N`, `nullable N` declare what stands in a registry alone.
//! - `@ Key` behind the name of an entry puts it at that key, in place of its name.
//! - `[Int;2]` is a list of the expected size 2.
//! - A `#` ends the text.
//!
//! The description of an entry is its first word, and the URL of a scalar is `there`. Fields are described as `field` and
//! deprecated as `old`, values of enums are described as `value` and deprecated without a reason, but for those that stand
//! behind a `;`, which are not deprecated; arguments and fields of input objects are described as `argument`. A text among
//! values has no blanks, commas and marks.
//!
//! What tests make stays to the end of the program: so they hold references alone, and what is proved of them is short.
#![tactic(auto)]

mod entries;
mod given;
mod members;
mod reader;
mod scalar;
mod values;

pub use entries::{Declarations, kept, placed, read_declarations, read_schema, schema_of};
pub use given::given_values;
pub use reader::{Reader, Scalar};
pub use scalar::OtherScalar;

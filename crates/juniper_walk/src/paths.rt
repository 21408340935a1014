//! Response keys, and paths to fields (sections 2.7 and 7.1.2 of the Specification).

ghost use Rattle.std.specs.Prelude.{◌≡◌, ◌++◌, ◌∷◌, [], IfOk};
ghost use Rattle.graphql_spec.specs.Documents.{response_key};
ghost use Rattle.graphql_spec.specs.Errors.{key};
ghost use Rattle.juniper_conversions.specs.PathView.{path_place};
ghost use Rattle.juniper_walk.specs.FieldWords.{head_of};

use juniper_conversions::FieldPath;
use juniper_syntax::{Field, ScalarValue, SourcePosition, Span, Spanning};
use std::alloc::{AllocError, Global};
use std::rc::Rc;

/// The path of the root: no steps.
pub fn root_path<'a>(alloc: Global, start: SourcePosition) -> Result<Rc<FieldPath<'a>>, AllocError>
    ensures { IfOk result (λ made. path_place made.value ≡ []) }
{
    let made = Rc::new(alloc, FieldPath::Root(start))?;
    Ok(made)
}

/// The path to a field below this path.
pub fn path_below<'a, S: ScalarValue>(
    alloc: Global,
    path: &Rc<FieldPath<'a>>,
    field: &Spanning<Field<'a, S>, Span>,
) -> Result<Rc<FieldPath<'a>>, AllocError>
    ensures { IfOk result (λ made. path_place made.value ≡ path_place path.now.value ++ key (response_key (head_of S.shown field.now)) ∷ []) }
{
    let parent = path.clone()?;
    let made = Rc::new(
        alloc,
        FieldPath::Field(Field::response_key(field), field.span.start, parent),
    )?;
    Ok(made)
}

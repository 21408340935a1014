//! The fragments of a document by name.

ghost use Rattle.std.specs.Prelude.{◌≡◌, [], ◌∷◌, IfOk, OnOk, map, option_map};
ghost use Rattle.std.specs.Option.{option_or};
ghost use Rattle.graphql_spec.specs.Shown.{Name};
ghost use Rattle.graphql_spec.specs.Documents.{Document, fragments};
ghost use Rattle.graphql_spec.specs.Fragments.{fragment_of};
ghost use Rattle.juniper_syntax.specs.DocumentView.{view_definition, view_fragment};
ghost use Rattle.juniper_written.specs.SpreadsView.{AreFragmentsOf, AreSpreadsOf, fragment_at, spread_by, spreads_at};

use crate::groups::{Groups, grouped};
use crate::reach::SpreadsByName;
use crate::{NameMap, written_in};
use juniper_syntax::{Definition, Fragment, ScalarValue, Span, Spanning};
use std::alloc::{AllocError, Global};

/// The fragments of a document by name, of those of one name the first (2.8).
#[derive(Drop)]
pub struct FragmentsByName<'d, 'a, S> {
    /// The fragments.
    pub fragments: NameMap<'a, &'d Spanning<Fragment<'a, S>, Span>>,
    /// The names that each of them spreads, at any depth, in document order.
    pub spreads: SpreadsByName<'a>,
    /// The root of each one's group: the fragments of a group lead to one another (5.5.2.2).
    pub groups: Groups<'a>,
}

/// The fragments of a document by name; the time grows with the size of the document. An error where memory is
/// refused.
pub fn fragments_by_name<'d, 'a, S: ScalarValue>(
    alloc: Global,
    document: &'d [Definition<'a, S>],
) -> Result<FragmentsByName<'d, 'a, S>, AllocError>
    ensures { IfOk result (λ r. AreFragmentsOf S.shown r (map (view_definition S.shown) document.now)) }
{
    let fragments = first_fragments(alloc, document)?;
    let spreads = first_spreads(alloc, document)?;
    let groups = grouped(alloc, &spreads)?;
    Ok(FragmentsByName {
        fragments,
        spreads,
        groups,
    })
}

impl<'d, 'a, S: ScalarValue> FragmentsByName<'d, 'a, S> {
    /// The first fragment of a name.
    pub fn fragment(&self, name: &str) -> Option<&'d Spanning<Fragment<'a, S>, Span>>
        ensures { (d : Document) → AreFragmentsOf S.shown self.now d →
            option_map (λ f. view_fragment S.shown f.now) result ≡ fragment_of (fragments d) name.now }
    {
        self.fragments.get(name).copied()
    }
}

/// The first fragment of each name.
fn first_fragments<'d, 'a, S: ScalarValue>(
    alloc: Global,
    document: &'d [Definition<'a, S>],
) -> Result<NameMap<'a, &'d Spanning<Fragment<'a, S>, Span>>, AllocError>
    ensures { IfOk result (λ r. (k : Name) → fragment_at S.shown r k ≡ fragment_of (fragments (map (view_definition S.shown) document.now)) k) }
{
    let mut first = NameMap::new(alloc);
    for definition in document {
        put_fragment(definition, &mut first)?;
    }
    Ok(first)
}

/// Puts a fragment in, where none of its name is there.
fn put_fragment<'d, 'a, S: ScalarValue>(
    definition: &'d Definition<'a, S>,
    first: &mut NameMap<'a, &'d Spanning<Fragment<'a, S>, Span>>,
) -> Result<(), AllocError>
    ensures { OnOk result ((k : Name) → fragment_at S.shown first.new k
        ≡ option_or (fragment_at S.shown first.old k) (fragment_of (fragments (view_definition S.shown definition.now ∷ [])) k)) }
{
    match definition {
        Definition::Fragment(fragment) => first.put_first(fragment.item.name.item, fragment),
        Definition::Operation(_) => Ok(()),
    }
}

/// What the first fragment of each name spreads.
fn first_spreads<'a, S: ScalarValue>(
    alloc: Global,
    document: &[Definition<'a, S>],
) -> Result<SpreadsByName<'a>, AllocError>
    ensures { IfOk result (λ r. AreSpreadsOf r (fragments (map (view_definition S.shown) document.now))) }
{
    let mut first = NameMap::new(alloc);
    for definition in document {
        put_spreads(alloc, definition, &mut first)?;
    }
    Ok(first)
}

/// Puts what a fragment spreads in, where nothing is there for its name.
fn put_spreads<'a, S: ScalarValue>(
    alloc: Global,
    definition: &Definition<'a, S>,
    spreads: &mut SpreadsByName<'a>,
) -> Result<(), AllocError>
    ensures { OnOk result ((k : Name) → spread_by spreads.new k ≡ option_or (spread_by spreads.old k)
        (spreads_at (fragments (view_definition S.shown definition.now ∷ [])) k)) }
{
    match definition {
        Definition::Fragment(fragment) => {
            let written = written_in(alloc, definition)?;
            spreads.put_first(fragment.item.name.item, written.spreads)
        }
        Definition::Operation(_) => Ok(()),
    }
}

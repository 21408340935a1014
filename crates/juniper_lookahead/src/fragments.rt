//! The fragments of a document, each found by its name (section 2.8 of the Specification).
//!
//! Names are chosen by whoever sends the document, and a hash map takes a step for each name of the same hash: so fragments
//! are collected by the order of their names. The hash map is for look-ahead, which is lent one, and is here only inserted into.

ghost use Rattle.std.specs.Prelude.{◌≡◌, ◌≤◌, [], ◌∷◌, IfOk, OnOk, IfSome, map, length};
ghost use Rattle.std.specs.Option.{option_or, option_map};
ghost use Rattle.graphql_spec.specs.Shown.{Name};
ghost use Rattle.graphql_spec.specs.Documents.{fragments};
ghost use Rattle.juniper_syntax.specs.DocumentView.{view_definition};
ghost use Rattle.graphql_spec.specs.Fragments.{HasNoCycle, fragment_of};
ghost use Rattle.juniper_lookahead.specs.Expansion.{IsAcyclic, fragments_among};
ghost use Rattle.juniper_lookahead.specs.Choices.{core};
ghost use Rattle.juniper_lookahead.specs.FragmentView.{ExpandAlike, IsMade, fragment_at, fragment_in_order, fragment_named, fragments_in};
ghost use Rattle.juniper_lookahead.specs.Nesting.{deepest_of, nesting, view_core};

use juniper_syntax::{Definition, Fragment, Fragments, ScalarValue};
use std::alloc::{AllocError, Global};
use std::collections::{BTreeMap, HashMap};

/// Fragments in the order of their names.
type FragmentsInOrder<'d, 'a, S> = BTreeMap<&'a str, &'d Fragment<'a, S>>;

/// The fragments of a document, made once for a request: in the order of their names, and as look-ahead is lent them.
#[derive(Drop)]
pub struct FragmentMap<'d, 'a, S> {
    pub(crate) document: &'d [Definition<'a, S>],
    pub(crate) ordered: FragmentsInOrder<'d, 'a, S>,
    pub(crate) lent: Fragments<'d, 'a, S>,
    pub(crate) count: usize,
}

/// The fragments of a document: each definition is gone over once, and each fragment is put into either map once. An error where memory is refused.
pub fn fragments_of<'d, 'a, S: ScalarValue>(
    alloc: Global,
    document: &'d [Definition<'a, S>],
) -> Result<FragmentMap<'d, 'a, S>, AllocError>
    ensures is { IfOk result (λ m. fragments_in S.shown m ≡ fragments (map (view_definition S.shown) document.now)) }
    ensures made { IfOk result (λ m. IsMade S.shown m) }
{
    let count = count_fragments(document);
    let mut ordered = BTreeMap::new(alloc);
    let mut lent = HashMap::with_capacity(alloc, count)?;
    for index in 0..document.len() {
        put_fragment(
            &document[document.len() - 1 - index],
            &mut ordered,
            &mut lent,
        )?;
    }
    Ok(FragmentMap {
        document,
        ordered,
        lent,
        count,
    })
}

/// How many fragments there are.
fn count_fragments<S: ScalarValue>(document: &[Definition<'_, S>]) -> usize
    ensures { result ≡ length (fragments (map (view_definition S.shown) document.now)) }
{
    let mut count = 0;
    for definition in document {
        match definition {
            Definition::Fragment(_) => count += 1,
            Definition::Operation(_) => {}
        }
    }
    count
}

/// Puts a fragment into both maps, in place of a later one of its name.
fn put_fragment<'d, 'a, S: ScalarValue>(
    definition: &'d Definition<'a, S>,
    ordered: &mut FragmentsInOrder<'d, 'a, S>,
    lent: &mut Fragments<'d, 'a, S>,
) -> Result<(), AllocError>
    ensures ordered { OnOk result ((k : Name) → fragment_in_order S.shown ordered.new k ≡ option_or
        (fragment_named (fragments (view_definition S.shown definition.now ∷ [])) k) (fragment_in_order S.shown ordered.old k)) }
    ensures lent { OnOk result ((k : Name) → fragment_at S.shown lent.new k ≡ option_or
        (fragment_named (fragments (view_definition S.shown definition.now ∷ [])) k) (fragment_at S.shown lent.old k)) }
{
    match definition {
        Definition::Fragment(fragment) => {
            let name = fragment.item.name.item;
            ordered.insert(name, &fragment.item)?;
            lent.insert(name, &fragment.item)?;
            Ok(())
        }
        Definition::Operation(_) => Ok(()),
    }
}

impl<'d, 'a, S: ScalarValue> FragmentMap<'d, 'a, S> {
    /// The fragments by name, of those of one name the first (2.8): what they hold is put in as the document's.
    pub fn by_name(&self) -> &Fragments<'d, 'a, S>
        requires made { IsMade S.shown self.now }
        requires acyclic { HasNoCycle (fragments_in S.shown self.now) }
        ensures named { (k : Name) → fragment_at S.shown result.now k ≡ fragment_named (fragments_in S.shown self.now) k }
        ensures acyclic { IsAcyclic S.shown result.now }
        ensures alike { ExpandAlike (fragments_among S.shown result.now) (fragments_in S.shown self.now) }
    {
        &self.lent
    }

    /// The fragment of a name: the first one (2.8).
    pub(crate) fn named(&self, name: &str) -> Option<&'d Fragment<'a, S>>
        requires { IsMade S.shown self.now }
        ensures found { option_map core (fragment_of (fragments_in S.shown self.now) name.now) ≡ option_map (λ f. view_core S.shown f.now) result }
        ensures nested { IfSome result (λ f. nesting f.now.selection_set.items ≤ deepest_of self.now.ordered.entries) }
    {
        match self.ordered.get(name) {
            Some(fragment) => Some(*fragment),
            None => None,
        }
    }
}

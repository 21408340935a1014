//! Fragments by name, and what spreads lead to.

use crate::pieces::put_if;
use juniper_schema_text::Scalar;
use juniper_syntax::{Definition, Document};
use juniper_written::{FragmentsByName, fragments_by_name, written_in};
use std::alloc::{AllocError, Global};

/// Writes what is found in each definition, and the fragments in an order in which each stands behind those that it spreads.
pub fn put_spreads(
    alloc: Global,
    document: &Document<'_, Scalar>,
    text: &mut String,
) -> Result<(), AllocError> {
    let known = fragments_by_name(alloc, document)?;
    for definition in document {
        put_definition(alloc, &known, definition, text)?;
    }
    let in_order = known.in_order(alloc)?;
    for index in 0..in_order.len() {
        write!(text, " {}", in_order[index].item.name.item)?;
    }
    Ok(())
}

/// Writes `u` where a definition spreads what is unknown, `i` where it spreads itself, `f` where it is the first fragment of its name, and
/// to how many names its spreads lead.
fn put_definition<'a>(
    alloc: Global,
    known: &FragmentsByName<'_, 'a, Scalar>,
    definition: &Definition<'a, Scalar>,
    text: &mut String,
) -> Result<(), AllocError> {
    let written = written_in(alloc, definition)?;
    let spreads = written.spreads.as_slice();
    let spreads_itself = known.spreads_itself(alloc, definition, spreads)?;
    put_if(known.spreads_unknown(spreads), "u", text)?;
    put_if(spreads_itself, "i", text)?;
    put_if(is_first(known, definition), "f", text)?;
    let count = known.reached(alloc, spreads)?.len();
    write!(text, "{count};")
}

/// Whether a definition is the fragment that stands at its name.
fn is_first(known: &FragmentsByName<'_, '_, Scalar>, definition: &Definition<'_, Scalar>) -> bool {
    match definition {
        Definition::Operation(_) => false,
        Definition::Fragment(fragment) => match known.fragment(fragment.item.name.item) {
            Some(first) => first.span.start == fragment.span.start,
            None => false,
        },
    }
}

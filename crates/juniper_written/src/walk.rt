//! A walk through spreads, or against them.

ghost use Rattle.std.specs.Prelude.{◌≡◌, ◌+◌, OnOk, length};
ghost use Rattle.juniper_written.specs.SpreadsView.{spread_by, step_count};

use crate::reach::SpreadsByName;
use crate::{NameMap, NameSet};
use std::alloc::{AllocError, Global};
use std::collections::BTreeMap;

/// A step of the walk.
#[derive(Clone, Copy)]
enum Step<'a> {
    /// The fragment is looked at, where it was not yet.
    Enter(&'a str),
    /// All that the fragment spreads was looked at.
    Leave(&'a str),
}

/// What a walk met, each name once.
#[derive(Drop)]
pub(crate) struct Walk<'a> {
    /// The names in the order in which they were entered.
    pub entered: Vec<&'a str>,
    /// Those of fragments in the order in which they were left.
    pub left: Vec<&'a str>,
}

/// Walks in depth from each of the names, the last first; the time grows with the number of spreads. Nothing rests on
/// what it answers: that is tested. An error where memory is refused.
pub(crate) fn walked<'a>(
    alloc: Global,
    spreads: &SpreadsByName<'a>,
    names: &[&'a str],
) -> Result<Walk<'a>, AllocError> {
    let mut walk = Walk {
        entered: Vec::new(alloc),
        left: Vec::new(alloc),
    };
    let mut entered = NameSet::new(alloc);
    let mut steps = first_steps(alloc, names)?;
    while let Some(step) = steps.pop() {
        match step {
            Step::Enter(name) => {
                if entered.insert(name)? {
                    walk.entered.push(name)?;
                    enter(spreads, name, &mut steps)?;
                }
            }
            Step::Leave(name) => walk.left.push(name)?,
        }
    }
    Ok(walk)
}

/// Each of the names is to be entered.
fn first_steps<'a>(alloc: Global, names: &[&'a str]) -> Result<Vec<Step<'a>>, AllocError> {
    let mut steps = Vec::new(alloc);
    for name in names {
        steps.push(Step::Enter(*name))?;
    }
    Ok(steps)
}

/// The fragment is left once all that it spreads was entered.
fn enter<'a>(
    spreads: &SpreadsByName<'a>,
    name: &'a str,
    steps: &mut Vec<Step<'a>>,
) -> Result<(), AllocError>
    ensures { OnOk result (length steps.new.items ≡ length steps.old.items + step_count (spread_by spreads.now name.now)) }
{
    match spreads.get(name) {
        Some(names) => {
            steps.push(Step::Leave(name))?;
            for inner in names {
                steps.push(Step::Enter(*inner))?;
            }
            Ok(())
        }
        None => Ok(()),
    }
}

/// By each name the fragments that spread it. Nothing rests on it: only a walk goes by it. An error where memory is
/// refused.
pub(crate) fn spreaders<'a>(
    alloc: Global,
    spreads: &SpreadsByName<'a>,
    names: &[&'a str],
) -> Result<SpreadsByName<'a>, AllocError> {
    let mut lists = BTreeMap::new(alloc);
    for name in names {
        lists.entry(*name)?.or_insert(Vec::new(alloc));
        add_spreader(alloc, spreads, *name, &mut lists)?;
    }
    let mut spreaders = NameMap::new(alloc);
    for (name, list) in lists {
        spreaders.put_first(name, list)?;
    }
    Ok(spreaders)
}

/// Adds a fragment at each name that it spreads.
fn add_spreader<'a>(
    alloc: Global,
    spreads: &SpreadsByName<'a>,
    name: &'a str,
    lists: &mut BTreeMap<&'a str, Vec<&'a str>>,
) -> Result<(), AllocError> {
    match spreads.get(name) {
        Some(names) => {
            for inner in names {
                lists.entry(*inner)?.or_insert(Vec::new(alloc)).push(name)?;
            }
            Ok(())
        }
        None => Ok(()),
    }
}

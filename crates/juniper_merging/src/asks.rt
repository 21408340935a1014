//! Of which sets it is asked how they clash with one set, by how far they stand before it.

ghost use Rattle.std.specs.Prelude.{◌≡◌, Some, ℕ};
ghost use Rattle.juniper_merging.specs.Conflicts.{asked_at, distance_at};

use std::alloc::{AllocError, Global};

/// The distances that are asked. Each has a place: it is the distance itself where they stand dense.
#[derive(Drop)]
pub(crate) struct Asks {
    /// The distances, which rise; none of them where they stand dense.
    far: Vec<usize>,
    /// Whether each distance from 0 on is asked, where they stand dense.
    is_asked: Vec<bool>,
    /// Whether they stand dense.
    is_dense: bool,
}

impl Asks {
    /// None is asked.
    pub(crate) fn new(alloc: Global) -> Self {
        Asks {
            far: Vec::new(alloc),
            is_asked: Vec::new(alloc),
            is_dense: false,
        }
    }

    /// Asks for the set that stands so far before. An error where memory is refused.
    pub(crate) fn ask(&mut self, far: usize) -> Result<(), AllocError> {
        if self.is_dense {
            return mark(&mut self.is_asked, far);
        }
        match self.far.binary_search(&far) {
            Ok(_) => Ok(()),
            Err(place) => self.insert(place, far),
        }
    }

    /// Puts a distance at its place.
    fn insert(&mut self, place: usize, far: usize) -> Result<(), AllocError> {
        if place <= self.far.len() {
            self.far.insert(place, far)?;
        }
        if is_dense(&self.far) {
            self.make_dense()?;
        }
        Ok(())
    }

    /// Marks the distances in place of listing them.
    fn make_dense(&mut self) -> Result<(), AllocError> {
        for index in 0..self.far.len() {
            mark(&mut self.is_asked, self.far[index])?;
        }
        self.far.clear();
        self.is_dense = true;
        Ok(())
    }

    /// How many places there are.
    pub(crate) fn places(&self) -> usize {
        if self.is_dense {
            self.is_asked.len()
        } else {
            self.far.len()
        }
    }

    /// The smallest distance that is asked, from this one on.
    pub(crate) fn next(&self, from: usize) -> Option<usize> {
        if self.is_dense {
            return next_marked(&self.is_asked, from);
        }
        match self.far.binary_search(&from) {
            Ok(_) => Some(from),
            Err(place) => self.far.get(place).copied(),
        }
    }

    /// The place of a distance. It is one that is asked, unless they stand dense.
    pub(crate) fn place_of(&self, far: usize) -> Option<usize>
        ensures { (place : ℕ) → result ≡ Some place → distance_at self.now place ≡ Some far }
    {
        if self.is_dense {
            return Some(far);
        }
        match self.far.binary_search(&far) {
            Ok(place) => Some(place),
            Err(_) => None,
        }
    }

    /// The distance that is asked at a place.
    pub(crate) fn distance_at(&self, place: usize) -> Option<usize>
        ensures { (far : ℕ) → result ≡ Some far → distance_at self.now place ≡ Some far }
    {
        if self.is_dense {
            return if is_marked(&self.is_asked, place) {
                Some(place)
            } else {
                None
            };
        }
        match self.far.get(place) {
            Some(far) => Some(*far),
            None => None,
        }
    }
}

/// Lets the marks of the distances go that are asked of a set; each has its place as before.
pub(crate) fn forget_marks(alloc: Global, asks: &mut Vec<Asks>, number: usize)
    ensures { (a p : ℕ) → asked_at asks.new.items a p ≡ asked_at asks.old.items a p }
{
    if number < asks.len() {
        asks[number].is_asked = Vec::new(alloc);
    }
}

/// Whether so many distances are better marked than listed.
fn is_dense(far: &[usize]) -> bool {
    match far.last() {
        Some(last) => far.len() > FEW && far.len() > *last / FEW,
        None => false,
    }
}

/// Up to how many distances are few; also how many marks take the memory of one distance.
const FEW: usize = 8;

/// Marks a number.
fn mark(marks: &mut Vec<bool>, number: usize) -> Result<(), AllocError> {
    for _missing in marks.len()..number.saturating_add(1) {
        marks.push(false)?;
    }
    if number < marks.len() {
        marks[number] = true;
    }
    Ok(())
}

/// Whether a number is marked.
fn is_marked(marks: &[bool], number: usize) -> bool {
    match marks.get(number) {
        Some(is_marked) => *is_marked,
        None => false,
    }
}

/// The smallest number that is marked, from this one on.
fn next_marked(marks: &[bool], from: usize) -> Option<usize> {
    for number in from..marks.len() {
        if marks[number] {
            return Some(number);
        }
    }
    None
}

//! Which numbers others lead to.

ghost use Rattle.std.specs.Prelude.{◌≡◌, ◌∷◌, [], IfOk, OnOk, get_or, length, ℕ};
ghost use Rattle.juniper_type_rules.specs.Numbers.{Adds, IsFound, IsReach, view_lists};
ghost use Rattle.std.specs.List.{slice_get};

use std::alloc::{AllocError, Global};

/// Numbers that are found, each once.
#[derive(Drop)]
struct Found {
    /// In the order in which they were.
    order: Vec<usize>,
    /// For each number whether it is.
    marks: Vec<bool>,
}

/// For each number, the place of a list, whether it is one of these or one of these leads to it: a number leads to those that
/// its list has, and to what these lead to. The time grows with the lengths of the lists of those that are found, and by a
/// byte for each number. An error where memory is refused.
pub(crate) fn found_from(
    alloc: Global,
    lists: &[Vec<usize>],
    starts: &[usize],
) -> Result<Vec<bool>, AllocError>
    ensures { IfOk result (λ marks. IsReach (view_lists lists.now) starts.now marks.items) }
{
    let mut found = Found::new(alloc, lists.len())?;
    found.add_all(starts)?;
    for turn in 0..lists.len() {
        match found.at(turn) {
            Some(number) => found.follow(lists, number)?,
            None => return Ok(found.marks),
        }
    }
    Ok(found.marks)
}

impl Found {
    /// None of so many numbers.
    fn new(alloc: Global, count: usize) -> Result<Self, AllocError>
        ensures none { IfOk result (λ f. f.order.items ≡ []) }
        ensures found { IfOk result (λ f. IsFound count f.marks.items f.order.items) }
    {
        Ok(Found {
            order: Vec::new(alloc),
            marks: vec![in alloc; false; count]?,
        })
    }

    /// The number that was found at this turn, if one was.
    fn at(&self, turn: usize) -> Option<usize>
        ensures { result ≡ slice_get self.now.order.items turn }
    {
        self.order.get(turn).copied()
    }

    /// Adds what a number's list has.
    fn follow(&mut self, lists: &[Vec<usize>], number: usize) -> Result<(), AllocError>
        ensures { OnOk result ((n : ℕ) → IsFound n self.old.marks.items self.old.order.items → IsFound n self.new.marks.items self.new.order.items
            × Adds n (get_or (view_lists lists.now) number []) self.old.order.items self.new.order.items) }
    {
        match lists.get(number) {
            Some(numbers) => self.add_all(numbers),
            None => Ok(()),
        }
    }

    /// Adds those of the numbers that are not found yet.
    fn add_all(&mut self, numbers: &[usize]) -> Result<(), AllocError>
        ensures { OnOk result ((n : ℕ) → IsFound n self.old.marks.items self.old.order.items → IsFound n self.new.marks.items self.new.order.items
            × Adds n numbers.now self.old.order.items self.new.order.items) }
    {
        for number in numbers {
            self.add(*number)?;
        }
        Ok(())
    }

    /// Adds a number, if it is one of them and not found yet.
    fn add(&mut self, number: usize) -> Result<(), AllocError>
        ensures { OnOk result ((n : ℕ) → IsFound n self.old.marks.items self.old.order.items → IsFound n self.new.marks.items self.new.order.items
            × Adds n (number ∷ []) self.old.order.items self.new.order.items) }
    {
        if number >= self.marks.len() || self.marks[number] {
            return Ok(());
        }
        self.marks[number] = true;
        self.order.push(number)?;
        Ok(())
    }
}

//! Turns in which less memory is left than a call needs, in each a little more, up to one in which it is enough.

use std::alloc::{AllocError, Global};

/// In how many blocks the bytes lie that a call may take at most.
const BLOCKS: usize = 4;

/// How large each of them is. Of blocks that are larger by a third the C library would ask the system, whatever is left.
const BLOCK: usize = 100_000;

/// How many bytes a call may take at most.
const RESERVE: usize = 400_000;

/// How many bytes more are left in each turn.
const STEP: usize = 16;

/// How many turns are to be refused at least.
const LEAST: usize = 10;

/// How a turn ended.
#[derive(Clone, Copy, Debug, PartialEq, Eq)]
pub enum Turn {
    /// Memory was wanting: nothing else was answered, and what was lent is as it was.
    Refused,
    /// The call gave its own answer.
    Answered,
    /// The call answered something else, or what was lent has changed.
    Wrong,
}

/// A call that is tried in turns.
pub trait Task {
    /// Makes ready what the call takes, holds back all but the room, makes the call, gives back what was held back, and looks at the answer.
    fn turn(&mut self, alloc: Global, room: Room) -> Turn;
}

/// How much memory is left to the call of a turn.
#[derive(Clone, Copy)]
pub struct Room {
    bytes: usize,
}

/// What is held back while a call is made; to be dropped behind it.
pub type HeldBack = Result<Vec<u8>, AllocError>;

impl Room {
    /// Holds back the largest block that there is but for this room, at its end.
    pub fn hold_back(self, alloc: Global) -> HeldBack {
        Vec::with_capacity(alloc, largest_block(alloc).saturating_sub(self.bytes))
    }
}

/// How large a block can be had, up to the reserve.
fn largest_block(alloc: Global) -> usize {
    let mut size: usize = 0;
    let mut more = RESERVE;
    for _halving in 0..15 {
        if is_granted(alloc, size.saturating_add(more)) {
            size = size.saturating_add(more);
        }
        more /= 2;
    }
    size
}

/// Whether a block of this size can be had.
fn is_granted(alloc: Global, size: usize) -> bool {
    let block: HeldBack = Vec::with_capacity(alloc, size);
    block.is_ok()
}

/// How many turns were refused, and how the last one ended.
#[derive(Clone, Copy)]
struct Turns {
    refused: usize,
    last: Turn,
}

/// How the turns of a task ended.
#[derive(Clone, Copy, Debug, PartialEq, Eq)]
pub enum Ended {
    /// At least ten turns were refused, and then one was answered.
    Answered,
    /// One was answered, but fewer than ten were refused.
    TooSoon,
    /// All were refused.
    Never,
    /// One was wrong.
    Wrong,
}

/// Takes the turns of a task, up to one that is answered.
///
/// # Errors
/// That there was no memory for the turns themselves.
pub fn tried<T: Task>(alloc: Global, task: &mut T) -> Result<Ended, AllocError> {
    let reserve = reserve(alloc)?;
    let blocks = take_all(alloc)?;
    drop(reserve);
    let turns = take_turns(alloc, task);
    drop(blocks);
    Ok(match turns.last {
        Turn::Answered if turns.refused < LEAST => Ended::TooSoon,
        Turn::Answered => Ended::Answered,
        Turn::Refused => Ended::Never,
        Turn::Wrong => Ended::Wrong,
    })
}

/// The bytes that a call may take at most.
fn reserve(alloc: Global) -> Result<Vec<Vec<u8>>, AllocError> {
    let mut reserve: Vec<Vec<u8>> = Vec::with_capacity(alloc, BLOCKS)?;
    for _block in 0..BLOCKS {
        reserve.push(Vec::with_capacity(alloc, BLOCK)?)?;
    }
    Ok(reserve)
}

/// Takes turns as long as they are refused.
fn take_turns<T: Task>(alloc: Global, task: &mut T) -> Turns {
    let mut refused: usize = 0;
    for step in 0..RESERVE / STEP {
        let room = Room {
            bytes: STEP.saturating_mul(step),
        };
        let last = task.turn(alloc, room);
        if last != Turn::Refused {
            return Turns { refused, last };
        }
        refused = refused.saturating_add(1);
    }
    Turns {
        refused,
        last: Turn::Refused,
    }
}

/// The most blocks that are taken.
const MOST: usize = 200_000;

/// Takes all memory that is left, in blocks that halve in size.
fn take_all(alloc: Global) -> Result<Vec<Vec<u8>>, AllocError> {
    let mut blocks: Vec<Vec<u8>> = Vec::with_capacity(alloc, MOST)?;
    let mut size: usize = 1 << 46;
    for _halving in 0..43 {
        take_blocks(alloc, size, &mut blocks);
        size /= 2;
    }
    Ok(blocks)
}

/// Takes as many blocks of this size as there are.
fn take_blocks(alloc: Global, size: usize, blocks: &mut Vec<Vec<u8>>) {
    for _block in blocks.len()..MOST {
        match Vec::with_capacity(alloc, size) {
            Ok(block) => {
                if blocks.push(block).is_err() {
                    return;
                }
            }
            Err(_) => return,
        }
    }
}

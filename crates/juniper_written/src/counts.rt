//! What is counted of an operation.

ghost use Rattle.std.specs.Prelude.{◌≡◌, ◌-◌, ◌^◌, min, suc};
ghost use Rattle.juniper_written.specs.Measures.{Measure, join, number, put_in};

use std::cmp::max;

/// What an operation asks for, with each spread replaced by what its fragment holds, whatever directives and type conditions say.
/// [`u64::MAX`] stands for more, and for no end, as where a fragment that is reached spreads itself.
#[derive(Clone, Copy, Debug, PartialEq, Eq, Drop)]
pub struct Counts {
    /// The fields, those below other fields too, and those of a fragment again at each of its spreads.
    pub fields: u64,
    /// How many fields, spreads and inline fragments stand inside one another.
    pub levels: u64,
}

impl Counts {
    /// Those of nothing.
    pub(crate) fn none() -> Self
        ensures { (m : Measure) → number m result ≡ 0 }
    {
        Counts {
            fields: 0,
            levels: 0,
        }
    }

    /// Those of what has no end.
    pub(crate) fn endless() -> Self
        ensures { (m : Measure) → number m result ≡ 2 ^ 64 - 1 }
    {
        Counts {
            fields: u64::MAX,
            levels: u64::MAX,
        }
    }

    /// Those of a field that selects what has these.
    pub(crate) fn of_field(self) -> Self
        ensures { (m : Measure) → number m result ≡ min (2 ^ 64 - 1) (suc (number m self)) }
    {
        Counts {
            fields: self.fields.saturating_add(1),
            levels: self.levels.saturating_add(1),
        }
    }

    /// Those of a fragment that is put in and holds what has these.
    pub(crate) fn of_fragment(self) -> Self
        ensures { (m : Measure) → number m result ≡ min (2 ^ 64 - 1) (put_in m (number m self)) }
    {
        let levels = self.levels.saturating_add(1);
        Counts { levels, ..self }
    }

    /// Those of a part, where others follow.
    pub(crate) fn join(self, others: Self) -> Self
        ensures { (m : Measure) → number m result ≡ min (2 ^ 64 - 1) (join m (number m self) (number m others)) }
    {
        Counts {
            fields: self.fields.saturating_add(others.fields),
            levels: max(self.levels, others.levels),
        }
    }
}

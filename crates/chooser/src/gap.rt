// Runs of numbers: a range that is in use, and a gap that is free.
ghost use Rattle.std.specs.Prelude.{◌≡◌, ◌-◌};
ghost use Rattle.chooser.specs.Preference.{prefers as preferred};
ghost use Rattle.chooser.specs.Finding.{held, cut_by, roomy, better as better_of};

use crate::number::Number;

// `count` numbers from `first` on: a range of none holds nothing.
#[derive(Clone, Copy, Debug, PartialEq, Eq)]
pub struct Range<N> {
    pub first: N,
    pub count: u64,
}

impl<N: Number> Range<N> {
    // Whether the range holds the number x.
    pub(crate) fn holds(&self, x: u64) -> bool
        ensures { result ≡ held N.Number.value self.now x }
    {
        let first = self.first.to_u64();
        x >= first && x - first < self.count
    }

    // The last number of a run from `start` that ends at `last` at most, once this range is left out.
    pub(crate) fn cut(&self, start: u64, last: u64) -> u64
        ensures { result ≡ cut_by N.Number.value self.now start last }
    {
        let first = self.first.to_u64();
        if start < first && first <= last && self.count > 0 {
            first - 1
        } else {
            last
        }
    }
}

// The free numbers from `first` to `last`.
#[derive(Clone, Copy, Debug, PartialEq, Eq)]
pub struct Gap {
    pub first: u64,
    pub last: u64,
}

impl Gap {
    // Whether this gap is taken before the other: the smaller, and of equal gaps the higher. A comparison and no order of keys, as in the definition.
    pub(crate) fn is_preferred_to(self, other: Gap) -> bool
        ensures { result ≡ preferred self other }
    {
        let size = self.last.saturating_sub(self.first);
        let other_size = other.last.saturating_sub(other.first);
        size < other_size || size == other_size && other.first < self.first
    }

    // Whether the gap has room for n numbers.
    pub(crate) fn has_room(self, n: u64) -> bool
        ensures { result ≡ roomy n self }
    {
        self.first <= self.last && n.saturating_sub(1) <= self.last - self.first
    }

    // The first of the highest n numbers of the gap.
    pub(crate) fn highest(self, n: u64) -> u64
        ensures { result ≡ self.last - (n - 1) }
    {
        self.last.saturating_sub(n.saturating_sub(1))
    }
}

// The gap to take of the best so far and another that may not have room for n numbers. A step of a fold and no `min_by_key`:
// the definition prefers one gap to another, and which gap is taken is proved of its steps.
pub(crate) fn better(n: u64, best: Option<Gap>, other: Option<Gap>) -> Option<Gap>
    ensures { result ≡ better_of preferred n best other }
{
    other
        .filter(|gap| gap.has_room(n) && best.is_none_or(|best| gap.is_preferred_to(best)))
        .or(best)
}

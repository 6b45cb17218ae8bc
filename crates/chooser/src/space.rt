// Where n numbers go: the highest n of the best gap, which begins at the lowest number or right behind a range.
ghost use Rattle.std.specs.Prelude.{◌≡◌, ◌+◌, ◌<◌, cond, nat_lt, Some, None, MatchResult, IfSome};
ghost use Rattle.chooser.specs.Preference.{prefers as preferred};
ghost use Rattle.chooser.specs.Gaps.{Chosen, NoRoom};
ghost use Rattle.chooser.specs.Finding.{clear, last_from, gap_at, best_gap, choice};

use crate::gap::{Gap, Range, better};
use crate::number::Number;
use units::Fault;

// The numbers from `lo` to `hi`, of which those in the ranges `used` are in use.
// The clauses name its parts one by one, as the definitions do, which open mappings are spoken of by as well.
#[derive(Clone, Copy, Debug, PartialEq, Eq)]
pub struct Space<'u, N> {
    pub lo: N,
    pub hi: N,
    pub used: &'u [Range<N>],
}

// A space between ends that are lent: whoever asks may have no others, of a number that is neither copied nor let go.
#[derive(Drop)]
struct Ends<'u, N> {
    lo: &'u N,
    hi: &'u N,
    used: &'u [Range<N>],
}

impl<N: Number> Ends<'_, N> {
    // Whether no range in use holds the number x.
    fn is_clear(&self, x: u64) -> bool
        ensures { result ≡ clear N.Number.value self.now.used.now x }
    {
        !self.used.iter().any(|range| range.holds(x))
    }

    // The last number of the run of free numbers from `start`.
    fn last_from(&self, start: u64) -> u64
        ensures { result ≡ last_from N.Number.value self.now.used.now start (N.Number.value self.now.hi.now) }
    {
        self.used
            .iter()
            .fold(self.hi.to_u64(), |last, range| range.cut(start, last))
    }

    // The run of free numbers from `start`, where `start` is free. That the highest number is below the top is said
    // here, where it is read: the numbers that `choose` makes have to be below it. No `then(..)`: the facts of the test were lost before that call.
    fn gap_at(&self, start: u64) -> Option<Gap>
        ensures value { result ≡ gap_at N.Number.value (N.Number.value self.now.lo.now) (N.Number.value self.now.hi.now) self.now.used.now start }
        ensures top { N.Number.value self.now.hi.now < N.Number.top }
    {
        let hi = self.hi.to_u64();
        if self.lo.to_u64() <= start && start <= hi && self.is_clear(start) {
            Some(Gap {
                first: start,
                last: self.last_from(start),
            })
        } else {
            None
        }
    }

    // The gap that begins right behind the range; none behind a range of none.
    fn behind(&self, range: &Range<N>) -> Option<Gap>
        ensures { result ≡ cond (nat_lt 0 range.now.count)
            (gap_at N.Number.value (N.Number.value self.now.lo.now) (N.Number.value self.now.hi.now) self.now.used.now
            (N.Number.value range.now.first + range.now.count))
            None }
    {
        let first = range.first.to_u64();
        let above = self.hi.to_u64().saturating_sub(first);
        if range.count > 0 && range.count <= above {
            self.gap_at(first + range.count)
        } else {
            None
        }
    }

    // The best gap that has room for n numbers.
    fn best_gap(&self, n: u64) -> Option<Gap>
        ensures value { result ≡ best_gap N.Number.value preferred (N.Number.value self.now.lo.now) (N.Number.value self.now.hi.now) self.now.used.now n }
        ensures top { IfSome result (λ gap. gap.last < N.Number.top) }
    {
        let lowest = better(n, None, self.gap_at(self.lo.to_u64()));
        self.used
            .iter()
            .fold(lowest, |best, range| better(n, best, self.behind(range)))
    }
}

impl<N: Number> Space<'_, N> {
    // The first of the highest n numbers of the best gap that has room for n, or the refusal at n where none has.
    pub fn choose(&self, n: u64) -> Result<N, Fault>
        ensures value { MatchResult result
            (λ p. choice N.Number.value (N.Number.value self.now.lo) (N.Number.value self.now.hi) self.now.used.now n ≡ Some (N.Number.value p))
            (λ f. (choice N.Number.value (N.Number.value self.now.lo) (N.Number.value self.now.hi) self.now.used.now n ≡ None)
            × (f ≡ record { kind = N.Number.FULL; layer = 0; place = n })) }
        ensures meaning { 0 < n → MatchResult result
            (λ p. Chosen N.Number.value (N.Number.value self.now.lo) (N.Number.value self.now.hi) self.now.used.now n (N.Number.value p))
            (λ _. NoRoom N.Number.value (N.Number.value self.now.lo) (N.Number.value self.now.hi) self.now.used.now n) }
    {
        choose(&self.lo, &self.hi, self.used, n)
    }
}

// The same between ends that are lent.
#[tactic(auto, unfolding(crate::specs::Finding::choice), using(crate::proofs::Answer::choice_some))]
pub fn choose<N: Number>(lo: &N, hi: &N, used: &[Range<N>], n: u64) -> Result<N, Fault>
    ensures value { MatchResult result
        (λ p. choice N.Number.value (N.Number.value lo.now) (N.Number.value hi.now) used.now n ≡ Some (N.Number.value p))
        (λ f. (choice N.Number.value (N.Number.value lo.now) (N.Number.value hi.now) used.now n ≡ None)
        × (f ≡ record { kind = N.Number.FULL; layer = 0; place = n })) }
    ensures meaning { 0 < n → MatchResult result
        (λ p. Chosen N.Number.value (N.Number.value lo.now) (N.Number.value hi.now) used.now n (N.Number.value p))
        (λ _. NoRoom N.Number.value (N.Number.value lo.now) (N.Number.value hi.now) used.now n) }
{
    let ends = Ends { lo, hi, used };
    let gap = ends.best_gap(n).ok_or_else(|| N::FULL.at(n))?;
    Ok(N::of_u64(gap.highest(n)))
}

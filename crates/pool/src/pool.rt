// The pool: its frames, and the buffer that each run of them is lent to, found by the run's first frame.
ghost use Rattle.std.specs.Prelude.{◌≡◌, ℕ, ◌+◌, ◌^◌, ◌<◌, ◌≤◌, ◌==◌, Bool, true, cond, map, Some, None, List, MatchResult};
ghost use Rattle.std.specs.List.{range_with_len};
ghost use Rattle.units.specs.declared.fault.FaultKind.TheVariants.{NoFrames as NoFramesKind};
ghost use Rattle.units.specs.declared.mapping.Mapping.{Mapping as Opened};
ghost use Rattle.meaning.specs.Memory.{within};
ghost use Rattle.meaning.specs.Mappings.{first_frame};
ghost use Rattle.layer.specs.Lifting.{lifted};
ghost use Rattle.pool.specs.Lending.{empty_pool, has_record, loan_in, lent, run_of, frames_of_pool, Lends};

use chooser::{Range, Space};
use units::{Buffer, DeviceAddress, Fault, Frame, Mapping};

#[derive(Clone, Copy, Debug, PartialEq, Eq)]
pub struct Pool {
    pub first: Frame,
    pub count: u32,
    // For each frame the buffer that the run from it on is lent to: 16, since memory is fixed.
    pub loans: [Option<Buffer>; 16],
}

impl Pool {
    // A pool of which nothing is lent.
    pub fn new(first: Frame, count: u32) -> Pool
        ensures { result ≡ empty_pool first.0 count }
    {
        Pool {
            first,
            count,
            loans: [None; 16],
        }
    }

    // The frame is one of the pool's.
    pub fn has(&self, frame: Frame) -> bool
        ensures { result ≡ within self.now.first.0 self.now.count frame.0 }
    {
        self.first.0 <= frame.0 && frame.0 - self.first.0 < self.count
    }

    // There is a place for a loan of the run from the frame on.
    fn has_record(&self, frame: Frame) -> bool
        ensures { result ≡ has_record self.now frame.0 }
    {
        self.first.0 <= frame.0 && frame.0 - self.first.0 < 16
    }

    // The buffer that the run from the frame on is lent to.
    #[tactic(auto, unfolding(crate::specs::Lending::loan_in))]
    pub fn loan(&self, frame: Frame) -> Option<Buffer>
        ensures { result ≡ loan_in self.now frame.0 }
    {
        if self.has_record(frame) {
            self.loans[(frame.0 - self.first.0) as usize]
        } else {
            None
        }
    }

    // The run from the frame on is lent to the buffer.
    #[tactic(auto, unfolding(crate::specs::Lending::lent))]
    pub fn lend(&mut self, frame: Frame, buffer: Buffer)
        ensures value { self.new ≡ lent self.old frame.0 (Some buffer) }
        ensures loans { has_record self.old frame.0 ≡ true → (f : ℕ) → loan_in self.new f ≡ cond (frame.0 == f) (Some buffer) (loan_in self.old f) }
    {
        if self.has_record(frame) {
            self.loans[(frame.0 - self.first.0) as usize] = Some(buffer);
        }
    }

    // The run from the frame on is lent to no buffer.
    #[tactic(auto, unfolding(crate::specs::Lending::lent))]
    pub fn give_back(&mut self, frame: Frame)
        ensures value { self.new ≡ lent self.old frame.0 None }
        ensures loans { (f : ℕ) → loan_in self.new f ≡ cond (frame.0 == f) None (loan_in self.old f) }
    {
        if self.has_record(frame) {
            self.loans[(frame.0 - self.first.0) as usize] = None;
        }
    }

    // The frames that the loan at a place takes.
    fn run(&self, place: u32) -> Range<Frame>
        requires { place < 16 }
        ensures { result ≡ run_of self.now place }
    {
        match self.loans[place as usize] {
            Some(buffer) => Range {
                first: Frame(self.first.0.saturating_add(place)),
                count: buffer.span(),
            },
            None => Range {
                first: Frame(0),
                count: 0,
            },
        }
    }

    // The frames that each loan takes.
    fn runs(&self) -> [Range<Frame>; 16]
        ensures { result ≡ map (run_of self.now) (range_with_len 0 16) }
    {
        let mut runs = [Range {
            first: Frame(0),
            count: 0,
        }; 16];
        for place in 0..16 {
            runs[place] = self.run(place as u32);
        }
        runs
    }

    // The first of n free frames, by the chooser, or the refusal where no gap holds them: of a pool that lends what open mappings take, their choice.
    pub fn choose(&self, n: u64) -> Result<Frame, Fault>
        ensures { (frames : ℕ) (reserved : ℕ → Bool) (o : List Opened) → Lends self.now frames reserved o → 0 < n → MatchResult result
            (λ k. frames_of_pool self.now o n ≡ Some k.0)
            (λ f. (frames_of_pool self.now o n ≡ None) × (f ≡ record { kind = NoFramesKind; layer = 0; place = n })) }
    {
        let runs = self.runs();
        let frames = Space {
            lo: self.first,
            hi: Frame(self.first.0.saturating_add(self.count).saturating_sub(1)),
            used: &runs,
        };
        frames.choose(n)
    }

    // The mapping above, of one below whose frames may be lent to a buffer.
    pub fn lift(&self, mapping: Mapping) -> Mapping
        ensures { mapping.landing + 4096 ≤ 2 ^ 32 → mapping.device.0 + 4096 ≤ 2 ^ 64 → result ≡ lifted mapping (loan_in self.now (first_frame mapping)) }
    {
        match self.loan(Frame::of(mapping.landing)) {
            Some(buffer) => Mapping {
                buffer,
                device: DeviceAddress(
                    mapping
                        .device
                        .0
                        .saturating_add(buffer.address as u64 % 4096),
                ),
                landing: mapping.landing.saturating_add(buffer.address % 4096),
                ..mapping
            },
            None => mapping,
        }
    }
}

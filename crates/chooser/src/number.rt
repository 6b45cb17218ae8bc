// What the chooser numbers: device pages and frames.
ghost use Rattle.std.specs.Prelude.{◌≡◌, ℕ, ◌^◌, ◌<◌};
ghost use Rattle.units.specs.declared.fault.FaultKind.{FaultKind as KindOf};
ghost use Rattle.units.specs.declared.fault.FaultKind.TheVariants.{NoFrames, NoPages};

use units::{DevicePage, FaultKind, Frame};

// A kind of number: its value, a number that no value reaches, and the refusal where no gap holds what is asked.
// Its conversions are its own and no `From`: they are tied to the value and the top, and the way back asks for a value below that.
pub trait Number: Sized {
    ghost value: { Self → ℕ };

    ghost top: { ℕ };

    ghost FULL: { KindOf };

    // The refusal where no gap of these numbers holds what is asked.
    const FULL: FaultKind;

    // The number's value.
    fn to_u64(&self) -> u64
        ensures { (result ≡ value self.now) × (result < top) };

    // The number of that value.
    fn of_u64(n: u64) -> Self
        requires { n < top }
        ensures { value result ≡ n };
}

impl Number for Frame {
    ghost value = { λ s. s.0 };

    ghost top = { 2 ^ 32 };

    ghost FULL = { NoFrames };

    const FULL: FaultKind = FaultKind::NoFrames;

    fn to_u64(&self) -> u64 {
        self.0 as u64
    }

    fn of_u64(n: u64) -> Frame {
        Frame(n as u32)
    }
}

impl Number for DevicePage {
    ghost value = { λ s. s.0 };

    ghost top = { 2 ^ 64 };

    ghost FULL = { NoPages };

    const FULL: FaultKind = FaultKind::NoPages;

    fn to_u64(&self) -> u64 {
        self.0
    }

    fn of_u64(n: u64) -> DevicePage {
        DevicePage(n)
    }
}

// A driver's job that a refused call stopped.
ghost use Rattle.std.specs.Prelude.{◌≡◌};

use crate::buffer::Refused;
use crate::cpu::CpuBuffer;
use crate::mapped::MappedBuffer;
use crate::synced::SyncedBuffer;

// The state that the refused call handed back, and why it was refused: what `?` makes of it in a driver that ends its job there.
pub enum Stopped {
    OnCpu(Refused<CpuBuffer>),
    Mapped(Refused<MappedBuffer>),
    Synced(Refused<SyncedBuffer>),
}

impl From<Refused<CpuBuffer>> for Stopped {
    ghost use Rattle.driver.specs.declared.stopped.Stopped.TheVariants.{OnCpu};

    ghost from_gives = { λ refused stopped. stopped ≡ OnCpu refused };

    fn from(refused: Refused<CpuBuffer>) -> Stopped {
        Stopped::OnCpu(refused)
    }
}

impl From<Refused<MappedBuffer>> for Stopped {
    ghost use Rattle.driver.specs.declared.stopped.Stopped.TheVariants.{Mapped};

    ghost from_gives = { λ refused stopped. stopped ≡ Mapped refused };

    fn from(refused: Refused<MappedBuffer>) -> Stopped {
        Stopped::Mapped(refused)
    }
}

impl From<Refused<SyncedBuffer>> for Stopped {
    ghost use Rattle.driver.specs.declared.stopped.Stopped.TheVariants.{Synced};

    ghost from_gives = { λ refused stopped. stopped ≡ Synced refused };

    fn from(refused: Refused<SyncedBuffer>) -> Stopped {
        Stopped::Synced(refused)
    }
}

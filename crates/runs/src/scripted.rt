// A script's record as a call.
ghost use Rattle.std.specs.Prelude.{◌≡◌, ℕ, List};
ghost use Rattle.script.specs.Items.{meant as item_of};
ghost use Rattle.runs.specs.Commands.{meant};
ghost use Rattle.runs.specs.Scripted.{call_for};

use crate::command::Command;
use script::Record;

// The command that a record asks for.
impl<'s> From<Record<'s>> for Command<'s> {
    ghost from_gives = { λ r c. (t : List ℕ) → meant c t ≡ call_for (item_of r) t };

    fn from(asked: Record<'s>) -> Command<'s> {
        match asked {
            Record::Map(request) => Command::Map(request),
            Record::Unmap(request) => Command::Unmap(request),
            Record::Sync { call, card, device } => Command::Sync { call, card, device },
            Record::CpuWrite { address, bytes } => Command::CpuWrite { address, bytes },
            Record::CpuRead { address, count } => Command::CpuRead {
                address,
                count: count as usize,
            },
            Record::CardWrite {
                card,
                device,
                bytes,
            } => Command::CardWrite {
                card,
                device,
                bytes,
            },
            Record::CardRead {
                card,
                device,
                count,
            } => Command::CardRead {
                card,
                device,
                count: count as usize,
            },
        }
    }
}

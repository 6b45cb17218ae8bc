// Why a call is refused: the kind, how many layers passed it on, and the place.
ghost use Rattle.std.specs.Prelude.{◌≡◌};
ghost use Rattle.units.specs.Faults.{number_of, is_block_kind, raised, raises};

// The refusals, by their numbers; the place that each carries stands beside it.
#[derive(Clone, Copy, Debug, PartialEq, Eq)]
pub enum FaultKind {
    // There is no such card [card].
    NoCard = 1,
    // The direction is above 2 [direction].
    NoDirection = 2,
    // A length of 0, a span above 8, or an access of more than 64 bytes or than its answer buffer [length].
    WrongLength = 3,
    // Memory of another size, or past its end [size that it should have].
    OutsideMemory = 4,
    // A reserved frame is touched [lowest such frame].
    ReservedFrame = 5,
    // No open mapping of the card starts there [device address].
    NotOpen = 6,
    // Another length or direction is open there [open length].
    OtherMapping = 7,
    // The holder is already so [device address], or a card holds the byte [lowest such byte].
    WrongHolder = 8,
    // No pool gap holds the span [span].
    NoFrames = 9,
    // No gap of device pages holds the span [span].
    NoPages = 10,
    // All records or windows are in use [how many there are].
    NoRecord = 11,
    // Fewer tables are free than the mapping lacks [how many it lacks].
    NoTables = 12,
    // An access crosses a device page, or starts at 2^48 or above [device address].
    CrossesPage = 13,
    // The card reaches nothing there [level].
    Absent = 14,
    // The right is lacking [level].
    Lacking = 15,
    // A set-up number is out of range, or the lent words have another length.
    WrongSetup = 16,
    // A pool of wrong size or place, on a reserved frame, or above open mappings.
    WrongPool = 17,
    // Fewer bytes are left than the record needs [record's start].
    CutShort = 18,
    // The tag is unknown [record's start].
    UnknownTag = 19,
    // The value's length does not fit its tag [record's start].
    WrongSize = 20,
}

#[derive(Clone, Copy, Debug, PartialEq, Eq)]
pub struct Fault {
    pub kind: FaultKind,
    pub layer: u32,
    pub place: u64,
}

// The refusal's number, from 1 to 20.
impl From<FaultKind> for u8 {
    ghost from_gives = { λ k n. n ≡ number_of k };

    fn from(kind: FaultKind) -> u8 {
        kind as u8
    }
}

impl FaultKind {
    // A card's access was blocked: the reach is absent, or lacks the right.
    pub fn is_block(self) -> bool
        ensures { result ≡ is_block_kind self }
    {
        matches!(self, FaultKind::Absent | FaultKind::Lacking)
    }

    // The refusal at a place, as the layer that finds it tells it.
    pub fn at(self, place: u64) -> Fault
        ensures { result ≡ record { kind = self; layer = 0; place = place } }
    {
        Fault {
            kind: self,
            layer: 0,
            place,
        }
    }
}

impl Fault {
    // The same fault, passed on by one more layer; the layer number stops at 4,294,967,295.
    pub fn raise(self) -> Fault
        ensures { result ≡ raised self }
    {
        Fault {
            layer: self.layer.saturating_add(1),
            ..self
        }
    }
}

// What the layer below answered, as this layer passes it on: `passed_on(call)?`.
pub fn passed_on<T>(answer: Result<T, Fault>) -> Result<T, Fault>
    ensures { result ≡ raises answer }
{
    answer.map_err(Fault::raise)
}

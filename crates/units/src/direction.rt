// Which way bytes go, and what that lets a card do.
ghost use Rattle.std.specs.Prelude.{◌≡◌};
ghost use Rattle.units.specs.Directions.{allows, code_of, coded, rights_of};

use crate::fault::FaultKind;

#[derive(Clone, Copy, Debug, PartialEq, Eq)]
pub enum Direction {
    Both = 0,
    ToCard = 1,
    FromCard = 2,
}

// What a card does with bytes that it reaches.
#[derive(Clone, Copy, Debug, PartialEq, Eq)]
pub enum Access {
    Read,
    Write,
}

// What a card may do with a page.
#[derive(Clone, Copy, Debug, PartialEq, Eq)]
pub struct Rights {
    pub read: bool,
    pub write: bool,
}

// The number by which a call names the direction: 0, 1 or 2.
impl From<Direction> for u8 {
    ghost from_gives = { λ d n. n ≡ code_of d };

    fn from(direction: Direction) -> u8 {
        direction as u8
    }
}

// The direction that a call names by 0, 1 or 2; another number names none.
impl TryFrom<u8> for Direction {
    type Error = FaultKind;

    ghost try_from_gives = { λ code r. r ≡ coded code };

    fn try_from(code: u8) -> Result<Direction, FaultKind> {
        match code {
            0 => Ok(Direction::Both),
            1 => Ok(Direction::ToCard),
            2 => Ok(Direction::FromCard),
            _ => Err(FaultKind::NoDirection),
        }
    }
}

impl Direction {
    // A card reads under both and to the card, and writes under both and from the card.
    pub fn rights(self) -> Rights
        ensures { result ≡ rights_of self }
    {
        match self {
            Direction::Both => Rights {
                read: true,
                write: true,
            },
            Direction::ToCard => Rights {
                read: true,
                write: false,
            },
            Direction::FromCard => Rights {
                read: false,
                write: true,
            },
        }
    }
}

impl Rights {
    // The rights let a card make the access.
    pub fn allow(self, access: Access) -> bool
        ensures { result ≡ allows access self }
    {
        match access {
            Access::Read => self.read,
            Access::Write => self.write,
        }
    }
}

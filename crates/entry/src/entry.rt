// The entries of page tables: which words are one, and what they say.
ghost use Rattle.std.specs.Prelude.{◌≡◌, ◌<◌, ◌^◌, ◌||◌, true, false, MatchOption};
ghost use Rattle.units.specs.Directions.{rights_of};
ghost use Rattle.entry.specs.Words.{both, can_exist, is_present, number_in, rights_in, word_of};

use units::{Direction, Frame, Rights};

// A word that can exist: what a card may do, and the number of a frame or of the next table, or 0.
#[derive(Clone, Copy, Debug, PartialEq, Eq)]
pub struct Entry {
    word: u64,
    ghost ok: { can_exist word ≡ true },
}

impl Entry {
    // The entry that a word is, if it can exist.
    pub fn of(word: &u64) -> Option<Entry>
        ensures { MatchOption result (can_exist word.now ≡ false) (λ e. (can_exist word.now ≡ true) × (e.word ≡ word.now)) }
    {
        if can_exist(*word) {
            Some(Entry { word: *word })
        } else {
            None
        }
    }

    // The entry of a page: its frame, with the rights of a direction.
    pub fn page(frame: Frame, direction: Direction) -> Entry
        ensures { result.word ≡ word_of (rights_of direction) frame.0 }
    {
        Entry::with(direction.rights(), frame.0)
    }

    // The entry that leads to a table, with both rights.
    pub fn table(number: u32) -> Entry
        ensures { result.word ≡ word_of both number }
    {
        Entry::with(Direction::Both.rights(), number)
    }

    // The entry with a right and a number.
    fn with(rights: Rights, number: u32) -> Entry
        requires { (rights.read || rights.write) ≡ true }
        ensures { result.word ≡ word_of rights number }
    {
        Entry {
            word: u64::from(rights.read) + 2 * u64::from(rights.write) + 4096 * u64::from(number),
        }
    }

    // The word that stands in a table. An entry is its rights and its number, and nothing else.
    pub fn word(self) -> u64
        ensures value { result ≡ self.word }
        ensures whole { result ≡ word_of (rights_in self.word) (number_in self.word) }
    {
        self.word
    }

    // What a card may do.
    pub fn rights(self) -> Rights
        ensures { result ≡ rights_in self.word }
    {
        Rights {
            read: self.word % 2 == 1,
            write: self.word / 2 % 2 == 1,
        }
    }

    // The frame or the next table.
    pub fn number(self) -> u64
        ensures value { result ≡ number_in self.word }
        ensures below { result < 2 ^ 40 }
    {
        self.word / 4096
    }

    // The card may do something.
    pub fn is_present(self) -> bool
        ensures { result ≡ is_present self.word }
    {
        let rights = self.rights();
        rights.read || rights.write
    }
}

// The word can exist: bits 2 to 11 and 52 to 63 are 0, and one with neither right is 0 altogether.
fn can_exist(word: u64) -> bool
    ensures { result ≡ can_exist word }
{
    word / 4 % 1024 == 0 && word < 0x10_0000_0000_0000 && (word % 4 != 0 || word == 0)
}

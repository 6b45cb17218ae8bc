// What each of the lent tables is for.

// Where a table stands: its level, 4 for a root down to 1, and its prefix, what the numbers of all pages below it have in common.
// Pages are numbered over all cards: card * 2^36 + device page.
#[derive(Clone, Copy, Debug, PartialEq, Eq)]
pub struct Place {
    pub level: u8,
    pub prefix: u64,
}

#[derive(Clone, Copy, Debug, PartialEq, Eq)]
pub enum Table {
    // Past the last of the lent tables.
    Missing,
    Free,
    Used(Place),
}

// Pages are opened: tables are taken for them, and their words written.
#![tactic(auto)]

mod page;
mod span;

pub use span::open_span;

// Worked examples of a bounce layer over windows, over page tables, and over another layer, with values worked out by hand.
#![tactic(auto)]

#[cfg(test)]
mod asking;
#[cfg(test)]
mod below;
#[cfg(test)]
mod checks;
#[cfg(test)]
mod copies;
#[cfg(test)]
mod piles;
#[cfg(test)]
mod pools;
#[cfg(test)]
mod setup;

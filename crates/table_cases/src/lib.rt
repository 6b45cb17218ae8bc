// Worked examples of page tables, with values worked out by hand from the rules.
#![tactic(auto)]

#[cfg(test)]
mod asked;
#[cfg(test)]
mod caches;
#[cfg(test)]
mod cards;
#[cfg(test)]
mod edges;
#[cfg(test)]
mod entries;
#[cfg(test)]
mod full;
#[cfg(test)]
mod gaps;
#[cfg(test)]
mod queue;
#[cfg(test)]
mod refusals;
#[cfg(test)]
mod room;
#[cfg(test)]
mod setup;
#[cfg(test)]
mod syncs;
#[cfg(test)]
mod words;

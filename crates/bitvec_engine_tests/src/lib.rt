//! Elements, orders, accessors and what orders do with whole windows: worked rows, costs, callers, and what no clause says.
//! And the allocator that refuses, with which tests of all floors ask for memory.
#![tactic(auto)]

#[cfg(test)]
mod accessors;
#[cfg(test)]
mod block_costs;
#[cfg(test)]
mod blocks;
#[cfg(test)]
mod elements;
#[cfg(test)]
mod orders;
#[cfg(test)]
mod refusing;
#[cfg(test)]
mod searches;
#[cfg(test)]
mod tallied;
#[cfg(test)]
mod tally;
#[cfg(test)]
mod windows;
#[cfg(test)]
mod word_steps;

//! Sequences that get more bits, or fewer.
mod adding;
mod capacity;
mod elements;
mod ends;
mod making;
mod middle;
mod numbers;
mod parting;
mod retaining;
mod walking;

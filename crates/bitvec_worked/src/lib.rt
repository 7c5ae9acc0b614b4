//! What the words of contracts are at values: each equation of `specs/` is checked.
#![tactic(auto)]

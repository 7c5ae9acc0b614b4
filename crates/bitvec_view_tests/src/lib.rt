//! Views: made, indexed, cut, lent, asked, searched, compared and printed; their domains, references to their bits, and
//! walks over their ones: callers, and what no clause says.
#![tactic(auto)]

#[cfg(test)]
mod by_value;
#[cfg(test)]
mod comparisons;
#[cfg(test)]
mod constructors;
#[cfg(test)]
mod domains;
#[cfg(test)]
mod ends;
#[cfg(test)]
mod kept;
#[cfg(test)]
mod lends;
#[cfg(test)]
mod lent;
#[cfg(test)]
mod lent_domains;
#[cfg(test)]
mod ones;
#[cfg(test)]
mod ones_turns;
#[cfg(test)]
mod ones_written;
#[cfg(test)]
mod ranges;
#[cfg(test)]
mod references;
#[cfg(test)]
mod scans;
#[cfg(test)]
mod shown;

//! What stands on top: runs of commands on worked rows, the program on streams and memory that fail, and operations and
//! runs that test their arguments. The commands themselves are compared with a model in `golden/`.
#![tactic(auto)]

/// The steps of a table of rows: from, up to, and the command.
#[cfg(test)]
macro_rules! steps {
    ([$(($from:expr, $to:expr, $op:expr)),* $(,)?]) => {
        [$(bitvec_run::Step { from: $from, to: $to, op: $op }),*]
    };
}

#[cfg(test)]
mod checked_operations;
#[cfg(test)]
mod checked_runs;
#[cfg(test)]
mod field_memory;
#[cfg(test)]
mod field_rows;
#[cfg(test)]
mod program;
#[cfg(test)]
mod program_memory;
#[cfg(test)]
mod program_streams;
#[cfg(test)]
mod run_costs;
#[cfg(test)]
mod run_errors;
#[cfg(test)]
mod run_memory;
#[cfg(test)]
mod run_rows;
#[cfg(test)]
mod run_slices;
#[cfg(test)]
mod run_words;

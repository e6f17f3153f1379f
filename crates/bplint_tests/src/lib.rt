//! The tests of all crates, by subject. Not here: what the bytes of a file and a run of the program can show, which is
//! in the tables of tests/vectors.
//!
//! The tests are a crate of their own so that checking the other crates does not prove them again.
#![tactic(auto)]

#[cfg(test)]
mod checked_files;
#[cfg(test)]
mod cursor;
#[cfg(test)]
mod damaged_files;
#[cfg(test)]
mod failing_calls;
#[cfg(test)]
mod failing_commands;
#[cfg(test)]
mod fault_lines;
#[cfg(test)]
mod heads;
#[cfg(test)]
mod leaves;
#[cfg(test)]
mod octets;
#[cfg(test)]
mod runs;
#[cfg(test)]
mod shown_files;
#[cfg(test)]
mod windows;
#[cfg(test)]
mod writers;

//! Tests of the small crates, from the words that all share to the generator of captures; and of the texts that the program
//! reads and writes, but for those that rows of `zcrx` show: its words, reports, and records of runs.
#![tactic(auto)]

#[cfg(test)]
mod calls;
#[cfg(test)]
mod command_lines;
#[cfg(test)]
mod events;
#[cfg(test)]
mod faults;
#[cfg(test)]
mod files;
#[cfg(test)]
mod headers;
#[cfg(test)]
mod making;
#[cfg(test)]
mod memory;
#[cfg(test)]
mod reassembly;
#[cfg(test)]
mod records;
#[cfg(test)]
mod reports;
#[cfg(test)]
mod ring;
#[cfg(test)]
mod system;
#[cfg(test)]
mod words;

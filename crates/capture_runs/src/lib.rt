//! Tests of captures from memory to memory: the reading of both forms, flows of segments, and runs over the board for one thread.
#![tactic(auto)]

#[cfg(test)]
mod blocks;
#[cfg(test)]
mod classic;
#[cfg(test)]
mod drawn;
#[cfg(test)]
mod extremes;
#[cfg(test)]
mod flows;
#[cfg(test)]
mod limits;
#[cfg(test)]
mod long;
#[cfg(test)]
mod parts;
#[cfg(test)]
mod runs;
#[cfg(test)]
mod texts;

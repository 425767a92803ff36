//! Runs of an application in each of its three ways, by hand at a board: one that takes turns (`worker`), at the board for one
//! thread; one that is polled (`stream`, `pouring`) and one that forwards (`forward`), at the board on words.
#![tactic(auto)]

#[cfg(test)]
mod card;
#[cfg(test)]
mod carriers;
#[cfg(test)]
mod example;
#[cfg(test)]
mod forward;
#[cfg(test)]
mod moody;
#[cfg(test)]
mod parts;
#[cfg(test)]
mod plain;
#[cfg(test)]
mod pouring;
#[cfg(test)]
mod step;
#[cfg(test)]
mod stream;
#[cfg(test)]
mod words;
#[cfg(test)]
mod worker;

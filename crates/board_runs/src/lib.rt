//! Tests of both boards and of the card's pool over them: tables of calls, events, tokens, areas, and plays of the pool.
#![tactic(auto)]

#[cfg(test)]
mod areas;
#[cfg(test)]
mod callers;
#[cfg(test)]
mod drawing;
#[cfg(test)]
mod entries;
#[cfg(test)]
mod events;
#[cfg(test)]
mod offers;
#[cfg(test)]
mod searches;
#[cfg(test)]
mod spares;
#[cfg(test)]
mod tables;

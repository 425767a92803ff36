//! Tests of the top call that no row says: drawn captures, threads that are held up, and captures as long as they may be.
#![tactic(auto)]

#[cfg(test)]
mod alone;
#[cfg(test)]
mod areas;
#[cfg(test)]
mod checks;
#[cfg(test)]
mod drawn;
#[cfg(test)]
mod enough;
#[cfg(test)]
mod flushing;
#[cfg(test)]
mod gates;
#[cfg(test)]
mod limits;
#[cfg(test)]
mod making;
#[cfg(test)]
mod plain;
#[cfg(test)]
mod processors;
#[cfg(test)]
mod reading;
#[cfg(test)]
mod threads;
#[cfg(test)]
mod waiting;

//! Tests of the pump: what it sends of files that are whole, cut and failing, with each fault of their reader,
//! and over a line whose taker is gone or goes.
#![tactic(auto)]

#[cfg(test)]
mod faults;
#[cfg(test)]
mod pumps;
#[cfg(test)]
mod threads;

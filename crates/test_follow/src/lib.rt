//! Tests of files that are followed side by side: worked rows and polygons in many plans, threads that meet
//! at gates and each call of a gate, files with each fault beside others, or with more fixes than are taken,
//! sources that fail, and allocations refused in turn.
#![tactic(auto)]

#[cfg(test)]
mod allocations;
#[cfg(test)]
mod checks;
#[cfg(test)]
mod faults;
#[cfg(test)]
mod files;
#[cfg(test)]
mod gates;
#[cfg(test)]
mod plans;

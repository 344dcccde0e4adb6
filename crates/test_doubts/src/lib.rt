//! Tests of what is odd about tracks, fixes far from the others and boxes that are small or great, and of what is said of it.
#![tactic(auto)]

#[cfg(test)]
mod boxes;
#[cfg(test)]
mod far;
#[cfg(test)]
mod said;
#[cfg(test)]
mod tracks;

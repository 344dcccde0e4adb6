//! Tests of times of a table: forms, numbers, ISO texts without an offset, and the clocks of time zones.
#![tactic(auto)]

#[cfg(test)]
mod clocks;
#[cfg(test)]
mod forms;
#[cfg(test)]
mod iso_texts;
#[cfg(test)]
mod numbers;
#[cfg(test)]
mod refused_forms;
#[cfg(test)]
mod texts;
#[cfg(test)]
mod twice;
#[cfg(test)]
mod zones;

//! Tests of the projection into zones of UTM and back, of the numbers of zones, and of metres in whole units.
#![tactic(auto)]

#[cfg(test)]
mod back;
#[cfg(test)]
mod positions;
#[cfg(test)]
mod proj;
#[cfg(test)]
mod units;
#[cfg(test)]
mod zones;

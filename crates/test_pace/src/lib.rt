//! Tests of the filters that look at more than one fix of a track, against worked tracks.
#![tactic(auto)]

#[cfg(test)]
mod every;
#[cfg(test)]
mod speed;
#[cfg(test)]
mod values;
#[cfg(test)]
mod worked;
#[cfg(test)]
mod zones;

//! Tests of the crates that read texts: of encodings, and of GPX.
#![tactic(auto)]

#[cfg(test)]
mod encodings;
#[cfg(test)]
mod faults_of_encodings;
#[cfg(test)]
mod faults_of_gpx;
#[cfg(test)]
mod pages_of_iconv;
#[cfg(test)]
mod tables_of_gpx;

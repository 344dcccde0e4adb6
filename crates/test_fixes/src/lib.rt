//! Tests of the reader of fixes: whole, cut, hostile and failing files, bad records by their number, records
//! that are left out, numbers, what is read past the limit, both units, and the texts of faults.
#![tactic(auto)]

#[cfg(test)]
mod bad_records;
#[cfg(test)]
mod files;
#[cfg(test)]
mod numbers;
#[cfg(test)]
mod past_the_limit;
#[cfg(test)]
mod texts;
#[cfg(test)]
mod units;
#[cfg(test)]
mod use_column;

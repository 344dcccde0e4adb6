//! Tests of the crates that make tracks of a table: its text, its columns and what its records say, decimals in whole units
//! and moments of texts, what becomes of records, the order of entries and the text of a track, against worked ones; what
//! is written and read back; the folder, whole or not at all, and its record; and, but for the text and the records of a
//! table, memory refused, an allocation at a time.
#![tactic(auto)]

#[cfg(test)]
mod decimals;
#[cfg(test)]
mod fates;
#[cfg(test)]
mod folder;
#[cfg(test)]
mod folder_on_disk;
#[cfg(test)]
mod iso_texts;
#[cfg(test)]
mod joined;
#[cfg(test)]
mod names;
#[cfg(test)]
mod order;
#[cfg(test)]
mod reading;
#[cfg(test)]
mod reading_times;
#[cfg(test)]
mod record_text;
#[cfg(test)]
mod sheets;
#[cfg(test)]
mod tables;
#[cfg(test)]
mod text;
#[cfg(test)]
mod titles;
#[cfg(test)]
mod told_records;
#[cfg(test)]
mod told_titles;

//! Tests of the second look at a table, of the words of `homerange-split`, of the counts of what is left out, and of what is
//! written of a split, against worked ones.
#![tactic(auto)]

#[cfg(test)]
mod beside;
#[cfg(test)]
mod counts;
#[cfg(test)]
mod look;
#[cfg(test)]
mod look_times;
#[cfg(test)]
mod output;
#[cfg(test)]
mod words;
#[cfg(test)]
mod words_of_makers;
#[cfg(test)]
mod words_of_times;

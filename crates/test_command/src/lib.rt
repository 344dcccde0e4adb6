//! Tests of command lines: what words say, and which are refused; the reports of runs, byte for byte and in
//! several plans, files with each fault, sources and outputs that fail at each call; the words that the system gives;
//! the line and the status of each refusal, and which characters stand in it as they are; and what the program answers to whole command lines.
#![tactic(auto)]

#[cfg(test)]
mod answers;
#[cfg(test)]
mod bad_runs;
#[cfg(test)]
mod commands;
#[cfg(test)]
mod failing_runs;
#[cfg(test)]
mod failures;
#[cfg(test)]
mod files;
#[cfg(test)]
mod folder;
#[cfg(test)]
mod herd;
#[cfg(test)]
mod levels;
#[cfg(test)]
mod line;
#[cfg(test)]
mod lines;
#[cfg(test)]
mod memory;
#[cfg(test)]
mod options;
#[cfg(test)]
mod plans;
#[cfg(test)]
mod reasons;
#[cfg(test)]
mod refusals;
#[cfg(test)]
mod runs;
#[cfg(test)]
mod seen;
#[cfg(test)]
mod started;
#[cfg(test)]
mod words;

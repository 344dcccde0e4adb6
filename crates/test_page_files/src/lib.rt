//! Tests of tables and the page of a folder.
#![tactic(auto)]

mod files;
mod folder;
mod ground;
mod refusals;

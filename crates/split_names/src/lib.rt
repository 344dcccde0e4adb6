//! The names of animals as the names of files, which Linux, Windows, Macs and sticks can hold and tell apart.
#![tactic(auto)]

mod clean;
mod cut;
mod device;
mod folded;
mod laws;
mod names;
mod names_fault;
mod numbered;

pub use clean::{NAME_BYTES, file_name};
pub use laws::{
    clean_names_are_utf8, clean_names_name_files, file_names_are_utf8, file_names_differ,
    file_names_name_files,
};
pub use names::file_names;
pub use names_fault::NamesFault;

//! A folder of files that is written whole or not at all.
#![tactic(auto)]

mod fault;
mod folder;
mod names;
mod new_file;
mod step;
mod system;
mod write;

pub use fault::FolderFault;
pub use folder::Folder;
pub use new_file::NewFile;
pub use step::Step;
pub use system::SystemFolder;
pub use write::write_folder;

//! The track points of GPX as a table of text. The XML of GPX is read strictly, and without what GPX has no need of: a
//! document type, and entities of its own.
#![tactic(auto)]

mod attributes;
mod cells;
mod characters;
mod declaration;
mod document;
mod elements;
mod fault;
mod markup;
mod reading;
mod references;
mod signs;
mod stop;
mod tracks;

pub use declaration::declared_encoding;
pub use fault::{GpxCause, GpxFault};
pub use reading::table_of_gpx;
pub use tracks::GpxTable;

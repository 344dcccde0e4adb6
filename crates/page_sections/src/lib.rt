//! The sections of a page of home ranges but for its drawings: sentences, tables, method and checksums.
#![tactic(auto)]

mod animals;
mod cells;
mod growth;
mod headings;
mod method;
mod notes;
mod overlaps;
mod pairs;
mod reasons;
mod sampling;
mod sentences;
mod shown;
mod sums;

pub use animals::push_animals_table;
pub use growth::push_growth_table;
pub use method::{Totals, push_left_out, push_method, push_options, push_said};
pub use notes::{Unused, push_without_range};
pub use overlaps::{push_overlap_sentence, push_overlap_table};
pub use reasons::{Cause, cause_word};
pub use sampling::push_sampling_table;
pub use sentences::push_sentences;
pub use shown::{Shown, Source, falling_levels};
pub use sums::{Origin, Sums, push_sums, push_verify};

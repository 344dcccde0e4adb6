//! Which columns of a table are read, by its titles and by those that were named; and the sentences in which a table
//! is refused for its titles.
#![tactic(auto)]

mod axes;
mod beside;
mod brackets;
mod clock_offsets;
mod clock_words;
mod clocks;
mod columns;
pub mod dictionary;
mod fault;
mod find;
mod halves;
mod hours;
mod lookup;
mod makers;
mod minutes;
mod multiples;
mod named;
mod passed_over;
mod places;
mod plain;
mod presets;
mod said;
mod sentences;
mod sentences_of_said;
mod sides;
mod signs;
mod summers;
mod unit_columns;
mod units;
mod unknown;
mod usual;
mod words;

pub use beside::degrees_beside;
pub use clock_offsets::{SaidOffset, offset_said};
pub use columns::{Columns, Marks, Pair, is_read, not_read};
pub use fault::{FaultKind, PassedOver, TitleFault};
pub use find::find_columns;
pub use halves::{clock_of_half, half_named, is_half_of_day, is_of_afternoon, is_of_halves};
pub use hours::is_of_hours;
pub use makers::maker_of;
pub use minutes::is_of_minutes;
pub use named::{Named, Role};
pub use passed_over::is_of_places;
pub use plain::{comes_to, trimmed};
pub use presets::{GPX, PRESETS, Preset, preset_of};
pub use said::{ClockDoubt, clock_doubt};
pub use sentences::{fault_text, push_shown, start_of_sign};
pub use summers::is_of_summer;
pub use unit_columns::{UnitNamed, is_of_units, unit_named};
pub use unknown::{Subject, unknown_word};
pub use usual::{COLUMN_LIMIT, is_of_animal};
pub use words::{first_word, has_word, is_word};

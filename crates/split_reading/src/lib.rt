//! What the records of a table say: of which animal each is, when and where that was, and whether the fix is used; or why
//! the record is left out, or what is wrong with it.
#![tactic(auto)]

mod cells;
mod fault;
mod ledger;
mod marks;
mod moment;
mod place;
mod progress;
mod rules;
mod system;
mod told;
mod words;
mod zone;

pub use cells::is_word;
pub use fault::{CellFault, ReadingFault};
pub use ledger::{Ledger, Row, read_records};
pub use moment::time_text;
pub use place::{Place, Position};
pub use progress::Progress;
pub use rules::Rules;
pub use system::{System, code_of, system_with};
pub use told::{Told, ToldFix};
pub use zone::{Zone, zone_at, zone_of, zone_of_band};

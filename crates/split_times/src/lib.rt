//! The times of a table: ISO texts, as seconds since 1970 and nanoseconds.
#![tactic(auto)]

mod days;
mod fields;
mod form;
mod forms;
mod iso;
mod local;
mod moment;
mod number;
mod orders;
mod sign;
mod signs;
mod text;
mod words;

pub use forms::{FORM_LIMIT, FormTime, Forms};
pub use iso::{TextTime, iso_moment, iso_time};
pub use local::LocalTime;
pub use moment::{Moment, TimeFault};
pub use number::{FIRST_SECOND, MANY_SECONDS, NumberFault, SECONDS_END, number_moment, seconds_in};
pub use orders::DayOrders;
pub use signs::FormFault;
pub use text::{TextFault, orders_in, text_time};

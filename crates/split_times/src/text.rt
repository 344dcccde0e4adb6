// The times of texts of a column.

ghost use Rattle.std.specs.Prelude.{◌≡◌, IfOk};
ghost use Rattle.split_times.specs.Limits.{IsTimely};
ghost use Rattle.split_times.specs.Text.{formless_time, orders_in, text_time};

use crate::forms::Forms;
use crate::iso::{TextTime, iso_time};
use crate::moment::TimeFault;
use crate::number::{NumberFault, number_moment};
use crate::orders::DayOrders;

/// Why a text is no time.
#[derive(Clone, Copy, PartialEq, Eq, Debug)]
pub enum TextFault {
    /// It has none of the forms, or is no ISO text, or no such time.
    Time(TimeFault),
    /// It is a number that is no second since 1970.
    Number(NumberFault),
}

// The time of a number of seconds since 1970 or of an ISO text.
fn formless_time(text: &[u8]) -> Result<TextTime, TextFault>
    ensures value { result ≡ formless_time text.now }
    ensures within { IfOk result IsTimely }
{
    match number_moment(text) {
        Ok(moment) => Ok(TextTime::Utc(moment)),
        Err(NumberFault::NotNumber) => match iso_time(text) {
            Ok(time) => Ok(time),
            Err(fault) => Err(TextFault::Time(fault)),
        },
        Err(fault) => Err(TextFault::Number(fault)),
    }
}

/// The time of a text under forms, or, where none are named, of a number of seconds since 1970 or of an ISO text. One of a
/// form, and an ISO text without an offset, are what some clock shows.
pub fn text_time(text: &[u8], forms: Option<Forms<'_>>) -> Result<TextTime, TextFault>
    ensures value { result ≡ text_time forms.entry text.now }
    ensures within { IfOk result IsTimely }
{
    let Some(forms) = forms else {
        return formless_time(text);
    };
    match forms.time(text) {
        Ok(found) => Ok(TextTime::Local(found.time)),
        Err(fault) => Err(TextFault::Time(fault)),
    }
}

/// The orders in which a text is a day with hours, such as 2024050112, and which is a second since 1970 too; none where it is no
/// such number. If all texts of a column have an order in common, none of them is a second for certain.
pub fn orders_in(text: &[u8]) -> DayOrders
    ensures { result ≡ orders_in text.now }
{
    match number_moment(text) {
        Ok(moment) => DayOrders::of(moment),
        Err(_) => DayOrders::none(),
    }
}

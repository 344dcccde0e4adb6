// What is asked of an export.

use range_plane::Scale;
use split_clock::Clock;
use split_filters::Filters;
use split_times::Forms;
use split_titles::Named;

/// What is asked of an export.
#[derive(Clone, Copy)]
pub struct Asked<'a> {
    /// The columns that are named.
    pub named: Named<'a>,
    /// The name of the animal where no column has one.
    pub name: &'a [u8],
    pub unit: Scale,
    /// Whether commas may stand before decimals also where they part fields: the text was made of others whose fields they did
    /// not part.
    pub has_commas: bool,
    /// Words that are missing wherever they stand, beside the empty field and NA.
    pub missing: &'a [&'a [u8]],
    /// The forms of times. None where they are ISO texts or seconds since 1970.
    pub forms: Option<Forms<'a>>,
    /// The clock of times that do not say how far it is ahead of UTC. None is that of UTC.
    pub clock: Option<&'a Clock>,
    pub filters: Filters<'a>,
    /// Whether a column of the time has to be there.
    pub needs_time: bool,
    /// Whether records that have coordinates and name no animal are left out; else they are a fault.
    pub skips_unnamed: bool,
}

// Forms of times, several between `|`.

ghost use Rattle.std.specs.Prelude.{◌≡◌, ◌<◌, ◌^◌, [], ◌∷◌, ◌+◌, IfOk, IfSome, MatchOption, length, ◌≤◌};
ghost use Rattle.std.specs.List.{position_or_len};
ghost use Rattle.split_times.specs.Limits.{IsLocalSecond};
ghost use Rattle.split_times.specs.Several.{first_fault, first_time, forms_fault, forms_of, is_bar};

use crate::form::form_time;
use crate::local::LocalTime;
use crate::moment::TimeFault;
use crate::signs::{FormFault, form_fault};

/// The most bytes that the text of forms may have.
pub const FORM_LIMIT: usize = 255;

/// Forms of times, as of `%d.%m.%Y %H:%M:%S`, several between `|`. In a form `%Y` stands for a year of four digits and `%y`
/// for one of two, which from 69 on is of 1969 to 1999; `%m` for a month and `%d` for its day, in one digit or two, `%b`
/// for `Jan` to `Dec`, and `%j` for the day of the year in at most three; `%H` for an hour from 0 to 23, `%I` for one from
/// 1 to 12 with `%p` for `am` or `pm`; `%M` for a minute and `%S` for a second, which may have decimals behind a point.
/// Signs of digits that stand side by side, as in `%H%M`, have all their digits. Any other byte stands for itself. Capitals do
/// not matter.
#[derive(Clone, Copy)]
pub struct Forms<'a> {
    text: &'a [u8],
}

/// A time, and which of several forms it has, counted from 0.
#[derive(Clone, Copy, PartialEq, Eq, Debug)]
pub struct FormTime {
    pub time: LocalTime,
    pub form: usize,
}

// Where the first bar of a text stands, or where it ends.
fn bar_place(text: &[u8]) -> usize
    ensures value { result ≡ position_or_len is_bar text.now }
    ensures within { result ≤ length text.now }
{
    match text.iter().position(|byte| *byte == b'|') {
        Some(place) => place,
        None => text.len(),
    }
}

// The first of forms, and those behind it, if there are.
#[tactic(auto, using(crate::proofs::Bars::one_form, crate::proofs::Bars::more_forms))]
fn first_form(forms: &[u8]) -> (&[u8], Option<&[u8]>)
    ensures first { MatchOption result.1 (forms_of forms.entry.now ≡ result.0.now ∷ [])
        (λ others. forms_of forms.entry.now ≡ result.0.now ∷ forms_of others.now) }
    ensures fewer { IfSome result.1 (λ others. length others.now < length forms.entry.now) }
{
    let place = bar_place(forms);
    if place < forms.len() {
        (&forms[..place], Some(&forms[place + 1..]))
    } else {
        (forms, None)
    }
}

// Why one of the forms is none, if one is.
#[tactic(auto, unfolding(crate::specs::Several::first_fault))]
fn first_fault(forms: &[u8]) -> Option<FormFault>
    ensures { result ≡ first_fault (forms_of forms.now) }
{
    let (form, others) = first_form(forms);
    match (form_fault(form), others) {
        (None, Some(others)) => first_fault(others),
        (fault, _) => fault,
    }
}

// The time of a text under the first of the forms that it has, of which so many come before.
#[tactic(auto, unfolding(crate::specs::Several::first_time))]
fn first_time(forms: &[u8], before: usize, text: &[u8]) -> Result<FormTime, TimeFault>
    requires { before + length forms.now < 2 ^ 63 }
    ensures value { result ≡ first_time (forms_of forms.now) before text.now }
    ensures within { IfOk result (λ found. IsLocalSecond found.time.second × (found.time.nanosecond < 10 ^ 9)) }
{
    let (form, others) = first_form(forms);
    match (form_time(form, text), others) {
        (Ok(time), _) => Ok(FormTime { time, form: before }),
        (Err(TimeFault::NotTime), Some(others)) => first_time(others, before + 1, text),
        (Err(fault), _) => Err(fault),
    }
}

impl<'a> Forms<'a> {
    ghost use Rattle.std.specs.Prelude.{◌≡◌, ◌<◌, ◌^◌, IfOk, MatchResult, None, Some};
    ghost use Rattle.split_times.specs.Limits.{IsLocalSecond};
    ghost use Rattle.split_times.specs.Several.{first_time, forms_fault, forms_of};

    /// The forms of a text, or why it has none, or one that is none. In a form a year stands once, and so does a day, as
    /// `%d` with `%m` or `%b`, or as `%j`. There are no minutes without hours and no seconds without minutes, `%I` and
    /// `%p` stand together or neither, and not beside `%H`.
    pub fn new(text: &'a [u8]) -> Result<Forms<'a>, FormFault>
        ensures { MatchResult result (λ forms. (forms_fault text.entry.now ≡ None) × (forms.text.now ≡ text.entry.now))
            (λ fault. forms_fault text.entry.now ≡ Some fault) }
    {
        if text.len() > FORM_LIMIT {
            return Err(FormFault::TooLong);
        }
        match first_fault(text) {
            Some(fault) => Err(fault),
            None => Ok(Forms { text }),
        }
    }

    /// The time of a text under the first of the forms by which it is one. A form is one of the whole text: each of its
    /// signs takes as many bytes as it can, and fewer where only so the rest of the text has the rest of the form. A
    /// second takes all decimals behind it, or no point. A text with more than nine decimals is refused, and so is one
    /// that has no form, or whose time no calendar or no clock has, as 31 April, `24:00`, second 60, 13 pm and day 0.
    pub fn time(self, text: &[u8]) -> Result<FormTime, TimeFault>
        ensures value { result ≡ first_time (forms_of self.entry.text.now) 0 text.now }
        ensures within { IfOk result (λ found. IsLocalSecond found.time.second × (found.time.nanosecond < 10 ^ 9)) }
    {
        first_time(self.text, 0, text)
    }
}

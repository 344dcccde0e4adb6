// Tests of texts that are no forms of times. Where the package for Python takes one of them, that is said.

use split_times::{FORM_LIMIT, FormFault, Forms};
use std::process::Abort;

// Checks why a text is no form, or that it is one.
fn expect(rt: &impl Abort, text: &[u8], expected: Option<FormFault>) {
    let found = match Forms::new(text) {
        Ok(_) => None,
        Err(fault) => Some(fault),
    };
    assert!(rt; found == expected, "{text:?} {found:?}");
}

#[test]
fn texts_that_say_no_day_or_half_a_time_are_no_forms(rt: HostRuntime) {
    for (text, fault) in [
        ("", FormFault::NoYear),
        ("%d.%m. %H:%M", FormFault::NoYear),
        ("%H:%M", FormFault::NoYear),
        ("%Y-%m", FormFault::NoDay),
        ("%Y %d", FormFault::NoDay),
        ("%Y", FormFault::NoDay),
        ("%Y-%m-%d %I:%M", FormFault::HalfOfDay),
        ("%Y-%m-%d %H:%M %p", FormFault::HalfOfDay),
        ("%Y-%m-%d %M", FormFault::MinuteWithoutHour),
        ("%Y-%m-%d %H:%S", FormFault::SecondWithoutMinute),
        ("%Y-%m-%d %S", FormFault::SecondWithoutMinute),
        ("%Y-%m-%d %Q", FormFault::UnknownSign),
        ("%Y-%m-%d %%", FormFault::UnknownSign),
        ("%Y-%m-%d %T", FormFault::UnknownSign),
        ("%Y-%m-%d %e", FormFault::UnknownSign),
        ("%Y-%m-%d %\u{e9}", FormFault::UnknownSign),
        ("%Y-%m-%d|", FormFault::NoYear),
        ("|%Y-%m-%d", FormFault::NoYear),
        ("%Y-%m-%d|%Y-%m", FormFault::NoDay),
    ] {
        expect(&rt, text.as_bytes(), Some(fault));
    }
}

#[test]
fn nothing_is_said_twice(rt: HostRuntime) {
    for text in ["%Y-%m-%d %Y", "%Y-%m-%d %d", "%Y-%m-%d %H:%M:%S %S"] {
        expect(&rt, text.as_bytes(), Some(FormFault::SaidTwice));
    }
    // The package for Python takes these but the last two, and leaves one of both out.
    for text in [
        "%Y %y %j",
        "%d %b %m %Y",
        "%Y %j %d",
        "%Y %j %m",
        "%Y-%m-%d %H %I",
        "%Y-%m-%d %H %I %p",
    ] {
        expect(&rt, text.as_bytes(), Some(FormFault::SaidTwice));
    }
}

#[test]
fn texts_of_forms_are_of_a_length(rt: HostRuntime) {
    let mut text = [b'-'; FORM_LIMIT + 1];
    text[..8].copy_from_slice(b"%Y-%m-%d");
    expect(&rt, &text, Some(FormFault::TooLong));
    expect(&rt, &text[..FORM_LIMIT], None);
}

#[test]
fn all_signs_make_forms(rt: HostRuntime) {
    for text in [
        "%Y-%m-%d",
        "%d.%m.%y",
        "%d %b %Y",
        "%Y %j",
        "%Y-%m-%d %H",
        "%Y-%m-%d %H:%M:%S",
        "%Y-%m-%d %I %p",
        "%p %S %M %I %d %b %y",
    ] {
        expect(&rt, text.as_bytes(), None);
    }
}

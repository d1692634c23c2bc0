//! Texts name the days that a calendar gives them.

use scr_dates::{Day, parse_day};

#[test]
fn texts_name_the_days_that_a_calendar_gives_them(rt: HostRuntime) {
    for (text, number) in [
        (b"1969-12-31", Some(Day { number: -1 })),
        (b"1900-01-01", Some(Day { number: -25_567 })),
        (b"2000-02-29", Some(Day { number: 11_016 })),
        (b"2200-12-31", Some(Day { number: 84_370 })),
        (b"1900-02-29", None),
        (b"2024-04-31", None),
        (b"2201-01-01", None),
        (b"2024-01--1", None),
    ] {
        assert_eq!(rt; parse_day(text), number);
    }
}

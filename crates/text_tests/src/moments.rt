//! Moments, as civil dates and times, and their seconds.
use civil_moment::read_moment;

#[rattlefmt::skip]
static MOMENTS: [(&str, Option<i64>); 24] = [
    ("1970-01-01T00:00:00Z", Some(0)),
    ("2024-03-01T00:00:00Z", Some(1_709_251_200)),
    ("2024-02-29T23:59:59Z", Some(1_709_251_199)),
    ("2000-02-29T12:34:56Z", Some(951_827_696)),
    ("1969-12-31T23:59:59Z", Some(-1)),
    ("0000-01-01T00:00:00Z", Some(-62_167_219_200)),
    ("9999-12-31T23:59:59Z", Some(253_402_300_799)),
    ("1900-02-29T00:00:00Z", None),
    ("2024-02-30T00:00:00Z", None),
    ("2024-00-01T00:00:00Z", None),
    ("2024-13-01T00:00:00Z", None),
    ("2024-03-00T00:00:00Z", None),
    ("2024-03-01T24:00:00Z", None),
    ("2024-03-01T00:60:00Z", None),
    ("2016-12-31T23:59:60Z", None),
    ("2024-03-01t00:00:00Z", None),
    ("2024-03-01T00:00:00z", None),
    ("2024-03-01 00:00:00Z", None),
    ("2024-03-01T00:00:00Z ", None),
    ("2024-03-01T00:00:0Z", None),
    ("2024/03/01T00:00:00Z", None),
    ("+024-03-01T00:00:00Z", None),
    ("2024-03-01T00:00:00\u{e9}", None),
    ("", None),
];

#[test]
fn moments_are_civil_dates_and_times(rt: HostRuntime) {
    for (text, wanted) in &MOMENTS {
        assert_eq!(rt; read_moment(text), *wanted, "at {text}");
    }
}

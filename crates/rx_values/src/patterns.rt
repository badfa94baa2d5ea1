//! The forms of times.
ghost use Rattle.std.specs.Prelude.{◌≡◌, option_copied, option_map};
ghost use Rattle.std.specs.Str.{chars};
ghost use Rattle.rx_values.specs.Kinds.{datatype_name};
ghost use Rattle.rx_rdfa.specs.Times.{follows, is_zone, after_year, after_month, after_date, after_char, after_clock, time_kind, ◌andThen◌};

use crate::clocks::after_clock;
use crate::durations::is_duration;
use crate::readers::after_char;
use crate::years::{after_part, after_year};
use crate::zones::ends_in_zone;

/// The datatypes of XML Schema whose lexical forms HTML+RDFa knows as times: each is the form of one.
#[derive(Clone, Copy, Debug, PartialEq, Eq)]
pub enum TimeKind {
    Date,
    Time,
    DateTime,
    Duration,
    Year,
    YearMonth,
}

/// The datatype whose lexical form the whole text has, and None where it has that of none. White space isn't trimmed.
pub fn pattern(text: &str) -> Option<TimeKind>
    ensures { option_map datatype_name result ≡ time_kind (chars text.now) }
{
    kind_of(text.as_bytes())
}

#[tactic(auto, unfolding(rx_rdfa::specs::Times::time_kind))]
fn kind_of(text: &[u8]) -> Option<TimeKind>
    ensures { option_map datatype_name result ≡ time_kind text.now }
{
    let year = after_year(text);
    if ends_in_zone(year) {
        return Some(TimeKind::Year);
    }
    let month = after_part(year, 12);
    if ends_in_zone(month) {
        return Some(TimeKind::YearMonth);
    }
    let date = after_part(month, 31);
    if ends_in_zone(date) {
        return Some(TimeKind::Date);
    }
    if ends_in_zone(after_clock(text)) {
        return Some(TimeKind::Time);
    }
    if ends_in_zone(after_time_of(date)) {
        return Some(TimeKind::DateTime);
    }
    if is_duration(text) {
        return Some(TimeKind::Duration);
    }
    None
}

/// What follows `T` and a time of day, behind a date.
fn after_time_of(rest: Option<&[u8]>) -> Option<&[u8]>
    ensures { option_copied result ≡ (option_copied rest.entry andThen after_char 84 andThen after_clock) }
{
    after_clock(after_char(rest?, b'T')?)
}

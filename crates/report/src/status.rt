ghost use Rattle.std.specs.Prelude.{◌≡◌, ◌≤◌, length};
ghost use Rattle.report.specs.Status.{is_of_class, count as count_of, has_some as has_some_of, status_of as status_of_rows};

use crate::row::{Finding, Row};

/// A class of findings, in the order in which a report counts them.
#[derive(Clone, Copy, Debug, PartialEq, Eq)]
pub enum Class {
    Correct,
    Incorrect,
    Unknown,
    Refused,
    Signature,
    Missing,
    Extra,
}

/// The status of a report of these rows: 1 where one is incorrect, else 2 where one is unknown, else 3
/// where one was not judged, else 0.
pub fn status_of(rows: &[Row]) -> u8
    ensures value { result ≡ status_of_rows rows.now }
    ensures most { result ≤ 3 }
{
    if has_some(rows, Class::Incorrect) {
        1
    } else if has_some(rows, Class::Unknown) {
        2
    } else if has_some(rows, Class::Refused)
        || has_some(rows, Class::Signature)
        || has_some(rows, Class::Missing)
        || has_some(rows, Class::Extra)
    {
        3
    } else {
        0
    }
}

fn has_some(rows: &[Row], class: Class) -> bool
    ensures { result ≡ has_some_of class rows.now }
{
    count(rows, class) > 0
}

/// How many rows have a finding of the class.
pub(crate) fn count(rows: &[Row], class: Class) -> u64
    ensures value { result ≡ count_of class rows.now }
    ensures most { result ≤ length rows.now }
{
    let mut count = 0;
    for row in rows {
        if is_of(&row.finding, class) {
            count += 1;
        }
    }
    count
}

fn is_of(finding: &Finding, class: Class) -> bool
    ensures { result ≡ is_of_class class finding.now }
{
    match class {
        Class::Correct => matches!(finding, Finding::Correct),
        Class::Incorrect => matches!(finding, Finding::Incorrect { .. }),
        Class::Unknown => matches!(finding, Finding::Unknown(_)),
        Class::Refused => matches!(finding, Finding::Refused { .. }),
        Class::Signature => matches!(finding, Finding::Signature),
        Class::Missing => matches!(finding, Finding::Missing),
        Class::Extra => matches!(finding, Finding::Extra),
    }
}

ghost use Rattle.std.specs.Prelude.{◌≡◌, ◌+◌, ◌<◌};

use crate::coming::{Numbers, write_coming};
use crate::record_texts::Spot;
use crate::record_words::{GREATEST_ROUND, PAGE, ROUND, ZEROS};
use dr_stream_reader::Standing;
use std::fmt;

/// The number before this one.
fn number_before(next: u32) -> u32
    ensures { 0 < next → result + 1 ≡ next }
{
    next.saturating_sub(1)
}

/// Writes why no round of this number may begin.
fn write_round<W: fmt::Write>(
    f: &mut fmt::Formatter<W>,
    standing: Standing,
    round: u32,
) -> fmt::Result {
    let before = standing.round;
    if before == 0 || GREATEST_ROUND < round {
        write!(f, "there is no round {round}")
    } else {
        write!(f, "round {round} may not come after round {before}")
    }
}

/// Writes why no page of this number may be named.
fn write_page<W: fmt::Write>(
    f: &mut fmt::Formatter<W>,
    standing: Standing,
    page: u32,
) -> fmt::Result {
    let Standing {
        pages,
        round,
        least,
        ..
    } = standing;
    if round == 0 {
        write!(f, "page {page} may not come before any round")
    } else if pages <= page {
        let greatest = number_before(pages);
        write!(
            f,
            "page {page} may not come in a stream whose last page is {greatest}"
        )
    } else {
        let before = number_before(least);
        write!(
            f,
            "page {page} may not come after page {before} in round {round}"
        )
    }
}

/// Writes why there may not be as many zeros.
fn write_count<W: fmt::Write>(
    f: &mut fmt::Formatter<W>,
    standing: Standing,
    first: u32,
    count: u32,
) -> fmt::Result {
    let counts = Numbers {
        low: 1,
        high: standing.pages.saturating_sub(first),
    };
    write!(
        f,
        "zeros from page {first} with the count {count}, which may be {counts}"
    )
}

/// Writes why zeros may not come here.
fn write_zeros<W: fmt::Write>(f: &mut fmt::Formatter<W>, spot: &Spot, first: u32) -> fmt::Result {
    match spot.found.count {
        Some(count) if spot.standing.names_page(first) => {
            write_count(f, spot.standing, first, count)
        }
        _ => {
            f.write_str("zeros from ")?;
            write_page(f, spot.standing, first)?;
            write_coming(f, spot.standing)
        }
    }
}

/// Writes why a record may not come here, and what may.
pub fn write_place<W: fmt::Write>(f: &mut fmt::Formatter<W>, spot: &Spot) -> fmt::Result {
    write!(f, "byte {}: ", spot.at)?;
    match (spot.found.kind, spot.found.number) {
        (Some(ROUND), Some(round)) => write_round(f, spot.standing, round)?,
        (Some(PAGE), Some(page)) => write_page(f, spot.standing, page)?,
        (Some(ZEROS), Some(first)) => return write_zeros(f, spot, first),
        _ => f.write_str("a record that may not come here")?,
    }
    write_coming(f, spot.standing)
}

use crate::record_words::{GREATEST_ROUND, has_zeros};
use dr_stream_reader::Standing;
use std::fmt;

/// The numbers from one to another.
#[derive(Clone, Copy)]
pub struct Numbers {
    pub low: u32,
    pub high: u32,
}

impl fmt::Display for Numbers {
    fn fmt<W: fmt::Write>(&self, f: &mut fmt::Formatter<W>) -> fmt::Result {
        let Numbers { low, high } = *self;
        if low == high {
            write!(f, "{low}")
        } else {
            write!(f, "{low} to {high}")
        }
    }
}

/// The numbers from one to another, where that is no smaller.
fn numbers_from(low: u32, high: u32) -> Option<Numbers> {
    if low <= high {
        Some(Numbers { low, high })
    } else {
        None
    }
}

/// The rounds that may begin next.
fn rounds(standing: Standing) -> Option<Numbers> {
    numbers_from(standing.round.saturating_add(1), GREATEST_ROUND)
}

/// The pages that may be named next.
fn pages(standing: Standing) -> Option<Numbers> {
    if standing.round == 0 || standing.pages == 0 {
        None
    } else {
        numbers_from(standing.least, standing.pages - 1)
    }
}

fn write_rounds<W: fmt::Write>(f: &mut fmt::Formatter<W>, rounds: Option<Numbers>) -> fmt::Result {
    match rounds {
        Some(rounds) => write!(f, "a round (kind 1) numbered {rounds}, "),
        None => Ok(()),
    }
}

fn write_pages<W: fmt::Write>(
    f: &mut fmt::Formatter<W>,
    version: u32,
    pages: Option<Numbers>,
) -> fmt::Result {
    match pages {
        Some(pages) if has_zeros(version) => {
            write!(
                f,
                "a page (kind 2) or a first page of zeros (kind 4) numbered {pages}, "
            )
        }
        Some(pages) => write!(f, "a page (kind 2) numbered {pages}, "),
        None => Ok(()),
    }
}

/// Writes which records may come next.
pub fn write_coming<W: fmt::Write>(f: &mut fmt::Formatter<W>, standing: Standing) -> fmt::Result {
    let rounds = rounds(standing);
    let pages = pages(standing);
    f.write_str(": ")?;
    write_rounds(f, rounds)?;
    write_pages(f, standing.version, pages)?;
    if rounds.is_some() || pages.is_some() {
        f.write_str("or ")?;
    } else {
        f.write_str("only ")?;
    }
    write!(
        f,
        "the end (kind 3) with the count {} may come here",
        standing.records
    )
}

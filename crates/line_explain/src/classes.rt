// Classes beside those that a text has.
use crate::fitting::word_at;
use crate::value::push_name;
use partitions::{Part, PartitionTable};
use script::{NumberPlace, RangeEnd, WordPlace};
use std::alloc::AllocError;

/// The whole limit in thousandths.
const WHOLE: u32 = 1_000;

/// Why a class of allowed name and share, or as many places as are allowed, isn't taken.
#[derive(Clone, Copy)]
pub(crate) enum Refusal {
    /// There are as many as there may be.
    TooMany,
    /// One has its name.
    Given,
    /// The shares come to more than the whole; so many thousandths are left.
    Left(u32),
    /// More than 10,000 could wait; so many places are left.
    Full { left: u64, place: usize },
}

/// The place of the word for which a line's class isn't taken.
pub(crate) fn place_of(refusal: Refusal) -> usize {
    match refusal {
        Refusal::TooMany => 0,
        Refusal::Given => 1,
        Refusal::Left(_) => 2,
        Refusal::Full { place, .. } => place,
    }
}

/// Why a line isn't taken behind the classes of a table and where so many places are left, whose
/// name and numbers are allowed: one that gives a class, or places of the backlog.
pub(crate) fn refusal_of(table: &PartitionTable, left: u64, line: &[u8]) -> Refusal {
    match word_at(line, 0) {
        Some(b"places") => Refusal::Full { left, place: 2 },
        Some(b"backlog") => Refusal::Full { left, place: 1 },
        _ => refusal_of_class(table, line),
    }
}

/// Why the class of a line isn't taken behind those of a table.
fn refusal_of_class(table: &PartitionTable, line: &[u8]) -> Refusal {
    let name = word_at(line, 1).unwrap_or(b"");
    if table.find(name).is_some() {
        Refusal::Given
    } else if table.len() > 3 {
        Refusal::TooMany
    } else {
        Refusal::Left(left_of(table))
    }
}

/// How many thousandths the classes leave.
fn left_of(table: &PartitionTable) -> u32 {
    let mut left = WHOLE;
    for row in 0..table.len() {
        left = left.saturating_sub(table.share(Part::Known(row as u8), WHOLE));
    }
    left
}

/// Says why a class isn't taken.
pub(crate) fn push_refusal(
    out: &mut String,
    form: &[WordPlace],
    refusal: Refusal,
) -> Result<(), AllocError> {
    match (refusal, form.get(2)) {
        (Refusal::TooMany, _) => out.push_str("there may be at most four classes"),
        (Refusal::Left(left), Some(WordPlace::Number(number))) => push_left(out, *number, left),
        (Refusal::Full { left, .. }, _) => write!(
            out,
            "N, here 0 to {left}, what is left of 10000"
        ),
        _ => push_name(out),
    }
}

/// Says what the classes before leave, in the unit of the line.
fn push_left(out: &mut String, number: NumberPlace, left: u32) -> Result<(), AllocError> {
    let NumberPlace {
        name,
        held,
        high,
        ..
    } = number;
    let left = match high {
        RangeEnd::At(100) => left / 10,
        _ => left,
    };
    if left == 0 {
        write!(out, "{name}, {held}and the classes before leave none")
    } else {
        write!(
            out,
            "{name}, {held}here 1 to {left}, what the classes before leave"
        )
    }
}

/// Says which classes a line may name.
pub(crate) fn push_names(out: &mut String, table: &PartitionTable) -> Result<(), AllocError> {
    out.push_str("CLASS, one of ")?;
    for row in 0..table.len() {
        let name = table.name(Part::Known(row as u8));
        write!(out, "{name}, ")?;
    }
    out.push_str("unknown")
}

/// Says which classes a line may give places, which has to stand behind their lines.
pub(crate) fn push_names_before(
    out: &mut String,
    table: &PartitionTable,
) -> Result<(), AllocError> {
    out.push_str("NAME, a class of a line before")?;
    for row in 0..table.len() {
        let name = table.name(Part::Known(row as u8));
        let mark = if row == 0 { ": " } else { ", " };
        write!(out, "{mark}{name}")?;
    }
    Ok(())
}

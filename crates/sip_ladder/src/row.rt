//! The rows of a ladder.

ghost use Rattle.std.specs.Prelude.{◌≡◌, ◌++◌, IfOk, OnOk};
ghost use Rattle.sip_ladder.specs.Row as spec;

use crate::columns::Columns;
use crate::line::{Line, Way};
use sip_text::decimal;
use std::alloc::{AllocError, Global};

/// The most characters of a row.
const MOST: usize = 100;

/// How many characters a moment takes.
const MOMENT: usize = 10;

/// The row of a line.
#[tactic(auto, unfolding(crate::specs::Row::row_text))]
pub(crate) fn row(alloc: Global, columns: &Columns, line: &Line) -> Result<Vec<u8>, AllocError>
    ensures { IfOk result (λ row. row.items ≡ spec.row_text columns.now line.now) }
{
    let mut row = Vec::new(alloc);
    push_moment(alloc, &mut row, line.moment)?;
    push_columns(alloc, &mut row, columns, line.way)?;
    row.extend_from_slice(b"  ")?;
    row.extend_from_slice(line.label.as_slice())?;
    row.truncate(MOST);
    Ok(row)
}

#[tactic(auto, unfolding(crate::specs::Row::moment_text))]
fn push_moment(alloc: Global, row: &mut Vec<u8>, moment: u64) -> Result<(), AllocError>
    ensures { OnOk result (row.new.items ≡ row.old.items ++ spec.moment_text moment) }
{
    let digits = decimal(moment);
    let blanks = " ".repeat(alloc, MOMENT.saturating_sub(digits.len()))?;
    row.extend_from_slice(blanks.as_bytes())?;
    row.extend_from_slice(&digits)?;
    row.extend_from_slice(b"  ")
}

// The columns, with the arrow in this direction.
#[tactic(auto, unfolding(crate::specs::Row::columns_text))]
fn push_columns(
    alloc: Global,
    row: &mut Vec<u8>,
    columns: &Columns,
    way: Way,
) -> Result<(), AllocError>
    ensures { OnOk result (row.new.items ≡ row.old.items ++ spec.columns_text columns.now way) }
{
    let width = columns.width;
    let free = match way {
        Way::In(peer) => {
            let place = columns.place(peer);
            row.extend_from_slice(b"|<")?;
            push_shaft(alloc, row, width, place)?;
            row.extend_from_slice(b"|")?;
            columns.count.saturating_sub(1).saturating_sub(place)
        }
        Way::Out(peer) => {
            let place = columns.place(peer);
            row.extend_from_slice(b"|")?;
            push_shaft(alloc, row, width, place)?;
            row.extend_from_slice(b">|")?;
            columns.count.saturating_sub(1).saturating_sub(place)
        }
        Way::Own => {
            row.extend_from_slice(b"*")?;
            columns.count
        }
    };
    push_free(alloc, row, width, free)
}

// An arrow without its head and its ends. It passes `passed` columns.
#[tactic(auto, unfolding(crate::specs::Row::shaft))]
fn push_shaft(
    alloc: Global,
    row: &mut Vec<u8>,
    width: usize,
    passed: usize,
) -> Result<(), AllocError>
    ensures { OnOk result (row.new.items ≡ row.old.items ++ spec.shaft width passed) }
{
    let one = "-".repeat(alloc, width)?;
    row.extend_from_slice(one.repeat(alloc, passed)?.as_bytes())?;
    row.extend_from_slice("-".repeat(alloc, width.saturating_sub(2))?.as_bytes())
}

// `count` columns without an arrow.
#[tactic(auto, unfolding(crate::specs::Row::free_columns))]
fn push_free(alloc: Global, row: &mut Vec<u8>, width: usize, count: usize) -> Result<(), AllocError>
    ensures { OnOk result (row.new.items ≡ row.old.items ++ spec.free_columns width count) }
{
    let mut one = " ".repeat(alloc, width.saturating_sub(1))?;
    one.push_str("|")?;
    row.extend_from_slice(one.repeat(alloc, count)?.as_bytes())
}

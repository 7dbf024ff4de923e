//! The text of a ladder: its head and its rows.

ghost use Rattle.std.specs.Prelude.{◌≡◌, ◌++◌, IfOk, OnOk, map};
ghost use Rattle.std.specs.List.{flat_map};
ghost use Rattle.sip_ladder.specs.Drawing.{Draws};
ghost use Rattle.sip_ladder.specs.Row.{row_line};

use crate::columns::Columns;
use crate::head::head;
use crate::line::Line;
use crate::lines::lines_of;
use crate::row::row;
use sip_message::Addr;
use sip_round::{Output, Round};
use std::alloc::{AllocError, Global};

/// The ladder of rounds and their outputs, for an agent with this address.
pub(crate) fn draw(
    alloc: Global,
    local: Addr,
    rounds: &[Round],
    answers: &[Vec<Output>],
) -> Result<Vec<u8>, AllocError>
    ensures { IfOk result (λ text.
        Draws local rounds.now (map (λ outputs. outputs.items) answers.now) text.items) }
{
    let lines = lines_of(alloc, rounds, answers)?;
    let columns = Columns::of(alloc, &lines)?;
    let mut text = head(alloc, local, &columns)?;
    push_rows(alloc, &mut text, &columns, &lines)?;
    Ok(text)
}

fn push_rows(
    alloc: Global,
    text: &mut Vec<u8>,
    columns: &Columns,
    lines: &[Line],
) -> Result<(), AllocError>
    ensures { OnOk result (text.new.items ≡ text.old.items
        ++ flat_map (row_line columns.now) lines.now) }
{
    for line in lines {
        push_row(alloc, text, columns, line)?;
    }
    Ok(())
}

#[tactic(auto, unfolding(crate::specs::Row::row_line))]
fn push_row(
    alloc: Global,
    text: &mut Vec<u8>,
    columns: &Columns,
    line: &Line,
) -> Result<(), AllocError>
    ensures { OnOk result (text.new.items ≡ text.old.items ++ row_line columns.now line.now) }
{
    let row = row(alloc, columns, line)?;
    text.extend_from_slice(&row)?;
    text.push(b'\n')?;
    Ok(())
}

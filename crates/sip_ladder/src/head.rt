//! The head of a ladder.

ghost use Rattle.std.specs.Prelude.{◌≡◌, ◌++◌, decimal, IfOk, OnOk};
ghost use Rattle.std.specs.List.{flat_map, range_with_len};
ghost use Rattle.sip_message.specs.Addr as address;
ghost use Rattle.sip_ladder.specs.Head as spec;

use crate::columns::Columns;
use sip_message::Addr;
use sip_text::decimal;
use std::alloc::{AllocError, Global};

/// How many characters the name of a column takes.
const NAME: usize = 10;

/// Says whose each column is, for an agent with this address, and adds a row with the columns'
/// names.
#[tactic(auto, unfolding(crate::specs::Head::head_text))]
pub(crate) fn head(alloc: Global, local: Addr, columns: &Columns) -> Result<Vec<u8>, AllocError>
    ensures { IfOk result (λ text. text.items ≡ spec.head_text local columns.now) }
{
    let mut text = Vec::new(alloc);
    let agent = format!(in alloc; "{local}")?;
    push_legend(alloc, &mut text, b"ua", agent.as_bytes())?;
    push_peers(alloc, &mut text, columns.peers.as_slice())?;
    push_others(alloc, &mut text, columns)?;
    text.push(b'\n')?;
    push_names(alloc, &mut text, columns)?;
    Ok(text)
}

fn push_peers(alloc: Global, text: &mut Vec<u8>, peers: &[Addr]) -> Result<(), AllocError>
    ensures { OnOk result (text.new.items ≡ text.old.items ++ spec.peer_lines peers.now) }
{
    for (index, peer) in peers.iter().enumerate() {
        push_peer(alloc, text, index + 1, *peer)?;
    }
    Ok(())
}

fn push_peer(alloc: Global, text: &mut Vec<u8>, number: usize, peer: Addr) -> Result<(), AllocError>
    ensures { OnOk result (text.new.items ≡ text.old.items
        ++ spec.legend_line (decimal number) (address.addr_text peer)) }
{
    let whose = format!(in alloc; "{peer}")?;
    push_legend(alloc, text, &decimal(number as u64), whose.as_bytes())
}

fn push_others(alloc: Global, text: &mut Vec<u8>, columns: &Columns) -> Result<(), AllocError>
    ensures { OnOk result (text.new.items ≡ text.old.items ++ spec.others_line columns.now) }
{
    let count = columns.count;
    if columns.peers.len() < count {
        push_legend(alloc, text, &decimal(count as u64), b"all others")?;
    }
    Ok(())
}

// The name of a column, and who has it.
#[tactic(auto, unfolding(crate::specs::Head::legend_line))]
fn push_legend(
    alloc: Global,
    text: &mut Vec<u8>,
    name: &[u8],
    whose: &[u8],
) -> Result<(), AllocError>
    ensures { OnOk result (text.new.items ≡ text.old.items
        ++ spec.legend_line name.now whose.now) }
{
    push_right(alloc, text, NAME, name)?;
    text.extend_from_slice(b"  ")?;
    text.extend_from_slice(whose)?;
    text.push(b'\n')?;
    Ok(())
}

// The row of the columns' names.
#[tactic(auto, unfolding(crate::specs::Head::names_line))]
fn push_names(alloc: Global, text: &mut Vec<u8>, columns: &Columns) -> Result<(), AllocError>
    ensures { OnOk result (text.new.items ≡ text.old.items ++ spec.names_line columns.now) }
{
    text.extend_from_slice(b"        ms  ua")?;
    push_numbers(alloc, text, columns.width, columns.count)?;
    text.push(b'\n')?;
    Ok(())
}

fn push_numbers(
    alloc: Global,
    text: &mut Vec<u8>,
    width: usize,
    count: usize,
) -> Result<(), AllocError>
    ensures { OnOk result (text.new.items ≡ text.old.items
        ++ flat_map (spec.column_name width) (range_with_len 1 count)) }
{
    for index in 0..count {
        push_number(alloc, text, width, index + 1)?;
    }
    Ok(())
}

fn push_number(
    alloc: Global,
    text: &mut Vec<u8>,
    width: usize,
    number: usize,
) -> Result<(), AllocError>
    ensures { OnOk result (text.new.items ≡ text.old.items ++ spec.column_name width number) }
{
    // The name of the agent's column has two characters.
    let room = if number == 1 {
        width.saturating_sub(1)
    } else {
        width
    };
    push_right(alloc, text, room, &decimal(number as u64))
}

// A text at the right of `width` characters.
#[tactic(auto, unfolding(crate::specs::Head::at_right))]
fn push_right(
    alloc: Global,
    text: &mut Vec<u8>,
    width: usize,
    word: &[u8],
) -> Result<(), AllocError>
    ensures { OnOk result (text.new.items ≡ text.old.items ++ spec.at_right width word.now) }
{
    let blanks = " ".repeat(alloc, width.saturating_sub(word.len()))?;
    text.extend_from_slice(blanks.as_bytes())?;
    text.extend_from_slice(word)
}

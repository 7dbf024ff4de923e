//! The lines of a ladder, made from the rounds and their outputs.

ghost use Rattle.std.specs.Prelude.{◌≡◌, ◌++◌, codes, IfOk, OnOk, List, ℕ, map};
ghost use Rattle.sip_ladder.specs.Shapes as spec;
ghost use Rattle.sip_ladder.specs.Shapes.{Comes, IsGiven, Shows};

use crate::before::{Before, name_of};
use crate::label::{of_datagram, of_fields};
use crate::line::{Line, Way};
use sip_files::{write_event, write_output};
use sip_round::{Event, Output, Round};
use std::alloc::{AllocError, Global};

/// A line for each event and each output of the rounds.
pub(crate) fn lines_of(
    alloc: Global,
    rounds: &[Round],
    answers: &[Vec<Output>],
) -> Result<Vec<Line>, AllocError>
    ensures { IfOk result (λ lines. map spec.shape lines.items
        ≡ spec.shapes rounds.now (map (λ outputs. outputs.items) answers.now)) }
{
    let mut lines = Vec::new(alloc);
    let mut before = Before::new(alloc);
    let mut rounds_left = rounds;
    let mut answers_left = answers;
    while let Some((round, rounds_after)) = rounds_left.split_first() {
        let Some((outputs, answers_after)) = answers_left.split_first() else {
            return Ok(lines);
        };
        add_round(alloc, &mut lines, &mut before, round, outputs.as_slice())?;
        rounds_left = rounds_after;
        answers_left = answers_after;
    }
    Ok(lines)
}

fn add_round(
    alloc: Global,
    lines: &mut Vec<Line>,
    before: &mut Before,
    round: &Round,
    outputs: &[Output],
) -> Result<(), AllocError>
    ensures { OnOk result (Shows (spec.round_happenings round.now outputs.now) lines.old.items
        lines.new.items before.old.names.keys before.new.names.keys) }
{
    let moment = round.moment;
    add_events(alloc, lines, before, moment, round.events.as_slice())?;
    add_outputs(alloc, lines, before, moment, outputs)
}

fn add_events(
    alloc: Global,
    lines: &mut Vec<Line>,
    before: &mut Before,
    moment: u64,
    events: &[Event],
) -> Result<(), AllocError>
    ensures { OnOk result (Shows (map (Comes moment) events.now) lines.old.items lines.new.items
        before.old.names.keys before.new.names.keys) }
{
    for event in events {
        let line = event_line(alloc, before, moment, event)?;
        lines.push(line)?;
    }
    Ok(())
}

#[tactic(auto, unfolding(sip_files::specs::Written::ended_text))]
fn event_line(
    alloc: Global,
    before: &mut Before,
    moment: u64,
    event: &Event,
) -> Result<Line, AllocError>
    ensures shape { IfOk result (λ line. spec.shape line
        ≡ spec.event_shape before.old.names.keys moment event.now) }
    ensures names { OnOk result (before.new.names.keys
        ≡ spec.event_names before.old.names.keys event.now) }
{
    match event {
        Event::Datagram { from, bytes } => {
            arrow(alloc, before, moment, Way::In(*from), bytes.as_slice())
        }
        Event::Failed(_) | Event::Command(_) => {
            own_line(alloc, moment, &write_event(alloc, event)?)
        }
    }
}

fn add_outputs(
    alloc: Global,
    lines: &mut Vec<Line>,
    before: &mut Before,
    moment: u64,
    outputs: &[Output],
) -> Result<(), AllocError>
    ensures { OnOk result (Shows (map (IsGiven moment) outputs.now) lines.old.items
        lines.new.items before.old.names.keys before.new.names.keys) }
{
    for output in outputs {
        let line = output_line(alloc, before, moment, output)?;
        lines.push(line)?;
    }
    Ok(())
}

#[tactic(auto, unfolding(sip_files::specs::Outputs::output_line))]
fn output_line(
    alloc: Global,
    before: &mut Before,
    moment: u64,
    output: &Output,
) -> Result<Line, AllocError>
    ensures shape { IfOk result (λ line. spec.shape line
        ≡ spec.output_shape before.old.names.keys moment output.now) }
    ensures names { OnOk result (before.new.names.keys
        ≡ spec.output_names before.old.names.keys output.now) }
{
    match output {
        Output::Send { to, bytes, .. } => {
            arrow(alloc, before, moment, Way::Out(*to), bytes.as_slice())
        }
        Output::Dropped { .. } | Output::Notice(_) => {
            own_line(alloc, moment, &write_output(alloc, output)?)
        }
    }
}

// The line of a datagram.
fn arrow(
    alloc: Global,
    before: &mut Before,
    moment: u64,
    way: Way,
    bytes: &[u8],
) -> Result<Line, AllocError>
    ensures shape { IfOk result (λ line. spec.shape line
        ≡ spec.arrow_shape before.old.names.keys moment way bytes.now) }
    ensures names { OnOk result (before.new.names.keys
        ≡ spec.with_name (spec.datagram_name way bytes.now) before.old.names.keys) }
{
    let is_again = before.add(name_of(alloc, way, bytes)?)?;
    let label = of_datagram(alloc, bytes, is_again)?;
    Ok(Line { moment, way, label })
}

// A line without an arrow, for a line of a file, which is given with its end.
fn own_line(alloc: Global, moment: u64, line: &[u8]) -> Result<Line, AllocError>
    ensures { (text : List ℕ) → line.now ≡ text ++ codes "\n"
        → IfOk result (λ line. spec.shape line ≡ spec.own_shape moment text) }
{
    let way = Way::Own;
    let label = of_fields(alloc, without_end(line))?;
    Ok(Line { moment, way, label })
}

// A line without its end.
fn without_end(line: &[u8]) -> &[u8]
    ensures { (text : List ℕ) → line.now ≡ text ++ codes "\n" → result.now ≡ text }
{
    match line.split_last() {
        Some((_, text)) => text,
        None => line,
    }
}

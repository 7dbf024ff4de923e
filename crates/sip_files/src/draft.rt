//! What the lines of an event file say, read one after another.

ghost use Rattle.std.specs.Prelude.{◌≡◌, IfOk};
ghost use Rattle.sip_files.specs.Steps.Drafting as drafting;

use crate::event_line::EventLine;
use sip_message::Addr;
use sip_round::{Config, Event, Round};
use sip_text::Series;
use std::alloc::{AllocError, Global};

/// Which line of the head may come next. After the last of them only rounds and events may.
#[derive(Clone, Copy)]
pub(crate) enum Stage {
    /// The first line. It has to be there.
    Local,
    Seed,
    First,
    Rounds,
}

impl Stage {
    /// Whether the first line was taken.
    pub(crate) fn is_begun(self) -> bool
        ensures { result ≡ drafting.is_begun self }
    {
        match self {
            Stage::Local => false,
            Stage::Seed | Stage::First | Stage::Rounds => true,
        }
    }
}

/// What the lines read so far say. The configuration counts only after its first line was taken.
#[derive(Drop)]
pub(crate) struct Draft {
    pub config: Config,
    pub stage: Stage,
    pub rounds: Series<Round>,
}

impl Draft {
    /// Before the first line.
    pub(crate) fn new(alloc: Global) -> Draft
        ensures { result ≡ drafting.nothing_read }
    {
        Draft {
            config: Config {
                local: Addr {
                    ip: [0; 4],
                    port: 0,
                },
                seed: [0; 32],
                first: 0,
            },
            stage: Stage::Local,
            rounds: Series::new(alloc),
        }
    }
}

/// The draft with the next line, if that may stand there. A header line may not, by itself.
pub(crate) fn with_line(draft: Draft, line: EventLine) -> Result<Option<Draft>, AllocError>
    ensures { IfOk result (λ next. next ≡ drafting.taken draft line) }
{
    match line {
        EventLine::Local(local) => Ok(with_local(draft, local)),
        EventLine::Seed(seed) => Ok(with_seed(draft, seed)),
        EventLine::First(first) => Ok(with_first(draft, first)),
        EventLine::Round(moment) => with_round(draft, moment),
        EventLine::Event(event) => with_event(draft, event),
        EventLine::Header(_) => Ok(None),
    }
}

fn with_local(draft: Draft, local: Addr) -> Option<Draft>
    ensures { result ≡ drafting.local_taken draft.stage draft local }
{
    match draft.stage {
        Stage::Local => {
            let seed = draft.config.seed;
            let first = draft.config.first;
            Some(Draft {
                config: Config { local, seed, first },
                stage: Stage::Seed,
                rounds: draft.rounds,
            })
        }
        Stage::Seed | Stage::First | Stage::Rounds => None,
    }
}

fn with_seed(draft: Draft, seed: [u8; 32]) -> Option<Draft>
    ensures { result ≡ drafting.seed_taken draft.stage draft seed }
{
    match draft.stage {
        Stage::Seed => Some(Draft {
            config: Config {
                local: draft.config.local,
                seed,
                first: draft.config.first,
            },
            stage: Stage::First,
            rounds: draft.rounds,
        }),
        Stage::Local | Stage::First | Stage::Rounds => None,
    }
}

fn with_first(draft: Draft, first: u64) -> Option<Draft>
    ensures { result ≡ drafting.first_taken draft.stage draft first }
{
    match draft.stage {
        Stage::Seed | Stage::First => {
            let local = draft.config.local;
            let seed = draft.config.seed;
            Some(Draft {
                config: Config { local, seed, first },
                stage: Stage::Rounds,
                rounds: draft.rounds,
            })
        }
        Stage::Local | Stage::Rounds => None,
    }
}

fn with_round(draft: Draft, moment: u64) -> Result<Option<Draft>, AllocError>
    ensures { IfOk result (λ next. next ≡ drafting.round_taken draft.stage draft moment) }
{
    match draft.stage {
        Stage::Local => Ok(None),
        Stage::Seed | Stage::First | Stage::Rounds => begun(draft, moment),
    }
}

// The draft with one more round.
fn begun(draft: Draft, moment: u64) -> Result<Option<Draft>, AllocError>
    ensures { IfOk result (λ next. next ≡ Some (drafting.begun_round draft moment)) }
{
    let mut rounds = draft.rounds.into_vec();
    let events = Series::new(*rounds.allocator());
    rounds.push(Round { moment, events })?;
    Ok(Some(Draft {
        config: draft.config,
        stage: Stage::Rounds,
        rounds: Series::from_vec(rounds),
    }))
}

fn with_event(draft: Draft, event: Event) -> Result<Option<Draft>, AllocError>
    ensures { IfOk result (λ next. next ≡ drafting.event_drafted draft event) }
{
    let Some(rounds) = in_last(draft.rounds, event)? else {
        return Ok(None);
    };
    Ok(Some(Draft {
        config: draft.config,
        stage: draft.stage,
        rounds,
    }))
}

// The rounds, with the event in the last of them, if there is one.
fn in_last(rounds: Series<Round>, event: Event) -> Result<Option<Series<Round>>, AllocError>
    ensures { IfOk result (λ next. next ≡ drafting.with_event rounds event) }
{
    let mut rounds = rounds.into_vec();
    let Some(mut round) = rounds.pop() else {
        return Ok(None);
    };
    round.events.push(event)?;
    rounds.push(round)?;
    Ok(Some(Series::from_vec(rounds)))
}

//! A round that a session may have.

ghost use Rattle.std.specs.Prelude.{◌≡◌, IfOk};
ghost use Rattle.std.specs.List.{AllByRecursion};
ghost use Rattle.sip_files.specs.Rounds.{SpellsRound};
ghost use Rattle.sip_files.specs.Written.{FitsSession, session_round_text};

use crate::session_events::SessionEvents;
use sip_files::laws::{a_session_may_have_what_fits, what_is_written_are_the_lines_of_a_round};
use sip_files::{FileKind, write_file_round};
use sip_round::Round;
use std::alloc::{AllocError, Global};
use std::marker::Model;

/// A round that a session may have. A contract sees the round.
pub(crate) struct SessionRound {
    pub(crate) round: Round,
}

impl Model for SessionRound {
    ghost use Rattle.std.specs.List.{AllByRecursion};
    ghost use Rattle.sip_files.specs.Written.{FitsSession};
    ghost use Rattle.sip_round.specs.declared.round.Round.{Round};

    ghost Value = { Round };

    ghost view = { λ a. a.round };

    ghost invariant = { λ a. AllByRecursion FitsSession a.round.events };
}

impl SessionRound {
    pub(crate) fn of(round: Round) -> SessionRound
        requires { AllByRecursion FitsSession round.events }
        ensures { result ≡ round }
    {
        SessionRound { round }
    }

    pub(crate) fn get(&self) -> &Round
        ensures { result.now ≡ self.now }
    {
        &self.round
    }

    pub(crate) fn into_events(self) -> SessionEvents
        ensures { result ≡ self.events }
    {
        let SessionRound { round } = self;
        SessionEvents {
            events: round.events,
        }
    }

    /// The lines of the round in a session.
    ///
    /// # Errors
    ///
    /// Memory ran out.
    pub(crate) fn text(&self, alloc: Global) -> Result<Vec<u8>, AllocError>
        ensures written { IfOk result (λ text. text.items ≡ session_round_text self.now) }
        ensures spelled { IfOk result (λ text. SpellsRound text.items self.now) }
    {
        a_session_may_have_what_fits(&self.round);
        what_is_written_are_the_lines_of_a_round();
        write_file_round(alloc, FileKind::Session, &self.round)
    }
}

impl Drop for SessionRound {
    fn drop(self) {
        let SessionRound { round: _ } = self;
    }
}

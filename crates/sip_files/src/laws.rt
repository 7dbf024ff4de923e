//! Laws of the files' spellings. The contract of each is the law, and a call does nothing.

ghost use Rattle.std.specs.Prelude.{◌≡◌, ◌↔◌, ℕ, List, IsTrue, codes, nat_eq, not, ◌&&◌};
ghost use Rattle.sip_files.specs.declared.event_line.EventLine.{EventLine};
ghost use Rattle.sip_files.specs.declared.version.Version.{Version};
ghost use Rattle.sip_files.specs.declared.version.Version.TheVariants.{Two, SessionOne};
ghost use Rattle.sip_files.specs.Word.{are_bytes, spelled_rest, spelled_word};
ghost use Rattle.sip_round.specs.declared.config.Config.{Config};
ghost use Rattle.sip_round.specs.declared.round.Round.{Round};
ghost use Rattle.sip_files.specs.EventFile.{IsOneLine, SpellsEvents, SpellsIn, SpellsSession, file_text};
ghost use Rattle.sip_files.specs.Events.{AreAlike, SpellsLine};
ghost use Rattle.sip_files.specs.Rounds.{SpellsRound, SpellsRounds};
ghost use Rattle.sip_files.specs.Written.{FitsSession, IsConfig, IsRound, IsSessionRound, events_text, session_round_text, session_text};
ghost use Rattle.std.specs.List.{AllByRecursion, starts_with};

use crate::types::event_fits;
use sip_round::Round as ARound;

/// Two different texts have different words.
pub fn one_text_of_a_word()
    ensures { (text other : List ℕ) → IsTrue (are_bytes text) → IsTrue (are_bytes other)
        → spelled_word text ≡ spelled_word other → text ≡ other }
{}

/// Two different texts have different rests.
pub fn one_text_of_a_rest()
    ensures { (text other : List ℕ) → IsTrue (are_bytes text) → IsTrue (are_bytes other)
        → spelled_rest text ≡ spelled_rest other → text ≡ other }
{}

/// A line of an event file or a session says one thing, the same in all versions.
pub fn one_meaning_of_a_line()
    ensures { (version another : Version) (text : List ℕ) (line other : EventLine)
        → SpellsLine version text line → SpellsLine another text other → line ≡ other }
{}

/// A line of an event file has one text, the same in all versions; for a failed send this is true
/// up to the case of letters. For a header line nothing is said about its texts.
pub fn one_text_of_a_line()
    ensures { (version another : Version) (line : EventLine) (text other : List ℕ)
        → SpellsLine version text line → SpellsLine another other line
        → AreAlike line text other }
{}

/// A text is an event file for at most one configuration and list of rounds.
pub fn one_meaning_of_an_event_file()
    ensures { (text : List ℕ) (config other : Config) (rounds others : List Round)
        → SpellsEvents config rounds text → SpellsEvents other others text
        → (config ≡ other) × (rounds ≡ others) }
{}

/// A text is a session for at most one configuration and list of rounds.
pub fn one_meaning_of_a_session()
    ensures { (text : List ℕ) (config other : Config) (rounds others : List Round)
        → SpellsSession config rounds text → SpellsSession other others text
        → (config ≡ other) × (rounds ≡ others) }
{}

/// Every event file is a session of the same configuration and rounds. Lines none of which begins
/// with a space, so that none is a header line, or with `abandon`, are a session exactly if they
/// are an event file of version 2; only the line of the version differs.
pub fn an_event_file_is_a_session()
    ensures session { (config : Config) (rounds : List Round) (text : List ℕ)
        → SpellsEvents config rounds text → SpellsSession config rounds text }
    ensures without_headers { (config : Config) (rounds : List Round) (lines : List (List ℕ))
        → AllByRecursion IsOneLine lines
        → AllByRecursion (λ line. IsTrue (not (starts_with nat_eq line (codes " "))
        && not (starts_with nat_eq line (codes "abandon ")))) lines
        → (SpellsIn SessionOne config rounds (file_text SessionOne lines)
        ↔ SpellsIn Two config rounds (file_text Two lines)) }
{}

/// What is written for a configuration and rounds is their event file, if an event file may have
/// each of their lines.
pub fn what_is_written_is_an_event_file()
    ensures { (config : Config) (rounds : List Round) → IsConfig config
        → AllByRecursion IsRound rounds → SpellsEvents config rounds (events_text config rounds) }
{}

/// What is written for a session is that session, if a session may have each of its lines. The
/// contents of its commands may have headers.
pub fn what_is_written_is_a_session()
    ensures { (config : Config) (rounds : List Round) → IsConfig config
        → AllByRecursion IsSessionRound rounds
        → SpellsSession config rounds (session_text config rounds) }
{}

/// The same lines say one list of rounds.
pub fn one_meaning_of_lines()
    ensures { (lines : List ℕ) (rounds others : List Round) → SpellsRounds lines rounds
        → SpellsRounds lines others → rounds ≡ others }
{}

/// What is written for a round are its lines, if a session may have each of them.
pub fn what_is_written_are_the_lines_of_a_round()
    ensures { (round : Round) → IsSessionRound round
        → SpellsRound (session_round_text round) round }
{}

/// A session may have a round whose events fit. The types of its parts say the rest: that each text
/// is of bytes and keeps its rule, and that each number is small enough.
#[tactic(auto, using(crate::proofs::SessionFits::each_one))]
pub fn a_session_may_have_what_fits(round: &ARound)
    ensures { AllByRecursion FitsSession round.now.events → IsSessionRound round.now }
{
    let _moment = round.moment;
    for event in round.events.as_slice() {
        event_fits(event);
    }
}

//! Laws of dialogs.

ghost use Rattle.sip_held_dialogs.specs.Lives.{CasesFit, StandsForItsStory};
ghost use Rattle.sip_held_dialogs.specs.declared.held_dialog.HeldDialog.{HeldDialog};

/// The record of a dialog says the same as its story, whatever happens in it on either side of a
/// call, if the dialog doesn't refuse it. So its local CSeq is that of its opening and one more for
/// each request that was sent in it. Its remote CSeq is the greatest that was accepted. Its routes
/// and its target are those that came last. A dialog refuses nothing that requests of the peer, 2xx
/// responses and Contacts make happen (RFC 3261, section 12).
pub fn a_dialog_stands_for_its_story()
    ensures stands { StandsForItsStory }
    ensures fits { (held : HeldDialog) → CasesFit held }
{}

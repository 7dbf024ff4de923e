//! What a draft says of the lines that it was made from.
ghost use Rattle.std.specs.Prelude.{◌≡◌, ℕ, List, Ok, false};
ghost use Rattle.sip_headers.specs.Complete.{draft_with, faultless};
ghost use Rattle.sip_headers.specs.HeaderFields.{draft_of};
ghost use Rattle.sip_headers.specs.Faults.{Decides, HeaderCondition, header_faults};
ghost use Rattle.sip_headers.specs.Headers.{AreHeaders, Headers};
ghost use Rattle.sip_headers.specs.Presence as presence;
ghost use Rattle.sip_headers.specs.Section.{IsDraftOf, missing_in, repeated_in};
ghost use Rattle.sip_headers.specs.declared.header_fields.HeaderFields.{HeaderFields};

/// A draft to which the lines were added in order has the values of each header.
pub fn what_is_gathered()
    ensures { (lines : List (List ℕ)) → IsDraftOf (draft_of lines) lines }
{}

/// If each value is in its header's form, a header is missing if it has no value.
pub fn what_is_missing()
    ensures { (lines : List (List ℕ)) → presence.has_bad_header (draft_of lines) ≡ false →
        presence.missing (draft_of lines) ≡ missing_in lines }
{}

/// If each value is in its header's form, a header is repeated if it has more than one value and
/// may have one.
pub fn what_is_repeated()
    ensures { (lines : List (List ℕ)) → presence.has_bad_header (draft_of lines) ≡ false →
        presence.repeated (draft_of lines) ≡ repeated_in lines }
{}

/// A draft to which the lines were added has no fault exactly if the lines have headers, and then
/// holds these. Otherwise the fault is the first whose condition is true.
pub fn what_headers_are()
    ensures found { (lines : List (List ℕ)) (d : HeaderFields) → faultless (draft_of lines) ≡ Ok d
        → (h : Headers) × AreHeaders h lines × (d ≡ draft_with h) }
    ensures only { (lines : List (List ℕ)) (h : Headers) → AreHeaders h lines
        → faultless (draft_of lines) ≡ Ok (draft_with h) }
    ensures fault { (lines : List (List ℕ))
        → Decides (HeaderCondition lines) header_faults (faultless (draft_of lines)) }
{}

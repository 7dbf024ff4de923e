//! A text is a value of a header exactly if reading it from left to right finds that value.
ghost use Rattle.std.specs.Prelude.{◌≡◌, ◌↔◌, ◌^◌, ℕ, List, Some};
ghost use Rattle.sip_message.specs.declared.name_addr.NameAddr.{NameAddr};
ghost use Rattle.sip_message.specs.declared.party.Party.{Party};
ghost use Rattle.sip_header_values.specs.Address as address;
ghost use Rattle.sip_header_values.specs.Numeral.{IsNumeral, numeral_from};
ghost use Rattle.sip_header_values.specs.Sequence as sequence;
ghost use Rattle.sip_header_values.specs.ViaValue as via;
ghost use Rattle.sip_header_values.specs.declared.numeral.Numeral.{Numeral};
ghost use Rattle.sip_header_values.specs.declared.sequence.CSeqDraft.{CSeqDraft};
ghost use Rattle.sip_header_values.specs.declared.sequence.RAckDraft.{RAckDraft};
ghost use Rattle.sip_header_values.specs.declared.via.ViaDraft.{ViaDraft};

/// A text is at most one From or To: what reading from left to right gives.
pub fn one_party()
    ensures { (text : List ℕ) (x : Party) → (address.party_from text ≡ Some x)
        ↔ address.IsPartyText x text }
{}

/// A text is at most one list of addresses: what reading from left to right gives.
pub fn one_list_of_addresses()
    ensures { (text : List ℕ) (x : List NameAddr) → (address.name_addrs_from text ≡ Some x)
        ↔ address.AreNameAddrs x text }
{}

/// A text is at most one list of Via values: what reading from left to right gives.
pub fn one_list_of_vias()
    ensures { (text : List ℕ) (x : List ViaDraft) → (via.vias_from text ≡ Some x)
        ↔ via.AreVias x text }
{}

/// A text is at most one list of option tags: what reading from left to right gives.
pub fn one_list_of_tokens()
    ensures { (text : List ℕ) (x : List (List ℕ)) → (sequence.tokens_from text ≡ Some x)
        ↔ sequence.AreTokens x text }
{}

/// A text is at most one CSeq: what reading from left to right gives.
pub fn one_cseq()
    ensures { (text : List ℕ) (x : CSeqDraft) → (sequence.cseq_from text ≡ Some x)
        ↔ sequence.IsCSeqText x text }
{}

/// A text is at most one RAck: what reading from left to right gives.
pub fn one_rack()
    ensures { (text : List ℕ) (x : RAckDraft) → (sequence.rack_from text ≡ Some x)
        ↔ sequence.IsRAckText x text }
{}

/// A text is at most one word for a number: what reading from left to right gives.
pub fn one_number()
    ensures { (text : List ℕ) (x : Numeral) → (numeral_from text ≡ Some x)
        ↔ IsNumeral x text }
{}

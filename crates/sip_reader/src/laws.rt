//! Laws of the definitions of reading.
ghost use Rattle.std.specs.Prelude.{◌≡◌, ◌≤◌, ℕ, IfOk, IsTrue, List, [], ◌∷◌, ◌++◌, Ok, Option, None, Some, length, map, replicate};
ghost use Rattle.std.specs.List.{filter};
ghost use Rattle.sip_text.specs.Lines.{AreLines};
ghost use Rattle.sip_text.specs.Unfolded.{unfolded};
ghost use Rattle.sip_grammar.specs.HeaderEntry.{entry, header_named, is_single};
ghost use Rattle.sip_grammar.specs.declared.header_name.HeaderName.{HeaderName};
ghost use Rattle.sip_grammar.specs.declared.header_name.HeaderName.TheVariants as table;
ghost use Rattle.sip_header_values.specs.Address.{AreNameAddrs};
ghost use Rattle.sip_header_values.specs.Sequence.{AreTokens};
ghost use Rattle.sip_headers.specs.Faults.{Decides};
ghost use Rattle.sip_headers.specs.Headers.{AreRows};
ghost use Rattle.sip_headers.specs.Numbers.{headers_with};
ghost use Rattle.sip_headers.specs.Slot.{Many};
ghost use Rattle.sip_message.specs.Content.{Content, contacts_of_content, with_type_of};
ghost use Rattle.sip_message.specs.declared.fault.ReadFault.{ReadFault};
ghost use Rattle.sip_message.specs.declared.message.Message.{Message};
ghost use Rattle.sip_message.specs.Written.{written};
ghost use Rattle.sip_reader.specs.Faults.{Condition, IsFirstFault, faults};
ghost use Rattle.sip_reader.specs.Head.{BeginsWith, HasHeaderLines, HasValues, IsHead, first_of, is_same_header};
ghost use Rattle.sip_reader.specs.Layout.{Lays};
ghost use Rattle.sip_reader.specs.ReadMessage.{message_at};
ghost use Rattle.sip_message.specs.Rules.{IsMessage};
ghost use Rattle.sip_reader.specs.SkippedEnds.{without_line_ends};
ghost use Rattle.sip_reader.specs.Spells.{Spells};
ghost use Rattle.sip_reader.specs.WrittenContent.{IsWrittenWith};
ghost use Rattle.sip_reader.specs.declared.first_line.FirstLine.{FirstLine};
ghost use Rattle.sip_reader.specs.declared.untyped_line.HeaderLine.{HeaderLine};

/// A text spells at most one message.
pub fn one_message()
    ensures { (text : List ℕ) (m n : Message) → Spells m text → Spells n text → m ≡ n }
{}

/// Reading from left to right gives the message that the text spells. If it spells none, it gives
/// the first fault whose condition is true.
pub fn what_is_read()
    ensures found { (text : List ℕ) → IfOk (message_at text) (λ m. Spells m text) }
    ensures only { (text : List ℕ) (m : Message) → Spells m text → message_at text ≡ Ok m }
    ensures fault { (text : List ℕ) → Decides (Condition text) faults (message_at text) }
{}

/// If a text has a fault, it spells no message.
pub fn no_fault_of_a_message()
    ensures { (text : List ℕ) (m : Message) (fault : ReadFault) → Spells m text
        → IsFirstFault fault text → ⊥ }
{}

/// What is written for a message is read again as the same message, if it isn't too long.
pub fn written_is_spelled()
    ensures { (m : Message) → IsMessage m → length (written m) ≤ 65535 → Spells m (written m) }
{}

/// The lines of a text begin with those of its layout (RFC 3261, section 7).
pub fn lines_are_laid()
    ensures { (text start rest : List ℕ) (lines found : List (List ℕ))
        → (lays : Lays text start lines rest) → AreLines found text
        → (after : List (List ℕ)) × (found ≡ (replicate lays.skipped []
        ++ (lays.first ∷ (lays.more ++ ([] ∷ [])))) ++ after) × AreLines after rest }
{}

/// Without its folds, the head of a message consists of the lines by which it is read, and the
/// empty one that ends it (RFC 3261, section 7.3.1).
pub fn folds_are_laid()
    ensures { (head start : List ℕ) (lines : List (List ℕ)) → Lays head start lines []
        → AreLines (start ∷ (lines ++ ([] ∷ []))) (unfolded (without_line_ends head)) }
{}

/// A text has one head, one start line or none, one list of values of each name, and one list of
/// header lines.
pub fn one_head()
    ensures lines { (text : List ℕ) (lines others : List (List ℕ)) → IsHead lines text
        → IsHead others text → lines ≡ others }
    ensures start { (text : List ℕ) (says also : Option (FirstLine (List ℕ)))
        → BeginsWith says text → BeginsWith also text → says ≡ also }
    ensures values { (text name : List ℕ) (values others : List (List ℕ))
        → HasValues name values text → HasValues name others text → values ≡ others }
    ensures header_lines { (text : List ℕ) (headers others : List HeaderLine)
        → HasHeaderLines headers text → HasHeaderLines others text → headers ≡ others }
{}

/// The head of a text that spells a message says what the message says. Its lines are the start
/// line and the header lines of the layout, and its first line is the start line. The values of
/// each header of the table are those of the message, and those of another header are the values of
/// the headers of its name.
pub fn head_of_a_message()
    ensures lines { (text start rest : List ℕ) (lines head : List (List ℕ))
        → Lays text start lines rest → IsHead head text → head ≡ start ∷ lines }
    ensures first { (text : List ℕ) (m : Message) (first : Option (FirstLine (List ℕ)))
        → Spells m text → BeginsWith first text → first ≡ Some (first_of m.start m.cseq.method) }
    ensures known { (text : List ℕ) (m : Message) (values : HeaderName → List (List ℕ))
        → Spells m text
        → ((header : HeaderName) → HasValues (entry header).name (values header) text)
        → (content_length : Option ℕ) × (others : List (List ℕ × List ℕ))
        × AreRows (headers_with m content_length) values others }
    ensures others { (text name : List ℕ) (m : Message) (values : List (List ℕ))
        → Spells m text → header_named name ≡ None → HasValues name values text
        → values ≡ map (λ header. header.value)
        (filter (λ header. is_same_header name header.name) m.others) }
{}

/// What is written for a message with a content of the user's own has the content's headers after
/// those of the message, in order: the headers of any name outside the table, the tokens of Require
/// and those of Supported. The content's contacts replace those of the message, if it has any. No
/// header of the table that may occur once is there twice.
pub fn headers_of_a_content()
    ensures others { (m : Message) (content : Content) (text name : List ℕ)
        (values : List (List ℕ)) → IsWrittenWith content m text → header_named name ≡ None
        → HasValues name values text → values ≡ map (λ header. header.value)
        (filter (λ header. is_same_header name header.name)
        (m.others ++ with_type_of content.body content.others)) }
    ensures contacts { (m : Message) (content : Content) (text : List ℕ) (values : List (List ℕ))
        → IsWrittenWith content m text → HasValues (entry table.Contact).name values text
        → Many AreNameAddrs (contacts_of_content m.contacts content.contacts) values }
    ensures require { (m : Message) (content : Content) (text : List ℕ) (values : List (List ℕ))
        → IsWrittenWith content m text → HasValues (entry table.Require).name values text
        → Many AreTokens (m.require ++ content.require) values }
    ensures supported { (m : Message) (content : Content) (text : List ℕ) (values : List (List ℕ))
        → IsWrittenWith content m text → HasValues (entry table.Supported).name values text
        → Many AreTokens (m.supported ++ content.supported) values }
    ensures once { (m : Message) (content : Content) (text : List ℕ) (header : HeaderName)
        (values : List (List ℕ)) → IsWrittenWith content m text
        → IsTrue (is_single (entry header).kind) → HasValues (entry header).name values text
        → length values ≤ 1 }
{}

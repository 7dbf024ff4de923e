//! Laws of the definitions. The contract of each is what is proved; a call does nothing.
ghost use Rattle.std.specs.Prelude.{◌≡◌, ◌++◌, ◌∷◌, [], ℕ, List};
ghost use Rattle.sip_message.specs.declared.message.Message.{Message};
ghost use Rattle.sip_message.specs.Content.{content_of_body, content_type, with_content_of};

/// A content that has only a body changes a message without a body as a body does. If it is empty,
/// the message doesn't change; otherwise it gets this body, and `Content-Type: application/sdp`
/// after its other headers (RFC 3261, section 20.15).
pub fn a_body_alone_brings_its_type()
    ensures empty { (message : Message) → message.body ≡ []
        → with_content_of message (content_of_body []) ≡ message }
    ensures some { (message : Message) (byte : ℕ) (bytes : List ℕ)
        → with_content_of message (content_of_body (byte ∷ bytes)) ≡ record message {
          others = message.others ++ content_type ∷ [];
          body = byte ∷ bytes;
        } }
{}

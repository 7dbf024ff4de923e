//! Laws of the definitions. The contract of each is the law, and a call does nothing.
ghost use Rattle.std.specs.Prelude.{◌≡◌, List, ℕ, Some};
ghost use Rattle.sip_message.specs.declared.addr.Addr.{Addr};
ghost use Rattle.sip_message.specs.Addr.{IsAddr};
ghost use Rattle.sip_dialog.specs.Address.{address_at, IsTextOf};

/// Reading an address accepts its own texts and no other text.
pub fn an_address_has_its_own_texts()
    ensures read { (address : Addr) (text : List ℕ) → IsAddr address → IsTextOf address text
        → address_at text ≡ Some address }
    ensures only { (address : Addr) (text : List ℕ) → address_at text ≡ Some address
        → IsAddr address × IsTextOf address text }
{}

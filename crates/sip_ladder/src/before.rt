//! Which datagrams came or were sent before.

ghost use Rattle.std.specs.Prelude.{◌≡◌, ◌++◌, [], codes, IfOk, OnOk};
ghost use Rattle.sip_message.specs.Addr.{addr_text};
ghost use Rattle.sip_ladder.specs.Shapes as spec;

use crate::line::Way;
use sip_message::Addr;
use sip_text::Text;
use std::alloc::{AllocError, Global};
use std::collections::BTreeSet;

/// The names of the datagrams so far.
#[derive(Drop)]
pub(crate) struct Before {
    names: BTreeSet<Text>,
}

impl Before {
    pub(crate) fn new(alloc: Global) -> Before
        ensures { result.names.keys ≡ [] }
    {
        let names = BTreeSet::new(alloc);
        Before { names }
    }

    /// Takes in a datagram by its name, and says whether one with that name was taken in before.
    ///
    /// # Errors
    ///
    /// Memory ran out.
    pub(crate) fn add(&mut self, name: Text) -> Result<bool, AllocError>
        ensures again { IfOk result (λ is_again. is_again
            ≡ spec.is_among self.old.names.keys name) }
        ensures taken { OnOk result (self.new.names.keys
            ≡ spec.with_name name self.old.names.keys) }
    {
        match self.names.insert(name) {
            Ok(is_new) => Ok(!is_new),
            Err(_) => Err(AllocError),
        }
    }
}

/// The name of a datagram that goes in this direction.
pub(crate) fn name_of(alloc: Global, way: Way, bytes: &[u8]) -> Result<Text, AllocError>
    ensures { IfOk result (λ name. name ≡ spec.datagram_name way bytes.now) }
{
    let mut name = Vec::new(alloc);
    push_way(alloc, &mut name, way)?;
    name.extend_from_slice(bytes)?;
    Ok(Text::from_vec(name))
}

fn push_way(alloc: Global, name: &mut Vec<u8>, way: Way) -> Result<(), AllocError>
    ensures { OnOk result (name.new.items ≡ name.old.items ++ spec.way_name way) }
{
    match way {
        Way::In(peer) => push_peer(alloc, name, b"from ", peer),
        Way::Out(peer) => push_peer(alloc, name, b"to ", peer),
        Way::Own => Ok(()),
    }
}

fn push_peer(alloc: Global, name: &mut Vec<u8>, way: &[u8], peer: Addr) -> Result<(), AllocError>
    ensures { OnOk result (name.new.items
        ≡ name.old.items ++ way.now ++ addr_text peer ++ codes " ") }
{
    let address = format!(in alloc; "{peer}")?;
    name.extend_from_slice(way)?;
    name.extend_from_slice(address.as_bytes())?;
    name.push(b' ')?;
    Ok(())
}

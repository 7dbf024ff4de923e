//! The lines of sends that failed.

ghost use Rattle.std.specs.Prelude.{◌≡◌, IfOk};
ghost use Rattle.sip_files.specs.Steps.ReadLine as reading;

use crate::fields::{port_field, read_method, word_field};
use sip_message::{Key, SharedKey};
use sip_text::cut;
use std::alloc::{AllocError, Global};

/// The key of the transaction whose send failed, if the line names one. Its second word says
/// whether it is a client's or a server's.
#[tactic(auto, unfolding(crate::specs::Steps::ReadLine::failed_at))]
pub(crate) fn read_failed(alloc: Global, fields: &[u8]) -> Result<Option<SharedKey>, AllocError>
    ensures { IfOk result (λ key. key ≡ reading.failed_at fields.now) }
{
    let Some((side, fields)) = cut(b' ', fields) else {
        return Ok(None);
    };
    if side == b"client".as_slice() {
        return read_client(alloc, fields);
    }
    if side == b"server".as_slice() {
        return read_server(alloc, fields);
    }
    Ok(None)
}

// The branch as a word, and the method.
#[tactic(auto, unfolding(crate::specs::Steps::ReadLine::client_at))]
fn read_client(alloc: Global, fields: &[u8]) -> Result<Option<SharedKey>, AllocError>
    ensures { IfOk result (λ key. key ≡ reading.client_at fields.now) }
{
    let Some((branch, method)) = word_field(alloc, fields)? else {
        return Ok(None);
    };
    let Some(method) = read_method(alloc, method)? else {
        return Ok(None);
    };
    Ok(Some(Key::client(alloc, branch.as_slice(), method)?))
}

// The branch and the host as words, the port, and the method.
#[tactic(auto, unfolding(crate::specs::Steps::ReadLine::server_at))]
fn read_server(alloc: Global, fields: &[u8]) -> Result<Option<SharedKey>, AllocError>
    ensures { IfOk result (λ key. key ≡ reading.server_at fields.now) }
{
    let Some((branch, fields)) = word_field(alloc, fields)? else {
        return Ok(None);
    };
    let Some((host, fields)) = word_field(alloc, fields)? else {
        return Ok(None);
    };
    let Some((port, method)) = port_field(fields) else {
        return Ok(None);
    };
    let Some(method) = read_method(alloc, method)? else {
        return Ok(None);
    };
    let key = Key::server(alloc, branch.as_slice(), host.as_slice(), port, method)?;
    Ok(Some(key))
}

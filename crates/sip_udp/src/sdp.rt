//! Session descriptions with inactive streams: what a phone gets from a program without media (RFC
//! 4566; RFC 3264, section 6).

use crate::line_end::without;
use sip_text::{Text, cut};
use std::alloc::{AllocError, Global};
use std::net::Ipv4Addr;

/// An audio stream, for an offer.
const AUDIO: &[u8] = b"m=audio 9 RTP/AVP 0 8";

/// The protocols of the streams that an answer accepts (RFC 3551; RFC 4585).
const AVP: &[u8] = b"RTP/AVP";

const AVPF: &[u8] = b"RTP/AVPF";

/// The answer to the description in an offer: each of its streams over RTP is inactive, and all
/// others are refused. If the body isn't a description, it is an offer of one inactive audio
/// stream. The version is that of the description in its session; a later description has a higher
/// one (RFC 3264, section 8).
///
/// # Errors
///
/// Memory ran out.
pub(crate) fn inactive(
    alloc: Global,
    ip: [u8; 4],
    version: u32,
    offer: &[u8],
) -> Result<Text, AllocError> {
    let mut text = head(alloc, ip, version)?;
    if !offer.starts_with(b"v=") {
        put_line(&mut text, b"t=0 0")?;
        put_stream(&mut text, AUDIO)?;
        return Ok(text);
    }
    let mut is_taken = false;
    for line in offer.split(|byte| *byte == b'\n') {
        let line = without(b'\r', line);
        if line.starts_with(b"m=") {
            is_taken = put_stream(&mut text, line)?;
        } else if line.starts_with(b"t=") || (is_taken && is_of_format(line)) {
            put_line(&mut text, line)?;
        }
    }
    Ok(text)
}

// The lines before those of times and streams.
fn head(alloc: Global, ip: [u8; 4], version: u32) -> Result<Text, AllocError> {
    let ip = Ipv4Addr::from_octets(ip);
    let text = format!(in alloc; "v=0\r\no=- 0 {version} IN IP4 {ip}\r\ns=-\r\nc=IN IP4 {ip}\r\n")?;
    Ok(Text::from_vec(text.into_bytes()))
}

// Whether the line describes a format. An answer repeats such a line (RFC 3264, section 6.1).
fn is_of_format(line: &[u8]) -> bool {
    line.starts_with(b"a=rtpmap:") || line.starts_with(b"a=fmtp:")
}

// Writes the stream for this line, and says whether it is accepted.
fn put_stream(text: &mut Text, line: &[u8]) -> Result<bool, AllocError> {
    let Some((media, after)) = cut(b' ', line) else {
        return Ok(false);
    };
    let Some((port, after)) = cut(b' ', after) else {
        return Ok(false);
    };
    let is_taken = match cut(b' ', after) {
        Some((protocol, _)) => port != b"0".as_slice() && (protocol == AVP || protocol == AVPF),
        None => false,
    };
    // The discard port, since no port is used, or that of a refused stream.
    let (own_port, end) = if is_taken {
        (b" 9 ".as_slice(), b"\r\na=inactive\r\n".as_slice())
    } else {
        (b" 0 ".as_slice(), b"\r\n".as_slice())
    };
    text.extend_from_slice(media)?;
    text.extend_from_slice(own_port)?;
    text.extend_from_slice(after)?;
    text.extend_from_slice(end)?;
    Ok(is_taken)
}

fn put_line(text: &mut Text, line: &[u8]) -> Result<(), AllocError> {
    text.extend_from_slice(line)?;
    text.extend_from_slice(b"\r\n")
}

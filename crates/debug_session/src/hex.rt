//! Hexadecimal digits. Bytes that cannot stand in a packet for themselves.
//! Packets as they are written, and what is sent at each message beside the answer to it.
ghost use Rattle.std.specs.Prelude.{◌≡◌, ◌<◌, ◌++◌, OnOk, IfOk, IfSome, IfNone, None, Some};
ghost use Rattle.debug_session.specs.Hex.{hex_digit, digit_value, hex_of, number_of, bytes_of_hex};
ghost use Rattle.debug_session.specs.Escapes.{turned, escaped, unescaped};
ghost use Rattle.debug_session.specs.Framing.{framed, checksum};
ghost use Rattle.debug_session.specs.Acknowledging.{first_sending, sent, acknowledged, refused, repeated};
ghost use Rattle.debug_session.specs.Sessions.{sending_behind};

use crate::replies::Request;
use sloth_base::Result;
use std::alloc::Global;
use std::marker::Model;

/// The hexadecimal digit of a value, in lower case.
pub fn hex_digit(n: u8) -> u8
    requires { n < 16 }
    ensures { result ≡ hex_digit n }
{
    if n < 10 { n + 48 } else { n + 87 }
}

/// The value of a hexadecimal digit of either case, or 16 of another byte.
pub fn digit_value(byte: u8) -> u8
    ensures { result ≡ digit_value byte }
{
    match byte {
        48..=57 => byte - 48,
        97..=102 => byte - 87,
        65..=70 => byte - 55,
        _ => 16,
    }
}

/// Puts bytes in two digits each.
pub fn push_hex(out: &mut Vec<u8>, bytes: &[u8]) -> Result<()>
    ensures { OnOk result (out.new.items ≡ out.old.items ++ hex_of bytes.now) }
{
    for byte in bytes {
        out.extend_from_slice(&[hex_digit(*byte / 16), hex_digit(*byte % 16)])?;
    }
    Ok(())
}

/// A number of one to eight hexadecimal digits.
pub fn number(text: &[u8]) -> Option<u32>
    ensures { result ≡ number_of text.now }
{
    if text.is_empty() || text.len() > 8 {
        return None;
    }
    let mut value = 0u32;
    for byte in text {
        let digit = digit_value(*byte);
        if digit >= 16 {
            return None;
        }
        value = value.wrapping_mul(16).wrapping_add(u32::from(digit));
    }
    Some(value)
}

/// The bytes that pairs of digits tell, if they are such.
pub fn bytes_of_hex(alloc: Global, text: &[u8]) -> Result<Option<Vec<u8>>>
    ensures some { IfOk result (λ told. IfSome told (λ bytes. bytes_of_hex text.now ≡ Some bytes.items)) }
    ensures none { IfOk result (λ told. IfNone told (bytes_of_hex text.now ≡ None)) }
{
    let mut bytes = Vec::new(alloc);
    if text.len() % 2 == 1 {
        return Ok(None);
    }
    for place in 0..text.len() / 2 {
        let high = digit_value(text[2 * place]);
        let low = digit_value(text[2 * place + 1]);
        if high >= 16 || low >= 16 {
            return Ok(None);
        }
        bytes.extend_from_slice(&[high * 16 + low])?;
    }
    Ok(Some(bytes))
}

fn turned(byte: u8) -> u8
    ensures { result ≡ turned byte }
{
    if byte / 32 % 2 == 1 {
        byte - 32
    } else {
        byte + 32
    }
}

/// Puts what stands for bytes.
pub fn push_escaped(out: &mut Vec<u8>, bytes: &[u8]) -> Result<()>
    ensures { OnOk result (out.new.items ≡ out.old.items ++ escaped bytes.now) }
{
    for byte in bytes {
        if *byte == b'#' || *byte == b'$' || *byte == b'*' || *byte == b'}' {
            out.extend_from_slice(&[b'}', turned(*byte)])?;
        } else {
            out.extend_from_slice(&[*byte])?;
        }
    }
    Ok(())
}

/// The bytes that data stand for.
pub fn unescaped(alloc: Global, bytes: &[u8]) -> Result<Vec<u8>>
    ensures { IfOk result (λ content. content.items ≡ unescaped bytes.now) }
{
    let mut content = Vec::new(alloc);
    let mut open_escape = false;
    for byte in bytes {
        if open_escape {
            open_escape = false;
            content.extend_from_slice(&[turned(*byte)])?;
        } else if *byte == b'}' {
            open_escape = true;
        } else {
            content.extend_from_slice(&[*byte])?;
        }
    }
    Ok(content)
}

/// Whether packets are acknowledged, and the packet that was sent last.
#[derive(Drop)]
pub struct Link {
    acks: bool,
    last: Vec<u8>,
}

impl Model for Link {
    ghost use Rattle.debug_session.specs.Acknowledging.{Sending};

    ghost Value = { Sending };

    ghost view = { λ link. record { acks = link.acks; last = link.last.items } };
}

impl Link {
    /// A link on which nothing was sent.
    pub fn new(alloc: Global) -> Link
        ensures { result ≡ first_sending }
    {
        Link {
            acks: true,
            last: Vec::new(alloc),
        }
    }

    /// Whether packets are acknowledged behind a request.
    pub fn follow(&mut self, request: &Request)
        ensures { self.new ≡ sending_behind self.old request.now }
    {
        match request {
            Request::NoAcks => self.acks = false,
            _ => {}
        }
    }

    /// Puts what tells that a packet came whole.
    pub fn acknowledge(&self, out: &mut Vec<u8>) -> Result<()>
        ensures { OnOk result (out.new.items ≡ out.old.items ++ acknowledged self.now) }
    {
        if self.acks {
            out.extend_from_slice(b"+")?;
        }
        Ok(())
    }

    /// Puts what tells that the sum of a packet is wrong.
    pub fn refuse(&self, alloc: Global, out: &mut Vec<u8>) -> Result<()>
        ensures { OnOk result (out.new.items ≡ out.old.items ++ refused self.now) }
    {
        if self.acks {
            out.extend_from_slice(b"-")?;
            return Ok(());
        }
        push_packet(alloc, out, b"E01")
    }

    /// Puts the last packet again.
    pub fn repeat(&self, out: &mut Vec<u8>) -> Result<()>
        ensures { OnOk result (out.new.items ≡ out.old.items ++ repeated self.now) }
    {
        if self.acks {
            out.extend_from_slice(self.last.as_slice())?;
        }
        Ok(())
    }

    /// Puts data as a packet, which is then the last one.
    pub fn send(&mut self, alloc: Global, out: &mut Vec<u8>, content: &[u8]) -> Result<()>
        ensures bytes { OnOk result (out.new.items ≡ out.old.items ++ framed content.now) }
        ensures last { OnOk result (self.new ≡ sent self.old content.now) }
    {
        self.last.clear();
        push_packet(alloc, &mut self.last, content)?;
        out.extend_from_slice(self.last.as_slice())?;
        Ok(())
    }
}

fn checksum(bytes: &[u8]) -> u8
    ensures { result ≡ checksum bytes.now }
{
    let mut sum = 0u8;
    for byte in bytes {
        sum = sum.wrapping_add(*byte);
    }
    sum
}

/// Puts data as a packet.
pub fn push_packet(alloc: Global, out: &mut Vec<u8>, content: &[u8]) -> Result<()>
    ensures { OnOk result (out.new.items ≡ out.old.items ++ framed content.now) }
{
    let mut bytes = Vec::new(alloc);
    push_escaped(&mut bytes, content)?;
    let sum = checksum(bytes.as_slice());
    out.extend_from_slice(b"$")?;
    out.extend_from_slice(bytes.as_slice())?;
    out.extend_from_slice(&[b'#', hex_digit(sum / 16), hex_digit(sum % 16)])?;
    Ok(())
}

//! Bytes in a space that is reserved.
ghost use Rattle.std.specs.Prelude.{◌≡◌, ◌≤◌, ◌+◌, ◌++◌, [], IfOk, length, vec_len, vec_capacity, nat_le};
ghost use Rattle.std.specs.Prelude.{if◌then◌else◌};

use sloth_base::Result;
use std::alloc::Global;

/// Bytes, in a space that is reserved as the buffer is made. Calls on it take no memory.
#[derive(Drop)]
pub struct Buffer {
    pub bytes: Vec<u8>,
    pub space: usize,
    ghost reserved: { space ≤ vec_capacity bytes },
    ghost within: { vec_len bytes ≤ space },
}

impl Buffer {
    /// An empty buffer with space for so many bytes.
    pub fn new(alloc: Global, space: u32) -> Result<Buffer>
        ensures bytes { IfOk result (λ buffer. buffer.bytes.items ≡ []) }
        ensures space { IfOk result (λ buffer. buffer.space ≡ space) }
    {
        let space = space as usize;
        let bytes = Vec::with_capacity(alloc, space)?;
        Ok(Buffer { bytes, space })
    }

    /// The bytes.
    pub fn bytes(&self) -> &[u8]
        ensures { result.now ≡ self.now.bytes.items }
    {
        self.bytes.as_slice()
    }

    /// Appends these bytes, where there is space for all of them.
    pub fn append(&mut self, part: &[u8]) -> bool
        ensures done { result ≡ nat_le (length self.old.bytes.items + length part.now) self.old.space }
        ensures bytes { self.new.bytes.items ≡
            (if result then self.old.bytes.items ++ part.now else self.old.bytes.items) }
        ensures space { self.new.space ≡ self.old.space }
    {
        if part.len() > self.space - self.bytes.len() {
            return false;
        }
        self.bytes.extend_from_slice(part).is_ok()
    }

    /// Holds these bytes in place of its own, where there is space for all of them.
    pub fn replace(&mut self, bytes: &[u8]) -> bool
        ensures done { result ≡ nat_le (length bytes.now) self.old.space }
        ensures bytes { self.new.bytes.items ≡ (if result then bytes.now else self.old.bytes.items) }
        ensures space { self.new.space ≡ self.old.space }
    {
        if bytes.len() > self.space {
            return false;
        }
        self.bytes.clear();
        self.bytes.extend_from_slice(bytes).is_ok()
    }
}

//! The bytes of any reader.
ghost use Rattle.std.specs.Prelude.{◌≡◌, ◌≤◌, ◌<◌, ◌++◌, option_to_list, IsTrue, [], ◌∷◌, None, OnErr, IfOk, IfSome};
ghost use Rattle.std.specs.Prelude.{IfNone, true, false};
ghost use Rattle.std.specs.Io.KnownBytes.{Consumes, IsAtEnd, Keeps};
ghost use Rattle.debug_session.specs.Input.{Gives, Ends};

use crate::Input;
use crate::input::InputFault;
use crate::notes::Given;
use std::io::Read;

/// The greatest number of bytes that one read asks for.
const MOST: usize = 4096;

/// The bytes of a reader. What comes it does not tell.
#[derive(Drop)]
pub struct ByteReader<R> {
    from: R,
    buffer: [u8; MOST],
    start: usize,
    end: usize,
    given: Given,
    ghost ordered: { start ≤ end },
    ghost within: { end ≤ 4096 },
}

impl<R: Read> ByteReader<R> {
    ghost use Rattle.debug_session.specs.ByteReader.{left_bytes};

    /// The bytes of this reader.
    pub fn new(from: R) -> ByteReader<R>
        ensures left { left_bytes R.remaining result ≡ R.remaining from }
        ensures given { result.given.items ≡ [] }
    {
        ByteReader {
            from,
            buffer: [0; MOST],
            start: 0,
            end: 0,
            given: Given::new(),
        }
    }

    fn fill(&mut self) -> Result<bool, InputFault>
        requires { self.old.start ≡ self.old.end }
        ensures kept { Keeps (left_bytes R.remaining self.old) (left_bytes R.remaining self.new) }
        ensures given { self.new.given.items ≡ self.old.given.items }
        ensures came { IfOk result (λ came. IsTrue came → self.new.start < self.new.end) }
        ensures none { IfOk result (λ came. came ≡ false → IsAtEnd (left_bytes R.remaining self.new)) }
    {
        let Ok(count) = self.from.read(&mut self.buffer) else {
            return Err(InputFault::Failed);
        };
        self.start = 0;
        self.end = count;
        Ok(count > 0)
    }

    fn give(&mut self) -> u8
        requires { self.old.start < self.old.end }
        ensures consumes { Consumes (left_bytes R.remaining self.old) (left_bytes R.remaining self.new) (result ∷ []) }
        ensures given { self.new.given.items ≡ self.old.given.items ++ result ∷ [] }
    {
        let byte = self.buffer[self.start];
        self.start += 1;
        self.given = self.given.and(&[byte]);
        byte
    }
}

impl<R: Read> Input for ByteReader<R> {
    ghost use Rattle.debug_session.specs.ByteReader.{left_bytes};

    ghost coming = { λ _. None };

    ghost given = { λ reader. reader.given.items };

    fn next(&mut self) -> Result<Option<u8>, InputFault>
        ensures byte { IfOk result (λ next. IfSome next (λ byte. Gives None None (byte ∷ []))) }
        ensures end { IfOk result (λ next. IfNone next (Ends None None false)) }
        ensures err { OnErr result (Ends None None true) }
        ensures given { IfOk result (λ next. self.new.given.items ≡ self.old.given.items ++ option_to_list next) }
        ensures kept_given { OnErr result (self.new.given.items ≡ self.old.given.items) }

        // Of a reader that tells its bytes it is the next one, and at the end there is none.
        ensures next_byte { IfOk result (λ next. IfSome next (λ byte.
            Consumes (left_bytes R.remaining self.old) (left_bytes R.remaining self.new) (byte ∷ []))) }
        ensures at_end { IfOk result (λ next. IfNone next (IsAtEnd (left_bytes R.remaining self.new))) }
        ensures kept { OnErr result (Keeps (left_bytes R.remaining self.old) (left_bytes R.remaining self.new)) }
    {
        if self.start == self.end && !self.fill()? {
            return Ok(None);
        }
        Ok(Some(self.give()))
    }
}

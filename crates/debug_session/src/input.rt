//! Where the bytes of a session come from: a trait, and bytes in memory.
ghost use Rattle.std.specs.Prelude.{◌≡◌, ◌∷◌, ◌++◌, [], ℕ, List, Option, option_to_list, OnErr, IfOk, IfSome, IfNone};
ghost use Rattle.std.specs.Prelude.{true, false};
ghost use Rattle.debug_session.specs.Input.{Coming, Gives, Ends};
ghost use Rattle.debug_session.specs.MemInput.{coming_of};

use crate::notes::Given;

/// Why there is no next byte, and no end.
#[derive(Clone, Copy)]
pub enum InputFault {
    /// The bytes could not be read.
    Failed,
}

/// Bytes that come one by one. An input may tell what comes.
pub trait Input {
    /// The bytes that come, and what stands behind them, where the input tells that.
    ghost coming: { Self → Option Coming };

    /// The bytes that it gave, in their order. Every input tells them.
    ghost given: { Self → List ℕ };

    /// The next byte, or none at the end.
    fn next(&mut self) -> Result<Option<u8>, InputFault>
        ensures byte { IfOk result (λ next. IfSome next (λ byte. Gives (coming self.old) (coming self.new) (byte
            ∷ []))) }
        ensures end { IfOk result (λ next. IfNone next (Ends (coming self.old) (coming self.new) false)) }
        ensures err { OnErr result (Ends (coming self.old) (coming self.new) true) }
        ensures given { IfOk result (λ next. given self.new ≡ given self.old ++ option_to_list next) }
        ensures kept_given { OnErr result (given self.new ≡ given self.old) };
}

/// Bytes in memory, and whether a fault stands behind them in the place of the end.
#[derive(Drop)]
pub struct MemInput<'a> {
    bytes: &'a [u8],
    broken: bool,
    given: Given,
}

impl<'a> MemInput<'a> {
    /// The input of these bytes, with the end or a fault behind them.
    pub fn new(bytes: &'a [u8], broken: bool) -> MemInput<'a>
        ensures coming { coming_of result ≡ record { bytes = bytes.now; broken = broken } }
        ensures given { result.given.items ≡ [] }
    {
        MemInput {
            bytes,
            broken,
            given: Given::new(),
        }
    }
}

impl<'a> Input for MemInput<'a> {
    ghost use Rattle.std.specs.Prelude.{Some};

    ghost coming = { λ input. Some (coming_of input) };

    ghost given = { λ input. input.given.items };

    fn next(&mut self) -> Result<Option<u8>, InputFault> {
        match self.bytes.split_first() {
            Some((first, rest)) => {
                self.bytes = rest;
                self.given = self.given.and(&[*first]);
                Ok(Some(*first))
            }
            None => {
                if self.broken {
                    return Err(InputFault::Failed);
                }
                Ok(None)
            }
        }
    }
}

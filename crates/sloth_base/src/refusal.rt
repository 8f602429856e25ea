//! Why a text is refused.
//! Which of several faults is answered: the one of the least line, and on that line of the least number.
ghost use Rattle.std.specs.Prelude.{◌≡◌};
ghost use Rattle.sloth_base.specs.declared.refusal.BuildError.TheVariants.{Memory};
ghost use Rattle.sloth_base.specs.Order.{is_before};
ghost use Rattle.sloth_base.specs.Search.{lesser, merge, fault_if};

use crate::NoMemory;

/// The text that is at fault: the configuration, the task code, the arrivals or the load.
#[derive(Clone, Copy)]
pub enum Part {
    Oil,
    Src,
    Arr,
    Load,
}

/// The rule that is broken, by the letter of its stage: O configuration, A task code, V verifier, T arrivals, L load.
#[derive(Clone, Copy)]
pub enum Code {
    O1,
    O2,
    O3,
    O4,
    O5,
    O6,
    O7,
    O8,
    O9,
    O10,
    O11,
    O12,
    O13,
    O14,
    O15,
    A1,
    A2,
    A3,
    A4,
    A5,
    A6,
    A7,
    V1,
    V2,
    V3,
    V4,
    V5,
    V6,
    V7,
    V8,
    V9,
    V10,
    V11,
    V12,
    T1,
    T2,
    T3,
    T4,
    L1,
    L2,
    L3,
    L4,
}

/// A refusal: the text, the line in it, counted from 1, and the rule.
#[derive(Clone, Copy)]
pub struct Refusal {
    pub part: Part,
    pub line: u32,
    pub code: Code,
}

/// Why nothing was built.
#[derive(Clone, Copy)]
pub enum BuildError {
    Refused(Refusal),
    Memory,
}

impl From<NoMemory> for BuildError {
    ghost from_gives = { λ _ e. e ≡ Memory };

    fn from(_: NoMemory) -> BuildError {
        BuildError::Memory
    }
}

/// Whether a refusal stands no later than another: on an earlier line, or on the same line with no greater number.
pub fn precedes(first: Refusal, second: Refusal) -> bool
    ensures { result ≡ is_before first second }
{
    first.line < second.line || (first.line == second.line && first.code as u8 <= second.code as u8)
}

/// The lesser of the least refusal so far and one more; the earlier found where neither is less.
#[tactic(auto, unfolding(crate::specs::Search::lesser))]
pub fn lesser(least: Option<Refusal>, found: Refusal) -> Refusal
    ensures { result ≡ lesser least found }
{
    match least {
        Some(kept) if precedes(kept, found) => kept,
        _ => found,
    }
}

/// The least that two searches found.
#[tactic(auto, unfolding(crate::specs::Search::merge))]
pub fn merge(first: Option<Refusal>, second: Option<Refusal>) -> Option<Refusal>
    ensures { result ≡ merge first second }
{
    match second {
        None => first,
        Some(found) => Some(lesser(first, found)),
    }
}

/// A refusal where a test says so.
pub fn fault_if(test: bool, part: Part, line: u32, code: Code) -> Option<Refusal>
    ensures { result ≡ fault_if test (record { part = part; line = line; code = code }) }
{
    test.then_some(Refusal { part, line, code })
}

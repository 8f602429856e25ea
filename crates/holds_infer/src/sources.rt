//! Task source with the list of each label filled in.
ghost use Rattle.std.specs.Prelude.{◌≡◌, ◌<◌, ℕ, List, IfOk, IfErr, length};
ghost use Rattle.code_rules.specs.AppRange.{AppInRange};
ghost use Rattle.call_graph.specs.Ranks.{RanksOf};
ghost use Rattle.sloth_source.specs.RankedTexts.{HasRanks};
ghost use Rattle.sloth_source.specs.SourceText.{HasApp};
ghost use Rattle.holds_infer.specs.FilledSource.{IsFilledSource, FillErrorIs, fill_error, no_lists_error};
ghost use Rattle.holds_infer.specs.declared.sources.FillError.TheVariants.{Memory as OutOfMemory};

use crate::{InferError, fill, infer};
use sloth_base::{BuildError, NoMemory, Refusal};
use sloth_source::{Ranked, read_ranked};
use std::alloc::Global;

/// Why a source was not filled in.
#[derive(Drop)]
pub enum FillError {
    /// The texts have a fault, the rules V2 to V12 aside.
    Refused(Refusal),
    /// No lists keep every rule.
    NoHolds,
    Memory,
}

impl From<NoMemory> for FillError {
    ghost from_gives = { λ _ error. error ≡ OutOfMemory };

    fn from(_: NoMemory) -> FillError {
        FillError::Memory
    }
}

impl From<BuildError> for FillError {
    ghost from_gives = { λ refused error. error ≡ fill_error refused };

    fn from(error: BuildError) -> FillError {
        match error {
            BuildError::Refused(refusal) => FillError::Refused(refusal),
            BuildError::Memory => FillError::Memory,
        }
    }
}

impl From<InferError> for FillError {
    ghost from_gives = { λ none error. error ≡ no_lists_error none };

    fn from(error: InferError) -> FillError {
        match error {
            InferError::NoHolds => FillError::NoHolds,
            InferError::Memory => FillError::Memory,
        }
    }
}

/// The source with the list of each label filled in; or that no lists keep every rule; or the first refusal of the
/// texts, the rules V2 to V12 aside. Each text has at most 4,294,967,294 bytes.
pub fn fill_source(alloc: Global, oil: &[u8], src: &[u8]) -> Result<Vec<u8>, FillError>
    requires oil { length oil.now < 4294967295 }
    requires src { length src.now < 4294967295 }
    ensures filled { IfOk result (λ out. IsFilledSource oil.now src.now out.items) }
    ensures failed { IfErr result (FillErrorIs oil.now src.now) }
{
    let ranked = read_ranked(alloc, oil, src)?;
    fill_ranked(alloc, src, &ranked)
}

// The source with the lists that are found for its task code, or that no lists keep every rule.
fn fill_ranked(alloc: Global, src: &[u8], ranked: &Ranked) -> Result<Vec<u8>, FillError>
    requires says { HasApp src.now ranked.now.config ranked.now.app }
    requires in_range { AppInRange ranked.now.config ranked.now.app }
    requires belong { RanksOf ranked.now.app ranked.now.ranks }
    ensures filled { IfOk result (λ out. (oil : List ℕ) → HasRanks oil src.now ranked.now.config ranked.now.app
        → IsFilledSource oil src.now out.items) }
    ensures failed { IfErr result (λ error. (oil : List ℕ) → HasRanks oil src.now ranked.now.config ranked.now.app
        → FillErrorIs oil src.now error) }
{
    let filled = infer(alloc, &ranked.config, &ranked.app, &ranked.ranks)?;
    let out = fill(alloc, src, &ranked.config, &ranked.app, &filled)?;
    Ok(out)
}

//! Laws of the definitions.
ghost use Rattle.std.specs.Prelude.{◌≡◌, ℕ, List};
ghost use Rattle.sloth_base.specs.declared.config.Config.{Config};
ghost use Rattle.sloth_base.specs.declared.app.App.{App};
ghost use Rattle.sloth_base.specs.declared.refusal.Refusal.{Refusal};
ghost use Rattle.sloth_source.specs.Texts.{AreAccepted, FirstRefusal};
ghost use Rattle.sloth_source.specs.RankedTexts.{HasRanks, EarlyRefusal};

/// Texts have one meaning at most, and one refusal at most.
pub fn one_meaning()
    ensures meaning { (oil src : List ℕ) (config other : Config) (app another : App) →
        AreAccepted oil src config app → AreAccepted oil src other another → (config ≡ other) × (app ≡ another) }
    ensures refusal { (oil src : List ℕ) (refusal other : Refusal) →
        FirstRefusal oil src refusal → FirstRefusal oil src other → refusal ≡ other }
{}

/// Texts are accepted or have a first refusal: they have not both, and they don't lack both.
pub fn one_verdict()
    ensures not_both { (oil src : List ℕ) (config : Config) (app : App) (refusal : Refusal) →
        AreAccepted oil src config app → FirstRefusal oil src refusal → ⊥ }
    ensures not_neither { (oil src : List ℕ) →
        ((config : Config) (app : App) → AreAccepted oil src config app → ⊥)
        → ((refusal : Refusal) → FirstRefusal oil src refusal → ⊥) → ⊥ }
{}

/// The same before the rules of task code are judged: texts have one meaning at most, and one refusal at most, and not
/// both. What is accepted has a meaning then too, and a refusal then is the first.
pub fn one_ranked()
    ensures meaning { (oil src : List ℕ) (config other : Config) (app another : App) →
        HasRanks oil src config app → HasRanks oil src other another → (config ≡ other) × (app ≡ another) }
    ensures refusal { (oil src : List ℕ) (refusal other : Refusal) →
        EarlyRefusal oil src refusal → EarlyRefusal oil src other → refusal ≡ other }
    ensures not_both { (oil src : List ℕ) (config : Config) (app : App) (refusal : Refusal) →
        HasRanks oil src config app → EarlyRefusal oil src refusal → ⊥ }
    ensures accepted { (oil src : List ℕ) (config : Config) (app : App) →
        AreAccepted oil src config app → HasRanks oil src config app }
    ensures first { (oil src : List ℕ) (refusal : Refusal) →
        EarlyRefusal oil src refusal → FirstRefusal oil src refusal }
{}

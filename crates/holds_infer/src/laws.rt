//! Laws of the definitions.
ghost use Rattle.std.specs.Prelude.{◌≡◌, ◌<◌, ℕ, List, length};
ghost use Rattle.sloth_base.specs.declared.config.Config.{Config};
ghost use Rattle.sloth_base.specs.declared.app.App.{App};
ghost use Rattle.code_rules.specs.WellFormed.{WellFormed};
ghost use Rattle.asm_lines.specs.declared.source_line.SourceLine.{SourceLine};
ghost use Rattle.asm_parse.specs.Apps.{app_of};
ghost use Rattle.sloth_source.specs.SourceText.{HasApp, SourceText};
ghost use Rattle.holds_infer.specs.Filling.{IsFilling, SameButLists};
ghost use Rattle.holds_infer.specs.Relabel.{relabeled_lines};
ghost use Rattle.sloth_source.specs.RankedTexts.{EarlyRefusal};
ghost use Rattle.sloth_base.specs.declared.refusal.Refusal.{Refusal};
ghost use Rattle.holds_infer.specs.FilledText.{filled_text};
ghost use Rattle.holds_infer.specs.FilledSource.{IsFilledSource, HasNoLists};
ghost use Rattle.sloth_base.specs.Named.{function};
ghost use Rattle.holds_infer.specs.LabelWays.{AreOtherWays};
ghost use Rattle.holds_infer.specs.declared.other_ways.OtherWays.{OtherWays};

/// Other lists at the lines of labels change the lists of the labels alone.
pub fn lists_alone()
    ensures { (config : Config) (lists : List (List ℕ)) (lines : List SourceLine) →
        SameButLists (app_of config (relabeled_lines config lists lines)) (app_of config lines) }
{}

/// A text with the lists of well-formed task code, which is its own but for the lists, says that task code and has no
/// fault.
pub fn filled_is_accepted()
    ensures { (text : List ℕ) (config : Config) (before app : App) → HasApp text config before
        → SameButLists before app → WellFormed config app
        → SourceText (filled_text text config app) config app }
{}

/// Texts have one filled source at most, and of it, of lists that do not exist and of a refusal one alone.
pub fn one_source()
    ensures same { (oil src one other : List ℕ) → IsFilledSource oil src one → IsFilledSource oil src other
        → one ≡ other }
    ensures or_none { (oil src out : List ℕ) → IsFilledSource oil src out → HasNoLists oil src → ⊥ }
    ensures or_refused { (oil src out : List ℕ) (refusal : Refusal) → IsFilledSource oil src out
        → EarlyRefusal oil src refusal → ⊥ }
    ensures none_or_refused { (oil src : List ℕ) (refusal : Refusal) → HasNoLists oil src
        → EarlyRefusal oil src refusal → ⊥ }
{}

/// Lists at the labels of task code keep every rule in one way at most.
pub fn one_filling()
    ensures { (config : Config) (app one other : App) → IsFilling config app one → IsFilling config app other
        → one ≡ other }
{}

/// Two ways to a label that hold different resources leave no lists for the labels that keep every rule.
pub fn ways_exclude_lists()
    ensures { (config : Config) (app other : App) (body : ℕ) (ways : OtherWays) → body < length app.funcs
        → AreOtherWays (function app body) ways
        → IsFilling config app other → ⊥ }
{}

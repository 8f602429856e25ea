//! Laws of the definitions, and of runs.
ghost use Rattle.shares_text.specs.RunLaws.{RunsKeepSections, RunsKeepVerdicts};
ghost use Rattle.shares_text.specs.SharesText.{OneText};
ghost use Rattle.shares_text.specs.UnusedText.{OneUnusedText, SymbolsAgree};

/// Texts have one list of lines at most.
pub fn one_text()
    ensures { OneText }
{}

/// Of what they do not use too.
pub fn one_unused_text()
    ensures { OneUnusedText }
{}

/// A symbol is used exactly where a task uses it in the sense of `shares`.
pub fn symbols_agree()
    ensures { SymbolsAgree }
{}

/// Behind an event of a task no other task runs to whose priority it stays raised.
pub fn runs_keep_sections()
    ensures { RunsKeepSections }
{}

/// Every run of well-formed task code keeps what verdicts promise.
pub fn runs_keep_verdicts()
    ensures { RunsKeepVerdicts }
{}

//! Laws of the definitions.
ghost use Rattle.std.specs.Prelude.{◌≡◌, ℕ, List};
ghost use Rattle.sloth_base.specs.declared.app.App.{App};
ghost use Rattle.sloth_base.specs.declared.config.Config.{Config};
ghost use Rattle.sloth_base.specs.declared.service.Arrival.{Arrival};
ghost use Rattle.code_rules.specs.WellFormed.{WellFormed};
ghost use Rattle.trace_check.specs.Answer.{IsVerdict};
ghost use Rattle.trace_check.specs.TraceAnswers.{IsTraceAnswer};
ghost use Rattle.trace_check.specs.declared.lines.TraceAnswer.{TraceAnswer};
ghost use Rattle.trace_check.specs.declared.rows.Verdict.{Verdict};

/// A text has one verdict.
pub fn one_verdict()
    ensures { (config : Config) (app : App) (arrivals : List Arrival) (text : List ℕ) (n : ℕ) (one other : Verdict)
        → WellFormed config app →
        IsVerdict config app arrivals text n one → IsVerdict config app arrivals text n other → one ≡ other }
{}

/// Texts have one answer.
pub fn one_answer()
    ensures { (oil src arr trace : List ℕ) (n : ℕ) (one other : TraceAnswer) →
        IsTraceAnswer oil src arr trace n one → IsTraceAnswer oil src arr trace n other → one ≡ other }
{}

//! Laws of runs.
ghost use Rattle.std.specs.Prelude.{◌≡◌, ◌<◌, ◌+◌, ◌++◌, ◌∷◌, [], ℕ, List, Option, Some, None};
ghost use Rattle.sloth_base.specs.declared.service.Arrival.{Arrival};
ghost use Rattle.sloth_base.specs.declared.numbers.Step.{Step};
ghost use Rattle.sloth_base.specs.Machine.{State};
ghost use Rattle.sloth_base.specs.Lines.{Lines};
ghost use Rattle.sloth_base.specs.Choose.{IsChosen};
ghost use Rattle.rv32_instr.specs.declared.encoding.Stop.{Stop};
ghost use Rattle.rv32_machine.specs.Advance.{Goes, Halts};
ghost use Rattle.rv32_machine.specs.Run.{state_with_arrivals, moment, moment_of, run, steps_of, state_after, stop_of};
ghost use Rattle.rv32_machine.specs.Run.{stopping};
ghost use Rattle.rv32_machine.specs.Coherent.{AreCoherent};

/// At most one line is the chosen one.
pub fn one_line_is_chosen()
    ensures { (lines : Lines) (level : ℕ) (one other : Option ℕ) → IsChosen lines level one
        → IsChosen lines level other → one ≡ other }
{}

/// The steps of a run have the counts from 0 on, and each finds MIE as the one before left it.
pub fn steps_hang_together()
    ensures { (n : ℕ) (arrivals : List Arrival) (start : State)
        → AreCoherent 0 start.core.mie (steps_of (run n arrivals start)) }
{}

/// Where the instruction behind the first k doesn't stop, a run of one more shows it at its end.
pub fn a_run_goes_on()
    ensures after { (k : ℕ) (arrivals : List Arrival) (start before after : State) (step : Step)
        → state_after k arrivals start ≡ Some before → moment arrivals k before ≡ Goes step after
        → state_after (k + 1) arrivals start ≡ Some after }
    ensures shows { (k : ℕ) (arrivals : List Arrival) (start before after : State) (step : Step)
        → state_after k arrivals start ≡ Some before → moment arrivals k before ≡ Goes step after
        → run (k + 1) arrivals start ≡ run k arrivals start ++ moment_of arrivals k before step after ∷ [] }
    ensures whole { (k : ℕ) (arrivals : List Arrival) (start after : State) → state_after k arrivals start
        ≡ Some after → stop_of k arrivals start ≡ None }
{}

/// Where it stops, each longer run shows what the run of the first k shows, and stops there.
pub fn a_run_stops()
    ensures shows { (n k : ℕ) (arrivals : List Arrival) (start before : State) (stop : Stop) → k < n
        → state_after k arrivals start ≡ Some before → moment arrivals k before ≡ Halts stop → run n arrivals start
        ≡ run k arrivals start }
    ensures stops { (n k : ℕ) (arrivals : List Arrival) (start before : State) (stop : Stop) → k < n
        → state_after k arrivals start ≡ Some before → moment arrivals k before ≡ Halts stop
        → stop_of n arrivals start ≡ stopping (state_with_arrivals arrivals k before) (Halts stop) }
{}

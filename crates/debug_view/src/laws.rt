//! What is shown of a run, in the words of the run that is executed, of `at`, and of the abstract scheduler.
ghost use Rattle.std.specs.Prelude.{◌≡◌, ◌≤◌, ℕ, List, Some, ◌<◌, ◌+◌, filter, length, get_or};
ghost use Rattle.std.specs.Option.{option_map};
ghost use Rattle.sloth_base.specs.Limits.{count_limit};
ghost use Rattle.sloth_base.specs.Machine.{State};
ghost use Rattle.sloth_base.specs.declared.service.Arrival.{Arrival};
ghost use Rattle.sloth_base.specs.declared.image.Image.{Image};
ghost use Rattle.sloth_base.specs.declared.numbers.Step.{Step};
ghost use Rattle.rv32_machine.specs.Start.{start};
ghost use Rattle.rv32_machine.specs.Advance.{Goes};
ghost use Rattle.rv32_machine.specs.Run.{state_with_arrivals, state_after, stop_of, moment};
ghost use Rattle.debug_view.specs.ShownRun.{run_of};
ghost use Rattle.debug_view.specs.States.{state_at};
ghost use Rattle.sloth_base.specs.Owners.{owners_in};
ghost use Rattle.sloth_base.specs.declared.app.App.{App};
ghost use Rattle.sloth_base.specs.declared.config.Config.{Config};
ghost use Rattle.osek_scheduler.specs.State.{System, task, opening};
ghost use Rattle.osek_scheduler.specs.Runs.{AreStepsTo};
ghost use Rattle.osek_scheduler.specs.declared.state.TaskState.{TaskState};
ghost use Rattle.sim_induction.specs.Sound.{AreComing, events_of, stands_before};
ghost use Rattle.sim_laws.specs.TaskStates.{HasTaskStates};
ghost use Rattle.sloth_runner.specs.TaskStates.{IsLast};
ghost use Rattle.debug_view.specs.ShownStates.{shown_seen};
ghost use Rattle.debug_view.specs.RightFiles.{PlannedImagesShow};
ghost use Rattle.debug_view.specs.TaskRegisters.{PlannedImagesShowRegisters};

/// The state shown at a count is that of the run, with the count's arrivals; a run reaches each count up to its end.
#[tactic(auto, using(crate::proofs::Running::shown_is_reached, crate::proofs::Running::reaches_to_end))]
pub fn states_are_those_of_the_run()
    ensures shown { (image : Image) (arrivals : List Arrival) (k : ℕ) (state : State) → state_after k arrivals (start
        image) ≡ Some state → state_at image arrivals k ≡ state_with_arrivals arrivals k state }
    ensures reached { (image : Image) (arrivals : List Arrival) (k : ℕ) → k ≤ (run_of image arrivals).end
        → (state : State) × (state_after k arrivals (start image) ≡ Some state)
        × (state_at image arrivals k ≡ state_with_arrivals arrivals k state) }
{}

/// The shown address is that of the instruction executed next: a line's vector where one is taken before it.
#[tactic(auto, using(crate::proofs::Running::pc_of_step))]
pub fn addresses_are_those_of_steps()
    ensures { (image : Image) (arrivals : List Arrival) (k : ℕ) (state after : State) (step : Step)
        → state_after k arrivals (start image) ≡ Some state
        → moment arrivals k state ≡ Goes step after → ((run_of image arrivals).look k).pc ≡ step.pc }
{}

/// A run ends where the first of 1,000,000 instructions stops, for the cause shown; if none does, no cause is shown.
#[tactic(auto, using(crate::proofs::Running::stops_as_shown))]
pub fn ends_are_those_of_the_run()
    ensures { (image : Image) (arrivals : List Arrival) → stop_of count_limit arrivals (start image)
        ≡ option_map (λ stop. record
        { pc = ((run_of image arrivals).look (run_of image arrivals).end).pc; stop = stop })
        (run_of image arrivals).stop }
{}

/// The states shown at each count are those that `at` tells: of the last count up to it with interrupts open, or none.
#[tactic(auto, using(crate::proofs::Last::last_is_shown))]
pub fn states_are_those_printed()
    ensures { (image : Image) (arrivals : List Arrival) (k : ℕ) → k ≤ (run_of image arrivals).end
        → IsLast image arrivals (k + 1) (shown_seen image arrivals ((run_of image arrivals).look k).open_count) }
{}

/// If an image shows the abstract scheduler's tasks, each shown state is the task's behind the events before its count.
pub fn states_are_those_of_the_scheduler()
    ensures { (config : Config) (app : App) (image : Image) → HasTaskStates config app image → length image.tasks ≡
        length config.tasks → (arrivals : List Arrival) (n k count : ℕ) (s : System) → AreComing (owners_in config)
        arrivals → k ≤ (run_of image arrivals).end → ((run_of image arrivals).look k).open_count ≡ Some count → count <
        n → AreStepsTo config app (filter (stands_before count) (events_of image arrivals n)) (opening config app) s →
        (t : ℕ) (unused : TaskState) → t < length config.tasks → get_or ((run_of image arrivals).states count) t unused
        ≡ (task s t).state }
{}

/// Where interrupts are open, the formulas of an image's file give a debugger the system of the abstract scheduler.
pub fn images_show()
    ensures { PlannedImagesShow }
{}

/// Wherever interrupts are open, `debug` shows the registers of the tasks of the abstract scheduler.
pub fn images_show_registers()
    ensures { PlannedImagesShowRegisters }
{}

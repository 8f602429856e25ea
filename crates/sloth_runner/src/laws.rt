//! Laws of runs.
ghost use Rattle.std.specs.Prelude.{◌≡◌, ℕ, List};
ghost use Rattle.sloth_base.specs.declared.config.Config.{Config};
ghost use Rattle.sloth_base.specs.declared.app.App.{App};
ghost use Rattle.sloth_base.specs.declared.image.Image.{Image};
ghost use Rattle.sloth_base.specs.declared.service.Arrival.{Arrival};
ghost use Rattle.sloth_base.specs.Owners.{owners_in};
ghost use Rattle.sim_induction.specs.Sound.{AreComing, Sound};
ghost use Rattle.sloth_runner.specs.Runner.{run_end};
ghost use Rattle.sloth_runner.specs.TaskStates.{AreStatesAt};
ghost use Rattle.sloth_runner.specs.declared.task_states.Sight.{Sight};
ghost use Rattle.sloth_runner.specs.declared.runner.RunEnd.TheVariants.{Whole};

/// A run of a sound image never stops, whatever lines arrive and however many instructions it has.
pub fn sound_runs_are_whole()
    ensures { (config : Config) (app : App) (image : Image) (arrivals : List Arrival) (n : ℕ) →
        Sound config app image → AreComing (owners_in config) arrivals → run_end image arrivals n ≡ Whole }
{}

/// A run shows one thing of its tasks.
pub fn one_sight()
    ensures { (image : Image) (arrivals : List Arrival) (k : ℕ) (one other : Sight) →
        AreStatesAt image arrivals k one → AreStatesAt image arrivals k other → one ≡ other }
{}

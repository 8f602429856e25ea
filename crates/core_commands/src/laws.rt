//! Laws of the definitions.
ghost use Rattle.std.specs.Prelude.{ℕ, List};
ghost use Rattle.sloth_base.specs.declared.service.Arrival.{Arrival};
ghost use Rattle.sloth_base.specs.declared.config.Config.{Config};
ghost use Rattle.sloth_base.specs.declared.app.App.{App};
ghost use Rattle.sloth_io.specs.Store.{call_files};
ghost use Rattle.sloth_io.specs.MemStore.{shown_files as store_shown};
ghost use Rattle.sloth_io.specs.MemSink.{shown_output as sink_shown};
ghost use Rattle.sloth_io.specs.declared.mem_store.MemStore.{MemStore};
ghost use Rattle.sloth_io.specs.declared.mem_sink.MemSink.{MemSink};
ghost use Rattle.command_line.specs.Command.{Building};
ghost use Rattle.core_commands.specs.Top.{World, world, CallsWork};
ghost use Rattle.core_commands.specs.ImageAnswers.{LinesWork};
ghost use Rattle.core_commands.specs.SampleAnswers.{SampleWorks};
ghost use Rattle.core_commands.specs.InMemory.{AreEnough, AreEnoughForLines, AreEnoughForSample};

/// Over a store and a sink in memory with no failing calls and space enough, no call fails, whatever stands afterwards.
pub fn calls_work_in_memory()
    ensures { (store : MemStore) (sink : MemSink) (c : Building) (config : Config) (app : App) (arrivals : List Arrival)
        (new : World) → AreEnough store sink c config app arrivals → CallsWork c config app arrivals
        (world (call_files (store_shown store) new.files) (sink_shown sink)) new }
{}

/// The same of a command on an image file, `exec` or `list`, that puts this text.
pub fn lines_work_in_memory()
    ensures { (store : MemStore) (sink : MemSink) (text : List ℕ) (new : World) → AreEnoughForLines store sink text
        → LinesWork (world (call_files (store_shown store) new.files) (sink_shown sink)) new text }
{}

/// The same of `sample`.
pub fn sample_works_in_memory()
    ensures { (store : MemStore) (sink : MemSink) (seed : ℕ) (img : List ℕ) (config : Config) (app : App) (new : World)
        → AreEnoughForSample store sink seed img config app → SampleWorks seed img config app
        (world (call_files (store_shown store) new.files) (sink_shown sink)) new }
{}

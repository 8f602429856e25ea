//! Laws of the OIL text of a generated application.
ghost use Rattle.std.specs.Prelude.{◌≡◌, length};
ghost use Rattle.sloth_base.specs.declared.config.Config.{Config};
ghost use Rattle.sloth_base.specs.Limits.{task_limit};
ghost use Rattle.app_gen.specs.Oil.{oil_text};
ghost use Rattle.sloth_source.specs.OilText.{OilText};

/// Of 30 tasks, the greatest number, the text declares all.
pub fn all_tasks_are_declared()
    ensures { (config : Config) → OilText (oil_text task_limit) config → length config.tasks ≡ task_limit }
{}

/// It declares no counter.
pub fn no_counter_is_declared()
    ensures { (config : Config) → OilText (oil_text task_limit) config → length config.counters ≡ 0 }
{}

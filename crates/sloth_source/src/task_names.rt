//! Tasks by their names.
ghost use Rattle.std.specs.Prelude.{◌≡◌};
ghost use Rattle.sloth_source.specs.TaskNames.{task_named};

use sloth_base::Config;
use text_pieces::same;

/// The task of this name, if there is one.
pub fn task_named(config: &Config, name: &[u8]) -> Option<usize>
    ensures { result ≡ task_named config.now name.now }
{
    let tasks = config.tasks.items();
    tasks.iter().position(|task| same(name, task.name.bytes()))
}

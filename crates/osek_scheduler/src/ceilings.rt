//! The ceilings of resources (OSEK OS 2.2.3, section 8.5), computed.
ghost use Rattle.std.specs.Prelude.{◌≡◌, map, filter};
ghost use Rattle.osek_scheduler.specs.Priority.{ceiling, greatest, highest_priority};
ghost use Rattle.code_rules.specs.Code.{is_in};

use sloth_base::{Config, RES_SCHEDULER, TaskDecl};

fn lists(task: &TaskDecl, resource: u32) -> bool
    ensures { result ≡ is_in resource task.now.resources }
{
    for other in task.resources.items() {
        if other.0 == resource {
            return true;
        }
    }
    false
}

/// The highest priority of all tasks, 0 where there is none.
pub fn highest(config: &Config) -> u32
    ensures { result ≡ highest_priority config.now }
{
    let mut top = 0;
    for task in config.tasks.items() {
        top = task.priority.max(top);
    }
    top
}

fn highest_user(config: &Config, resource: u32) -> u32
    ensures { result ≡ greatest (map (λ d. d.priority) (filter (λ d. is_in resource d.resources) config.now.tasks)) }
{
    let mut top = 0;
    for task in config.tasks.items() {
        if lists(task, resource) {
            top = task.priority.max(top);
        }
    }
    top
}

/// The ceiling of a resource, 0 where no task lists it.
pub fn ceiling(config: &Config, resource: u32) -> u32
    ensures { result ≡ ceiling config.now resource }
{
    if resource == RES_SCHEDULER {
        return highest(config);
    }
    highest_user(config, resource)
}

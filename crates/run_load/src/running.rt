//! What is seen of the abstract scheduler between two events.
ghost use Rattle.std.specs.Prelude.{◌≡◌, ◌<◌, not, ◌&&◌, ◌||◌, leb, length};
ghost use Rattle.osek_scheduler.specs.Next.{all_below, is_due};
ghost use Rattle.osek_scheduler.specs.Priority.{is_active, rank};
ghost use Rattle.osek_scheduler.specs.State.{task as task_of};
ghost use Rattle.response_laws.specs.Busy.{is_quiet};
ghost use Rattle.response_laws.specs.Sums.{is_over};
ghost use Rattle.sim_induction.specs.Spent.{is_running};

use osek_machine::priority::{is_due, rank};
use osek_machine::{Store, is_active, no_ticks};
use sloth_base::Config;

// Whether a task is not Active, or of no greater rank than another.
fn is_below(config: &Config, store: &Store, t: usize, u: usize) -> bool
    requires count { length store.now.tasks ≡ length config.now.tasks }
    requires first { t < length config.now.tasks }
    requires second { u < length config.now.tasks }
    ensures { result ≡ (not (is_active (task_of store.now u).state) || leb (rank config.now store.now u)
        (rank config.now store.now t)) }
{
    !is_active(store.task(u).state()) || rank(config, store, u) <= rank(config, store, t)
}

// Whether all others are.
fn is_greatest(config: &Config, store: &Store, t: usize) -> bool
    requires count { length store.now.tasks ≡ length config.now.tasks }
    requires declared { t < length config.now.tasks }
    ensures { result ≡ all_below (length config.now.tasks)
        (λ u. not (is_active (task_of store.now u).state) || leb (rank config.now store.now u)
        (rank config.now store.now t)) }
{
    for u in 0..config.tasks.items().len() {
        if !is_below(config, store, t, u) {
            return false;
        }
    }
    true
}

/// Whether a task runs where no line is taken.
pub fn is_running(config: &Config, store: &Store, t: usize) -> bool
    requires count { length store.now.tasks ≡ length config.now.tasks }
    requires declared { t < length config.now.tasks }
    ensures { result ≡ is_running config.now store.now t }
{
    is_active(store.task(t).state()) && is_greatest(config, store, t)
}

fn is_over(config: &Config, h: usize, t: usize) -> bool
    requires one { h < length config.now.tasks }
    requires other { t < length config.now.tasks }
    ensures { result ≡ is_over config.now h t }
{
    config.tasks.items()[h].priority <= config.tasks.items()[t].priority
}

// Whether no task of at least the priority of h is due.
fn is_idle_over(config: &Config, store: &Store, h: usize) -> bool
    requires count { length store.now.tasks ≡ length config.now.tasks }
    requires declared { h < length config.now.tasks }
    ensures { result ≡ all_below (length config.now.tasks) (λ t. not (is_over config.now h t && is_due store.now t)) }
{
    for t in 0..config.tasks.items().len() {
        if is_over(config, h, t) && is_due(store, t) {
            return false;
        }
    }
    true
}

/// Whether no task of at least the priority of h is Ready or Active, and no counter is due.
pub fn is_quiet(config: &Config, store: &Store, h: usize) -> bool
    requires count { length store.now.tasks ≡ length config.now.tasks }
    requires declared { h < length config.now.tasks }
    ensures { result ≡ is_quiet config.now h store.now }
{
    is_idle_over(config, store, h) && no_ticks(config, store)
}

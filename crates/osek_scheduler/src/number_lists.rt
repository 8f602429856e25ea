//! The resources that a task holds, and the tasks that arrivals made Ready.
ghost use Rattle.std.specs.Prelude.{◌≡◌, ◌<◌, ◌++◌, [], ◌∷◌, length, IfOk};
ghost use Rattle.sloth_base.specs.Limits.{ceiling_count, task_limit};
ghost use Rattle.code_rules.specs.Code.{is_last, without_last};

use sloth_base::{CEILING_COUNT, Result, TASK_LIMIT};
use std::alloc::Global;
use std::marker::Model;

/// The resources that a task holds, in the order taken, with room for `CEILING_COUNT`.
#[derive(Drop)]
pub struct Held {
    resources: Vec<u32>,
}

impl Model for Held {
    ghost use Rattle.std.specs.Prelude.{List, ℕ, vec_len, vec_capacity, ◌≤◌};
    ghost use Rattle.sloth_base.specs.Limits.{ceiling_count};

    ghost Value = { List ℕ };

    ghost view = { λ h. h.resources.items };

    ghost invariant = { λ h. (vec_len h.resources ≤ ceiling_count) × (ceiling_count ≤ vec_capacity h.resources) };
}

impl Held {
    /// No resource.
    pub fn new(alloc: Global) -> Result<Held>
        ensures { IfOk result (λ h. h ≡ []) }
    {
        let resources = Vec::with_capacity(alloc, CEILING_COUNT)?;
        Ok(Held { resources })
    }

    /// The resources, in the order taken.
    pub fn items(&self) -> &[u32]
        ensures { result.now ≡ self.now }
    {
        self.resources.as_slice()
    }

    /// Takes a resource.
    pub fn take(&mut self, resource: u32)
        requires { length self.old < ceiling_count }
        ensures { self.new ≡ self.old ++ resource ∷ [] }
    {
        self.resources.push_reserved(resource);
    }

    /// Gives back what was taken last.
    pub fn release(&mut self)
        ensures { self.new ≡ without_last self.old }
    {
        let count = self.resources.as_slice().len();
        self.resources.truncate(count.saturating_sub(1));
    }

    /// Whether this resource was taken last.
    pub fn is_last(&self, resource: u32) -> bool
        ensures { result ≡ is_last resource self.now }
    {
        match self.items().last() {
            Some(last) => *last == resource,
            None => false,
        }
    }
}

/// Tasks that admitted arrivals made Ready since the last event of another kind, newest first, up to `TASK_LIMIT`.
#[derive(Drop)]
pub struct Fresh {
    first: usize,
    tasks: [u32; TASK_LIMIT],
}

impl Model for Fresh {
    ghost use Rattle.std.specs.Prelude.{List, ℕ, drop, ◌≤◌};
    ghost use Rattle.sloth_base.specs.Limits.{task_limit};

    ghost Value = { List ℕ };

    ghost view = { λ f. drop f.first f.tasks };

    ghost invariant = { λ f. f.first ≤ task_limit };
}

impl Fresh {
    /// No task.
    pub fn new() -> Fresh
        ensures { result ≡ [] }
    {
        Fresh {
            first: TASK_LIMIT,
            tasks: [0; TASK_LIMIT],
        }
    }

    /// The tasks, the newest first.
    pub fn items(&self) -> &[u32]
        ensures { result.now ≡ self.now }
    {
        &self.tasks[self.first..]
    }

    /// One task more.
    pub fn add(&mut self, task: u32)
        requires { length self.old < task_limit }
        ensures { self.new ≡ task ∷ self.old }
    {
        self.first -= 1;
        self.tasks[self.first] = task;
    }

    /// No task is left.
    pub fn clear(&mut self)
        ensures { self.new ≡ [] }
    {
        self.first = TASK_LIMIT;
    }
}

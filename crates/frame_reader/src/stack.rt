// The tasks that are to come, as a stack.
ghost use Rattle.std.specs.Prelude.{◌≡◌, ◌+◌, ◌-◌, ◌<◌, ◌≤◌, ◌++◌, ◌∷◌, [], List, length, take, vec_len, vec_capacity, option_to_list, slice_get, OnOk, OnErr, option_copied};
ghost use Rattle.frame_reader.specs.Steps.{inner_tasks, replaced_last};

use crate::node::Node;
use crate::task::Task;
use apt_base::NoMemory;
use std::alloc::Global;
use std::marker::Model;

/// Tasks, of which the last one is the next to begin.
#[derive(Drop)]
pub(crate) struct Stack {
    tasks: Vec<Task>,
}

impl Model for Stack {
    ghost use Rattle.std.specs.Prelude.{List};
    ghost use Rattle.frame_reader.specs.declared.task.Task.{Task};

    ghost Value = { List Task };

    ghost view = { λ s. s.tasks.items };
}

// Puts a task on tasks that have room for it.
fn put(tasks: &mut Vec<Task>, task: Option<Task>)
    requires { vec_len tasks.old < vec_capacity tasks.old }
    ensures items { tasks.new.items ≡ tasks.old.items ++ option_to_list task }
    ensures len { vec_len tasks.new ≤ vec_len tasks.old + 1 }
    ensures capacity { vec_capacity tasks.old ≤ vec_capacity tasks.new }
{
    let Some(task) = task else {
        return;
    };
    match tasks.push(task) {
        Ok(()) => {}
        Err(_) => unreachable!(),
    }
}

// Puts a task for each field on tasks that have room for them, the first field last.
fn put_fields(tasks: &mut Vec<Task>, fields: &[Node], room: u16)
    requires { vec_len tasks.old + length fields.now ≤ vec_capacity tasks.old }
    ensures { tasks.new.items ≡ tasks.old.items ++ inner_tasks room fields.now }
{
    let mut left = fields.len();
    while left > 0 {
        left -= 1;
        put(tasks, Some(Task::Field(fields[left], room)));
    }
}

impl Stack {
    /// No tasks.
    pub(crate) fn new(alloc: Global) -> Stack
        ensures { result ≡ [] }
    {
        Stack {
            tasks: Vec::new(alloc),
        }
    }

    /// The task that begins next.
    pub(crate) fn last(&self) -> Option<Task>
        ensures { result ≡ slice_get self.now (length self.now - 1) }
    {
        self.tasks.last().copied()
    }

    /// Puts a task on top. Without memory nothing changes.
    pub(crate) fn push(&mut self, task: Task) -> Result<(), NoMemory>
        ensures ok { OnOk result (self.new ≡ self.old ++ task ∷ []) }
        ensures err { OnErr result (self.new ≡ self.old) }
    {
        self.tasks.push(task)?;
        Ok(())
    }

    /// Takes all tasks away.
    pub(crate) fn clear(&mut self)
        ensures { self.new ≡ [] }
    {
        self.tasks.clear();
    }

    /// Puts tasks in place of the last one: one that stands below, one that stands above it, and one for each field, the first field last. Without memory nothing changes.
    pub(crate) fn replace_last(
        &mut self,
        below: Option<Task>,
        above: Option<Task>,
        fields: &[Node],
        room: u16,
    ) -> Result<(), NoMemory>
        requires { 0 < length self.old }
        ensures ok { OnOk result (self.new ≡ replaced_last self.old below above room fields.now) }
        ensures err { OnErr result (self.new ≡ self.old) }
    {
        self.tasks.reserve(fields.len() + 1)?;
        self.tasks.pop();
        put(&mut self.tasks, below);
        put(&mut self.tasks, above);
        put_fields(&mut self.tasks, fields, room);
        Ok(())
    }
}

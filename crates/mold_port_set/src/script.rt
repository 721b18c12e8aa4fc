//! The script of a set of ports in memory.

ghost use Rattle.std.specs.Prelude.{◌≡◌, ◌≤◌, ◌+◌, fold, position, vec_len, IfNone, OnSome};
ghost use Rattle.std.specs.List.{list_any};
ghost use Rattle.mold_port_set.specs.Memory.{earlier, is_due, is_ready, next_step, steps_after};

use crate::port_set_call::PortSetCall;
use crate::port_set_step::PortSetStep;

/// The steps that were not taken yet, in order.
#[derive(Drop)]
pub(crate) struct Script {
    pub(crate) steps: Vec<PortSetStep>,
}

impl Script {
    /// Takes the first due step that is for this call.
    pub(crate) fn take(&mut self, call: PortSetCall, now: u64) -> Option<PortSetStep>
        ensures value { result ≡ next_step call now self.old.steps.items }
        ensures left { self.new.steps.items ≡ steps_after call now self.old.steps.items }
        ensures none { IfNone result (self.new.steps.items ≡ self.old.steps.items) }
        ensures len { OnSome result (vec_len self.new.steps + 1 ≡ vec_len self.old.steps) }
        ensures most { vec_len self.new.steps ≤ vec_len self.old.steps }
    {
        let index = due_index(&self.steps, call, now)?;
        Some(self.steps.remove(index))
    }

    /// Returns the earlier of `until` and the least time of a step for a wait or a receive.
    pub(crate) fn end_of_wait(&self, until: u64) -> u64
        ensures { result ≡ fold earlier until self.now.steps.items }
    {
        self.steps
            .iter()
            .fold(until, |time, step| step.earlier(time))
    }

    /// Returns whether a step for a receive is due.
    pub(crate) fn is_ready(&self, now: u64) -> bool
        ensures { result ≡ list_any (is_ready now) self.now.steps.items }
    {
        self.steps.iter().any(|step| step.is_ready(now))
    }
}

// The index of the first due step that is for this call.
fn due_index(steps: &[PortSetStep], call: PortSetCall, now: u64) -> Option<usize>
    ensures { result ≡ position (is_due call now) steps.now }
{
    steps.iter().position(|step| step.is_due(call, now))
}

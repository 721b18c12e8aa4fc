//! A plan as the fields of a struct.

ghost use Rattle.std.specs.Prelude.{◌≡◌, ◌↔◌, IsSome, IfSome};
ghost use Rattle.mold_ffi.specs.Server.MoldPlan.{plan_of, plan_fields};
ghost use Rattle.mold_session.specs.Answer.{IsPlan};

use mold_session::Plan;
use mold_wire::Session;

/// The remaining responses to a request: the messages from `from` to below `to`, in at most `left` datagrams.
#[repr(C)]
#[derive(Clone, Copy)]
pub struct MoldPlan {
    /// The number of the next message, at least 1.
    pub from: u64,
    /// One more than the number of the last message, at least `from`.
    pub to: u64,
    /// The greatest number of datagrams that remain to be sent.
    pub left: u16,
    /// The session of the messages.
    pub session: [u8; 10],
}

impl MoldPlan {
    /// Returns the plan with these fields; `None` if `from` is 0 or above `to`.
    pub(crate) fn resumed(&self) -> Option<Plan>
        ensures some { IsSome result ↔ IsPlan (plan_of self.now) }
        ensures plan { IfSome result (λ plan. plan ≡ plan_of self.now) }
    {
        Plan::resumed(Session(self.session), self.from, self.to, self.left)
    }

    /// Writes the fields of a plan.
    pub(crate) fn write(&mut self, plan: &Plan)
        ensures { self.new ≡ plan_fields plan.now }
    {
        self.from = plan.from();
        self.to = plan.to();
        self.left = plan.left();
        let Session(name) = plan.session();
        self.session = name;
    }
}

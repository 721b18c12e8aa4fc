//! Theorems about the rate of requests of `receive`. Each law is a function with an empty body whose contract is the
//! theorem.

ghost use Rattle.std.specs.Prelude.{◌≡◌, ◌+◌, ◌-◌, ◌*◌, ◌<◌, ◌≤◌, ℕ, List, length};
ghost use Rattle.mold_repair.specs.Laws.{requests_of};
ghost use Rattle.mold_repair.specs.Run.{IsRepaired};
ghost use Rattle.mold_repair.specs.declared.outcome.Outcome.{Outcome};
ghost use Rattle.mold_repair.specs.declared.repairer.Repairer.{Repairer};
ghost use Rattle.mold_repair.specs.declared.step.RepairStep.{RepairStep};
ghost use Rattle.mold_wiring.specs.Receiving.{repair_options, request_interval};
ghost use Rattle.mold_wiring.specs.declared.receiving.TheConstants.{NANOS_PER_SECOND};
ghost use Rattle.mold_words.specs.declared.receive_order.ReceiveOrder.{ReceiveOrder};

use mold_repair::laws::flood_law;

/// In any second, at most `requests` requests are sent. This holds for each part of a run that takes less than a second.
pub fn request_limit_law()
    ensures { (order : ReceiveOrder) (old new : Repairer) (steps : List RepairStep) (outcomes : List Outcome) →
        IsRepaired old new steps outcomes → old.options ≡ repair_options order → 0 < order.requests →
        new.pacer.state.now - old.pacer.state.now < NANOS_PER_SECOND →
        length (requests_of outcomes) ≤ order.requests }
{
    flood_law();
}

/// An interval is so short that a request for each one makes at least 0.85 times `requests` in a second, if `requests`
/// is 8 to 20,000, and at least one in a second in any case.
pub fn request_rate_law()
    ensures least { (requests : ℕ) → 8 ≤ requests → requests ≤ 20000 →
        85 * requests * request_interval requests ≤ 100 * NANOS_PER_SECOND }
    ensures one { (requests : ℕ) → request_interval requests ≤ NANOS_PER_SECOND }
{}

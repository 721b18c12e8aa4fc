//! The options of `mold receive` about requests.

ghost use Rattle.std.specs.Prelude.{◌<◌, ◌≤◌};

/// When and how often messages are requested, and who may respond, as the fields of `ReceiveOrder` with these names.
#[derive(Clone, Copy)]
pub(crate) struct RequestOptions {
    pub patience: u32,
    pub timeout: u32,
    pub ceiling: u32,
    pub requests: u32,
    pub in_flight: u32,
    pub give_up: u32,
    pub any_responder: bool,
    ghost patient: { (0 < patience → 200 ≤ patience) × (patience ≤ 1000000) },
    ghost timed: { (1 ≤ timeout) × (timeout ≤ 60000) },
    ghost doubling: { (timeout ≤ ceiling) × (ceiling ≤ 600000) },
    ghost asking: { (1 ≤ requests) × (requests ≤ 1000000) },
    ghost flying: { (1 ≤ in_flight) × (in_flight ≤ 4096) },
    ghost giving_up: { give_up ≤ 1000 },
}

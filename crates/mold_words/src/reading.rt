//! Parses command-line arguments into an order.
ghost use Rattle.std.specs.Prelude.{◌≡◌, [], IfErr, IfOk, Ok, Some, false, map, string_bytes};
ghost use Rattle.mold_words.specs.Faults.{IsFaultOf};
ghost use Rattle.mold_words.specs.Orders.{AreTaken, Say, order_of};
ghost use Rattle.mold_words.specs.Arguments.{Arguments, view};

use crate::command::mold_command;
use crate::fault::{UsageFault, fault_for, value_fault};
use crate::orders::order_from;
use crate::types::Order;
use std::alloc::Global;

/// Parses the command-line arguments, without the program's name, into an order. Without arguments, the order is to
/// show packets.
///
/// Invalid commands and invalid values of options are returned as faults, and so is a request for help or for the
/// version. Each of these faults has a text for the user.
pub fn read_words(alloc: Global, words: &[String]) -> Result<Order, UsageFault>
    // An order is returned only for arguments that `clap` accepts, and it is the order that they give.
    ensures taken { IfOk result (λ _. AreTaken (map string_bytes words.now)) }
    ensures order { IfOk result (λ order. order_of (map string_bytes words.now) ≡ Some (view order)) }

    // If `clap` accepts the arguments and they give an order, the only fault is `Memory`. Otherwise the fault reports
    // what `clap` finds in them, or an invalid value of an option, or `Memory`. An invalid address is reported before
    // any other invalid value.
    ensures refused { IfErr result (λ fault. (wanted : Arguments) → Say (map string_bytes words.now) wanted
        → fault ≡ UsageFault.Memory) }
    ensures fault { IfErr result (IsFaultOf (map string_bytes words.now)) }
    ensures no_words { words.now ≡ [] → result ≡ Ok (Order.Show false) }
{
    if words.is_empty() {
        return Ok(Order::Show { request: false });
    }
    let command = mold_command(alloc)?;
    match command.try_get_matches_from(words) {
        Ok(matches) => match order_from(alloc, &matches) {
            Ok(order) => Ok(order),
            Err(none) => Err(value_fault(none.is_address(), none.text(alloc))),
        },
        Err(error) => Err(fault_for(error.kind(), error.to_string(alloc))),
    }
}

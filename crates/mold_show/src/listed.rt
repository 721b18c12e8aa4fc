//! The text of a list of messages that follows others.

ghost use Rattle.std.specs.Prelude.{◌≡◌, ◌+◌, ◌<◌, ◌^◌, [], None, length, IfErr, OnOk};
ghost use Rattle.mold_show.specs.Listed.{ListsUntil, first_refused, list_text};

use crate::dump::{is_dumped, is_unprintable, push_message};
use crate::dump_fault::DumpFault;
use crate::dump_options::DumpOptions;
use mold_messages::MessageList;

/// Appends the messages of a list that the options ask for, in their format, to an empty text. They are those of the
/// list, which follow `before` other messages. An empty message that cannot be printed is the fault `Empty`; the
/// messages before it are appended. If an allocation fails, the fault is `File(Memory)`, and the text has the messages
/// that were appended before.
#[tactic(auto, unfolding(crate::specs::Listed::list_text, crate::specs::Listed::first_refused))]
pub fn push_listed(
    text: &mut Vec<u8>,
    options: DumpOptions,
    before: u64,
    messages: &MessageList,
) -> Result<(), DumpFault>
    requires empty { text.old.items ≡ [] }
    requires few { before + length messages.now.messages < 2 ^ 64 }
    ensures all { OnOk result (text.new.items ≡ list_text options before messages.now.messages) }
    ensures whole { OnOk result (first_refused options before messages.now.messages ≡ None) }
    ensures until { IfErr result (λ fault.
        ListsUntil options before messages.now.messages text.new.items fault) }
{
    let mut number = before;
    for message in messages.iter() {
        let told = number;
        number += 1;
        if is_dumped(options, told) {
            if is_unprintable(options.format, message) {
                return Err(DumpFault::Empty { number });
            }
            push_message(text, options.format, message)?;
        }
    }
    Ok(())
}

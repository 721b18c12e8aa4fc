//! Receives from wanted senders.

ghost use Rattle.std.specs.Prelude.{◌≡◌, ◌↔◌, ◌≤◌, length, IfOk, IfSome, IsTrue};
ghost use Rattle.std.specs.Net.Socket.{v4_ip};
ghost use Rattle.mold_port_set.specs.SenderFilter.{IsWanted};

use crate::descriptor::Descriptor;
use crate::sender_list::SenderList;
use mold_devices::DeviceFault;
use std::net::SocketAddrV4;

/// The most datagrams of other senders that one receive ignores.
const MOST_PASSED_OVER: u32 = 64;

/// Takes the next datagram of a wanted sender, and returns its length. If `senders` is `None`, every sender is wanted.
/// Datagrams of other senders before it are ignored, and counted in `passed_over`, which stops at `u64::MAX`. Returns
/// `None` if no datagram remains, or if 64 were ignored. A fault means that the system reports an error of the socket.
pub(crate) fn receive_wanted(
    descriptor: Descriptor,
    senders: &Option<SenderList>,
    buffer: &mut [u8],
    passed_over: &mut u64,
) -> Result<Option<usize>, DeviceFault>
    ensures count { IfOk result (λ answer. IfSome answer (λ count. count ≤ length buffer.new)) }
    ensures same { length buffer.new ≡ length buffer.old }
{
    for _ in 0..MOST_PASSED_OVER {
        let Some((count, from)) = descriptor.receive(buffer)? else {
            return Ok(None);
        };
        if is_wanted(senders, from) {
            return Ok(Some(count));
        }
        *passed_over = passed_over.saturating_add(1);
    }
    Ok(None)
}

// Whether datagrams of this sender are wanted. Its port number does not matter.
fn is_wanted(senders: &Option<SenderList>, from: SocketAddrV4) -> bool
    ensures { IsTrue result ↔ IsWanted senders.now (v4_ip from) }
{
    match senders {
        Some(list) => list.contains(*from.ip()),
        None => true,
    }
}

//! What follows an IPv6 header or an extension header.

ghost use Rattle.std.specs.Prelude.{◌≡◌, option_map};
ghost use Rattle.mold_frame.specs.Ipv6.{passed};
ghost use Rattle.mold_frame.specs.Lent.{lent_payload};
ghost use Rattle.mold_frame.specs.Steps.{after_steps};

use crate::extension::header_length;
use crate::part::rest_at;

/// The greatest number of extension headers that are passed over.
pub(crate) const MAX_EXTENSIONS: usize = 8;

/// What follows an IPv6 header or an extension header.
#[derive(Clone, Copy)]
pub(crate) struct Payload<'a> {
    /// Its protocol number.
    pub(crate) next: u8,
    /// Its length in bytes, as the header states it.
    pub(crate) size: usize,
    /// Its bytes, as far as the capture has them.
    pub(crate) bytes: &'a [u8],
}

impl<'a> Payload<'a> {
    // Returns what follows the extension header at the start of the payload, or `None` if the payload begins with no
    // extension header to pass over.
    #[tactic(auto, unfolding(crate::specs::Ipv6::passed))]
    fn passed(&self) -> Option<Payload<'a>>
        ensures { option_map lent_payload result ≡ passed (lent_payload self.now) }
    {
        let len = header_length(self.next, self.bytes)?;
        if self.size < len {
            return None;
        }
        Some(Payload {
            next: self.bytes[0],
            size: self.size - len,
            bytes: rest_at(self.bytes, len),
        })
    }

    /// Returns what follows the extension headers at the start of the payload. At most `MAX_EXTENSIONS` are passed
    /// over.
    pub(crate) fn after_extensions(self) -> Payload<'a>
        ensures { lent_payload result ≡ after_steps passed 8 (lent_payload self.entry) }
    {
        let mut payload = self;
        for _ in 0..MAX_EXTENSIONS {
            let Some(next) = payload.passed() else {
                return payload;
            };
            payload = next;
        }
        payload
    }
}

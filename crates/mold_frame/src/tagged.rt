//! What follows the header of a link, with its VLAN tags.

ghost use Rattle.std.specs.Prelude.{◌≡◌, option_map};
ghost use Rattle.mold_frame.specs.Lent.{lent_tagged};
ghost use Rattle.mold_frame.specs.Link.{is_tag, untagged};
ghost use Rattle.mold_frame.specs.Steps.{after_steps};

use byteorder::{BigEndian, ByteOrder};

/// The greatest number of VLAN tags that are passed over.
pub(crate) const MAX_TAGS: usize = 2;

// The size of a VLAN tag in bytes, and the offset of the protocol number in it.
const TAG_LENGTH: usize = 4;

const TAG_PROTOCOL_AT: usize = 2;

// The protocol numbers of VLAN tags: IEEE 802.1Q, IEEE 802.1ad, and the number that was used before it.
const CUSTOMER_TAG: u16 = 0x8100;

const SERVICE_TAG: u16 = 0x88a8;

const OLD_SERVICE_TAG: u16 = 0x9100;

/// What follows a link's header or a VLAN tag.
#[derive(Clone, Copy)]
pub(crate) struct Tagged<'a> {
    /// Its protocol number.
    pub(crate) protocol: u16,
    pub(crate) bytes: &'a [u8],
}

// Whether the protocol number is that of a VLAN tag.
fn is_tag(protocol: u16) -> bool
    ensures { result ≡ is_tag protocol }
{
    protocol == CUSTOMER_TAG || protocol == SERVICE_TAG || protocol == OLD_SERVICE_TAG
}

impl<'a> Tagged<'a> {
    // Returns what follows the tag at the start, or `None` if there is no whole tag.
    #[tactic(auto, unfolding(crate::specs::Link::untagged))]
    fn untagged(&self) -> Option<Tagged<'a>>
        ensures { option_map lent_tagged result ≡ untagged (lent_tagged self.now) }
    {
        if !is_tag(self.protocol) || self.bytes.len() < TAG_LENGTH {
            return None;
        }
        Some(Tagged {
            protocol: BigEndian::read_u16(&self.bytes[TAG_PROTOCOL_AT..]),
            bytes: &self.bytes[TAG_LENGTH..],
        })
    }

    /// Returns what follows the tags at the start. At most `MAX_TAGS` are passed over.
    pub(crate) fn after_tags(self) -> Tagged<'a>
        ensures { lent_tagged result ≡ after_steps untagged 2 (lent_tagged self.entry) }
    {
        let mut tagged = self;
        for _ in 0..MAX_TAGS {
            let Some(next) = tagged.untagged() else {
                return tagged;
            };
            tagged = next;
        }
        tagged
    }
}

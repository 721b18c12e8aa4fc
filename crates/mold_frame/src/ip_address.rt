//! Addresses of IPv4 and IPv6.

ghost use Rattle.std.specs.Prelude.{◌≡◌};
ghost use Rattle.mold_frame.specs.Addresses.{IsAddress};
ghost use Rattle.mold_frame.specs.IpAddress.{address_bytes, ip_address};

// The length of an IPv4 address in bytes.
const IPV4_BYTES: usize = 4;

/// An address of IPv4 or IPv6, as a datagram of a frame has it.
#[derive(Clone, Copy, Debug, PartialEq, Eq, Hash)]
pub enum IpAddress {
    /// The 4 bytes of an IPv4 address, in the order of a packet.
    V4([u8; 4]),
    /// The 16 bytes of an IPv6 address, in the order of a packet.
    V6([u8; 16]),
}

impl IpAddress {
    /// Makes the address of these 4 or 16 bytes, in the order of a packet.
    pub fn from_bytes(bytes: &[u8]) -> IpAddress
        requires { IsAddress bytes.now }
        ensures { result ≡ ip_address bytes.now }
    {
        if bytes.len() == IPV4_BYTES {
            let mut address = [0; 4];
            address.copy_from_slice(bytes);
            IpAddress::V4(address)
        } else {
            let mut address = [0; 16];
            address.copy_from_slice(bytes);
            IpAddress::V6(address)
        }
    }

    /// Returns the 4 or 16 bytes of the address, in the order of a packet.
    pub fn as_bytes(&self) -> &[u8]
        ensures { result.now ≡ address_bytes self.now }
    {
        match self {
            IpAddress::V4(bytes) => bytes,
            IpAddress::V6(bytes) => bytes,
        }
    }
}

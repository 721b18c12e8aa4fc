//! Theorems about the definitions alone. Each law is a function with an empty body whose contract is the theorem.

ghost use Rattle.std.specs.Prelude.{◌≡◌, ◌++◌, ℕ, List, length};
ghost use Rattle.mold_frame.specs.Addresses.{HasAddresses};
ghost use Rattle.mold_frame.specs.Carried.{Datagram, Whole};
ghost use Rattle.mold_frame.specs.Link.{carried};
ghost use Rattle.mold_frame.specs.Written.{AreIpv4Fields, AreIpv6Fields, AreTags, IsDatagram, Tag};
ghost use Rattle.mold_frame.specs.Written.{Ipv4Fields, Ipv6Fields, ipv4_bytes, ipv6_bytes, tagged_bytes};

/// A datagram that is written is read back, whatever the other fields, the tags, the options or the extension headers,
/// and the padding are. An Ethernet frame has 12 bytes before its tags, and a Linux cooked frame (113) has 14.
pub fn frame_law()
    ensures ethernet { (d : Datagram) (checksum : ℕ) (fields : Ipv4Fields) (tags : List Tag)
        (start padding : List ℕ) →
        IsDatagram 4 d → AreIpv4Fields fields d → AreTags tags → length start ≡ 12 →
        carried 1 (start ++ tagged_bytes tags 0x0800 (ipv4_bytes checksum fields d padding)) ≡ Whole d }
    ensures ethernet_ipv6 { (d : Datagram) (checksum : ℕ) (fields : Ipv6Fields) (tags : List Tag)
        (start padding : List ℕ) →
        IsDatagram 16 d → AreIpv6Fields checksum fields d → AreTags tags → length start ≡ 12 →
        carried 1 (start ++ tagged_bytes tags 0x86dd (ipv6_bytes checksum fields d padding)) ≡ Whole d }
    ensures cooked { (d : Datagram) (checksum : ℕ) (fields : Ipv4Fields) (tags : List Tag)
        (start padding : List ℕ) →
        IsDatagram 4 d → AreIpv4Fields fields d → AreTags tags → length start ≡ 14 →
        carried 113 (start ++ tagged_bytes tags 0x0800 (ipv4_bytes checksum fields d padding)) ≡ Whole d }
    ensures cooked_ipv6 { (d : Datagram) (checksum : ℕ) (fields : Ipv6Fields) (tags : List Tag)
        (start padding : List ℕ) →
        IsDatagram 16 d → AreIpv6Fields checksum fields d → AreTags tags → length start ≡ 14 →
        carried 113 (start ++ tagged_bytes tags 0x86dd (ipv6_bytes checksum fields d padding)) ≡ Whole d }
    ensures ipv4 { (d : Datagram) (checksum : ℕ) (fields : Ipv4Fields) (padding : List ℕ) →
        IsDatagram 4 d → AreIpv4Fields fields d →
        carried 228 (ipv4_bytes checksum fields d padding) ≡ Whole d }
    ensures ipv6 { (d : Datagram) (checksum : ℕ) (fields : Ipv6Fields) (padding : List ℕ) →
        IsDatagram 16 d → AreIpv6Fields checksum fields d →
        carried 229 (ipv6_bytes checksum fields d padding) ≡ Whole d }
{}

/// Each address has 4 bytes (IPv4) or 16 bytes (IPv6). Both addresses of a datagram have the same length.
pub fn address_law()
    ensures { (link : ℕ) (bytes : List ℕ) → HasAddresses (carried link bytes) }
{}

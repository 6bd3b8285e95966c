//! Regions in the 24 bytes that a message has for one.
ghost use Rattle.std.specs.Prelude.{◌≡◌, take};
ghost use Rattle.kinds.specs.Bytes.{le16};

// Two numbers in four bytes, and the first twenty bytes of `rest`.
pub(crate) fn two_numbers_before(a: u16, b: u16, rest: [u8; 24]) -> [u8; 24]
    ensures { result ≡ le16 a (le16 b (take 20 rest)) }
{
    let mut out = [0; 24];
    out[0..2].copy_from_slice(&a.to_le_bytes());
    out[2..4].copy_from_slice(&b.to_le_bytes());
    out[4..24].copy_from_slice(&rest[0..20]);
    out
}

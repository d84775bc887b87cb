// Little-endian numbers in bytes. A byte past the end counts as 0.
ghost use Rattle.std.specs.Prelude.{◌≡◌, get_or};
ghost use Rattle.wire.specs.Number.{le16, le32};

// The byte at a place.
pub fn byte_at(s: &[u8], at: usize) -> u8
    ensures { result ≡ get_or s.now at 0 }
{
    if at < s.len() { s[at] } else { 0 }
}

// The u16 at a place.
// Two calls: the library has from_le_bytes for each type by itself.
pub fn u16_at(s: &[u8], at: usize) -> u16
    ensures { result ≡ le16 s.now at }
{
    if at < s.len() {
        u16::from_le_bytes([byte_at(s, at), byte_at(s, at + 1)])
    } else {
        0
    }
}

// The u32 at a place.
pub fn u32_at(s: &[u8], at: usize) -> u32
    ensures { result ≡ le32 s.now at }
{
    if at < s.len() {
        u32::from_le_bytes([
            byte_at(s, at),
            byte_at(s, at + 1),
            byte_at(s, at + 2),
            byte_at(s, at + 3),
        ])
    } else {
        0
    }
}

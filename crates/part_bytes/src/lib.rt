// Numbers read from bytes. 01, "Turn sheets": "Numbers are little-endian." Past the end every byte reads as 0.
#![tactic(auto)]

ghost use Rattle.std.specs.Prelude.{◌≡◌, drop};
ghost use Rattle.model.specs.Bytes.{byte_at, word16 as word16_at, word32 as word32_at};

// The byte numbered i.
pub fn byte(s: &[u8], i: usize) -> u8
    ensures { result ≡ byte_at s.now i }
{
    s.get(i).copied().unwrap_or(0)
}

// The bytes from byte i on; past the end there is none.
pub fn bytes_from(s: &[u8], i: usize) -> &[u8]
    ensures { result.now ≡ drop i s.now }
{
    s.get(i..).unwrap_or(&[])
}

// Kept: one function for each width, since clauses, theorems and edits name each (`word16_contract`), and a generic one, over a trait with
// `from_le_bytes`, would need an array filled for each width: no plainer.

// The 16-bit number at byte i.
pub fn word16(s: &[u8], i: usize) -> u16
    ensures { result ≡ word16_at s.now i }
{
    let rest = bytes_from(s, i);
    u16::from_le_bytes([byte(rest, 0), byte(rest, 1)])
}

// The 32-bit number at byte i.
pub fn word32(s: &[u8], i: usize) -> u32
    ensures { result ≡ word32_at s.now i }
{
    let rest = bytes_from(s, i);
    u32::from_le_bytes([byte(rest, 0), byte(rest, 1), byte(rest, 2), byte(rest, 3)])
}

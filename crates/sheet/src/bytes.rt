// Little-endian numbers of 32 bits in bytes.
ghost use Rattle.std.specs.Prelude.{◌≡◌, ℕ, ◌+◌, ◌^◌, ◌<◌, ◌≤◌, length, slice_index};
ghost use Rattle.sheet.specs.Bytes.{number_at, unsigned_at};

// The byte at a place, 0 past the last.
pub(crate) fn byte_at(bytes: &[u8], at: usize) -> u8
    ensures { result ≡ slice_index bytes.now at }
{
    bytes.get(at).copied().unwrap_or_default()
}

pub(crate) fn unsigned_at(bytes: &[u8], at: usize) -> u32
    requires { at + 3 < 2 ^ 64 }
    ensures { result ≡ unsigned_at bytes.now at }
{
    u32::from_le_bytes([
        byte_at(bytes, at),
        byte_at(bytes, at + 1),
        byte_at(bytes, at + 2),
        byte_at(bytes, at + 3),
    ])
}

pub(crate) fn number_at(bytes: &[u8], at: usize) -> i32
    requires { at + 3 < 2 ^ 64 }
    ensures { result ≡ number_at bytes.now at }
{
    unsigned_at(bytes, at).cast_signed()
}

// Writes an unsigned number, and leaves all other bytes.
pub(crate) fn put_unsigned(bytes: &mut [u8], at: usize, x: u32)
    requires { at + 4 ≤ length bytes.old }
    ensures long { length bytes.new ≡ length bytes.old }
    ensures here { unsigned_at bytes.new at ≡ x }
    ensures before { (i : ℕ) → i < at → slice_index bytes.new i ≡ slice_index bytes.old i }
    ensures after { (i : ℕ) → at + 4 ≤ i → slice_index bytes.new i ≡ slice_index bytes.old i }
{
    let [a, b, c, d] = x.to_le_bytes();
    bytes[at] = a;
    bytes[at + 1] = b;
    bytes[at + 2] = c;
    bytes[at + 3] = d;
}

// Writes a signed number, and leaves all other bytes.
pub(crate) fn put_number(bytes: &mut [u8], at: usize, x: i32)
    requires { at + 4 ≤ length bytes.old }
    ensures long { length bytes.new ≡ length bytes.old }
    ensures here { number_at bytes.new at ≡ x }
    ensures before { (i : ℕ) → i < at → slice_index bytes.new i ≡ slice_index bytes.old i }
    ensures after { (i : ℕ) → at + 4 ≤ i → slice_index bytes.new i ≡ slice_index bytes.old i }
{
    put_unsigned(bytes, at, x.cast_unsigned());
}

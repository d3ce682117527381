//! The numbers in a note: unsigned fields of two, four or eight bytes, the lowest byte first.
ghost use Rattle.std.specs.Prelude.{◌≡◌, ℕ, ◌+◌, ◌≤◌, length};
ghost use Rattle.feed.specs.Fields.{little_endian_number, field};

// An unsigned number of N bytes. The toolchain's own trait for this hides N, so it cannot say how large an array to cut
// from a note.
pub(crate) trait LittleEndian<const N: usize>: Sized {
    ghost value: { Self → ℕ };

    fn from_bytes(bytes: [u8; N]) -> Self
        ensures { value result ≡ little_endian_number bytes.entry };
}

// The field at this offset. Its width follows from the type of the result.
pub(crate) fn number_at<const N: usize, T: LittleEndian<N>>(note: &[u8], at: usize) -> T
    requires { at + N ≤ length note.now }
    ensures { T.value result ≡ field note.now at N }
{
    T::from_bytes(note[at..at + N].try_into().unwrap())
}

impl LittleEndian<2> for u16 {
    ghost value = { λ n. n };

    fn from_bytes(bytes: [u8; 2]) -> u16
        ensures { result ≡ little_endian_number bytes }
    {
        u16::from_le_bytes(bytes)
    }
}

impl LittleEndian<4> for u32 {
    ghost value = { λ n. n };

    fn from_bytes(bytes: [u8; 4]) -> u32
        ensures { result ≡ little_endian_number bytes }
    {
        u32::from_le_bytes(bytes)
    }
}

impl LittleEndian<8> for u64 {
    ghost value = { λ n. n };

    fn from_bytes(bytes: [u8; 8]) -> u64
        ensures { result ≡ little_endian_number bytes }
    {
        u64::from_le_bytes(bytes)
    }
}

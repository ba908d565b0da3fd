/// The greatest number of bytes of a C text.
pub const MOST_BYTES: u32 = 1_048_576;

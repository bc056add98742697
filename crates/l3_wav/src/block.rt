/// Bytes that are read at a time: whole samples of one channel and of two.
pub const BLOCK: usize = 4096;

/// A block before it is read.
pub fn empty_block() -> [u8; BLOCK] {
    [0; BLOCK]
}

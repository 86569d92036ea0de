//! Bytes that are written into a caller's buffer.
ghost use Rattle.capi.specs.Writing.{Writes};

/// Writes bytes into the first bytes of a buffer and tells how many they are, or, if they do not fit, how many are needed, as a negative number.
pub(crate) fn write(bytes: &[u8], buffer: &mut [u8]) -> i64
    ensures { Writes bytes.now buffer.old result buffer.new }
{
    let length = bytes.len() as i64;
    if buffer.len() < bytes.len() {
        return -length;
    }
    buffer[..bytes.len()].copy_from_slice(bytes);
    length
}

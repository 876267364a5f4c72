//! What a field of a line says: a number, or bytes in hex, decoded into a room that is lent.

// No field says more bytes.
const MOST_BYTES: usize = 65536;

// A number of 16 bits.
pub(crate) fn word(s: &[u8]) -> Option<u16> {
    u16::try_from(text::number(s, usize::from(u16::MAX))?).ok()
}

// A mark, 0 or 1.
pub(crate) fn mark(s: &[u8]) -> Option<bool> {
    Some(text::number(s, 1)? == 1)
}

// The bytes that a field says, at the start of a room, and the rest of the room; `-` says that there are no bytes.
pub(crate) fn decoded<'a>(room: &'a mut [u8], s: &[u8]) -> Option<(&'a [u8], &'a mut [u8])> {
    let size = match s {
        b"-" => 0,
        b"" => return None,
        _ if 2 * MOST_BYTES < s.len() => return None,
        _ => text::put_unhex(room, 0, s)?,
    };
    let (bytes, rest) = room.split_at_mut_checked(size)?;
    Some((bytes, rest))
}

// The bytes of a field alone.
pub(crate) fn bytes<'a>(room: &'a mut [u8], s: &[u8]) -> Option<&'a [u8]> {
    let (bytes, _) = decoded(room, s)?;
    Some(bytes)
}

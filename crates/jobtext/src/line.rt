//! The words of a line, which stand between blanks and before a comment.

fn is_blank(x: u8) -> bool {
    matches!(x, b' ' | b'\t' | b'\r')
}

/// Word k of a line; nothing where it has fewer.
pub fn word(line: &[u8], k: usize) -> &[u8] {
    // No word is empty, so `b""` says none; callers match words, and with `Some` before each they read no plainer.
    line.split(|x| is_blank(*x))
        .filter(|word| !word.is_empty())
        .nth(k)
        .unwrap_or(b"")
}

/// A line without its comment, and without its end.
pub fn bare(line: &[u8]) -> &[u8] {
    line.split(|x| matches!(*x, b'#' | b'\n'))
        .next()
        .unwrap_or(b"")
}

/// A number of 16 bits.
pub fn number(s: &[u8]) -> Option<u16> {
    u16::try_from(text::number(s, usize::from(u16::MAX))?).ok()
}

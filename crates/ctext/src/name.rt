//! Names of C.

// The words that C has taken, to C23, and those that the source itself uses.
static TAKEN: [&[u8]; 58] = [
    b"auto",
    b"break",
    b"case",
    b"char",
    b"const",
    b"continue",
    b"default",
    b"do",
    b"double",
    b"else",
    b"enum",
    b"extern",
    b"float",
    b"for",
    b"goto",
    b"if",
    b"inline",
    b"int",
    b"long",
    b"register",
    b"restrict",
    b"return",
    b"short",
    b"signed",
    b"sizeof",
    b"static",
    b"struct",
    b"switch",
    b"typedef",
    b"union",
    b"unsigned",
    b"void",
    b"volatile",
    b"while",
    b"_Alignas",
    b"_Alignof",
    b"_Atomic",
    b"_Bool",
    b"_Complex",
    b"_Generic",
    b"_Imaginary",
    b"_Noreturn",
    b"_Static_assert",
    b"_Thread_local",
    b"alignas",
    b"alignof",
    b"bool",
    b"constexpr",
    b"false",
    b"nullptr",
    b"static_assert",
    b"thread_local",
    b"true",
    b"typeof",
    b"typeof_unqual",
    b"main",
    b"size_t",
    b"uint8_t",
];

fn is_letter(x: u8) -> bool {
    x.is_ascii_alphabetic() || x == b'_'
}

fn is_part(x: u8) -> bool {
    is_letter(x) || x.is_ascii_digit()
}

fn is_spelled(s: &[u8]) -> bool {
    match s {
        [first, rest @ ..] => is_letter(*first) && rest.iter().all(|x| is_part(*x)),
        [] => false,
    }
}

/// Whether bytes can name something in C.
pub fn is_name(s: &[u8]) -> bool {
    is_spelled(s) && !TAKEN.contains(&s)
}

ghost use Rattle.std.specs.Prelude.{◌≡◌, map};
ghost use Rattle.std.specs.List.{list_any};
ghost use Rattle.std.specs.Str.{bytes_eq};
ghost use Rattle.base_core.specs.Keywords as spec;

/// The keywords of C11 (6.4.1). Those from `auto` on stand in no rule of the subset's grammar.
const KEYWORDS: [&[u8]; 44] = [
    b"break",
    b"case",
    b"char",
    b"const",
    b"continue",
    b"default",
    b"do",
    b"else",
    b"enum",
    b"extern",
    b"for",
    b"goto",
    b"if",
    b"int",
    b"long",
    b"return",
    b"short",
    b"signed",
    b"sizeof",
    b"static",
    b"struct",
    b"switch",
    b"typedef",
    b"unsigned",
    b"void",
    b"volatile",
    b"while",
    b"auto",
    b"double",
    b"float",
    b"inline",
    b"register",
    b"restrict",
    b"union",
    b"_Alignas",
    b"_Alignof",
    b"_Atomic",
    b"_Bool",
    b"_Complex",
    b"_Generic",
    b"_Imaginary",
    b"_Noreturn",
    b"_Static_assert",
    b"_Thread_local",
];

/// Whether the word is one of these.
pub fn is_among(mut words: &[&[u8]], word: &[u8]) -> bool
    ensures { result ≡ list_any (bytes_eq word.now) (map (λ w. w.now) words.entry.now) }
{
    while let [known, rest @ ..] = words {
        if word == *known {
            return true;
        }
        words = rest;
    }
    false
}

/// Whether the word is a keyword of C11 (6.4.1), one that the subset refuses or not.
pub fn is_keyword(word: &[u8]) -> bool
    ensures { result ≡ spec.is_keyword word.now }
{
    is_among(&KEYWORDS, word)
}

//! Bytes and runs of bytes at the front of a text.

ghost use Rattle.std.specs.Prelude.{◌≡◌, ◌≢◌, ◌+◌, ◌^◌, ◌<◌, ◌≤◌, length, drop, take, slice_index, false, IfSome};
ghost use Rattle.std.specs.List.{prefix_len};
ghost use Rattle.std.specs.Char.{is_ascii_digit};
ghost use Rattle.c_lexer.specs.Bytes as spec;

/// A kind of byte.
#[derive(Clone, Copy, Debug)]
pub enum ByteClass {
    /// A blank.
    Blank,
    /// A byte of a line, which isn't the newline at its end.
    Line,
    /// A letter, a digit or `_`.
    Word,
    /// A decimal digit.
    Digit,
    /// An octal digit.
    Octal,
    /// A hexadecimal digit.
    Hexadecimal,
    /// A byte of a header's name.
    Header,
    /// A byte of a file's name.
    File,
    /// A decimal digit or a blank.
    Group,
}

pub fn is_blank(b: u8) -> bool
    ensures { result ≡ spec.is_blank b }
{
    b == b' ' || (9 <= b && b <= 13)
}

pub fn is_letter(b: u8) -> bool
    ensures { result ≡ spec.is_letter b }
{
    b.is_ascii_alphabetic() || b == b'_'
}

pub fn is_digit(b: u8) -> bool
    ensures { result ≡ is_ascii_digit b }
{
    b.is_ascii_digit()
}

pub fn is_in(class: ByteClass, b: u8) -> bool
    ensures { result ≡ spec.is_in class b }
{
    match class {
        ByteClass::Blank => is_blank(b),
        ByteClass::Line => b != b'\n',
        ByteClass::Word => b.is_ascii_alphanumeric() || b == b'_',
        ByteClass::Digit => b.is_ascii_digit(),
        ByteClass::Octal => 48 <= b && b <= 55,
        ByteClass::Hexadecimal => b.is_ascii_hexdigit(),
        ByteClass::Header => b != b'>',
        ByteClass::File => !(b == b'"' || b == b'\\'),
        ByteClass::Group => b.is_ascii_digit() || is_blank(b),
    }
}

/// The byte at a place, or 0 where the text ends before it.
pub fn byte(z: &[u8], at: usize) -> u8
    ensures value { result ≡ slice_index z.now at }
    ensures within { result ≢ 0 → at < length z.now }
{
    if at < z.len() { z[at] } else { 0 }
}

/// The first bytes, as many as there are.
pub fn front(z: &[u8], n: usize) -> &[u8]
    ensures { result.now ≡ take n z.now }
{
    if n <= z.len() { &z[..n] } else { z }
}

/// What follows the first bytes.
pub fn back(z: &[u8], n: usize) -> &[u8]
    ensures { result.now ≡ drop n z.now }
{
    if n <= z.len() { &z[n..] } else { &[] }
}

/// How many bytes at the front are in the class.
pub fn run(class: ByteClass, z: &[u8]) -> usize
    ensures value { result ≡ prefix_len (spec.is_in class) z.now }
    ensures within { result ≤ length z.now }
    ensures stops { result < length z.now → spec.is_in class (slice_index z.now result) ≡ false }
{
    let mut n = 0;
    while n < z.len() && is_in(class, z[n]) {
        n += 1;
    }
    n
}

/// What follows the blanks at the front.
pub fn past_blanks(z: &[u8]) -> &[u8]
    ensures { result.now ≡ spec.past_blanks z.now }
{
    back(z, run(ByteClass::Blank, z))
}

/// Whether all bytes are in the class.
pub fn all_in(class: ByteClass, z: &[u8]) -> bool
    ensures { result ≡ spec.all_in class z.now }
{
    run(class, z) == z.len()
}

/// The first place where the byte `a` stands directly before the byte `b`. The text begins at the place `at`.
pub fn first_pair(a: u8, b: u8, mut at: usize, mut z: &[u8]) -> Option<usize>
    requires second { b ≢ 0 }
    requires room { at + length z.now < 2 ^ 64 }
    ensures value { result ≡ spec.first_pair a b at z.entry.now }
    ensures within { IfSome result (λ k. k + 1 < at + length z.entry.now) }
{
    while let [x, rest @ ..] = z {
        if *x == a && byte(rest, 0) == b {
            return Some(at);
        }
        at += 1;
        z = rest;
    }
    None
}

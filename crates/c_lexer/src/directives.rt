//! Directives: lines that include a header, and line markers (C11 6.10.2 and 6.10.4).

ghost use Rattle.std.specs.Prelude.{◌≡◌, ◌<◌, ◌≤◌, length, slice_index, unwrap_or, IfSome};
ghost use Rattle.c_lexer.specs.Item.{IsWithin};
ghost use Rattle.c_lexer.specs.Directives as spec;

use crate::bytes::{ByteClass, all_in, back, byte, front, past_blanks, run};
use crate::item::{Item, Refusal};
use crate::numbers::value_up_to;
use base_core::is_among;

const INCLUDE: &[u8] = b"include";

/// The headers that a text may include.
const HEADERS: [&[u8]; 26] = [
    b"arpa/inet.h",
    b"errno.h",
    b"fcntl.h",
    b"limits.h",
    b"netinet/in.h",
    b"poll.h",
    b"pthread.h",
    b"semaphore.h",
    b"signal.h",
    b"stddef.h",
    b"stdint.h",
    b"stdio.h",
    b"stdlib.h",
    b"string.h",
    b"sys/select.h",
    b"sys/socket.h",
    b"sys/stat.h",
    b"sys/time.h",
    b"sys/times.h",
    b"sys/types.h",
    b"sys/un.h",
    b"sys/utsname.h",
    b"sys/wait.h",
    b"syslog.h",
    b"time.h",
    b"unistd.h",
];

#[tactic(auto, unfolding(crate::specs::Directives::is_header))]
fn is_header(name: &[u8]) -> bool
    ensures { result ≡ spec.is_header name.now }
{
    is_among(&HEADERS, name)
}

/// What stands behind the `#` and the blanks that follow it, up to the end of the line.
pub fn body(z: &[u8]) -> &[u8]
    ensures { result.now ≡ spec.body z.now }
{
    past_blanks(back(front(z, run(ByteClass::Line, z)), 1))
}

#[tactic(auto, unfolding(crate::specs::Directives::is_include))]
fn is_include(line: &[u8]) -> bool
    ensures { result ≡ spec.is_include line.now }
{
    let angle = past_blanks(back(line, 7));
    let name = back(angle, 1);
    let n = run(ByteClass::Header, name);
    front(line, 7) == INCLUDE
        && byte(angle, 0) == b'<'
        && byte(name, n) == b'>'
        && is_header(front(name, n))
        && all_in(ByteClass::Blank, back(name, n + 1))
}

fn is_utf8(bytes: &[u8]) -> bool
    ensures { result ≡ spec.is_utf8 bytes.now }
{
    match std::str::from_utf8(bytes) {
        Ok(_) => true,
        Err(_) => false,
    }
}

/// The digits of a line marker.
fn digits(line: &[u8]) -> &[u8]
    ensures { result.now ≡ spec.digits line.now }
{
    front(line, run(ByteClass::Digit, line))
}

/// A line marker from the `"` on.
fn quoted(line: &[u8]) -> &[u8]
    ensures { result.now ≡ spec.quoted line.now }
{
    past_blanks(back(line, run(ByteClass::Digit, line)))
}

/// The name in a line marker.
pub fn file_name(line: &[u8]) -> &[u8]
    ensures { result.now ≡ spec.file_name line.now }
{
    let name = back(quoted(line), 1);
    front(name, run(ByteClass::File, name))
}

/// The line number in a line marker, where it has one to nine digits.
fn number(line: &[u8]) -> Option<u64>
    ensures value { result ≡ spec.line_number line.now }
    ensures within { IfSome result (λ n. n ≤ 999999999) }
{
    let digits = digits(line);
    if 1 <= digits.len() && digits.len() <= 9 {
        value_up_to(999_999_999, 10, digits)
    } else {
        None
    }
}

/// The line number in a line marker, or 0 where it has not one to nine digits.
pub fn line_number(line: &[u8]) -> u32
    ensures value { result ≡ unwrap_or (spec.line_number line.now) 0 }
    ensures within { result ≤ 999999999 }
{
    match number(line) {
        Some(n) => n as u32,
        None => 0,
    }
}

#[tactic(auto, unfolding(crate::specs::Directives::is_marker))]
fn is_marker(line: &[u8]) -> bool
    ensures { result ≡ spec.is_marker line.now }
{
    let quoted = quoted(line);
    let name = back(quoted, 1);
    let n = run(ByteClass::File, name);
    number(line).is_some()
        && byte(quoted, 0) == b'"'
        && byte(name, n) == b'"'
        && is_utf8(front(name, n))
        && all_in(ByteClass::Group, back(name, n + 1))
}

/// The directive at the front of a text that begins with `#`, up to the end of its line.
#[tactic(auto, unfolding(crate::specs::Directives::directive))]
pub fn directive(z: &[u8]) -> Item
    requires begins { slice_index z.now 0 ≡ 35 }
    requires nonempty { 0 < length z.now }
    ensures value { result ≡ spec.directive z.now }
    ensures within { IsWithin result z.now }
{
    let n = run(ByteClass::Line, z);
    let line = body(z);
    if is_include(line) {
        Item::Gap(n)
    } else if is_marker(line) {
        Item::Marker(n)
    } else {
        Item::Fault(Refusal::Directive, 0)
    }
}

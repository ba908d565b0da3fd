//! Comments (C11 6.4.9). Lines aren't spliced: a `\` directly before a newline is refused in a comment.

ghost use Rattle.std.specs.Prelude.{◌≡◌, ◌+◌, ◌^◌, ◌<◌, ◌≤◌, length};
ghost use Rattle.c_lexer.specs.Item.{IsWithin};
ghost use Rattle.c_lexer.specs.Comments as spec;

use crate::bytes::{ByteClass, back, byte, first_pair, front, run};
use crate::item::{Item, Refusal};

/// The comment at the front of a text that begins with `/*`.
#[tactic(auto, unfolding(crate::specs::Comments::block_comment))]
pub fn block_comment(z: &[u8]) -> Item
    requires { 2 ≤ length z.now }
    ensures value { result ≡ spec.block_comment z.now }
    ensures within { IsWithin result z.now }
{
    match first_pair(b'*', b'/', 2, back(z, 2)) {
        None => Item::Fault(Refusal::OpenComment, 0),
        Some(star) => match first_pair(b'\\', b'\n', 0, front(z, star)) {
            Some(splice) => Item::Fault(Refusal::BadByte, splice),
            None => Item::Gap(star + 2),
        },
    }
}

/// The comment at the front of a text that begins with `//`.
#[tactic(auto, unfolding(crate::specs::Comments::line_comment))]
pub fn line_comment(z: &[u8]) -> Item
    requires { spec.begins_line_comment z.now }
    ensures value { result ≡ spec.line_comment z.now }
    ensures within { IsWithin result z.now }
{
    let n = run(ByteClass::Line, z);
    if byte(z, n) == b'\n' && byte(z, n - 1) == b'\\' {
        Item::Fault(Refusal::BadByte, n - 1)
    } else {
        Item::Gap(n)
    }
}

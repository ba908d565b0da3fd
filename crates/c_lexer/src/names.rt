//! Keywords and names (C11 6.4.1 and 6.4.2).

ghost use Rattle.std.specs.Prelude.{◌≡◌, true, slice_index};
ghost use Rattle.c_lexer.specs.Bytes.{is_letter};
ghost use Rattle.c_lexer.specs.Item.{IsWithin};
ghost use Rattle.c_lexer.specs.Names as spec;

use crate::bytes::{ByteClass, front, run};
use crate::item::Item;
use base_core::{Class, is_keyword};

/// The word at the front of a text that begins with a letter or `_`.
#[tactic(auto, unfolding(crate::specs::Names::name))]
pub fn name(z: &[u8]) -> Item
    requires { is_letter (slice_index z.now 0) ≡ true }
    ensures value { result ≡ spec.name z.now }
    ensures within { IsWithin result z.now }
{
    let n = run(ByteClass::Word, z);
    let word = front(z, n);
    if is_keyword(word) {
        Item::Token(Class::Keyword, n)
    } else {
        Item::Token(Class::Name, n)
    }
}

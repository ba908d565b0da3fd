//! The program of the items that were read, with its places.

ghost use Rattle.std.specs.Prelude.{◌≡◌, ◌≤◌, length, map, All, IsUtf8, IfOk};
ghost use Rattle.c_tree.specs.StatementView.{view_item};
ghost use Rattle.node_places.specs.Starts.{starts, closes};
ghost use Rattle.c_parser.specs.Places as spec;
ghost use Rattle.c_parser.specs.Reading.{IsRead};

use base_core::{Lexeme, Place};
use c_lexer::Tokens;
use c_tree::{Item, Program};
use node_places::find;
use sqlite_items::Items;
use std::alloc::{AllocError, Global};

/// The program of these items, which the tokens spell.
pub(crate) fn placed(
    alloc: Global,
    tokens: &Tokens,
    items: Items<Item>,
) -> Result<Program, AllocError>
    requires { IsRead tokens.now.tokens (map view_item items) }
    ensures items { IfOk result (λ p. p.items ≡ items) }
    ensures places { IfOk result (λ p. p.places ≡ map (spec.place_at tokens.now) (starts (map view_item items))) }
    ensures closes { IfOk result (λ p. p.closes ≡ map (spec.place_at tokens.now) (closes (map view_item items))) }
    ensures end { IfOk result (λ p. p.end ≡ tokens.now.end) }
    ensures files { IfOk result (λ p. p.files ≡ tokens.now.files) }
{
    let indices = find(alloc, &items)?;
    let places = places_of(alloc, tokens, &indices.starts)?;
    let closes = places_of(alloc, tokens, &indices.closes)?;
    let files = files_of(alloc, tokens)?;
    Ok(Program::new(items, places, closes, tokens.end(), files))
}

/// The places of these tokens.
fn places_of(alloc: Global, tokens: &Tokens, indices: &[usize]) -> Result<Items<Place>, AllocError>
    requires { All (λ k. k ≤ length tokens.now.tokens) indices.now }
    ensures { IfOk result (λ places. places ≡ map (spec.place_at tokens.now) indices.now) }
{
    let mut places = Items::new(alloc);
    for k in indices {
        places.push(place_at(tokens, *k))?;
    }
    Ok(places)
}

/// The place of the k-th token, and for their number that of the end.
#[tactic(auto, using(crate::proofs::Placing::place_is))]
fn place_at(tokens: &Tokens, k: usize) -> Place
    requires { k ≤ length tokens.now.tokens }
    ensures { result ≡ spec.place_at tokens.now k }
{
    tokens.place(k)
}

/// The names of the files of line markers.
fn files_of(alloc: Global, tokens: &Tokens) -> Result<Items<Lexeme>, AllocError>
    ensures same { IfOk result (λ files. files ≡ tokens.now.files) }
    ensures text { IfOk result (λ files. All IsUtf8 files) }
{
    let mut files = Items::new(alloc);
    for k in 0..tokens.files() {
        if let Some(name) = tokens.file_name(k) {
            files.push(lexeme_of(alloc, name)?)?;
        }
    }
    Ok(files)
}

/// The bytes of a name.
fn lexeme_of(alloc: Global, name: &str) -> Result<Lexeme, AllocError>
    ensures same { IfOk result (λ l. l ≡ name.now) }
    ensures text { IfOk result (λ l. IsUtf8 l) }
{
    match Lexeme::new(alloc, name.as_bytes()) {
        Ok(lexeme) => Ok(lexeme),
        Err(_) => Err(AllocError),
    }
}

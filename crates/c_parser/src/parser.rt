ghost use Rattle.std.specs.Prelude.{◌≡◌, ℕ, List, suc, take, map, IfOk, IsErrOf, MatchResult, Ok};
ghost use Rattle.base_core.specs.Limits.{most_open};
ghost use Rattle.c_tree.specs.Tree.{ItemTree};
ghost use Rattle.c_tree.specs.Shape.{Shape};
ghost use Rattle.c_tree.specs.Spelling.{spell};
ghost use Rattle.c_tree.specs.StatementView.{view_item};
ghost use Rattle.c_tree.specs.Limits.{WithinLimits, NestsAtMost};
ghost use Rattle.c_tree.specs.ProgramTree.{trees};
ghost use Rattle.node_places.specs.Starts.{starts, closes};
ghost use Rattle.c_parser.specs.Faults.{NoneBegins, NoneWithinLimitsBegins, IsFirstNested};
ghost use Rattle.c_parser.specs.Places.{place_at};
ghost use Rattle.c_parser.specs.Answer.{IsAnswer, IsFaultOf, IsReadAs, reading_of};
ghost use Rattle.c_parser.specs.Reading.{IsRead, IsFault, IsFirstFault, IsOkOrNoMemory, earlier};

use crate::brackets::first_nested;
use crate::fault::ParseFault;
use crate::places::placed;
use base_core::Token;
use c_grammar::{Cursor, Refusal};
use c_lexer::Tokens;
use c_tree::{Item, Program};
use item_parser::items;
use sqlite_items::Items;
use std::alloc::Global;

/// The program of which the tokens are the spelling.
pub fn parse(alloc: Global, tokens: &Tokens) -> Result<Program, ParseFault>
    ensures shaped { IfOk result (λ p. Shape (trees p)) }
    ensures spelled { IfOk result (λ p. spell (trees p) ≡ tokens.now.tokens) }
    ensures limits { IfOk result (λ p. WithinLimits (trees p)) }
    ensures only { IfOk result (λ p. (xs : List ItemTree) → Shape xs → spell xs ≡ tokens.now.tokens → xs ≡ trees p) }
    ensures places { IfOk result (λ p. p.places ≡ map (place_at tokens.now) (starts (trees p))) }
    ensures closes { IfOk result (λ p. p.closes ≡ map (place_at tokens.now) (closes (trees p))) }
    ensures end { IfOk result (λ p. p.end ≡ tokens.now.end) }
    ensures files { IfOk result (λ p. p.files ≡ tokens.now.files) }
    ensures syntax { (k : ℕ) → IsErrOf result (ParseFault.Syntax k) → NoneBegins tokens.now.tokens k }
    ensures nested { (k : ℕ) → IsErrOf result (ParseFault.Nested k) → IsFirstNested tokens.now.tokens k }
    ensures large { (k : ℕ) → IsErrOf result (ParseFault.Large k) → NoneWithinLimitsBegins tokens.now.tokens k }
    ensures syntax_first { (k : ℕ) → IsErrOf result (ParseFault.Syntax k) → NestsAtMost most_open (take (suc k) tokens.now.tokens) }
    ensures large_first { (k : ℕ) → IsErrOf result (ParseFault.Large k) → NestsAtMost most_open (take (suc k) tokens.now.tokens) }
    ensures answer { MatchResult result (λ p. IsAnswer tokens.now.tokens (Ok (trees p))) (λ fault. IsFaultOf tokens.now.tokens fault) }
    ensures complete { (xs : List ItemTree) → Shape xs → WithinLimits xs → spell xs ≡ tokens.now.tokens → IsOkOrNoMemory result }
{
    let all = tokens.as_slice();
    match first_nested(all) {
        Some(k) => Err(before_bracket(alloc, all, k)),
        None => match read_shallow(alloc, all) {
            Ok(items) => Ok(placed(alloc, tokens, items)?),
            Err(fault) => Err(fault),
        },
    }
}

/// The items that the tokens spell, however many brackets are open.
fn read_items(alloc: Global, tokens: &[Token]) -> Result<Items<Item>, ParseFault>
    ensures fault { MatchResult result (λ xs. IsRead tokens.now (map view_item xs)) (IsFault tokens.now) }
    ensures answer { MatchResult result (λ xs. Ok (map view_item xs) ≡ reading_of tokens.now) (IsReadAs tokens.now) }
{
    let mut cursor = Cursor::new(tokens, 1, 1);
    match items(alloc, &mut cursor) {
        Ok(items) => Ok(items),
        Err(Refusal::Syntax(left)) => {
            let token = tokens.len() - left;
            Err(ParseFault::Syntax(token))
        }
        Err(Refusal::Large(left)) => {
            let token = tokens.len() - left;
            Err(ParseFault::Large(token))
        }
        Err(Refusal::NoMemory) => Err(ParseFault::NoMemory),
    }
}

/// The items that the tokens spell, where no more than 100 brackets are open.
fn read_shallow(alloc: Global, tokens: &[Token]) -> Result<Items<Item>, ParseFault>
    requires { NestsAtMost most_open tokens.now }
    ensures fault { MatchResult result (λ xs. IsRead tokens.now (map view_item xs)) (λ fault. IsFault tokens.now fault × IsFirstFault tokens.now fault) }
    ensures answer { MatchResult result (λ xs. IsAnswer tokens.now (Ok (map view_item xs))) (λ fault. IsFaultOf tokens.now fault) }
{
    match read_items(alloc, tokens) {
        Ok(items) => Ok(items),
        Err(fault) => Err(fault),
    }
}

/// The first fault, where more than 100 brackets are open at token `k` for the first time. No more than the tokens before it are
/// read, so that nothing nests deeper.
fn before_bracket(alloc: Global, tokens: &[Token], k: usize) -> ParseFault
    requires { IsFirstNested tokens.now k }
    ensures fault { IsFault tokens.now result }
    ensures first { IsFirstFault tokens.now result }
    ensures answer { IsFaultOf tokens.now result }
{
    match read_items(alloc, &tokens[..k]) {
        Ok(_) => ParseFault::Nested(k),
        Err(fault) => earlier(fault, k),
    }
}

/// Of a fault in the tokens before token `k` and the one of that token, the first.
fn earlier(fault: ParseFault, k: usize) -> ParseFault
    ensures { result ≡ earlier fault k }
{
    match fault {
        ParseFault::Syntax(j) | ParseFault::Large(j) => {
            if j < k { fault } else { ParseFault::Nested(k) }
        }
        ParseFault::Nested(_) => ParseFault::Nested(k),
        ParseFault::NoMemory => ParseFault::NoMemory,
    }
}

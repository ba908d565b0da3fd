ghost use Rattle.std.specs.Prelude.{◌≡◌, ◌↔◌, ℕ, ◌+◌, ◌^◌, ◌<◌, ◌≤◌, List, [], ◌∷◌, ◌++◌, drop, length, slice_get, OnOk, OnErr, IfOk, IfSome, IsTrue, not, nat_lt};
ghost use Rattle.std.specs.Bool.{OnFalse};
ghost use Rattle.std.specs.List.{insert, slice_range};
ghost use Rattle.abstract_values.specs.Places.{leading};
ghost use Rattle.abstract_values.specs.Codes.{AreCodes, has_code, with_code, after, codes_join, CodesUnder};
ghost use Rattle.abstract_values.specs.Functions.{FnsUnder, fns_join, is_any_fns, HasCodes};

use base_core::NoMemory;
use std::alloc::Global;
use std::marker::Model;

/// Codes of what a function pointer may be: 0 for null (as a disposition `SIG_DFL`), 1 for `SIG_IGN`, and n + 2 for
/// the function n. A contract sees the list of the codes, which strictly rise.
#[derive(Drop)]
pub struct FnList {
    codes: Vec<u64>,
}

impl Model for FnList {
    ghost use Rattle.std.specs.Prelude.{List, ℕ};
    ghost use Rattle.abstract_values.specs.Codes.{AreCodes};

    ghost Value = { List ℕ };

    ghost view = { λ f. f.codes.items };

    ghost invariant = { λ f. AreCodes 0 f.codes.items };
}

impl FnList {
    /// No codes.
    pub fn new(alloc: Global) -> FnList
        ensures { result ≡ [] }
    {
        FnList {
            codes: Vec::new(alloc),
        }
    }

    /// The number of codes.
    pub fn len(&self) -> usize
        ensures len { result ≡ length self.now }
        ensures codes { AreCodes 0 self.now }
    {
        self.codes.len()
    }

    /// The code at this place, counted from 0; None exactly from the number of codes on.
    pub fn at(&self, k: usize) -> Option<u64>
        ensures code { result ≡ slice_get self.now k }
        ensures range { IfSome result (λ code. code < 2 ^ 32 + 2) }
    {
        code_at(&self.codes, k)
    }

    /// Puts the code into the list, true exactly where it was new; without memory the list stays as it was.
    pub fn add(&mut self, code: u64) -> Result<bool, NoMemory>
        requires { code < 2 ^ 32 + 2 }
        ensures added { OnOk result (self.new ≡ with_code code self.old) }
        ensures grew { IfOk result (λ grew. grew ≡ not (has_code self.old code)) }
        ensures same { IfOk result (λ grew. OnFalse grew (self.new ≡ self.old)) }
        ensures err { OnErr result (self.new ≡ self.old) }
    {
        add_code(&mut self.codes, code)
    }

    /// An equal list.
    pub(crate) fn copy(&self, alloc: Global) -> Result<FnList, NoMemory>
        ensures { IfOk result (λ list. list ≡ self.now) }
    {
        match Vec::from_slice(alloc, &self.codes) {
            Ok(codes) => Ok(FnList { codes }),
            Err(_) => Err(NoMemory),
        }
    }

    /// Whether each code is one of the other's.
    pub(crate) fn below(&self, o: &FnList) -> bool
        ensures { IsTrue result ↔ CodesUnder self.now o.now }
    {
        are_below(&self.codes, &o.codes)
    }

    /// The codes of both.
    pub(crate) fn join(&self, alloc: Global, o: &FnList) -> Result<FnList, NoMemory>
        ensures { IfOk result (λ list. list ≡ codes_join self.now o.now) }
    {
        let codes = join_codes(alloc, &self.codes, &o.codes)?;
        Ok(FnList { codes })
    }
}

/// The first place from `start` on where the code isn't below the given one.
fn place_of(codes: &[u64], start: usize, code: u64) -> usize
    requires { start ≤ length codes.now }
    ensures place { result ≡ start + leading (λ c. nat_lt c code) (drop start codes.now) }
    ensures within { result ≤ length codes.now }
{
    let mut place = start;
    while place < codes.len() && codes[place] < code {
        place += 1;
    }
    place
}

fn code_at(codes: &[u64], k: usize) -> Option<u64>
    ensures { result ≡ slice_get codes.now k }
{
    codes.get(k).copied()
}

/// Whether the code stands at this place.
fn is_at(codes: &[u64], place: usize, code: u64) -> bool
    ensures at { IsTrue result ↔ (slice_get codes.now place ≡ Some code) }
    ensures within { IsTrue result → place < length codes.now }
{
    match codes.get(place) {
        Some(there) => *there == code,
        None => false,
    }
}

fn insert_at(codes: &mut Vec<u64>, place: usize, code: u64) -> Result<(), NoMemory>
    requires { place ≤ length codes.old.items }
    ensures ok { OnOk result (codes.new.items ≡ insert codes.old.items place code) }
    ensures err { OnErr result (codes.new.items ≡ codes.old.items) }
{
    match codes.insert(place, code) {
        Ok(()) => Ok(()),
        Err(_) => Err(NoMemory),
    }
}

/// Puts the code among codes that rise, true where it was new.
fn add_code(codes: &mut Vec<u64>, code: u64) -> Result<bool, NoMemory>
    requires range { code < 2 ^ 32 + 2 }
    requires codes { AreCodes 0 codes.old.items }
    ensures added { OnOk result (codes.new.items ≡ with_code code codes.old.items) }
    ensures grew { IfOk result (λ grew. grew ≡ not (has_code codes.old.items code)) }
    ensures same { IfOk result (λ grew. OnFalse grew (codes.new.items ≡ codes.old.items)) }
    ensures codes { AreCodes 0 codes.new.items }
    ensures err { OnErr result (codes.new.items ≡ codes.old.items) }
{
    let place = place_of(codes, 0, code);
    if is_at(codes, place, code) {
        return Ok(false);
    }
    insert_at(codes, place, code)?;
    Ok(true)
}

/// Whether each code is one of the others, where both rise.
fn are_below(codes: &[u64], others: &[u64]) -> bool
    requires codes { AreCodes 0 codes.now }
    requires others { AreCodes 0 others.now }
    ensures { IsTrue result ↔ CodesUnder codes.now others.now }
{
    let mut place = 0;
    for &code in codes {
        place = place_of(others, place, code);
        if !is_at(others, place, code) {
            return false;
        }
    }
    true
}

/// The place behind a code that stands at this place, or the place itself.
fn place_after(codes: &[u64], place: usize, code: u64) -> usize
    requires { place ≤ length codes.now }
    ensures place { drop result codes.now ≡ after code (drop place codes.now) }
    ensures within { result ≤ length codes.now }
{
    if is_at(codes, place, code) {
        return place + 1;
    }
    place
}

/// Appends the codes between two places, and a code.
fn push_between(
    all: &mut Vec<u64>,
    codes: &[u64],
    start: usize,
    end: usize,
    code: u64,
) -> Result<(), NoMemory>
    requires start { start ≤ end }
    requires end { end ≤ length codes.now }
    ensures { OnOk result (all.new.items ≡ all.old.items ++ (slice_range codes.now start end ++ code ∷ [])) }
{
    let Ok(()) = all.extend_from_slice(&codes[start..end]) else {
        return Err(NoMemory);
    };
    match all.push(code) {
        Ok(()) => Ok(()),
        Err(_) => Err(NoMemory),
    }
}

/// Appends the codes from a place on.
fn push_rest(all: &mut Vec<u64>, codes: &[u64], start: usize) -> Result<(), NoMemory>
    requires { start ≤ length codes.now }
    ensures { OnOk result (all.new.items ≡ all.old.items ++ drop start codes.now) }
{
    match all.extend_from_slice(&codes[start..]) {
        Ok(()) => Ok(()),
        Err(_) => Err(NoMemory),
    }
}

/// The codes of two lists, which rise.
fn join_codes(alloc: Global, left: &[u64], right: &[u64]) -> Result<Vec<u64>, NoMemory>
    requires left { AreCodes 0 left.now }
    requires right { AreCodes 0 right.now }
    ensures join { IfOk result (λ all. all.items ≡ codes_join left.now right.now) }
    ensures codes { IfOk result (λ all. AreCodes 0 all.items) }
{
    let mut all = Vec::new(alloc);
    let mut place = 0;
    for &code in right {
        let next = place_of(left, place, code);
        push_between(&mut all, left, place, next, code)?;
        place = place_after(left, next, code);
    }
    push_rest(&mut all, left, place)?;
    Ok(all)
}

/// What is known of a function pointer or of a signal's disposition.
#[derive(Drop)]
pub enum AbsFns {
    /// Nothing is known.
    Any,
    /// It is one of these.
    Among(FnList),
}

impl AbsFns {
    /// Whether the other stands for all that this one stands for.
    pub fn below(&self, o: &AbsFns) -> bool
        ensures { IsTrue result ↔ FnsUnder self.now o.now }
    {
        match (self, o) {
            (_, AbsFns::Any) => true,
            (AbsFns::Among(codes), AbsFns::Among(others)) => codes.below(others),
            (AbsFns::Any, AbsFns::Among(_)) => false,
        }
    }

    /// An equal value.
    pub fn copy(&self, alloc: Global) -> Result<AbsFns, NoMemory>
        ensures { IfOk result (λ f. f ≡ self.now) }
    {
        match self {
            AbsFns::Any => Ok(AbsFns::Any),
            AbsFns::Among(codes) => Ok(AbsFns::Among(codes.copy(alloc)?)),
        }
    }

    /// The least value above both.
    pub fn join(&self, alloc: Global, o: &AbsFns) -> Result<AbsFns, NoMemory>
        ensures { IfOk result (λ f. f ≡ fns_join self.now o.now) }
    {
        match (self, o) {
            (AbsFns::Among(codes), AbsFns::Among(others)) => Ok(AbsFns::Among(codes.join(
                alloc, others,
            )?)),
            _ => Ok(AbsFns::Any),
        }
    }

    pub(crate) fn is_any(&self) -> bool
        ensures any { result ≡ is_any_fns self.now }
        ensures codes { HasCodes self.now }
    {
        match self {
            AbsFns::Any => true,
            AbsFns::Among(codes) => {
                let _ = codes.len();
                false
            }
        }
    }
}

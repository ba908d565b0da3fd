//! The text of a table.

ghost use Rattle.std.specs.Prelude.{◌≡◌, ◌++◌, string_bytes, IfOk, OnOk};
ghost use Rattle.posix_table.specs.Text as spec;

use crate::{Effect, Param, ResultKind, Row, Table};
use base_core::NoMemory;
use std::alloc::Global;

/// The letter of a parameter.
fn letter(p: Param) -> &'static str
    ensures { result.now ≡ spec.letter p }
{
    match p {
        Param::Int => "i",
        Param::Read => "r",
        Param::Write => "w",
        Param::Both => "b",
        Param::Copied => "c",
        Param::Kernel => "k",
        Param::Kept => "x",
        Param::Null => "0",
        Param::SetIn => "S",
        Param::SetOut => "T",
        Param::ActionIn => "A",
        Param::ActionOut => "B",
        Param::HandlerFn => "H",
        Param::ThreadFn => "P",
        Param::ForkFn => "Q",
        Param::Either => "y",
        Param::More => "*",
    }
}

/// The letter of a result.
fn result_letter(kind: ResultKind) -> &'static str
    ensures { result.now ≡ spec.result_letter kind }
{
    match kind {
        ResultKind::Int => "i",
        ResultKind::Nothing => "v",
        ResultKind::Never => "!",
        ResultKind::First => "1",
        ResultKind::Fresh => "n",
        ResultKind::Own => "g",
        ResultKind::OldHandler => "h",
    }
}

/// The word of an effect behind a blank.
fn effect_word(effect: Effect) -> &'static str
    ensures { result.now ≡ spec.effect_word effect }
{
    match effect {
        Effect::Plain => "",
        Effect::Fork => " fork",
        Effect::Split => " split",
        Effect::Pure => " pure",
        Effect::Wait => " wait",
        Effect::Fill => " fill",
        Effect::Exec => " exec",
        Effect::Empty => " empty",
        Effect::Full => " full",
        Effect::Any => " any",
        Effect::Add => " add",
        Effect::Del => " del",
        Effect::Mask => " mask",
        Effect::Install => " install",
        Effect::Endp => " endp",
        Effect::Thread => " thread",
        Effect::Atfork => " atfork",
    }
}

fn safety(safe: bool) -> &'static str
    ensures { result.now ≡ spec.safety safe }
{
    if safe { " safe " } else { " unsafe " }
}

fn question(left: u8, p: Param) -> &'static str
    ensures { result.now ≡ spec.question left p }
{
    match p {
        Param::More => "",
        _ if left == 0 => "?",
        _ => "",
    }
}

fn comma(following: &[Param]) -> &'static str
    ensures { result.now ≡ spec.comma following.now }
{
    match following {
        [] => "",
        [_, ..] => ",",
    }
}

fn push(out: &mut String, text: &str) -> Result<(), NoMemory>
    ensures { OnOk result (string_bytes out.new ≡ string_bytes out.old ++ text.now) }
{
    match out.push_str(text) {
        Ok(()) => Ok(()),
        Err(_) => Err(NoMemory),
    }
}

fn push_parameters(out: &mut String, fewest: u8, letters: &[Param]) -> Result<(), NoMemory>
    ensures { OnOk result (string_bytes out.new ≡ string_bytes out.old ++ spec.parameters_text fewest letters.now) }
{
    let mut left = fewest;
    let mut rest = letters;
    while let [p, following @ ..] = rest {
        push(out, letter(*p))?;
        push(out, question(left, *p))?;
        push(out, comma(following))?;
        left = left.saturating_sub(1);
        rest = following;
    }
    Ok(())
}

fn push_signature(out: &mut String, row: &Row) -> Result<(), NoMemory>
    ensures { OnOk result (string_bytes out.new ≡ string_bytes out.old ++ spec.signature_text row.now) }
{
    push(out, "(")?;
    push_parameters(out, row.fewest, row.parameters.as_slice())?;
    push(out, ") ")?;
    push(out, result_letter(row.result))?;
    push(out, effect_word(row.effect))?;
    Ok(())
}

fn push_line(out: &mut String, row: &Row) -> Result<(), NoMemory>
    ensures { OnOk result (string_bytes out.new ≡ string_bytes out.old ++ spec.line_of row.now) }
{
    push(out, row.name.as_str())?;
    push(out, safety(row.safe))?;
    push_signature(out, row)?;
    push(out, "\n")?;
    Ok(())
}

fn push_lines(out: &mut String, mut rows: &[Row]) -> Result<(), NoMemory>
    ensures { OnOk result (string_bytes out.new ≡ string_bytes out.old ++ spec.text_of_table rows.entry.now) }
{
    while let [row, following @ ..] = rows {
        push_line(out, row)?;
        rows = following;
    }
    Ok(())
}

/// The text of a table: a line for each row in the order of the names, which has the name, `safe` or `unsafe`, the letters
/// of the parameters joined by commas in brackets, that of the result, and the word of the effect where there is one, as
/// `open safe (r,i,i?) i`. The only error is want of memory.
pub fn table_text(alloc: Global, table: &Table) -> Result<String, NoMemory>
    ensures { IfOk result (λ text. string_bytes text ≡ spec.text_of_table table.now) }
{
    let mut out = String::new(alloc);
    push_lines(&mut out, table.as_slice())?;
    Ok(out)
}

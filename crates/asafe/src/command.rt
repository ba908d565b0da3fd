ghost use Rattle.std.specs.Prelude.{◌≡◌, ◌≢◌, ◌⊎◌, ◌<◌, ◌≤◌, List, Some, None, Ok, Err, ℕ, Bool, IfOk, length, map, string_bytes};
ghost use Rattle.base_core.specs.Contents.{text_of, Lacks};
ghost use Rattle.base_core.specs.Count.{Rose};
ghost use Rattle.base_core.specs.Limits.{most_bytes};
ghost use Rattle.base_core.specs.Taken.{appended};
ghost use Rattle.c_lexer.specs.Lexis.{Gives, lexis};
ghost use Rattle.command_words.specs.Jobs.{Asked, asked_by, table};
ghost use Rattle.command_words.specs.Words.{asked};
ghost use Rattle.asafe.specs.Lines.{usage_line, report, table_text, cannot_read_line, too_large_line};
ghost use Rattle.asafe.specs.Words.{certified, Certifies, HasText, LacksFile, IsLater};
ghost use Rattle.asafe.specs.Text.{KeepsTheRules, IsRefusedText, IsNotFlat, IsInSubset, HasFault, IsTooLarge, IsSmall};
ghost use Rattle.asafe.specs.Ending.{ending_status};
ghost use Rattle.asafe.specs.Answers.{TextEnds, FileEnds, TableEnds, IsOfTooLarge, Ends, IsUnread};
ghost use Rattle.asafe.specs.Printing.{Prints, PutsLine, PutsPart, IsPrintedOf};
ghost use Rattle.asafe.specs.Ends.{IsUsageOrFault, IsYesOrFault, IsNotYetOrNoMemory, IsReadFaultOrFault, IsTooLargeOrFault, IsDecidedOrFault};

use crate::Status;
use crate::decision::{Decision, decide};
use crate::ending::Ending;
use crate::fault_line::{fault_line, token_fault_line};
use crate::lines::{cannot_read_line, too_large_line};
use crate::put::put_all;
use base_core::{MOST_BYTES, NoMemory, ReadError, Shelf, Sink};
use c_lexer::{LexFault, Tokens, scan};
use command_words::{Job, asked};
use posix_table::{profile, table_text};
use std::alloc::Global;

/// Runs the command of these words over a shelf and a sink, and answers its status.
///
/// The words are those behind the program's name. All memory is taken before the first byte is put.
pub fn run<H: Shelf, K: Sink>(alloc: Global, words: &[String], shelf: &mut H, out: &mut K) -> Status
    // certify FILE: the theorem. The text spells exactly one program, it is flat, and no run of it breaks a rule.
    ensures yes { result ≡ Status.Yes → (text : List ℕ) → HasText (asked (map string_bytes words.now)) (H.contents shelf.old) text → KeepsTheRules text }

    // certify FILE: what the other statuses say of the text, and which of them a text may have.
    ensures refused { result ≡ Status.Refused → (text : List ℕ) → HasText (asked (map string_bytes words.now)) (H.contents shelf.old) text → IsRefusedText text }
    ensures not_yet { result ≡ Status.NotYet → (text : List ℕ) → HasText (asked (map string_bytes words.now)) (H.contents shelf.old) text → IsNotFlat text }
    ensures fault { result ≡ Status.Text → (text : List ℕ) → HasText (asked (map string_bytes words.now)) (H.contents shelf.old) text → HasFault text }
    ensures too_large { result ≡ Status.TooLarge → (text : List ℕ) → HasText (asked (map string_bytes words.now)) (H.contents shelf.old) text → IsTooLarge text }
    ensures complete { (text : List ℕ) → HasText (asked (map string_bytes words.now)) (H.contents shelf.old) text → IsInSubset text → IsDecidedOrFault result }
    ensures large { (text : List ℕ) → HasText (asked (map string_bytes words.now)) (H.contents shelf.old) text → most_bytes < length text → IsTooLargeOrFault result }
    ensures small { (text : List ℕ) → HasText (asked (map string_bytes words.now)) (H.contents shelf.old) text → IsSmall text → result ≢ Status.TooLarge }

    // certify FILE: the line of a fault is that of the text, and a fault of the sink leaves a part of what the text is answered.
    ensures fault_printed { result ≡ Status.Text → (text : List ℕ) (has : HasText (asked (map string_bytes words.now)) (H.contents shelf.old) text)
        → PutsLine has.file text (K.taken out.old) (K.taken out.new) }
    ensures part { result ≡ Status.WriteFault → (text : List ℕ) (has : HasText (asked (map string_bytes words.now)) (H.contents shelf.old) text)
        → (bytes : List ℕ) × IsPrintedOf has.file text has.certifies.json (H.failed_reads shelf.old) (H.failed_reads shelf.new) bytes
        × PutsPart (K.taken out.old) (K.taken out.new) bytes }

    // table: it is done, or a fault of the sink or want of memory.
    ensures listed { asked (map string_bytes words.now) ≡ Some table → IsYesOrFault result }
    ensures listed_printed { asked (map string_bytes words.now) ≡ Some table → result ≡ Status.Yes → K.taken out.new ≡ appended (K.taken out.old) table_text }

    // Jobs that aren't built yet.
    ensures later { IsLater (asked (map string_bytes words.now)) → IsNotYetOrNoMemory result }

    // The words.
    ensures usage { result ≡ Status.Usage → asked (map string_bytes words.now) ≡ None }
    ensures usage_only { asked (map string_bytes words.now) ≡ None → IsUsageOrFault result }
    ensures usage_printed { result ≡ Status.Usage → K.taken out.new ≡ appended (K.taken out.old) usage_line }

    // Reading.
    ensures read_fault { result ≡ Status.ReadFault → Rose (H.failed_reads shelf.old) (H.failed_reads shelf.new)
        ⊎ LacksFile (asked (map string_bytes words.now)) (H.contents shelf.old) }
    ensures absent { LacksFile (asked (map string_bytes words.now)) (H.contents shelf.old) → IsReadFaultOrFault result }

    // Printing, over any shelf: each status prints its text.
    ensures printed { Prints (asked (map string_bytes words.now)) result (K.taken out.old) (K.taken out.new) }
    ensures write_fault { result ≡ Status.WriteFault → Rose (K.faults out.old) (K.faults out.new) }
    ensures silent { result ≡ Status.NotYet → out.new ≡ out.old }
    ensures no_memory { result ≡ Status.NoMemory → out.new ≡ out.old }

    // No name of the shelf changes, and no count falls.
    ensures contents { H.contents shelf.new ≡ H.contents shelf.old }
    ensures reads { H.failed_reads shelf.old ≤ H.failed_reads shelf.new }
    ensures writes { H.failed_writes shelf.new ≡ H.failed_writes shelf.old }
    ensures faults { K.faults out.old ≤ K.faults out.new }
{
    let ending = words_ending(alloc, words, shelf);
    match put_all(out, ending.text()) {
        Ok(()) => ending.status(),
        Err(_) => Status::WriteFault,
    }
}

/// The phase of the words: how the job ends that they ask for.
fn words_ending<H: Shelf>(alloc: Global, words: &[String], shelf: &mut H) -> Ending
    ensures ends { Ends (asked (map string_bytes words.now)) (H.contents shelf.old) (H.failed_reads shelf.old) (H.failed_reads shelf.new) result }
    ensures absent { LacksFile (asked (map string_bytes words.now)) (H.contents shelf.old) → IsUnread result }
    ensures contents { H.contents shelf.new ≡ H.contents shelf.old }
    ensures reads { H.failed_reads shelf.old ≤ H.failed_reads shelf.new }
    ensures writes { H.failed_writes shelf.new ≡ H.failed_writes shelf.old }
{
    match asked(alloc, words) {
        Ok(Some(job)) => job_ending(alloc, job, shelf),
        Ok(None) => Ending::Usage,
        Err(_) => Ending::NoMemory,
    }
}

/// How a job ends.
fn job_ending<H: Shelf>(alloc: Global, job: Job<'_>, shelf: &mut H) -> Ending
    ensures ends { Ends (Some (asked_by job.entry)) (H.contents shelf.old) (H.failed_reads shelf.old) (H.failed_reads shelf.new) result }
    ensures absent { LacksFile (Some (asked_by job.entry)) (H.contents shelf.old) → IsUnread result }
    ensures contents { H.contents shelf.new ≡ H.contents shelf.old }
    ensures reads { H.failed_reads shelf.old ≤ H.failed_reads shelf.new }
    ensures writes { H.failed_writes shelf.new ≡ H.failed_writes shelf.old }
{
    match job {
        Job::Certify {
            file,
            certificate: None,
            json,
            ..
        } => file_ending(alloc, shelf, file, json),
        Job::Table => table_ending(alloc),
        Job::Certify { .. } | Job::Check { .. } | Job::Show { .. } | Job::Generate { .. } => {
            Ending::NotYet
        }
    }
}

/// The phase of reading: how the command ends on a file to certify.
fn file_ending<H: Shelf>(alloc: Global, shelf: &mut H, file: &str, json: bool) -> Ending
    ensures ends { FileEnds file.now json (H.contents shelf.old) (H.failed_reads shelf.old) (H.failed_reads shelf.new) result }
    ensures absent { Lacks (H.contents shelf.old) file.now → IsUnread result }
    ensures contents { H.contents shelf.new ≡ H.contents shelf.old }
    ensures reads { H.failed_reads shelf.old ≤ H.failed_reads shelf.new }
    ensures writes { H.failed_writes shelf.new ≡ H.failed_writes shelf.old }
{
    match shelf.read(alloc, file, MOST_BYTES) {
        Ok(text) => text_ending(alloc, file, json, &text),
        Err(ReadError::Failed) => match cannot_read_line(alloc, file) {
            Ok(line) => Ending::Unread(line),
            Err(_) => Ending::NoMemory,
        },
        Err(ReadError::TooLong) => too_large_ending(alloc, file),
        Err(ReadError::NoMemory) => Ending::NoMemory,
    }
}

/// The phase from a text to its tokens.
fn text_ending(alloc: Global, file: &str, json: bool, text: &[u8]) -> Ending
    requires { length text.now ≤ most_bytes }
    ensures { TextEnds file.now json text.now result }
{
    match scan(alloc, text) {
        Ok(tokens) => tokens_ending(alloc, file, json, &tokens),
        Err(fault) => fault_ending(alloc, file, text, fault),
    }
}

/// How the command ends on a fault of a text.
fn fault_ending(alloc: Global, file: &str, text: &[u8], fault: LexFault) -> Ending
    requires { length text.now ≤ most_bytes }
    ensures { (json : Bool) → Gives (Err fault) (lexis text.now) → TextEnds file.now json text.now result }
{
    match fault.place() {
        Some(place) => match fault_line(alloc, file, text, place, fault.kind()) {
            Ok(line) => Ending::Faulty(line),
            Err(_) => Ending::NoMemory,
        },
        None => Ending::NoMemory,
    }
}

/// The phases from tokens to a program and its decision.
fn tokens_ending(alloc: Global, file: &str, json: bool, tokens: &Tokens) -> Ending
    ensures { (text : List ℕ) → lexis text ≡ Ok tokens.now → TextEnds file.now json text result }
{
    match decide(alloc, tokens) {
        Ok(Decision::Accepted) => Ending::Accepted(json),
        Ok(Decision::Refused) => Ending::Refused,
        Ok(Decision::NotFlat) => Ending::NotYet,
        Ok(Decision::Misplaced(fault, k)) => match token_fault_line(alloc, file, fault, tokens, k) {
            Ok(line) => Ending::Faulty(line),
            Err(_) => Ending::NoMemory,
        },
        Ok(Decision::TooLarge) => too_large_ending(alloc, file),
        Err(_) => Ending::NoMemory,
    }
}

/// How the command ends on a file whose text is too large.
fn too_large_ending(alloc: Global, file: &str) -> Ending
    ensures { IsOfTooLarge file.now result }
{
    match too_large_line(alloc, file) {
        Ok(line) => Ending::TooLarge(line),
        Err(_) => Ending::NoMemory,
    }
}

/// How the command ends that lists the function table.
fn table_ending(alloc: Global) -> Ending
    ensures { TableEnds result }
{
    match table_list(alloc) {
        Ok(text) => Ending::Listed(text),
        Err(_) => Ending::NoMemory,
    }
}

/// The function table, a line a row.
fn table_list(alloc: Global) -> Result<String, NoMemory>
    ensures { IfOk result (λ text. string_bytes text ≡ table_text) }
{
    table_text(alloc, &profile(alloc)?)
}

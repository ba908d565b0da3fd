ghost use Rattle.std.specs.Prelude.{◌≡◌, IfOk, map, option_map, string_bytes};
ghost use Rattle.command_words.specs.Jobs.{asked_by};
ghost use Rattle.command_words.specs.Stated.{StatedFormsAreAsked};
ghost use Rattle.command_words.specs.Words as spec;

use crate::Job;
use crate::clap_command::clap_command;
use crate::given::given_in;
use crate::table::job_of;
use base_core::NoMemory;
use clap::error::ErrorKind;
use std::alloc::Global;

/// The job that the words ask for, which are those behind the program's name; None exactly where `clap` refuses them or a form
/// of the table of jobs fails.
pub fn asked<'a>(alloc: Global, words: &'a [String]) -> Result<Option<Job<'a>>, NoMemory>
    ensures { IfOk result (λ job. option_map asked_by job ≡ spec.asked (map string_bytes words.now)) }
{
    let command = match clap_command(alloc) {
        Ok(command) => command,
        Err(_) => return Err(NoMemory),
    };
    match command.try_get_matches_from(words) {
        Ok(matches) => Ok(job_of(&given_in(&matches))),
        Err(error) => match error.kind() {
            ErrorKind::OutOfMemory => Err(NoMemory),
            _ => Ok(None),
        },
    }
}

/// Words of the stated form ask for the job that they state.
pub fn stated_forms_are_asked()
    ensures { StatedFormsAreAsked }
{}

ghost use Rattle.std.specs.Prelude.{◌≡◌, option_map};
ghost use Rattle.command_words.specs.Given.{found_of};
ghost use Rattle.command_words.specs.Jobs.{asked_by};
ghost use Rattle.command_words.specs.Table as spec;

use crate::Job;
use crate::given::Given;
use crate::values::{depth_value, number_of, rules_value};

/// Whether none of the options but `rules` is given.
fn has_rules_alone(given: &Given<'_, '_>) -> bool
    ensures { result ≡ spec.has_rules_alone (found_of given.now) }
{
    given.depth.is_none() && given.certificate.is_none() && !given.json
}

/// Whether no option is given.
fn has_no_option(given: &Given<'_, '_>) -> bool
    ensures { result ≡ spec.has_no_option (found_of given.now) }
{
    given.rules.is_none() && has_rules_alone(given)
}

/// `certify FILE [--rules RULES] [--depth DEPTH] [--cert OUT] [--json]`
fn certify<'a>(given: &Given<'_, 'a>) -> Option<Job<'a>>
    ensures { option_map asked_by result ≡ spec.certify_named (found_of given.now).names (found_of given.now) }
{
    match given.names {
        Some([file]) => Some(Job::Certify {
            file: *file,
            rules: rules_value(given.rules)?,
            depth: depth_value(given.depth)?,
            certificate: given.certificate,
            json: given.json,
        }),
        _ => None,
    }
}

/// `check FILE CERT [--rules RULES]`
fn check<'a>(given: &Given<'_, 'a>) -> Option<Job<'a>>
    ensures { option_map asked_by result ≡ spec.check_named (found_of given.now).names (found_of given.now) }
{
    if !has_rules_alone(given) {
        return None;
    }
    match given.names {
        Some([file, certificate]) => Some(Job::Check {
            file: *file,
            certificate: *certificate,
            rules: rules_value(given.rules)?,
        }),
        _ => None,
    }
}

/// `show FILE`
fn show<'a>(given: &Given<'_, 'a>) -> Option<Job<'a>>
    ensures { option_map asked_by result ≡ spec.show_named (found_of given.now).names (found_of given.now) }
{
    if !has_no_option(given) {
        return None;
    }
    match given.names {
        Some([file]) => Some(Job::Show { file: *file }),
        _ => None,
    }
}

/// `table`
fn table<'a>(given: &Given<'_, 'a>) -> Option<Job<'a>>
    ensures { option_map asked_by result ≡ spec.table_named (found_of given.now).names (found_of given.now) }
{
    if !has_no_option(given) {
        return None;
    }
    match given.names {
        Some([_, ..]) => None,
        _ => Some(Job::Table),
    }
}

/// `gen N`
fn generate<'a>(given: &Given<'_, 'a>) -> Option<Job<'a>>
    ensures { option_map asked_by result ≡ spec.generate_named (found_of given.now).names (found_of given.now) }
{
    if !has_no_option(given) {
        return None;
    }
    match given.names {
        Some([word]) => Some(Job::Generate {
            n: number_of(*word)?,
        }),
        _ => None,
    }
}

/// The job of these words; None exactly where a form of the table fails.
pub(crate) fn job_of<'a>(given: &Given<'_, 'a>) -> Option<Job<'a>>
    ensures { option_map asked_by result ≡ spec.job_of (found_of given.now) }
{
    let job = given.job?;
    if job == "certify" {
        certify(given)
    } else if job == "check" {
        check(given)
    } else if job == "show" {
        show(given)
    } else if job == "table" {
        table(given)
    } else if job == "gen" {
        generate(given)
    } else {
        None
    }
}

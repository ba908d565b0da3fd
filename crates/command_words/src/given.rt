ghost use Rattle.std.specs.Prelude.{◌≡◌, codes, false};
ghost use Rattle.std.specs.Option.{option_map_or};
ghost use Rattle.std.specs.Str.{bytes_eq};
ghost use Rattle.clap.specs.Words as clap;
ghost use Rattle.command_words.specs.Given.{found_in, found_of};

use clap::ArgMatches;

/// The words that `clap` found, argument by argument.
#[derive(Clone, Copy)]
pub(crate) struct Given<'m, 'a> {
    pub(crate) job: Option<&'a str>,
    pub(crate) names: Option<&'m [&'a str]>,
    pub(crate) rules: Option<&'a str>,
    pub(crate) depth: Option<&'a str>,
    pub(crate) certificate: Option<&'a str>,
    pub(crate) json: bool,
}

/// Whether the flag is there.
fn json_in(matches: &ArgMatches<'_>) -> bool
    ensures { result ≡ option_map_or (λ value. bytes_eq value (codes "true")) (clap.first_of (codes "json") (clap.rows_of (clap.found_of matches.now))) false }
{
    match matches.get_str("json") {
        Some(value) => value == "true",
        None => false,
    }
}

/// What the matches hold.
pub(crate) fn given_in<'m, 'a>(matches: &'m ArgMatches<'a>) -> Given<'m, 'a>
    ensures { found_of result ≡ found_in (clap.rows_of (clap.found_of matches.now)) }
{
    Given {
        job: matches.get_str("job"),
        names: matches.get_strs("names"),
        rules: matches.get_str("rules"),
        depth: matches.get_str("depth"),
        certificate: matches.get_str("cert"),
        json: json_in(matches),
    }
}

use base_core::Rules;

/// How many call sites a context keeps.
#[derive(Clone, Copy, Debug, PartialEq, Eq)]
pub enum Depth {
    One,
    Two,
}

/// A job of the command, with its names and its options.
#[derive(Clone, Copy, Debug, PartialEq, Eq)]
pub enum Job<'a> {
    /// Certify the program of a file.
    Certify {
        file: &'a str,
        rules: Rules,
        depth: Depth,
        /// Where the certificate is written, if it is wanted.
        certificate: Option<&'a str>,
        /// Whether the report is printed as JSON.
        json: bool,
    },
    /// Check a certificate of the program of a file.
    Check {
        file: &'a str,
        certificate: &'a str,
        rules: Rules,
    },
    /// Print the positions and edges of the program of a file.
    Show {
        file: &'a str,
    },
    /// Print the function table.
    Table,
    /// Certify the generated program of this number, which is at most 2,000.
    Generate {
        n: u32,
    },
}

use crate::{Effect, Name, Params, ResultKind};

/// What is known of a function.
#[derive(Debug, Drop)]
pub struct Row {
    /// Its name.
    pub name: Name,
    /// Whether the profile counts it as safe to call from a signal-catching function. The profile is this project's own,
    /// made after the list of POSIX.1-2017 XSH 2.4.3, and no statement of which names stand in that list.
    pub safe: bool,
    /// The least number of arguments.
    pub fewest: u8,
    /// The greatest number of arguments; None where there is none.
    pub most: Option<u8>,
    /// What it takes.
    pub parameters: Params,
    /// What it returns.
    pub result: ResultKind,
    /// What it does besides.
    pub effect: Effect,
}

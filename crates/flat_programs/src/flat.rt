ghost use Rattle.std.specs.Prelude.{◌≡◌};

use base_core::Sig;
use std::marker::Model;

/// A library function that a flat program may call.
#[derive(Clone, Copy, Debug, PartialEq, Eq, Hash)]
pub enum LibraryFunction {
    Abort,
    Getpid,
    Pause,
    Rand,
}

/// A statement of the function `main` of a flat program.
#[derive(Clone, Copy, Debug, PartialEq, Eq, Hash)]
pub enum Statement {
    /// A call without arguments, as `pause();`.
    Call(LibraryFunction),
    /// `signal(SIGNAL, handler);`, where the handler is named by its letter.
    Install { signal: Sig, handler: u8 },
}

/// A signal handler of a flat program, as `void h(int s) { abort(); }`. Its name and its parameter's are letters.
#[derive(Debug, Drop)]
pub struct Handler {
    name: u8,
    parameter: u8,
    calls: Vec<LibraryFunction>,
}

impl Model for Handler {
    ghost use Rattle.flat_programs.specs.FlatTree.{HandlerTree};

    ghost Value = { HandlerTree };

    ghost view = { λ h. record { name = h.name; parameter = h.parameter; calls = h.calls.items } };
}

impl Handler {
    /// The handler of this name, with this parameter and these calls.
    pub fn new(name: u8, parameter: u8, calls: Vec<LibraryFunction>) -> Self
        ensures { result ≡ record { name = name; parameter = parameter; calls = calls.items } }
    {
        Handler {
            name,
            parameter,
            calls,
        }
    }

    /// Its name, an ASCII letter.
    pub fn name(&self) -> u8
        ensures { result ≡ self.now.name }
    {
        self.name
    }

    /// Its calls, in order of the text.
    pub fn calls(&self) -> &[LibraryFunction]
        ensures { result.now ≡ self.now.calls }
    {
        &self.calls
    }
}

/// A flat program: its handlers, and the statements of its `main` but the last, `return 0;`, in order of the text.
#[derive(Debug, Drop)]
pub struct FlatProgram {
    handlers: Vec<Handler>,
    statements: Vec<Statement>,
}

impl Model for FlatProgram {
    ghost use Rattle.flat_programs.specs.FlatTree.{FlatTree};

    ghost Value = { FlatTree };

    ghost view = { λ p. record { handlers = p.handlers.items; statements = p.statements.items } };
}

impl FlatProgram {
    /// The program of these handlers and statements.
    pub fn new(handlers: Vec<Handler>, statements: Vec<Statement>) -> Self
        ensures { result ≡ record { handlers = handlers.items; statements = statements.items } }
    {
        FlatProgram {
            handlers,
            statements,
        }
    }

    /// Its handlers.
    pub fn handlers(&self) -> &[Handler]
        ensures { result.now ≡ self.now.handlers }
    {
        &self.handlers
    }

    /// The statements of `main`.
    pub fn statements(&self) -> &[Statement]
        ensures { result.now ≡ self.now.statements }
    {
        &self.statements
    }
}

ghost use Rattle.std.specs.Prelude.{◌≡◌};
ghost use Rattle.c_rules.specs.Form as spec;

use c_arithmetic::integer_number;

/// Which constant an expression is, where a rule looks at that.
#[derive(Clone, Copy)]
pub enum Constant {
    /// None of these.
    Other,
    /// An integer constant of value 0, in any spelling (C11 6.3.2.3p3).
    Zero,
    /// NULL (C11 7.19p3).
    Null,
    /// SIG_DFL, SIG_IGN or SIG_ERR (C11 7.14p3).
    Disposition,
    /// PTHREAD_MUTEX_INITIALIZER and the like (POSIX.1-2017 XBD pthread.h).
    Initializer,
    /// A string literal (C11 6.4.5).
    Text,
}

/// What an expression designates (C11 6.3.2.1).
#[derive(Clone, Copy)]
pub enum Designates {
    /// Nothing: it is a value alone.
    Nothing,
    /// An object, or a part of one.
    Object,
    /// An object that is declared const, or a part of one.
    ConstObject,
    /// The object errno.
    Errno,
    /// A function of the program, by its plain name.
    Function,
    /// A library function, by its plain name.
    LibraryFunction,
}

/// What a rule looks at in an expression besides its kind.
#[derive(Clone, Copy)]
pub struct Form {
    /// Which constant it is.
    pub constant: Constant,
    /// What it designates.
    pub designates: Designates,
    /// Whether it is a name, a string, `*`, an index, `.` or `->`, or one of these in parentheses: only such an array is indexed, and
    /// only such a structure stands before `.`.
    pub based: bool,
}

impl Form {
    /// The form of such a constant.
    pub(crate) fn constant(constant: Constant) -> Form
        ensures { result ≡ spec.constant_form constant }
    {
        Form {
            constant,
            designates: Designates::Nothing,
            based: false,
        }
    }

    /// The form of what designates this.
    pub(crate) fn place(designates: Designates) -> Form
        ensures { result ≡ spec.place_form designates }
    {
        Form {
            constant: Constant::Other,
            designates,
            based: true,
        }
    }

    /// The form of an expression that no rule looks at: a call, a binary operator, an assignment, `++` and `--`, `?:`, a comma, a
    /// cast, sizeof, a character.
    pub fn plain() -> Form
        ensures { result ≡ spec.plain_form }
    {
        Form::constant(Constant::Other)
    }

    /// The form of an integer constant with this spelling.
    pub fn integer(bytes: &[u8]) -> Form
        ensures { result ≡ spec.integer_form bytes.now }
    {
        match integer_number(bytes) {
            Some(0) => Form::constant(Constant::Zero),
            _ => Form::constant(Constant::Other),
        }
    }

    /// The form of a string literal.
    pub fn text() -> Form
        ensures { result ≡ spec.text_form }
    {
        Form {
            constant: Constant::Text,
            designates: Designates::Object,
            based: true,
        }
    }

    /// The form of this in parentheses (C11 6.5.1p5).
    pub fn paren(self) -> Form
        ensures { result ≡ spec.paren_form self }
    {
        Form {
            constant: Constant::Other,
            designates: self.designates.unnamed(),
            based: self.based,
        }
    }

    /// The form of a member of this structure, by `.` (C11 6.5.2.3p3).
    pub fn dot(self) -> Form
        ensures { result ≡ spec.dot_form self }
    {
        Form::place(self.designates.part())
    }
}

impl Designates {
    /// The same in parentheses.
    fn unnamed(self) -> Designates
        ensures { result ≡ spec.unnamed self }
    {
        match self {
            Designates::Function | Designates::LibraryFunction => Designates::Nothing,
            same => same,
        }
    }

    /// A part of it.
    pub(crate) fn part(self) -> Designates
        ensures { result ≡ spec.part_of self }
    {
        match self {
            Designates::ConstObject => Designates::ConstObject,
            _ => Designates::Object,
        }
    }
}

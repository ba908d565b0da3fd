/// What a function does with an argument, and which arguments it takes.
#[derive(Clone, Copy, Debug, PartialEq, Eq, Hash)]
pub enum Param {
    /// `i`: an integer.
    Int,
    /// `r`: a pointer to an object that is read.
    Read,
    /// `w`: a pointer to an object that integers are written to.
    Write,
    /// `b`: a pointer to an object that is read and that integers are written to.
    Both,
    /// `c`: a pointer to an object that is read; its values are stored into the first parameter's object, or into the
    /// fresh object that the function returns.
    Copied,
    /// `k`: a pointer to an object of the system, as a `FILE`.
    Kernel,
    /// `x`: a pointer that is kept and not followed.
    Kept,
    /// `0`: a null pointer only.
    Null,
    /// `S`: a null pointer, or a `sigset_t` that is read.
    SetIn,
    /// `T`: a null pointer, or a `sigset_t` that is written.
    SetOut,
    /// `A`: a null pointer, or a `struct sigaction` that is read.
    ActionIn,
    /// `B`: a null pointer, or a `struct sigaction` that is written.
    ActionOut,
    /// `H`: a function of an `int` that returns nothing, or 0.
    HandlerFn,
    /// `P`: a function of a pointer that returns a pointer.
    ThreadFn,
    /// `Q`: a function of no parameter that returns nothing, or 0.
    ForkFn,
    /// `y`: an integer, or a pointer as at `b`.
    Either,
    /// `*`: any number of integers and of pointers as at `r`.
    More,
}

/// What a function returns.
#[derive(Clone, Copy, Debug, PartialEq, Eq, Hash)]
pub enum ResultKind {
    /// `i`: an integer.
    Int,
    /// `v`: nothing.
    Nothing,
    /// `!`: it never returns.
    Never,
    /// `1`: a null pointer, or the first argument.
    First,
    /// `n`: a null pointer, or a pointer to a fresh object.
    Fresh,
    /// `g`: a null pointer, or a pointer to a static object of the function's own.
    Own,
    /// `h`: the handler that was set before, or `SIG_ERR`.
    OldHandler,
}

/// What a function does besides reading and writing its arguments' objects.
#[derive(Clone, Copy, Debug, PartialEq, Eq, Hash)]
pub enum Effect {
    /// Nothing but what the parameters say.
    Plain,
    /// It makes a child process.
    Fork,
    /// It makes a child process and runs no fork handlers.
    Split,
    /// It leaves `errno` alone.
    Pure,
    /// It waits under the given signal mask, and restores the mask before it returns.
    Wait,
    /// It writes the second argument into each byte of the first one's object.
    Fill,
    /// It replaces the process, or fails.
    Exec,
    /// It makes the set empty.
    Empty,
    /// It puts every signal into the set.
    Full,
    /// It writes any set.
    Any,
    /// It puts a signal into the set.
    Add,
    /// It takes a signal out of the set.
    Del,
    /// It changes the signal mask.
    Mask,
    /// It sets the action of a signal.
    Install,
    /// It stores its first argument into the second one's object.
    Endp,
    /// It starts a thread.
    Thread,
    /// It registers fork handlers.
    Atfork,
}

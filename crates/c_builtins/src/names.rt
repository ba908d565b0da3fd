ghost use Rattle.std.specs.Prelude.{◌≡◌, map};
ghost use Rattle.c_builtins.specs.Names as spec;

/// What a built-in name stands for in an expression. Where nothing else is said it is an int.
#[derive(Clone, Copy)]
pub enum BuiltIn {
    /// A constant with this value.
    Number(u32),
    /// The null pointer, which is 0 (C11 7.19).
    Null,
    /// SIG_DFL, of the type of sa_handler (POSIX.1-2017 XBD signal.h).
    Default,
    /// SIG_IGN, of the same type.
    Ignore,
    /// SIG_ERR, of the same type.
    Failure,
    /// A value with which a kernel object is initialised.
    Initializer,
    /// A pointer to the library's object of this number: 0 to 2 for stdin, stdout and stderr.
    Stream(u32),
    /// A constant whose value is left open.
    Opaque,
    /// The place errno (C11 7.5).
    Errno,
    /// A function of POSIX that the subset leaves out.
    LeftOut,
}

/// A built-in name of an expression.
pub struct NamedBuiltIn {
    pub name: &'static [u8],
    pub stands_for: BuiltIn,
}

const BUILT_INS: [NamedBuiltIn; 142] = [
    // the signals, by their numbers (POSIX.1-2017 XBD signal.h)
    NamedBuiltIn {
        name: b"SIGABRT",
        stands_for: BuiltIn::Number(1),
    },
    NamedBuiltIn {
        name: b"SIGALRM",
        stands_for: BuiltIn::Number(2),
    },
    NamedBuiltIn {
        name: b"SIGBUS",
        stands_for: BuiltIn::Number(3),
    },
    NamedBuiltIn {
        name: b"SIGCHLD",
        stands_for: BuiltIn::Number(4),
    },
    NamedBuiltIn {
        name: b"SIGCONT",
        stands_for: BuiltIn::Number(5),
    },
    NamedBuiltIn {
        name: b"SIGFPE",
        stands_for: BuiltIn::Number(6),
    },
    NamedBuiltIn {
        name: b"SIGHUP",
        stands_for: BuiltIn::Number(7),
    },
    NamedBuiltIn {
        name: b"SIGILL",
        stands_for: BuiltIn::Number(8),
    },
    NamedBuiltIn {
        name: b"SIGINT",
        stands_for: BuiltIn::Number(9),
    },
    NamedBuiltIn {
        name: b"SIGKILL",
        stands_for: BuiltIn::Number(10),
    },
    NamedBuiltIn {
        name: b"SIGPIPE",
        stands_for: BuiltIn::Number(11),
    },
    NamedBuiltIn {
        name: b"SIGPOLL",
        stands_for: BuiltIn::Number(12),
    },
    NamedBuiltIn {
        name: b"SIGPROF",
        stands_for: BuiltIn::Number(13),
    },
    NamedBuiltIn {
        name: b"SIGQUIT",
        stands_for: BuiltIn::Number(14),
    },
    NamedBuiltIn {
        name: b"SIGSEGV",
        stands_for: BuiltIn::Number(15),
    },
    NamedBuiltIn {
        name: b"SIGSTOP",
        stands_for: BuiltIn::Number(16),
    },
    NamedBuiltIn {
        name: b"SIGSYS",
        stands_for: BuiltIn::Number(17),
    },
    NamedBuiltIn {
        name: b"SIGTERM",
        stands_for: BuiltIn::Number(18),
    },
    NamedBuiltIn {
        name: b"SIGTRAP",
        stands_for: BuiltIn::Number(19),
    },
    NamedBuiltIn {
        name: b"SIGTSTP",
        stands_for: BuiltIn::Number(20),
    },
    NamedBuiltIn {
        name: b"SIGTTIN",
        stands_for: BuiltIn::Number(21),
    },
    NamedBuiltIn {
        name: b"SIGTTOU",
        stands_for: BuiltIn::Number(22),
    },
    NamedBuiltIn {
        name: b"SIGURG",
        stands_for: BuiltIn::Number(23),
    },
    NamedBuiltIn {
        name: b"SIGUSR1",
        stands_for: BuiltIn::Number(24),
    },
    NamedBuiltIn {
        name: b"SIGUSR2",
        stands_for: BuiltIn::Number(25),
    },
    NamedBuiltIn {
        name: b"SIGVTALRM",
        stands_for: BuiltIn::Number(26),
    },
    NamedBuiltIn {
        name: b"SIGXCPU",
        stands_for: BuiltIn::Number(27),
    },
    NamedBuiltIn {
        name: b"SIGXFSZ",
        stands_for: BuiltIn::Number(28),
    },
    // how a mask is changed (XSH pthread_sigmask) and the flags of sigaction (XSH sigaction)
    NamedBuiltIn {
        name: b"SIG_BLOCK",
        stands_for: BuiltIn::Number(1),
    },
    NamedBuiltIn {
        name: b"SIG_UNBLOCK",
        stands_for: BuiltIn::Number(2),
    },
    NamedBuiltIn {
        name: b"SIG_SETMASK",
        stands_for: BuiltIn::Number(3),
    },
    NamedBuiltIn {
        name: b"SA_NOCLDSTOP",
        stands_for: BuiltIn::Number(1),
    },
    NamedBuiltIn {
        name: b"SA_NODEFER",
        stands_for: BuiltIn::Number(2),
    },
    NamedBuiltIn {
        name: b"SA_RESETHAND",
        stands_for: BuiltIn::Number(4),
    },
    NamedBuiltIn {
        name: b"SA_RESTART",
        stands_for: BuiltIn::Number(8),
    },
    NamedBuiltIn {
        name: b"SA_SIGINFO",
        stands_for: BuiltIn::Number(16),
    },
    NamedBuiltIn {
        name: b"SA_ONSTACK",
        stands_for: BuiltIn::Number(32),
    },
    NamedBuiltIn {
        name: b"SA_NOCLDWAIT",
        stands_for: BuiltIn::Number(64),
    },
    // the other constants with a value (XBD stddef.h, stdlib.h, unistd.h, limits.h)
    NamedBuiltIn {
        name: b"NULL",
        stands_for: BuiltIn::Null,
    },
    NamedBuiltIn {
        name: b"EXIT_SUCCESS",
        stands_for: BuiltIn::Number(0),
    },
    NamedBuiltIn {
        name: b"STDIN_FILENO",
        stands_for: BuiltIn::Number(0),
    },
    NamedBuiltIn {
        name: b"STDOUT_FILENO",
        stands_for: BuiltIn::Number(1),
    },
    NamedBuiltIn {
        name: b"STDERR_FILENO",
        stands_for: BuiltIn::Number(2),
    },
    NamedBuiltIn {
        name: b"INT_MAX",
        stands_for: BuiltIn::Number(2147483647),
    },
    // dispositions (XBD signal.h)
    NamedBuiltIn {
        name: b"SIG_DFL",
        stands_for: BuiltIn::Default,
    },
    NamedBuiltIn {
        name: b"SIG_IGN",
        stands_for: BuiltIn::Ignore,
    },
    NamedBuiltIn {
        name: b"SIG_ERR",
        stands_for: BuiltIn::Failure,
    },
    // initialisers of kernel objects (XBD pthread.h), and streams (XBD stdio.h)
    NamedBuiltIn {
        name: b"PTHREAD_MUTEX_INITIALIZER",
        stands_for: BuiltIn::Initializer,
    },
    NamedBuiltIn {
        name: b"PTHREAD_COND_INITIALIZER",
        stands_for: BuiltIn::Initializer,
    },
    NamedBuiltIn {
        name: b"stdin",
        stands_for: BuiltIn::Stream(0),
    },
    NamedBuiltIn {
        name: b"stdout",
        stands_for: BuiltIn::Stream(1),
    },
    NamedBuiltIn {
        name: b"stderr",
        stands_for: BuiltIn::Stream(2),
    },
    // constants whose value is left open
    NamedBuiltIn {
        name: b"EACCES",
        stands_for: BuiltIn::Opaque,
    },
    NamedBuiltIn {
        name: b"EAGAIN",
        stands_for: BuiltIn::Opaque,
    },
    NamedBuiltIn {
        name: b"EBADF",
        stands_for: BuiltIn::Opaque,
    },
    NamedBuiltIn {
        name: b"ECHILD",
        stands_for: BuiltIn::Opaque,
    },
    NamedBuiltIn {
        name: b"ECONNREFUSED",
        stands_for: BuiltIn::Opaque,
    },
    NamedBuiltIn {
        name: b"ECONNRESET",
        stands_for: BuiltIn::Opaque,
    },
    NamedBuiltIn {
        name: b"EEXIST",
        stands_for: BuiltIn::Opaque,
    },
    NamedBuiltIn {
        name: b"EINTR",
        stands_for: BuiltIn::Opaque,
    },
    NamedBuiltIn {
        name: b"EINVAL",
        stands_for: BuiltIn::Opaque,
    },
    NamedBuiltIn {
        name: b"EIO",
        stands_for: BuiltIn::Opaque,
    },
    NamedBuiltIn {
        name: b"EISDIR",
        stands_for: BuiltIn::Opaque,
    },
    NamedBuiltIn {
        name: b"ENOENT",
        stands_for: BuiltIn::Opaque,
    },
    NamedBuiltIn {
        name: b"ENOMEM",
        stands_for: BuiltIn::Opaque,
    },
    NamedBuiltIn {
        name: b"ENOSPC",
        stands_for: BuiltIn::Opaque,
    },
    NamedBuiltIn {
        name: b"ENOTDIR",
        stands_for: BuiltIn::Opaque,
    },
    NamedBuiltIn {
        name: b"EPERM",
        stands_for: BuiltIn::Opaque,
    },
    NamedBuiltIn {
        name: b"EPIPE",
        stands_for: BuiltIn::Opaque,
    },
    NamedBuiltIn {
        name: b"ESRCH",
        stands_for: BuiltIn::Opaque,
    },
    NamedBuiltIn {
        name: b"ETIMEDOUT",
        stands_for: BuiltIn::Opaque,
    },
    NamedBuiltIn {
        name: b"EWOULDBLOCK",
        stands_for: BuiltIn::Opaque,
    },
    NamedBuiltIn {
        name: b"O_APPEND",
        stands_for: BuiltIn::Opaque,
    },
    NamedBuiltIn {
        name: b"O_CLOEXEC",
        stands_for: BuiltIn::Opaque,
    },
    NamedBuiltIn {
        name: b"O_CREAT",
        stands_for: BuiltIn::Opaque,
    },
    NamedBuiltIn {
        name: b"O_EXCL",
        stands_for: BuiltIn::Opaque,
    },
    NamedBuiltIn {
        name: b"O_NONBLOCK",
        stands_for: BuiltIn::Opaque,
    },
    NamedBuiltIn {
        name: b"O_RDONLY",
        stands_for: BuiltIn::Opaque,
    },
    NamedBuiltIn {
        name: b"O_RDWR",
        stands_for: BuiltIn::Opaque,
    },
    NamedBuiltIn {
        name: b"O_TRUNC",
        stands_for: BuiltIn::Opaque,
    },
    NamedBuiltIn {
        name: b"O_WRONLY",
        stands_for: BuiltIn::Opaque,
    },
    NamedBuiltIn {
        name: b"F_GETFD",
        stands_for: BuiltIn::Opaque,
    },
    NamedBuiltIn {
        name: b"F_GETFL",
        stands_for: BuiltIn::Opaque,
    },
    NamedBuiltIn {
        name: b"F_SETFD",
        stands_for: BuiltIn::Opaque,
    },
    NamedBuiltIn {
        name: b"F_SETFL",
        stands_for: BuiltIn::Opaque,
    },
    NamedBuiltIn {
        name: b"FD_CLOEXEC",
        stands_for: BuiltIn::Opaque,
    },
    NamedBuiltIn {
        name: b"S_IRUSR",
        stands_for: BuiltIn::Opaque,
    },
    NamedBuiltIn {
        name: b"S_IWUSR",
        stands_for: BuiltIn::Opaque,
    },
    NamedBuiltIn {
        name: b"S_IXUSR",
        stands_for: BuiltIn::Opaque,
    },
    NamedBuiltIn {
        name: b"S_IRWXU",
        stands_for: BuiltIn::Opaque,
    },
    NamedBuiltIn {
        name: b"SEEK_SET",
        stands_for: BuiltIn::Opaque,
    },
    NamedBuiltIn {
        name: b"SEEK_CUR",
        stands_for: BuiltIn::Opaque,
    },
    NamedBuiltIn {
        name: b"SEEK_END",
        stands_for: BuiltIn::Opaque,
    },
    NamedBuiltIn {
        name: b"AF_INET",
        stands_for: BuiltIn::Opaque,
    },
    NamedBuiltIn {
        name: b"AF_UNIX",
        stands_for: BuiltIn::Opaque,
    },
    NamedBuiltIn {
        name: b"SOCK_STREAM",
        stands_for: BuiltIn::Opaque,
    },
    NamedBuiltIn {
        name: b"SOCK_DGRAM",
        stands_for: BuiltIn::Opaque,
    },
    NamedBuiltIn {
        name: b"SOL_SOCKET",
        stands_for: BuiltIn::Opaque,
    },
    NamedBuiltIn {
        name: b"SO_REUSEADDR",
        stands_for: BuiltIn::Opaque,
    },
    NamedBuiltIn {
        name: b"SOMAXCONN",
        stands_for: BuiltIn::Opaque,
    },
    NamedBuiltIn {
        name: b"INADDR_ANY",
        stands_for: BuiltIn::Opaque,
    },
    NamedBuiltIn {
        name: b"POLLIN",
        stands_for: BuiltIn::Opaque,
    },
    NamedBuiltIn {
        name: b"POLLOUT",
        stands_for: BuiltIn::Opaque,
    },
    NamedBuiltIn {
        name: b"POLLERR",
        stands_for: BuiltIn::Opaque,
    },
    NamedBuiltIn {
        name: b"POLLHUP",
        stands_for: BuiltIn::Opaque,
    },
    NamedBuiltIn {
        name: b"CLOCK_REALTIME",
        stands_for: BuiltIn::Opaque,
    },
    NamedBuiltIn {
        name: b"CLOCK_MONOTONIC",
        stands_for: BuiltIn::Opaque,
    },
    NamedBuiltIn {
        name: b"WNOHANG",
        stands_for: BuiltIn::Opaque,
    },
    NamedBuiltIn {
        name: b"WUNTRACED",
        stands_for: BuiltIn::Opaque,
    },
    NamedBuiltIn {
        name: b"EXIT_FAILURE",
        stands_for: BuiltIn::Opaque,
    },
    NamedBuiltIn {
        name: b"EOF",
        stands_for: BuiltIn::Opaque,
    },
    NamedBuiltIn {
        name: b"BUFSIZ",
        stands_for: BuiltIn::Opaque,
    },
    NamedBuiltIn {
        name: b"PATH_MAX",
        stands_for: BuiltIn::Opaque,
    },
    NamedBuiltIn {
        name: b"LOG_ERR",
        stands_for: BuiltIn::Opaque,
    },
    NamedBuiltIn {
        name: b"LOG_WARNING",
        stands_for: BuiltIn::Opaque,
    },
    NamedBuiltIn {
        name: b"LOG_INFO",
        stands_for: BuiltIn::Opaque,
    },
    NamedBuiltIn {
        name: b"LOG_DEBUG",
        stands_for: BuiltIn::Opaque,
    },
    // the place of the last error (XBD errno.h)
    NamedBuiltIn {
        name: b"errno",
        stands_for: BuiltIn::Errno,
    },
    // names of POSIX that the subset leaves out
    NamedBuiltIn {
        name: b"setjmp",
        stands_for: BuiltIn::LeftOut,
    },
    NamedBuiltIn {
        name: b"longjmp",
        stands_for: BuiltIn::LeftOut,
    },
    NamedBuiltIn {
        name: b"sigsetjmp",
        stands_for: BuiltIn::LeftOut,
    },
    NamedBuiltIn {
        name: b"siglongjmp",
        stands_for: BuiltIn::LeftOut,
    },
    NamedBuiltIn {
        name: b"pthread_exit",
        stands_for: BuiltIn::LeftOut,
    },
    NamedBuiltIn {
        name: b"pthread_cancel",
        stands_for: BuiltIn::LeftOut,
    },
    NamedBuiltIn {
        name: b"pthread_cleanup_push",
        stands_for: BuiltIn::LeftOut,
    },
    NamedBuiltIn {
        name: b"pthread_cleanup_pop",
        stands_for: BuiltIn::LeftOut,
    },
    NamedBuiltIn {
        name: b"vfork",
        stands_for: BuiltIn::LeftOut,
    },
    NamedBuiltIn {
        name: b"posix_spawn",
        stands_for: BuiltIn::LeftOut,
    },
    NamedBuiltIn {
        name: b"posix_spawnp",
        stands_for: BuiltIn::LeftOut,
    },
    NamedBuiltIn {
        name: b"sigaltstack",
        stands_for: BuiltIn::LeftOut,
    },
    NamedBuiltIn {
        name: b"sigpause",
        stands_for: BuiltIn::LeftOut,
    },
    NamedBuiltIn {
        name: b"sigset",
        stands_for: BuiltIn::LeftOut,
    },
    NamedBuiltIn {
        name: b"sigqueue",
        stands_for: BuiltIn::LeftOut,
    },
    NamedBuiltIn {
        name: b"qsort",
        stands_for: BuiltIn::LeftOut,
    },
    NamedBuiltIn {
        name: b"bsearch",
        stands_for: BuiltIn::LeftOut,
    },
    NamedBuiltIn {
        name: b"atexit",
        stands_for: BuiltIn::LeftOut,
    },
    NamedBuiltIn {
        name: b"at_quick_exit",
        stands_for: BuiltIn::LeftOut,
    },
    NamedBuiltIn {
        name: b"pthread_once",
        stands_for: BuiltIn::LeftOut,
    },
    NamedBuiltIn {
        name: b"pthread_key_create",
        stands_for: BuiltIn::LeftOut,
    },
    NamedBuiltIn {
        name: b"timer_create",
        stands_for: BuiltIn::LeftOut,
    },
    NamedBuiltIn {
        name: b"aio_read",
        stands_for: BuiltIn::LeftOut,
    },
    NamedBuiltIn {
        name: b"aio_write",
        stands_for: BuiltIn::LeftOut,
    },
];

/// The names that stand for something in expressions, unless a declaration hides them.
pub fn built_ins() -> &'static [NamedBuiltIn]
    ensures { map (λ b. (b.name.now, b.stands_for)) result.now ≡ spec.built_ins }
{
    &BUILT_INS
}

use crate::Effect::{
    Add, Any, Atfork, Del, Empty, Endp, Exec, Fill, Fork, Full, Install, Mask, Plain, Pure, Split,
    Thread, Wait,
};
use crate::Param::{
    ActionIn, ActionOut, Both, Copied, Either, ForkFn, HandlerFn, Int, Kept, Kernel, More, Null,
    Read, SetIn, SetOut, ThreadFn, Write,
};
use crate::ResultKind::{First, Fresh, Never, Nothing, OldHandler, Own};
use crate::{Effect, Param, ResultKind};

/// A row of the profile: the name, whether it is safe, the least and the greatest number of arguments, the
/// parameters, the result and the effect.
pub(crate) struct Line(
    pub(crate) &'static str,
    pub(crate) bool,
    pub(crate) u8,
    pub(crate) Option<u8>,
    pub(crate) &'static [Param],
    pub(crate) ResultKind,
    pub(crate) Effect,
);

// The rows of the profiles in parts, each sorted by the bytes of the name.

/// The rows before that of `_Fork`.
#[rattlefmt::skip]
pub(crate) static BEFORE_SPLIT: [Line; 5] = [
    Line("WEXITSTATUS", true, 1, Some(1), &[Int], ResultKind::Int, Pure),
    Line("WIFEXITED", true, 1, Some(1), &[Int], ResultKind::Int, Pure),
    Line("WIFSIGNALED", true, 1, Some(1), &[Int], ResultKind::Int, Pure),
    Line("WTERMSIG", true, 1, Some(1), &[Int], ResultKind::Int, Pure),
    Line("_Exit", true, 1, Some(1), &[Int], Never, Plain),
];

/// The row of `_Fork`, in the later profile alone.
#[rattlefmt::skip]
pub(crate) static SPLIT: [Line; 1] = [
    Line("_Fork", true, 0, Some(0), &[], ResultKind::Int, Split),
];

/// The rows between those of `_Fork` and of `fork`.
#[rattlefmt::skip]
pub(crate) static BEFORE_FORK: [Line; 33] = [
    Line("_exit", true, 1, Some(1), &[Int], Never, Plain),
    Line("abort", true, 0, Some(0), &[], Never, Plain),
    Line("accept", true, 3, Some(3), &[Int, Write, Both], ResultKind::Int, Plain),
    Line("access", true, 2, Some(2), &[Read, Int], ResultKind::Int, Plain),
    Line("alarm", true, 1, Some(1), &[Int], ResultKind::Int, Plain),
    Line("atoi", false, 1, Some(1), &[Read], ResultKind::Int, Plain),
    Line("bind", true, 3, Some(3), &[Int, Read, Int], ResultKind::Int, Plain),
    Line("calloc", false, 2, Some(2), &[Int, Int], Fresh, Plain),
    Line("chdir", true, 1, Some(1), &[Read], ResultKind::Int, Plain),
    Line("chmod", true, 2, Some(2), &[Read, Int], ResultKind::Int, Plain),
    Line("chown", true, 3, Some(3), &[Read, Int, Int], ResultKind::Int, Plain),
    Line("clock_gettime", true, 2, Some(2), &[Int, Write], ResultKind::Int, Plain),
    Line("close", true, 1, Some(1), &[Int], ResultKind::Int, Plain),
    Line("connect", true, 3, Some(3), &[Int, Read, Int], ResultKind::Int, Plain),
    Line("creat", true, 2, Some(2), &[Read, Int], ResultKind::Int, Plain),
    Line("dup", true, 1, Some(1), &[Int], ResultKind::Int, Plain),
    Line("dup2", true, 2, Some(2), &[Int, Int], ResultKind::Int, Plain),
    Line("execl", true, 2, None, &[Read, Read, More], ResultKind::Int, Exec),
    Line("execle", true, 2, None, &[Read, Read, More], ResultKind::Int, Exec),
    Line("execlp", false, 2, None, &[Read, Read, More], ResultKind::Int, Exec),
    Line("execv", true, 2, Some(2), &[Read, Read], ResultKind::Int, Exec),
    Line("execve", true, 3, Some(3), &[Read, Read, Read], ResultKind::Int, Exec),
    Line("execvp", false, 2, Some(2), &[Read, Read], ResultKind::Int, Exec),
    Line("exit", false, 1, Some(1), &[Int], Never, Plain),
    Line("fchdir", true, 1, Some(1), &[Int], ResultKind::Int, Plain),
    Line("fchmod", true, 2, Some(2), &[Int, Int], ResultKind::Int, Plain),
    Line("fchown", true, 3, Some(3), &[Int, Int, Int], ResultKind::Int, Plain),
    Line("fclose", false, 1, Some(1), &[Kernel], ResultKind::Int, Plain),
    Line("fcntl", true, 2, Some(3), &[Int, Int, Either], ResultKind::Int, Plain),
    Line("fdatasync", true, 1, Some(1), &[Int], ResultKind::Int, Plain),
    Line("fflush", false, 1, Some(1), &[Kernel], ResultKind::Int, Plain),
    Line("fgets", false, 3, Some(3), &[Write, Int, Kernel], First, Plain),
    Line("fopen", false, 2, Some(2), &[Read, Read], Fresh, Plain),
];

/// The row of `fork`.
#[rattlefmt::skip]
pub(crate) static FORK: [Line; 1] = [
    Line("fork", true, 0, Some(0), &[], ResultKind::Int, Fork),
];

/// The row of `fork` in the later profile.
#[rattlefmt::skip]
pub(crate) static UNSAFE_FORK: [Line; 1] = [
    Line("fork", false, 0, Some(0), &[], ResultKind::Int, Fork),
];

/// The rows behind that of `fork`.
#[rattlefmt::skip]
pub(crate) static BEHIND_FORK: [Line; 122] = [
    Line("fprintf", false, 2, None, &[Kernel, Read, More], ResultKind::Int, Plain),
    Line("fputs", false, 2, Some(2), &[Read, Kernel], ResultKind::Int, Plain),
    Line("free", false, 1, Some(1), &[Kernel], Nothing, Plain),
    Line("fstat", true, 2, Some(2), &[Int, Write], ResultKind::Int, Plain),
    Line("fsync", true, 1, Some(1), &[Int], ResultKind::Int, Plain),
    Line("ftruncate", true, 2, Some(2), &[Int, Int], ResultKind::Int, Plain),
    Line("getchar", false, 0, Some(0), &[], ResultKind::Int, Plain),
    Line("getegid", true, 0, Some(0), &[], ResultKind::Int, Plain),
    Line("getenv", false, 1, Some(1), &[Read], Own, Plain),
    Line("geteuid", true, 0, Some(0), &[], ResultKind::Int, Plain),
    Line("getgid", true, 0, Some(0), &[], ResultKind::Int, Plain),
    Line("getpeername", true, 3, Some(3), &[Int, Write, Both], ResultKind::Int, Plain),
    Line("getpgrp", true, 0, Some(0), &[], ResultKind::Int, Plain),
    Line("getpid", true, 0, Some(0), &[], ResultKind::Int, Plain),
    Line("getppid", true, 0, Some(0), &[], ResultKind::Int, Plain),
    Line("getsockname", true, 3, Some(3), &[Int, Write, Both], ResultKind::Int, Plain),
    Line("getsockopt", true, 5, Some(5), &[Int, Int, Int, Write, Both], ResultKind::Int, Plain),
    Line("getuid", true, 0, Some(0), &[], ResultKind::Int, Plain),
    Line("htonl", true, 1, Some(1), &[Int], ResultKind::Int, Plain),
    Line("htons", true, 1, Some(1), &[Int], ResultKind::Int, Plain),
    Line("kill", true, 2, Some(2), &[Int, Int], ResultKind::Int, Plain),
    Line("link", true, 2, Some(2), &[Read, Read], ResultKind::Int, Plain),
    Line("listen", true, 2, Some(2), &[Int, Int], ResultKind::Int, Plain),
    Line("localtime", false, 1, Some(1), &[Read], Own, Plain),
    Line("lseek", true, 3, Some(3), &[Int, Int, Int], ResultKind::Int, Plain),
    Line("lstat", true, 2, Some(2), &[Read, Write], ResultKind::Int, Plain),
    Line("malloc", false, 1, Some(1), &[Int], Fresh, Plain),
    Line("memchr", true, 3, Some(3), &[Read, Int, Int], First, Plain),
    Line("memcmp", true, 3, Some(3), &[Read, Read, Int], ResultKind::Int, Plain),
    Line("memcpy", true, 3, Some(3), &[Write, Copied, Int], First, Plain),
    Line("memmove", true, 3, Some(3), &[Write, Copied, Int], First, Plain),
    Line("memset", true, 3, Some(3), &[Write, Int, Int], First, Fill),
    Line("mkdir", true, 2, Some(2), &[Read, Int], ResultKind::Int, Plain),
    Line("mkfifo", true, 2, Some(2), &[Read, Int], ResultKind::Int, Plain),
    Line("ntohl", true, 1, Some(1), &[Int], ResultKind::Int, Plain),
    Line("ntohs", true, 1, Some(1), &[Int], ResultKind::Int, Plain),
    Line("open", true, 2, Some(3), &[Read, Int, Int], ResultKind::Int, Plain),
    Line("openat", true, 3, Some(4), &[Int, Read, Int, Int], ResultKind::Int, Plain),
    Line("pause", true, 0, Some(0), &[], ResultKind::Int, Plain),
    Line("pclose", false, 1, Some(1), &[Kernel], ResultKind::Int, Plain),
    Line("perror", false, 1, Some(1), &[Read], Nothing, Plain),
    Line("pipe", true, 1, Some(1), &[Write], ResultKind::Int, Plain),
    Line("poll", true, 3, Some(3), &[Both, Int, Int], ResultKind::Int, Plain),
    Line("popen", false, 2, Some(2), &[Read, Read], Fresh, Plain),
    Line("printf", false, 1, None, &[Read, More], ResultKind::Int, Plain),
    Line("pselect", true, 6, Some(6), &[Int, Both, Both, Both, Read, SetIn], ResultKind::Int, Wait),
    Line("pthread_atfork", false, 3, Some(3), &[ForkFn, ForkFn, ForkFn], ResultKind::Int, Atfork),
    Line("pthread_cond_signal", false, 1, Some(1), &[Kernel], ResultKind::Int, Plain),
    Line("pthread_cond_wait", false, 2, Some(2), &[Kernel, Kernel], ResultKind::Int, Plain),
    Line("pthread_create", false, 4, Some(4), &[Write, Kernel, ThreadFn, Kept], ResultKind::Int, Thread),
    Line("pthread_detach", false, 1, Some(1), &[Int], ResultKind::Int, Plain),
    Line("pthread_join", false, 2, Some(2), &[Int, Null], ResultKind::Int, Plain),
    Line("pthread_kill", true, 2, Some(2), &[Int, Int], ResultKind::Int, Plain),
    Line("pthread_mutex_init", false, 2, Some(2), &[Kernel, Kernel], ResultKind::Int, Plain),
    Line("pthread_mutex_lock", false, 1, Some(1), &[Kernel], ResultKind::Int, Plain),
    Line("pthread_mutex_unlock", false, 1, Some(1), &[Kernel], ResultKind::Int, Plain),
    Line("pthread_self", true, 0, Some(0), &[], ResultKind::Int, Plain),
    Line("pthread_sigmask", true, 3, Some(3), &[Int, SetIn, SetOut], ResultKind::Int, Mask),
    Line("putchar", false, 1, Some(1), &[Int], ResultKind::Int, Plain),
    Line("puts", false, 1, Some(1), &[Read], ResultKind::Int, Plain),
    Line("raise", true, 1, Some(1), &[Int], ResultKind::Int, Plain),
    Line("rand", false, 0, Some(0), &[], ResultKind::Int, Plain),
    Line("read", true, 3, Some(3), &[Int, Write, Int], ResultKind::Int, Plain),
    Line("readlink", true, 3, Some(3), &[Read, Write, Int], ResultKind::Int, Plain),
    Line("realloc", false, 2, Some(2), &[Copied, Int], Fresh, Plain),
    Line("recv", true, 4, Some(4), &[Int, Write, Int, Int], ResultKind::Int, Plain),
    Line("recvfrom", true, 6, Some(6), &[Int, Write, Int, Int, Write, Both], ResultKind::Int, Plain),
    Line("rename", true, 2, Some(2), &[Read, Read], ResultKind::Int, Plain),
    Line("rmdir", true, 1, Some(1), &[Read], ResultKind::Int, Plain),
    Line("select", true, 5, Some(5), &[Int, Both, Both, Both, Both], ResultKind::Int, Plain),
    Line("sem_init", false, 3, Some(3), &[Kernel, Int, Int], ResultKind::Int, Plain),
    Line("sem_post", true, 1, Some(1), &[Kernel], ResultKind::Int, Plain),
    Line("sem_wait", false, 1, Some(1), &[Kernel], ResultKind::Int, Plain),
    Line("send", true, 4, Some(4), &[Int, Read, Int, Int], ResultKind::Int, Plain),
    Line("sendto", true, 6, Some(6), &[Int, Read, Int, Int, Read, Int], ResultKind::Int, Plain),
    Line("setgid", true, 1, Some(1), &[Int], ResultKind::Int, Plain),
    Line("setpgid", true, 2, Some(2), &[Int, Int], ResultKind::Int, Plain),
    Line("setsid", true, 0, Some(0), &[], ResultKind::Int, Plain),
    Line("setsockopt", true, 5, Some(5), &[Int, Int, Int, Read, Int], ResultKind::Int, Plain),
    Line("setuid", true, 1, Some(1), &[Int], ResultKind::Int, Plain),
    Line("shutdown", true, 2, Some(2), &[Int, Int], ResultKind::Int, Plain),
    Line("sigaction", true, 3, Some(3), &[Int, ActionIn, ActionOut], ResultKind::Int, Install),
    Line("sigaddset", true, 2, Some(2), &[SetOut, Int], ResultKind::Int, Add),
    Line("sigdelset", true, 2, Some(2), &[SetOut, Int], ResultKind::Int, Del),
    Line("sigemptyset", true, 1, Some(1), &[SetOut], ResultKind::Int, Empty),
    Line("sigfillset", true, 1, Some(1), &[SetOut], ResultKind::Int, Full),
    Line("sigismember", true, 2, Some(2), &[SetIn, Int], ResultKind::Int, Plain),
    Line("signal", true, 2, Some(2), &[Int, HandlerFn], OldHandler, Install),
    Line("sigpending", true, 1, Some(1), &[SetOut], ResultKind::Int, Any),
    Line("sigprocmask", true, 3, Some(3), &[Int, SetIn, SetOut], ResultKind::Int, Mask),
    Line("sigsuspend", true, 1, Some(1), &[SetIn], ResultKind::Int, Wait),
    Line("sigwait", false, 2, Some(2), &[SetIn, Write], ResultKind::Int, Plain),
    Line("sleep", true, 1, Some(1), &[Int], ResultKind::Int, Plain),
    Line("snprintf", false, 3, None, &[Write, Int, Read, More], ResultKind::Int, Plain),
    Line("socket", true, 3, Some(3), &[Int, Int, Int], ResultKind::Int, Plain),
    Line("socketpair", true, 4, Some(4), &[Int, Int, Int, Write], ResultKind::Int, Plain),
    Line("srand", false, 1, Some(1), &[Int], Nothing, Plain),
    Line("stat", true, 2, Some(2), &[Read, Write], ResultKind::Int, Plain),
    Line("strcat", true, 2, Some(2), &[Both, Copied], First, Plain),
    Line("strchr", true, 2, Some(2), &[Read, Int], First, Plain),
    Line("strcmp", true, 2, Some(2), &[Read, Read], ResultKind::Int, Plain),
    Line("strcpy", true, 2, Some(2), &[Write, Copied], First, Plain),
    Line("strdup", false, 1, Some(1), &[Copied], Fresh, Plain),
    Line("strerror", false, 1, Some(1), &[Int], Own, Plain),
    Line("strlen", true, 1, Some(1), &[Read], ResultKind::Int, Plain),
    Line("strncat", true, 3, Some(3), &[Both, Copied, Int], First, Plain),
    Line("strncmp", true, 3, Some(3), &[Read, Read, Int], ResultKind::Int, Plain),
    Line("strncpy", true, 3, Some(3), &[Write, Copied, Int], First, Plain),
    Line("strrchr", true, 2, Some(2), &[Read, Int], First, Plain),
    Line("strstr", true, 2, Some(2), &[Read, Read], First, Plain),
    Line("strtol", false, 3, Some(3), &[Read, Write, Int], ResultKind::Int, Endp),
    Line("symlink", true, 2, Some(2), &[Read, Read], ResultKind::Int, Plain),
    Line("syslog", false, 2, None, &[Int, Read, More], Nothing, Plain),
    Line("system", false, 1, Some(1), &[Read], ResultKind::Int, Plain),
    Line("time", true, 1, Some(1), &[Write], ResultKind::Int, Plain),
    Line("times", true, 1, Some(1), &[Write], ResultKind::Int, Plain),
    Line("umask", true, 1, Some(1), &[Int], ResultKind::Int, Plain),
    Line("uname", true, 1, Some(1), &[Write], ResultKind::Int, Plain),
    Line("unlink", true, 1, Some(1), &[Read], ResultKind::Int, Plain),
    Line("wait", true, 1, Some(1), &[Write], ResultKind::Int, Plain),
    Line("waitpid", true, 3, Some(3), &[Int, Write, Int], ResultKind::Int, Plain),
    Line("write", true, 3, Some(3), &[Int, Read, Int], ResultKind::Int, Plain),
];

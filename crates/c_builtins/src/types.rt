ghost use Rattle.std.specs.Prelude.{◌≡◌, map};
ghost use Rattle.c_builtins.specs.Types as spec;

/// The type that a built-in name or a member has.
#[derive(Clone, Copy)]
pub enum BuiltInType {
    /// An integer of this width in bits, and whether it is signed.
    Int(u8, bool),
    /// A set of signals, as sigset_t is.
    Signals,
    /// An object whose inside no program sees.
    Kernel,
    /// The built-in structure of this number.
    Structure(u32),
    /// An array of char.
    Text,
    /// A pointer to a function of an int without a result, as sa_handler is.
    Handler,
    /// A pointer to a function of an int and two pointers without a result, as sa_sigaction is.
    Action,
}

/// A name that is a type in every program.
pub struct TypeName {
    pub name: &'static [u8],
    pub names: BuiltInType,
}

/// A member of a built-in structure.
pub struct Member {
    pub name: &'static [u8],
    pub holds: BuiltInType,
}

const TYPE_NAMES: [TypeName; 38] = [
    // integers
    TypeName {
        name: b"size_t",
        names: BuiltInType::Int(64, false),
    },
    TypeName {
        name: b"ssize_t",
        names: BuiltInType::Int(64, true),
    },
    TypeName {
        name: b"off_t",
        names: BuiltInType::Int(64, true),
    },
    TypeName {
        name: b"time_t",
        names: BuiltInType::Int(64, true),
    },
    TypeName {
        name: b"clock_t",
        names: BuiltInType::Int(64, true),
    },
    TypeName {
        name: b"ptrdiff_t",
        names: BuiltInType::Int(64, true),
    },
    TypeName {
        name: b"intptr_t",
        names: BuiltInType::Int(64, true),
    },
    TypeName {
        name: b"int64_t",
        names: BuiltInType::Int(64, true),
    },
    TypeName {
        name: b"uintptr_t",
        names: BuiltInType::Int(64, false),
    },
    TypeName {
        name: b"uint64_t",
        names: BuiltInType::Int(64, false),
    },
    TypeName {
        name: b"pthread_t",
        names: BuiltInType::Int(64, false),
    },
    TypeName {
        name: b"nfds_t",
        names: BuiltInType::Int(64, false),
    },
    TypeName {
        name: b"pid_t",
        names: BuiltInType::Int(32, true),
    },
    TypeName {
        name: b"clockid_t",
        names: BuiltInType::Int(32, true),
    },
    TypeName {
        name: b"int32_t",
        names: BuiltInType::Int(32, true),
    },
    TypeName {
        name: b"sig_atomic_t",
        names: BuiltInType::Int(32, true),
    },
    TypeName {
        name: b"uid_t",
        names: BuiltInType::Int(32, false),
    },
    TypeName {
        name: b"gid_t",
        names: BuiltInType::Int(32, false),
    },
    TypeName {
        name: b"mode_t",
        names: BuiltInType::Int(32, false),
    },
    TypeName {
        name: b"socklen_t",
        names: BuiltInType::Int(32, false),
    },
    TypeName {
        name: b"uint32_t",
        names: BuiltInType::Int(32, false),
    },
    TypeName {
        name: b"in_addr_t",
        names: BuiltInType::Int(32, false),
    },
    TypeName {
        name: b"uint16_t",
        names: BuiltInType::Int(16, false),
    },
    TypeName {
        name: b"sa_family_t",
        names: BuiltInType::Int(16, false),
    },
    TypeName {
        name: b"in_port_t",
        names: BuiltInType::Int(16, false),
    },
    TypeName {
        name: b"int16_t",
        names: BuiltInType::Int(16, true),
    },
    TypeName {
        name: b"uint8_t",
        names: BuiltInType::Int(8, false),
    },
    TypeName {
        name: b"int8_t",
        names: BuiltInType::Int(8, true),
    },
    // signals
    TypeName {
        name: b"sigset_t",
        names: BuiltInType::Signals,
    },
    TypeName {
        name: b"siginfo_t",
        names: BuiltInType::Structure(12),
    },
    // objects whose inside no program sees
    TypeName {
        name: b"FILE",
        names: BuiltInType::Kernel,
    },
    TypeName {
        name: b"pthread_attr_t",
        names: BuiltInType::Kernel,
    },
    TypeName {
        name: b"pthread_mutex_t",
        names: BuiltInType::Kernel,
    },
    TypeName {
        name: b"pthread_mutexattr_t",
        names: BuiltInType::Kernel,
    },
    TypeName {
        name: b"pthread_cond_t",
        names: BuiltInType::Kernel,
    },
    TypeName {
        name: b"pthread_condattr_t",
        names: BuiltInType::Kernel,
    },
    TypeName {
        name: b"sem_t",
        names: BuiltInType::Kernel,
    },
    TypeName {
        name: b"fd_set",
        names: BuiltInType::Kernel,
    },
];

const TIMESPEC: [Member; 2] = [
    Member {
        name: b"tv_sec",
        holds: BuiltInType::Int(64, true),
    },
    Member {
        name: b"tv_nsec",
        holds: BuiltInType::Int(64, true),
    },
];

const TIMEVAL: [Member; 2] = [
    Member {
        name: b"tv_sec",
        holds: BuiltInType::Int(64, true),
    },
    Member {
        name: b"tv_usec",
        holds: BuiltInType::Int(64, true),
    },
];

const STAT: [Member; 8] = [
    Member {
        name: b"st_mode",
        holds: BuiltInType::Int(64, true),
    },
    Member {
        name: b"st_size",
        holds: BuiltInType::Int(64, true),
    },
    Member {
        name: b"st_uid",
        holds: BuiltInType::Int(64, true),
    },
    Member {
        name: b"st_gid",
        holds: BuiltInType::Int(64, true),
    },
    Member {
        name: b"st_mtime",
        holds: BuiltInType::Int(64, true),
    },
    Member {
        name: b"st_ino",
        holds: BuiltInType::Int(64, true),
    },
    Member {
        name: b"st_dev",
        holds: BuiltInType::Int(64, true),
    },
    Member {
        name: b"st_nlink",
        holds: BuiltInType::Int(64, true),
    },
];

const POLLFD: [Member; 3] = [
    Member {
        name: b"fd",
        holds: BuiltInType::Int(64, true),
    },
    Member {
        name: b"events",
        holds: BuiltInType::Int(64, true),
    },
    Member {
        name: b"revents",
        holds: BuiltInType::Int(64, true),
    },
];

const TM: [Member; 9] = [
    Member {
        name: b"tm_sec",
        holds: BuiltInType::Int(64, true),
    },
    Member {
        name: b"tm_min",
        holds: BuiltInType::Int(64, true),
    },
    Member {
        name: b"tm_hour",
        holds: BuiltInType::Int(64, true),
    },
    Member {
        name: b"tm_mday",
        holds: BuiltInType::Int(64, true),
    },
    Member {
        name: b"tm_mon",
        holds: BuiltInType::Int(64, true),
    },
    Member {
        name: b"tm_year",
        holds: BuiltInType::Int(64, true),
    },
    Member {
        name: b"tm_wday",
        holds: BuiltInType::Int(64, true),
    },
    Member {
        name: b"tm_yday",
        holds: BuiltInType::Int(64, true),
    },
    Member {
        name: b"tm_isdst",
        holds: BuiltInType::Int(64, true),
    },
];

const TMS: [Member; 4] = [
    Member {
        name: b"tms_utime",
        holds: BuiltInType::Int(64, true),
    },
    Member {
        name: b"tms_stime",
        holds: BuiltInType::Int(64, true),
    },
    Member {
        name: b"tms_cutime",
        holds: BuiltInType::Int(64, true),
    },
    Member {
        name: b"tms_cstime",
        holds: BuiltInType::Int(64, true),
    },
];

const IN_ADDR: [Member; 1] = [Member {
    name: b"s_addr",
    holds: BuiltInType::Int(64, true),
}];

const SOCKADDR: [Member; 1] = [Member {
    name: b"sa_family",
    holds: BuiltInType::Int(64, true),
}];

const SOCKADDR_IN: [Member; 3] = [
    Member {
        name: b"sin_family",
        holds: BuiltInType::Int(64, true),
    },
    Member {
        name: b"sin_port",
        holds: BuiltInType::Int(64, true),
    },
    Member {
        name: b"sin_addr",
        holds: BuiltInType::Structure(6),
    },
];

const SOCKADDR_UN: [Member; 2] = [
    Member {
        name: b"sun_family",
        holds: BuiltInType::Int(64, true),
    },
    Member {
        name: b"sun_path",
        holds: BuiltInType::Text,
    },
];

const UTSNAME: [Member; 5] = [
    Member {
        name: b"sysname",
        holds: BuiltInType::Text,
    },
    Member {
        name: b"nodename",
        holds: BuiltInType::Text,
    },
    Member {
        name: b"release",
        holds: BuiltInType::Text,
    },
    Member {
        name: b"version",
        holds: BuiltInType::Text,
    },
    Member {
        name: b"machine",
        holds: BuiltInType::Text,
    },
];

const SIGACTION: [Member; 4] = [
    Member {
        name: b"sa_handler",
        holds: BuiltInType::Handler,
    },
    Member {
        name: b"sa_sigaction",
        holds: BuiltInType::Action,
    },
    Member {
        name: b"sa_mask",
        holds: BuiltInType::Signals,
    },
    Member {
        name: b"sa_flags",
        holds: BuiltInType::Int(32, true),
    },
];

const SIGNAL_INFORMATION: [Member; 6] = [
    Member {
        name: b"si_signo",
        holds: BuiltInType::Int(64, true),
    },
    Member {
        name: b"si_code",
        holds: BuiltInType::Int(64, true),
    },
    Member {
        name: b"si_errno",
        holds: BuiltInType::Int(64, true),
    },
    Member {
        name: b"si_pid",
        holds: BuiltInType::Int(64, true),
    },
    Member {
        name: b"si_uid",
        holds: BuiltInType::Int(64, true),
    },
    Member {
        name: b"si_status",
        holds: BuiltInType::Int(64, true),
    },
];

const STRUCTURES: [&[Member]; 13] = [
    &TIMESPEC,
    &TIMEVAL,
    &STAT,
    &POLLFD,
    &TM,
    &TMS,
    &IN_ADDR,
    &SOCKADDR,
    &SOCKADDR_IN,
    &SOCKADDR_UN,
    &UTSNAME,
    &SIGACTION,
    &SIGNAL_INFORMATION,
];

const TAGS: [&[u8]; 12] = [
    b"timespec",
    b"timeval",
    b"stat",
    b"pollfd",
    b"tm",
    b"tms",
    b"in_addr",
    b"sockaddr",
    b"sockaddr_in",
    b"sockaddr_un",
    b"utsname",
    b"sigaction",
];

/// The names that are types in every program, with what they name.
pub fn type_names() -> &'static [TypeName]
    ensures { map (λ t. (t.name.now, t.names)) result.now ≡ spec.type_names }
{
    &TYPE_NAMES
}

/// The tags of the built-in structures, in the order of their numbers from 0. The last structure, siginfo_t, has none.
pub fn tags() -> &'static [&'static [u8]]
    ensures { map (λ t. t.now) result.now ≡ spec.tags }
{
    &TAGS
}

/// The members of each built-in structure, in the order of their numbers from 0.
pub fn structures() -> &'static [&'static [Member]]
    ensures { map (λ ms. map (λ m. (m.name.now, m.holds)) ms.now) result.now ≡ spec.structures }
{
    &STRUCTURES
}

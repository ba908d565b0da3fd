ghost use Rattle.std.specs.Prelude.{◌≡◌, false, ◌||◌};
ghost use Rattle.base_core.specs.Rules.{contains, same_rule};

use std::marker::Model;

/// A profile of the rules on signal handlers and forked children: which references to objects a handler may make, and
/// whether `fork` counts as async-signal-safe. The profiles are this project's own.
#[derive(Clone, Copy, Debug, PartialEq, Eq)]
pub enum Rules {
    /// A handler may assign and read a `volatile sig_atomic_t`, and read what is constant or never changes under it.
    Usual,
    /// A handler may assign a `volatile sig_atomic_t` and read string literals, and nothing else (C11 7.14.1.1).
    Strict,
    /// As `Usual`, with `fork` unsafe and `_Fork` in its place, as later editions of POSIX have them.
    Later,
}

/// A rule that a step of a run may break.
#[derive(Clone, Copy, Debug, PartialEq, Eq, PartialOrd, Ord)]
pub enum Rule {
    /// An unsafe function is entered in a handler that interrupted one (POSIX.1-2017 XSH 2.4.3).
    U,
    /// A handler refers to a static object in a way that its profile forbids (C11 7.14.1.1).
    S,
    /// A handler returns with errno changed (POSIX.1-2017 XSH 2.4.3).
    E,
    /// An unsafe function is entered in the child of a process with several threads (POSIX.1-2017 XSH fork).
    F,
    /// A fork handler of a fork in a signal handler enters an unsafe function (POSIX.1-2017 XSH pthread_atfork).
    A,
    /// `sigprocmask` is entered in a process with several threads (POSIX.1-2017 XSH pthread_sigmask).
    M,
    /// A handler of a signal for a hardware fault returns (POSIX.1-2017 XSH 2.4.3).
    R,
}

/// A set of rules. A contract sees for each rule whether it is in the set.
#[derive(Clone, Copy, Debug, PartialEq, Eq)]
pub struct RuleBits {
    unsafe_call: bool,
    static_object: bool,
    errno: bool,
    forked_child: bool,
    atfork: bool,
    mask: bool,
    fault: bool,
}

impl Model for RuleBits {
    ghost use Rattle.base_core.specs.Rules.{RuleSet};

    ghost Value = { RuleSet };

    ghost view = { λ s. record {
      u = s.unsafe_call;
      s = s.static_object;
      e = s.errno;
      f = s.forked_child;
      a = s.atfork;
      m = s.mask;
      r = s.fault;
    } };

    ghost inverse = { λ v. record {
      unsafe_call = v.u;
      static_object = v.s;
      errno = v.e;
      forked_child = v.f;
      atfork = v.a;
      mask = v.m;
      fault = v.r;
    } };
}

impl RuleBits {
    /// The set of no rule.
    pub fn empty() -> Self
        ensures { (other : Rule) → contains result other ≡ false }
    {
        RuleBits {
            unsafe_call: false,
            static_object: false,
            errno: false,
            forked_child: false,
            atfork: false,
            mask: false,
            fault: false,
        }
    }

    /// The set with this rule too.
    pub fn with(self, r: Rule) -> Self
        ensures { (other : Rule) → contains result other ≡ (same_rule other r || contains self other) }
    {
        match r {
            Rule::U => RuleBits {
                unsafe_call: true,
                ..self
            },
            Rule::S => RuleBits {
                static_object: true,
                ..self
            },
            Rule::E => RuleBits {
                errno: true,
                ..self
            },
            Rule::F => RuleBits {
                forked_child: true,
                ..self
            },
            Rule::A => RuleBits {
                atfork: true,
                ..self
            },
            Rule::M => RuleBits { mask: true, ..self },
            Rule::R => RuleBits {
                fault: true,
                ..self
            },
        }
    }

    /// Whether this rule is in the set.
    pub fn has(self, r: Rule) -> bool
        ensures { result ≡ contains self r }
    {
        match r {
            Rule::U => self.unsafe_call,
            Rule::S => self.static_object,
            Rule::E => self.errno,
            Rule::F => self.forked_child,
            Rule::A => self.atfork,
            Rule::M => self.mask,
            Rule::R => self.fault,
        }
    }
}

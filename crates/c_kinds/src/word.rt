ghost use Rattle.std.specs.Prelude.{◌≡◌};
ghost use Rattle.c_kinds.specs.Word as words;

/// The outermost word of a type.
#[derive(Clone, Copy)]
pub enum Word {
    Void,
    Int,
    Ptr,
    FnPtr,
    Array,
    Struct,
    Set,
    Kernel,
}

impl Word {
    /// Whether the two are the same.
    pub fn is(self, other: Word) -> bool
        ensures { result ≡ words.same self other }
    {
        matches!(
            (self, other),
            (Word::Void, Word::Void)
                | (Word::Int, Word::Int)
                | (Word::Ptr, Word::Ptr)
                | (Word::FnPtr, Word::FnPtr)
                | (Word::Array, Word::Array)
                | (Word::Struct, Word::Struct)
                | (Word::Set, Word::Set)
                | (Word::Kernel, Word::Kernel)
        )
    }

    /// Whether it is a pointer's, to objects or to functions (C11 6.2.5p20).
    pub fn is_pointer(self) -> bool
        ensures { result ≡ words.is_pointer self }
    {
        matches!(self, Word::Ptr | Word::FnPtr)
    }

    /// Whether it is a scalar type's, an integer's or a pointer's (C11 6.2.5p21).
    pub fn is_scalar(self) -> bool
        ensures { result ≡ words.is_scalar self }
    {
        matches!(self, Word::Int | Word::Ptr | Word::FnPtr)
    }

    /// Whether the type has values, as each has but void (C11 6.2.5p19). An object's type has, and so has what a pointer that is
    /// followed points to.
    pub fn has_values(self) -> bool
        ensures { result ≡ words.has_values self }
    {
        !matches!(self, Word::Void)
    }

    /// The word of the value of an expression that has a type of this word: an array stands as a pointer (C11 6.3.2.1p3).
    pub fn decayed(self) -> Word
        ensures { result ≡ words.decayed_word self }
    {
        match self {
            Word::Array => Word::Ptr,
            word => word,
        }
    }
}

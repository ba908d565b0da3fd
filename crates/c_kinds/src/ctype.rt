ghost use Rattle.std.specs.Prelude.{◌≡◌, ℕ, ◌+◌, ◌<◌, ◌≤◌, All, map, IfOk, Some, None, length, slice_get, option_map};
ghost use Rattle.c_kinds.specs.Kind as kind;
ghost use Rattle.c_kinds.specs.View.{view, view_types};
ghost use Rattle.c_kinds.specs.Weight.{weight, weight_types, weigh};
ghost use Rattle.c_kinds.specs.declared.ctype.CType.{size-CType};
ghost use Rattle.c_kinds.specs.declared.ctype.Types.{size-Types};

use crate::word::Word;
use std::alloc::{AllocError, Global};
use std::rc::Rc;

/// The type of an object or a value (C11 6.2.5, for what the subset keeps).
#[cycle(kinds)]
pub enum CType {
    /// void, which has no value (6.2.5p19).
    Void,
    /// An integer, with its width in bits and whether it is signed (6.2.5p4, p6).
    Int(u8, bool),
    /// A pointer to an object (6.2.5p20).
    Ptr(Rc<CType>),
    /// A pointer to a function, with the parameters and the result; a function's own type too (6.3.2.1p4).
    FnPtr(Types, Rc<CType>),
    /// An array of any size, with its element (6.2.5p20).
    Array(Rc<CType>),
    /// A structure, by its number.
    Struct(u32),
    /// sigset_t.
    Set,
    /// An object that the system alone looks into, as a FILE or a pthread_mutex_t.
    Kernel,
}

impl Drop for CType {
    /// Goes down what is pointed to in a loop, since a declarator may have any number of stars.
    #[cycle(letting_go)]
    fn drop(mut self) {
        loop {
            match self {
                CType::Ptr(to) | CType::Array(to) => match Rc::into_inner(to) {
                    Some(rest) => self = rest,
                    None => return,
                },
                CType::FnPtr(_, to) => match Rc::into_inner(to) {
                    Some(rest) => self = rest,
                    None => return,
                },
                CType::Void | CType::Int(_, _) | CType::Struct(_) | CType::Set | CType::Kernel =>
                    return,
            }
        }
    }
}

/// The types of parameters, in order.
#[cycle(kinds)]
pub struct Types {
    all: Rc<Vec<CType>>,
}

impl Drop for Types {
    /// Keeps what is left to let go of in one list, since functions may take functions to any depth.
    #[cycle(letting_go)]
    fn drop(self) {
        let Types { all } = self;
        if let Some(mut left) = Rc::into_inner(all) {
            while let Some(one) = left.pop() {
                one.let_go(&mut left);
            }
        }
    }
}

impl CType {
    /// Lets go of it, but for what functions in it take and nobody else holds: that is appended to what is left.
    #[cycle(letting_go)]
    fn let_go(mut self, left: &mut Vec<CType>)
        // What is left becomes less with each step, and nothing in it lies deeper than what it was taken from.
        ensures lighter { weigh left.new.items < weigh left.old.items + weight self }
        ensures lower { (d : ℕ) → size-CType self ≤ d → All (λ t. size-CType t < d) left.old.items → All (λ t. size-CType t < d) left.new.items }
    {
        loop {
            match self {
                CType::Ptr(to) | CType::Array(to) => match Rc::into_inner(to) {
                    Some(rest) => self = rest,
                    None => return,
                },
                CType::FnPtr(takes, to) => {
                    takes.let_go(left);
                    match Rc::into_inner(to) {
                        Some(rest) => self = rest,
                        None => return,
                    }
                }
                CType::Void | CType::Int(_, _) | CType::Struct(_) | CType::Set | CType::Kernel =>
                    return,
            }
        }
    }
}

impl Types {
    /// Appends them to what is left, where nobody else holds them. Where there is not enough memory, they are dropped.
    #[cycle(letting_go)]
    fn let_go(self, left: &mut Vec<CType>)
        ensures lighter { weigh left.new.items ≤ weigh left.old.items + weight_types self }
        ensures lower { (d : ℕ) → size-Types self ≤ d → All (λ t. size-CType t < d) left.old.items → All (λ t. size-CType t < d) left.new.items }
    {
        let Types { all } = self;
        if let Some(mut all) = Rc::into_inner(all) {
            let _dropped = left.append(&mut all);
        }
    }
}

impl Types {
    /// How many there are.
    pub fn len(&self) -> usize
        ensures { result ≡ length (view_types self.now) }
    {
        self.all.len()
    }

    /// The k-th; None exactly from their number on.
    pub fn at(&self, k: usize) -> Option<&CType>
        ensures { option_map (λ t. view t.now) result ≡ slice_get (view_types self.now) k }
    {
        self.as_slice().get(k)
    }

    /// The same types once more, in one step.
    pub fn share(&self) -> Result<Types, AllocError>
        ensures { IfOk result (λ t. view_types t ≡ view_types self.now) }
    {
        let all = self.all.clone()?;
        Ok(Types { all })
    }

    /// They, in order.
    pub fn as_slice(&self) -> &[CType]
        ensures { map view result.now ≡ view_types self.now }
    {
        self.all.as_slice()
    }

    /// These types.
    pub fn new(alloc: Global, all: Vec<CType>) -> Result<Types, AllocError>
        ensures { IfOk result (λ t. view_types t ≡ map view all.items) }
    {
        match Rc::new(alloc, all) {
            Ok(all) => Ok(Types { all }),
            Err(_) => Err(AllocError),
        }
    }
}

impl CType {
    /// The same type once more, in one step.
    pub fn share(&self) -> Result<CType, AllocError>
        ensures { IfOk result (λ t. view t ≡ view self.now) }
    {
        match self {
            CType::Void => Ok(CType::Void),
            CType::Int(width, signed) => Ok(CType::Int(*width, *signed)),
            CType::Ptr(to) => Ok(CType::Ptr(to.clone()?)),
            CType::FnPtr(parameters, to) => {
                let parameters = parameters.share()?;
                Ok(CType::FnPtr(parameters, to.clone()?))
            }
            CType::Array(of) => Ok(CType::Array(of.clone()?)),
            CType::Struct(number) => Ok(CType::Struct(*number)),
            CType::Set => Ok(CType::Set),
            CType::Kernel => Ok(CType::Kernel),
        }
    }

    /// A pointer to this type.
    pub fn pointer(alloc: Global, to: CType) -> Result<CType, AllocError>
        ensures { IfOk result (λ t. view t ≡ kind.pointer (view to)) }
    {
        match Rc::new(alloc, to) {
            Ok(to) => Ok(CType::Ptr(to)),
            Err(_) => Err(AllocError),
        }
    }

    /// An array of this type.
    pub fn array(alloc: Global, of: CType) -> Result<CType, AllocError>
        ensures { IfOk result (λ t. view t ≡ kind.array (view of)) }
    {
        match Rc::new(alloc, of) {
            Ok(of) => Ok(CType::Array(of)),
            Err(_) => Err(AllocError),
        }
    }

    /// A function with these parameters and this result.
    pub fn function(alloc: Global, parameters: Types, to: CType) -> Result<CType, AllocError>
        ensures { IfOk result (λ t. view t ≡ kind.function (view_types parameters) (view to)) }
    {
        match Rc::new(alloc, to) {
            Ok(to) => Ok(CType::FnPtr(parameters, to)),
            Err(_) => Err(AllocError),
        }
    }

    /// Its outermost word.
    pub fn word(&self) -> Word
        ensures { result ≡ kind.word (view self.now) }
    {
        match self {
            CType::Void => Word::Void,
            CType::Int(_, _) => Word::Int,
            CType::Ptr(_) => Word::Ptr,
            CType::FnPtr(_, _) => Word::FnPtr,
            CType::Array(_) => Word::Array,
            CType::Struct(_) => Word::Struct,
            CType::Set => Word::Set,
            CType::Kernel => Word::Kernel,
        }
    }

    /// The type of an expression's value, where the expression has this one: an array stands as a pointer to its element
    /// (C11 6.3.2.1p3). In one step.
    pub fn decayed(&self) -> Result<CType, AllocError>
        ensures { IfOk result (λ t. view t ≡ kind.decayed (view self.now)) }
    {
        match self {
            CType::Array(of) => Ok(CType::Ptr(of.clone()?)),
            other => other.share(),
        }
    }

    /// What it points to, where it is a pointer or an array.
    pub fn target(&self) -> Option<&CType>
        ensures { option_map (λ t. view t.now) result ≡ kind.target (view self.now) }
    {
        match self {
            CType::Ptr(to) | CType::Array(to) => Some(&**to),
            _ => None,
        }
    }

    /// What it holds in the end, past all dimensions, where it is an array; else itself. An array is complete where this is
    /// (C11 6.2.5p22).
    pub fn innermost(&self) -> &CType
        ensures { view result.now ≡ kind.innermost (view self.now) }
    {
        let mut inner = self;
        while let CType::Array(of) = inner {
            inner = of;
        }
        inner
    }
}

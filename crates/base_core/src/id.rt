/// The number of a node of a program's tree, in preorder: the program is node 0, and a node comes before its parts.
#[derive(Clone, Copy, Debug, PartialEq, Eq, PartialOrd, Ord, Hash)]
pub struct NodeId(pub u32);

/// The number of a function that has a body, in order of the text, from 0.
#[derive(Clone, Copy, Debug, PartialEq, Eq, PartialOrd, Ord, Hash)]
pub struct FnId(pub u32);

/// The number of a variable, from 0: each variable once, at its first declaration, and each named parameter of a
/// function with a body, in order of the text.
#[derive(Clone, Copy, Debug, PartialEq, Eq, PartialOrd, Ord, Hash)]
pub struct VarId(pub u32);

/// How far the execution of a node has come. The phases follow each other in this order; a call alone has `In0` (in
/// the called library function), a call of `fork` alone `In1` (behind the copy), and the function `main` alone
/// `Finish` (the exit processing behind its return).
#[derive(Clone, Copy, Debug, PartialEq, Eq, PartialOrd, Ord, Hash)]
pub enum Phase {
    Enter,
    In0,
    In1,
    Leave,
    Finish,
}

/// Where a thread stands: a phase of a node.
#[derive(Clone, Copy, Debug, PartialEq, Eq, PartialOrd, Ord, Hash)]
pub struct Pos {
    pub node: NodeId,
    pub phase: Phase,
}

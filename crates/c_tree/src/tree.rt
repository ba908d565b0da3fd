use base_core::Lexeme;
use sqlite_items::{Boxed, Items};

#[derive(Drop)]
pub enum Item {
    Function(Function),
    Decl(Decl),
}

#[derive(Drop)]
pub struct Function {
    pub storage: Storage,
    pub specs: Specs,
    pub stars: Stars,
    pub name: Lexeme,
    pub params: Params,
    pub body: Stmt,
}

#[derive(Drop)]
pub struct Decl {
    pub storage: Storage,
    pub specs: Specs,
    pub names: Items<Named>,
}

#[derive(Drop)]
pub struct Named {
    pub declarator: Declarator,
    pub init: Option<Init>,
}

#[derive(Clone, Copy, Debug, PartialEq, Eq)]
pub enum Storage {
    Nothing,
    Static,
    Extern,
    Typedef,
}

pub type Specs = Items<SpecWord>;

pub type Stars = Items<Quals>;

pub type Quals = Items<Qual>;

#[derive(Clone, Copy, Debug, PartialEq, Eq)]
pub enum Qual {
    Const,
    Volatile,
}

#[cycle(tree)]
#[derive(Drop)]
pub enum SpecWord {
    Const,
    Volatile,
    Void,
    Char,
    Short,
    Int,
    Long,
    Signed,
    Unsigned,
    TypeName(Lexeme),
    StructTag(Lexeme),
    Struct(Option<Lexeme>, Items<Member>),
    EnumTag(Lexeme),
    Enum(Option<Lexeme>, Items<Enumerator>, bool),
}

#[cycle(tree)]
#[derive(Drop)]
pub struct Member {
    pub specs: Specs,
    pub names: Items<Declarator>,
}

#[cycle(tree)]
#[derive(Drop)]
pub struct Enumerator {
    pub name: Lexeme,
    pub value: Option<Expr>,
}

#[cycle(tree)]
#[derive(Drop)]
pub enum Declarator {
    Plain(Stars, Lexeme),
    Array(Stars, Lexeme, Items<Option<Expr>>),
    Function(Stars, Lexeme, Params),
    Pointer(Stars, Quals, Lexeme, Items<Option<Expr>>, Params),
}

#[cycle(tree)]
#[derive(Drop)]
pub struct Params {
    pub items: Items<Parameter>,
    pub word: bool,
}

#[cycle(tree)]
#[derive(Drop)]
pub struct Parameter {
    pub specs: Specs,
    pub form: ParamForm,
}

#[cycle(tree)]
#[derive(Drop)]
pub enum ParamForm {
    Named(Declarator),
    Bare(Bare),
}

#[cycle(tree)]
#[derive(Drop)]
pub enum Bare {
    Plain(Stars),
    Pointer(Stars, Quals, Params),
}

#[cycle(tree)]
#[derive(Drop)]
pub struct TypeName {
    pub specs: Specs,
    pub bare: Bare,
}

#[cycle(init)]
#[derive(Drop)]
pub enum Init {
    Expr(Expr),
    Parts(InitList),
}

#[cycle(init)]
#[derive(Drop)]
pub struct InitList {
    pub parts: Items<Part>,
    pub comma: bool,
}

#[cycle(init)]
#[derive(Drop)]
pub struct Part {
    pub name: Option<Lexeme>,
    pub init: Init,
}

#[derive(Drop)]
pub enum Stmt {
    Block(Items<Stmt>),
    Decl(Decl),
    Expr(Option<Expr>),
    If(Expr, Boxed<Stmt>, Option<Boxed<Stmt>>),
    While(Expr, Boxed<Stmt>),
    DoWhile(Boxed<Stmt>, Expr),
    For(ForStart, Option<Expr>, Option<Expr>, Boxed<Stmt>),
    Switch(Expr, Boxed<Stmt>),
    Case(Expr),
    Default,
    Label(Lexeme),
    Break,
    Continue,
    Return(Option<Expr>),
    Goto(Lexeme),
}

#[derive(Drop)]
pub enum ForStart {
    Decl(Decl),
    Expr(Option<Expr>),
}

#[cycle(tree)]
#[derive(Drop)]
pub enum Expr {
    Comma(Boxed<Expr>, Boxed<Expr>),
    Assign(AssignOp, Boxed<Expr>, Boxed<Expr>),
    Choose(Boxed<Expr>, Boxed<Expr>, Boxed<Expr>),
    Binary(BinaryOp, Boxed<Expr>, Boxed<Expr>),
    Cast(Boxed<TypeName>, Boxed<Expr>),
    Unary(UnaryOp, Boxed<Expr>),
    Before(StepOp, Boxed<Expr>),
    SizeOf(Boxed<Expr>),
    SizeOfType(Boxed<TypeName>),
    Index(Boxed<Expr>, Boxed<Expr>),
    Call(Boxed<Expr>, Items<Expr>),
    Dot(Boxed<Expr>, Lexeme),
    Arrow(Boxed<Expr>, Lexeme),
    After(StepOp, Boxed<Expr>),
    Name(Lexeme),
    Integer(Lexeme),
    Character(Lexeme),
    Text(Items<Lexeme>),
    Paren(Boxed<Expr>),
}

#[derive(Clone, Copy, Debug, PartialEq, Eq)]
pub enum AssignOp {
    Plain,
    Mul,
    Div,
    Rem,
    Add,
    Sub,
    ShiftLeft,
    ShiftRight,
    BitAnd,
    BitXor,
    BitOr,
}

#[derive(Clone, Copy, Debug, PartialEq, Eq)]
pub enum BinaryOp {
    Or,
    And,
    BitOr,
    BitXor,
    BitAnd,
    Equal,
    Unequal,
    Less,
    Greater,
    AtMost,
    AtLeast,
    ShiftLeft,
    ShiftRight,
    Add,
    Sub,
    Mul,
    Div,
    Rem,
}

#[derive(Clone, Copy, Debug, PartialEq, Eq)]
pub enum UnaryOp {
    Address,
    Follow,
    Plus,
    Minus,
    BitNot,
    Not,
}

#[derive(Clone, Copy, Debug, PartialEq, Eq)]
pub enum StepOp {
    Up,
    Down,
}

use base_core::NodeId;
use c_tree::{
    Bare, Declarator, Expr, NodeRef, ParamForm, Program, SpecWord, Stmt, Storage, TypeName, UnaryOp,
};
use flow_form::{Callee, Names};
use posix_table::Table;
use std::alloc::{AllocError, Global};

/// What a name of a test's program is declared as: each stands for one thing in the whole program.
#[derive(Clone, Copy, PartialEq, Eq)]
enum NameKind {
    Nothing,
    Object,
    Array,
    Function,
    FunctionPointer,
}

/// What this declarator makes of the name that it declares.
fn declarator_kind(declarator: &Declarator) -> NameKind {
    match declarator {
        Declarator::Plain(_, _) => NameKind::Object,
        Declarator::Array(_, _, _) => NameKind::Array,
        Declarator::Function(_, _, _) => NameKind::Function,
        Declarator::Pointer(_, _, _, _, _) => NameKind::FunctionPointer,
    }
}

/// The name that this declarator declares.
fn declarator_name(declarator: &Declarator) -> &[u8] {
    match declarator {
        Declarator::Plain(_, name) => name.as_bytes(),
        Declarator::Array(_, name, _) => name.as_bytes(),
        Declarator::Function(_, name, _) => name.as_bytes(),
        Declarator::Pointer(_, _, name, _, _) => name.as_bytes(),
    }
}

/// The declarator of an object, a parameter or a function that a node declares without a body.
fn node_declarator(node: NodeRef<'_>) -> Option<&Declarator> {
    match node {
        NodeRef::Named(named) => Some(&named.declarator),
        NodeRef::Parameter(parameter) => match &parameter.form {
            ParamForm::Named(declarator) => Some(declarator),
            ParamForm::Bare(_) => None,
        },
        _ => None,
    }
}

/// What a node declares this name as.
fn declares(node: NodeRef<'_>, name: &[u8]) -> NameKind {
    if let NodeRef::Function(function) = node {
        return if function.name.as_bytes() == name {
            NameKind::Function
        } else {
            NameKind::Nothing
        };
    }
    match node_declarator(node) {
        Some(declarator) => {
            if declarator_name(declarator) == name {
                declarator_kind(declarator)
            } else {
                NameKind::Nothing
            }
        }
        None => NameKind::Nothing,
    }
}

/// What a program declares this name as, anywhere.
fn declared(program: &Program, name: &[u8]) -> NameKind {
    for n in 0..program.count() {
        if let Some(node) = program.node(NodeId(n)) {
            let found = declares(node, name);
            if found != NameKind::Nothing {
                return found;
            }
        }
    }
    NameKind::Nothing
}

/// Whether a structure of the program has an array member of this name.
fn has_array_member(program: &Program, name: &[u8]) -> bool {
    for n in 0..program.count() {
        if let Some(NodeRef::Member(declarator)) = program.node(NodeId(n)) {
            if declarator_name(declarator) == name {
                return declarator_kind(declarator) == NameKind::Array;
            }
        }
    }
    false
}

/// The library function of this name.
fn library(table: &Table, name: &[u8]) -> Callee {
    match str::from_utf8(name) {
        Ok(name) => match table.place(name) {
            Some(k) => match u32::try_from(k) {
                Ok(k) => Callee::Library(k),
                Err(_) => Callee::Pointer,
            },
            None => Callee::Pointer,
        },
        Err(_) => Callee::Pointer,
    }
}

/// What is called where this expression is the callee.
fn callee(program: &Program, table: &Table, e: &Expr) -> Callee {
    match e {
        Expr::Name(name) => match declared(program, name.as_bytes()) {
            NameKind::Function => Callee::Function,
            NameKind::Nothing => library(table, name.as_bytes()),
            _ => Callee::Pointer,
        },
        _ => Callee::Pointer,
    }
}

/// Whether a name, or what a `*` follows, is an object or errno.
fn designates(program: &Program, e: &Expr) -> bool {
    match e {
        Expr::Name(name) => match declared(program, name.as_bytes()) {
            NameKind::Nothing => name.as_bytes() == b"errno".as_slice(),
            NameKind::Function => false,
            _ => true,
        },
        Expr::Unary(UnaryOp::Follow, pointer) => match pointer.get() {
            Expr::Name(name) => match declared(program, name.as_bytes()) {
                NameKind::Function | NameKind::FunctionPointer => false,
                _ => true,
            },
            _ => true,
        },
        _ => false,
    }
}

/// Whether an expression has an array type.
fn is_array(program: &Program, e: &Expr) -> bool {
    match e {
        Expr::Text(_) => true,
        Expr::Name(name) => declared(program, name.as_bytes()) == NameKind::Array,
        Expr::Dot(_, member) => has_array_member(program, member.as_bytes()),
        Expr::Arrow(_, member) => has_array_member(program, member.as_bytes()),
        _ => false,
    }
}

/// Whether the name of a type is void.
fn names_void(name: &TypeName) -> bool {
    match (name.specs.as_slice(), &name.bare) {
        ([SpecWord::Void], Bare::Plain(stars)) => stars.as_slice().is_empty(),
        _ => false,
    }
}

/// The value of an integer, as the text has it.
fn integer(digits: &[u8]) -> i64 {
    match str::from_utf8(digits) {
        Ok(digits) => digits.parse::<i64>().unwrap_or(0),
        Err(_) => 0,
    }
}

/// The value of a case label.
fn constant(e: &Expr) -> i64 {
    match e {
        Expr::Integer(digits) => integer(digits.as_bytes()),
        Expr::Unary(UnaryOp::Minus, operand) => match operand.get() {
            Expr::Integer(digits) => 0i64.saturating_sub(integer(digits.as_bytes())),
            _ => 0,
        },
        _ => 0,
    }
}

/// No answers yet.
fn no_names(alloc: Global) -> Names {
    Names {
        callees: Vec::new(alloc),
        constants: Vec::new(alloc),
        automatic: Vec::new(alloc),
        voids: Vec::new(alloc),
        arrays: Vec::new(alloc),
        designators: Vec::new(alloc),
        main: 0,
    }
}

/// Notes what the expression of the next node means, if the node is one.
fn note_expression(
    program: &Program,
    table: &Table,
    node: NodeRef<'_>,
    names: &mut Names,
) -> Result<(), AllocError> {
    let (callee, is_void, is_array, designates) = match node {
        NodeRef::Expr(e) => (
            callee(program, table, e),
            matches!(e, Expr::Cast(name, _) if names_void(name.get())),
            is_array(program, e),
            designates(program, e),
        ),
        _ => (Callee::Pointer, false, false, false),
    };
    names.callees.push(callee)?;
    names.voids.push(is_void)?;
    names.arrays.push(is_array)?;
    names.designators.push(designates)?;
    Ok(())
}

/// What declarations around a node say of it.
#[derive(Clone, Copy)]
struct Around {
    in_function: bool,
    storage: Storage,
}

/// Whether the node declares an automatic variable.
fn is_automatic(around: Around, node: NodeRef<'_>) -> bool {
    match node {
        NodeRef::Named(named) => {
            around.in_function
                && around.storage == Storage::Nothing
                && declarator_kind(&named.declarator) != NameKind::Function
        }
        _ => false,
    }
}

/// What is around the nodes behind this one: declarations outside functions stand before all functions in the tests' programs.
fn around_behind(around: Around, node: NodeRef<'_>) -> Around {
    match node {
        NodeRef::Function(_) => Around {
            in_function: true,
            storage: Storage::Nothing,
        },
        NodeRef::Decl(declaration) => Around {
            in_function: around.in_function,
            storage: declaration.storage,
        },
        _ => around,
    }
}

/// The number of the function main, if it is this node.
fn main_at(node: NodeRef<'_>, n: u32) -> Option<u32> {
    match node {
        NodeRef::Function(function) => {
            if function.name.as_bytes() == b"main".as_slice() {
                Some(n)
            } else {
                None
            }
        }
        _ => None,
    }
}

/// What the names of a program mean.
pub(crate) fn names_of(
    alloc: Global,
    program: &Program,
    table: &Table,
) -> Result<Names, AllocError> {
    let mut names = no_names(alloc);
    let mut around = Around {
        in_function: false,
        storage: Storage::Nothing,
    };
    for n in 0..program.count() {
        let Some(node) = program.node(NodeId(n)) else {
            return Err(AllocError);
        };
        around = around_behind(around, node);
        note_expression(program, table, node, &mut names)?;
        names.automatic.push(is_automatic(around, node))?;
        names.constants.push(match node {
            NodeRef::Stmt(Stmt::Case(e)) => constant(e),
            _ => 0,
        })?;
        if let Some(main) = main_at(node, n) {
            names.main = main;
        }
    }
    Ok(names)
}

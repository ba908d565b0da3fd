use base_core::{Lexeme, NoMemory};
use c_constants::Names;
use c_environment::{DeclaredType, Entity, Environment, Members};
use c_kinds::{CType, Types, Word};
use c_tree::{Qual, Quals, SpecWord, Storage};
use posix_table::{Table, profile};
use sqlite_items::Items;
use std::alloc::{AllocError, Global};
use std::test::Fail;

/// A test that fails where there is not enough memory.
type Answer = Result<bool, AllocError>;

fn int() -> DeclaredType {
    DeclaredType::simple(CType::Int(32, true))
}

fn lexeme(alloc: Global, bytes: &[u8]) -> Result<Lexeme, AllocError> {
    match Lexeme::new(alloc, bytes) {
        Ok(lexeme) => Ok(lexeme),
        Err(NoMemory) => Err(AllocError),
    }
}

/// The table of library functions.
fn library(alloc: Global) -> Result<Table, AllocError> {
    match profile(alloc) {
        Ok(table) => Ok(table),
        Err(NoMemory) => Err(AllocError),
    }
}

/// What the number of the variable is, that the name stands for.
fn variable(env: &Environment, name: &[u8]) -> Option<u32> {
    match env.entity(name) {
        Some(Entity::Variable(variable)) => Some(variable.number),
        _ => None,
    }
}

fn is_library_function(env: &Environment, name: &[u8]) -> bool {
    matches!(env.entity(name), Some(Entity::Library(_)))
}

/// Whether the outermost word of the type is this.
fn has_word(of: &DeclaredType, word: Word) -> bool {
    of.kind.word().is(word)
}

/// Whether the member of the structure of this tag has this word.
fn has_member(env: &Environment, tag: &[u8], name: &[u8], word: Word) -> bool {
    let Some(Some(number)) = env.tag(tag) else {
        return false;
    };
    let Some(structure) = env.structure(number) else {
        return false;
    };
    match structure.members.member(name) {
        Some(kind) => structure.complete && kind.word().is(word),
        None => false,
    }
}

/// Whether the names of the implementation stand around the unit.
fn is_start(env: &Environment) -> bool {
    let is_atomic = match env.entity(b"sig_atomic_t") {
        Some(Entity::TypeName(of)) => of.atomic,
        _ => false,
    };
    is_atomic
        && is_library_function(env, b"write")
        && env.is_reserved(b"write")
        && !env.is_declared_here(b"write")
        && env.value(b"INT_MAX") == Some(2147483647)
        && env.value(b"NULL") == Some(0)
        && env.value(b"EINTR").is_none()
        && env.value(b"write").is_none()
        && has_member(env, b"sigaction", b"sa_handler", Word::FnPtr)
        && has_member(env, b"sigaction", b"sa_mask", Word::Set)
        && env.tag_here(b"sigaction").is_none()
        && env.at_file_scope()
}

/// Whether a variable hides a library function and a variable of the block around, until its block ends.
fn hides(env: &mut Environment) -> Answer {
    env.with_variable(b"x", int(), true)?;
    env.entered()?;
    env.with_variable(b"write", int(), false)?;
    env.with_variable(b"x", int(), false)?;
    let inside = variable(env, b"write") == Some(1) && variable(env, b"x") == Some(2);
    env.left();
    Ok(inside && is_library_function(env, b"write") && variable(env, b"x") == Some(0))
}

/// A char of the name m.
fn one_member<'a>(alloc: Global) -> Result<Members<'a>, AllocError> {
    let mut members = Members::new(alloc);
    members.with_member(b"m", CType::Int(8, true))?;
    Ok(members)
}

fn is_complete(env: &Environment, tag: Option<Option<u32>>) -> bool {
    let Some(Some(number)) = tag else {
        return false;
    };
    match env.structure(number) {
        Some(structure) => structure.complete,
        None => false,
    }
}

/// Whether members of the structure have begun.
fn has_begun(env: &Environment, number: u32) -> bool {
    match env.structure(number) {
        Some(structure) => structure.begun && !structure.complete,
        None => false,
    }
}

/// Whether members begin behind a tag that was declared alone, and not before.
fn members_begin<'a>(env: &mut Environment<'a>, tag: &'a Option<Lexeme>) -> Answer {
    env.entered()?;
    env.with_tag_alone(b"s")?;
    let number = env.defined_structure(tag)?;
    let before = has_begun(env, number);
    env.opened(tag)?;
    let same = env.defined_structure(tag)? == number;
    let behind = has_begun(env, number);
    env.left();
    Ok(!before && same && behind)
}

/// Whether a tag with braces in a block is another structure than that of the same tag around, and a tag alone the same.
fn tags_stand_apart<'a>(
    alloc: Global,
    env: &mut Environment<'a>,
    tag: &'a Option<Lexeme>,
) -> Answer {
    let known = env.tag(b"s");
    env.mentioned(b"s", known)?;
    let around = env.tag(b"s");
    env.entered()?;
    let known = env.tag(b"s");
    env.mentioned(b"s", known)?;
    let same = env.tag(b"s") == around;
    env.opened(tag)?;
    let number = env.defined_structure(tag)?;
    env.completed(number, one_member(alloc)?);
    let inside = env.tag(b"s");
    let known = is_complete(env, inside) && has_member(env, b"s", b"m", Word::Int);
    env.left();
    Ok(same && known && inside != around && env.tag(b"s") == around && !is_complete(env, around))
}

/// A type of functions.
fn function() -> DeclaredType {
    let mut of = int();
    of.is_function = true;
    of
}

/// Whether an object that is `extern` in a block, and declared at file scope then, is one; and so a function.
fn is_linked(env: &mut Environment) -> Answer {
    env.within_function(Some(0));
    env.entered()?;
    env.with_name(Storage::Extern, b"y", int())?;
    env.with_name(Storage::Nothing, b"f", function())?;
    let y = env.number(b"y");
    let f = env.number(b"f");
    env.left();
    env.within_function(None);
    let ended = env.number(b"y").is_none() && env.number(b"f").is_none();
    env.with_name(Storage::Nothing, b"y", int())?;
    env.entered()?;
    env.with_function_around(b"f", function())?;
    env.left();
    Ok(ended && y.is_some() && f.is_some() && env.number(b"y") == y && env.number(b"f") == f)
}

/// Whether enumerators have their values.
fn has_values(env: &mut Environment) -> Answer {
    env.with_entity(b"RED", Entity::Enumerator(Some(-7)))?;
    env.with_entity(b"BLUE", Entity::Enumerator(None))?;
    env.with_entity(b"count", Entity::TypeName(int()))?;
    Ok(
        env.value(b"RED") == Some(-7)
            && env.value(b"BLUE").is_none()
            && env.value(b"count").is_none()
            && env.value(b"SIGINT") == Some(9),
    )
}

/// A star with these qualifiers.
fn star(alloc: Global, quals: &[Qual]) -> Result<Items<Quals>, AllocError> {
    let quals = Items::from_slice(alloc, quals)?;
    let mut stars = Items::new(alloc);
    stars.push(quals)?;
    Ok(stars)
}

/// The type `const char`.
fn const_char(env: &Environment) -> Result<DeclaredType, AllocError> {
    env.specified(&[SpecWord::Const, SpecWord::Char])
}

/// Whether a pointer is const, to const char with a star that has these qualifiers.
fn is_const_pointer(alloc: Global, env: &Environment, quals: &[Qual]) -> Answer {
    let stars = star(alloc, quals)?;
    let of = const_char(env)?.pointed(alloc, stars.as_slice())?;
    Ok(has_word(&of, Word::Ptr) && of.constant)
}

/// Whether const qualifies what it stands at: the char of `const char *p`, and the pointer of `const char *const p`.
fn qualifies_its_place(alloc: Global, env: &Environment) -> Answer {
    let of_char = const_char(env)?.constant;
    let plain = is_const_pointer(alloc, env, &[])?;
    let constant = is_const_pointer(alloc, env, &[Qual::Const])?;
    Ok(of_char && !plain && constant)
}

/// The type that this name stands for, which is volatile here.
fn volatile_type(
    alloc: Global,
    env: &Environment,
    name: &[u8],
) -> Result<DeclaredType, AllocError> {
    let mut words = Vec::new(alloc);
    words.push(SpecWord::Volatile)?;
    words.push(SpecWord::TypeName(lexeme(alloc, name)?))?;
    env.specified(words.as_slice())
}

/// `typedef int row[];` and `typedef sig_atomic_t flag;`
fn with_typedefs(alloc: Global, env: &mut Environment) -> Result<(), AllocError> {
    let row = int().arrayed(alloc, &[None])?;
    env.with_name(Storage::Typedef, b"row", row)?;
    let flag = volatile_type(alloc, env, b"sig_atomic_t")?;
    env.with_name(Storage::Typedef, b"flag", flag)
}

/// Whether `row` has no size, a parameter of the type `row` is a pointer without its qualifiers, and `flag` is volatile and sig_atomic_t.
fn typedefs_stand_for_types(alloc: Global, env: &mut Environment) -> Answer {
    with_typedefs(alloc, env)?;
    let row = volatile_type(alloc, env, b"row")?;
    let is_open = has_word(&row, Word::Array) && row.is_open;
    let pointer = volatile_type(alloc, env, b"row")?.adjusted()?;
    let adjusted = has_word(&pointer, Word::Ptr) && !pointer.is_open && !pointer.volatile;
    let flag = volatile_type(alloc, env, b"flag")?;
    Ok(is_open && adjusted && flag.atomic && flag.volatile && !flag.constant)
}

/// Whether `void (*table[2])(int)` is an array of pointers to functions.
fn functions_stand_in_arrays(alloc: Global) -> Answer {
    let mut parameters = Vec::new(alloc);
    parameters.push(CType::Int(32, true))?;
    let parameters = Types::new(alloc, parameters)?;
    let of = DeclaredType::simple(CType::Void);
    let table = of.pointer_type(alloc, &[], &[None], parameters)?;
    Ok(match table.kind.target() {
        Some(element) => {
            has_word(&table, Word::Array) && element.has_signature(&[Word::Int], Word::Void)
        }
        None => false,
    })
}

/// Whether all of it is so, one after the other.
fn follows<'a>(alloc: Global, env: &mut Environment<'a>, tag: &'a Option<Lexeme>) -> Answer {
    Ok(
        is_start(env)
            && hides(env)?
            && tags_stand_apart(alloc, env, tag)?
            && members_begin(env, tag)?
            && is_linked(env)?
            && has_values(env)?
            && qualifies_its_place(alloc, env)?
            && typedefs_stand_for_types(alloc, env)?
            && functions_stand_in_arrays(alloc)?,
    )
}

#[test]
fn names_and_types_follow_the_declarations(rt: HostRuntime) -> Result<(), Fail> {
    let alloc = rt.alloc();
    let tag = Some(lexeme(alloc, b"s")?);
    let table = library(alloc)?;
    let mut env = Environment::start(alloc, &table, &[])?;
    assert!(rt; follows(alloc, &mut env, &tag)?);
    Ok(())
}

//! Texts with their tokens or their fault, worked out by hand. A token is shown as the letter of its class, its bytes
//! and its place; `.` is the end of the text. A byte past 127 is shown as its code.

use base_core::{Class, MOST_BYTES, Place};
use c_lexer::{LexFault, Tokens, scan};
use std::alloc::{AllocError, Global};

const BLANKS_AND_COMMENTS: [(&[u8], &str); 29] = [
    (b"", ".@1:1"),
    (b" \t\x0b\x0c\r\n", ".@2:1"),
    (b"\x0c\x0ba\r b", "n:a@1:3 n:b@1:6 .@1:7"),
    (b"a\n\n  b\n", "n:a@1:1 n:b@3:3 .@4:1"),
    (b"a\r\nb", "n:a@1:1 n:b@2:1 .@2:2"),
    (b"a/**/b", "n:a@1:1 n:b@1:6 .@1:7"),
    (b"/*/", "OpenComment@1:1"),
    (b"/*/ */x", "n:x@1:7 .@1:8"),
    (b"/***/x", "n:x@1:6 .@1:7"),
    (b"/*//*/ x", "n:x@1:8 .@1:9"),
    (b"*/", "p:*@1:1 p:/@1:2 .@1:3"),
    (b"x\n /* a", "OpenComment@2:2"),
    (b"/* \\\n", "OpenComment@1:1"),
    (b"/* \\\n */", "BadByte@1:4"),
    (b"/*\n\\\\\n*/", "BadByte@2:2"),
    (b"/* \\n \\*/x", "n:x@1:10 .@1:11"),
    (b"/*\n\n*/ x", "n:x@3:4 .@3:5"),
    (b"/* \xff \xc3\xa9 */x", "n:x@1:11 .@1:12"),
    (b"// a\nb", "n:b@2:1 .@2:2"),
    (b"//", ".@1:3"),
    (b"// \xff /* \"", ".@1:10"),
    (b"// \\", ".@1:5"),
    (b"// \\\nb", "BadByte@1:4"),
    (b"//\\ \nb", "n:b@2:1 .@2:2"),
    (b"//\\\r\nb", "n:b@2:1 .@2:2"),
    (b"1/2", "i:1@1:1 p:/@1:2 i:2@1:3 .@1:4"),
    (b"a \\\nb", "BadByte@1:3"),
    (b"a\\b", "BadByte@1:2"),
    (b"a\xc3\xa9", "BadByte@1:2"),
];

const WORDS_AND_SIGNS: [(&[u8], &str); 21] = [
    (b"int x;", "k:int@1:1 n:x@1:5 p:;@1:6 .@1:7"),
    (b"_a9 A", "n:_a9@1:1 n:A@1:5 .@1:6"),
    (
        b"ints in_t whiles",
        "n:ints@1:1 n:in_t@1:6 n:whiles@1:11 .@1:17",
    ),
    (b"while volatile", "k:while@1:1 k:volatile@1:7 .@1:15"),
    (
        b"inline _Bool _Thread_local auto",
        "k:inline@1:1 k:_Bool@1:8 k:_Thread_local@1:14 k:auto@1:28 .@1:32",
    ),
    (b"a1b'c'", "n:a1b@1:1 c:'c'@1:4 .@1:7"),
    (b"a+++b", "n:a@1:1 p:++@1:2 p:+@1:4 n:b@1:5 .@1:6"),
    (b">>=", "p:>>=@1:1 .@1:4"),
    (b">> =", "p:>>@1:1 p:=@1:4 .@1:5"),
    (b">>>=", "p:>>@1:1 p:>=@1:3 .@1:5"),
    (b"<<=<=<-", "p:<<=@1:1 p:<=@1:4 p:<@1:6 p:-@1:7 .@1:8"),
    (b"->--=", "p:->@1:1 p:--@1:3 p:=@1:5 .@1:6"),
    (b"...", "p:.@1:1 p:.@1:2 p:.@1:3 .@1:4"),
    (
        b"&&&||=|",
        "p:&&@1:1 p:&@1:3 p:||@1:4 p:=@1:6 p:|@1:7 .@1:8",
    ),
    (
        b"!==*=/=%=^=",
        "p:!=@1:1 p:=@1:3 p:*=@1:4 p:/=@1:6 p:%=@1:8 p:^=@1:10 .@1:12",
    ),
    (
        b"+=-=&=|===",
        "p:+=@1:1 p:-=@1:3 p:&=@1:5 p:|=@1:7 p:==@1:9 .@1:11",
    ),
    (
        b"{}()[];,~?:!",
        "p:{@1:1 p:}@1:2 p:(@1:3 p:)@1:4 p:[@1:5 p:]@1:6 p:;@1:7 p:,@1:8 p:~@1:9 p:?@1:10 p::@1:11 p:!@1:12 .@1:13",
    ),
    (b"a $", "BadByte@1:3"),
    (b"`", "BadByte@1:1"),
    (b"x\0", "BadByte@1:2"),
    (b"@ 'a", "BadByte@1:1"),
];

const INTEGERS: [(&[u8], &str); 31] = [
    (b"0", "i:0@1:1 .@1:2"),
    (b"007 10", "i:007@1:1 i:10@1:5 .@1:7"),
    (b"08", "BadByte@1:2"),
    (b"0x", "BadByte@1:2"),
    (b"0xg", "BadByte@1:2"),
    (b"0x1g", "BadByte@1:4"),
    (b"0XfF9", "i:0XfF9@1:1 .@1:6"),
    (b"0b1", "BadByte@1:2"),
    (b"1.5", "BadByte@1:2"),
    (b"1_", "BadByte@1:2"),
    (b"1 .5", "i:1@1:1 p:.@1:3 i:5@1:4 .@1:5"),
    (b"1-2", "i:1@1:1 p:-@1:2 i:2@1:3 .@1:4"),
    (
        b"1u 1U 1l 1L 1ll 1LL",
        "i:1u@1:1 i:1U@1:4 i:1l@1:7 i:1L@1:10 i:1ll@1:13 i:1LL@1:17 .@1:20",
    ),
    (
        b"1ul 1uL 1Ull 1uLL 1lu 1Lu 1llU 1LLu",
        "i:1ul@1:1 i:1uL@1:5 i:1Ull@1:9 i:1uLL@1:14 i:1lu@1:19 i:1Lu@1:23 i:1llU@1:27 i:1LLu@1:32 .@1:36",
    ),
    (b"0u 0x0LL 00l", "i:0u@1:1 i:0x0LL@1:4 i:00l@1:10 .@1:13"),
    (b"1lL", "BadByte@1:3"),
    (b"1uu", "BadByte@1:3"),
    (b"1lul", "BadByte@1:4"),
    (b"1lll", "BadByte@1:4"),
    (b"1ulu", "BadByte@1:4"),
    (b"1f", "BadByte@1:2"),
    (b"1e5", "BadByte@1:2"),
    (b"18446744073709551615", "i:18446744073709551615@1:1 .@1:21"),
    (b" 18446744073709551616", "NumberTooLarge@1:2"),
    (b"0xffffffffffffffff", "i:0xffffffffffffffff@1:1 .@1:19"),
    (b"0x10000000000000000", "NumberTooLarge@1:1"),
    (
        b"0x00000000000000000001",
        "i:0x00000000000000000001@1:1 .@1:23",
    ),
    (
        b"01777777777777777777777",
        "i:01777777777777777777777@1:1 .@1:24",
    ),
    (b"02000000000000000000000", "NumberTooLarge@1:1"),
    (b"99999999999999999999x", "NumberTooLarge@1:1"),
    (b"0x1g 08", "BadByte@1:4"),
];

const CHARACTERS: [(&[u8], &str); 28] = [
    (b"'a' 'ab", "OpenLiteral@1:5"),
    (b"''", "OpenLiteral@1:1"),
    (b" '", "OpenLiteral@1:2"),
    (b"'\n'", "OpenLiteral@1:1"),
    (b"'\xe9'", "OpenLiteral@1:1"),
    (b"'\0'", "c:'\0'@1:1 .@1:4"),
    (b"'\"'", "c:'\"'@1:1 .@1:4"),
    (
        b"'\\'' '\\\"' '\\?' '\\\\'",
        "c:'\\''@1:1 c:'\\\"'@1:6 c:'\\?'@1:11 c:'\\\\'@1:16 .@1:20",
    ),
    (
        b"'\\a''\\b''\\f''\\n''\\r''\\t''\\v'",
        "c:'\\a'@1:1 c:'\\b'@1:5 c:'\\f'@1:9 c:'\\n'@1:13 c:'\\r'@1:17 c:'\\t'@1:21 c:'\\v'@1:25 .@1:29",
    ),
    (
        b"'\\0' '\\12' '\\377'",
        "c:'\\0'@1:1 c:'\\12'@1:6 c:'\\377'@1:12 .@1:18",
    ),
    (b"'\\400'", "NumberTooLarge@1:1"),
    (b"'\\777", "OpenLiteral@1:1"),
    (b"'\\1234'", "OpenLiteral@1:1"),
    (b"'\\18'", "OpenLiteral@1:1"),
    (b"'\\8'", "BadByte@1:2"),
    (
        b"'\\x41' '\\xfF' '\\x0000ff'",
        "c:'\\x41'@1:1 c:'\\xfF'@1:8 c:'\\x0000ff'@1:15 .@1:25",
    ),
    (b"'\\x100'", "NumberTooLarge@1:1"),
    (b"'\\xfffffffffffffffffffff'", "NumberTooLarge@1:1"),
    (b"'\\xfffffffffffffffffffff", "OpenLiteral@1:1"),
    (b"'\\x'", "BadByte@1:2"),
    (b"'\\xg'", "BadByte@1:2"),
    (b"'\\q'", "BadByte@1:2"),
    (b"'\\", "BadByte@1:2"),
    (b"'\\\n'", "BadByte@1:2"),
    (b"'a'b", "c:'a'@1:1 n:b@1:4 .@1:5"),
    (b"'a'1", "c:'a'@1:1 i:1@1:4 .@1:5"),
    (b"L'a'", "n:L@1:1 c:'a'@1:2 .@1:5"),
    (b"'ab @", "OpenLiteral@1:1"),
];

const STRINGS: [(&[u8], &str); 21] = [
    (b"\"\"", "t:\"\"@1:1 .@1:3"),
    (b"\"a\"b", "t:\"a\"@1:1 n:b@1:4 .@1:5"),
    (b"\"a\"\"b\"", "t:\"a\"@1:1 t:\"b\"@1:4 .@1:7"),
    (b"\"a", "OpenLiteral@1:1"),
    (b"\n \"a\nb\"", "OpenLiteral@2:2"),
    (b"\"\\", "OpenLiteral@1:1"),
    (b"\"\\\n\"", "OpenLiteral@1:1"),
    (b"\"\\\"", "OpenLiteral@1:1"),
    (b"\"\\\\\"", "t:\"\\\\\"@1:1 .@1:5"),
    (b"\"\\'\\\"\\?\\n\"", "t:\"\\'\\\"\\?\\n\"@1:1 .@1:11"),
    (b"\"\\q\"", "BadByte@1:2"),
    (b"\"\\q", "OpenLiteral@1:1"),
    (b"\"\\q\\400\"", "NumberTooLarge@1:1"),
    (b"x \"ab\\q\\z\"", "BadByte@1:6"),
    (b"\"\\x\" 1", "BadByte@1:2"),
    (b"\"\\x\\\"", "OpenLiteral@1:1"),
    (b"\"\\x41g\\1234\"", "t:\"\\x41g\\1234\"@1:1 .@1:13"),
    (b"\"\\\\x\\\\q\"", "t:\"\\\\x\\\\q\"@1:1 .@1:9"),
    (b"\"a\\x100\"", "NumberTooLarge@1:1"),
    (b"\"\xff\xc3\xa9\"", "t:\"<255><195><169>\"@1:1 .@1:6"),
    (b"\"'/*//\\t\"", "t:\"'/*//\\t\"@1:1 .@1:10"),
];

const DIRECTIVES: [(&[u8], &str); 45] = [
    (b"#include <stdio.h>", ".@1:19"),
    (b" # include<sys/wait.h> \t\nx", "n:x@2:1 .@2:2"),
    (b"#\x0cinclude\x0b<time.h>", ".@1:19"),
    (b"#include <stdio.h>\r\n", ".@2:1"),
    (
        b"\n\t#include <arpa/inet.h>\n#include <unistd.h>\n",
        ".@4:1",
    ),
    (b"#include \"stdio.h\"", "Directive@1:1"),
    (b"#include <stdio.h> // a", "Directive@1:1"),
    (b"#include <stdio.h> x", "Directive@1:1"),
    (b"#include <math.h>", "Directive@1:1"),
    (b"#include <stdio.hh>", "Directive@1:1"),
    (b"#include <STDIO.h>", "Directive@1:1"),
    (b"#include < stdio.h>", "Directive@1:1"),
    (b"#include <stdio.h >", "Directive@1:1"),
    (b"#include <stdio.h", "Directive@1:1"),
    (b"#include <>", "Directive@1:1"),
    (b"#include", "Directive@1:1"),
    (b"#includes <stdio.h>", "Directive@1:1"),
    (b"#inc lude <stdio.h>", "Directive@1:1"),
    (b"#", "Directive@1:1"),
    (b"int x;\n  #define A", "Directive@2:3"),
    (b"#line 1 \"a\"", "Directive@1:1"),
    (b"a #include <stdio.h>", "BadByte@1:3"),
    (b"/**/ #include <time.h>", "BadByte@1:6"),
    (b"/*\n*/#", "BadByte@2:3"),
    (b"//\n#include <time.h>", ".@2:18"),
    (b"# 7 \"a.c\"\nx", "n:x@1/7:1 .@1/7:2"),
    (b"#12\"b\"1 2 34\ny", "n:y@1/12:1 .@1/12:2"),
    (b"# 1 \"a\"\n# 5 \"b\" 1\n# 9 \"a\"\nz", "n:z@1/9:1 .@1/9:2"),
    (b"# 1 \"a\"\n# 1 \"b\"\nx", "n:x@2/1:1 .@2/1:2"),
    (b"# 0 \"\"\nx", "n:x@1/0:1 .@1/0:2"),
    (b"# 3 \"a\"", ".@1:8"),
    (b"# 3 \"a\"\n", ".@1/3:1"),
    (b"# 3 \"a\"\n\n q", "n:q@1/4:2 .@1/4:3"),
    (b"# 3 \"a\"\n#", "Directive@1/3:1"),
    (b"# 123456789 \"a\"\n@", "BadByte@1/123456789:1"),
    (b"# 1234567890 \"a\"", "Directive@1:1"),
    (b"# 0000000001 \"a\"", "Directive@1:1"),
    (b"# 000000001 \"a\"\nx", "n:x@1/1:1 .@1/1:2"),
    (b"# \"a\"", "Directive@1:1"),
    (b"# 1 2 \"a\"", "Directive@1:1"),
    (b"# 1 \"a\" x", "Directive@1:1"),
    (b"# 1 \"a\\b\"", "Directive@1:1"),
    (b"# 1 \"a", "Directive@1:1"),
    (b"# 1 \"\xff\"", "Directive@1:1"),
    (b"# 1 \"\xc3\xa9\" 2\t3 \nx", "n:x@1/1:1 .@1/1:2"),
];

fn letter(class: Class) -> char {
    match class {
        Class::Keyword => 'k',
        Class::Name => 'n',
        Class::Integer => 'i',
        Class::Character => 'c',
        Class::Text => 't',
        Class::Punctuator => 'p',
    }
}

fn push_place(out: &mut String, place: Place) -> Result<(), AllocError> {
    let Place { file, line, column } = place;
    if file == 0 {
        write!(out, "@{line}:{column}")
    } else {
        write!(out, "@{file}/{line}:{column}")
    }
}

fn push_bytes(out: &mut String, bytes: &[u8]) -> Result<(), AllocError> {
    for b in bytes {
        if *b < 128 {
            out.push(char::from(*b))?;
        } else {
            write!(out, "<{b}>")?;
        }
    }
    Ok(())
}

fn push_tokens(out: &mut String, tokens: &Tokens) -> Result<(), AllocError> {
    for (k, token) in tokens.as_slice().iter().enumerate() {
        let letter = letter(token.class);
        write!(out, "{letter}:")?;
        push_bytes(out, token.lexeme.as_bytes())?;
        push_place(out, tokens.place(k))?;
        out.push(' ')?;
    }
    out.push('.')?;
    push_place(out, tokens.place(tokens.len()))
}

fn push_fault(out: &mut String, fault: LexFault) -> Result<(), AllocError> {
    let Some(place) = fault.place() else {
        return Err(AllocError);
    };
    out.push_str(fault.kind())?;
    push_place(out, place)
}

fn shown(alloc: Global, text: &[u8]) -> Result<String, AllocError> {
    let mut out = String::new(alloc);
    if text.len() > MOST_BYTES as usize {
        return Ok(out);
    }
    match scan(alloc, text) {
        Ok(tokens) => push_tokens(&mut out, &tokens)?,
        Err(fault) => push_fault(&mut out, fault)?,
    }
    Ok(out)
}

/// The first text that is shown otherwise.
fn wrong<'a>(alloc: Global, cases: &[(&'a [u8], &str)]) -> Result<Option<&'a [u8]>, AllocError> {
    for (text, want) in cases {
        let out = shown(alloc, text)?;
        if out.as_str() != *want {
            return Ok(Some(text));
        }
    }
    Ok(None)
}

#[test]
fn texts(rt: HostRuntime) -> Result<(), AllocError> {
    for cases in [
        BLANKS_AND_COMMENTS.as_slice(),
        WORDS_AND_SIGNS.as_slice(),
        INTEGERS.as_slice(),
        CHARACTERS.as_slice(),
        STRINGS.as_slice(),
        DIRECTIVES.as_slice(),
    ] {
        assert!(rt; wrong(rt.alloc(), cases)?.is_none());
    }
    Ok(())
}

fn has_two_files(tokens: &Tokens) -> bool {
    tokens.len() == 1
        && tokens.token(0).is_some()
        && tokens.token(1).is_none()
        && tokens.file(0).is_none()
        && tokens.file(1) == Some("a.c")
        && tokens.file(2) == Some("b.h")
        && tokens.file(3).is_none()
}

#[test]
fn files(rt: HostRuntime) -> Result<(), LexFault> {
    let tokens = scan(
        rt.alloc(),
        b"# 1 \"a.c\"\nx\n# 7 \"b.h\" 1\n# 2 \"a.c\" 2\n",
    )?;
    assert!(rt; has_two_files(&tokens));
    Ok(())
}

//! Constant expressions, each with its type and value behind an arrow, or `none` where it has no value that C defines and that lies
//! within 64 bits with a sign. unsigned is unsigned int, ulong unsigned long.

/// All of them.
pub(crate) const GROUPS: [&str; 13] = [
    INTEGERS,
    SUFFIXES,
    CHARACTERS,
    UNARY,
    SUMS,
    PRODUCTS,
    SHIFTS,
    BITS,
    COMPARISONS,
    LOGIC,
    CHOICES,
    NAMES,
    OTHERS,
];

/// Integer constants (C11 6.4.4.1).
const INTEGERS: &str = "\
0 => int 0\n\
00 => int 0\n\
42 => int 42\n\
2147483647 => int 2147483647\n\
2147483648 => long 2147483648\n\
4294967295 => long 4294967295\n\
4294967296 => long 4294967296\n\
9223372036854775807 => long 9223372036854775807\n\
9223372036854775808 => none\n\
18446744073709551615 => none\n\
18446744073709551615u => none\n\
0x7fffffff => int 2147483647\n\
0x80000000 => unsigned 2147483648\n\
0xFFFFFFFF => unsigned 4294967295\n\
0X100000000 => long 4294967296\n\
0x7fffffffffffffff => long 9223372036854775807\n\
0x8000000000000000 => none\n\
017 => int 15\n\
037777777777 => unsigned 4294967295\n\
040000000000 => long 4294967296";

/// Their suffixes.
const SUFFIXES: &str = "\
1u => unsigned 1\n\
1U => unsigned 1\n\
4294967296u => ulong 4294967296\n\
1l => long 1\n\
1LL => long 1\n\
1ul => ulong 1\n\
1LU => ulong 1\n\
1uLL => ulong 1\n\
1llu => ulong 1\n\
0xffl => long 255\n\
0xfUL => ulong 15\n\
017L => long 15";

/// Character constants (6.4.4.4).
const CHARACTERS: &str = "\
'a' => int 97\n\
'0' => int 48\n\
'\"' => int 34\n\
'\\0' => int 0\n\
'\\a' => int 7\n\
'\\b' => int 8\n\
'\\t' => int 9\n\
'\\n' => int 10\n\
'\\v' => int 11\n\
'\\f' => int 12\n\
'\\r' => int 13\n\
'\\\\' => int 92\n\
'\\'' => int 39\n\
'\\\"' => int 34\n\
'\\?' => int 63\n\
'\\7' => int 7\n\
'\\177' => int 127\n\
'\\200' => int -128\n\
'\\377' => int -1\n\
'\\x41' => int 65\n\
'\\x0000041' => int 65\n\
'\\xff' => int -1";

/// Unary operators (6.5.3.3).
const UNARY: &str = "\
+1 => int 1\n\
+'a' => int 97\n\
-1 => int -1\n\
-2147483647 => int -2147483647\n\
-2147483648 => long -2147483648\n\
-(-2147483647 - 1) => none\n\
-0x80000000 => unsigned 2147483648\n\
-1u => unsigned 4294967295\n\
-1ul => none\n\
-0ul => ulong 0\n\
-9223372036854775807 => long -9223372036854775807\n\
-9223372036854775808 => none\n\
~0 => int -1\n\
~-1 => int 0\n\
~5 & 15 => int 10\n\
~0u => unsigned 4294967295\n\
~0l => long -1\n\
~0ul => none\n\
!0 => int 1\n\
!5 => int 0\n\
!-1 => int 0\n\
!'\\0' => int 1\n\
!0ul => int 1";

/// Sums and differences (6.5.6).
const SUMS: &str = "\
1 + 2 => int 3\n\
2147483647 + 1 => none\n\
m + 1 => none\n\
m + 1u => unsigned 2147483648\n\
m + 1l => long 2147483648\n\
4294967295u + 1u => unsigned 0\n\
4294967295u + 1l => long 4294967296\n\
0x7fffffffffffffff + 1 => none\n\
0x7fffffffffffffff + 1u => none\n\
0x7fffffffffffffff + 1ul => none\n\
-1 + 1ul => ulong 0\n\
'a' - 'b' => int -1\n\
0u - 1 => unsigned 4294967295\n\
10 - 4 - 3 => int 3\n\
-2147483647 - 1 => int -2147483648\n\
-2147483647 - 2 => none\n\
-9223372036854775807 - 1 => long -9223372036854775808\n\
-9223372036854775807 - 2 => none";

/// Products, quotients and remainders (6.5.5).
const PRODUCTS: &str = "\
3 * -5 => int -15\n\
65536 * 65536 => none\n\
46341 * 46341 => none\n\
65536u * 65536u => unsigned 0\n\
65536l * 65536 => long 4294967296\n\
3037000500 * 3037000500 => none\n\
4294967296 * 4294967296 => none\n\
-1 * 1u => unsigned 4294967295\n\
-3 * 0x5555555555555555ul => ulong 1\n\
7 / 2 => int 3\n\
-7 / 2 => int -3\n\
7 / -2 => int -3\n\
7 % 3 => int 1\n\
-7 % 3 => int -1\n\
7 % -3 => int 1\n\
1 / 0 => none\n\
1 % 0 => none\n\
1u / 0 => none\n\
n / -1 => none\n\
n % -1 => none\n\
n / -1l => long 2147483648\n\
(-9223372036854775807 - 1) / -1 => none\n\
(-9223372036854775807 - 1) % -1 => none\n\
-1 / 2u => unsigned 2147483647\n\
-1 / 2ul => ulong 9223372036854775807\n\
-1 % 10u => unsigned 5\n\
-1 % 10ul => ulong 5";

/// Shifts (6.5.7).
const SHIFTS: &str = "\
1 << 0 => int 1\n\
1 << 30 => int 1073741824\n\
1 << 31 => none\n\
1 << 32 => none\n\
1 << -1 => none\n\
-1 << 1 => none\n\
-1 << 0 => none\n\
0 << 31 => int 0\n\
'a' << 1 => int 194\n\
1 << 3ul => int 8\n\
1u << 31 => unsigned 2147483648\n\
3u << 31 => unsigned 2147483648\n\
1u << 32 => none\n\
1l << 62 => long 4611686018427387904\n\
1l << 63 => none\n\
1ul << 62 => ulong 4611686018427387904\n\
1ul << 63 => none\n\
3ul << 63 >> 63 => none\n\
8 >> 1 => int 4\n\
-8 >> 1 => int -4\n\
-7 >> 1 => int -4\n\
-1 >> 31 => int -1\n\
1 >> 32 => none\n\
1 >> -1 => none\n\
1l >> 32 => long 0\n\
0x80000000 >> 31 => unsigned 1";

/// Operators on bits (6.5.10 to 6.5.12).
const BITS: &str = "\
6 & 3 => int 2\n\
6 | 3 => int 7\n\
6 ^ 3 => int 5\n\
-6 & 7 => int 2\n\
-2 | 1 => int -1\n\
-1 ^ 5 => int -6\n\
-1 & 0xff => int 255\n\
-1 & 0xffu => unsigned 255\n\
-1 & 0xffffffff => unsigned 4294967295\n\
-1 & 1ul => ulong 1\n\
-1 | 0l => long -1\n\
-1 ^ 0u => unsigned 4294967295\n\
-1 ^ 0ul => none";

/// Comparisons (6.5.8, 6.5.9).
const COMPARISONS: &str = "\
-1 < 0 => int 1\n\
-1 < 0u => int 0\n\
-1 < 0l => int 1\n\
-1 < 0ul => int 0\n\
-1 > 0u => int 1\n\
-1l < 0u => int 1\n\
-1 == 4294967295u => int 1\n\
-1 == 0xffffffffl => int 0\n\
-1 != 0xffffffff => int 0\n\
2147483648 > 2147483647 => int 1\n\
1 <= 1 => int 1\n\
2 <= 1 => int 0\n\
2 >= 3 => int 0\n\
3 >= 3ul => int 1\n\
1 != 1 => int 0\n\
'a' == 97 => int 1\n\
'\\377' == -1 => int 1";

/// `&&` and `||` (6.5.13, 6.5.14).
const LOGIC: &str = "\
0 && 1/0 => int 0\n\
1 || 1/0 => int 1\n\
1 && 1/0 => none\n\
0 || 1/0 => none\n\
1/0 && 0 => none\n\
1/0 || 1 => none\n\
2 && 3 => int 1\n\
2 && 0 => int 0\n\
0 || 0ul => int 0\n\
0 || -5 => int 1\n\
0 && f() => none\n\
1 || x => none\n\
0 && sizeof(int) => none";

/// The conditional operator (6.5.15).
const CHOICES: &str = "\
1 ? 2 : 3 => int 2\n\
0 ? 2 : 3 => int 3\n\
1 ? 2 : 1/0 => int 2\n\
0 ? 1/0 : 7 => int 7\n\
1 ? 1/0 : 7 => none\n\
1/0 ? 1 : 2 => none\n\
1 ? -1 : 0u => unsigned 4294967295\n\
0 ? -1 : 0u => unsigned 0\n\
1 ? -1 : 0ul => none\n\
0 ? 1ul : -1 => none\n\
1 ? 'a' : 2l => long 97\n\
1 ? 1 : 18446744073709551615u => ulong 1\n\
(1 ? 1 : 0u) - 2 => unsigned 4294967295\n\
1 ? 0 ? 1 : 2 : 3 => int 2\n\
1 ? 2 : x => none\n\
-1 < (0 ? 1u : 0) => int 0";

/// Several operators, and names.
const NAMES: &str = "\
1 + 2 * 3 => int 7\n\
(1 + 2) * 3 => int 9\n\
1 << 2 + 1 => int 8\n\
((t)) => int 3\n\
t => int 3\n\
w * t => int -6\n\
-m - 1 => int -2147483648\n\
n => int -2147483648\n\
-n => none\n\
n - 1l => long -2147483649\n\
x => none\n\
tt => none";

/// What no integer constant expression is made of.
const OTHERS: &str = "\
(int)1 => none\n\
sizeof 1 => none\n\
sizeof(int) => none\n\
(1, 2) => none\n\
(t = 4) => none\n\
t++ => none\n\
--t => none\n\
&t => none\n\
*t => none\n\
t[0] => none\n\
t.t => none\n\
t->t => none\n\
\"a\" => none";

// Texts that are scanned, and printed again as they stood.
use crate::answers::{Answer, answer_to, faults_at, printed_again};
use crate::examples::{EMPTY_FUNCTION, RESULT, SET};
use std::test::Fail;

// Each bound of a number, a function without a body, and a result that isn't kept.
const EDGES: &str = "dcc 1
function h void
function k u64 u64 s32
function _9Z s32
static g 16777216
static G_1 1
body k 2 18446744073709551615
set 18446744073709551614 (sub u64 (reg 0) (u64 18446744073709551615))
return (ne u64 (reg 0) (le s32 (s32 -2147483648) (s32 2147483647)))
end
body _9Z 0 0
trap
end
body .start 0 1
call - h
call - _9Z
call 0 k (obj 0) (obj 5)
call 0 _9Z
check ._.9 (s32 -1)
covers A (obj 1) (load u64 (reg 0))
range 18446744073709551615 (s32 0) (obj 4) (u64 0)
return (s32 0)
end
";

// Each kind as a result, a parameter and the kind of a constant at its ends, and each operator.
const KINDS: &str = "dcc 1
function a bool s8 u8
function b s8 s16 u16
function c u8 s32 u32
function d s16 s64 u64
function e u16 ptr bool
function f s32
function g u32
function h s64
function i u64
function j ptr
body .start 0 2
draw 0 bool
draw 0 ptr
store s8 (obj 1) (add s8 (s8 -128) (s8 127))
store u8 (obj 1) (sub u8 (u8 0) (u8 255))
init s16 (obj 1) (mul s16 (s16 -32768) (s16 32767))
init u16 (obj 1) (div u16 (u16 0) (u16 65535))
set 1 (rem s32 (s32 -2147483648) (s32 2147483647))
set 1 (shl u32 (u32 0) (u32 4294967295))
set 1 (shr s64 (s64 -9223372036854775808) (s64 9223372036854775807))
set 1 (and u64 (u64 0) (u64 18446744073709551615))
set 1 (or bool (bool 0) (bool 1))
set 1 (xor bool (load bool (obj 1)) (load u16 (obj 1)))
require (lt s8 (load s8 (obj 1)) (load s16 (obj 1)))
require (le u8 (load u8 (obj 1)) (load u32 (obj 1)))
require (gt s64 (load s64 (obj 1)) (load s32 (obj 1)))
require (ge u64 (load u64 (obj 1)) (reg 1))
require (eq ptr (ptr 0) (ptr 18446744073709551615))
return (ne ptr (load ptr (obj 1)) (ptr 0))
end
";

// Jumps in two bodies, tests, what is kept, locals that die, and expressions that convert, negate and choose.
const JUMPS: &str = "dcc 1
function f s32 s32
body f 1 2
ifnot (and2 (reg 0) (or2 (s32 0) (lt s32 (reg 0) (s32 9)))) 3
set 0 (if (reg 0) (neg s32 (reg 0)) (not u8 (conv u8 s32 (reg 0))))
goto 0
return (reg 0)
end
body .start 0 1
keep 0 (load s32 (ptr 0))
assume (eq s32 (s32 1) (s32 1))
assert f.assertion.1 (s32 1)
kill 18446744073709551615
call 0 f (s32 1)
goto 4
end
";

// Objects of each sort, their bytes, calls through pointers, and what sets one within the other hold and are asked.
const OBJECTS: &str = "dcc 1
function f void ptr u64
function g s32
static h 16777216
body f 2 6
local 2 16777216 chosen
local 3 1 zero
alloc 4 (reg 1) (u64 4) zero
alloc 5 (u64 18446744073709551615) (u64 0) chosen
copy (reg 4) (reg 2) (mul u64 (reg 1) (u64 4))
fill (at 4 (reg 0) (s64 -1)) (u8 255) (size (reg 0))
probe any (reg 4) (reg 2) (u64 16777216)
probe apart (start (reg 4)) (at 16777216 (reg 0) (reg 1)) (offset (reg 2))
mayfree f.frees.1 (reg 0)
free (reg 0)
callp - (reg 0) (sig void)
callp 5 (obj 2) (sig s32)
callp - (load ptr (obj 3)) (sig ptr ptr u64 bool) (reg 4) (diff 4 (reg 0) (reg 2)) (freed (reg 0))
trap
end
body .start 0 2
statics
objects 4
draw 0 ptr
objects 3
push
range 1 (ok (reg 0) (u64 8)) (reg 0) (u64 8)
target 1 (freeable (reg 0)) (reg 0)
push
range 18446744073709551615 (fresh (obj 3) (u64 1)) (obj 3) (u64 1)
target 18446744073709551615 (new (reg 0) (u64 0)) (reg 0)
inside f.assigns.1 18446744073709551615
havoc
frees
seen
pop
pop
callp 1 (obj 2) (sig u8 s8 s16 u16 s64 u32) (s8 0) (s16 1) (u16 2) (s64 3) (u32 4)
return
end
";

// Quantifiers within another, in its bounds and beside it, and pointers in order.
const CLAIMS: &str = "dcc 1
body .start 0 1
draw 0 ptr
require (inrange (start (reg 0)) (reg 0) (at 1 (start (reg 0)) (size (reg 0))))
check a (forall 0 u64 (u64 0) (diff 1 (reg 0) (ptr 0)) (exists 1 s32 (conv s32 u64 (var 0)) (s32 9) (or2 (eq u64 (var 1) (var 0)) (forall 2 ptr (var 0) (var 1) (ok (var 2) (u64 1))))))
assert b (and2 (exists 0 bool (exists 0 s8 (s8 -128) (s8 127) (var 0)) (forall 0 u16 (u16 0) (u16 1) (ne u16 (var 0) (u16 65535))) (var 0)) (exists 0 u8 (u8 0) (u8 9) (var 0)))
return (offset (reg 0))
end
";

const TEXTS: [&str; 8] = [
    EMPTY_FUNCTION,
    SET,
    RESULT,
    EDGES,
    KINDS,
    JUMPS,
    OBJECTS,
    CLAIMS,
];

#[test]
fn texts(rt: HostRuntime) -> Result<(), Fail> {
    for text in TEXTS {
        let again = printed_again(rt.alloc(), text.as_bytes())?;
        assert_eq!(rt; again.as_slice(), text.as_bytes(), "{text}");
    }
    assert!(rt; faults_at(rt.alloc(), EMPTY_FUNCTION.as_bytes(), 2)?);
    Ok(())
}

// The line that breaks a rule, or is missing, where the empty function's text ends behind that many lines.
const CUT: [u64; 13] = [1, 2, 3, 4, 5, 6, 7, 7, 8, 9, 10, 11, 13];

#[test]
fn cut_texts(rt: HostRuntime) -> Result<(), Fail> {
    let text = EMPTY_FUNCTION.as_bytes();
    let mut lines: usize = 0;
    let mut whole = true;
    for n in 0..text.len() {
        let expected = if whole && lines < CUT.len() {
            Answer::Shape(CUT[lines])
        } else {
            Answer::Line((lines as u64).wrapping_add(1))
        };
        assert_eq!(rt; answer_to(rt.alloc(), &text[..n])?, expected, "{n}");
        whole = text[n] == b'\n';
        if whole && lines < 1000 {
            lines += 1;
        }
    }
    assert_eq!(rt; lines, 13);
    Ok(())
}

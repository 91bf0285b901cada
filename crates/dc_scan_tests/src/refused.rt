// Texts that are refused, and texts beside them that aren't.
use crate::answers::{Answer, answer_to};
use std::test::Fail;

struct Case {
    text: &'static str,
    answer: Answer,
}

// Lines before the first body, and ends.
const FRONTS: [Case; 34] = [
    Case {
        text: "dcc 1 \n",
        answer: Answer::Line(1),
    },
    Case {
        text: "dcc  1\n",
        answer: Answer::Line(1),
    },
    Case {
        text: " dcc 1\n",
        answer: Answer::Line(1),
    },
    Case {
        text: "dcc 2\n",
        answer: Answer::Line(1),
    },
    Case {
        text: "dcc 01\n",
        answer: Answer::Line(1),
    },
    Case {
        text: "dcc\t1\n",
        answer: Answer::Line(1),
    },
    Case {
        text: "dcc 1\r\n",
        answer: Answer::Line(1),
    },
    Case {
        text: "dcc 1",
        answer: Answer::Line(1),
    },
    Case {
        text: "\n",
        answer: Answer::Line(1),
    },
    Case {
        text: "dcc 1\n\n",
        answer: Answer::Line(2),
    },
    Case {
        text: "Dcc 1\n",
        answer: Answer::Line(1),
    },
    Case {
        text: "dcc 1\nfunction f  void\n",
        answer: Answer::Line(2),
    },
    Case {
        text: "dcc 1\nfunction f void \n",
        answer: Answer::Line(2),
    },
    Case {
        text: "dcc 1\nfunction f void s32 \n",
        answer: Answer::Line(2),
    },
    Case {
        text: "dcc 1\nfunction 1f void\n",
        answer: Answer::Line(2),
    },
    Case {
        text: "dcc 1\nfunction .start void\n",
        answer: Answer::Line(2),
    },
    Case {
        text: "dcc 1\nfunction f.g void\n",
        answer: Answer::Line(2),
    },
    Case {
        text: "dcc 1\nfunction f\n",
        answer: Answer::Line(2),
    },
    Case {
        text: "dcc 1\nfunction f s24\n",
        answer: Answer::Line(2),
    },
    Case {
        text: "dcc 1\nfunction f void void\n",
        answer: Answer::Line(2),
    },
    Case {
        text: "dcc 1\nfunction  void\n",
        answer: Answer::Line(2),
    },
    Case {
        text: "dcc 1\nstatic g 04\n",
        answer: Answer::Line(2),
    },
    Case {
        text: "dcc 1\nstatic g -1\n",
        answer: Answer::Line(2),
    },
    Case {
        text: "dcc 1\nstatic g 18446744073709551616\n",
        answer: Answer::Line(2),
    },
    Case {
        text: "dcc 1\nstatic g\n",
        answer: Answer::Line(2),
    },
    Case {
        text: "dcc 1\nstatic g 4 4\n",
        answer: Answer::Line(2),
    },
    Case {
        text: "dcc 1\nstatic g +4\n",
        answer: Answer::Line(2),
    },
    Case {
        text: "dcc 1\nstatic g 4_\n",
        answer: Answer::Line(2),
    },
    Case {
        text: "dcc 1\nbody .stop 0 0\n",
        answer: Answer::Line(2),
    },
    Case {
        text: "dcc 1\nbody f 0\n",
        answer: Answer::Line(2),
    },
    Case {
        text: "dcc 1\nbody f 0 00\n",
        answer: Answer::Line(2),
    },
    Case {
        text: "dcc 1\nend 1\n",
        answer: Answer::Line(2),
    },
    Case {
        text: "dcc 1\nends\n",
        answer: Answer::Line(2),
    },
    Case {
        text: "function f void\nfoo\n",
        answer: Answer::Line(2),
    },
];

// Lines of a body that are no line forms, and one that is.
const LINES: [Case; 44] = [
    Case {
        text: "dcc 1\nbody .start 0 1\nset 0 (u64 02)\nreturn\nend\n",
        answer: Answer::Line(3),
    },
    Case {
        text: "dcc 1\nbody .start 0 1\nset 0 (s32 -0)\nreturn\nend\n",
        answer: Answer::Line(3),
    },
    Case {
        text: "dcc 1\nbody .start 0 1\nset 0 (s32 +1)\nreturn\nend\n",
        answer: Answer::Line(3),
    },
    Case {
        text: "dcc 1\nbody .start 0 1\nset 0 (s32 --1)\nreturn\nend\n",
        answer: Answer::Line(3),
    },
    Case {
        text: "dcc 1\nbody .start 0 1\nset 0 (s32 -)\nreturn\nend\n",
        answer: Answer::Line(3),
    },
    Case {
        text: "dcc 1\nbody .start 0 1\nset 0 (s32 )\nreturn\nend\n",
        answer: Answer::Line(3),
    },
    Case {
        text: "dcc 1\nbody .start 0 1\nset 0 (s32 -170141183460469231731687303715884105729)\nreturn\nend\n",
        answer: Answer::Line(3),
    },
    Case {
        text: "dcc 1\nbody .start 0 1\nset 0 (u64 170141183460469231731687303715884105728)\nreturn\nend\n",
        answer: Answer::Line(3),
    },
    Case {
        text: "dcc 1\nbody .start 0 1\nset 0 (reg 0 )\nreturn\nend\n",
        answer: Answer::Line(3),
    },
    Case {
        text: "dcc 1\nbody .start 0 1\nset 0 ( reg 0)\nreturn\nend\n",
        answer: Answer::Line(3),
    },
    Case {
        text: "dcc 1\nbody .start 0 1\nset 0 (reg  0)\nreturn\nend\n",
        answer: Answer::Line(3),
    },
    Case {
        text: "dcc 1\nbody .start 0 1\nset 0 (reg 0\nreturn\nend\n",
        answer: Answer::Line(3),
    },
    Case {
        text: "dcc 1\nbody .start 0 1\nset 0 (reg 0))\nreturn\nend\n",
        answer: Answer::Line(3),
    },
    Case {
        text: "dcc 1\nbody .start 0 1\nset 0 reg 0\nreturn\nend\n",
        answer: Answer::Line(3),
    },
    Case {
        text: "dcc 1\nbody .start 0 1\nset 0 (add s32 (s32 1)(s32 1))\nreturn\nend\n",
        answer: Answer::Line(3),
    },
    Case {
        text: "dcc 1\nbody .start 0 1\nset 0 (add s32 (s32 1))\nreturn\nend\n",
        answer: Answer::Line(3),
    },
    Case {
        text: "dcc 1\nbody .start 0 1\nset 0 (add s32 (s32 1) (s32 1) (s32 1))\nreturn\nend\n",
        answer: Answer::Line(3),
    },
    Case {
        text: "dcc 1\nbody .start 0 1\nset 0 (add (s32 1) (s32 1))\nreturn\nend\n",
        answer: Answer::Line(3),
    },
    Case {
        text: "dcc 1\nbody .start 0 1\nset 0 (mod s32 (s32 1) (s32 1))\nreturn\nend\n",
        answer: Answer::Line(3),
    },
    Case {
        text: "dcc 1\nbody .start 0 1\nset 0 (s24 1)\nreturn\nend\n",
        answer: Answer::Line(3),
    },
    Case {
        text: "dcc 1\nbody .start 0 1\nset 0 (obj -1)\nreturn\nend\n",
        answer: Answer::Line(3),
    },
    Case {
        text: "dcc 1\nbody .start 0 1\nset 0 (load (obj 1))\nreturn\nend\n",
        answer: Answer::Line(3),
    },
    Case {
        text: "dcc 1\nbody .start 0 1\nset 00 (s32 1)\nreturn\nend\n",
        answer: Answer::Line(3),
    },
    Case {
        text: "dcc 1\nbody .start 0 1\nset - (s32 1)\nreturn\nend\n",
        answer: Answer::Line(3),
    },
    Case {
        text: "dcc 1\nbody .start 0 1\nset 0  (s32 1)\nreturn\nend\n",
        answer: Answer::Line(3),
    },
    Case {
        text: "dcc 1\nbody .start 0 1\nset 0\t(s32 1)\nreturn\nend\n",
        answer: Answer::Line(3),
    },
    Case {
        text: "dcc 1\nbody .start 0 1\nset 0 (s32 1)\r\nreturn\nend\n",
        answer: Answer::Line(3),
    },
    Case {
        text: "dcc 1\nbody .start 0 1\ncall -  f\nreturn\nend\n",
        answer: Answer::Line(3),
    },
    Case {
        text: "dcc 1\nbody .start 0 1\ncall - f \nreturn\nend\n",
        answer: Answer::Line(3),
    },
    Case {
        text: "dcc 1\nbody .start 0 1\ncall -1 f\nreturn\nend\n",
        answer: Answer::Line(3),
    },
    Case {
        text: "dcc 1\nbody .start 0 1\ncall - .start\nreturn\nend\n",
        answer: Answer::Line(3),
    },
    Case {
        text: "dcc 1\nbody .start 0 1\nreturn \nreturn\nend\n",
        answer: Answer::Line(3),
    },
    Case {
        text: "dcc 1\nbody .start 0 1\nreturn (s32 1) \nreturn\nend\n",
        answer: Answer::Line(3),
    },
    Case {
        text: "dcc 1\nbody .start 0 1\nobjects 5\nreturn\nend\n",
        answer: Answer::Line(3),
    },
    Case {
        text: "dcc 1\nbody .start 0 1\nobjects\nreturn\nend\n",
        answer: Answer::Line(3),
    },
    Case {
        text: "dcc 1\nbody .start 0 1\nlocal 0 4 drawn\nreturn\nend\n",
        answer: Answer::Line(3),
    },
    Case {
        text: "dcc 1\nbody .start 0 1\nlocal 0 4\nreturn\nend\n",
        answer: Answer::Line(3),
    },
    Case {
        text: "dcc 1\nbody .start 0 1\ngoto 0\nreturn\nend\n",
        answer: Answer::Scanned,
    },
    Case {
        text: "dcc 1\nbody .start 0 1\nseen 1\nreturn\nend\n",
        answer: Answer::Line(3),
    },
    Case {
        text: "dcc 1\nbody .start 0 1\ncheck a-b (s32 1)\nreturn\nend\n",
        answer: Answer::Line(3),
    },
    Case {
        text: "dcc 1\nbody .start 0 1\ncheck  (s32 1)\nreturn\nend\n",
        answer: Answer::Line(3),
    },
    Case {
        text: "dcc 1\nbody .start 0 1\ncheck a\nreturn\nend\n",
        answer: Answer::Line(3),
    },
    Case {
        text: "dcc 1\nbody .start 0 1\ncovers a (obj 1)\nreturn\nend\n",
        answer: Answer::Line(3),
    },
    Case {
        text: "dcc 1\nbody .start 0 1\ntrap\0\nreturn\nend\n",
        answer: Answer::Line(3),
    },
];

// Constants, registers, objects and sizes at their limits, and lines that stand in the wrong place.
const VALUES: [Case; 52] = [
    Case {
        text: "dcc 1\nbody .start 0 1\nset 0 (s32 -170141183460469231731687303715884105728)\nreturn\nend\n",
        answer: Answer::Shape(3),
    },
    Case {
        text: "dcc 1\nbody .start 0 1\nset 0 (u64 170141183460469231731687303715884105727)\nreturn\nend\n",
        answer: Answer::Shape(3),
    },
    Case {
        text: "dcc 1\nbody .start 0 1\nset 0 (s32 2147483648)\nreturn\nend\n",
        answer: Answer::Shape(3),
    },
    Case {
        text: "dcc 1\nbody .start 0 1\nset 0 (s32 -2147483649)\nreturn\nend\n",
        answer: Answer::Shape(3),
    },
    Case {
        text: "dcc 1\nbody .start 0 1\nset 0 (u64 -1)\nreturn\nend\n",
        answer: Answer::Shape(3),
    },
    Case {
        text: "dcc 1\nbody .start 0 1\nset 0 (u64 18446744073709551616)\nreturn\nend\n",
        answer: Answer::Shape(3),
    },
    Case {
        text: "dcc 1\nbody .start 0 1\nset 0 (bool 2)\nreturn\nend\n",
        answer: Answer::Shape(3),
    },
    Case {
        text: "dcc 1\nbody .start 0 1\nset 0 (bool -1)\nreturn\nend\n",
        answer: Answer::Shape(3),
    },
    Case {
        text: "dcc 1\nbody .start 0 1\nset 0 (s8 128)\nreturn\nend\n",
        answer: Answer::Shape(3),
    },
    Case {
        text: "dcc 1\nbody .start 0 1\nset 0 (s8 -129)\nreturn\nend\n",
        answer: Answer::Shape(3),
    },
    Case {
        text: "dcc 1\nbody .start 0 1\nset 0 (u8 256)\nreturn\nend\n",
        answer: Answer::Shape(3),
    },
    Case {
        text: "dcc 1\nbody .start 0 1\nset 0 (s16 32768)\nreturn\nend\n",
        answer: Answer::Shape(3),
    },
    Case {
        text: "dcc 1\nbody .start 0 1\nset 0 (u16 65536)\nreturn\nend\n",
        answer: Answer::Shape(3),
    },
    Case {
        text: "dcc 1\nbody .start 0 1\nset 0 (u32 4294967296)\nreturn\nend\n",
        answer: Answer::Shape(3),
    },
    Case {
        text: "dcc 1\nbody .start 0 1\nset 0 (s64 9223372036854775808)\nreturn\nend\n",
        answer: Answer::Shape(3),
    },
    Case {
        text: "dcc 1\nbody .start 0 1\nset 0 (ptr -1)\nreturn\nend\n",
        answer: Answer::Shape(3),
    },
    Case {
        text: "dcc 1\nbody .start 0 1\nset 0 (ptr 18446744073709551616)\nreturn\nend\n",
        answer: Answer::Shape(3),
    },
    Case {
        text: "dcc 1\nbody .start 0 1\nset 0 (u1 1)\nreturn\nend\n",
        answer: Answer::Line(3),
    },
    Case {
        text: "dcc 1\nbody .start 0 1\nset 0 (neg s32 (s32 1) (s32 1))\nreturn\nend\n",
        answer: Answer::Line(3),
    },
    Case {
        text: "dcc 1\nbody .start 0 1\nset 0 (sh u8 (u8 1) (u8 1))\nreturn\nend\n",
        answer: Answer::Line(3),
    },
    Case {
        text: "dcc 1\nbody .start 0 1\nset 1 (s32 1)\nreturn\nend\n",
        answer: Answer::Shape(3),
    },
    Case {
        text: "dcc 1\nbody .start 0 1\nset 0 (reg 1)\nreturn\nend\n",
        answer: Answer::Shape(3),
    },
    Case {
        text: "dcc 1\nbody .start 0 1\nset 0 (add s32 (s32 1) (reg 1))\nreturn\nend\n",
        answer: Answer::Shape(3),
    },
    Case {
        text: "dcc 1\nbody .start 0 1\nset 0 (load s32 (reg 1))\nreturn\nend\n",
        answer: Answer::Shape(3),
    },
    Case {
        text: "dcc 1\nbody .start 0 1\nset 0 (obj 1)\nreturn\nend\n",
        answer: Answer::Shape(3),
    },
    Case {
        text: "dcc 1\nbody .start 0 1\nstore s32 (reg 1) (s32 0)\nreturn\nend\n",
        answer: Answer::Shape(3),
    },
    Case {
        text: "dcc 1\nbody .start 0 1\ninit s32 (obj 0) (reg 1)\nreturn\nend\n",
        answer: Answer::Shape(3),
    },
    Case {
        text: "dcc 1\nbody .start 0 1\ndraw 1 s32\nreturn\nend\n",
        answer: Answer::Shape(3),
    },
    Case {
        text: "dcc 1\nbody .start 0 1\nlocal 1 4 zero\nreturn\nend\n",
        answer: Answer::Shape(3),
    },
    Case {
        text: "dcc 1\nbody .start 0 1\nlocal 0 0 zero\nreturn\nend\n",
        answer: Answer::Shape(3),
    },
    Case {
        text: "dcc 1\nbody .start 0 1\nlocal 0 16777217 zero\nreturn\nend\n",
        answer: Answer::Shape(3),
    },
    Case {
        text: "dcc 1\nbody .start 0 1\nrequire (reg 1)\nreturn\nend\n",
        answer: Answer::Shape(3),
    },
    Case {
        text: "dcc 1\nbody .start 0 1\ncheck a (reg 1)\nreturn\nend\n",
        answer: Answer::Shape(3),
    },
    Case {
        text: "dcc 1\nbody .start 0 1\ncovers a (reg 1) (u64 0)\nreturn\nend\n",
        answer: Answer::Shape(3),
    },
    Case {
        text: "dcc 1\nbody .start 0 1\ncovers a (obj 0) (reg 1)\nreturn\nend\n",
        answer: Answer::Shape(3),
    },
    Case {
        text: "dcc 1\nbody .start 0 1\nrange 0 (reg 1) (obj 0) (u64 0)\nreturn\nend\n",
        answer: Answer::Shape(3),
    },
    Case {
        text: "dcc 1\nbody .start 0 1\nrange 0 (s32 1) (reg 1) (u64 0)\nreturn\nend\n",
        answer: Answer::Shape(3),
    },
    Case {
        text: "dcc 1\nbody .start 0 1\nrange 0 (s32 1) (obj 0) (reg 1)\nreturn\nend\n",
        answer: Answer::Shape(3),
    },
    Case {
        text: "dcc 1\nbody .start 0 1\nreturn (reg 1)\nreturn\nend\n",
        answer: Answer::Shape(3),
    },
    Case {
        text: "dcc 1\nbody .start 0 1\ncall - f\nreturn\nend\n",
        answer: Answer::Shape(3),
    },
    Case {
        text: "dcc 1\nbody .start 0 1\ncall - f (s32 1)\nreturn\nend\n",
        answer: Answer::Shape(3),
    },
    Case {
        text: "dcc 1\nbody .start 0 1\nend\nreturn\nend\n",
        answer: Answer::Shape(3),
    },
    Case {
        text: "dcc 1\nbody .start 0 1\nbody .start 0 0\nreturn\nend\n",
        answer: Answer::Shape(3),
    },
    Case {
        text: "dcc 1\nbody .start 0 1\ndcc 1\nreturn\nend\n",
        answer: Answer::Shape(3),
    },
    Case {
        text: "dcc 1\nbody .start 0 1\nfunction f void\nreturn\nend\n",
        answer: Answer::Shape(3),
    },
    Case {
        text: "dcc 1\nbody .start 0 1\nstatic g 4\nreturn\nend\n",
        answer: Answer::Shape(3),
    },
    Case {
        text: "dcc 1\nbody .start 0 1\ncheck .1. (s32 1)\nreturn\nend\n",
        answer: Answer::Scanned,
    },
    Case {
        text: "dcc 1\nbody .start 0 1\nlocal 0 16777216 zero\nreturn\nend\n",
        answer: Answer::Scanned,
    },
    Case {
        text: "dcc 1\nbody .start 0 1\nlocal 0 1 zero\nreturn\nend\n",
        answer: Answer::Scanned,
    },
    Case {
        text: "dcc 1\nbody .start 0 1\nreturn\nreturn\nend\n",
        answer: Answer::Scanned,
    },
    Case {
        text: "dcc 1\nbody .start 0 1\nreturn (s32 1)\nreturn\nend\n",
        answer: Answer::Scanned,
    },
    Case {
        text: "dcc 1\nbody .start 0 1\ntrap\nreturn\nend\n",
        answer: Answer::Scanned,
    },
];

// The order of the lines, names, bodies, calls and what is returned.
const ORDERS: [Case; 42] = [
    Case {
        text: "",
        answer: Answer::Shape(1),
    },
    Case {
        text: "function f void\n",
        answer: Answer::Shape(1),
    },
    Case {
        text: "dcc 1\n",
        answer: Answer::Shape(2),
    },
    Case {
        text: "dcc 1\ndcc 1\n",
        answer: Answer::Shape(2),
    },
    Case {
        text: "dcc 1\nend\n",
        answer: Answer::Shape(2),
    },
    Case {
        text: "dcc 1\nreturn\n",
        answer: Answer::Shape(2),
    },
    Case {
        text: "dcc 1\nstatic g 4\nfunction f void\n",
        answer: Answer::Shape(3),
    },
    Case {
        text: "dcc 1\nfunction f void\nfunction f s32\n",
        answer: Answer::Shape(3),
    },
    Case {
        text: "dcc 1\nfunction f void\nstatic f 4\n",
        answer: Answer::Shape(3),
    },
    Case {
        text: "dcc 1\nstatic g 4\nstatic g 4\n",
        answer: Answer::Shape(3),
    },
    Case {
        text: "dcc 1\nstatic g 0\n",
        answer: Answer::Shape(2),
    },
    Case {
        text: "dcc 1\nstatic g 16777217\n",
        answer: Answer::Shape(2),
    },
    Case {
        text: "dcc 1\nstatic g 18446744073709551615\n",
        answer: Answer::Shape(2),
    },
    Case {
        text: "dcc 1\nbody g 0 0\n",
        answer: Answer::Shape(2),
    },
    Case {
        text: "dcc 1\nstatic g 4\nbody g 0 0\n",
        answer: Answer::Shape(3),
    },
    Case {
        text: "dcc 1\nfunction f void s32\nbody f 0 0\n",
        answer: Answer::Shape(3),
    },
    Case {
        text: "dcc 1\nfunction f void s32\nbody f 1 0\n",
        answer: Answer::Shape(3),
    },
    Case {
        text: "dcc 1\nbody .start 1 1\n",
        answer: Answer::Shape(2),
    },
    Case {
        text: "dcc 1\nfunction f void\nbody f 0 0\nreturn\nend\nbody f 0 0\n",
        answer: Answer::Shape(6),
    },
    Case {
        text: "dcc 1\nfunction f void\nfunction g void\nbody g 0 0\nreturn\nend\nbody f 0 0\n",
        answer: Answer::Shape(7),
    },
    Case {
        text: "dcc 1\nfunction f void\nbody .start 0 0\nreturn\nend\nbody f 0 0\nreturn\nend\n",
        answer: Answer::Shape(6),
    },
    Case {
        text: "dcc 1\nbody .start 0 0\nreturn\nend\nbody .start 0 0\n",
        answer: Answer::Shape(5),
    },
    Case {
        text: "dcc 1\nbody .start 0 0\nreturn\nend\nend\n",
        answer: Answer::Shape(5),
    },
    Case {
        text: "dcc 1\nbody .start 0 0\nseen\nend\n",
        answer: Answer::Shape(3),
    },
    Case {
        text: "dcc 1\nbody .start 0 0\nend\n",
        answer: Answer::Shape(3),
    },
    Case {
        text: "dcc 1\nbody .start 0 0\nreturn\nseen\nend\n",
        answer: Answer::Shape(4),
    },
    Case {
        text: "dcc 1\nbody .start 0 0\nreturn\nseen\n",
        answer: Answer::Shape(4),
    },
    Case {
        text: "dcc 1\nbody .start 0 0\nseen\nbody .start 0 0\n",
        answer: Answer::Shape(3),
    },
    Case {
        text: "dcc 1\nbody .start 0 0\nreturn\n",
        answer: Answer::Shape(4),
    },
    Case {
        text: "dcc 1\nbody .start 0 0\n",
        answer: Answer::Shape(3),
    },
    Case {
        text: "dcc 1\nfunction f void\nbody f 0 0\nreturn\nend\n",
        answer: Answer::Shape(6),
    },
    Case {
        text: "dcc 1\nfunction f void\nbody f 0 0\nreturn (s32 1)\nend\n",
        answer: Answer::Shape(4),
    },
    Case {
        text: "dcc 1\nfunction f s32\nbody f 0 0\nreturn\nend\n",
        answer: Answer::Shape(4),
    },
    Case {
        text: "dcc 1\nfunction f void\nbody .start 0 1\ncall 0 f\nreturn\nend\n",
        answer: Answer::Shape(4),
    },
    Case {
        text: "dcc 1\nfunction f void\nbody .start 0 1\ncall - f (s32 1)\nreturn\nend\n",
        answer: Answer::Shape(4),
    },
    Case {
        text: "dcc 1\nfunction f s32\nbody .start 0 1\ncall 1 f\nreturn\nend\n",
        answer: Answer::Shape(4),
    },
    Case {
        text: "dcc 1\nfunction f void u64\nbody .start 0 1\ncall - f (reg 1)\nreturn\nend\n",
        answer: Answer::Shape(4),
    },
    Case {
        text: "dcc 1\nstatic g 4\nbody .start 0 1\ncall - g\nreturn\nend\n",
        answer: Answer::Shape(4),
    },
    Case {
        text: "dcc 1\nfunction f void\nbody .start 0 0\ncall - f\nreturn\nend\n",
        answer: Answer::Scanned,
    },
    Case {
        text: "dcc 1\nfunction f s32\nbody .start 0 0\ncall - f\nreturn\nend\n",
        answer: Answer::Scanned,
    },
    Case {
        text: "dcc 1\nfunction f void\nbody .start 0 1\nset 0 (obj 1)\nreturn\nend\n",
        answer: Answer::Scanned,
    },
    Case {
        text: "dcc 1\nbody .start 0 0\nreturn\nend\n",
        answer: Answer::Scanned,
    },
];

// Jumps.
const JUMPS: [Case; 21] = [
    Case {
        text: "dcc 1\nbody .start 0 1\ngoto 0\nend\n",
        answer: Answer::Scanned,
    },
    Case {
        text: "dcc 1\nbody .start 0 1\ngoto 1\nend\n",
        answer: Answer::Shape(3),
    },
    Case {
        text: "dcc 1\nbody .start 0 1\ngoto 00\nend\n",
        answer: Answer::Line(3),
    },
    Case {
        text: "dcc 1\nbody .start 0 1\ngoto 18446744073709551615\nend\n",
        answer: Answer::Shape(3),
    },
    Case {
        text: "dcc 1\nbody .start 0 1\ngoto 18446744073709551616\nend\n",
        answer: Answer::Line(3),
    },
    Case {
        text: "dcc 1\nbody .start 0 1\ngoto -1\nend\n",
        answer: Answer::Line(3),
    },
    Case {
        text: "dcc 1\nbody .start 0 1\ngoto\nend\n",
        answer: Answer::Line(3),
    },
    Case {
        text: "dcc 1\nbody .start 0 1\nifnot (reg 0) 1\nreturn\nend\n",
        answer: Answer::Scanned,
    },
    Case {
        text: "dcc 1\nbody .start 0 1\nifnot (reg 0) 0\nreturn\nend\n",
        answer: Answer::Scanned,
    },
    Case {
        text: "dcc 1\nbody .start 0 1\nifnot (reg 0) 2\nreturn\nend\n",
        answer: Answer::Shape(3),
    },
    Case {
        text: "dcc 1\nbody .start 0 1\nifnot (reg 1) 1\nreturn\nend\n",
        answer: Answer::Shape(3),
    },
    Case {
        text: "dcc 1\nbody .start 0 1\nifnot (reg 0)\nreturn\nend\n",
        answer: Answer::Line(3),
    },
    Case {
        text: "dcc 1\nbody .start 0 1\nifnot 1 (reg 0)\nreturn\nend\n",
        answer: Answer::Line(3),
    },
    Case {
        text: "dcc 1\nbody .start 0 1\nifnot (reg 0) 0\nend\n",
        answer: Answer::Shape(3),
    },
    Case {
        text: "dcc 1\nfunction f void\nbody f 0 0\ngoto 2\nreturn\nend\nbody .start 0 0\nset\n",
        answer: Answer::Line(8),
    },
    Case {
        text: "dcc 1\nfunction f void\nbody f 0 0\ngoto 2\nreturn\nend\nbody .start 0 0\npush\npop\nreturn\nend\n",
        answer: Answer::Shape(4),
    },
    Case {
        text: "dcc 1\nfunction f void\nbody f 0 0\ngoto 1\nreturn\nend\nbody .start 0 0\npush\ngoto 2\nreturn\nend\n",
        answer: Answer::Scanned,
    },
    Case {
        text: "dcc 1\nfunction f void\nbody f 0 0\ngoto 1\nreturn\nend\nbody .start 0 0\npush\ngoto 3\nreturn\nend\n",
        answer: Answer::Shape(9),
    },
    Case {
        text: "dcc 1\nbody .start 0 1\npush\ngoto 3\npop\n",
        answer: Answer::Shape(4),
    },
    Case {
        text: "dcc 1\nbody .start 0 1\npush\ngoto 2\npop\n",
        answer: Answer::Shape(5),
    },
    Case {
        text: "dcc 1\nbody .start 0 1\npush\ngoto 1\n",
        answer: Answer::Shape(5),
    },
];

// What is kept, locals that die, tests, conversions and choices.
const TESTS: [Case; 43] = [
    Case {
        text: "dcc 1\nbody .start 0 1\nkeep 0 (reg 0)\nreturn\nend\n",
        answer: Answer::Scanned,
    },
    Case {
        text: "dcc 1\nbody .start 0 1\nkeep 1 (reg 0)\nreturn\nend\n",
        answer: Answer::Shape(3),
    },
    Case {
        text: "dcc 1\nbody .start 0 1\nkeep 0 (reg 1)\nreturn\nend\n",
        answer: Answer::Shape(3),
    },
    Case {
        text: "dcc 1\nbody .start 0 1\nkeep - (reg 0)\nreturn\nend\n",
        answer: Answer::Line(3),
    },
    Case {
        text: "dcc 1\nbody .start 0 1\nkill 0\nreturn\nend\n",
        answer: Answer::Scanned,
    },
    Case {
        text: "dcc 1\nbody .start 0 1\nkill 18446744073709551615\nreturn\nend\n",
        answer: Answer::Scanned,
    },
    Case {
        text: "dcc 1\nbody .start 0 1\nkill 18446744073709551616\nreturn\nend\n",
        answer: Answer::Line(3),
    },
    Case {
        text: "dcc 1\nbody .start 0 1\nkill\nreturn\nend\n",
        answer: Answer::Line(3),
    },
    Case {
        text: "dcc 1\nbody .start 0 1\nkill 0 0\nreturn\nend\n",
        answer: Answer::Line(3),
    },
    Case {
        text: "dcc 1\nbody .start 0 1\nassert a.b (reg 0)\nreturn\nend\n",
        answer: Answer::Scanned,
    },
    Case {
        text: "dcc 1\nbody .start 0 1\nassert a.b (reg 1)\nreturn\nend\n",
        answer: Answer::Shape(3),
    },
    Case {
        text: "dcc 1\nbody .start 0 1\nassert (reg 0)\nreturn\nend\n",
        answer: Answer::Line(3),
    },
    Case {
        text: "dcc 1\nbody .start 0 1\nassert a-b (reg 0)\nreturn\nend\n",
        answer: Answer::Line(3),
    },
    Case {
        text: "dcc 1\nbody .start 0 1\nassume (reg 0)\nreturn\nend\n",
        answer: Answer::Scanned,
    },
    Case {
        text: "dcc 1\nbody .start 0 1\nassume (reg 1)\nreturn\nend\n",
        answer: Answer::Shape(3),
    },
    Case {
        text: "dcc 1\nbody .start 0 1\nassume a (reg 0)\nreturn\nend\n",
        answer: Answer::Line(3),
    },
    Case {
        text: "dcc 1\nbody .start 0 1\nassume\nreturn\nend\n",
        answer: Answer::Line(3),
    },
    Case {
        text: "dcc 1\nbody .start 0 1\nset 0 (conv u8 s32 (reg 0))\nreturn\nend\n",
        answer: Answer::Scanned,
    },
    Case {
        text: "dcc 1\nbody .start 0 1\nset 0 (conv ptr bool (reg 0))\nreturn\nend\n",
        answer: Answer::Scanned,
    },
    Case {
        text: "dcc 1\nbody .start 0 1\nset 0 (conv u8 (reg 0))\nreturn\nend\n",
        answer: Answer::Line(3),
    },
    Case {
        text: "dcc 1\nbody .start 0 1\nset 0 (conv u8 s32 (reg 1))\nreturn\nend\n",
        answer: Answer::Shape(3),
    },
    Case {
        text: "dcc 1\nbody .start 0 1\nset 0 (conv u8 s33 (reg 0))\nreturn\nend\n",
        answer: Answer::Line(3),
    },
    Case {
        text: "dcc 1\nbody .start 0 1\nset 0 (neg s8 (reg 0))\nreturn\nend\n",
        answer: Answer::Scanned,
    },
    Case {
        text: "dcc 1\nbody .start 0 1\nset 0 (neg ptr (reg 0))\nreturn\nend\n",
        answer: Answer::Shape(3),
    },
    Case {
        text: "dcc 1\nbody .start 0 1\nset 0 (neg s8 (reg 1))\nreturn\nend\n",
        answer: Answer::Shape(3),
    },
    Case {
        text: "dcc 1\nbody .start 0 1\nset 0 (not u64 (reg 0))\nreturn\nend\n",
        answer: Answer::Scanned,
    },
    Case {
        text: "dcc 1\nbody .start 0 1\nset 0 (not ptr (reg 0))\nreturn\nend\n",
        answer: Answer::Shape(3),
    },
    Case {
        text: "dcc 1\nbody .start 0 1\nset 0 (not (reg 0))\nreturn\nend\n",
        answer: Answer::Line(3),
    },
    Case {
        text: "dcc 1\nbody .start 0 1\nset 0 (and2 (reg 0) (s32 1))\nreturn\nend\n",
        answer: Answer::Scanned,
    },
    Case {
        text: "dcc 1\nbody .start 0 1\nset 0 (and2 (reg 0) (reg 1))\nreturn\nend\n",
        answer: Answer::Shape(3),
    },
    Case {
        text: "dcc 1\nbody .start 0 1\nset 0 (and2 s32 (reg 0) (s32 1))\nreturn\nend\n",
        answer: Answer::Line(3),
    },
    Case {
        text: "dcc 1\nbody .start 0 1\nset 0 (and2 (reg 0))\nreturn\nend\n",
        answer: Answer::Line(3),
    },
    Case {
        text: "dcc 1\nbody .start 0 1\nset 0 (or2 (s32 0) (reg 0))\nreturn\nend\n",
        answer: Answer::Scanned,
    },
    Case {
        text: "dcc 1\nbody .start 0 1\nset 0 (or2 (reg 1) (reg 0))\nreturn\nend\n",
        answer: Answer::Shape(3),
    },
    Case {
        text: "dcc 1\nbody .start 0 1\nset 0 (or2  (reg 0) (reg 0))\nreturn\nend\n",
        answer: Answer::Line(3),
    },
    Case {
        text: "dcc 1\nbody .start 0 1\nset 0 (if (reg 0) (s32 1) (s32 2))\nreturn\nend\n",
        answer: Answer::Scanned,
    },
    Case {
        text: "dcc 1\nbody .start 0 1\nset 0 (if (reg 0) (s32 1) (reg 1))\nreturn\nend\n",
        answer: Answer::Shape(3),
    },
    Case {
        text: "dcc 1\nbody .start 0 1\nset 0 (if (reg 1) (s32 1) (s32 2))\nreturn\nend\n",
        answer: Answer::Shape(3),
    },
    Case {
        text: "dcc 1\nbody .start 0 1\nset 0 (if (reg 0) (s32 1))\nreturn\nend\n",
        answer: Answer::Line(3),
    },
    Case {
        text: "dcc 1\nbody .start 0 1\nset 0 (add ptr (reg 0) (reg 0))\nreturn\nend\n",
        answer: Answer::Shape(3),
    },
    Case {
        text: "dcc 1\nbody .start 0 1\nset 0 (xor ptr (reg 0) (reg 0))\nreturn\nend\n",
        answer: Answer::Shape(3),
    },
    Case {
        text: "dcc 1\nbody .start 0 1\nset 0 (shl ptr (reg 0) (reg 0))\nreturn\nend\n",
        answer: Answer::Shape(3),
    },
    Case {
        text: "dcc 1\nbody .start 0 1\nset 0 (lt ptr (reg 0) (reg 0))\nreturn\nend\n",
        answer: Answer::Scanned,
    },
];

#[test]
fn fronts(rt: HostRuntime) -> Result<(), Fail> {
    for case in &FRONTS {
        let answer = answer_to(rt.alloc(), case.text.as_bytes())?;
        assert_eq!(rt; answer, case.answer, "{:?}", case.text);
    }
    Ok(())
}

#[test]
fn lines(rt: HostRuntime) -> Result<(), Fail> {
    for case in &LINES {
        let answer = answer_to(rt.alloc(), case.text.as_bytes())?;
        assert_eq!(rt; answer, case.answer, "{:?}", case.text);
    }
    Ok(())
}

#[test]
fn values(rt: HostRuntime) -> Result<(), Fail> {
    for case in &VALUES {
        let answer = answer_to(rt.alloc(), case.text.as_bytes())?;
        assert_eq!(rt; answer, case.answer, "{:?}", case.text);
    }
    Ok(())
}

#[test]
fn orders(rt: HostRuntime) -> Result<(), Fail> {
    for case in &ORDERS {
        let answer = answer_to(rt.alloc(), case.text.as_bytes())?;
        assert_eq!(rt; answer, case.answer, "{:?}", case.text);
    }
    Ok(())
}

#[test]
fn jumps(rt: HostRuntime) -> Result<(), Fail> {
    for case in &JUMPS {
        let answer = answer_to(rt.alloc(), case.text.as_bytes())?;
        assert_eq!(rt; answer, case.answer, "{:?}", case.text);
    }
    Ok(())
}

#[test]
fn tests(rt: HostRuntime) -> Result<(), Fail> {
    for case in &TESTS {
        let answer = answer_to(rt.alloc(), case.text.as_bytes())?;
        assert_eq!(rt; answer, case.answer, "{:?}", case.text);
    }
    Ok(())
}

#[test]
fn strange_bytes(rt: HostRuntime) -> Result<(), Fail> {
    assert_eq!(rt; answer_to(rt.alloc(), b"\xff\n")?, Answer::Line(1));
    assert_eq!(rt;
        answer_to(rt.alloc(), b"dcc 1\nfunction \xc3\xa9 void\n")?,
        Answer::Line(2)
    );
    Ok(())
}

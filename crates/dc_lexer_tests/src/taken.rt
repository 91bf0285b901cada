// Sources with their tokens.
use crate::answers::told;
use std::test::Fail;

struct Case {
    source: &'static str,
    told: &'static str,
}

const CASES: [Case; 53] = [
    Case {
        source: "",
        told: "",
    },
    Case {
        source: "a+++b",
        told: "w1:a p1:++ p1:+ w1:b",
    },
    Case {
        source: "08",
        told: "i1:0 i1:8",
    },
    Case {
        source: "0778",
        told: "i1:077 i1:8",
    },
    Case {
        source: "1lul",
        told: "i1:1lu w1:l",
    },
    Case {
        source: "1lL",
        told: "i1:1l w1:L",
    },
    Case {
        source: "1ulu",
        told: "i1:1ul w1:u",
    },
    Case {
        source: "1uu",
        told: "i1:1u w1:u",
    },
    Case {
        source: "0x",
        told: "i1:0 w1:x",
    },
    Case {
        source: "0xg",
        told: "i1:0 w1:xg",
    },
    Case {
        source: "0XaFul",
        told: "i1:0XaFul",
    },
    Case {
        source: "1e3",
        told: "i1:1 w1:e3",
    },
    Case {
        source: "1.5",
        told: "i1:1 p1:. i1:5",
    },
    Case {
        source: "0b1",
        told: "i1:0 w1:b1",
    },
    Case {
        source: "int x_1;",
        told: "w1:int w1:x_1 p1:;",
    },
    Case {
        source: "_Bool __CPROVER_requires",
        told: "w1:_Bool w1:__CPROVER_requires",
    },
    Case {
        source: "0 0u 0U 0l 0L 0ll 0LL",
        told: "i1:0 i1:0u i1:0U i1:0l i1:0L i1:0ll i1:0LL",
    },
    Case {
        source: "1ul 1uL 1Ul 1UL 1ull 1uLL 1Ull 1ULL",
        told: "i1:1ul i1:1uL i1:1Ul i1:1UL i1:1ull i1:1uLL i1:1Ull i1:1ULL",
    },
    Case {
        source: "1lu 1lU 1Lu 1LU 1llu 1llU 1LLu 1LLU",
        told: "i1:1lu i1:1lU i1:1Lu i1:1LU i1:1llu i1:1llU i1:1LLu i1:1LLU",
    },
    Case {
        source: "( ) [ ] { } ; , : ? . -> ++ -- & *",
        told: "p1:( p1:) p1:[ p1:] p1:{ p1:} p1:; p1:, p1:: p1:? p1:. p1:-> p1:++ p1:-- p1:& p1:*",
    },
    Case {
        source: "+ - ~ ! / % << >> < > <= >= == != ^ |",
        told: "p1:+ p1:- p1:~ p1:! p1:/ p1:% p1:<< p1:>> p1:< p1:> p1:<= p1:>= p1:== p1:!= p1:^ p1:|",
    },
    Case {
        source: "&& || ==> = *= /= %= += -= <<= >>= &= ^= |=",
        told: "p1:&& p1:|| p1:==> p1:= p1:*= p1:/= p1:%= p1:+= p1:-= p1:<<= p1:>>= p1:&= p1:^= p1:|=",
    },
    Case {
        source: "<<<=",
        told: "p1:<< p1:<=",
    },
    Case {
        source: "===>",
        told: "p1:== p1:= p1:>",
    },
    Case {
        source: "====>",
        told: "p1:== p1:==>",
    },
    Case {
        source: "->>=",
        told: "p1:-> p1:>=",
    },
    Case {
        source: "...",
        told: "p1:. p1:. p1:.",
    },
    Case {
        source: "L'a'",
        told: "w1:L c1:'a'",
    },
    Case {
        source: "-->",
        told: "p1:-- p1:>",
    },
    Case {
        source: "a/ /b",
        told: "w1:a p1:/ p1:/ w1:b",
    },
    Case {
        source: "'a' '0' ' ' '\\\"' '\"' '~'",
        told: "c1:'a' c1:'0' c1:' ' c1:'\\\"' c1:'\"' c1:'~'",
    },
    Case {
        source: "'\\n''\\t''\\r''\\0''\\\\''\\''",
        told: "c1:'\\n' c1:'\\t' c1:'\\r' c1:'\\0' c1:'\\\\' c1:'\\''",
    },
    Case {
        source: "18446744073709551615",
        told: "i1:18446744073709551615",
    },
    Case {
        source: "01777777777777777777777 0xffffffffffffffff 0x00000000000000000001",
        told: "i1:01777777777777777777777 i1:0xffffffffffffffff i1:0x00000000000000000001",
    },
    Case {
        source: "01777777777777777777776 0xfffffffffffffffe",
        told: "i1:01777777777777777777776 i1:0xfffffffffffffffe",
    },
    Case {
        source: "unsigned long g = 18446744073709551615u;",
        told: "w1:unsigned w1:long w1:g p1:= i1:18446744073709551615u p1:;",
    },
    Case {
        source: "a\r\n\tb\r\n",
        told: "w1:a w2:b",
    },
    Case {
        source: "a\n\n  b // c\nd",
        told: "w1:a w3:b w4:d",
    },
    Case {
        source: "a // b /* c\nd",
        told: "w1:a w2:d",
    },
    Case {
        source: "a/**/b/***/c/* * / \n\n*/d",
        told: "w1:a w1:b w1:c w3:d",
    },
    Case {
        source: "/*/**/a",
        told: "w1:a",
    },
    Case {
        source: "//",
        told: "",
    },
    Case {
        source: "// x\\\ny",
        told: "w2:y",
    },
    Case {
        source: "# 1 \"x.c\"\n",
        told: "",
    },
    Case {
        source: "# 1 \"x.c\"\na",
        told: "w2:a",
    },
    Case {
        source: "#12 /* a\nb */",
        told: "w2:b p2:* p2:/",
    },
    Case {
        source: "a\n \t#\t9#\nb",
        told: "w1:a w3:b",
    },
    Case {
        source: "/* \n */ a\n# 7\n",
        told: "w2:a",
    },
    Case {
        source: "#include <stdint.h>",
        told: "",
    },
    Case {
        source: "#include<assert.h>\n#include <limits.h>\r\n # \tinclude\t<stdbool.h>\n#include <stddef.h>\n#include <stdlib.h>\n#include <string.h>\nx",
        told: "w7:x",
    },
    Case {
        source: "#include <stdint.h> /* a \n b */\nx",
        told: "w3:x",
    },
    Case {
        source: "#include <stdint.h> /* a */ // b\nx",
        told: "w2:x",
    },
    Case {
        source: "#include <stdint.h>/**/",
        told: "",
    },
];

#[test]
fn each_token(rt: HostRuntime) -> Result<(), Fail> {
    for case in &CASES {
        let told = told(rt.alloc(), case.source.as_bytes())?;
        assert_eq!(rt; told.as_slice(), case.told.as_bytes(), "{:?}", case.source);
    }
    Ok(())
}

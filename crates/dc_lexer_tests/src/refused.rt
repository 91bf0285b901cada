// Sources whose reading stops.
use crate::answers::told;
use std::test::Fail;

struct Case {
    source: &'static str,
    told: &'static str,
}

const CASES: [Case; 52] = [
    Case {
        source: "/* x",
        told: "byte 0",
    },
    Case {
        source: "a /* x *",
        told: "byte 2",
    },
    Case {
        source: "/*/",
        told: "byte 0",
    },
    Case {
        source: "\"",
        told: "byte 0",
    },
    Case {
        source: "a \"b\"",
        told: "byte 2",
    },
    Case {
        source: "#define A 1",
        told: "directive 1",
    },
    Case {
        source: "\n\n #define A 1",
        told: "directive 3",
    },
    Case {
        source: "\t#define A 1",
        told: "directive 1",
    },
    Case {
        source: "/* \n */ #define A",
        told: "byte 8",
    },
    Case {
        source: "a # 1",
        told: "byte 2",
    },
    Case {
        source: "#",
        told: "directive 1",
    },
    Case {
        source: "# x",
        told: "directive 1",
    },
    Case {
        source: "##",
        told: "directive 1",
    },
    Case {
        source: "#\n1",
        told: "directive 1",
    },
    Case {
        source: "/* */ #include <stdint.h>",
        told: "byte 6",
    },
    Case {
        source: "/* \n */ #include <stdint.h>",
        told: "byte 8",
    },
    Case {
        source: "#include <stdint.h> x",
        told: "directive 1",
    },
    Case {
        source: "#include <stdint.h> /* a \n b */ x",
        told: "directive 1",
    },
    Case {
        source: "#include <stdint.h> /* a",
        told: "directive 1",
    },
    Case {
        source: "#include <stdio.h>",
        told: "directive 1",
    },
    Case {
        source: "#include \"stdint.h\"",
        told: "directive 1",
    },
    Case {
        source: "#include < stdint.h>",
        told: "directive 1",
    },
    Case {
        source: "#include <stdint.h",
        told: "directive 1",
    },
    Case {
        source: "#Include <stdint.h>",
        told: "directive 1",
    },
    Case {
        source: "#include <stdint.h>\\\nx",
        told: "directive 1",
    },
    Case {
        source: "# include/**/<stdint.h>",
        told: "directive 1",
    },
    Case {
        source: "unsigned long g = 18446744073709551616;",
        told: "wide 18",
    },
    Case {
        source: "02000000000000000000000",
        told: "wide 0",
    },
    Case {
        source: "0x10000000000000000",
        told: "wide 0",
    },
    Case {
        source: "0x10000000000000000u",
        told: "wide 0",
    },
    Case {
        source: "99999999999999999999999999999999999999999",
        told: "wide 0",
    },
    Case {
        source: "''",
        told: "byte 0",
    },
    Case {
        source: "'ab'",
        told: "byte 0",
    },
    Case {
        source: "'a",
        told: "byte 0",
    },
    Case {
        source: "'",
        told: "byte 0",
    },
    Case {
        source: "'\\",
        told: "byte 0",
    },
    Case {
        source: "'\\'",
        told: "byte 0",
    },
    Case {
        source: "'\\a'",
        told: "byte 0",
    },
    Case {
        source: "'\\00'",
        told: "byte 0",
    },
    Case {
        source: "'\n'",
        told: "byte 0",
    },
    Case {
        source: "'\t'",
        told: "byte 0",
    },
    Case {
        source: "a\\\nb",
        told: "byte 1",
    },
    Case {
        source: "a @",
        told: "byte 2",
    },
    Case {
        source: "$x",
        told: "byte 0",
    },
    Case {
        source: "`",
        told: "byte 0",
    },
    Case {
        source: "a\x0cb",
        told: "byte 1",
    },
    Case {
        source: "a\x0bb",
        told: "byte 1",
    },
    Case {
        source: "a\0",
        told: "byte 1",
    },
    Case {
        source: "\x7f",
        told: "byte 0",
    },
    Case {
        source: "\u{e9}",
        told: "byte 0",
    },
    Case {
        source: "int \u{e9};",
        told: "byte 4",
    },
    Case {
        source: "x // \u{e9}\n'\u{e9}'",
        told: "byte 8",
    },
];

#[test]
fn each_stop(rt: HostRuntime) -> Result<(), Fail> {
    for case in &CASES {
        let told = told(rt.alloc(), case.source.as_bytes())?;
        assert_eq!(rt; told.as_slice(), case.told.as_bytes(), "{:?}", case.source);
    }
    Ok(())
}

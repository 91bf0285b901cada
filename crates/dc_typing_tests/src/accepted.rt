// What sources mean.
use crate::judging::judged;
use std::test::Fail;

#[test]
fn literals_have_the_first_type_that_holds_them(rt: HostRuntime) -> Result<(), Fail> {
    let cases: [(&[u8], &[u8]); 14] = [
        (b"0", b"literal i=0"),
        (b"2147483647", b"literal i=2147483647"),
        (b"2147483648", b"literal l=2147483648"),
        (b"0x7fffffff", b"literal i=2147483647"),
        (b"0x80000000", b"literal u=2147483648"),
        (b"0xffffffffff", b"literal l=1099511627775"),
        (
            b"01777777777777777777777",
            b"literal L=18446744073709551615",
        ),
        (b"9223372036854775807", b"literal l=9223372036854775807"),
        (b"18446744073709551615u", b"literal L=18446744073709551615"),
        (b"1u", b"literal u=1"),
        (b"1l", b"literal l=1"),
        (b"1ULL", b"literal L=1"),
        (b"'a'", b"literal i=97"),
        (b"'\\n'", b"literal i=10"),
    ];
    for (source, want) in cases {
        let got = judged(rt.alloc(), source)?;
        assert_eq!(rt; got.as_slice(), want);
    }
    Ok(())
}

#[test]
fn expressions_have_the_types_of_their_parts(rt: HostRuntime) -> Result<(), Fail> {
    let cases: [(&[u8], &[u8]); 32] = [
        (b"i", b"local i"),
        (b"((i))", b"local i"),
        (b"NULL", b"literal *v=0"),
        (b"E", b"literal i=5"),
        (b"f", b"function gi"),
        (b"c + u", b"binary u"),
        (b"p + 1", b"binary *i"),
        (b"p - q", b"binary l"),
        (b"l << c", b"binary l"),
        (b"p == 0", b"binary i"),
        (b"i && p", b"logical i"),
        (b"i ==> c", b"logical i"),
        (b"a[1]", b"index i"),
        (b"1[a]", b"index i"),
        (b"*q", b"deref ki"),
        (b"&a", b"address *ai"),
        (b"&f", b"address *gi"),
        (b"-c", b"unary i"),
        (b"!p", b"unary i"),
        (b"s.x", b"member i"),
        (b"ks.x", b"member ki"),
        (b"t->z", b"through ah"),
        (b"i ? p : v", b"conditional *v"),
        (b"sizeof s", b"sizeof L"),
        (
            b"sizeof(int (*)(int n, char m[sizeof n]))",
            b"sizeof-type L",
        ),
        (b"sizeof(static int)", b"sizeof-type L"),
        (b"sizeof(int (*)[])", b"sizeof-type L"),
        (b"sizeof(int (*)(int (*n)[], int m[]))", b"sizeof-type L"),
        (b"(int (*)[])v", b"cast *zi"),
        (b"(const char)i", b"cast c"),
        (b"(struct S *)v", b"cast *0"),
        (b"(enum N)l", b"cast i"),
    ];
    for (source, want) in cases {
        let got = judged(rt.alloc(), source)?;
        assert_eq!(rt; got.as_slice(), want);
    }
    Ok(())
}

#[test]
fn effects_have_sites(rt: HostRuntime) -> Result<(), Fail> {
    let cases: [(&[u8], &[u8]); 16] = [
        (b"\ni = 1", b"assign i 5:2"),
        (b"((i = 1))", b"assign i 5:1"),
        (b"(\ni += 1)", b"assign-by i 5:2"),
        (b"p++", b"after *i 5:1"),
        (b"--u", b"before u 5:1"),
        (b"p = \nmalloc(4)", b"assign *i 5:1"),
        (b"f(1)", b"call i 5:1"),
        (b"fp(1)", b"call i 5:1"),
        (b"g()", b"call v 5:1"),
        (b"h(a)", b"call *i 5:1"),
        (b"calloc(1, 2)", b"calloc *v 5:1"),
        (b"(free)(p)", b"free v 5:1"),
        (b"memset(v, 0, 3)", b"memset *v 5:1"),
        (b"memcpy(p, q, 4)", b"memcpy *v 5:1"),
        (b"assert(p)", b"assert v 5:1"),
        (b"(void)i", b"cast v"),
    ];
    for (source, want) in cases {
        let got = judged(rt.alloc(), source)?;
        assert_eq!(rt; got.as_slice(), want);
    }
    Ok(())
}

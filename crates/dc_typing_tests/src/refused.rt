// The first rule that sources break, and the last token of the phrase that breaks it.
use crate::judging::judged;
use std::test::Fail;

#[test]
fn names_and_types_break_rules(rt: HostRuntime) -> Result<(), Fail> {
    let cases: [(&[u8], &[u8]); 28] = [
        (b"x = 1", b"!1@1"),
        (b"sizeof(struct Z)", b"!1@4"),
        (b"sizeof(enum S)", b"!1@4"),
        (b"sizeof(int (*)(int n, int n))", b"!2@12"),
        (b"sizeof(int char)", b"!4@4"),
        (b"sizeof(T unsigned)", b"!4@4"),
        (b"sizeof(extern static int)", b"!4@5"),
        (b"sizeof(int[])", b"!5@5"),
        (b"(int (*)[][])v", b"!5@9"),
        (b"sizeof(int (*)(int m[][]))", b"!5@13"),
        (b"((int (*)[])v)[0]", b"!5@14"),
        (b"sizeof(long (*)[][3000000])", b"!7@11"),
        (b"sizeof(struct U[2])", b"!5@7"),
        (b"sizeof(int (*)(void, int))", b"!5@8"),
        (b"r[0]", b"!5@4"),
        (b"r + 1", b"!5@3"),
        (b"sizeof(int[0])", b"!6@6"),
        (b"sizeof(int[i])", b"!6@6"),
        (b"sizeof(int[1 - 2])", b"!6@8"),
        (b"sizeof(char[16777217])", b"!7@6"),
        (b"sizeof(F[3])", b"!9@6"),
        (b"sizeof(int (*)(struct S))", b"!9@9"),
        (b"sizeof(A (*)(void))", b"!9@9"),
        (b"9223372036854775808", b"!11@1"),
        (b"malloc", b"!13@1"),
        (b"&malloc", b"!13@2"),
        (b"sizeof(int (*)(int free))", b"!13@9"),
        (b"i + (x + y)", b"!1@4"),
    ];
    for (source, want) in cases {
        let got = judged(rt.alloc(), source)?;
        assert_eq!(rt; got.as_slice(), want);
    }
    Ok(())
}

#[test]
fn operands_break_rules(rt: HostRuntime) -> Result<(), Fail> {
    let cases: [(&[u8], &[u8]); 34] = [
        (b"i % p", b"!14@3"),
        (b"~p", b"!14@2"),
        (b"!s", b"!15@2"),
        (b"s && i", b"!15@3"),
        (b"s ? i : p", b"!15@5"),
        (b"assert(s)", b"!15@4"),
        (b"*i", b"!16@2"),
        (b"*r", b"!16@2"),
        (b"*(int (*)[])v", b"!16@10"),
        (b"s.w", b"!17@3"),
        (b"i.x", b"!17@3"),
        (b"r->x", b"!17@3"),
        (b"i[i]", b"!18@4"),
        (b"&1", b"!19@2"),
        (b"k = p", b"!20@3"),
        (b"a = p", b"!20@3"),
        (b"f++", b"!20@2"),
        (b"p = 1", b"!21@3"),
        (b"f(p)", b"!21@4"),
        (b"f(p, 2)", b"!21@6"),
        (b"p -= q", b"!21@3"),
        (b"malloc(p)", b"!21@4"),
        (b"p < i", b"!22@3"),
        (b"p + p", b"!23@3"),
        (b"s++", b"!23@2"),
        (b"(int)p", b"!24@4"),
        (b"(int (*[2])(void))0", b"!24@13"),
        (b"1 + (void)i", b"!24@6"),
        (b"i ? s : i", b"!25@5"),
        (b"f()", b"!26@3"),
        (b"i(1)", b"!26@4"),
        (b"calloc(1)", b"!26@4"),
        (b"sizeof(struct U)", b"!27@5"),
        (b"sizeof f", b"!27@2"),
    ];
    for (source, want) in cases {
        let got = judged(rt.alloc(), source)?;
        assert_eq!(rt; got.as_slice(), want);
    }
    Ok(())
}

#[test]
fn effects_inside_break_a_rule(rt: HostRuntime) -> Result<(), Fail> {
    let cases: [(&[u8], &[u8]); 10] = [
        (b"i + f(1)", b"!28@6"),
        (b"(i = 1) + 1", b"!28@4"),
        (b"i = u = 1", b"!28@5"),
        (b"i += f(1)", b"!28@6"),
        (b"f(f(1))", b"!28@6"),
        (b"(void)f(1)", b"!28@7"),
        (b"sizeof f(1)", b"!28@5"),
        (b"a[i++]", b"!28@4"),
        (b"i ? f(1) : 2", b"!28@6"),
        (b"f(i)(p)", b"!28@4"),
    ];
    for (source, want) in cases {
        let got = judged(rt.alloc(), source)?;
        assert_eq!(rt; got.as_slice(), want);
    }
    Ok(())
}

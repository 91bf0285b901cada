// Each alternative of expressions, taken, and refused beside it: there what is shorter is read, or nothing.
use crate::reading::read;
use std::test::Fail;

// Names, literals and parentheses (C11 6.5.1).
#[test]
fn names_and_literals(rt: HostRuntime) -> Result<(), Fail> {
    let rows: [(&[u8], &[u8]); 14] = [
        (b"a", b"a 1"),
        (b"0x1Fu", b"0x1Fu 1"),
        (b"'a'", b"'a' 1"),
        (b"(a)", b"(paren a) 3"),
        (b"( a", b"none"),
        (b"()", b"none"),
        (b")", b"none"),
        (b"", b"none"),
        (b"T", b"none"),
        (b"int", b"none"),
        (b"goto", b"none"),
        (b"_Atomic", b"none"),
        (b"U", b"U 1"),
        (b"__CPROVER_old", b"__CPROVER_old 1"),
    ];
    for (source, wanted) in rows {
        let answer = read(rt.alloc(), source)?;
        assert_eq!(rt; answer.as_slice(), wanted);
    }
    Ok(())
}

// What stands behind an operand (C11 6.5.2).
#[test]
fn postfix_operators(rt: HostRuntime) -> Result<(), Fail> {
    let rows: [(&[u8], &[u8]); 19] = [
        (b"a[1]", b"(index a 1) 4"),
        (b"a[1", b"a 1"),
        (b"a[]", b"a 1"),
        (b"f()", b"(call f [ ]) 3"),
        (b"f(a)", b"(call f [ a ]) 4"),
        (b"f(a, b = c)", b"(call f [ a (= b c) ]) 8"),
        (b"f(a,)", b"f 1"),
        (b"f(a", b"f 1"),
        (b"f(,a)", b"f 1"),
        (b"a.b", b"(. a b) 3"),
        (b"a.T", b"(. a T) 3"),
        (b"a.1", b"a 1"),
        (b"a.", b"a 1"),
        (b"a->b", b"(-> a b) 3"),
        (b"a->", b"a 1"),
        (b"a++", b"(after ++ a) 2"),
        (b"a--", b"(after -- a) 2"),
        (b"a++ --", b"(after -- (after ++ a)) 3"),
        (
            b"f(a)[i].m->n++",
            b"(after ++ (-> (. (index (call f [ a ]) i) m) n)) 12",
        ),
    ];
    for (source, wanted) in rows {
        let answer = read(rt.alloc(), source)?;
        assert_eq!(rt; answer.as_slice(), wanted);
    }
    Ok(())
}

// What stands before an operand (C11 6.5.3).
#[test]
fn prefix_operators(rt: HostRuntime) -> Result<(), Fail> {
    let rows: [(&[u8], &[u8]); 23] = [
        (b"++a", b"(before ++ a) 2"),
        (b"--a", b"(before -- a) 2"),
        (b"++", b"none"),
        (b"&a", b"(prefix & a) 2"),
        (b"*a", b"(prefix * a) 2"),
        (b"+a", b"(prefix + a) 2"),
        (b"-a", b"(prefix - a) 2"),
        (b"~a", b"(prefix ~ a) 2"),
        (b"!a", b"(prefix ! a) 2"),
        (b"-", b"none"),
        (b"/a", b"none"),
        (b"- (T) a", b"(prefix - (cast (type [ T ] _) a)) 5"),
        (b"++ (T) a", b"none"),
        (b"sizeof a", b"(sizeof a) 2"),
        (b"sizeof (a)", b"(sizeof (paren a)) 4"),
        (b"sizeof (T)", b"(sizeof-type (type [ T ] _)) 4"),
        (b"sizeof (int)", b"(sizeof-type (type [ int ] _)) 4"),
        (b"sizeof (U)", b"(sizeof (paren U)) 4"),
        (b"sizeof", b"none"),
        (b"sizeof (int", b"none"),
        (b"sizeof (int) a", b"(sizeof-type (type [ int ] _)) 4"),
        (b"sizeof sizeof a", b"(sizeof (sizeof a)) 3"),
        (b"sizeof (T) * p", b"(* (sizeof-type (type [ T ] _)) p) 6"),
    ];
    for (source, wanted) in rows {
        let answer = read(rt.alloc(), source)?;
        assert_eq!(rt; answer.as_slice(), wanted);
    }
    Ok(())
}

// Casts and parenthesised names (C11 6.5.4).
#[test]
fn casts(rt: HostRuntime) -> Result<(), Fail> {
    let rows: [(&[u8], &[u8]); 12] = [
        (b"(T) a", b"(cast (type [ T ] _) a) 4"),
        (b"(U) a", b"(paren U) 3"),
        (b"(U) (a)", b"(call (paren U) [ a ]) 6"),
        (b"(int) -a", b"(cast (type [ int ] _) (prefix - a)) 5"),
        (
            b"(int) (T) a",
            b"(cast (type [ int ] _) (cast (type [ T ] _) a)) 7",
        ),
        (b"(T)", b"none"),
        (b"(T a", b"none"),
        (b"(int *) a", b"(cast (type [ int ] (pointer _)) a) 5"),
        (b"(T) - 1", b"(cast (type [ T ] _) (prefix - 1)) 5"),
        (b"(U) - 1", b"(- (paren U) 1) 5"),
        (b"(T) a = b", b"(cast (type [ T ] _) a) 4"),
        (b"(struct s { int a; }) a", b"none"),
    ];
    for (source, wanted) in rows {
        let answer = read(rt.alloc(), source)?;
        assert_eq!(rt; answer.as_slice(), wanted);
    }
    Ok(())
}

// The binary operators, left to right (C11 6.5.5 to 6.5.14).
#[test]
fn binary_operators(rt: HostRuntime) -> Result<(), Fail> {
    let rows: [(&[u8], &[u8]); 25] = [
        (b"a * b / c % d", b"(% (/ (* a b) c) d) 7"),
        (b"a + b - c", b"(- (+ a b) c) 5"),
        (b"a << b >> c", b"(>> (<< a b) c) 5"),
        (b"a < b > c <= d >= e", b"(>= (<= (> (< a b) c) d) e) 9"),
        (b"a == b != c", b"(!= (== a b) c) 5"),
        (b"a & b & c", b"(& (& a b) c) 5"),
        (b"a ^ b ^ c", b"(^ (^ a b) c) 5"),
        (b"a | b | c", b"(| (| a b) c) 5"),
        (b"a && b && c", b"(&& (&& a b) c) 5"),
        (b"a || b || c", b"(|| (|| a b) c) 5"),
        (b"a + b * c", b"(+ a (* b c)) 5"),
        (b"a * b + c", b"(+ (* a b) c) 5"),
        (b"a << b + c", b"(<< a (+ b c)) 5"),
        (b"a < b << c", b"(< a (<< b c)) 5"),
        (b"a == b < c", b"(== a (< b c)) 5"),
        (b"a & b == c", b"(& a (== b c)) 5"),
        (b"a ^ b & c", b"(^ a (& b c)) 5"),
        (b"a | b ^ c", b"(| a (^ b c)) 5"),
        (b"a && b | c", b"(&& a (| b c)) 5"),
        (b"a || b && c", b"(|| a (&& b c)) 5"),
        (b"a +", b"a 1"),
        (b"a + * b", b"(+ a (prefix * b)) 4"),
        (b"a * / b", b"a 1"),
        (b"a+++b", b"(+ (after ++ a) b) 4"),
        (b"08", b"0 1"),
    ];
    for (source, wanted) in rows {
        let answer = read(rt.alloc(), source)?;
        assert_eq!(rt; answer.as_slice(), wanted);
    }
    Ok(())
}

// Implications, conditionals and assignments (C11 6.5.15, 6.5.16).
#[test]
fn upper_levels(rt: HostRuntime) -> Result<(), Fail> {
    let rows: [(&[u8], &[u8]); 28] = [
        (b"a ==> b ==> c", b"(==> a (==> b c)) 5"),
        (b"a || b ==> c && d", b"(==> (|| a b) (&& c d)) 7"),
        (b"a ==>", b"a 1"),
        (b"a ? b : c", b"(? a b c) 5"),
        (b"a ? b : c ? d : e", b"(? a b (? c d e)) 9"),
        (b"a ? b = c : d", b"(? a (= b c) d) 7"),
        (b"a ? b : c = d", b"(? a b c) 5"),
        (b"a ? b", b"a 1"),
        (b"a ? : b", b"a 1"),
        (b"a ? b : ", b"a 1"),
        (b"a ==> b ? c : d", b"(? (==> a b) c d) 7"),
        (b"a ? b : c ==> d", b"(? a b (==> c d)) 7"),
        (b"a = b", b"(= a b) 3"),
        (b"a = b = c", b"(= a (= b c)) 5"),
        (b"a *= b", b"(*= a b) 3"),
        (b"a /= b", b"(/= a b) 3"),
        (b"a %= b", b"(%= a b) 3"),
        (b"a += b", b"(+= a b) 3"),
        (b"a -= b", b"(-= a b) 3"),
        (b"a <<= b", b"(<<= a b) 3"),
        (b"a >>= b", b"(>>= a b) 3"),
        (b"a &= b", b"(&= a b) 3"),
        (b"a ^= b", b"(^= a b) 3"),
        (b"a |= b", b"(|= a b) 3"),
        (b"*a = b", b"(= (prefix * a) b) 4"),
        (b"a + b = c", b"(+ a b) 3"),
        (b"a =", b"a 1"),
        (b"a, b", b"a 1"),
    ];
    for (source, wanted) in rows {
        let answer = read(rt.alloc(), source)?;
        assert_eq!(rt; answer.as_slice(), wanted);
    }
    Ok(())
}

// Quantifiers, whose name is in force in their condition.
#[test]
fn quantifiers(rt: HostRuntime) -> Result<(), Fail> {
    let rows: [(&[u8], &[u8]); 10] = [
        (
            b"__CPROVER_forall { int i; i < n }",
            b"(forall [ int ] i (< i n)) 9",
        ),
        (b"__CPROVER_exists { T x; x }", b"(exists [ T ] x x) 7"),
        (
            b"__CPROVER_forall { int T; (T) - 1 }",
            b"(forall [ int ] T (- (paren T) 1)) 11",
        ),
        (b"__CPROVER_forall { int i i }", b"none"),
        (b"__CPROVER_forall { int i; }", b"none"),
        (b"__CPROVER_forall { int i; i", b"none"),
        (b"__CPROVER_forall { int; 1 }", b"none"),
        (b"__CPROVER_forall ( int i; i )", b"none"),
        (b"__CPROVER_forall { int i; i = 1 }", b"none"),
        (
            b"__CPROVER_forall { int i; i } + 1",
            b"(+ (forall [ int ] i i) 1) 9",
        ),
    ];
    for (source, wanted) in rows {
        let answer = read(rt.alloc(), source)?;
        assert_eq!(rt; answer.as_slice(), wanted);
    }
    Ok(())
}

// Type-names, with what they are made of, taken, and refused beside it.
use crate::reading::read;
use std::test::Fail;

// The specs of type-names (C11 6.7.2, 6.7.7).
#[test]
fn specs(rt: HostRuntime) -> Result<(), Fail> {
    let rows: [(&[u8], &[u8]); 17] = [
        (
            b"sizeof (unsigned long int)",
            b"(sizeof-type (type [ unsigned long int ] _)) 6",
        ),
        (b"sizeof (const T)", b"(sizeof-type (type [ const T ] _)) 5"),
        (b"sizeof (T const)", b"(sizeof-type (type [ T const ] _)) 5"),
        (b"sizeof (T T)", b"none"),
        (b"sizeof (int T)", b"none"),
        (b"sizeof (_Bool)", b"(sizeof-type (type [ _Bool ] _)) 4"),
        (b"sizeof (void)", b"(sizeof-type (type [ void ] _)) 4"),
        (b"sizeof (const)", b"(sizeof-type (type [ const ] _)) 4"),
        (b"sizeof (volatile)", b"none"),
        (
            b"sizeof (struct s)",
            b"(sizeof-type (type [ (struct-tag s) ] _)) 5",
        ),
        (b"sizeof (struct)", b"none"),
        (
            b"sizeof (struct T)",
            b"(sizeof-type (type [ (struct-tag T) ] _)) 5",
        ),
        (
            b"sizeof (enum e)",
            b"(sizeof-type (type [ (enum-tag e) ] _)) 5",
        ),
        (b"sizeof (enum)", b"none"),
        (b"sizeof (struct s { int a; })", b"none"),
        (b"sizeof (enum { A })", b"none"),
        (b"sizeof (int x)", b"none"),
    ];
    for (source, wanted) in rows {
        let answer = read(rt.alloc(), source)?;
        assert_eq!(rt; answer.as_slice(), wanted);
    }
    Ok(())
}

// Declarators without a name (C11 6.7.7).
#[test]
fn abstract_declarators(rt: HostRuntime) -> Result<(), Fail> {
    let rows: [(&[u8], &[u8]); 20] = [
        (
            b"sizeof (int *)",
            b"(sizeof-type (type [ int ] (pointer _))) 5",
        ),
        (
            b"sizeof (int **)",
            b"(sizeof-type (type [ int ] (pointer (pointer _)))) 6",
        ),
        (
            b"sizeof (int * const restrict *)",
            b"(sizeof-type (type [ int ] (pointer const restrict (pointer _)))) 8",
        ),
        (
            b"sizeof (int [])",
            b"(sizeof-type (type [ int ] (unsized _))) 6",
        ),
        (
            b"sizeof (int [3])",
            b"(sizeof-type (type [ int ] (sized _ 3))) 7",
        ),
        (
            b"sizeof (int [3][4])",
            b"(sizeof-type (type [ int ] (sized (sized _ 3) 4))) 10",
        ),
        (b"sizeof (int [3 = 4])", b"none"),
        (b"sizeof (int [3)", b"none"),
        (
            b"sizeof (int (*)[3])",
            b"(sizeof-type (type [ int ] (sized (wrapped (pointer _)) 3))) 10",
        ),
        (
            b"sizeof (int ())",
            b"(sizeof-type (type [ int ] (function _ [ ]))) 6",
        ),
        (
            b"sizeof (int (void))",
            b"(sizeof-type (type [ int ] (function _ [ ]))) 7",
        ),
        (
            b"sizeof (int (T))",
            b"(sizeof-type (type [ int ] (function _ [ (parameter [ T ] _) ]))) 7",
        ),
        (
            b"sizeof (int (int, char))",
            b"(sizeof-type (type [ int ] (function _ [ (parameter [ int ] _) (parameter [ char ] _) ]))) 9",
        ),
        (b"sizeof (int (int,))", b"none"),
        (b"sizeof (int (,int))", b"none"),
        (
            b"sizeof (int (*)(int))",
            b"(sizeof-type (type [ int ] (function (wrapped (pointer _)) [ (parameter [ int ] _) ]))) 10",
        ),
        (b"sizeof (int (*f)(int))", b"none"),
        (b"sizeof (int (U))", b"none"),
        (
            b"sizeof (int *[])",
            b"(sizeof-type (type [ int ] (pointer (unsized _)))) 7",
        ),
        (b"sizeof (int (*)", b"none"),
    ];
    for (source, wanted) in rows {
        let answer = read(rt.alloc(), source)?;
        assert_eq!(rt; answer.as_slice(), wanted);
    }
    Ok(())
}

// Parameters, whose names are in force in the later ones (C11 6.7.6.3).
#[test]
fn parameters(rt: HostRuntime) -> Result<(), Fail> {
    let rows: [(&[u8], &[u8]); 10] = [
        (
            b"sizeof (int (int a))",
            b"(sizeof-type (type [ int ] (function _ [ (parameter [ int ] a) ]))) 8",
        ),
        (
            b"sizeof (int (int T, int a[sizeof(T)]))",
            b"(sizeof-type (type [ int ] (function _ [ (parameter [ int ] T) (parameter [ int ] (sized a (sizeof (paren T)))) ]))) 17",
        ),
        (
            b"sizeof (int (int a[sizeof(T)], int T))",
            b"(sizeof-type (type [ int ] (function _ [ (parameter [ int ] (sized a (sizeof-type (type [ T ] _)))) (parameter [ int ] T) ]))) 17",
        ),
        (
            b"sizeof (int (int T)) + sizeof (T)",
            b"(+ (sizeof-type (type [ int ] (function _ [ (parameter [ int ] T) ]))) (sizeof-type (type [ T ] _))) 13",
        ),
        (
            b"sizeof (int (const void))",
            b"(sizeof-type (type [ int ] (function _ [ (parameter [ const void ] _) ]))) 8",
        ),
        (
            b"sizeof (int (void, int))",
            b"(sizeof-type (type [ int ] (function _ [ (parameter [ void ] _) (parameter [ int ] _) ]))) 9",
        ),
        (
            b"sizeof (int (void *))",
            b"(sizeof-type (type [ int ] (function _ [ (parameter [ void ] (pointer _)) ]))) 8",
        ),
        (
            b"sizeof (int (int *f(int)))",
            b"(sizeof-type (type [ int ] (function _ [ (parameter [ int ] (pointer (function f [ (parameter [ int ] _) ]))) ]))) 12",
        ),
        (b"sizeof (int (struct s { int a; } p))", b"none"),
        (b"sizeof (int (int)", b"none"),
    ];
    for (source, wanted) in rows {
        let answer = read(rt.alloc(), source)?;
        assert_eq!(rt; answer.as_slice(), wanted);
    }
    Ok(())
}

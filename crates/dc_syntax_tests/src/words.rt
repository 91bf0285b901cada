// What the tokens of a source are for the grammar.
use dc_lexer::{Kind, Lex, Token, Tokens, lex};
use dc_syntax::{Keyword, Mark, Word, grammar_tokens};
use std::alloc::{AllocError, Global};
use std::test::Fail;

// The tokens of a source, or none of one that has no tokens.
fn lexed(alloc: Global, source: &[u8]) -> Result<Tokens<'_>, AllocError> {
    match lex(alloc, source) {
        Ok(tokens) => Ok(tokens),
        Err(Lex::Memory(error)) => Err(error),
        Err(_) => Ok(Tokens::new(alloc)),
    }
}

// The keyword that a source is, if it is one.
fn keyword(alloc: Global, source: &[u8]) -> Result<Option<Keyword>, AllocError> {
    let tokens = grammar_tokens(alloc, &lexed(alloc, source)?)?;
    match tokens.as_slice() {
        [token] => match token.word() {
            Word::Reserved(keyword) => Ok(Some(keyword)),
            _ => Ok(None),
        },
        _ => Ok(None),
    }
}

// The mark that a source is, if it is one.
fn mark(alloc: Global, source: &[u8]) -> Result<Option<Mark>, AllocError> {
    let tokens = grammar_tokens(alloc, &lexed(alloc, source)?)?;
    match tokens.as_slice() {
        [token] => match token.word() {
            Word::Marked(mark) => Ok(Some(mark)),
            _ => Ok(None),
        },
        _ => Ok(None),
    }
}

#[test]
fn keywords_are_no_names(rt: HostRuntime) -> Result<(), Fail> {
    let rows: [(&[u8], Keyword); 52] = [
        (b"break", Keyword::Break),
        (b"case", Keyword::Case),
        (b"char", Keyword::Char),
        (b"const", Keyword::Const),
        (b"continue", Keyword::Continue),
        (b"default", Keyword::Default),
        (b"do", Keyword::Do),
        (b"else", Keyword::Else),
        (b"enum", Keyword::Enum),
        (b"extern", Keyword::Extern),
        (b"for", Keyword::For),
        (b"if", Keyword::If),
        (b"inline", Keyword::Inline),
        (b"int", Keyword::Int),
        (b"long", Keyword::Long),
        (b"restrict", Keyword::Restrict),
        (b"return", Keyword::Return),
        (b"short", Keyword::Short),
        (b"signed", Keyword::Signed),
        (b"sizeof", Keyword::Sizeof),
        (b"static", Keyword::Static),
        (b"struct", Keyword::Struct),
        (b"switch", Keyword::Switch),
        (b"typedef", Keyword::Typedef),
        (b"unsigned", Keyword::Unsigned),
        (b"void", Keyword::Void),
        (b"while", Keyword::While),
        (b"_Bool", Keyword::Boolean),
        (b"__CPROVER_forall", Keyword::Forall),
        (b"__CPROVER_exists", Keyword::Exists),
        (b"__CPROVER_requires", Keyword::Requires),
        (b"__CPROVER_ensures", Keyword::Ensures),
        (b"__CPROVER_assigns", Keyword::Assigns),
        (b"__CPROVER_frees", Keyword::Frees),
        (b"__CPROVER_loop_invariant", Keyword::LoopInvariant),
        (b"__CPROVER_decreases", Keyword::Decreases),
        (b"auto", Keyword::LeftOut),
        (b"double", Keyword::LeftOut),
        (b"float", Keyword::LeftOut),
        (b"goto", Keyword::LeftOut),
        (b"register", Keyword::LeftOut),
        (b"union", Keyword::LeftOut),
        (b"volatile", Keyword::LeftOut),
        (b"_Alignas", Keyword::LeftOut),
        (b"_Alignof", Keyword::LeftOut),
        (b"_Atomic", Keyword::LeftOut),
        (b"_Complex", Keyword::LeftOut),
        (b"_Generic", Keyword::LeftOut),
        (b"_Imaginary", Keyword::LeftOut),
        (b"_Noreturn", Keyword::LeftOut),
        (b"_Static_assert", Keyword::LeftOut),
        (b"_Thread_local", Keyword::LeftOut),
    ];
    for (source, wanted) in rows {
        assert_eq!(rt; keyword(rt.alloc(), source)?, Some(wanted));
    }
    Ok(())
}

#[test]
fn punctuators_are_marks(rt: HostRuntime) -> Result<(), Fail> {
    let rows: [(&[u8], Mark); 46] = [
        (b"(", Mark::LeftParen),
        (b")", Mark::RightParen),
        (b"[", Mark::LeftBracket),
        (b"]", Mark::RightBracket),
        (b"{", Mark::LeftBrace),
        (b"}", Mark::RightBrace),
        (b";", Mark::Semicolon),
        (b",", Mark::Comma),
        (b":", Mark::Colon),
        (b"?", Mark::Question),
        (b".", Mark::Dot),
        (b"->", Mark::Arrow),
        (b"++", Mark::Increment),
        (b"--", Mark::Decrement),
        (b"&", Mark::Ampersand),
        (b"*", Mark::Star),
        (b"+", Mark::Plus),
        (b"-", Mark::Minus),
        (b"~", Mark::Tilde),
        (b"!", Mark::Exclamation),
        (b"/", Mark::Slash),
        (b"%", Mark::Percent),
        (b"<<", Mark::ShiftLeft),
        (b">>", Mark::ShiftRight),
        (b"<", Mark::Less),
        (b">", Mark::Greater),
        (b"<=", Mark::LessEqual),
        (b">=", Mark::GreaterEqual),
        (b"==", Mark::EqualEqual),
        (b"!=", Mark::NotEqual),
        (b"^", Mark::Caret),
        (b"|", Mark::Bar),
        (b"&&", Mark::AndAnd),
        (b"||", Mark::OrOr),
        (b"==>", Mark::Implication),
        (b"=", Mark::Equals),
        (b"*=", Mark::StarEquals),
        (b"/=", Mark::SlashEquals),
        (b"%=", Mark::PercentEquals),
        (b"+=", Mark::PlusEquals),
        (b"-=", Mark::MinusEquals),
        (b"<<=", Mark::ShiftLeftEquals),
        (b">>=", Mark::ShiftRightEquals),
        (b"&=", Mark::AmpersandEquals),
        (b"^=", Mark::CaretEquals),
        (b"|=", Mark::BarEquals),
    ];
    for (source, wanted) in rows {
        assert_eq!(rt; mark(rt.alloc(), source)?, Some(wanted));
    }
    Ok(())
}

// A letter for what a token is.
fn letter(word: Word<'_>) -> u8 {
    match word {
        Word::Named(_) => b'n',
        Word::Literal(_) => b'l',
        Word::Marked(_) => b'm',
        Word::Reserved(_) => b'k',
    }
}

#[test]
fn words_that_are_no_keywords_are_names(rt: HostRuntime) -> Result<(), Fail> {
    let rows: [(&[u8], &[u8]); 6] = [
        (b"x = 1 + 'a';", b"nmlmlm"),
        (
            b"Int intx _bool __CPROVER_old __CPROVER_return_value",
            b"nnnnn",
        ),
        (b"size_t true NULL malloc", b"nnnn"),
        (b"for(;;)return 0x1Fu;", b"kmmmmklm"),
        (b"", b""),
        (b"a+++b", b"nmmn"),
    ];
    for (source, wanted) in rows {
        let tokens = grammar_tokens(rt.alloc(), &lexed(rt.alloc(), source)?)?;
        let mut letters = Vec::new(rt.alloc());
        for token in &tokens {
            letters.push(letter(token.word()))?;
        }
        assert_eq!(rt; letters.as_slice(), wanted);
    }
    Ok(())
}

// Bytes that no lexer gives as a punctuator stand in no alternative.
#[test]
fn no_punctuator_is_left_out(rt: HostRuntime) -> Result<(), Fail> {
    let mut source = Tokens::new(rt.alloc());
    source.push(Token::new(Kind::Punctuator, b"@", 1))?;
    let tokens = grammar_tokens(rt.alloc(), &source)?;
    assert_eq!(rt; tokens.len(), 1);
    for token in &tokens {
        assert!(rt; matches!(token.word(), Word::Reserved(Keyword::LeftOut)));
    }
    Ok(())
}

#[test]
fn tokens_are_numbered_from_1(rt: HostRuntime) -> Result<(), Fail> {
    let tokens = grammar_tokens(rt.alloc(), &lexed(rt.alloc(), b"a\n+ b")?)?;
    let mut numbers = Vec::new(rt.alloc());
    let mut lines = Vec::new(rt.alloc());
    for token in &tokens {
        numbers.push(token.number())?;
        lines.push(token.line())?;
    }
    assert_eq!(rt; numbers.as_slice(), [1, 2, 3].as_slice());
    assert_eq!(rt; lines.as_slice(), [1, 2, 2].as_slice());
    Ok(())
}

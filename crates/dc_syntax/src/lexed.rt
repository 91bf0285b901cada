// The grammar's tokens, from those of a source.
ghost use Rattle.std.specs.Prelude.{◌≡◌, IfOk, length, map};
ghost use Rattle.std.specs.Map.{lookup};
ghost use Rattle.dc_text.specs.Words.{same};
ghost use Rattle.dc_syntax.specs.Lexed.{grammar_tokens, keywords, marks, word_of};
ghost use Rattle.dc_syntax.specs.WordView.{word_view};

use crate::keyword::Keyword;
use crate::mark::Mark;
use crate::token::{Token, Word};
use dc_lexer::{Kind, Tokens};
use std::alloc::{AllocError, Global};

// The words that are no names: those of the grammar, and the keywords of C that it leaves out.
const KEYWORDS: [(&str, Keyword); 52] = [
    ("break", Keyword::Break),
    ("case", Keyword::Case),
    ("char", Keyword::Char),
    ("const", Keyword::Const),
    ("continue", Keyword::Continue),
    ("default", Keyword::Default),
    ("do", Keyword::Do),
    ("else", Keyword::Else),
    ("enum", Keyword::Enum),
    ("extern", Keyword::Extern),
    ("for", Keyword::For),
    ("if", Keyword::If),
    ("inline", Keyword::Inline),
    ("int", Keyword::Int),
    ("long", Keyword::Long),
    ("restrict", Keyword::Restrict),
    ("return", Keyword::Return),
    ("short", Keyword::Short),
    ("signed", Keyword::Signed),
    ("sizeof", Keyword::Sizeof),
    ("static", Keyword::Static),
    ("struct", Keyword::Struct),
    ("switch", Keyword::Switch),
    ("typedef", Keyword::Typedef),
    ("unsigned", Keyword::Unsigned),
    ("void", Keyword::Void),
    ("while", Keyword::While),
    ("_Bool", Keyword::Boolean),
    ("__CPROVER_forall", Keyword::Forall),
    ("__CPROVER_exists", Keyword::Exists),
    ("__CPROVER_requires", Keyword::Requires),
    ("__CPROVER_ensures", Keyword::Ensures),
    ("__CPROVER_assigns", Keyword::Assigns),
    ("__CPROVER_frees", Keyword::Frees),
    ("__CPROVER_loop_invariant", Keyword::LoopInvariant),
    ("__CPROVER_decreases", Keyword::Decreases),
    ("auto", Keyword::LeftOut),
    ("double", Keyword::LeftOut),
    ("float", Keyword::LeftOut),
    ("goto", Keyword::LeftOut),
    ("register", Keyword::LeftOut),
    ("union", Keyword::LeftOut),
    ("volatile", Keyword::LeftOut),
    ("_Alignas", Keyword::LeftOut),
    ("_Alignof", Keyword::LeftOut),
    ("_Atomic", Keyword::LeftOut),
    ("_Complex", Keyword::LeftOut),
    ("_Generic", Keyword::LeftOut),
    ("_Imaginary", Keyword::LeftOut),
    ("_Noreturn", Keyword::LeftOut),
    ("_Static_assert", Keyword::LeftOut),
    ("_Thread_local", Keyword::LeftOut),
];

// The punctuators.
const MARKS: [(&str, Mark); 46] = [
    ("(", Mark::LeftParen),
    (")", Mark::RightParen),
    ("[", Mark::LeftBracket),
    ("]", Mark::RightBracket),
    ("{", Mark::LeftBrace),
    ("}", Mark::RightBrace),
    (";", Mark::Semicolon),
    (",", Mark::Comma),
    (":", Mark::Colon),
    ("?", Mark::Question),
    (".", Mark::Dot),
    ("->", Mark::Arrow),
    ("++", Mark::Increment),
    ("--", Mark::Decrement),
    ("&", Mark::Ampersand),
    ("*", Mark::Star),
    ("+", Mark::Plus),
    ("-", Mark::Minus),
    ("~", Mark::Tilde),
    ("!", Mark::Exclamation),
    ("/", Mark::Slash),
    ("%", Mark::Percent),
    ("<<", Mark::ShiftLeft),
    (">>", Mark::ShiftRight),
    ("<", Mark::Less),
    (">", Mark::Greater),
    ("<=", Mark::LessEqual),
    (">=", Mark::GreaterEqual),
    ("==", Mark::EqualEqual),
    ("!=", Mark::NotEqual),
    ("^", Mark::Caret),
    ("|", Mark::Bar),
    ("&&", Mark::AndAnd),
    ("||", Mark::OrOr),
    ("==>", Mark::Implication),
    ("=", Mark::Equals),
    ("*=", Mark::StarEquals),
    ("/=", Mark::SlashEquals),
    ("%=", Mark::PercentEquals),
    ("+=", Mark::PlusEquals),
    ("-=", Mark::MinusEquals),
    ("<<=", Mark::ShiftLeftEquals),
    (">>=", Mark::ShiftRightEquals),
    ("&=", Mark::AmpersandEquals),
    ("^=", Mark::CaretEquals),
    ("|=", Mark::BarEquals),
];

// What stands beside these bytes.
fn beside<T: Copy>(table: &[(&str, T)], bytes: &[u8]) -> Option<T>
    ensures { result ≡ lookup (same bytes.now) (map (λ row. (row.0.now, row.1)) table.now) }
{
    for row in table {
        if bytes == row.0.as_bytes() {
            return Some(row.1);
        }
    }
    None
}

#[tactic(auto, unfolding(crate::specs::Lexed::keywords))]
fn keyword_of(bytes: &[u8]) -> Option<Keyword>
    ensures { result ≡ lookup (same bytes.now) keywords }
{
    beside(&KEYWORDS, bytes)
}

#[tactic(auto, unfolding(crate::specs::Lexed::marks))]
fn mark_of(bytes: &[u8]) -> Option<Mark>
    ensures { result ≡ lookup (same bytes.now) marks }
{
    beside(&MARKS, bytes)
}

// What a token of a source is.
fn word_of(kind: Kind, bytes: &[u8]) -> Word<'_>
    ensures { word_view result ≡ word_of kind bytes.now }
{
    match kind {
        Kind::Word => match keyword_of(bytes) {
            Some(keyword) => Word::Reserved(keyword),
            None => Word::Named(bytes),
        },
        Kind::Integer | Kind::Character => Word::Literal(bytes),
        Kind::Punctuator => match mark_of(bytes) {
            Some(mark) => Word::Marked(mark),
            None => Word::Reserved(Keyword::LeftOut),
        },
    }
}

/// The grammar's tokens of a source, with their numbers from 1 (C11 6.4.1, 6.4.6).
/// A word is a keyword, a keyword that the profile leaves out, or a name.
#[tactic(auto, using(crate::proofs::Numbered::numbered_more, crate::proofs::Numbered::numbered_past, crate::proofs::Numbered::numbered_all))]
pub fn grammar_tokens<'a>(alloc: Global, source: &Tokens<'a>) -> Result<Vec<Token<'a>>, AllocError>
    ensures { IfOk result (λ tokens. tokens.items ≡ grammar_tokens source.now) }
{
    let mut tokens = Vec::new(alloc);
    for at in 0..source.len() {
        let Some(token) = source.get(at) else {
            break;
        };
        tokens.push(Token::new(
            word_of(token.kind(), token.as_slice()),
            at as u64 + 1,
            token.line(),
        ))?;
    }
    Ok(tokens)
}

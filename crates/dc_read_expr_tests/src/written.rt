// A tree as a text: each variant in parentheses, its word first.
use dc_syntax::{Keyword, Mark, Raw, Tag};
use sqlite_items::Items;
use std::alloc::AllocError;

fn mark_text(mark: Mark) -> &'static str {
    match mark {
        Mark::LeftParen => "(",
        Mark::RightParen => ")",
        Mark::LeftBracket => "[",
        Mark::RightBracket => "]",
        Mark::LeftBrace => "{",
        Mark::RightBrace => "}",
        Mark::Semicolon => ";",
        Mark::Comma => ",",
        Mark::Colon => ":",
        Mark::Question => "?",
        Mark::Dot => ".",
        Mark::Arrow => "->",
        Mark::Increment => "++",
        Mark::Decrement => "--",
        Mark::Ampersand => "&",
        Mark::Star => "*",
        Mark::Plus => "+",
        Mark::Minus => "-",
        Mark::Tilde => "~",
        Mark::Exclamation => "!",
        Mark::Slash => "/",
        Mark::Percent => "%",
        Mark::ShiftLeft => "<<",
        Mark::ShiftRight => ">>",
        Mark::Less => "<",
        Mark::Greater => ">",
        Mark::LessEqual => "<=",
        Mark::GreaterEqual => ">=",
        Mark::EqualEqual => "==",
        Mark::NotEqual => "!=",
        Mark::Caret => "^",
        Mark::Bar => "|",
        Mark::AndAnd => "&&",
        Mark::OrOr => "||",
        Mark::Implication => "==>",
        Mark::Equals => "=",
        Mark::StarEquals => "*=",
        Mark::SlashEquals => "/=",
        Mark::PercentEquals => "%=",
        Mark::PlusEquals => "+=",
        Mark::MinusEquals => "-=",
        Mark::ShiftLeftEquals => "<<=",
        Mark::ShiftRightEquals => ">>=",
        Mark::AmpersandEquals => "&=",
        Mark::CaretEquals => "^=",
        Mark::BarEquals => "|=",
    }
}

fn keyword_text(keyword: Keyword) -> &'static str {
    match keyword {
        Keyword::Break => "break",
        Keyword::Case => "case",
        Keyword::Char => "char",
        Keyword::Const => "const",
        Keyword::Continue => "continue",
        Keyword::Default => "default",
        Keyword::Do => "do",
        Keyword::Else => "else",
        Keyword::Enum => "enum",
        Keyword::Extern => "extern",
        Keyword::For => "for",
        Keyword::If => "if",
        Keyword::Inline => "inline",
        Keyword::Int => "int",
        Keyword::Long => "long",
        Keyword::Restrict => "restrict",
        Keyword::Return => "return",
        Keyword::Short => "short",
        Keyword::Signed => "signed",
        Keyword::Sizeof => "sizeof",
        Keyword::Static => "static",
        Keyword::Struct => "struct",
        Keyword::Switch => "switch",
        Keyword::Typedef => "typedef",
        Keyword::Unsigned => "unsigned",
        Keyword::Void => "void",
        Keyword::While => "while",
        Keyword::Boolean => "_Bool",
        Keyword::Forall => "forall",
        Keyword::Exists => "exists",
        Keyword::Requires => "requires",
        Keyword::Ensures => "ensures",
        Keyword::Assigns => "assigns",
        Keyword::Frees => "frees",
        Keyword::LoopInvariant => "loop_invariant",
        Keyword::Decreases => "decreases",
        Keyword::LeftOut => "left_out",
    }
}

// A blank, and a word behind it.
fn put(text: &mut Vec<u8>, word: &[u8]) -> Result<(), AllocError> {
    if !text.is_empty() {
        text.push(b' ')?;
    }
    text.extend_from_slice(word)
}

#[cycle(write)]
fn put_all(text: &mut Vec<u8>, items: &Items<Raw>) -> Result<(), AllocError> {
    put(text, b"[")?;
    for item in items.as_slice() {
        write_tree(text, item)?;
    }
    put(text, b"]")
}

fn put_tag(text: &mut Vec<u8>, tag: &Tag) -> Result<(), AllocError> {
    match tag {
        Tag::NoTag => put(text, b"_"),
        Tag::Tagged(name, _) => put(text, name.as_slice()),
    }
}

// The word of a tree that isn't only a name.
fn head(tree: &Raw) -> &'static str {
    match tree {
        Raw::Name(..) | Raw::Constant(..) | Raw::SpecWord(..) | Raw::SpecName(..) => "",
        Raw::Nameless | Raw::DeclaredName(..) | Raw::Enumerator(..) => "",
        Raw::Paren(..) => "paren",
        Raw::Quantifier(keyword, ..) => keyword_text(*keyword),
        Raw::Index(..) => "index",
        Raw::Call(..) => "call",
        Raw::Member(..) => ".",
        Raw::Through(..) => "->",
        Raw::After(..) => "after",
        Raw::Before(..) => "before",
        Raw::Prefix(..) => "prefix",
        Raw::SizeofExpression(..) => "sizeof",
        Raw::SizeofType(..) => "sizeof-type",
        Raw::Cast(..) => "cast",
        Raw::Binary(mark, ..) => mark_text(*mark),
        Raw::Implies(..) => "==>",
        Raw::Conditional(..) => "?",
        Raw::Assign(mark, ..) => mark_text(*mark),
        Raw::TypeName(..) => "type",
        Raw::StructBody(..) => "struct",
        Raw::StructTag(..) => "struct-tag",
        Raw::EnumBody(..) => "enum",
        Raw::EnumTag(..) => "enum-tag",
        Raw::MemberDeclaration(..) => "member",
        Raw::EnumeratorValue(..) => "value",
        Raw::Wrapped(..) => "wrapped",
        Raw::Unsized(..) => "unsized",
        Raw::Sized(..) => "sized",
        Raw::Function(..) => "function",
        Raw::Pointer(..) => "pointer",
        Raw::Parameter(..) => "parameter",
    }
}

/// The tree, behind what stands in the text.
#[cycle(write)]
pub fn write_tree(text: &mut Vec<u8>, tree: &Raw) -> Result<(), AllocError> {
    match tree {
        Raw::Name(name, _) | Raw::Constant(name, _) => return put(text, name.as_slice()),
        Raw::SpecName(name, _) | Raw::DeclaredName(name, _) => return put(text, name.as_slice()),
        Raw::Enumerator(name, _) => return put(text, name.as_slice()),
        Raw::SpecWord(keyword, _) => return put(text, keyword_text(*keyword).as_bytes()),
        Raw::Nameless => return put(text, b"_"),
        _ => {}
    }
    put(text, b"(")?;
    text.extend_from_slice(head(tree).as_bytes())?;
    match tree {
        Raw::Paren(a, _) | Raw::SizeofExpression(a, _) | Raw::SizeofType(a, _) => write_tree(
            text,
            a.get(),
        )?,
        Raw::Wrapped(a, _) | Raw::Unsized(a, _) => write_tree(text, a.get())?,
        Raw::Quantifier(_, specs, declarator, body, _) => {
            put_all(text, specs)?;
            write_tree(text, declarator.get())?;
            write_tree(text, body.get())?;
        }
        Raw::Index(a, b, _) | Raw::Cast(a, b, _) | Raw::Implies(a, b, _) | Raw::Sized(a, b, _) => {
            write_tree(text, a.get())?;
            write_tree(text, b.get())?;
        }
        Raw::Binary(_, a, b, _) | Raw::Assign(_, a, b, _) => {
            write_tree(text, a.get())?;
            write_tree(text, b.get())?;
        }
        Raw::Call(a, items, _) | Raw::Function(a, items, _) => {
            write_tree(text, a.get())?;
            put_all(text, items)?;
        }
        Raw::Member(a, name, _) | Raw::Through(a, name, _) => {
            write_tree(text, a.get())?;
            put(text, name.as_slice())?;
        }
        Raw::After(mark, a, _) | Raw::Before(mark, a, _) | Raw::Prefix(mark, a, _) => {
            put(text, mark_text(*mark).as_bytes())?;
            write_tree(text, a.get())?;
        }
        Raw::Conditional(a, b, c, _) => {
            write_tree(text, a.get())?;
            write_tree(text, b.get())?;
            write_tree(text, c.get())?;
        }
        Raw::TypeName(specs, declarator, _) | Raw::Parameter(specs, declarator, _) => {
            put_all(text, specs)?;
            write_tree(text, declarator.get())?;
        }
        Raw::StructBody(tag, members, _) => {
            put_tag(text, tag)?;
            put_all(text, members)?;
        }
        Raw::EnumBody(tag, first, more, _) => {
            put_tag(text, tag)?;
            write_tree(text, first.get())?;
            put_all(text, more)?;
        }
        Raw::MemberDeclaration(specs, first, more, _) => {
            put_all(text, specs)?;
            write_tree(text, first.get())?;
            put_all(text, more)?;
        }
        Raw::StructTag(name, _) | Raw::EnumTag(name, _) => put(text, name.as_slice())?,
        Raw::EnumeratorValue(name, value, _) => {
            put(text, name.as_slice())?;
            write_tree(text, value.get())?;
        }
        Raw::Pointer(qualifiers, inner, _) => {
            for qualifier in qualifiers.as_slice() {
                put(text, keyword_text(*qualifier).as_bytes())?;
            }
            write_tree(text, inner.get())?;
        }
        _ => {}
    }
    text.push(b')')?;
    Ok(())
}

// A unit as a text: each part in parentheses, its word first. An expression is its name or literal, or `e`.
use dc_syntax::{Part, Raw};
use sqlite_items::Items;
use std::alloc::AllocError;

fn write_tree(text: &mut Vec<u8>, tree: &Raw) -> Result<(), AllocError> {
    match tree {
        Raw::Name(name, _) => text.extend_from_slice(name.as_slice()),
        Raw::Constant(name, _) => text.extend_from_slice(name.as_slice()),
        _ => text.extend_from_slice(b"e"),
    }
}

fn write_declared(text: &mut Vec<u8>, declarator: &Raw) -> Result<(), AllocError> {
    match declarator.declared_name() {
        Some(name) => text.extend_from_slice(name),
        None => text.extend_from_slice(b"_"),
    }
}

fn write_trees(text: &mut Vec<u8>, trees: &Items<Raw>) -> Result<(), AllocError> {
    for tree in trees.as_slice() {
        text.push(b' ')?;
        write_tree(text, tree)?;
    }
    Ok(())
}

// A word, and a tree behind it.
fn write_headed(text: &mut Vec<u8>, word: &[u8], tree: &Raw) -> Result<(), AllocError> {
    text.extend_from_slice(word)?;
    text.push(b' ')?;
    write_tree(text, tree)
}

/// Parts one behind the other, in brackets.
#[cycle(write)]
pub fn write_parts(text: &mut Vec<u8>, parts: &Items<Part>) -> Result<(), AllocError> {
    text.extend_from_slice(b"[")?;
    for part in parts.as_slice() {
        text.push(b' ')?;
        write_part(text, part)?;
    }
    text.extend_from_slice(b" ]")
}

#[cycle(write)]
fn write_part(text: &mut Vec<u8>, part: &Part) -> Result<(), AllocError> {
    text.push(b'(')?;
    write_inside(text, part)?;
    text.push(b')')?;
    Ok(())
}

// What stands between the parentheses.
#[cycle(write)]
fn write_inside(text: &mut Vec<u8>, part: &Part) -> Result<(), AllocError> {
    match part {
        Part::Single(tree) => write_headed(text, b"single", tree.get()),
        Part::Braces(first, more, _) => {
            text.extend_from_slice(b"braces ")?;
            write_part(text, first.get())?;
            text.push(b' ')?;
            write_parts(text, more)
        }
        Part::Plain(declarator, _) => write_declared(text, declarator.get()),
        Part::Initialized(declarator, init, _) => {
            write_declared(text, declarator.get())?;
            text.extend_from_slice(b" = ")?;
            write_part(text, init.get())
        }
        Part::Requires(condition, _) => write_headed(text, b"requires", condition.get()),
        Part::Ensures(condition, _) => write_headed(text, b"ensures", condition.get()),
        Part::Assigns(groups, _) => {
            text.extend_from_slice(b"assigns ")?;
            write_parts(text, groups)
        }
        Part::Frees(groups, _) => {
            text.extend_from_slice(b"frees ")?;
            write_parts(text, groups)
        }
        Part::LoopInvariant(condition, _) => write_headed(text, b"invariant", condition.get()),
        Part::Decreases(first, more, _) => {
            write_headed(text, b"decreases", first.get())?;
            write_trees(text, more)
        }
        Part::Group(first, more, _) => {
            write_headed(text, b"group", first.get())?;
            write_trees(text, more)
        }
        Part::GroupIf(condition, first, more, _) => {
            write_headed(text, b"where", condition.get())?;
            text.push(b' ')?;
            write_tree(text, first.get())?;
            write_trees(text, more)
        }
        Part::Block(items, _) => {
            text.extend_from_slice(b"block ")?;
            write_parts(text, items)
        }
        Part::Empty(_) => text.extend_from_slice(b"empty"),
        Part::Simple(tree, _) => write_headed(text, b"do", tree.get()),
        Part::Return(_) => text.extend_from_slice(b"return"),
        Part::ReturnValue(tree, _) => write_headed(text, b"return", tree.get()),
        Part::Break(_) => text.extend_from_slice(b"break"),
        Part::Continue(_) => text.extend_from_slice(b"continue"),
        Part::If(test, first, _) => {
            write_headed(text, b"if", test.get())?;
            text.push(b' ')?;
            write_part(text, first.get())
        }
        Part::IfElse(test, first, second, _) => {
            write_headed(text, b"if", test.get())?;
            text.push(b' ')?;
            write_part(text, first.get())?;
            text.extend_from_slice(b" else ")?;
            write_part(text, second.get())
        }
        Part::While(test, clauses, body, _) => {
            write_headed(text, b"while", test.get())?;
            text.push(b' ')?;
            write_parts(text, clauses)?;
            text.push(b' ')?;
            write_part(text, body.get())
        }
        Part::Do(body, test, clauses, _) => {
            text.extend_from_slice(b"repeat ")?;
            write_part(text, body.get())?;
            write_headed(text, b" while", test.get())?;
            text.push(b' ')?;
            write_parts(text, clauses)
        }
        Part::For(first, test, step, clauses, body, _) => {
            text.extend_from_slice(b"for ")?;
            write_part(text, first.get())?;
            write_part(text, test.get())?;
            write_part(text, step.get())?;
            text.push(b' ')?;
            write_parts(text, clauses)?;
            text.push(b' ')?;
            write_part(text, body.get())
        }
        Part::Switch(test, body, _) => {
            write_headed(text, b"switch", test.get())?;
            text.push(b' ')?;
            write_part(text, body.get())
        }
        Part::Case(label, body, _) => {
            write_headed(text, b"case", label.get())?;
            text.push(b' ')?;
            write_part(text, body.get())
        }
        Part::Default(body, _) => {
            text.extend_from_slice(b"default ")?;
            write_part(text, body.get())
        }
        Part::NoStep => text.extend_from_slice(b"-"),
        Part::Step(tree) => write_tree(text, tree.get()),
        Part::FirstDeclaration(_, first, more, _) => {
            text.extend_from_slice(b"first ")?;
            write_part(text, first.get())?;
            text.push(b' ')?;
            write_parts(text, more)
        }
        Part::Declaration(_, declarators, _) => {
            text.extend_from_slice(b"declared ")?;
            write_parts(text, declarators)
        }
        Part::Definition(_, declarator, clauses, block, _) => {
            text.extend_from_slice(b"define ")?;
            write_declared(text, declarator.get())?;
            text.push(b' ')?;
            write_parts(text, clauses)?;
            text.push(b' ')?;
            write_part(text, block.get())
        }
        Part::Prototype(_, declarator, first, more, _) => {
            text.extend_from_slice(b"promise ")?;
            write_declared(text, declarator.get())?;
            text.push(b' ')?;
            write_part(text, first.get())?;
            text.push(b' ')?;
            write_parts(text, more)
        }
    }
}

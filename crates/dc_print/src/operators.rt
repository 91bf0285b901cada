// Operators as text.
ghost use Rattle.std.specs.Prelude.{◌≡◌, ◌++◌, OnOk};
ghost use Rattle.dc_goto.specs.Text.{lazy_word, operator_word, property_word, quantifier_word, test_word, unary_word};

use dc_core::{BinOp, LazyOp, Property, Quantifier, RangeTest, UnOp};
use std::alloc::AllocError;

/// Adds the word of an operator.
pub fn put_operator(out: &mut Vec<u8>, op: BinOp) -> Result<(), AllocError>
    ensures { OnOk result (out.new.items ≡ out.old.items ++ operator_word op) }
{
    match op {
        BinOp::Add => out.extend_from_slice(b"add"),
        BinOp::Sub => out.extend_from_slice(b"sub"),
        BinOp::Mul => out.extend_from_slice(b"mul"),
        BinOp::Div => out.extend_from_slice(b"div"),
        BinOp::Rem => out.extend_from_slice(b"rem"),
        BinOp::Shl => out.extend_from_slice(b"shl"),
        BinOp::Shr => out.extend_from_slice(b"shr"),
        BinOp::And => out.extend_from_slice(b"and"),
        BinOp::Or => out.extend_from_slice(b"or"),
        BinOp::Xor => out.extend_from_slice(b"xor"),
        BinOp::Lt => out.extend_from_slice(b"lt"),
        BinOp::Le => out.extend_from_slice(b"le"),
        BinOp::Gt => out.extend_from_slice(b"gt"),
        BinOp::Ge => out.extend_from_slice(b"ge"),
        BinOp::Eq => out.extend_from_slice(b"eq"),
        BinOp::Ne => out.extend_from_slice(b"ne"),
    }
}

/// Adds the word of an operator on one value.
pub fn put_unary(out: &mut Vec<u8>, op: UnOp) -> Result<(), AllocError>
    ensures { OnOk result (out.new.items ≡ out.old.items ++ unary_word op) }
{
    match op {
        UnOp::Neg => out.extend_from_slice(b"neg"),
        UnOp::Not => out.extend_from_slice(b"not"),
    }
}

/// Adds the word of an operator that may leave its second operand unasked.
pub fn put_lazy(out: &mut Vec<u8>, op: LazyOp) -> Result<(), AllocError>
    ensures { OnOk result (out.new.items ≡ out.old.items ++ lazy_word op) }
{
    match op {
        LazyOp::Both => out.extend_from_slice(b"and2"),
        LazyOp::Either => out.extend_from_slice(b"or2"),
    }
}

/// Adds the word of what is asked of a pointer.
pub fn put_property(out: &mut Vec<u8>, property: Property) -> Result<(), AllocError>
    ensures { OnOk result (out.new.items ≡ out.old.items ++ property_word property) }
{
    match property {
        Property::Start => out.extend_from_slice(b"start"),
        Property::Size => out.extend_from_slice(b"size"),
        Property::Offset => out.extend_from_slice(b"offset"),
        Property::Freeable => out.extend_from_slice(b"freeable"),
        Property::Freed => out.extend_from_slice(b"freed"),
    }
}

/// Adds the word of what is tested of bytes behind a pointer.
pub fn put_range_test(out: &mut Vec<u8>, test: RangeTest) -> Result<(), AllocError>
    ensures { OnOk result (out.new.items ≡ out.old.items ++ test_word test) }
{
    match test {
        RangeTest::Accessible => out.extend_from_slice(b"ok"),
        RangeTest::Fresh => out.extend_from_slice(b"fresh"),
        RangeTest::New => out.extend_from_slice(b"new"),
    }
}

/// Adds the word of a quantifier.
pub fn put_quantifier(out: &mut Vec<u8>, quantifier: Quantifier) -> Result<(), AllocError>
    ensures { OnOk result (out.new.items ≡ out.old.items ++ quantifier_word quantifier) }
{
    match quantifier {
        Quantifier::ForAll => out.extend_from_slice(b"forall"),
        Quantifier::Exists => out.extend_from_slice(b"exists"),
    }
}

//! Values and types as texts that the language reads back.
ghost use Rattle.std.specs.Prelude.{◌≡◌, ◌++◌, codes, IfOk, OnOk, string_bytes};
ghost use Rattle.td_values.specs.Data.{attrs_of, fields_of, items_of, tuples_of, tuple};
ghost use Rattle.td_values.specs.Headings.{header_fields};
ghost use Rattle.td_values.specs.Shown.{braced, enclosed, literal, quoted, shown, shown_attrs, shown_fields, shown_items, shown_tuples, shown_type};

use crate::names::Name;
use crate::{Heading, Kind, TdType, Tuple, TypeKind, Value};
use itoa::Buffer;
use std::alloc::{AllocError, Global};

/// The value as a text.
pub fn show(alloc: Global, v: &Value) -> Result<String, AllocError>
    ensures { IfOk result (λ s. string_bytes s ≡ shown v.now) }
{
    let mut out = String::new(alloc);
    show_into(&mut out, v)?;
    Ok(out)
}

/// The type as a text.
pub fn show_type(alloc: Global, t: &TdType) -> Result<String, AllocError>
    ensures { IfOk result (λ s. string_bytes s ≡ shown_type t.now) }
{
    let mut out = String::new(alloc);
    show_type_into(&mut out, t)?;
    Ok(out)
}

// Appends the integer. The least one is written as a difference in brackets, since its digits alone are no literal.
fn show_integer(out: &mut String, n: i64) -> Result<(), AllocError>
    ensures { OnOk result (string_bytes out.new ≡ string_bytes out.old ++ literal n) }
{
    if n == i64::MIN {
        return out.push_str("(-9223372036854775807 - 1)");
    }
    let mut buffer = Buffer::new();
    out.push_str(buffer.format(n))
}

// Appends the text as a literal: in quotes, with each quote inside doubled.
fn show_text(out: &mut String, s: &str) -> Result<(), AllocError>
    ensures { OnOk result (string_bytes out.new ≡ string_bytes out.old ++ quoted s.now) }
{
    out.push_str("'")?;
    for c in s.chars() {
        if c == '\'' {
            out.push_str("''")?;
        } else {
            out.push(c)?;
        }
    }
    out.push_str("'")
}

/// Appends the type. After an error a part of it may stand in the text.
#[cycle(show_type)]
pub fn show_type_into(out: &mut String, t: &TdType) -> Result<(), AllocError>
    ensures { OnOk result (string_bytes out.new ≡ string_bytes out.old ++ shown_type t.now) }
{
    match &t.kind {
        TypeKind::Boolean => out.push_str("BOOLEAN"),
        TypeKind::Integer => out.push_str("INTEGER"),
        TypeKind::Char => out.push_str("CHAR"),
        TypeKind::User(n) => out.push_str(n.as_str()),
        TypeKind::Tuple(h) => {
            out.push_str("TUPLE ")?;
            show_heading(out, h)
        }
        TypeKind::Relation(h) => {
            out.push_str("RELATION ")?;
            show_heading(out, h)
        }
    }
}

// Appends the heading in braces: `{ a INTEGER, b CHAR }`.
#[cycle(show_type)]
fn show_heading(out: &mut String, h: &Heading) -> Result<(), AllocError>
    ensures { OnOk result (string_bytes out.new ≡ string_bytes out.old ++ braced (shown_fields (header_fields h.now))) }
{
    show_fields(out, &h.fields)
}

// Appends the fields in braces, with commas between: `{ a INTEGER, b CHAR }` or `{ }`.
#[cycle(show_type)]
fn show_fields(out: &mut String, fields: &[(Name, TdType)]) -> Result<(), AllocError>
    ensures { OnOk result (string_bytes out.new ≡ string_bytes out.old ++ braced (shown_fields (fields_of fields.now))) }
{
    if fields.is_empty() {
        return out.push_str("{ }");
    }
    out.push_str("{ ")?;
    out.push_str(fields[0].0.as_str())?;
    out.push_str(" ")?;
    show_type_into(out, &fields[0].1)?;
    let mut i = 1;
    while i < fields.len() {
        out.push_str(", ")?;
        out.push_str(fields[i].0.as_str())?;
        out.push_str(" ")?;
        show_type_into(out, &fields[i].1)?;
        i += 1;
    }
    out.push_str(" }")
}

/// Appends the value. After an error a part of it may stand in the text.
#[cycle(show)]
pub fn show_into(out: &mut String, v: &Value) -> Result<(), AllocError>
    ensures { OnOk result (string_bytes out.new ≡ string_bytes out.old ++ shown v.now) }
{
    match &v.kind {
        Kind::Boolean(b) => out.push_str(if *b { "TRUE" } else { "FALSE" }),
        Kind::Integer(n) => show_integer(out, *n),
        Kind::Char(s) => show_text(out, s.as_str()),
        Kind::User(p, vs) => {
            out.push_str(p.name().as_str())?;
            show_items(out, &vs.values)
        }
        Kind::Tuple(t) => show_tuple_into(out, t),
        Kind::Relation(r) => {
            out.push_str("RELATION ")?;
            show_heading(out, &r.heading)?;
            out.push_str(" ")?;
            show_tuples(out, &r.tuples)
        }
    }
}

/// Appends the tuple. After an error a part of it may stand in the text.
#[cycle(show)]
pub fn show_tuple_into(out: &mut String, t: &Tuple) -> Result<(), AllocError>
    ensures { OnOk result (string_bytes out.new ≡ string_bytes out.old ++ shown (tuple t.now)) }
{
    out.push_str("TUPLE ")?;
    show_attributes(out, &t.attributes)
}

// Appends the components of a user value, behind a space and in round brackets: ` ( 1, 'x' )` or ` ( )`.
#[cycle(show)]
fn show_items(out: &mut String, items: &[Value]) -> Result<(), AllocError>
    ensures { OnOk result (string_bytes out.new ≡ string_bytes out.old ++ (codes " " ++ enclosed (codes "(") (codes ")") (shown_items (items_of items.now)))) }
{
    if items.is_empty() {
        return out.push_str(" ( )");
    }
    out.push_str(" ( ")?;
    show_into(out, &items[0])?;
    let mut i = 1;
    while i < items.len() {
        out.push_str(", ")?;
        show_into(out, &items[i])?;
        i += 1;
    }
    out.push_str(" )")
}

// Appends the attributes in braces, with commas between: `{ a 1, b 'x' }` or `{ }`.
#[cycle(show)]
fn show_attributes(out: &mut String, a: &[(Name, Value)]) -> Result<(), AllocError>
    ensures { OnOk result (string_bytes out.new ≡ string_bytes out.old ++ braced (shown_attrs (attrs_of a.now))) }
{
    if a.is_empty() {
        return out.push_str("{ }");
    }
    out.push_str("{ ")?;
    out.push_str(a[0].0.as_str())?;
    out.push_str(" ")?;
    show_into(out, &a[0].1)?;
    let mut i = 1;
    while i < a.len() {
        out.push_str(", ")?;
        out.push_str(a[i].0.as_str())?;
        out.push_str(" ")?;
        show_into(out, &a[i].1)?;
        i += 1;
    }
    out.push_str(" }")
}

// Appends the tuples in braces, with commas between: `{ TUPLE { a 1 }, TUPLE { a 2 } }` or `{ }`.
#[cycle(show)]
fn show_tuples(out: &mut String, tuples: &[Tuple]) -> Result<(), AllocError>
    ensures { OnOk result (string_bytes out.new ≡ string_bytes out.old ++ braced (shown_tuples (tuples_of tuples.now))) }
{
    if tuples.is_empty() {
        return out.push_str("{ }");
    }
    out.push_str("{ ")?;
    show_tuple_into(out, &tuples[0])?;
    let mut i = 1;
    while i < tuples.len() {
        out.push_str(", ")?;
        show_tuple_into(out, &tuples[i])?;
        i += 1;
    }
    out.push_str(" }")
}

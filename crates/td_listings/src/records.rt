//! Records of comma-separated values.

ghost use Rattle.std.specs.Prelude.{◌≡◌, ◌++◌, IfOk, OnOk, map, string_bytes};
ghost use Rattle.std.specs.Io.KnownBytes.{Appends};
ghost use Rattle.std.specs.List.{flat_map};
ghost use Rattle.csv.specs.Writing.{text_written};
ghost use Rattle.td_values.specs.Data.{attrs_of};
ghost use Rattle.td_listings.specs.ForProofs.Written.{IsReady};
ghost use Rattle.td_listings.specs.Tables as spec;

use csv::{Writer, WriterBuilder};
use std::alloc::{AllocError, Global};
use std::io::Write;
use td_relations::Relation;
use td_values::{Heading, Kind, Name, Tuple, Value, show};

// The text of a field: that of a text is its own, any other value is shown.
fn cell(alloc: Global, value: &Value) -> Result<String, AllocError>
    ensures { IfOk result (λ text. string_bytes text ≡ spec.cell value.now) }
{
    match &value.kind {
        Kind::Char(text) => String::from_str(alloc, text.as_str()),
        _ => show(alloc, value),
    }
}

// The texts of the attributes' values, in their order.
fn cells(alloc: Global, attributes: &[(Name, Value)]) -> Result<Vec<String>, AllocError>
    ensures { IfOk result (λ v. map string_bytes v.items ≡ spec.cells (attrs_of attributes.now)) }
{
    let mut cells = Vec::with_capacity(alloc, attributes.len())?;
    for attribute in attributes {
        cells.push(cell(alloc, &attribute.1)?)?;
    }
    Ok(cells)
}

// The bytes of the texts, borrowed.
fn fields<'a>(alloc: Global, cells: &'a [String]) -> Result<Vec<&'a [u8]>, AllocError>
    ensures { IfOk result (λ v. map (λ f. f.now) v.items ≡ map string_bytes cells.now) }
{
    let mut fields = Vec::with_capacity(alloc, cells.len())?;
    for cell in cells {
        fields.push(cell.as_bytes())?;
    }
    Ok(fields)
}

// The bytes of the names of the heading's attributes, in its order and borrowed.
fn names<'a>(alloc: Global, heading: &'a Heading) -> Result<Vec<&'a [u8]>, AllocError>
    ensures { IfOk result (λ v. map (λ f. f.now) v.items ≡ spec.column_names heading.now) }
{
    let mut names = Vec::with_capacity(alloc, heading.len())?;
    for field in heading.fields() {
        names.push(field.0.as_str().as_bytes())?;
    }
    Ok(names)
}

// Writes a record behind the others.
fn write_record<W: Write + Drop>(writer: &mut Writer<W>, fields: &[&[u8]]) -> Result<(), AllocError>
    requires { IsReady writer.old }
    ensures ready { OnOk result (IsReady writer.new) }
    ensures text { OnOk result (Appends (text_written W.contents writer.old) (text_written W.contents writer.new) (spec.record_of (map (λ f. f.now) fields.now))) }
{
    match writer.write_fields(fields) {
        Ok(()) => Ok(()),
        Err(_) => Err(AllocError),
    }
}

// Writes the record of the attribute names.
fn write_names<W: Write + Drop>(
    alloc: Global,
    writer: &mut Writer<W>,
    heading: &Heading,
) -> Result<(), AllocError>
    requires { IsReady writer.old }
    ensures ready { OnOk result (IsReady writer.new) }
    ensures text { OnOk result (Appends (text_written W.contents writer.old) (text_written W.contents writer.new) (spec.record_of (spec.column_names heading.now))) }
{
    let names = names(alloc, heading)?;
    write_record(writer, names.as_slice())
}

// Writes the record of a tuple behind the others, a field for each value.
fn write_tuple<W: Write + Drop>(
    alloc: Global,
    writer: &mut Writer<W>,
    tuple: &Tuple,
) -> Result<(), AllocError>
    requires { IsReady writer.old }
    ensures ready { OnOk result (IsReady writer.new) }
    ensures text { OnOk result (Appends (text_written W.contents writer.old) (text_written W.contents writer.new) (spec.tuple_record tuple.now)) }
{
    let cells = cells(alloc, tuple.attributes())?;
    let fields = fields(alloc, cells.as_slice())?;
    write_record(writer, fields.as_slice())
}

// Writes a record for each tuple, in their order.
fn write_tuples<W: Write + Drop>(
    alloc: Global,
    writer: &mut Writer<W>,
    tuples: &[Tuple],
) -> Result<(), AllocError>
    requires { IsReady writer.old }
    ensures { OnOk result (Appends (text_written W.contents writer.old) (text_written W.contents writer.new) (flat_map spec.tuple_record tuples.now)) }
{
    for tuple in tuples {
        write_tuple(alloc, writer, tuple)?;
    }
    Ok(())
}

// Writes the record of the attribute names, and one for each tuple.
fn write_relation<W: Write + Drop>(
    alloc: Global,
    writer: &mut Writer<W>,
    relation: &Relation,
) -> Result<(), AllocError>
    requires { IsReady writer.old }
    ensures { OnOk result (Appends (text_written W.contents writer.old) (text_written W.contents writer.new) (spec.table_of relation.now)) }
{
    write_names(alloc, writer, relation.heading())?;
    write_tuples(alloc, writer, relation.tuples())
}

/// The table of a relation: a record of the attribute names in name order, and one for each tuple, ascending.
pub fn relation_table(alloc: Global, relation: &Relation) -> Result<Vec<u8>, AllocError>
    ensures { IfOk result (λ text. text.items ≡ spec.table_of relation.now) }
{
    let mut writer = WriterBuilder::new().from_writer(Vec::new(alloc));
    write_relation(alloc, &mut writer, relation)?;
    match writer.into_inner() {
        Ok(text) => Ok(text),
        Err(_) => Err(AllocError),
    }
}

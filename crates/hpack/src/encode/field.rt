//! Writing fields.

ghost use Rattle.std.specs.Prelude.{◌≡◌, ◌%◌, ◌^◌, ◌<◌, ◌≤◌, ◌++◌, ◌==◌, if◌then◌else◌, [], OnOk};
ghost use Rattle.std.specs.Prelude.{length};
ghost use Rattle.hpack_text.specs.Integers.{integer};
ghost use Rattle.hpack_text.specs.Strings.{string};
ghost use Rattle.hpack_text.specs.Appended.{IsExtended};
ghost use Rattle.hpack.specs.Choice.{encoding_of_field, literal_head};
ghost use Rattle.hpack.specs.ChoiceModel.{choice_of, index_of};

use crate::encode::choice::Choice;
use crate::types::fault::Fault;
use crate::types::field::Field;
use crate::types::literal::Literal;
use hpack_text::{write_int, write_string};

/// Appends a field as it was chosen. On `Err` a prefix of it has been appended.
pub(crate) fn append_field(choice: Choice, field: &Field, out: &mut Vec<u8>) -> Result<(), Fault>
    requires index { index_of choice < 2 ^ 35 }
    requires name { length field.now.name < 2 ^ 35 }
    requires value { length field.now.value < 2 ^ 35 }
    ensures ok { OnOk result (out.new.items ≡ out.old.items
        ++ encoding_of_field (choice_of choice) field.now) }
    ensures extended { IsExtended out.old.items out.new.items }
{
    match choice {
        Choice::Indexed(index) => append_int(7, 0x80, index, out),
        Choice::Literal(kind, index) => append_literal(kind, index, field, out),
    }
}

// rule: HPACK 6.2.3 A sensitive field is never indexed
// rule: HPACK 6.2 (own) A literal is encoded with the least index of its name
/// Appends a field as a literal. On `Err` a prefix of it has been appended.
fn append_literal(kind: Literal, index: u64, field: &Field, out: &mut Vec<u8>) -> Result<(), Fault>
    requires index { index < 2 ^ 35 }
    requires name { length field.now.name < 2 ^ 35 }
    requires value { length field.now.value < 2 ^ 35 }
    ensures ok { OnOk result (out.new.items ≡ out.old.items ++ (literal_head kind index
        ++ ((if index == 0 then string field.now.name else []) ++ string field.now.value))) }
    ensures extended { IsExtended out.old.items out.new.items }
{
    append_head(kind, index, out)?;
    if index == 0 {
        append_string(field.name.as_slice(), out)?;
    }
    append_string(field.value.as_slice(), out)
}

// rule: HPACK 6.2 (own) A literal is encoded with the least index of its name
/// Appends the head of a literal. On `Err` a prefix of it has been appended.
fn append_head(kind: Literal, index: u64, out: &mut Vec<u8>) -> Result<(), Fault>
    requires { index < 2 ^ 35 }
    ensures ok { OnOk result (out.new.items ≡ out.old.items ++ literal_head kind index) }
    ensures extended { IsExtended out.old.items out.new.items }
{
    match kind {
        Literal::WithIndexing => append_int(6, 0x40, index, out),
        Literal::WithoutIndexing => append_int(4, 0x00, index, out),
        Literal::NeverIndexed => append_int(4, 0x10, index, out),
    }
}

// rule: HPACK 6.2 (own) A literal is encoded with the least index of its name
/// Appends an integer. On `Err` nothing has changed. Most integers have one octet.
#[inline(always)]
pub(crate) fn append_int(
    prefix_bits: u8,
    first_bits: u8,
    value: u64,
    out: &mut Vec<u8>,
) -> Result<(), Fault>
    requires at_least { 1 ≤ prefix_bits }
    requires at_most { prefix_bits ≤ 8 }
    requires value { value < 2 ^ 35 }
    requires first_bits { first_bits % 2 ^ prefix_bits ≡ 0 }
    ensures ok { OnOk result
        (out.new.items ≡ out.old.items ++ integer prefix_bits first_bits value) }
    ensures extended { IsExtended out.old.items out.new.items }
{
    if value < (1 << prefix_bits) - 1 {
        out.push(first_bits + value as u8)?;
        return Ok(());
    }
    write_int(prefix_bits, first_bits, value, out)?;
    Ok(())
}

/// Appends a string. On `Err` nothing has changed.
fn append_string(text: &[u8], out: &mut Vec<u8>) -> Result<(), Fault>
    requires { length text.now < 2 ^ 35 }
    ensures ok { OnOk result (out.new.items ≡ out.old.items ++ string text.now) }
    ensures extended { IsExtended out.old.items out.new.items }
{
    write_string(text, out)?;
    Ok(())
}

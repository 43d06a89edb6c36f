ghost use Rattle.std.specs.Prelude.{◌≡◌, ◌≤◌, ◌++◌, ℕ, List, Ok, OnOk, OnErr, length};
ghost use Rattle.std.specs.Int.{w8, w16, w32, w64, w128};
ghost use Rattle.mc_bytes.specs.Reading.{Yields};
ghost use Rattle.mc_bytes.specs.NumberBytes.{number_spells};
ghost use Rattle.mc_fields.specs.IntegerBytes.{ReadsFixed, SpellsBool, boolean_read};
ghost use Rattle.mc_fields.specs.IntegerBytes.{boolean_spelling, signed_read, signed_spelling};
ghost use Rattle.mc_fields.specs.IntegerBytes.{signed_spells};

use mc_bytes::{
    Cursor, FieldFault, NoMemory, Stop, placed, write_u8, write_u16, write_u32, write_u64,
};

/// Takes a truth value of one byte: false for 00, true for each other byte. `Short` where none is
/// left.
pub fn take_bool(cursor: &mut Cursor<'_>) -> Result<bool, Stop>
    ensures { Yields (λ value. (value, cursor.new)) result (boolean_read cursor.old) }
{
    Ok(cursor.u8()? != 0)
}

/// Takes a signed number of one byte. `Short` where none is left.
pub fn take_i8(cursor: &mut Cursor<'_>) -> Result<i8, Stop>
    ensures { Yields (λ n. (n, cursor.new)) result (signed_read w8 cursor.old) }
{
    Ok(cursor.u8()?.cast_signed())
}

/// Takes a signed number of two bytes. `Short` where fewer are left.
pub fn take_i16(cursor: &mut Cursor<'_>) -> Result<i16, Stop>
    ensures { Yields (λ n. (n, cursor.new)) result (signed_read w16 cursor.old) }
{
    Ok(cursor.u16()?.cast_signed())
}

/// Takes a signed number of four bytes. `Short` where fewer are left.
pub fn take_i32(cursor: &mut Cursor<'_>) -> Result<i32, Stop>
    ensures { Yields (λ n. (n, cursor.new)) result (signed_read w32 cursor.old) }
{
    Ok(cursor.u32()?.cast_signed())
}

/// Takes a signed number of eight bytes. `Short` where fewer are left.
pub fn take_i64(cursor: &mut Cursor<'_>) -> Result<i64, Stop>
    ensures { Yields (λ n. (n, cursor.new)) result (signed_read w64 cursor.old) }
{
    Ok(cursor.u64()?.cast_signed())
}

/// Reads a byte at an offset as a truth value, false for 00 and true for each other byte: the value
/// and the offset after it. `Short` where none is left.
pub fn read_bool(bytes: &[u8], at: usize) -> Result<(bool, usize), FieldFault>
    requires { at ≤ length bytes.now }
    ensures { ReadsFixed SpellsBool 1 bytes.now at result }
{
    let mut cursor = Cursor::at(bytes, at);
    let value = take_bool(&mut cursor);
    placed(bytes, value, &cursor)
}

/// Reads a byte with a sign at an offset: its value and the offset after it. `Short` where none is
/// left.
pub fn read_i8(bytes: &[u8], at: usize) -> Result<(i8, usize), FieldFault>
    requires { at ≤ length bytes.now }
    ensures { ReadsFixed (signed_spells w8) 1 bytes.now at result }
{
    let mut cursor = Cursor::at(bytes, at);
    let value = take_i8(&mut cursor);
    placed(bytes, value, &cursor)
}

/// Reads a byte at an offset: its value and the offset after it. `Short` where none is left.
pub fn read_u8(bytes: &[u8], at: usize) -> Result<(u8, usize), FieldFault>
    requires { at ≤ length bytes.now }
    ensures { ReadsFixed (number_spells w8) 1 bytes.now at result }
{
    let mut cursor = Cursor::at(bytes, at);
    let value = cursor.u8();
    placed(bytes, value, &cursor)
}

/// Reads two bytes with a sign at an offset: their value and the offset after them. `Short` where
/// fewer are left.
pub fn read_i16(bytes: &[u8], at: usize) -> Result<(i16, usize), FieldFault>
    requires { at ≤ length bytes.now }
    ensures { ReadsFixed (signed_spells w16) 2 bytes.now at result }
{
    let mut cursor = Cursor::at(bytes, at);
    let value = take_i16(&mut cursor);
    placed(bytes, value, &cursor)
}

/// Reads two bytes at an offset: their value and the offset after them. `Short` where
/// fewer are left.
pub fn read_u16(bytes: &[u8], at: usize) -> Result<(u16, usize), FieldFault>
    requires { at ≤ length bytes.now }
    ensures { ReadsFixed (number_spells w16) 2 bytes.now at result }
{
    let mut cursor = Cursor::at(bytes, at);
    let value = cursor.u16();
    placed(bytes, value, &cursor)
}

/// Reads four bytes with a sign at an offset: their value and the offset after them. `Short` where
/// fewer are left.
pub fn read_i32(bytes: &[u8], at: usize) -> Result<(i32, usize), FieldFault>
    requires { at ≤ length bytes.now }
    ensures { ReadsFixed (signed_spells w32) 4 bytes.now at result }
{
    let mut cursor = Cursor::at(bytes, at);
    let value = take_i32(&mut cursor);
    placed(bytes, value, &cursor)
}

/// Reads four bytes at an offset: their value and the offset after them. `Short` where
/// fewer are left.
pub fn read_u32(bytes: &[u8], at: usize) -> Result<(u32, usize), FieldFault>
    requires { at ≤ length bytes.now }
    ensures { ReadsFixed (number_spells w32) 4 bytes.now at result }
{
    let mut cursor = Cursor::at(bytes, at);
    let value = cursor.u32();
    placed(bytes, value, &cursor)
}

/// Reads eight bytes with a sign at an offset: their value and the offset after them. `Short` where
/// fewer are left.
pub fn read_i64(bytes: &[u8], at: usize) -> Result<(i64, usize), FieldFault>
    requires { at ≤ length bytes.now }
    ensures { ReadsFixed (signed_spells w64) 8 bytes.now at result }
{
    let mut cursor = Cursor::at(bytes, at);
    let value = take_i64(&mut cursor);
    placed(bytes, value, &cursor)
}

/// Reads eight bytes at an offset: their value and the offset after them. `Short` where
/// fewer are left.
pub fn read_u64(bytes: &[u8], at: usize) -> Result<(u64, usize), FieldFault>
    requires { at ≤ length bytes.now }
    ensures { ReadsFixed (number_spells w64) 8 bytes.now at result }
{
    let mut cursor = Cursor::at(bytes, at);
    let value = cursor.u64();
    placed(bytes, value, &cursor)
}

/// Reads sixteen bytes at an offset: their value and the offset after them. `Short` where
/// fewer are left.
pub fn read_u128(bytes: &[u8], at: usize) -> Result<(u128, usize), FieldFault>
    requires { at ≤ length bytes.now }
    ensures { ReadsFixed (number_spells w128) 16 bytes.now at result }
{
    let mut cursor = Cursor::at(bytes, at);
    let value = cursor.u128();
    placed(bytes, value, &cursor)
}

/// Appends a truth value as 00 or 01. Without memory `out` is as before.
pub fn write_bool(value: bool, out: &mut Vec<u8>) -> Result<(), NoMemory>
    ensures ok { OnOk result (out.new.items ≡ out.old.items ++ boolean_spelling value) }
    ensures spelled { SpellsBool value (boolean_spelling value) }
    // What is written is read again, whatever follows.
    ensures again { (rest : List ℕ) →
        boolean_read (boolean_spelling value ++ rest) ≡ Ok (value, rest) }
    ensures err { OnErr result (out.new.items ≡ out.old.items) }
{
    write_u8(if value { 1 } else { 0 }, out)
}

/// Appends one byte with a sign. Without memory `out` is as before.
pub fn write_i8(value: i8, out: &mut Vec<u8>) -> Result<(), NoMemory>
    ensures ok { OnOk result (out.new.items ≡ out.old.items ++ signed_spelling w8 value) }
    ensures spelled { signed_spells w8 value (signed_spelling w8 value) }
    // What is written is read again, whatever follows.
    ensures again { (rest : List ℕ) →
        signed_read w8 (signed_spelling w8 value ++ rest) ≡ Ok (value, rest) }
    ensures err { OnErr result (out.new.items ≡ out.old.items) }
{
    write_u8(value.cast_unsigned(), out)
}

/// Appends two bytes with a sign, the high one first. Without memory `out` is as before.
pub fn write_i16(value: i16, out: &mut Vec<u8>) -> Result<(), NoMemory>
    ensures ok { OnOk result (out.new.items ≡ out.old.items ++ signed_spelling w16 value) }
    ensures spelled { signed_spells w16 value (signed_spelling w16 value) }
    // What is written is read again, whatever follows.
    ensures again { (rest : List ℕ) →
        signed_read w16 (signed_spelling w16 value ++ rest) ≡ Ok (value, rest) }
    ensures err { OnErr result (out.new.items ≡ out.old.items) }
{
    write_u16(value.cast_unsigned(), out)
}

/// Appends four bytes with a sign, the highest first. Without memory `out` is as before.
pub fn write_i32(value: i32, out: &mut Vec<u8>) -> Result<(), NoMemory>
    ensures ok { OnOk result (out.new.items ≡ out.old.items ++ signed_spelling w32 value) }
    ensures spelled { signed_spells w32 value (signed_spelling w32 value) }
    // What is written is read again, whatever follows.
    ensures again { (rest : List ℕ) →
        signed_read w32 (signed_spelling w32 value ++ rest) ≡ Ok (value, rest) }
    ensures err { OnErr result (out.new.items ≡ out.old.items) }
{
    write_u32(value.cast_unsigned(), out)
}

/// Appends eight bytes with a sign, the highest first. Without memory `out` is as before.
pub fn write_i64(value: i64, out: &mut Vec<u8>) -> Result<(), NoMemory>
    ensures ok { OnOk result (out.new.items ≡ out.old.items ++ signed_spelling w64 value) }
    ensures spelled { signed_spells w64 value (signed_spelling w64 value) }
    // What is written is read again, whatever follows.
    ensures again { (rest : List ℕ) →
        signed_read w64 (signed_spelling w64 value ++ rest) ≡ Ok (value, rest) }
    ensures err { OnErr result (out.new.items ≡ out.old.items) }
{
    write_u64(value.cast_unsigned(), out)
}

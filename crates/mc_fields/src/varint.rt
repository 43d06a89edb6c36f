ghost use Rattle.std.specs.Prelude.{◌≡◌, ◌+◌, ◌-◌, ◌*◌, ◌%◌, ◌^◌, ◌<◌, ◌≤◌, ◌++◌, ◌↔◌, ◌⊎◌, ℕ};
ghost use Rattle.std.specs.Prelude.{List, Ok, IfOk, OnOk, OnErr, IfErr, IsErrOf, take, drop};
ghost use Rattle.std.specs.Prelude.{length};
ghost use Rattle.std.specs.Int.{w32, cast_signed};
ghost use lib.IntN.{ℤ};
ghost use Rattle.mc_bytes.specs.Reading.{Yields};
ghost use Rattle.mc_bytes.specs.Placed.{SpelledAt, placed, fault_at};
ghost use Rattle.mc_fields.specs.Varint.{SpellsVarint, GoesOn, IsCut, groups_read, groups_spelling};
ghost use Rattle.mc_fields.specs.Varint.{varint_read, varint_spelling};

use mc_bytes::{Cursor, FieldFault, Kind, NoMemory, Stop, placed, write_octets};

/// The most bytes that a VarInt has.
pub const VARINT_MAX: usize = 5;

/// The sum of the groups of seven bits at the front of some bytes, and how many bytes they take.
fn sum_groups(bytes: &[u8], room: usize) -> Result<(u64, usize), Kind>
    requires { room ≤ 5 }
    ensures gives { Yields (λ sum. (sum.0, drop sum.1 bytes.now)) result
        (groups_read room bytes.now) }
    ensures within { IfOk result (λ sum. sum.1 ≤ length bytes.now) }
    ensures fits { IfOk result (λ sum. sum.0 < 2 ^ 35) }
{
    let mut sum = 0;
    let mut weight = 1;
    for i in 0..room {
        let Some(byte) = bytes.get(i) else {
            return Err(Kind::Short);
        };
        sum += u64::from(byte % 128) * weight;
        if *byte < 128 {
            return Ok((sum, i + 1));
        }
        weight *= 128;
    }
    Err(Kind::LongVarInt)
}

/// The number whose low 32 bits these are.
fn signed(sum: u64) -> i32
    ensures { result ≡ cast_signed w32 (sum % 2 ^ 32) }
{
    ((sum % (1 << 32)) as u32).cast_signed()
}

/// Takes a VarInt of at most `room` bytes. `Short` where the bytes end before its last byte,
/// `LongVarInt` where `room` bytes are there and none of them is the last.
pub fn take_varint_within(cursor: &mut Cursor<'_>, room: usize) -> Result<i32, Stop>
    requires { room ≤ 5 }
    ensures { Yields (λ value. (value, cursor.new)) result (varint_read room cursor.old) }
{
    match sum_groups(cursor.rest(), room) {
        Ok((sum, len)) => {
            cursor.skip(len);
            Ok(signed(sum))
        }
        Err(kind) => Err(cursor.stop(kind)),
    }
}

/// Takes a VarInt.
pub fn take_varint(cursor: &mut Cursor<'_>) -> Result<i32, Stop>
    ensures { Yields (λ value. (value, cursor.new)) result (varint_read 5 cursor.old) }
{
    take_varint_within(cursor, VARINT_MAX)
}

/// Reads a VarInt at an offset: its value and the offset after it.
///
/// Each spelling of at most five bytes is read, bits past the 32nd are ignored. Both faults are at
/// the VarInt's first byte.
pub fn read_varint(bytes: &[u8], at: usize) -> Result<(i32, usize), FieldFault>
    requires { at ≤ length bytes.now }
    ensures found { IfOk result (λ read. SpelledAt (SpellsVarint 5 read.0) bytes.now at read.1) }
    ensures only { (value : ℤ) (end : ℕ) → SpelledAt (SpellsVarint 5 value) bytes.now at end →
        result ≡ Ok (value, end) }
    ensures long { IsErrOf result (fault_at Kind.LongVarInt at) ↔ GoesOn 5 (drop at bytes.now) }
    ensures short { IsErrOf result (fault_at Kind.Short at) ↔ IsCut 5 (drop at bytes.now) }
    ensures faults { IfErr result (λ fault. (fault ≡ fault_at Kind.LongVarInt at) ⊎
        (fault ≡ fault_at Kind.Short at)) }
{
    let mut cursor = Cursor::at(bytes, at);
    let value = take_varint(&mut cursor);
    placed(bytes, value, &cursor)
}

/// The bytes of a VarInt of a number, none shorter, and how many they are.
fn groups(value: u32) -> ([u8; 5], usize)
    ensures within { result.1 ≤ 5 }
    ensures spelling { take result.1 result.0 ≡ groups_spelling 5 value }
{
    let mut bytes = [0; 5];
    let mut rest = value;
    let mut len = 0;
    while rest >= 128 {
        bytes[len] = (rest % 128 + 128) as u8;
        rest /= 128;
        len += 1;
    }
    bytes[len] = rest as u8;
    (bytes, len + 1)
}

/// Appends a VarInt of a number, none shorter. Without memory `out` is as before.
#[tactic(auto, unfolding(crate::specs::Varint::varint_spelling))]
pub fn write_varint(value: i32, out: &mut Vec<u8>) -> Result<(), NoMemory>
    ensures ok { OnOk result (out.new.items ≡ out.old.items ++ varint_spelling value) }
    ensures spelled { SpellsVarint 5 value (varint_spelling value) }
    ensures shortest { (bytes : List ℕ) →
        SpellsVarint 5 value bytes → length (varint_spelling value) ≤ length bytes }
    // What is written is read again, whatever follows.
    ensures again { (rest : List ℕ) →
        varint_read 5 (varint_spelling value ++ rest) ≡ Ok (value, rest) }
    ensures err { OnErr result (out.new.items ≡ out.old.items) }
{
    let (bytes, len) = groups(value.cast_unsigned());
    write_octets(&bytes[..len], out)
}

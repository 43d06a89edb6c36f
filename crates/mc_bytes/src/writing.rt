ghost use Rattle.std.specs.Prelude.{◌≡◌, ◌++◌, ℕ, List, Ok, OnOk, OnErr};
ghost use Rattle.std.specs.Int.{w8, w16, w32, w64, w128};
ghost use Rattle.mc_bytes.specs.NumberBytes.{number_read, number_spells, number_spelling};

use crate::NoMemory;

/// Appends bytes as they are. Without memory `out` is as before.
pub fn write_octets(bytes: &[u8], out: &mut Vec<u8>) -> Result<(), NoMemory>
    ensures ok { OnOk result (out.new.items ≡ out.old.items ++ bytes.now) }
    ensures err { OnErr result (out.new.items ≡ out.old.items) }
{
    out.extend_from_slice(bytes)?;
    Ok(())
}

/// Appends a number of one byte. Without memory `out` is as before.
#[tactic(auto, unfolding(crate::specs::NumberBytes::number_spelling))]
pub fn write_u8(n: u8, out: &mut Vec<u8>) -> Result<(), NoMemory>
    ensures ok { OnOk result (out.new.items ≡ out.old.items ++ number_spelling w8 n) }
    ensures spelled { number_spells w8 n (number_spelling w8 n) }
    // What is written is read again, whatever follows.
    ensures again { (rest : List ℕ) →
        number_read w8 (number_spelling w8 n ++ rest) ≡ Ok (n, rest) }
    ensures err { OnErr result (out.new.items ≡ out.old.items) }
{
    write_octets(&u8::to_be_bytes(n), out)
}

/// Appends a number of two bytes, the high one first. Without memory `out` is as before.
#[tactic(auto, unfolding(crate::specs::NumberBytes::number_spelling))]
pub fn write_u16(n: u16, out: &mut Vec<u8>) -> Result<(), NoMemory>
    ensures ok { OnOk result (out.new.items ≡ out.old.items ++ number_spelling w16 n) }
    ensures spelled { number_spells w16 n (number_spelling w16 n) }
    // What is written is read again, whatever follows.
    ensures again { (rest : List ℕ) →
        number_read w16 (number_spelling w16 n ++ rest) ≡ Ok (n, rest) }
    ensures err { OnErr result (out.new.items ≡ out.old.items) }
{
    write_octets(&u16::to_be_bytes(n), out)
}

/// Appends a number of four bytes, the highest first. Without memory `out` is as before.
#[tactic(auto, unfolding(crate::specs::NumberBytes::number_spelling))]
pub fn write_u32(n: u32, out: &mut Vec<u8>) -> Result<(), NoMemory>
    ensures ok { OnOk result (out.new.items ≡ out.old.items ++ number_spelling w32 n) }
    ensures spelled { number_spells w32 n (number_spelling w32 n) }
    // What is written is read again, whatever follows.
    ensures again { (rest : List ℕ) →
        number_read w32 (number_spelling w32 n ++ rest) ≡ Ok (n, rest) }
    ensures err { OnErr result (out.new.items ≡ out.old.items) }
{
    write_octets(&u32::to_be_bytes(n), out)
}

/// Appends a number of eight bytes, the highest first. Without memory `out` is as before.
#[tactic(auto, unfolding(crate::specs::NumberBytes::number_spelling))]
pub fn write_u64(n: u64, out: &mut Vec<u8>) -> Result<(), NoMemory>
    ensures ok { OnOk result (out.new.items ≡ out.old.items ++ number_spelling w64 n) }
    ensures spelled { number_spells w64 n (number_spelling w64 n) }
    // What is written is read again, whatever follows.
    ensures again { (rest : List ℕ) →
        number_read w64 (number_spelling w64 n ++ rest) ≡ Ok (n, rest) }
    ensures err { OnErr result (out.new.items ≡ out.old.items) }
{
    write_octets(&u64::to_be_bytes(n), out)
}

/// Appends a number of sixteen bytes, the highest first. Without memory `out` is as before.
#[tactic(auto, unfolding(crate::specs::NumberBytes::number_spelling))]
pub fn write_u128(n: u128, out: &mut Vec<u8>) -> Result<(), NoMemory>
    ensures ok { OnOk result (out.new.items ≡ out.old.items ++ number_spelling w128 n) }
    ensures spelled { number_spells w128 n (number_spelling w128 n) }
    // What is written is read again, whatever follows.
    ensures again { (rest : List ℕ) →
        number_read w128 (number_spelling w128 n ++ rest) ≡ Ok (n, rest) }
    ensures err { OnErr result (out.new.items ≡ out.old.items) }
{
    write_octets(&u128::to_be_bytes(n), out)
}

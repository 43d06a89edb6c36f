use std::fmt;
use std::fmt::Display;

/// Bytes as text: the end of a line is `|`, a byte of no visible ASCII character `\xHH`, as is that
/// of a bar, and a backslash is doubled. No bytes are `-`.
#[derive(Clone, Copy)]
pub struct Shown<'a> {
    bytes: &'a [u8],
}

impl<'a> Shown<'a> {
    /// Takes the bytes.
    pub fn new(bytes: &'a [u8]) -> Shown<'a> {
        Shown { bytes }
    }
}

impl<'a> Display for Shown<'a> {
    fn fmt<W: fmt::Write>(&self, f: &mut fmt::Formatter<W>) -> fmt::Result {
        if self.bytes.is_empty() {
            return f.write_str("-");
        }
        for byte in self.bytes {
            put_shown(*byte, f)?;
        }
        Ok(())
    }
}

/// Writes one byte as text.
fn put_shown<W: fmt::Write>(byte: u8, f: &mut fmt::Formatter<W>) -> fmt::Result {
    if byte == b'\n' {
        return f.write_str("|");
    }
    if byte == b'\\' {
        return f.write_str("\\\\");
    }
    if byte < 0x20 || byte > 0x7e || byte == b'|' {
        return write!(f, "\\x{byte:02x}");
    }
    f.write_char(char::from(byte))
}

/// Bytes as hex. No bytes are `-`.
#[derive(Clone, Copy)]
pub struct Hex<'a> {
    bytes: &'a [u8],
}

impl<'a> Hex<'a> {
    /// Takes the bytes.
    pub fn new(bytes: &'a [u8]) -> Hex<'a> {
        Hex { bytes }
    }
}

impl<'a> Display for Hex<'a> {
    fn fmt<W: fmt::Write>(&self, f: &mut fmt::Formatter<W>) -> fmt::Result {
        if self.bytes.is_empty() {
            return f.write_str("-");
        }
        for byte in self.bytes {
            write!(f, "{byte:02x}")?;
        }
        Ok(())
    }
}

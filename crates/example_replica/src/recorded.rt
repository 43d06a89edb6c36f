use mc_bytes::NoMemory;
use mc_text::put_line;
use std::alloc::Global;

/// The bytes of lines of hex; empty lines and those that begin with a number sign are left out.
/// None where another line is no hex.
pub fn stream_of(alloc: Global, text: &str) -> Result<Option<Vec<u8>>, NoMemory> {
    let mut stream = Vec::new(alloc);
    for line in text.split('\n') {
        if !put_line(line.as_bytes(), &mut stream)? {
            return Ok(None);
        }
    }
    Ok(Some(stream))
}

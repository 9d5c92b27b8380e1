//! Bytes of memory, as a row gives and wants them.
use row_cases::Fault;
use rv_memory::Memory;

/// Puts ` AT=` and the bytes from an address on behind a text, two digits each.
pub fn put_bytes(text: &mut String, mem: &Memory, at: u32, count: usize) -> Result<(), Fault> {
    write!(text, " {at}=")?;
    let mut place = at;
    for _byte in 0..count {
        match mem.get(place) {
            Some(byte) => write!(text, "{byte:02x}")?,
            None => text.push_str("--")?,
        }
        place = place.wrapping_add(1);
    }
    Ok(())
}

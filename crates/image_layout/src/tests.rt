//! That images are read and written where memory is left.
use crate::*;
use rup_base::Text;
use std::test::*;

// A jump to itself at offset 64, which takes at most ten steps: seventeen words.
const LOOP: [u32; 17] = [
    0x3150_5552,
    1,
    0x44,
    0x40,
    4,
    0,
    0x40,
    0,
    0,
    0,
    0,
    1,
    0xffff_ffff,
    0xffff_ffff,
    10,
    0,
    0x6f,
];

#[test]
fn a_small_image_is_read_and_written(rt: HostRuntime) -> Result<(), Fail> {
    let mut bytes = Text::new(rt.alloc());
    for word in LOOP {
        bytes.extend_from_slice(&word.to_le_bytes())?;
    }
    let image = read_image(rt.alloc(), bytes.as_slice())
        .ok()
        .ok_or("an image")?;
    assert_eq!(rt; image.entry, 64, "the entry");
    assert_eq!(rt; image.bound.coefficient(None, None), 10, "the bound");
    let again = write_image(rt.alloc(), &image).ok().ok_or("memory")?;
    assert_eq!(rt; again.as_slice(), bytes.as_slice(), "the seventeen words");
    Ok(())
}

// Problems of growing size.
use std::alloc::{AllocError, Global};

const STEP: u32 = 0x4000_0000;

// A rule from kind 0 on: so many steps along a link lead back.
fn push_rule(words: &mut Vec<u32>, link: u32, n: u32) -> Result<(), AllocError> {
    words.push(0x3000_0000 | (n & 255) << 8)?;
    for _ in 0..n {
        words.push(STEP | link & 255)?;
    }
    Ok(())
}

// The end word, behind all others.
fn push_end(words: &mut Vec<u32>) -> Result<(), AllocError> {
    let before = words.len() & 0x0FFF_FFFF;
    words.push(0x7000_0000 | before as u32)?;
    Ok(())
}

// One kind on each side, and so many target links.
fn begun(heap: Global, links: u32) -> Result<Vec<u32>, AllocError> {
    let mut words = [0x1000_0001, 0x1000_0101].to_vec(heap)?;
    for _ in 0..links {
        words.push(0x2000_0000)?;
    }
    Ok(words)
}

// A link without rules.
pub(crate) fn chain(heap: Global) -> Result<Vec<u32>, AllocError> {
    let mut words = begun(heap, 1)?;
    words.push(0x5000_0000)?;
    push_end(&mut words)?;
    Ok(words)
}

// Two links that turn back after m and after n steps, and go in either order: m times n entries.
pub(crate) fn torus(heap: Global, m: u32, n: u32) -> Result<Vec<u32>, AllocError> {
    let mut words = begun(heap, 2)?;
    push_rule(&mut words, 0, m)?;
    push_rule(&mut words, 1, n)?;
    words.extend_from_slice(&[0x3000_0202, STEP, STEP | 1, STEP | 1, STEP, 0x5000_0000])?;
    push_end(&mut words)?;
    Ok(words)
}

// A source link that becomes a target link.
pub(crate) fn carried(heap: Global) -> Result<Vec<u32>, AllocError> {
    let mut words = [
        0x1000_0001,
        0x2000_0000,
        0x1000_0101,
        0x2000_0000,
        0x5000_0000,
        0x6000_0001,
        STEP,
    ]
    .to_vec(heap)?;
    push_end(&mut words)?;
    Ok(words)
}

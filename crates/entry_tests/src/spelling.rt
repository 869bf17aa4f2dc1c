//! Bytes, put one field behind the other.
use std::alloc::{AllocError, Global};

pub(crate) fn put_number(bytes: &mut Vec<u8>, number: u32) -> Result<(), AllocError> {
    bytes.extend_from_slice(&number.to_le_bytes())?;
    Ok(())
}

pub(crate) fn put_short(bytes: &mut Vec<u8>, text: &str) -> Result<(), AllocError> {
    let size = if text.len() < 65536 {
        text.len() as u16
    } else {
        65535
    };
    bytes.extend_from_slice(&size.to_le_bytes())?;
    bytes.extend_from_slice(text.as_bytes())?;
    Ok(())
}

pub(crate) fn put_long(bytes: &mut Vec<u8>, text: &str) -> Result<(), AllocError> {
    let size = if text.len() < 65536 {
        text.len() as u32
    } else {
        65535
    };
    put_number(bytes, size)?;
    bytes.extend_from_slice(text.as_bytes())?;
    Ok(())
}

/// The 18 bytes before the limits: caller 7, number 9, `a`@`%`, and how many limits follow.
pub(crate) fn front(alloc: Global, count: u32) -> Result<Vec<u8>, AllocError> {
    let mut bytes = Vec::new(alloc);
    put_number(&mut bytes, 7)?;
    put_number(&mut bytes, 9)?;
    put_short(&mut bytes, "a")?;
    put_short(&mut bytes, "%")?;
    put_number(&mut bytes, count)?;
    Ok(bytes)
}

// Words to and from streams of bytes, and a whole way from bytes to bytes.
#![tactic(auto)]

pub mod bytes;
pub mod input;
pub mod unblank;

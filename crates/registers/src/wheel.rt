// A computed register: one kind, and steps around it.
use bounded::Bounded;

pub mod calls;

// The steps are links from kind 0 to itself.
#[derive(Clone, Copy)]
pub struct Wheel {
    size: u16,
    steps: Bounded<u16, 8>,
}

use crate::{Body, Species};

// What a yard is asked.
#[derive(Clone, Copy, Debug, PartialEq, Eq)]
pub enum Call {
    Arrive(u32, Body),
    Withdraw(u32),
    // the species, and the least diameter and length
    Call(Species, u16, u16),
    Saw(u32),
    Back(u32),
    Find(u32),
    // the species, and the least and the largest diameter
    List(Species, u16, u16),
}

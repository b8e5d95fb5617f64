//! What a layout says of a program's address space, as definitions: areas, foreign ranges, the stack, the stop point and pins.
#![tactic(auto)]

pub mod kind;

//! The profile of dumps and its versions.

/// The newest version that is read.
pub const NEWEST: u32 = 2;

/// What knows how each type of a unit is read that is the same in all versions.
pub struct Dump;

/// Version 1: no buffers.
pub struct WithoutBuffers;

/// Version 2: signatures have buffers, and replies fill them.
pub struct WithBuffers;

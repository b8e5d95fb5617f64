//! The keys of a program by their kinds.

/// What a key is, with its number among the keys of its kind, from 0.
#[derive(Clone, Copy, Debug, PartialEq, Eq, Drop)]
pub enum KeyKind {
    Function(u32),
    Variable(u32),
    External(u32),
}

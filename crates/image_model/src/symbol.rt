// A symbol without its name.

/// Bytes of the start of a name: one more than a name of a program has at most, so that such a name is its own start.
pub const NAME_START_BYTES: usize = 256;

/// What a symbol table's entry holds besides the name. `binding` and `kind` are the two halves of st_info.
#[derive(Clone, Copy, Debug, PartialEq, Eq)]
pub struct SymbolFields {
    pub value: u32,
    pub size: u32,
    pub binding: u8,
    pub kind: u8,
    pub shndx: u16,
}

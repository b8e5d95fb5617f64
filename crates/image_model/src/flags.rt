// The flags of a segment. System V gABI, "Segment Permissions".
ghost use Rattle.std.specs.Prelude.{◌≡◌};
ghost use Rattle.image_model.specs.Loaded.{is_executable, is_writable};

/// PF_X.
pub fn is_executable(flags: u32) -> bool
    ensures { result ≡ is_executable flags }
{
    flags % 2 == 1
}

/// PF_W.
pub fn is_writable(flags: u32) -> bool
    ensures { result ≡ is_writable flags }
{
    flags / 2 % 2 == 1
}

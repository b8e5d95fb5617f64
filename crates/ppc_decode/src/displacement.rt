// Displacements and immediates as the fields of a word have them.
ghost use Rattle.std.specs.Prelude.{◌≡◌, ◌<◌, ◌^◌};
ghost use Rattle.isa_model.specs.Forms.{signed, displacement_in, displacement_between};

/// A field of 16 bits as a number with a sign.
pub fn signed_16(field: u32) -> i32
    requires { field < 2 ^ 16 }
    ensures { result ≡ signed 16 field }
{
    if field < 0x8000 {
        field as i32
    } else {
        field as i32 - 0x1_0000
    }
}

/// A field of 26 bits as a number with a sign.
pub fn signed_26(field: u32) -> i32
    requires { field < 2 ^ 26 }
    ensures { result ≡ signed 26 field }
{
    if field < 0x0200_0000 {
        field as i32
    } else {
        field as i32 - 0x0400_0000
    }
}

/// The displacement in the word of a conditional branch. Power ISA 2.07, Book I, "Branch Instructions": BD.
pub fn displacement_16_in(word: u32) -> i32
    ensures { result ≡ displacement_in 16 word }
{
    signed_16((word & 0xffff) - (word & 3))
}

/// The displacement in the word of a branch. Power ISA 2.07, Book I, "Branch Instructions": LI.
pub fn displacement_26_in(word: u32) -> i32
    ensures { result ≡ displacement_in 26 word }
{
    signed_26((word & 0x03ff_ffff) - (word & 3))
}

/// The displacement from an address to a target, cut to the field of a conditional branch.
#[tactic(auto, unfolding(isa_model::specs::Forms::displacement_between))]
pub fn displacement_16_between(at: u32, target: u32) -> i32
    ensures { result ≡ displacement_between 16 at target }
{
    displacement_16_in(target.wrapping_sub(at))
}

/// The displacement from an address to a target, cut to the field of a branch.
#[tactic(auto, unfolding(isa_model::specs::Forms::displacement_between))]
pub fn displacement_26_between(at: u32, target: u32) -> i32
    ensures { result ≡ displacement_between 26 at target }
{
    displacement_26_in(target.wrapping_sub(at))
}

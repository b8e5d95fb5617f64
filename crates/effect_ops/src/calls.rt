// The registers that a call of a function may change. PowerPC EABI, "Register Usage".
ghost use Rattle.std.specs.Prelude.{◌≡◌};
ghost use Rattle.effect_model.specs.Calls.{volatile};

use effect_model::Place;

static VOLATILE: [Place; 35] = [
    Place::Gpr(0),
    Place::Gpr(3),
    Place::Gpr(4),
    Place::Gpr(5),
    Place::Gpr(6),
    Place::Gpr(7),
    Place::Gpr(8),
    Place::Gpr(9),
    Place::Gpr(10),
    Place::Gpr(11),
    Place::Gpr(12),
    Place::Ctr,
    Place::Lr,
    Place::Ca,
    Place::So,
    Place::Bit(0),
    Place::Bit(1),
    Place::Bit(2),
    Place::Bit(3),
    Place::Bit(4),
    Place::Bit(5),
    Place::Bit(6),
    Place::Bit(7),
    Place::Bit(20),
    Place::Bit(21),
    Place::Bit(22),
    Place::Bit(23),
    Place::Bit(24),
    Place::Bit(25),
    Place::Bit(26),
    Place::Bit(27),
    Place::Bit(28),
    Place::Bit(29),
    Place::Bit(30),
    Place::Bit(31),
];

/// r0, r3 to r12, CTR, LR, CA, SO, and fields 0, 1 and 5 to 7 of the condition register, each once and in this order.
pub fn volatile() -> &'static [Place]
    ensures { result.now ≡ volatile }
{
    &VOLATILE
}

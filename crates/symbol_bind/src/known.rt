//! The addresses that keys have whatever uses them.

ghost use Rattle.std.specs.Prelude.{◌≡◌, ◌<◌, Some, None, length, option_map, if◌then◌else◌};
ghost use Rattle.image_model.specs.Image.{Image};
ghost use Rattle.link_model.specs.Candidates.{candidates, known_address, pin};
ghost use Rattle.link_model.specs.Numbers.{unit_name};
ghost use Rattle.link_model.specs.Program.{is_static};
ghost use Rattle.link_model.specs.Sets.{only_member};
ghost use Rattle.name_addresses.specs.Given.{given};
ghost use Rattle.name_addresses.specs.Keys.{declared};

use asm_syntax::name::Name;
use layout_file::layout::Layout;
use name_addresses::keys::{Key, KeyedProgram};

/// The unit whose own name a key is.
fn own_unit<'p, P: KeyedProgram>(program: &'p P, key: &Key) -> Option<&'p Name>
    requires { key.now.unit < length (P.program program.now).units }
    ensures { option_map (λ u. u.now) result
        ≡ (if is_static (declared key.now) then Some (unit_name (P.program program.now).units key.now.unit) else None) }
{
    if key.is_static() {
        Some(program.unit_name(key.unit))
    } else {
        None
    }
}

/// The address that the layout gives a key.
fn pin<P: KeyedProgram>(layout: &Layout, program: &P, key: &Key) -> Option<u32>
    requires { key.now.unit < length (P.program program.now).units }
    ensures { (v : Image) → result ≡ pin (given v layout.now (P.program program.now)) (declared key.now) }
{
    layout.pin(own_unit(program, key), key.name())
}

fn only_member(set: &[u32]) -> Option<u32>
    ensures { result ≡ only_member set.now }
{
    match set {
        [only] => Some(*only),
        _ => None,
    }
}

/// The pin of a key, or its only candidate.
#[tactic(auto, unfolding(link_model::specs::Candidates::known_address))]
pub fn known_address<P: KeyedProgram>(
    layout: &Layout,
    program: &P,
    key: &Key,
    offered: &[u32],
) -> Option<u32>
    requires { key.now.unit < length (P.program program.now).units }
    ensures { (v : Image) → offered.now ≡ candidates v (declared key.now)
        → result ≡ known_address (given v layout.now (P.program program.now)) (declared key.now) }
{
    match pin(layout, program, key) {
        Some(address) => Some(address),
        None => only_member(offered),
    }
}

//! What instructions name.

ghost use Rattle.std.specs.Prelude.{◌≡◌, ◌<◌, ◌^◌};
ghost use Rattle.code_model.specs.Addresses.{label_address, code_end};
ghost use Rattle.code_model.specs.Code.{first_label, target};

use crate::addresses::StandingCode;
use asm_syntax::instr::Instr;
use name_addresses::NameAddresses;

fn first_label(standing: &StandingCode, labels: &[u32]) -> u64
    requires { code_end standing.now.words standing.now.base standing.now.code.now < 2 ^ 32 }
    ensures range { result < 2 ^ 32 }
    ensures value { result ≡ first_label (label_address standing.now.words standing.now.base standing.now.code.now) labels.now }
{
    match labels {
        [] => 0,
        [label, ..] => standing.label(*label),
    }
}

/// The address of the symbol or of the label that an instruction names; 0 where it names none.
pub fn target<N: NameAddresses>(names: &N, standing: &StandingCode, instr: &Instr) -> u64
    requires { code_end standing.now.words standing.now.base standing.now.code.now < 2 ^ 32 }
    ensures range { result < 2 ^ 32 }
    ensures value { result ≡ target (N.address names.now)
        (label_address standing.now.words standing.now.base standing.now.code.now) instr.now }
{
    match instr.symbol() {
        Some(symbol) => u64::from(names.address_of(symbol.name())),
        None => first_label(standing, instr.labels_named()),
    }
}

//! Loads and stores by their form.

ghost use Rattle.std.specs.Prelude.{◌≡◌, if◌then◌else◌};
ghost use Rattle.asm_values.specs.Accesses.{changed, load_by, may_store_by, stored_by};
ghost use Rattle.isa_model.specs.Word.{sext16};

use asm_mem::blocks::Blocks;
use asm_mem::value::Val;
use effect_model::Form;
use word_ops::words::sext16;

fn sign_extended(v: Val) -> Val
    ensures { result ≡ changed sext16 v }
{
    match v {
        Val::Int(n) => Val::Int(sext16(n)),
        _ => Val::Undef,
    }
}

/// The value that a load gives. None where the access is undefined.
#[tactic(auto, using(crate::proofs::Signed::signed_some, crate::proofs::Signed::signed_none))]
pub fn load(blocks: &Blocks, form: Form, at: Val) -> Option<Val>
    ensures { result ≡ load_by blocks.now.live form at }
{
    match form {
        Form::Word => blocks.load(4, at),
        Form::Half => blocks.load(2, at),
        Form::Byte => blocks.load(1, at),
        Form::SignedHalf => match blocks.load(2, at) {
            Some(v) => Some(sign_extended(v)),
            None => None,
        },
        Form::ReversedWord => blocks.load_reversed(4, at),
        Form::ReversedHalf => blocks.load_reversed(2, at),
    }
}

/// Stores a value. False where the access is undefined, and then nothing changes.
pub fn store(blocks: &mut Blocks, form: Form, at: Val, v: Val) -> bool
    ensures answer { result ≡ may_store_by blocks.old.live form at }
    ensures after { blocks.new ≡ record blocks.old {
      live = if may_store_by blocks.old.live form at
          then stored_by blocks.old.live form at v else blocks.old.live;
    } }
{
    match form {
        Form::Word => blocks.store(4, at, v),
        Form::Half | Form::SignedHalf => blocks.store(2, at, v),
        Form::Byte => blocks.store(1, at, v),
        Form::ReversedWord => blocks.store_reversed(4, at, v),
        Form::ReversedHalf => blocks.store_reversed(2, at, v),
    }
}

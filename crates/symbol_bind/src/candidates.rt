//! The candidates of a name: the symbols that have it are neighbours in the index.

ghost use Rattle.std.specs.Prelude.{◌≡◌, ◌<◌, ◌&&◌, length, IfOk, Some};
ghost use Rattle.image_model.specs.Image.{Symbol};
ghost use Rattle.image_model.specs.Names.{fields_of};
ghost use Rattle.image_model.specs.declared.symbol.TheConstants.{NAME_START_BYTES};
ghost use Rattle.link_model.specs.Candidates.{is_candidate, serves};
ghost use Rattle.link_model.specs.Sets.{set_of};
ghost use Rattle.symbol_index.specs.Index.{in_order, first_place};
ghost use Rattle.symbol_bind.specs.Offers.{served};

use elf_view::SymbolFields;
use std::alloc::{AllocError, Global};
use symbol_index::index::SymIndex;

const SHN_UNDEF: u16 = 0;

const SHN_COMMON: u16 = 0xfff2;

const STT_FUNC: u8 = 2;

const STB_LOCAL: u8 = 0;

const STB_WEAK: u8 = 2;

/// Whether a symbol stands for an address and serves keys of this kind.
fn is_offered(fields: &SymbolFields, is_static: bool) -> bool
    ensures { (s : Symbol) → fields_of s ≡ fields.now → result ≡ (is_candidate s && serves is_static s) }
{
    let is_candidate = fields.shndx != SHN_UNDEF
        && fields.shndx != SHN_COMMON
        && fields.kind <= STT_FUNC;
    let serves = if is_static {
        fields.binding == STB_LOCAL
    } else {
        fields.binding != STB_LOCAL && fields.binding <= STB_WEAK
    };
    is_candidate && serves
}

/// The values that are offered for a name, in the order of the index.
fn served(
    alloc: Global,
    index: &SymIndex,
    name: &[u8],
    is_static: bool,
    first: u32,
) -> Result<Vec<u32>, AllocError>
    requires short { length name.now < NAME_START_BYTES }
    requires first { first_place index.now name.now ≡ Some first }
    ensures { IfOk result (λ v. v.items ≡ served name.now is_static (in_order index.now)) }
{
    let mut values = Vec::new(alloc);
    let count = index.places();
    for place in first..count {
        if !index.has_name(place, name) {
            return Ok(values);
        }
        let fields = index.fields(place);
        if is_offered(&fields, is_static) {
            values.push(fields.value)?;
        }
    }
    Ok(values)
}

/// The numbers of a list as a set.
fn make_set(values: &mut Vec<u32>)
    ensures { values.new.items ≡ set_of values.old.items }
{
    values.sort_unstable();
    values.dedup();
}

/// The candidates of a name whose first place is known.
pub fn candidates(
    alloc: Global,
    index: &SymIndex,
    name: &[u8],
    is_static: bool,
    first: u32,
) -> Result<Vec<u32>, AllocError>
    requires short { length name.now < NAME_START_BYTES }
    requires first { first_place index.now name.now ≡ Some first }
    ensures { IfOk result (λ v. v.items ≡ set_of (served name.now is_static index.now.symbols)) }
{
    let _count = index.places();
    let mut values = served(alloc, index, name, is_static, first)?;
    make_set(&mut values);
    Ok(values)
}

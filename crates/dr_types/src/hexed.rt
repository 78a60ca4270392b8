ghost use Rattle.std.specs.Prelude.{◌≡◌, IfOk, string_bytes};
ghost use Rattle.hex.specs.Hex.{encode_lower};
ghost use Rattle.dr_types.specs.Lines.{low_bytes};

use crate::memory::Memory;
use std::alloc::Global;

/// The low `len` bytes of a value, the least first, as hex digits in lower case: all 8 where `len`
/// is more.
#[tactic(auto, using(crate::proofs::LowBytes::take_at_most))]
pub fn hex_of(alloc: Global, len: u32, value: u64) -> Result<String, Memory>
    ensures { IfOk result (λ hex. string_bytes hex ≡ encode_lower (low_bytes len value)) }
{
    let bytes = value.to_le_bytes();
    Ok(hex::encode(alloc, &bytes[..(len as usize).min(8)])?)
}

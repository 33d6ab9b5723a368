//! The name of one common name.
ghost use Rattle.std.specs.Prelude.{◌≡◌, ℕ, ◌^◌, ◌<◌, List, length, IfOk};
ghost use Rattle.der_base.specs.Element.{IsElement};
ghost use Rattle.der_base.specs.Reading.{part};
ghost use Rattle.asn_types.specs.Name.{IsName, common_name, common_name_content};

use crate::oids::COMMON_NAME;
use cmp_values::Octets;
use der_base::Writer;
use std::alloc::{AllocError, Global};

/// The octets of the name that has one common name.
#[tactic(auto, using(crate::proofs::LengthLemmas::lengths))]
fn common_name_octets(alloc: Global, text: &[u8]) -> Result<Octets, AllocError>
    requires { length (common_name text.now) < 2 ^ 32 }
    ensures { IfOk result (λ octets. octets ≡ common_name text.now) }
{
    let mut writer = Writer::new(alloc);
    writer.put(0x06, COMMON_NAME)?;
    writer.put(0x0c, text)?;
    writer.wrap(0x30, 0)?;
    writer.wrap(0x31, 0)?;
    writer.wrap(0x30, 0)?;
    Ok(Octets::of(writer.finish()))
}

/// Writes the name that has one common name, `text`, as a UTF8String. `AllocError` where memory runs out.
pub fn write_cn(alloc: Global, text: &[u8]) -> Result<Octets, AllocError>
    requires { length (common_name text.now) < 2 ^ 32 }
    ensures written { IfOk result (λ octets. octets ≡ common_name text.now) }
    ensures named { IfOk result (λ octets.
        IsElement octets 0x30 (common_name_content text.now) × IsName (part 0x30 (common_name_content text.now))) }
{
    common_name_octets(alloc, text)
}

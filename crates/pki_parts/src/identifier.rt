//! Identifiers of requests, written.
ghost use Rattle.std.specs.Prelude.{◌≡◌, ◌++◌, OnOk};
ghost use Rattle.der_base.specs.Element.{element};
ghost use Rattle.pki_parts.specs.Identifier.{id_octets};

use der_base::Writer;
use std::alloc::AllocError;

/// Puts a certReqId (RFC 9810, 5.3.4).
pub(crate) fn put_id(writer: &mut Writer, id: i8) -> Result<(), AllocError>
    ensures { OnOk result (writer.new ≡ writer.old ++ element 0x02 (id_octets id)) }
{
    writer.put(0x02, &[id.cast_unsigned()])
}

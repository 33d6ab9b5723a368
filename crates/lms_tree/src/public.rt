// The octets of a public key (RFC 8554, 5.3).

ghost use Rattle.std.specs.Prelude.{◌≡◌, ◌+◌, ◌≤◌, ◌++◌, length, take, drop};
ghost use Rattle.std.specs.Int.{w32, to_be_bytes};

// Writes `part` at place `at`.
fn put(octets: &mut [u8; 56], at: usize, part: &[u8])
    requires { at + length part.now ≤ 56 }
    ensures { octets.new ≡ take at octets.old ++ part.now ++ drop (at + length part.now) octets.old }
{
    octets[at..at + part.len()].copy_from_slice(part);
}

// The typecodes, the identifier and the root, one behind the other.
pub(crate) fn public_octets(tree: u32, ots: u32, id: &[u8; 16], root: &[u8; 32]) -> [u8; 56]
    ensures { result ≡ to_be_bytes w32 tree ++ to_be_bytes w32 ots ++ id.now ++ root.now }
{
    let mut octets = [0u8; 56];
    put(&mut octets, 0, &tree.to_be_bytes());
    put(&mut octets, 4, &ots.to_be_bytes());
    put(&mut octets, 8, id);
    put(&mut octets, 24, root);
    octets
}

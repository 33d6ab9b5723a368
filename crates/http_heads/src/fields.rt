//! The fields of a head, looked up by their names.
ghost use Rattle.std.specs.Prelude.{◌≡◌, ◌≤◌, ◌∷◌, ℕ, List, length, map, All};
ghost use Rattle.std.specs.Str.{str_eq_ignore_ascii_case};
ghost use Rattle.httparse.specs.Spans.{IsHeaderWithin, header_bytes};
ghost use Rattle.http_heads.specs.Heads.{values};
ghost use Rattle.http_heads.specs.Values.{AreValues};

use httparse::spans::HeaderSpan;

/// The values of the fields of one name.
#[derive(Clone, Copy, Debug, PartialEq, Eq)]
pub enum Values<'b> {
    /// There is no such field.
    Missing,
    /// There is one.
    One(&'b [u8]),
    /// There are several, and this is the first.
    Several(&'b [u8]),
}

impl<'b> Values<'b> {
    // The same with this value before them.
    fn behind(self, first: &'b [u8]) -> Values<'b>
        ensures { (vs : List (List ℕ)) → AreValues vs self.entry → AreValues (first.entry.now ∷ vs) result }
    {
        match self {
            Values::Missing => Values::One(first),
            Values::One(_) | Values::Several(_) => Values::Several(first),
        }
    }
}

/// The values of the fields of this name, in which case doesn't count.
pub fn values_of<'b>(buffer: &'b [u8], fields: &[HeaderSpan], name: &[u8]) -> Values<'b>
    requires { All (IsHeaderWithin (length buffer.now)) fields.now }
    ensures { AreValues (values name.now (map (header_bytes buffer.now) fields.now)) result }
{
    match fields {
        [] => Values::Missing,
        [field, rest @ ..] => {
            let others = values_of(buffer, rest, name);
            if is_same(field.name.of(buffer), name) {
                others.behind(field.value.of(buffer))
            } else {
                others
            }
        }
    }
}

/// Whether two texts are the same, in which case doesn't count.
pub fn is_same(text: &[u8], other: &[u8]) -> bool
    ensures { result ≡ str_eq_ignore_ascii_case text.now other.now }
{
    text.eq_ignore_ascii_case(other)
}

//! A stream has one reading.
ghost use Rattle.std.specs.Prelude.{◌≡◌, ℕ, List};
ghost use Rattle.cmp_links.specs.declared.end.EndCause.{EndCause};
ghost use Rattle.http_heads.specs.Requests.{AreFirst, AreRequests, AreTheFirstOf, Posted};

/// However a stream is cut, its octets are one list of requests with one end; and requests that were read from its front are the first of
/// these. Does nothing: its clauses are the law.
pub fn a_stream_has_one_reading()
    ensures one { (all : List ℕ) (xs ys : List Posted) (a b : EndCause) → AreRequests 0 all xs a → AreRequests 0 all ys b → (xs ≡ ys) × (a ≡ b) }
    ensures first { (all : List ℕ) (xs ys : List Posted) (rest : List ℕ) (a : EndCause) → AreFirst 0 all xs rest → AreRequests 0 all ys a → AreTheFirstOf xs ys }
{}

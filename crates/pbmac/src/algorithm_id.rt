ghost use Rattle.std.specs.Prelude.{◌≡◌};
ghost use Rattle.der_base.specs.Reading.{part_of};
ghost use Rattle.asn_fields.specs.Fields.{Gives};
ghost use Rattle.pbmac.specs.Algorithm.{algorithm_of, alg_at};

use asn_fields::BadForm;
use asn_types::AlgorithmId;
use der_base::Element;

/// Reads an AlgorithmIdentifier (RFC 5280, 4.1.1.2). `BadForm` where the element is not one.
#[tactic(auto, unfolding(crate::specs::Algorithm::alg_at))]
pub fn read_alg<'a>(e: &Element<'a>) -> Result<AlgorithmId<'a>, BadForm>
    ensures { Gives algorithm_of result (alg_at (part_of e.now)) }
{
    asn_types::read_alg(e)
}

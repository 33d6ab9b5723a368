ghost use Rattle.pbmac_grammar.specs.Pbmac1.{AlgorithmIsSpelled, ParamsAreSpelled, ParamsAreOne};

/// An element is read as an AlgorithmIdentifier exactly where its octets are the spelling of that algorithm.
pub fn algorithm_is_spelled()
    ensures { AlgorithmIsSpelled }
{}

/// A salt and a count of rounds are read from an algorithm exactly where it is PBMAC1 with these.
pub fn params_are_spelled()
    ensures { ParamsAreSpelled }
{}

/// An algorithm is PBMAC1 with one salt and one count of rounds at most.
pub fn params_are_one()
    ensures { ParamsAreOne }
{}

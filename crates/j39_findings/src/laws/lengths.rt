//! The law of groups of one length.
ghost use Rattle.j39_network.specs.declared.plan.Plan.{Plan};
ghost use Rattle.j39_network.specs.Lengths.{HasOneLengthEach};
ghost use Rattle.j39_findings.specs.FoundByLengths.{IsFoundByLengths};

/// Of a plan whose groups have one length each F9 and F15 say what they said before groups had several.
pub fn plans_of_one_length_each()
    ensures { (plan : Plan) → HasOneLengthEach plan → IsFoundByLengths plan }
{}

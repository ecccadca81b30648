//! The law of flows of one length.
ghost use Rattle.j39_network.specs.Lengths.{HasOneLengthEach};
ghost use Rattle.j39_network.specs.declared.plan.Plan.{Plan as Plans};
ghost use Rattle.j39_world.specs.Flows.{HaveOneLengthEach};

/// Of a plan whose groups have one length each a flow is begun with messages of this length alone, as it was before
/// groups had several.
pub fn flows_have_one_length()
    ensures { (plan : Plans) → HasOneLengthEach plan → HaveOneLengthEach plan }
{}

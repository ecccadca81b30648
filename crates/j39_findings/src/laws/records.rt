//! The laws of records.
ghost use Rattle.j39_network.specs.declared.plan.Plan.{Plan};
ghost use Rattle.j39_network.specs.Records.{RecordsAreCounted};
ghost use Rattle.j39_network.specs.Records.{HasNoRecords};
ghost use Rattle.j39_findings.specs.WithoutRecords.{IsWithoutRecords};

/// The records of a message are those that have signals and end inside it.
pub fn records_are_counted()
    ensures { RecordsAreCounted }
{}

/// Of a plan without records F14 says nothing, and each message has those signals of its group that are there.
pub fn plans_without_records()
    ensures { (plan : Plan) → HasNoRecords plan → IsWithoutRecords plan }
{}

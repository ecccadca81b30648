//! Groups, again.
ghost use Rattle.std.specs.Prelude.{IfOk};
ghost use Rattle.std.specs.List.{AllZip};
ghost use Rattle.j39_variants.specs.VariantPlans.{IsCopyOfGroup, IsCopyOfMeaning, picked};

use super::flag_at;
use j39_network::{GroupPlan, Meaning};
use std::alloc::{AllocError, Global};

fn meaning(alloc: Global, meaning: &Meaning) -> Result<Meaning, AllocError>
    ensures { IfOk result (IsCopyOfMeaning meaning.now) }
{
    Ok(Meaning {
        spn: meaning.spn,
        values: meaning.values.to_vec(alloc)?,
    })
}

fn meanings(alloc: Global, meanings: &[Meaning]) -> Result<Vec<Meaning>, AllocError>
    ensures { IfOk result (λ v. AllZip IsCopyOfMeaning meanings.now v.items) }
{
    let mut copies = Vec::new(alloc);
    for stated in meanings {
        copies.push(meaning(alloc, stated)?)?;
    }
    Ok(copies)
}

fn group(alloc: Global, group: &GroupPlan) -> Result<GroupPlan, AllocError>
    ensures { IfOk result (IsCopyOfGroup group.now) }
{
    Ok(GroupPlan {
        label: group.label,
        pgn: group.pgn,
        priority: group.priority,
        length: group.length,
        private: group.private,
        most: group.most,
        every: group.every,
        when: group.when,
        signals: group.signals.to_vec(alloc)?,
        meanings: meanings(alloc, &group.meanings)?,
        texts: group.texts.to_vec(alloc)?,
    })
}

/// Copies of the groups whose flag is true, in order.
pub(super) fn copies(
    alloc: Global,
    flags: &[bool],
    groups: &[GroupPlan],
) -> Result<Vec<GroupPlan>, AllocError>
    ensures { IfOk result (λ v. AllZip IsCopyOfGroup (picked flags.now groups.now) v.items) }
{
    let mut copies = Vec::new(alloc);
    for (index, planned) in groups.iter().enumerate() {
        if flag_at(flags, index) {
            copies.push(group(alloc, planned)?)?;
        }
    }
    Ok(copies)
}

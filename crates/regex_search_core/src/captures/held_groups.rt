//! The groups of captures, which their copies share.
ghost use Rattle.std.specs.Prelude.{◌≡◌, IfOk};
ghost use Rattle.regex_search_core.specs.HeldGroups.{held_groups};

use crate::group_info::GroupInfo;
use crate::refused::Refused;
use std::alloc::Global;
use std::fmt;
use std::sync::Arc;

/// The groups that captures hold. Only those of captures that were made without memory are not shared.
#[derive(Drop)]
pub(super) enum HeldGroups {
    Owned(GroupInfo),
    Shared(Arc<GroupInfo, Global>),
}

// The text of the groups, so that the text of captures does not say whether they are shared.
impl fmt::Debug for HeldGroups {
    fn fmt<W: fmt::Write>(&self, f: &mut fmt::Formatter<W>) -> fmt::Result {
        fmt::Debug::fmt(self.get(), f)
    }
}

impl HeldGroups {
    /// Returns these groups, held so that copies share them. The only error is memory: this takes one allocation.
    pub(super) fn shared(alloc: Global, groups: GroupInfo) -> Result<HeldGroups, Refused>
        ensures { IfOk result (λ held. held_groups held ≡ groups) }
    {
        Ok(HeldGroups::Shared(Arc::new(alloc, groups)?))
    }

    /// Returns the groups.
    pub(super) fn get(&self) -> &GroupInfo
        ensures { result.now ≡ held_groups self.now }
    {
        match self {
            HeldGroups::Owned(groups) => groups,
            HeldGroups::Shared(groups) => &**groups,
        }
    }

    /// Returns the same groups. Allocates nothing if they are shared.
    pub(super) fn clone(&self) -> Result<HeldGroups, Refused>
        ensures { IfOk result (λ copy. held_groups copy ≡ held_groups self.now) }
    {
        match self {
            HeldGroups::Owned(groups) => Ok(HeldGroups::Owned(groups.clone()?)),
            HeldGroups::Shared(groups) => Ok(HeldGroups::Shared(Arc::try_clone(groups)?)),
        }
    }
}

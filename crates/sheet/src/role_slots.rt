// The slots in which the plates of roles 1, 2 and 3 stand: kept beside the plates, so that placing one has no loop. Bare indices, as a search for a
// plate gives them: a `Slot` would have to be made of each, which is no plainer.
ghost use Rattle.std.specs.Prelude.{◌≡◌, if◌then◌else◌};
ghost use Rattle.sheet.specs.declared.plate.Role.{Role as Roles};
ghost use Rattle.sheet.specs.Plates.{clash};
ghost use Rattle.sheet.specs.RoleSlots.{noted, earlier};

use crate::plate::Role;

#[derive(Clone, Copy, Default)]
pub struct RoleSlots {
    top_flange: Option<usize>,
    web: Option<usize>,
    bottom_flange: Option<usize>,
}

impl RoleSlots {
    // The slot of a role; none for other plates, of which several may stand.
    pub(crate) fn get(&self, role: Role) -> Option<usize>
        ensures { result ≡ noted role self.now }
    {
        match role {
            Role::TopFlange => self.top_flange,
            Role::Web => self.web,
            Role::BottomFlange => self.bottom_flange,
            Role::Other => None,
        }
    }

    // The first slot of a role, were one of its plates in this slot too.
    pub(crate) fn first(&self, role: Role, slot: usize) -> usize
        ensures { result ≡ earlier slot (noted role self.now) }
    {
        self.get(role).map_or(slot, |first| first.min(slot))
    }

    // Notes where the plate of a role stands, or that none does; other plates are not noted.
    pub(crate) fn note(&mut self, role: Role, slot: Option<usize>)
        ensures { (r : Roles) → noted r self.new ≡ (if clash role r then slot else noted r self.old) }
    {
        match role {
            Role::TopFlange => self.top_flange = slot,
            Role::Web => self.web = slot,
            Role::BottomFlange => self.bottom_flange = slot,
            Role::Other => {}
        }
    }
}

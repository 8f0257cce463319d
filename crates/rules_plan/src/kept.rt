// Plans that were made before.
ghost use Rattle.std.specs.Prelude.{◌<◌, length, IfSome, OnOk};
ghost use Rattle.annot_types.specs.Program.{Program};
ghost use Rattle.rules_plan.specs.Read.{ArePlansIn, AreKept};

use crate::body::GroupPlans;
use std::alloc::{AllocError, Global};

// About how many entries of maps are kept: 16 MiB.
const MOST: usize = 1 << 20;

/// Plans of groups that were made before, for when they are asked for again: the last ones, and those
/// before them as far as there is room.
#[derive(Drop)]
pub struct KeptPlans {
    pub made: Vec<GroupPlans>,
    room: usize,
    latest: u32,
}

impl KeptPlans {
    /// No plans.
    pub fn new(alloc: Global) -> KeptPlans
        ensures { (P : Program) → AreKept P result }
    {
        KeptPlans {
            made: Vec::new(alloc),
            room: MOST,
            latest: 0,
        }
    }

    // Where the plans of a group at a budget stand. They are mostly the last ones, or of a group behind
    // all that came, or else the first ones.
    fn place(&self, group: u32, budget: u8) -> Option<usize>
        ensures { IfSome result (λ place. place < length self.now.made.items) }
    {
        let last = self.made.len().checked_sub(1)?;
        if self.made[last].is_of(group, budget) {
            return Some(last);
        }
        if group > self.latest {
            return None;
        }
        self.made.iter().position(|made| made.is_of(group, budget))
    }

    /// The plans of a group at a budget, where they are kept. They are handed out.
    pub fn take(&mut self, group: u32, budget: u8) -> Option<GroupPlans>
        ensures taken { IfSome result (λ made. (P : Program) → AreKept P self.old → ArePlansIn P made) }
        ensures left { (P : Program) → AreKept P self.old → AreKept P self.new }
    {
        let place = self.place(group, budget)?;
        let made = self.made.remove(place);
        self.room = self.room.saturating_add(made.weight());
        Some(made)
    }

    /// Keeps plans; where there is no room for them, none of those before them.
    pub fn keep(&mut self, plans: GroupPlans) -> Result<(), AllocError>
        ensures { OnOk result ((P : Program) → AreKept P self.old → ArePlansIn P plans → AreKept P self.new) }
    {
        let weight = plans.weight();
        if weight > self.room {
            self.made.clear();
            self.room = MOST;
        }
        self.room = self.room.saturating_sub(weight);
        self.latest = later(self.latest, plans.group);
        self.made.push(plans)?;
        Ok(())
    }
}

fn later(one: u32, other: u32) -> u32 {
    if one < other { other } else { one }
}

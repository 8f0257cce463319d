// Where things stand in a chart. All lengths are tenths of a pixel.
use crate::axis::{Axis, costs_of, sizes_of};
use crate::mark::Mark;

/// The left and the right end of the axis of sizes.
pub(crate) const LEFT: u32 = 660;

pub(crate) const RIGHT: u32 = 5840;

/// How far the first and the last size stand from these ends.
const INSET: u32 = 80;

/// From the first size to the last.
const ACROSS: u32 = RIGHT - LEFT - 2 * INSET;

/// The length of the axis of costs.
const UP: u32 = 2600;

/// How far the logarithmic ranges stand from the places of zero.
const GAP_ACROSS: u32 = 420;

const GAP_UP: u32 = 220;

/// Where sizes and costs stand.
#[derive(Clone, Copy)]
pub(crate) struct Frame {
    sizes: Axis,
    pub(crate) costs: Axis,
    /// The bottom of the axis of costs.
    pub(crate) bottom: u32,
}

impl Frame {
    /// For these runs, below so much.
    pub(crate) fn below(top: u32, marks: &[Mark<'_>]) -> Frame {
        Frame {
            sizes: Axis::exact(sizes_of(marks), GAP_ACROSS, ACROSS),
            costs: Axis::by_powers(costs_of(marks), GAP_UP, UP),
            bottom: top.saturating_add(UP),
        }
    }

    /// How far to the right a size stands.
    pub(crate) fn x(self, size: u32) -> u32 {
        self.sizes.at(u128::from(size)).saturating_add(LEFT + INSET)
    }

    /// How far down a cost stands.
    pub(crate) fn y(self, cost: u128) -> u32 {
        self.bottom.saturating_sub(self.costs.at(cost))
    }

    /// The bottom of the chart.
    pub(crate) fn height(self) -> u32 {
        self.bottom.saturating_add(420)
    }
}

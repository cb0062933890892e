// A plastic neutral axis.
#[derive(Clone, Copy, Debug, PartialEq, Eq)]
pub struct Axis {
    pub level: u16,
    // the plastic moment about it, in force units at half a strip
    pub moment: u64,
    // by how much the forces above and below it differ
    pub imbalance: u64,
}

// A command with its operands as they stand in the record.
// Codes and a spacing's 0 for none stay numbers: an unknown code is refused only once the command's length is known, as the reader goes on behind it.
// Operands stand apart: as a `PlateInput` and a `Slab` they would need two more crates here, to spare `record` two struct literals, and be no plainer.
#[derive(Clone, Copy, Debug, PartialEq, Eq)]
pub enum Command {
    Place {
        slot: u8,
        role: u8,
        top: u16,
        breadth: u16,
        height: u16,
        fy: u32,
    },
    Lift {
        slot: u8,
    },
    Lower {
        levels: u16,
    },
    Enter {
        slot: u8,
        load: u8,
        effect: u8,
        sixteenths: i32,
    },
    Strike {
        slot: u8,
    },
    Extremes {
        state: u8,
        effect: u8,
    },
    Bending {
        state: u8,
        top: u16,
        breadth: u16,
        height: u16,
        fc: u16,
    },
    Shear {
        state: u8,
        // 0 for no stiffeners
        spacing: u16,
    },
}

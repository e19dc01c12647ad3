//! What the items of a cycle take.

/// What the items of a cycle take.
#[derive(Clone, Copy)]
pub struct Row {
    /// The buses with a move, bit k for bus k.
    pub moves: u16,
    /// The buses that the template takes.
    pub taken: u16,
    /// Whether there is a template.
    pub template: bool,
    /// The immediate units that are read, bit k for unit k.
    pub imms: u8,
    /// How many moves read each file.
    pub reads: [u8; 8],
    /// How many moves write each file.
    pub writes: [u8; 8],
}

impl Row {
    ghost use Rattle.std.specs.Prelude.{◌≡◌};
    ghost use Rattle.tta_reserve.specs.Booked.{empty_row};

    /// The row of a cycle without items.
    pub fn empty() -> Row
        ensures { result ≡ empty_row }
    {
        Row {
            moves: 0,
            taken: 0,
            template: false,
            imms: 0,
            reads: [0; 8],
            writes: [0; 8],
        }
    }
}

//! The parts of the module that joins cores by queues, each of which says something of every core,
//! and what a part has to know of it.

/// What a part says of a core.
#[derive(Clone, Copy, Debug, PartialEq, Eq)]
pub enum Part {
    /// The names of its ports.
    Names,
    /// Its ports, as they are declared.
    Ports,
    /// The wires that its module and that of its queue drive.
    Driven,
    /// The other wires.
    Wires,
    /// The wires of the queue before it: what it is offered.
    Offered,
    /// What its ports show.
    Shown,
    /// Its module.
    Core,
    /// That of the queue before it.
    Queue,
}

/// Which words the machine of a core has.
#[derive(Clone, Copy, Debug, PartialEq, Eq)]
pub struct Ends {
    /// Whether it can put words out.
    pub gives: bool,
    /// Whether it can take words.
    pub takes: bool,
}

/// Where the words come from that go into the queue before a core.
#[derive(Clone, Copy, Debug, PartialEq, Eq)]
pub enum Source {
    /// Another core, or the core itself.
    Feeder(u8),
    /// The ports of the module.
    Outside,
    /// Nowhere.
    Nothing,
}

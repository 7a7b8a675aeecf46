// A link: where it runs, and the numbers of its triangular diagram.

// From a lower to a higher node. Free and wave steps say how long a vehicle and a gap take to pass
// it, capacity how many may pass an end in a step, storage how many it holds at a jam.
#[derive(Clone, Copy)]
pub struct Link {
    pub from: u8,
    pub to: u8,
    pub free: u8,
    pub wave: u8,
    pub capacity: u8,
    pub storage: u16,
}

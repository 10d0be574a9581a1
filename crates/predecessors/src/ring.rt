// The slots of work room in use.
ghost use Rattle.std.specs.Prelude.{◌≡◌, ◌^◌, ◌≤◌, ◌<◌};

// The slots as a ring: the record with running number g, which counts from 0, lies in slot (g + origin) mod size. Nothing is moved, and a slot is used
// again once its record is released.
#[derive(Clone, Copy)]
pub struct Ring {
    pub size: usize,
    pub origin: usize,
    pub ghost some_room: { 1 ≤ size },
    pub ghost begins: { origin < size },
    pub ghost small: { size < 2 ^ 32 },
}

impl Ring {
    ghost use Rattle.predecessors.specs.Numbers.{slot_of};

    // The slot of the record with running number g.
    pub fn slot(self, g: usize) -> usize
        ensures slot { result ≡ slot_of self g }
        ensures inside { result < self.size }
    {
        let at = g % self.size + self.origin;
        if at < self.size { at } else { at - self.size }
    }
}

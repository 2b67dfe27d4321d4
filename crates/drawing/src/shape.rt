// What a text draws.
ghost use Rattle.std.specs.Prelude.{◌≡◌};
ghost use Rattle.drawing.specs.Fine.{sign_of};

// The sign that a line says the event shows, 0 for nothing, if one says so; and whether it is a fault. As read, of up to 18 digits: the plant's rules refuse what is too large.
#[derive(Clone, Copy, PartialEq, Eq, Debug, Default)]
pub struct Event {
    pub sign: Option<u64>,
    pub fault: bool,
}

impl Event {
    // The sign that it shows, 0 for nothing.
    pub fn shown(self) -> u64
        ensures { result ≡ sign_of self.sign }
    {
        self.sign.unwrap_or(0)
    }
}

// From a state, by the event of that number, to a state, as read.
#[derive(Clone, Copy, PartialEq, Eq, Debug)]
pub struct Arrow {
    pub from: u64,
    pub event: usize,
    pub to: u64,
}

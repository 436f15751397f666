ghost use Rattle.std.specs.Prelude.{◌≡◌};
ghost use Rattle.net_core.specs.Places.{digits_after_point};

/// How many digits after the point the amounts and the money of a network have. A unit is one in the last of these digits: a
/// thousandth or a millionth.
#[derive(Clone, Copy, Debug, PartialEq, Eq)]
pub enum Places {
    /// Units are thousandths: 2.5 is 2,500 of them.
    Three,
    /// Units are millionths: 2.5 is 2,500,000 of them.
    Six,
}

impl Places {
    /// The digits after the point: 3 or 6. It takes constant time.
    pub fn digits(self) -> usize
        ensures { result ≡ digits_after_point self }
    {
        match self {
            Places::Three => 3,
            Places::Six => 6,
        }
    }
}

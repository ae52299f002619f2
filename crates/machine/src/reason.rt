ghost use Rattle.std.specs.Prelude.{◌≡◌};
ghost use Rattle.machine.specs.Told.{told};
ghost use Rattle.machine.specs.declared.reason.CallRefusal.{CallRefusal as Reason};

/// Why a call on a dispatcher is refused. Each case has a fixed number and a layer.
#[derive(Clone, Copy, PartialEq, Eq, Debug)]
pub enum CallRefusal {
    /// There is no feed of that number.
    NoFeed = 21,
    /// The cost is not 1 to the feed's cost.
    Cost = 22,
    /// The feed's last accepted release is less than its spacing ago.
    Sooner = 23,
    /// Sixteen cards of the feed wait.
    Waiting = 24,
    /// The clock stands at its end.
    Clock = 25,
    /// The list for the picks is shorter than the lane count.
    List = 26,
}

impl CallRefusal {
    // Numbers, and a pair of such calls for each layer's refusals, since the rules give each refusal its number and its layer.

    /// The number by which this refusal is known, 21 to 26. No other refusal of the dispatcher has it.
    pub fn number(&self) -> u8
        ensures value { result ≡ (told self.now).number }
        ensures only { (other : Reason) → (told other).number ≡ result → other ≡ self.now }
    {
        *self as u8
    }

    /// The layer that refuses: 3 for the dispatcher.
    pub fn layer(&self) -> u8
        ensures { result ≡ (told self.now).layer }
    {
        3
    }
}

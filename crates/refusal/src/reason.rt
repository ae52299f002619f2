ghost use Rattle.std.specs.Prelude.{◌≡◌};
ghost use Rattle.refusal.specs.Told.{told};
ghost use Rattle.refusal.specs.declared.reason.Refusal.{Refusal as Reason};

/// A reason to refuse. Each case has a fixed number and a layer, the same wherever it is given.
#[derive(Clone, Copy, PartialEq, Eq, Debug)]
pub enum Refusal {
    /// The lane count is not 1 to 8.
    Lanes = 11,
    /// The spacing is not 1 to 60,000, or the cost is not 1 to the spacing.
    Feed = 12,
    /// The roster has 32 feeds.
    Full = 13,
    /// The least common multiple of the spacings passes 10,000,000.
    Hyperperiod = 14,
    /// The weights sum to more than lanes × hyperperiod.
    Overload = 15,
    /// A setting of an order or a hold rule is out of its range.
    Setting = 16,
}

impl Refusal {
    // Numbers, and a pair of such calls for each layer's refusals, since the rules give each refusal its number and its layer.

    /// The number by which this refusal is known, 11 to 16. No other refusal has it.
    pub fn number(&self) -> u8
        ensures value { result ≡ (told self.now).number }
        ensures only { (other : Reason) → (told other).number ≡ result → other ≡ self.now }
    {
        *self as u8
    }

    /// The layer that refuses: 2 for rosters and settings.
    pub fn layer(&self) -> u8
        ensures { result ≡ (told self.now).layer }
    {
        2
    }
}

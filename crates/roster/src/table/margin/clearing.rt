ghost use Rattle.std.specs.Prelude.{◌≡◌, ◌+◌, ◌-◌, ◌*◌, ◌<◌, ◌≤◌};
ghost use Rattle.std.specs.Int.{div_ceil};

/// What the feeds' needs are reckoned against: the costs that can be in progress at once, and the rate at which the lanes clear.
#[derive(Clone, Copy)]
pub struct Clearing {
    pub hyperperiod: u64,
    pub in_progress: u64,
    pub rate: u64,
    ghost short: { hyperperiod ≤ 10000000 },
    ghost few: { in_progress ≤ 480000 },
    ghost clears: { (0 < rate) × (hyperperiod ≤ rate) },
}

impl Clearing {
    /// The least x with hyperperiod × (in progress + overtaking − own) ≤ x × rate, where what is below 0 counts as 0.
    pub(super) fn least_enough(&self, overtaking: u64, own: u64) -> u64
        requires { overtaking ≤ 1920000 }
        ensures value { result ≡ div_ceil (self.now.hyperperiod * (self.now.in_progress + overtaking - own)) self.now.rate }
        ensures bound { result ≤ self.now.in_progress + overtaking }
    {
        let needed = self.in_progress + overtaking;
        (self.hyperperiod * needed.saturating_sub(own)).div_ceil(self.rate)
    }
}

ghost use Rattle.std.specs.Prelude.{◌≡◌, ◌≤◌, ℕ, IfSome, IsNone, IsSome};
ghost use Rattle.pdq_edge.specs.Bytes.{told_count};

/// Tells whether a query that runs was flagged to stop.
pub trait Stop {
    // How often it was asked.
    ghost asked: { Self → ℕ };

    // How often it told a step.
    ghost told: { Self → ℕ };

    // The step that it told last.
    ghost last: { Self → ℕ };

    // What every call keeps, whatever it answers.
    ghost keeps: { Self → Self → Type 0 };

    /// The step at which the query was flagged, if it was.
    fn stopped(&mut self) -> Option<u64>
        ensures asked { asked self.new ≡ told_count (asked self.old) 1 }
        ensures asked_later { asked self.old ≤ asked self.new }
        ensures told { IsSome result → told self.new ≡ told_count (told self.old) 1 }
        ensures told_later { told self.old ≤ told self.new }
        ensures last { IfSome result (λ step. last self.new ≡ step) }
        ensures none_told { IsNone result → told self.new ≡ told self.old }
        ensures none_last { IsNone result → last self.new ≡ last self.old }
        ensures keeps { keeps self.old self.new };

    ghost keeps_same: { (stop : Self) → keeps stop stop };

    ghost keeps_on: { (first then last : Self) → keeps first then → keeps then last → keeps first last };
}

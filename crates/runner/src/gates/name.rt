//! The words that name gates.
ghost use Rattle.std.specs.Prelude.{◌≡◌, IfSome, None};
ghost use Rattle.runner.specs.Gates.{IsGate, gate_word};

/// A gate of the program.
#[derive(Clone, Copy, Debug, PartialEq, Eq)]
pub enum GateName {
    Open,
    Alternate,
    Hold,
    Freeze,
}

impl GateName {
    /// The gate that this word names.
    pub fn of(word: &str) -> Option<GateName>
        ensures named { IfSome result (λ name. word.now ≡ gate_word name) }
        ensures unknown { result ≡ None → ¬ (IsGate word.now) }
    {
        match word {
            "open" => Some(GateName::Open),
            "alternate" => Some(GateName::Alternate),
            "hold" => Some(GateName::Hold),
            "freeze" => Some(GateName::Freeze),
            _ => None,
        }
    }
}

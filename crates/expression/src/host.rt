//! What the functions of an expression are asked of.
ghost use Rattle.std.specs.Prelude.{◌≡◌, ℕ, List, Option as Maybe, Float};

/// Answers for functions by their codes. A question changes nothing.
pub trait Host {
    // What the host means: a value or none for each code and arguments.
    ghost answers: { Self → ℕ → List Float → Maybe Float };

    /// The value of a function at its arguments, or none. A host may be asked any code, also one
    /// that no function has, so it is a number.
    fn ask(&self, code: u8, arguments: &[f64]) -> Option<f64>
        ensures { result ≡ answers self.now code arguments.now };
}

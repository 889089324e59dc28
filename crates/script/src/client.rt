//! Clients as texts name them.
ghost use Rattle.std.specs.Prelude.{◌≡◌, ◌≢◌, ◌<◌, ℕ, decimal, IfSome, IfNone};

use arena::PassNo;
use texts::small_number_of;

/// The client of this number, which is below `passes`.
#[tactic(auto, using(texts::proofs::Lemmas::same_number))]
pub(crate) fn client_of(text: &str, passes: u32) -> Option<PassNo>
    ensures some { IfSome result (λ client. (client.0 < passes) × (text.now ≡ decimal client.0)) }
    ensures none { IfNone result ((n : ℕ) → n < passes → text.now ≢ decimal n) }
{
    let client = small_number_of(text)?;
    if client < passes {
        Some(PassNo(client))
    } else {
        None
    }
}

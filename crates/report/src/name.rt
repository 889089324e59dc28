//! The names of records and clients in a report.
ghost use Rattle.std.specs.Prelude.{◌≡◌, ◌≢◌, ◌<◌, ◌^◌, ◌++◌, ℕ, IfNone, IfSome, codes, decimal};
ghost use Rattle.report.specs.Answers.{blame_text};

use arena::{NodeNo, PassNo, ScxNo};
use texts::{number_of, small_number_of};

/// The node that a text names, as `n5`.
pub fn node_of(text: &str) -> Option<NodeNo>
    ensures some { IfSome result (λ node. text.now ≡ codes "n" ++ decimal node.0) }
    ensures none { IfNone result ((n : ℕ) → n < 2 ^ 64 → text.now ≢ codes "n" ++ decimal n) }
{
    Some(NodeNo(number_of(text.strip_prefix('n')?)?))
}

/// The SCX-record that a text names, as `s2`.
pub fn scx_of(text: &str) -> Option<ScxNo>
    ensures some { IfSome result (λ scx. text.now ≡ codes "s" ++ decimal scx.0) }
    ensures none { IfNone result ((n : ℕ) → n < 2 ^ 64 → text.now ≢ codes "s" ++ decimal n) }
{
    Some(ScxNo(number_of(text.strip_prefix('s')?)?))
}

/// The client of this number, whether or not there is such a client.
pub fn client_of(text: &str) -> Option<PassNo>
    ensures some { IfSome result (λ client. text.now ≡ decimal client.0) }
    ensures none { IfNone result ((n : ℕ) → n < 2 ^ 32 → text.now ≢ decimal n) }
{
    Some(PassNo(small_number_of(text)?))
}

/// The node and the SCX-record that was in the way there, as `n5 s2`.
pub fn blame_of(text: &str) -> Option<(NodeNo, ScxNo)>
    ensures some { IfSome result (λ blame. text.now ≡ blame_text blame.0.0 blame.1.0) }
    ensures none { IfNone result ((node scx : ℕ) → node < 2 ^ 64 → scx < 2 ^ 64 →
        text.now ≢ blame_text node scx) }
{
    let (node, scx) = text.split_once(' ')?;
    Some((node_of(node)?, scx_of(scx)?))
}

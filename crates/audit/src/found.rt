//! Which leaves the clients have found: by loading how many pairs they hold.
use arena::{Kind, NodeWord, PassNo, Row, SettledPart, Word};

/// The last two leaves that a client has found, or node 0 for none.
#[derive(Clone, Copy)]
pub(crate) struct FoundLeaves {
    pub(crate) newest: u64,
    pub(crate) before: u64,
}

impl FoundLeaves {
    pub(crate) const NONE: FoundLeaves = FoundLeaves {
        newest: 0,
        before: 0,
    };
}

/// What a client has found.
pub(crate) fn found_by(found: &[FoundLeaves], pass: PassNo) -> FoundLeaves {
    match found.get(pass.0 as usize) {
        Some(leaves) => *leaves,
        None => FoundLeaves::NONE,
    }
}

/// A client has made this step.
pub(crate) fn note_found(found: &mut Vec<FoundLeaves>, row: &Row) {
    let client = row.pass.0 as usize;
    if let Word::Node(node, NodeWord::Settled(SettledPart::More)) = row.word
        && row.kind == Kind::LoadSettled
        && client < found.len()
    {
        found[client] = FoundLeaves {
            newest: node.0,
            before: found[client].newest,
        };
    }
}

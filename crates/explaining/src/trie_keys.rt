//! Which keys may stand where in a trie.
use crate::breach::Objection;
use crate::claimed_edit::ClaimedEdit;
use crate::details::Detail::{Node, Number, Wide};
use arena::Side;

/// How many keys there are.
const ALL_KEYS: u128 = 1 << 64;

/// The keys that may stand below a fork: on its left from `low` to below `middle`, on its right from
/// there to below `high`. Above all keys they are all on the left.
#[derive(Clone, Copy)]
struct KeySpan {
    low: u128,
    middle: u128,
    high: u128,
}

impl KeySpan {
    /// Those of a fork above all keys.
    const ALL: KeySpan = KeySpan {
        low: 0,
        middle: ALL_KEYS,
        high: ALL_KEYS,
    };

    /// The first key of a side, and the first behind it.
    fn on(&self, side: Side) -> (u128, u128) {
        match side {
            Side::Left => (self.low, self.middle),
            Side::Right => (self.middle, self.high),
        }
    }
}

fn span_of(edit: &ClaimedEdit<'_>, fork: u64) -> KeySpan {
    let (head, middle) = (edit.head(fork), u128::from(edit.key_of(fork)));
    if head.class > 0 {
        return KeySpan::ALL;
    }
    let room = room_at(head.level);
    KeySpan {
        low: middle.saturating_sub(room),
        middle,
        high: middle.saturating_add(room),
    }
}

/// How many keys each side of a fork of class 0 on this level has room for.
fn room_at(level: u64) -> u128 {
    1 << (65u64.saturating_sub(level) as u32)
}

/// Whether a key may stand below a fork.
pub(crate) fn shares(edit: &ClaimedEdit<'_>, fork: u64, key: u64) -> bool {
    let (span, key) = (span_of(edit, fork), u128::from(key));
    edit.head(fork).class > 0 || (span.low <= key && key < span.high)
}

/// The key may stand below the first node, and what comes there keeps to the keys of that side.
pub(crate) fn check_keys(edit: &ClaimedEdit<'_>) -> Result<(), Objection> {
    let (key, fork, new) = (edit.key, edit.member(0), edit.new_node());
    let span = span_of(edit, fork);
    let text = "key # may not stand below #, which parts those from # to below #";
    let details = [Number(key), Node(fork), Wide(span.low), Wide(span.high)];
    edit.demand(shares(edit, fork, key), text, &details)?;
    check_below(edit, fork, edit.toward(fork, key), new)?;
    if !edit.head(new).leaf {
        check_parted(edit, new)?;
        for side in [Side::Left, Side::Right] {
            check_below(edit, new, side, edit.child(new, side))?;
        }
    }
    Ok(())
}

/// A node may stand on this side below a fork.
fn check_below(edit: &ClaimedEdit<'_>, fork: u64, side: Side, node: u64) -> Result<(), Objection> {
    check_keeps(edit, fork, side, node)?;
    check_deeper(edit, fork, node)
}

/// A node is deeper than the fork above it.
fn check_deeper(edit: &ClaimedEdit<'_>, fork: u64, node: u64) -> Result<(), Objection> {
    let (above, level) = (edit.head(fork).level, edit.head(node).level);
    let text = "# of level # comes below # of level #";
    let details = [Node(node), Number(level), Node(fork), Number(above)];
    edit.demand(above < level, text, &details)
}

/// A node keeps to the keys of a fork's side: a fork with all that may stand below it, a leaf with
/// those of its pairs.
fn check_keeps(edit: &ClaimedEdit<'_>, fork: u64, side: Side, node: u64) -> Result<(), Objection> {
    let (head, (from, to)) = (edit.head(node), span_of(edit, fork).on(side));
    if head.leaf {
        return check_leaf_keeps(edit, fork, node, from, to);
    }
    let below = span_of(edit, node);
    let text = "# parts the keys from # to below #, and on its side of # are those from # to \
        below #";
    let details = [
        Node(node),
        Wide(below.low),
        Wide(below.high),
        Node(fork),
        Wide(from),
        Wide(to),
    ];
    let keeps = head.class > 0 || (from <= below.low && below.high <= to);
    edit.demand(keeps, text, &details)
}

/// A leaf has its level, and no key but those from one to below another.
fn check_leaf_keeps(
    edit: &ClaimedEdit<'_>,
    fork: u64,
    leaf: u64,
    from: u128,
    to: u128,
) -> Result<(), Objection> {
    check_leaf_level(edit, leaf)?;
    for (key, _) in edit.pairs_of(leaf)?.iter() {
        let text = "# has key #, and on its side of # are those from # to below #";
        let details = [Node(leaf), Number(*key), Node(fork), Wide(from), Wide(to)];
        edit.demand(
            from <= u128::from(*key) && u128::from(*key) < to,
            text,
            &details,
        )?;
    }
    Ok(())
}

/// A leaf is on the last level; above all keys, on one of the first.
fn check_leaf_level(edit: &ClaimedEdit<'_>, leaf: u64) -> Result<(), Objection> {
    let head = edit.head(leaf);
    let (level, class) = (head.level, u64::from(head.class));
    let text = "# has level #, and leaves above all keys have 1 or 2";
    let details = [Node(leaf), Number(level)];
    edit.demand(
        class == 0 || level.saturating_add(class) <= 3,
        text,
        &details,
    )?;
    let text = "# has level # in place of 66, that of leaves";
    edit.demand(class > 0 || level == 66, text, &[Node(leaf), Number(level)])
}

/// A fork is on the level of the lowest bit of its key; above all keys, on that of its class.
fn check_parted(edit: &ClaimedEdit<'_>, fork: u64) -> Result<(), Objection> {
    let head = edit.head(fork);
    let (level, class) = (head.level, u64::from(head.class));
    if class > 0 {
        let text = "# has level #, and a fork of class # has another";
        let details = [Node(fork), Number(level), Number(class)];
        return edit.demand(level.saturating_add(class) == 2, text, &details);
    }
    let text = "# has level #, and forks of class 0 have 2 to 65";
    let details = [Node(fork), Number(level)];
    edit.demand(2 <= level && level <= 65, text, &details)?;
    check_lowest_bit(edit, fork, level)
}

/// The lowest bit of a fork's key is that of its level.
fn check_lowest_bit(edit: &ClaimedEdit<'_>, fork: u64, level: u64) -> Result<(), Objection> {
    let (key, room) = (edit.key_of(fork), room_at(level));
    let has_it = u128::from(key).checked_rem(room.saturating_mul(2)) == Some(room);
    let text = "# has level #, so the lowest bit of its key is #, and # has another";
    let details = [Node(fork), Number(level), Wide(room), Number(key)];
    edit.demand(has_it, text, &details)
}

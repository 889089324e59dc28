//! Calls that stop after each of their steps in turn, while the other pass makes one of its own.
ghost use Rattle.std.specs.Prelude.{◌≡◌, false, IfOk};
ghost use Rattle.tables.specs.Passes.{IsOf};

use super::call::Call::{Delete, DeleteIf, Insert, InsertNew, PopFirst, PopLast, Range, ReplaceIf};
use super::call::{Call, pairs_told};
use super::held::{Held, Numbers, held, hold, rest};
use super::{end_two, opened_with};
use arena::ScxNo;
use dict::Reply;
use forest::{Forest, Pass};
use std::alloc::{AllocError, Global};
use std::process::Abort;
use std::test::Fail;

/// An edit of a dictionary of numbers.
type Edit = Call<u64, u64>;

/// What is known of an edit that has begun.
#[derive(Clone, Copy, Debug)]
enum Answer {
    /// It answered the value that its key had.
    Told(Option<u64>),
    /// It was contended: this SCX-record was in its way.
    Contended(ScxNo),
    /// It answered something else.
    Other,
    /// It has not answered, and may have been made.
    Left,
}

/// An edit, and what is known of it.
type Made = (Edit, Answer);

/// The values of the keys below 8.
type Plain = [Option<u64>; 8];

/// Makes an edit on plain values, and returns what its key had.
fn make_plain(edit: Edit, values: &mut Plain) -> Option<u64> {
    match edit {
        Insert(key, value) => values.get_mut(key as usize)?.replace(value),
        InsertNew(key, value) => swap(values, key, None, Some(value)),
        Delete(key) => values.get_mut(key as usize)?.take(),
        DeleteIf(key, expected) => swap(values, key, Some(expected), None),
        PopFirst => take_first(values),
        PopLast => take_last(values),
        ReplaceIf(key, expected, value) => swap(values, key, Some(expected), Some(value)),
        _ => None,
    }
}

/// Gives a key this in the place of what is expected, and returns what it had.
fn swap(values: &mut Plain, key: u64, expected: Option<u64>, new: Option<u64>) -> Option<u64> {
    let slot = values.get_mut(key as usize)?;
    let old = *slot;
    if old == expected {
        *slot = new;
    }
    old
}

/// Takes the first value there is.
fn take_first(values: &mut Plain) -> Option<u64> {
    for place in 0..8usize {
        if let Some(value) = values[place].take() {
            return Some(value);
        }
    }
    None
}

/// And the last.
fn take_last(values: &mut Plain) -> Option<u64> {
    for behind in 0..8usize {
        if let Some(value) = values[7 - behind].take() {
            return Some(value);
        }
    }
    None
}

/// What an edit has answered.
fn replied(reply: Reply<u64, u64>) -> Answer {
    match reply {
        Reply::Value(old) => Answer::Told(old),
        Reply::Pair(pair) => Answer::Told(pair.map(|(_, value)| value)),
        Reply::Contended { node: _, scx } => Answer::Contended(scx),
        _ => Answer::Other,
    }
}

/// Makes an edit on plain values, if its answer fits. One that was refused has changed nothing.
fn follow(values: &mut Plain, (edit, answer): Made) -> Option<()> {
    match answer {
        Answer::Told(old) => if make_plain(edit, values) == old {
            Some(())
        } else {
            None
        },
        Answer::Left => {
            make_plain(edit, values);
            Some(())
        }
        Answer::Contended(_) => Some(()),
        Answer::Other => None,
    }
}

/// The values after the edits of one pass, and that of the other just before that of this place, if
/// the answer of each fits.
fn replay(own: &[Made], other: Made, place: usize) -> Option<Plain> {
    let mut values = [None; 8];
    for (number, made) in own.iter().enumerate() {
        if number == place {
            follow(&mut values, other)?;
        }
        follow(&mut values, *made)?;
    }
    if place == own.len() {
        follow(&mut values, other)?;
    }
    Some(values)
}

/// Whether the answers fit, and these pairs are left.
fn leave(own: &[Made], other: Made, place: usize, pairs: &[(u64, u64)]) -> bool {
    let Some(mut values) = replay(own, other, place) else {
        return false;
    };
    let are_there = pairs.iter().all(|(key, value)| make_plain(Delete(*key), &mut values)
        == Some(*value));
    are_there && values.iter().all(|value| value.is_none())
}

/// What passes do: the first makes its edits, and stops in one of them; the other has one. And how
/// often a call tries.
#[derive(Clone, Copy, Debug)]
struct Race {
    own: &'static [Edit],
    other: Edit,
    tries: u32,
}

/// The first gives a key three values, the other a fourth.
const INSERTS: Race = Race {
    own: &[Insert(5, 50), Insert(5, 51), Insert(5, 52)],
    other: Insert(5, 90),
    tries: 3,
};

/// The first takes its key out again, the other brings in another one.
const DELETE_AND_INSERT: Race = Race {
    own: &[Insert(5, 50), Delete(5)],
    other: Insert(7, 70),
    tries: 3,
};

/// Both take the key out.
const DELETES: Race = Race {
    own: &[Insert(5, 50), Delete(5)],
    other: Delete(5),
    tries: 3,
};

/// Both take the first pair out.
const POPS: Race = Race {
    own: &[Insert(5, 50), PopFirst],
    other: PopFirst,
    tries: 3,
};

/// The other takes the last out, which is the same.
const POPS_AT_BOTH_ENDS: Race = Race {
    other: PopLast,
    ..POPS
};

/// Both put the key in where it is absent, and the first takes it out again.
const INSERTS_NEW: Race = Race {
    own: &[InsertNew(5, 50), DeleteIf(5, 50)],
    other: InsertNew(5, 90),
    tries: 3,
};

/// The first takes the key out, the other gives it another value, both if it has the one expected.
const DELETE_AND_REPLACEMENT: Race = Race {
    own: &[Insert(5, 50), DeleteIf(5, 50)],
    other: ReplaceIf(5, 50, 52),
    tries: 3,
};

/// Both replace one value.
const REPLACEMENTS: Race = Race {
    own: &[Insert(5, 50), ReplaceIf(5, 50, 51)],
    other: ReplaceIf(5, 50, 52),
    tries: 3,
};

/// Where the first pass stops: in its edit of this number, after this many steps.
#[derive(Clone, Copy, Debug)]
struct Stop {
    number: usize,
    steps: usize,
}

/// Makes these edits, one after the other.
fn make_all(
    alloc: Global,
    forest: &Forest<Numbers>,
    pass: &mut Pass<Numbers>,
    edits: &[Edit],
    own: &mut Vec<Made>,
) -> Result<(), AllocError>
    requires { IsOf forest.now pass.old }
    ensures { IsOf forest.now pass.new }
{
    for edit in edits {
        let reply = edit.make(alloc, forest, pass);
        own.push((*edit, replied(reply)))?;
    }
    Ok(())
}

/// A dictionary in which the first pass has made its edits up to the one in which it stops, and
/// holds that one.
fn stopped_after(
    alloc: Global,
    race: Race,
    stop: Stop,
    own: &mut Vec<Made>,
) -> Result<(Forest<Numbers>, Held, Pass<Numbers>), Fail>
    ensures held { IfOk result (λ t. IsOf t.0 t.1.began × (t.1.over ≡ false)) }
    ensures second { IfOk result (λ t. IsOf t.0 t.2) }
{
    let (forest, mut first, second) = opened_with::<u64, u64>(alloc, race.tries)?;
    let Some((before, [edit, ..])) = race.own.split_at_checked(stop.number) else {
        return Err("no such edit".into());
    };
    make_all(alloc, &forest, &mut first, before, own)?;
    let call = forest.open(alloc, first, edit.request());
    let call = held(&forest, call, stop.steps, &mut Vec::new(alloc))?;
    Ok((forest, call, second))
}

/// How many steps the edit of this number makes by itself.
fn steps_alone(alloc: Global, race: Race, number: usize) -> Result<usize, Fail> {
    let (mut own, mut kinds) = (Vec::new(alloc), Vec::new(alloc));
    let (forest, call, _) = stopped_after(alloc, race, Stop { number, steps: 0 }, &mut own)?;
    rest(&forest, call, &mut kinds)?;
    Ok(kinds.len())
}

/// Makes the rest of the edit that was held, and those after it.
fn go_on(
    alloc: Global,
    forest: &Forest<Numbers>,
    call: Held,
    race: Race,
    number: usize,
    own: &mut Vec<Made>,
) -> Result<Pass<Numbers>, Fail>
    requires forest { IsOf forest.now call.began }
    requires goes { call.over ≡ false }
    ensures { IfOk result (λ p. IsOf forest.now p) }
{
    let (mut pass, reply) = rest(forest, call, &mut Vec::new(alloc))?;
    if let Some((_, [edit, behind @ ..])) = race.own.split_at_checked(number) {
        own.push((*edit, replied(reply)))?;
        make_all(alloc, forest, &mut pass, behind, own)?;
    }
    Ok(pass)
}

/// Whether it answered a value, or, if it had one try, that it was contended.
fn may_tell(race: Race, answer: Answer) -> bool {
    match answer {
        Answer::Told(_) => true,
        Answer::Contended(_) => race.tries == 1,
        _ => false,
    }
}

fn is_contended(made: &Made) -> bool {
    matches!(made.1, Answer::Contended(_))
}

fn count_contended(own: &[Made], other: Made) -> usize {
    let count = own.iter().filter(|made| is_contended(made)).count();
    count.saturating_add(usize::from(is_contended(&other)))
}

/// Whether the SCX-record that was in an edit's way has left its owner's share of 20.
fn has_left(answer: Answer, owner: &Pass<Numbers>) -> bool {
    let Answer::Contended(scx) = answer else {
        return true;
    };
    let (first, left) = (u64::from(owner.number().0) * 20, u64::from(owner.left().1));
    first < scx.0 && scx.0.saturating_add(left) <= first + 20
}

/// The pairs. A look that meets an update that has stopped helps it, and may have no try left: it
/// is made again.
fn see(alloc: Global, forest: &Forest<Numbers>, pass: &mut Pass<Numbers>) -> Option<Vec<(u64, u64)>>
    requires { IsOf forest.now pass.old }
    ensures { IsOf forest.now pass.new }
{
    let all = Range(0, 9, 64);
    match pairs_told(all.make(alloc, forest, pass)) {
        Some(pairs) => Some(pairs),
        None => pairs_told(all.make(alloc, forest, pass)),
    }
}

/// Whether all is right if the first pass stops, the other makes its edit, and the first does not
/// continue.
fn is_right_when_left(alloc: Global, race: Race, stop: Stop) -> Result<bool, Fail> {
    let mut own = Vec::new(alloc);
    let (forest, call, mut second) = stopped_after(alloc, race, stop, &mut own)?;
    let reply = race.other.make(alloc, &forest, &mut second);
    let other = (race.other, replied(reply));
    drop(call);
    if !may_tell(race, other.1) {
        return Ok(false);
    }
    let Some(pairs) = see(alloc, &forest, &mut second) else {
        return Ok(false);
    };
    let pairs = pairs.as_slice();
    let unmade = leave(&own, other, stop.number, pairs);
    if let Some(edit) = race.own.get(stop.number) {
        own.push((*edit, Answer::Left))?;
    }
    let (before, behind) = (stop.number, stop.number.saturating_add(1));
    Ok(unmade || leave(&own, other, before, pairs) || leave(&own, other, behind, pairs))
}

/// Whether all is right at the end, if the other's edit was made between these places of the
/// first's.
fn is_right_at_the_end(
    alloc: Global,
    race: Race,
    ends: (Forest<Numbers>, Pass<Numbers>, Pass<Numbers>),
    own: &[Made],
    other: Made,
    places: (usize, usize),
) -> Result<bool, Fail>
    requires first { IsOf ends.0 ends.1 }
    requires second { IsOf ends.0 ends.2 }
{
    let (forest, first, second) = ends;
    let have_told = may_tell(race, other.1) && own.iter().all(|made| may_tell(race, made.1));
    let have_left = has_left(other.1, &first) && own.iter().all(|made| has_left(made.1, &second));
    let Some(pairs) = end_two(alloc, forest, first, second)? else {
        return Ok(false);
    };
    let mut places = places.0..=places.1;
    let are_right = places.any(|place| leave(own, other, place, pairs.as_slice()));
    Ok(have_told && have_left && are_right)
}

/// The same if the first continues. It counts the edits that were contended.
fn is_right_when_it_goes_on(
    alloc: Global,
    race: Race,
    stop: Stop,
    contended: &mut usize,
) -> Result<bool, Fail> {
    let mut own = Vec::new(alloc);
    let (forest, call, mut second) = stopped_after(alloc, race, stop, &mut own)?;
    let reply = race.other.make(alloc, &forest, &mut second);
    let other = (race.other, replied(reply));
    let first = go_on(alloc, &forest, call, race, stop.number, &mut own)?;
    *contended = contended.saturating_add(count_contended(&own, other));
    let places = (stop.number, stop.number.saturating_add(1));
    is_right_at_the_end(alloc, race, (forest, first, second), &own, other, places)
}

/// The same if the other stops too, after this many steps, and continues once the first has made
/// all its edits. None if it is over before.
fn is_right_when_both_stop(
    alloc: Global,
    race: Race,
    stop: Stop,
    steps: usize,
) -> Result<Option<bool>, Fail> {
    let (mut own, mut kinds) = (Vec::new(alloc), Vec::new(alloc));
    let (forest, call, second) = stopped_after(alloc, race, stop, &mut own)?;
    let mut helper = forest.open(alloc, second, race.other.request());
    if !hold(&forest, &mut helper, steps, &mut kinds)? {
        return Ok(None);
    }
    let first = go_on(alloc, &forest, call, race, stop.number, &mut own)?;
    let (second, reply) = rest(&forest, helper, &mut kinds)?;
    let (other, places) = ((race.other, replied(reply)), (stop.number, own.len()));
    let ends = (forest, first, second);
    Ok(Some(is_right_at_the_end(alloc, race, ends, &own, other, places)?))
}

/// The first stops after each of its steps in turn. It returns how many edits were contended.
fn sweep(rt: &impl Abort, alloc: Global, race: Race) -> Result<usize, Fail> {
    let mut contended = 0;
    for number in 0..race.own.len() {
        for steps in 0..steps_alone(alloc, race, number)? {
            let stop = Stop { number, steps };
            let is_right = is_right_when_left(alloc, race, stop)?
                && is_right_when_it_goes_on(alloc, race, stop, &mut contended)?;
            assert!(rt; is_right, "{race:?}, {stop:?}");
        }
    }
    Ok(contended)
}

/// With one try some edits are contended, with three none.
#[test]
fn a_stopped_edit_is_left_or_goes_on(rt: HostRuntime) -> Result<(), Fail> {
    for race in [
        INSERTS,
        DELETE_AND_INSERT,
        DELETES,
        POPS,
        POPS_AT_BOTH_ENDS,
        INSERTS_NEW,
        DELETE_AND_REPLACEMENT,
        REPLACEMENTS,
    ] {
        let contended = sweep(&rt, rt.alloc(), Race { tries: 1, ..race })?;
        assert!(rt; contended > 0, "{race:?}");
        sweep(&rt, rt.alloc(), race)?;
    }
    Ok(())
}

/// No insert of the other makes more steps.
const MOST_STEPS: usize = 100;

/// The other stops after each of its steps in turn, wherever the first stopped in its second edit.
#[test]
fn an_insert_that_stops_as_it_helps_goes_on(rt: HostRuntime) -> Result<(), Fail> {
    let number = 1;
    for own in 0..steps_alone(rt.alloc(), INSERTS, number)? {
        for steps in 0..MOST_STEPS {
            let stop = Stop { number, steps: own };
            match is_right_when_both_stop(rt.alloc(), INSERTS, stop, steps)? {
                Some(is_right) => assert!(&rt; is_right, "{stop:?}, {steps}"),
                None => break,
            }
        }
    }
    Ok(())
}

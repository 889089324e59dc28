//! Passes of dictionaries that last, while they are away.
ghost use Rattle.std.specs.Prelude.{◌≡◌};
ghost use Rattle.std.specs.Arc.{arc_value};
ghost use Rattle.dict.specs.Typed.{TypedAllows};
ghost use Rattle.dict.specs.Words.{IsNumber, IsWideNumber};
ghost use Rattle.forest.specs.Rests.{HasOnlyRested};
ghost use Rattle.tables.specs.Passes.{steps_of};

use crate::client::OwnedPass;
use crate::held::{Held, HeldAway};
use regnubas::{ByBits, ByOrder, Lasts};
use template::FixedBalance;

/// A pass of a tree or of a trie that is away, and one owner of its forest.
#[derive(Drop)]
pub enum AwayPass {
    Tree(HeldAway<Lasts<ByOrder>>),
    Trie(HeldAway<Lasts<ByBits>>),
}

impl AwayPass {
    ghost use Rattle.capi.specs.Rests.{IsBack};

    /// The pass is back.
    pub(crate) fn back(self) -> OwnedPass
        ensures { IsBack self result }
    {
        match self {
            AwayPass::Tree(held) => OwnedPass::LastingTree(come_back(held)),
            AwayPass::Trie(held) => OwnedPass::LastingTrie(come_back(held)),
        }
    }
}

impl OwnedPass {
    ghost use Rattle.capi.specs.Rests.{HasGoneAway};

    /// The pass goes away, if its dictionary lasts.
    pub(crate) fn away(self) -> Result<AwayPass, OwnedPass>
        ensures { HasGoneAway self result }
    {
        match self {
            OwnedPass::LastingTree(held) => Ok(AwayPass::Tree(go_away(held))),
            OwnedPass::LastingTrie(held) => Ok(AwayPass::Trie(go_away(held))),
            OwnedPass::Tree(held) => Err(OwnedPass::Tree(held)),
            OwnedPass::Trie(held) => Err(OwnedPass::Trie(held)),
        }
    }
}

/// A pass goes away.
fn go_away<B: FixedBalance>(held: Held<Lasts<B>>) -> HeldAway<Lasts<B>>
    ensures same { result.forest ≡ held.forest }
    ensures share { result.away.share ≡ held.pass.share }
    ensures steps { steps_of result.away ≡ steps_of held.pass }
    ensures rested { HasOnlyRested (TypedAllows IsNumber IsWideNumber) held.pass result.away }
{
    let Held { forest, pass, all } = held;
    let away = forest.away(pass);
    HeldAway { forest, away, all }
}

/// A pass is back.
fn come_back<B: FixedBalance>(held: HeldAway<Lasts<B>>) -> Held<Lasts<B>>
    ensures same { result.forest ≡ held.forest }
    ensures share { result.pass.share ≡ held.away.share }
    ensures steps { steps_of result.pass ≡ steps_of held.away }
    ensures rested { HasOnlyRested (TypedAllows IsNumber IsWideNumber) held.away result.pass }
{
    let HeldAway { forest, away, all } = held;
    let pass = forest.back(away);
    Held { forest, pass, all }
}

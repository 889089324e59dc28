//! The play of a schedule.
use crate::stretch::{Begun, Stretch};
use arena::{NoMemory, PassNo};
use player::Player;
use record::Record;
use script::{Order, Script};
use std::alloc::Global;

/// The record of a schedule that has begun so.
pub(crate) fn play_on(alloc: Global, script: &Script, begun: &Begun) -> Result<Record, NoMemory> {
    let passes = script.layout.passes;
    let mut player = Player::new(alloc, script)?;
    for stretch in begun.stretches.iter() {
        let Stretch { client, turns } = *stretch;
        if client.0 < passes {
            player.obey(Order::Step { client, turns })?;
        }
    }
    if begun.next.0 < passes {
        player.obey(Order::Finish { client: begun.next })?;
    }
    for client in 0..passes {
        player.obey(Order::Finish {
            client: PassNo(client),
        })?;
    }
    Ok(player.record())
}

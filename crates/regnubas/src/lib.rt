//! An ordered dictionary that many threads read and change without locks, and the primitives that
//! it is made of: all that a program names, and nothing else. `docs/USING.md` says how to use it.
#![tactic(auto)]
//!
//! A dictionary from numbers to numbers, whose calls take a pass of it each:
//!
//!     let limits = Limits { passes: 2, nodes: 300, scx: 100, tries: 100 };
//!     let (map, passes) = Forest::<Dict<u64, u64>>::new(alloc, limits)?;
//!     map.insert(&mut pass, 5, 50)?             // None: the key had no value
//!     map.replace_if(&mut pass, 5, &50, 51)?    // Some(50): so it has 51 now
//!     map.get(&mut pass, &5)                    // Some(51)
//!     map.successor(alloc, &mut pass, &4)?      // Some((5, 51))
//!     map.range(alloc, &mut pass, &0, &9, 64)?  // [(5, 51)]
//!     map.pop_first(&mut pass)?                 // Some((5, 51)), and the map is empty
//!     map.delete(&mut pass, &5)?                // None
//!     pass.number()                             // PassNo(0)
//!     pass.left()                               // (295, 97): nodes and SCX-records
//!     map.meet(&mut pass, &mut other)           // each knows what both knew
//!     map.all_back(&passes)                     // true: no pass is missing, so it can be closed
//!     map.close(passes).pairs(alloc)?           // []
//!     map.end(pass).pairs(alloc)?               // or so, by one pass: the others may be gone
//!
//! A dictionary of the other shape, a trie, no leaf of which is deeper than 66 below its root. It has
//! the same calls, which say the same:
//!
//!     let (map, passes) = Forest::<Trie<u64, u64>>::new(alloc, limits)?;
//!
//! A dictionary of either shape that begins with pairs, and the next, which begins with those that
//! it is left with:
//!
//!     let (map, passes) = Forest::<Dict<u64, u64>>::of_pairs(alloc, limits, &[(5, 50), (9, 90)])?;
//!     map.delete(&mut pass, &5)?                // Some(50)
//!     let closed = map.close(passes);
//!     let (map, passes) = closed.renewed(alloc, limits)?;
//!     map.get(&mut pass, &9)                    // Some(90)
//!     pass.left()                               // (300, 100): the pairs take nothing of a share
//!
//! A dictionary of either shape that lasts: what its passes have used up comes back as they rest.
//! A pass that makes no calls for a while goes away first, since all others wait for it:
//!
//!     let (map, passes) = Forest::<Dict<u64, u64, Lasts<ByOrder>>>::lasting(alloc, limits)?;
//!     map.rest(&mut pass)                       // Some(PassNo(1)): it waits for pass 1
//!     let away = map.away(pass);                // and for this one nobody waits
//!     let pass = map.back(away);
//!
//! A call one atomic step at a time; here of the empty map, whose root has one leaf on its left:
//!
//!     let mut call = map.open(alloc, pass, Request::Get { key: 5 });
//!     call.step(&map)                           // Stepped::More(Kind::LoadSettled)
//!     call.step(&map)                           // Stepped::More(Kind::LoadChild)
//!     call.step(&map)                           // Stepped::Done(Some(Kind::LoadSettled))
//!     call.finish()                             // (pass, Reply::Value(None))
//!
//! Cells; 1 to 8 are there at the start:
//!
//!     let (cells, passes) = Forest::<Cells>::new(alloc, limits)?;
//!     cells.llx(&mut pass, NodeNo(1))           // Llx::Snapshot(snap): both fields are 0
//!     cells.vlx(&mut pass, &[snap])             // Vlx::Same
//!     cells.scx(&mut pass, &[snap], &[], (NodeNo(1), Side::Left), 7)?
//!                                               // Scx::Done: its left field is the fresh cell 9
//!     cells.close(passes).cell(NodeNo(1))       // Some((9, 0))

mod laws;

pub use arena::{
    BadLimits, Full, Kind, Limits, NoMemory, NodeNo, PassNo, Resource, ScxNo, Shape, Side,
};
pub use dict::{ByBits, ByOrder, Dict, Name8, Reply, Request, Trie, WordKey, WordValue};
pub use forest::{
    Away, Closed, FilledOnce, Forest, Lasts, NewFault, OpenCall, OrderFault, PairsFault, Pass,
    Remains, Stepped, UpdateFault,
};
pub use laws::version_laws_hold;
pub use ordered_map::{laws_hold, map_laws_hold, trie_laws_hold};
pub use prims::{Cells, Llx, Scx, Snap, Vlx};

//! Stock that turns over without end: four threads make a million changes each, though a pass
//! has 64 nodes and 64 SCX-records. What came out is what went in.
#![tactic(auto)]

ghost use Rattle.std.specs.List.{All};
ghost use Rattle.regnubas.specs.Passes.{IsOf};

use anyhow::{Result, bail};
use regnubas::{ByOrder, Dict, Forest, Lasts, Limits, Pass, UpdateFault};
use std::alloc::{AllocError, Global};
use std::thread::{Threads, map_vec, yield_now};

/// From products to how many there are of each. Its records come back.
type Stock = Dict<u64, u64, Lasts<ByOrder>>;

/// A pass for each thread and one for the end, with what it may have in use at a time.
const LIMITS: Limits = Limits {
    passes: 5,
    nodes: 64,
    scx: 64,
    tries: 1,
};

/// How many changes each thread makes.
const CHANGES: u64 = 1_000_000;

/// After how many changes a pass rests.
const OFTEN: u64 = 8;

/// How many products there are.
const PRODUCTS: u64 = 8;

/// How much has gone in and come out in some changes, and how many were refused to the end.
#[derive(Clone, Copy, Default)]
struct Sums {
    into: u64,
    out: u64,
    refused: u64,
}

impl Sums {
    fn add(&mut self, more: Sums) {
        self.into = self.into.wrapping_add(more.into);
        self.out = self.out.wrapping_add(more.out);
        self.refused = self.refused.wrapping_add(more.refused);
    }

    /// A change has been made, or was refused.
    fn note(&mut self, count: u64, old: Option<u64>) {
        match old {
            Some(old) => {
                self.into = self.into.wrapping_add(count);
                self.out = self.out.wrapping_add(old);
            }
            None => self.refused = self.refused.wrapping_add(1),
        }
    }
}

/// The pass rests, and lets another thread go on if it waits for one.
fn rest(stock: &Forest<Stock>, pass: &mut Pass<Stock>)
    requires { IsOf stock.now pass.old }
    ensures { IsOf stock.now pass.new }
{
    if stock.rest(pass).is_some() {
        yield_now();
    }
}

/// Sets how many there are of a product, or takes the product out if that is 0, and returns how
/// many there were; nothing if others are in the way or the share is used up.
fn ask(
    stock: &Forest<Stock>,
    pass: &mut Pass<Stock>,
    product: u64,
    count: u64,
) -> Result<u64, UpdateFault>
    requires { IsOf stock.now pass.old }
    ensures { IsOf stock.now pass.new }
{
    let old = if count == 0 {
        stock.delete(pass, &product)
    } else {
        stock.insert(pass, product, count)
    };
    Ok(old?.unwrap_or(0))
}

/// The same, asked again and again. Where the share is used up the pass rests first.
fn change(stock: &Forest<Stock>, pass: &mut Pass<Stock>, product: u64, count: u64) -> Option<u64>
    requires { IsOf stock.now pass.old }
    ensures { IsOf stock.now pass.new }
{
    for _ask in 0..10_000_000 {
        match ask(stock, pass, product, count) {
            Ok(old) => return Some(old),
            Err(_fault) => rest(stock, pass),
        }
    }
    None
}

/// The next of the numbers that decide what is changed (Marsaglia, Xorshift RNGs, 2003).
fn next(mut random: u64) -> u64 {
    random ^= random << 13;
    random ^= random >> 7;
    random ^= random << 17;
    random
}

/// What a thread does with its pass: it changes its stock, and leaves for ever.
fn keep_turning(stock: &Forest<Stock>, mut pass: Pass<Stock>) -> Sums
    requires { IsOf stock.now pass }
{
    let mut sums = Sums::default();
    let mut random = 88_172_645_463_325_252 + u64::from(pass.number().0);
    for at in 0..CHANGES {
        random = next(random);
        let (product, count) = (random % PRODUCTS, (random >> 32) % 3);
        sums.note(count, change(stock, &mut pass, product, count));
        if at % OFTEN == 0 {
            rest(stock, &mut pass);
        }
    }
    drop(stock.away(pass));
    sums
}

/// What all threads have changed.
fn turn_over<R: Threads + Sync>(
    rt: &R,
    stock: &Forest<Stock>,
    passes: Vec<Pass<Stock>>,
) -> Result<Sums, AllocError>
    requires { All (IsOf stock.now) passes.items }
{
    let mut all = Sums::default();
    for sums in map_vec(rt, passes, &|pass| keep_turning(stock, pass))? {
        all.add(sums);
    }
    Ok(all)
}

/// What has gone in and come out in the end, once a pass that was away meanwhile has taken out what
/// is left.
fn balance<R: Threads + Sync>(rt: &R, alloc: Global) -> Result<Sums> {
    let (stock, mut passes) = Forest::<Stock>::lasting(alloc, LIMITS)?;
    let Some(own) = passes.pop() else {
        bail!("there is no pass")
    };
    let own = stock.away(own);
    let mut sums = turn_over(rt, &stock, passes)?;
    let own = stock.back(own);
    for (_product, count) in &stock.end(own).pairs(alloc)? {
        sums.out = sums.out.wrapping_add(*count);
    }
    Ok(sums)
}

fn main(rt: HostRuntime) -> Result<()> {
    let sums = balance(&rt, rt.alloc())?;
    println!(rt; "refused: {}", sums.refused)?;
    println!(rt; "lost: {}", sums.into.wrapping_sub(sums.out))?;
    Ok(())
}

//! A small graph of numbers, searched through.
//!
//! From 3 one comes freely to 9; with one doubling to all up to 19, with two up to 39, with three up to 79, and with four
//! up to 100. So the rounds have 7, 17, 37, 77 and 98 numbers.

ghost use Rattle.std.specs.Prelude.{ℕ};
ghost use Rattle.pm_show_lab.specs.orders.Doubling.{FollowsTo};

use crate::orders::show_rounds;
use anyhow::Result;
use pm_explore::search::{Graph, Stop, Tree, path_back, search, steps_to};
use std::alloc::Global;
use std::io::Print;

/// Numbers from 3 on: to the next freely, unless the last digit is 9, and to the double by a step that spends.
#[derive(Drop)]
struct Numbers {
    top: u32,
}

impl Graph<u32> for Numbers {
    type Scratch = ();

    ghost Point = { ℕ };

    ghost point = { λ g n. n };

    ghost start = { λ g. 3 };

    ghost Follows = { λ g b n m. FollowsTo g.top b n m };

    ghost IsTooFar = { λ g points parents at. Unit {0} };

    ghost IsReady = { λ g scratch. Unit {0} };

    fn successors(
        &self,
        alloc: Global,
        _scratch: &mut (),
        tree: &Tree<u32>,
        at: usize,
        spends: bool,
    ) -> Result<Vec<u32>, Stop> {
        let mut next = Vec::new(alloc);
        let Some(node) = tree.nodes.get_index(at) else {
            return Ok(next);
        };
        if spends {
            if *node <= self.top / 2 {
                next.push(2 * *node)?;
            }
        } else if *node < self.top && *node % 10 != 9 {
            next.push(*node + 1)?;
        }
        Ok(next)
    }

    ghost use Rattle.pm_show_lab.specs.orders.Doubling.{number_same, same_number};

    ghost same = { λ g n m is. same_number n m is };

    ghost alike = { λ g n m is. number_same n m is };
}

/// Writes what searches of the numbers up to 100 come to, and the way back from the last that each found.
pub fn show<R: Print>(rt: &R, alloc: Global) -> Result<()> {
    let graph = Numbers { top: 100 };
    for (most, limit) in [(2, 1000), (9, 1000), (9, 10)] {
        println!(rt; "# numbers {most} {limit}")?;
        let found = search(alloc, &graph, &mut (), 3, most, limit);
        show_rounds(rt, found.ended, found.rounds.as_slice(), "numbers")?;
        let parents = found.tree.parents.as_slice();
        let Some(last) = parents.len().checked_sub(1) else {
            continue;
        };
        let steps = steps_to(&found.tree, last);
        let count = found.tree.nodes.len();
        print!(rt; "{count} found, the last by {steps} steps:")?;
        for place in path_back(alloc, parents, last)? {
            if let Some(number) = found.tree.nodes.get_index(place) {
                print!(rt; " {number}")?;
            }
        }
        println!(rt)?;
    }
    Ok(())
}

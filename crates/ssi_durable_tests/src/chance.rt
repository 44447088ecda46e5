//! Clients and a server that act in an order made by chance.

use crate::life::{CONNECTIONS, Life};
use crate::serving::{Plan, Serving, rest, settle, step, write};
use crate::words::line_by_chance;
use crate::wrong::Wrong;
use disk_testing::Coins;
use sqlite_disk::Disk;
use std::alloc::Global;

/// How much is done in a life.
const ACTS: u64 = 80;

/// Serves some connections for some time, or until the log fails, as coins fall.
#[derive(Drop)]
pub struct ByChance<'a> {
    pub coins: &'a mut Coins,
}

impl Plan for ByChance<'_> {
    fn follow<D: Disk + Drop>(
        &mut self,
        alloc: Global,
        server: &mut Serving<D>,
        life: &mut Life,
    ) -> Result<(), Wrong> {
        for token in 0..CONNECTIONS {
            if server.opened(alloc)? != token {
                return Err(Wrong::Value);
            }
        }
        for _ in 0..ACTS {
            act(alloc, server, self.coins, life)?;
            if life.has_failed {
                return rest(alloc, server);
            }
        }
        Ok(())
    }
}

fn act<D: Disk + Drop>(
    alloc: Global,
    server: &mut Serving<D>,
    coins: &mut Coins,
    life: &mut Life,
) -> Result<(), Wrong> {
    let token = coins.number() % CONNECTIONS;
    match coins.number() % 64 {
        0 => {
            server.closed(token);
            Ok(())
        }
        1..16 => send(alloc, server, token, coins),
        16..40 => step(alloc, server, token, life),
        40..48 => settle(server, life),
        _ => write(alloc, server, token, coins.number(), life),
    }
}

fn send<D: Disk + Drop>(
    alloc: Global,
    server: &mut Serving<D>,
    token: u64,
    coins: &mut Coins,
) -> Result<(), Wrong> {
    server.received(token, &line_by_chance(alloc, coins)?)?;
    Ok(())
}

//! A store of versions, and the view of one transaction at a time.

ghost use Rattle.std.specs.Prelude.{◌≡◌, [], true, IfOk};
ghost use Rattle.adya_keys.specs.Meaning.Keys.{key_le};
ghost use Rattle.ssi_versions.specs.Mirror.{IsAbove};

use crate::layers::Layer;
use crate::reply::{Reply, part, put_empty, put_entry, put_pair};
use crate::words::{Fault, Words};
use adya_values::{Content, Entry, Key, Mod, Txn, Version};
use devices::{put, put_number};
use ssi_snapshot::View;
use ssi_versions::{Chains, Held};
use std::alloc::Global;

/// Chains, the stamp of the next commit, and a view.
#[derive(Drop)]
pub(crate) struct Versions<C: Chains + Drop> {
    alloc: Global,
    chains: C,
    next: u64,
    view: View,
    ghost above: { IsAbove next (C.held chains) },
}

impl<C: Chains + Drop> Versions<C> {
    /// Takes chains without versions. The first commit has stamp 1, and the view is that of transaction 1 before it.
    pub(crate) fn new(alloc: Global, chains: C) -> Result<Self, &'static str>
        requires { C.held chains ≡ [] }
    {
        let txn = Txn::new(1).map_err(|_| "no number")?;
        Ok(Versions {
            alloc,
            chains,
            next: 1,
            view: View::new(alloc, txn, 0),
        })
    }

    /// `commit TXN KEY VALUE`, `install`, `collect SNAPSHOT..`, `at KEY STAMP`, `last KEY`, `range LOW HIGH STAMP` and
    /// `counts`, which replies with the numbers of versions and keys. `install` commits what the view has written.
    fn call_chains(&mut self, words: &mut Words, reply: &mut Reply) -> Result<(), Fault> {
        match words.word() {
            "commit" => self.commit(words),
            "install" => self.install(),
            "collect" => self.collect(words, reply),
            "at" => self.at(words, reply),
            "last" => put_held(self.chains.last(words.key()?), reply),
            "range" => self.range(words, reply),
            "counts" => put_pair(self.chains.held(), self.chains.keys(), reply),
            _ => Err(Fault::Call),
        }
    }

    fn at(&self, words: &mut Words, reply: &mut Reply) -> Result<(), Fault> {
        put_held(self.chains.at(words.key()?, words.number()?), reply)
    }

    fn range(&self, words: &mut Words, reply: &mut Reply) -> Result<(), Fault> {
        let (low, high) = range(words)?;
        put_all_held(&self.chains.range_at(low, high, words.number()?)?, reply)
    }

    fn collect(&mut self, words: &mut Words, reply: &mut Reply) -> Result<(), Fault> {
        let snapshots = words.numbers(self.alloc)?;
        let dropped = self.collect_below(&snapshots);
        Ok(put_number(dropped, reply)?)
    }

    fn collect_below(&mut self, snapshots: &[u64]) -> u64 {
        self.chains.collect(snapshots)
    }

    fn commit(&mut self, words: &mut Words) -> Result<(), Fault> {
        let (txn, key, content) = (words.txn()?, words.key()?, words.content()?);
        let version = Version {
            key,
            txn,
            m: Mod::new(1)?,
        };
        if self.next == u64::MAX {
            return Err(Fault::Now);
        }
        self.chains.install(self.next, &[(version, content)])?;
        self.next += 1;
        Ok(())
    }

    fn install(&mut self) -> Result<(), Fault> {
        if self.next == u64::MAX {
            return Err(Fault::Now);
        }
        self.chains.install(self.next, self.view.writes())?;
        self.next += 1;
        Ok(())
    }

    /// `begin TXN SNAPSHOT`, which is a new view, `put KEY VALUE`, `get KEY`, `scan LOW HIGH`, `first N LOW HIGH`,
    /// `owns KEY`, `writes`, `keys`, `txn`, `snapshot` and `count`.
    fn call_view(&mut self, words: &mut Words, reply: &mut Reply) -> Result<(), Fault> {
        match words.word() {
            "begin" => self.begin(words),
            "put" => put_key(&mut self.view, words, reply),
            "get" => put_seen(self.view.get(&self.chains, words.key()?), reply),
            "scan" => self.scan(words, reply),
            "first" => self.first(words, reply),
            name => ask_view(name, &self.view, words, reply),
        }
    }

    fn begin(&mut self, words: &mut Words) -> Result<(), Fault> {
        self.view = View::new(self.alloc, words.txn()?, words.number()?);
        Ok(())
    }

    fn scan(&self, words: &mut Words, reply: &mut Reply) -> Result<(), Fault> {
        let (low, high) = range(words)?;
        put_all_seen(&self.view.scan(&self.chains, low, high)?, reply)
    }

    fn first(&self, words: &mut Words, reply: &mut Reply) -> Result<(), Fault> {
        let n = u16::try_from(words.number()?).unwrap_or(0);
        let (low, high) = range(words)?;
        if n == 0 {
            return Err(Fault::Word);
        }
        put_all_seen(&self.view.scan_first(&self.chains, low, high, n)?, reply)
    }
}

/// The calls of the chains after `chains`, and those of the view after `view`.
impl<C: Chains + Drop> Layer for Versions<C> {
    fn call(&mut self, words: &mut Words, reply: &mut Reply) -> Result<(), Fault> {
        match words.word() {
            "chains" => self.call_chains(words, reply),
            "view" => self.call_view(words, reply),
            _ => Err(Fault::Call),
        }
    }
}

/// Returns the ends of a range of keys.
fn range(words: &mut Words) -> Result<(Key, Key), Fault>
    ensures { IfOk result (λ r. key_le r.0 r.1 ≡ true) }
{
    let (low, high) = (words.key()?, words.key()?);
    if low <= high {
        Ok((low, high))
    } else {
        Err(Fault::Word)
    }
}

fn put_key(view: &mut View, words: &mut Words, reply: &mut Reply) -> Result<(), Fault> {
    let (key, content) = (words.key()?, words.content()?);
    if view.count() == u16::MAX {
        return Err(Fault::Now);
    }
    let m = view.put(key, content)?;
    Ok(put_number(u64::from(m.get()), reply)?)
}

fn ask_view(name: &str, view: &View, words: &mut Words, reply: &mut Reply) -> Result<(), Fault> {
    match name {
        "owns" if view.owns(words.key()?) => Ok(put(b"yes", reply)?),
        "owns" => Ok(put(b"no", reply)?),
        "writes" => put_writes(view.writes(), reply),
        "keys" => put_keys(view.keys(), reply),
        "txn" => Ok(put_number(u64::from(view.txn().get()), reply)?),
        "snapshot" => Ok(put_number(view.snapshot(), reply)?),
        "count" => Ok(put_number(u64::from(view.count()), reply)?),
        _ => Err(Fault::Call),
    }
}

/// Writes the version and its stamp, or `none`.
fn put_held(found: Option<Held>, reply: &mut Reply) -> Result<(), Fault> {
    match found {
        Some(held) => {
            put_entry(&held.version, &held.content, reply)?;
            put(b" at ", reply)?;
            Ok(put_number(held.stamp, reply)?)
        }
        None => Ok(put(b"none", reply)?),
    }
}

fn put_all_held(found: &[Held], reply: &mut Reply) -> Result<(), Fault> {
    put_empty(found.len(), reply)?;
    for (place, held) in found.iter().enumerate() {
        part(place, reply)?;
        put_entry(&held.version, &held.content, reply)?;
    }
    Ok(())
}

fn put_seen(found: Option<Entry>, reply: &mut Reply) -> Result<(), Fault> {
    match found {
        Some(entry) => Ok(put_entry(&entry.version, &entry.content, reply)?),
        None => Ok(put(b"none", reply)?),
    }
}

fn put_all_seen(found: &[Entry], reply: &mut Reply) -> Result<(), Fault> {
    put_empty(found.len(), reply)?;
    for (place, entry) in found.iter().enumerate() {
        part(place, reply)?;
        put_entry(&entry.version, &entry.content, reply)?;
    }
    Ok(())
}

fn put_writes(found: &[(Version, Content)], reply: &mut Reply) -> Result<(), Fault> {
    put_empty(found.len(), reply)?;
    for (place, (version, content)) in found.iter().enumerate() {
        part(place, reply)?;
        put_entry(version, content, reply)?;
    }
    Ok(())
}

fn put_keys(keys: &[Key], reply: &mut Reply) -> Result<(), Fault> {
    put_empty(keys.len(), reply)?;
    for (place, key) in keys.iter().enumerate() {
        part(place, reply)?;
        put(key.bytes(), reply)?;
    }
    Ok(())
}

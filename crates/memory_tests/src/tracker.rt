//! A conflict tracker.

use crate::layers::Layer;
use crate::reply::Reply;
use crate::words::{Fault, Words};
use devices::{put, put_number};
use ssi_conflict::{Answer, Tracker};
use ssi_reads::Marks;
use std::alloc::Global;

#[derive(Drop)]
pub(crate) struct Tracked<M: Marks + Drop> {
    alloc: Global,
    tracker: Tracker<M>,
}

impl<M: Marks + Drop> Tracked<M> {
    /// Makes a tracker of no transactions.
    pub(crate) fn new(alloc: Global, marks: M) -> Tracked<M> {
        Tracked {
            alloc,
            tracker: Tracker::new(alloc, marks),
        }
    }

    fn begin(&mut self, words: &mut Words) -> Result<(), Fault> {
        Ok(self.tracker.on_begin(words.txn()?, words.number()?)?)
    }

    fn read(&mut self, words: &mut Words, reply: &mut Reply) -> Result<(), Fault> {
        let answer = self
            .tracker
            .on_read(words.txn()?, words.key()?, words.key()?)?;
        put_answer(answer, reply)
    }

    fn judge(&mut self, words: &mut Words, reply: &mut Reply) -> Result<(), Fault> {
        let txn = words.txn()?;
        let keys = words.keys(self.alloc)?;
        put_answer(self.tracker.judge(txn, &keys)?, reply)
    }

    fn abort(&mut self, words: &mut Words) -> Result<(), Fault> {
        Ok(self.tracker.on_abort(words.txn()?))
    }

    /// Judges a commit, and carries it out if it is safe.
    fn commit(&mut self, words: &mut Words, reply: &mut Reply) -> Result<(), Fault> {
        let (txn, stamp) = (words.txn()?, words.number()?);
        let keys = words.keys(self.alloc)?;
        let judged = self.tracker.judge(txn, &keys)?;
        if judged == Answer::Safe {
            self.tracker.on_commit(txn, stamp, &keys);
        }
        put_answer(judged, reply)
    }
}

/// `begin TXN SNAPSHOT`, `read TXN LOW HIGH`, `judge TXN KEY..`, `commit TXN STAMP KEY..`, `abort TXN` and `kept`.
impl<M: Marks + Drop> Layer for Tracked<M> {
    fn call(&mut self, words: &mut Words, reply: &mut Reply) -> Result<(), Fault> {
        match words.word() {
            "begin" => self.begin(words),
            "read" => self.read(words, reply),
            "judge" => self.judge(words, reply),
            "commit" => self.commit(words, reply),
            "abort" => self.abort(words),
            "kept" => Ok(put_number(self.tracker.kept() as u64, reply)?),
            _ => Err(Fault::Call),
        }
    }
}

fn put_answer(answer: Answer, reply: &mut Reply) -> Result<(), Fault> {
    match answer {
        Answer::Safe => Ok(put(b"safe", reply)?),
        Answer::Unsafe { pivot } => {
            put(b"unsafe ", reply)?;
            Ok(put_number(u64::from(pivot.get()), reply)?)
        }
    }
}

//! Reasons in words.

use crate::basis::Basis;
use crate::cast::Cast;
use crate::page::{Page, is_long};
use append_check::{Kind, Link, Operation, Outcome, Read, Reason, effects};
use append_text::History;
use lists_verdicts::{appends, appends_in_vain, name_of_link};
use std::alloc::{AllocError, Global};
use std::mem;

/// Says of reasons why no order explains the history. A transaction keeps its number in all of them.
#[derive(Drop)]
pub(crate) struct Explanation<'a> {
    teller: Teller<'a>,
}

impl<'a> Explanation<'a> {
    /// Begins with no reason.
    pub fn new(alloc: Global, history: &'a History) -> Explanation<'a> {
        Explanation {
            teller: Teller::new(alloc, history),
        }
    }

    /// Returns the links of a cycle as Graphviz reads them.
    pub fn in_dot(&mut self, links: &[Link]) -> Result<Vec<u8>, AllocError> {
        self.teller.page.words("digraph cycle {\n")?;
        for link in links {
            self.teller.arrow(link)?;
        }
        self.teller.page.words("}\n")?;
        let page = Page::new(self.teller.alloc);
        Ok(mem::replace(&mut self.teller.page, page).bytes)
    }

    /// Returns what the reason is in words, in lines that end with a line feed.
    pub fn of(&mut self, reason: &Reason) -> Result<Vec<u8>, AllocError> {
        self.teller.reason(reason)?;
        let page = Page::new(self.teller.alloc);
        Ok(mem::replace(&mut self.teller.page, page).bytes)
    }
}

/// Says in words who appended the element to the list of the key more than once, in a line that ends with a line feed.
pub(crate) fn appends_in_words(
    alloc: Global,
    history: &History,
    key: u64,
    element: u64,
) -> Result<Vec<u8>, AllocError> {
    let mut teller = Teller::new(alloc, history);
    teller.appenders(key, element)?;
    Ok(teller.page.bytes)
}

/// Says in words why there is nothing to check, in lines that end with a line feed; nothing if a committed transaction has
/// a step.
pub(crate) fn nothing_in_words(alloc: Global, history: &History) -> Result<Vec<u8>, AllocError> {
    let basis = Basis::of(history);
    let mut page = Page::new(alloc);
    if history.transactions.iter().any(|transaction| {
        transaction.outcome == Outcome::Committed && !transaction.operations.is_empty()
    }) {
        return Ok(page.bytes);
    }
    if basis.ok == 0 {
        page.words("no transaction committed: ")?;
        page.number(basis.info)?;
        page.words(" have an unknown outcome, and ")?;
        page.number(basis.fail)?;
        page.words(" failed\n")?;
    } else {
        page.words("no committed transaction has a step\n")?;
    }
    if basis.passed_over.other_function > 0 {
        page.number(basis.passed_over.other_function)?;
        page.words(" operations were passed over because their `:f` isn't `:txn`\n")?;
    }
    if basis.passed_over.other_process > 0 {
        page.number(basis.passed_over.other_process)?;
        page.words(" operations were passed over because their `:process` is no integer\n")?;
    }
    Ok(page.bytes)
}

#[derive(Drop)]
struct Teller<'a> {
    alloc: Global,
    history: &'a History,
    cast: Cast,
    page: Page,
}

impl<'a> Teller<'a> {
    fn new(alloc: Global, history: &'a History) -> Teller<'a> {
        Teller {
            alloc,
            history,
            cast: Cast::new(alloc),
            page: Page::new(alloc),
        }
    }

    fn reason(&mut self, reason: &Reason) -> Result<(), AllocError> {
        match reason {
            Reason::Internal(read) => {
                self.read(*read)?;
                self.page
                    .words(", which doesn't end with what it had appended itself\n")
            }
            Reason::Unrepeatable(first, second) => self.unrepeatable(*first, *second),
            Reason::Twice(read, element) => {
                self.read(*read)?;
                self.page.words(", with ")?;
                self.element(*element)?;
                self.page.words(" twice\n")
            }
            Reason::Unwritten(read, element) => self.unwritten(*read, *element),
            Reason::DirtyUpdate(read, aborted, element) => {
                self.dirty_update(*read, *aborted, *element)
            }
            Reason::Future(read, element) => {
                self.read(*read)?;
                self.page.words(", before it appended ")?;
                self.element(*element)?;
                self.page.words(" itself\n")
            }
            Reason::Intermediate(read, writer) => {
                self.read(*read)?;
                self.page.words(", and ")?;
                self.who(*writer)?;
                self.page.words(" appended ")?;
                self.block(*read, *writer)?;
                self.page.words("\n")
            }
            Reason::Incompatible(one, other) => self.incompatible(*one, *other),
            Reason::Cycle(links) => self.cycle(links.as_slice()),
        }
    }

    fn unrepeatable(&mut self, first: Read, second: Read) -> Result<(), AllocError> {
        self.read(first)?;
        self.page.words(", and later as ")?;
        self.found(second)?;
        let before = self.elements(first)?;
        let after = self.elements(second)?;
        self.difference(before.as_slice(), after.as_slice())?;
        self.page.words("\n")
    }

    fn incompatible(&mut self, one: Read, other: Read) -> Result<(), AllocError> {
        self.left(one)?;
        self.page.words(", and ")?;
        self.left(other)?;
        self.page.words(": neither list begins with the other")?;
        let mine = self.left_elements(one)?;
        let theirs = self.left_elements(other)?;
        self.difference(mine.as_slice(), theirs.as_slice())?;
        self.page.words("\n")
    }

    // where the lists differ first, if they are not shown whole
    fn difference(&mut self, one: &[u64], other: &[u64]) -> Result<(), AllocError> {
        if !is_long(one) && !is_long(other) {
            return Ok(());
        }
        for (i, (mine, theirs)) in one.iter().zip(other.iter()).enumerate() {
            if *mine != *theirs {
                self.page.words("; element ")?;
                self.page.number((i as u64).saturating_add(1))?;
                self.page.words(" is ")?;
                self.element(*mine)?;
                self.page.words(" in the first and ")?;
                self.element(*theirs)?;
                return self.page.words(" in the second");
            }
        }
        Ok(())
    }

    // T1 (index 0) appended 4 to key 3, and so did T2 (index 5)
    fn appenders(&mut self, key: u64, element: u64) -> Result<(), AllocError> {
        let places = appenders(self.alloc, self.history, key, element)?;
        let (Some(first), Some(second)) = (places.get(0), places.get(1)) else {
            return Ok(());
        };
        self.who(*first)?;
        self.page.words(" appended ")?;
        self.element(element)?;
        self.page.words(" to key ")?;
        self.page.name(&self.history.names, key)?;
        if *first == *second {
            return self.page.words(" twice\n");
        }
        self.page.words(", and so did ")?;
        self.who(*second)?;
        self.page.words("\n")
    }

    fn unwritten(&mut self, read: Read, element: u64) -> Result<(), AllocError> {
        self.read(read)?;
        self.page.words(", and ")?;
        let key = self.key_of(read);
        let is_aborted = self
            .history
            .transactions
            .iter()
            .any(|transaction| appends_in_vain(transaction, key, element));
        if is_aborted {
            self.element(element)?;
            self.page.words(" was appended by ")?;
            self.writer(key, element, Outcome::Aborted)?;
            return self.page.words(", which failed\n");
        }
        self.page.words("nobody appended ")?;
        self.element(element)?;
        self.page.words("\n")
    }

    // T1 (index 4) read key 3 as [1 2], and 1 was appended by T2 (index 1), which failed, and 2 later by T3 (index 2)
    fn dirty_update(&mut self, read: Read, aborted: u64, element: u64) -> Result<(), AllocError> {
        self.read(read)?;
        self.page.words(", and ")?;
        let key = self.key_of(read);
        self.element(aborted)?;
        self.page.words(" was appended by ")?;
        self.writer(key, aborted, Outcome::Aborted)?;
        self.page.words(", which failed, and ")?;
        self.element(element)?;
        self.page.words(" after it by ")?;
        self.writer(key, element, Outcome::Committed)?;
        self.page.words("\n")
    }

    // the first transaction that ended so and appended the element to the key
    fn writer(&mut self, key: u64, element: u64, outcome: Outcome) -> Result<(), AllocError> {
        let mut place = 0u32;
        for transaction in &self.history.transactions {
            let operations = transaction.operations.iter();
            let mut appending = operations.filter(|operation| appends(operation, key, element));
            if transaction.outcome == outcome && appending.next().is_some() {
                return self.who(place);
            }
            place = place.saturating_add(1);
        }
        Ok(())
    }

    fn cycle(&mut self, links: &[Link]) -> Result<(), AllocError> {
        for link in links {
            self.link(link)?;
        }
        Ok(())
    }

    fn link(&mut self, link: &Link) -> Result<(), AllocError> {
        match link.kind {
            Kind::WriteRead(read) => {
                self.appended(link.from, read)?;
                self.page.words(", and ")?;
                self.read(read)?;
            }
            Kind::ReadWrite(read) => {
                self.read(read)?;
                self.page.words(", and ")?;
                self.appended(link.to, read)?;
            }
            Kind::WriteWrite(read) => {
                self.appended(link.from, read)?;
                self.page.words(", ")?;
                self.appended(link.to, read)?;
                self.page.words(", and ")?;
                self.read(read)?;
            }
        }
        self.page.words(": ")?;
        self.short(link.from)?;
        self.page.words(" before ")?;
        self.short(link.to)?;
        self.page.words("\n")
    }

    // "T1 (index 4)" -> "T2 (index 5)" [label="rw 1"];
    fn arrow(&mut self, link: &Link) -> Result<(), AllocError> {
        self.page.words("  \"")?;
        self.who(link.from)?;
        self.page.words("\" -> \"")?;
        self.who(link.to)?;
        self.page.words("\" [label=\"")?;
        self.page.words(name_of_link(link))?;
        self.page.words(" ")?;
        let read = match link.kind {
            Kind::WriteRead(read) | Kind::ReadWrite(read) | Kind::WriteWrite(read) => read,
        };
        let key = self.key_of(read);
        let mut name = Page::new(self.alloc);
        name.name(&self.history.names, key)?;
        self.page.quoted(name.bytes.as_slice())?;
        self.page.words("\"];\n")
    }

    // T1 (index 12)
    fn who(&mut self, place: u32) -> Result<(), AllocError> {
        self.short(place)?;
        if let Some(label) = self.history.labels.get(place as usize) {
            self.page.words(" (index ")?;
            self.page.number(label.index)?;
            self.page.words(")")?;
        }
        Ok(())
    }

    // T1
    fn short(&mut self, place: u32) -> Result<(), AllocError> {
        let number = self.cast.number(place)?;
        self.page.words("T")?;
        self.page.number(number)
    }

    fn element(&mut self, element: u64) -> Result<(), AllocError> {
        self.page.name(&self.history.names, element)
    }

    fn key(&mut self, read: Read) -> Result<(), AllocError> {
        let key = self.key_of(read);
        self.page.words("key ")?;
        self.page.name(&self.history.names, key)
    }

    // T1 (index 12) read key 3 as [1 2]
    fn read(&mut self, read: Read) -> Result<(), AllocError> {
        self.who(read.transaction)?;
        self.page.words(" read ")?;
        self.key(read)?;
        self.page.words(" as ")?;
        self.found(read)
    }

    // [1 2]
    fn found(&mut self, read: Read) -> Result<(), AllocError> {
        let elements = self.elements(read)?;
        self.page.list(&self.history.names, elements.as_slice())
    }

    fn elements(&self, read: Read) -> Result<Vec<u64>, AllocError> {
        match step_of(self.history, read) {
            Some(Operation::Read { elements, .. }) => elements.as_slice().to_vec(self.alloc),
            _ => Ok(Vec::new(self.alloc)),
        }
    }

    // what the transaction of the read leaves in the list
    fn left_elements(&self, read: Read) -> Result<Vec<u64>, AllocError> {
        let mut elements = self.elements(read)?;
        let own = self.own(read, read.transaction, read.step.saturating_add(1))?;
        elements.extend_from_slice(own.as_slice())?;
        Ok(elements)
    }

    // T1 (index 12) read key 3 as [1 2] and appended [4 5] afterwards
    fn left(&mut self, read: Read) -> Result<(), AllocError> {
        self.read(read)?;
        let own = self.own(read, read.transaction, read.step.saturating_add(1))?;
        if !own.is_empty() {
            self.page.words(" and appended ")?;
            self.page.list(&self.history.names, own.as_slice())?;
            self.page.words(" afterwards")?;
        }
        Ok(())
    }

    // T1 (index 12) appended [4 5] to key 3
    fn appended(&mut self, place: u32, read: Read) -> Result<(), AllocError> {
        self.who(place)?;
        self.page.words(" appended ")?;
        self.block(read, place)?;
        self.page.words(" to ")?;
        self.key(read)
    }

    // what the transaction at the place appends to the key of the read
    fn block(&mut self, read: Read, place: u32) -> Result<(), AllocError> {
        let own = self.own(read, place, 0)?;
        if own.len() == 1 {
            return self.element(own[0]);
        }
        self.page.list(&self.history.names, own.as_slice())
    }

    fn own(&self, read: Read, place: u32, from: usize) -> Result<Vec<u64>, AllocError> {
        let key = self.key_of(read);
        let mut own = Vec::new(self.alloc);
        if let Some(transaction) = self.history.transactions.get(place as usize) {
            for (step, operation) in transaction.operations.iter().enumerate() {
                if let Operation::Append { key: to, element } = operation {
                    if *to == key && step >= from {
                        own.push(*element)?;
                    }
                }
            }
        }
        Ok(own)
    }

    fn key_of(&self, read: Read) -> u64 {
        match step_of(self.history, read) {
            Some(Operation::Read { key, .. }) => *key,
            _ => 0,
        }
    }
}

// The places of the transactions that append the element to the list of the key and aren't aborted, one for each append.
fn appenders(
    alloc: Global,
    history: &History,
    key: u64,
    element: u64,
) -> Result<Vec<u32>, AllocError> {
    let mut places = Vec::new(alloc);
    let mut place = 0u32;
    for transaction in &history.transactions {
        for operation in effects(transaction) {
            if appends(operation, key, element) {
                places.push(place)?;
            }
        }
        place = place.saturating_add(1);
    }
    Ok(places)
}

fn step_of(history: &History, read: Read) -> Option<&Operation> {
    history
        .transactions
        .get(read.transaction as usize)?
        .operations
        .get(read.step)
}

//! What the transactions of components do to the lines of keys. All precedences between them follow.

use crate::components::ALONE;
use crate::lines::Lines;
use crate::reading::{Reading, small};
use append_values::{Operation, Read, Transaction};
use std::alloc::{AllocError, Global};

/// What a transaction does to the list of a key.
#[derive(Clone, Copy, PartialEq, Eq, PartialOrd, Ord)]
pub(crate) enum Part {
    /// It appended what somebody read.
    Writer,
    /// It read the list.
    Reader,
    /// It appended what nobody read but itself.
    Unseen,
}

/// What a transaction does to the list of a key.
#[derive(Clone, Copy, PartialEq, Eq, PartialOrd, Ord)]
pub(crate) struct Role {
    component: u32,
    line: u32,
    pub part: Part,
    /// Of a writer its place in the line, of a reader how many writers its read shows.
    pub place: u32,
    pub node: u32,
    /// The read that shows it.
    reader: u32,
    step: usize,
}

impl Role {
    fn new(line: usize, part: Part, place: usize, node: u32, read: Read) -> Role {
        Role {
            component: ALONE,
            line: small(line),
            part,
            place: small(place),
            node,
            reader: read.transaction,
            step: read.step,
        }
    }

    /// Returns the read that shows it. Nobody looks at that of a transaction whose elements nobody read.
    pub fn read(&self) -> Read {
        Read {
            transaction: self.reader,
            step: self.step,
        }
    }

    /// Returns whether the roles are those of one component and of one key.
    pub fn is_beside(&self, other: &Role) -> bool {
        self.component == other.component && self.line == other.line
    }
}

/// The roles of the transactions that are in a component, those of each component and key in a row: the writers and the
/// readers by their places, and then the others.
pub(crate) fn sorted_roles(
    alloc: Global,
    lines: &Lines,
    transactions: &[Transaction],
    readings: &[Reading],
    components: &[u32],
) -> Result<Vec<Role>, AllocError> {
    let mut roles = Roles {
        components,
        roles: Vec::new(alloc),
    };
    for (number, line) in lines.lines.iter().enumerate() {
        let seen = line.seen();
        for (place, writer) in line.writers.iter().enumerate() {
            let part = if place < seen {
                Part::Writer
            } else {
                Part::Unseen
            };
            let read = line.evidence(place);
            roles.add(Role::new(number, part, place, *writer, read))?;
        }
    }
    for reading in readings {
        let read = reading.read();
        roles.add(Role::new(
            reading.line(),
            Part::Reader,
            reading.writers(),
            read.transaction,
            read,
        ))?;
    }
    let mut place = 0u32;
    for transaction in transactions {
        if roles.component(place) != ALONE {
            roles.add_unseen(lines, place, transaction.operations.as_slice())?;
        }
        place = place.saturating_add(1);
    }
    let mut roles = roles.roles;
    roles.sort_unstable();
    Ok(roles)
}

#[derive(Drop)]
struct Roles<'a> {
    components: &'a [u32],
    roles: Vec<Role>,
}

impl Roles<'_> {
    fn component(&self, node: u32) -> u32 {
        self.components.get(node as usize).copied().unwrap_or(ALONE)
    }

    fn add(&mut self, role: Role) -> Result<(), AllocError> {
        let component = self.component(role.node);
        if component != ALONE {
            self.roles.push(Role { component, ..role })?;
        }
        Ok(())
    }

    fn add_unseen(
        &mut self,
        lines: &Lines,
        place: u32,
        operations: &[Operation],
    ) -> Result<(), AllocError> {
        let read = Read {
            transaction: place,
            step: 0,
        };
        for operation in operations {
            if let Operation::Append { key, .. } = operation {
                if let Some(line) = lines.number(*key) {
                    if !lines.has(line, *key, place, operations) {
                        self.add(Role::new(line, Part::Unseen, 0, place, read))?;
                    }
                }
            }
        }
        Ok(())
    }
}

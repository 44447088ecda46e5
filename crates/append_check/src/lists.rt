//! The lists of a serial run.

ghost use Rattle.std.specs.Prelude.{◌≡◌, ℕ, true, map, IfOk, OnOk};
ghost use Rattle.append_values.specs.Meaning.Histories.{operation_of, transaction_of, effects_of, Append};
ghost use Rattle.append_values.specs.Meaning.Runs.{after, empty, run, Sees, AllSee, Claims};

use append_values::{Operation, Outcome, Transaction, effects};
use std::alloc::{AllocError, Global};
use std::collections::HashMap;

/// The list of each key; a key without one has the empty list.
#[derive(Drop)]
pub(crate) struct Lists {
    alloc: Global,
    by_key: HashMap<u64, Vec<u64>>,
}

impl Lists {
    ghost use Rattle.append_check.specs.Machinery.Running.{lists_of};

    /// Returns empty lists.
    pub fn new(alloc: Global) -> Lists
        ensures { (k : ℕ) → lists_of result k ≡ empty k }
    {
        Lists {
            alloc,
            by_key: HashMap::new(alloc),
        }
    }

    /// Returns whether the list of the key is this one.
    fn is(&self, key: u64, elements: &[u64]) -> bool
        ensures { result ≡ true → lists_of self.now key ≡ elements.now }
    {
        match self.by_key.get(&key) {
            Some(list) => list.as_slice() == elements,
            None => elements.is_empty(),
        }
    }

    /// Puts the element at the end of the list of the key.
    fn append(&mut self, key: u64, element: u64) -> Result<(), AllocError>
        ensures { OnOk result ((k : ℕ) → lists_of self.new k ≡ after (lists_of self.old) (Append key element) k) }
    {
        if let Some(list) = self.by_key.get_mut(&key) {
            return list.push(element).map_err(|_| AllocError);
        }
        let mut list = Vec::new(self.alloc);
        list.push(element)?;
        self.by_key.insert(key, list)?;
        Ok(())
    }

    /// Takes the step, and returns true; or false if it is a read that claims to have returned something else.
    fn step(&mut self, claims: bool, operation: &Operation) -> Result<bool, AllocError>
        ensures { let o = operation_of operation.now in
            IfOk result (λ b. b ≡ true → (claims ≡ true → Sees (lists_of self.old) o)
            × ((k : ℕ) → lists_of self.new k ≡ after (lists_of self.old) o k)) }
    {
        match operation {
            Operation::Append { key, element } => {
                self.append(*key, *element)?;
                Ok(true)
            }
            Operation::Read { key, elements } => {
                let same = self.is(*key, elements.as_slice());
                Ok(same || !claims)
            }
            Operation::LostRead { .. } => Ok(true),
        }
    }

    /// Takes the steps, and returns true; or false if one of them is a read that claims to have returned something else.
    fn steps(&mut self, claims: bool, operations: &[Operation]) -> Result<bool, AllocError>
        ensures { let os = map operation_of operations.now in
            IfOk result (λ b. b ≡ true → (claims ≡ true → AllSee (lists_of self.old) os)
            × ((k : ℕ) → lists_of self.new k ≡ run (lists_of self.old) os k)) }
    {
        'steps: for operation in operations {
            let goes_on = self.step(claims, operation)?;
            if !goes_on {
                return Ok(false);
            }
        }
        Ok(true)
    }

    /// Runs the transaction, which has no effect if it aborted. Returns false if it committed and one of its reads returned something else than its list.
    pub fn run(&mut self, transaction: &Transaction) -> Result<bool, AllocError>
        ensures { let t = transaction_of transaction.now in
            IfOk result (λ b. b ≡ true → Claims (lists_of self.old) t.outcome t.operations
            × ((k : ℕ) → lists_of self.new k ≡ run (lists_of self.old) (effects_of t) k)) }
    {
        let claims = is_committed(transaction.outcome);
        let fine = self.steps(claims, effects(transaction))?;
        Ok(fine)
    }
}

fn is_committed(outcome: Outcome) -> bool
    ensures { outcome ≡ Outcome.Committed → result ≡ true }
{
    match outcome {
        Outcome::Committed => true,
        Outcome::Aborted => false,
        Outcome::Unknown => false,
    }
}

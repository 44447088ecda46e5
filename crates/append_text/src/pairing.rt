//! Transactions out of invocations and completions.

ghost use Rattle.std.specs.Prelude.{◌≡◌, ◌⊎◌, ◌++◌, ◌∷◌, [], List, Some, None, length, map, true, is_some, IfOk, IfErr, OnOk, OnErr};
ghost use Rattle.std.specs.Bool.{OnTrue, OnFalse};
ghost use Rattle.std.specs.Ordering.{int_cmp};
ghost use Rattle.std.specs.BTreeMap.{get, Updates};
ghost use Rattle.append_values.specs.declared.transaction.Outcome.TheVariants.{Unknown};
ghost use Rattle.append_values.specs.Meaning.Histories.{operation_of, transaction_of};
ghost use Rattle.append_text.specs.Meaning.Steps as Spec;
ghost use Rattle.append_text.specs.Meaning.Pairing.{Op as Plain, is_invoke, AreSame, MayEnd, MayFollow};
ghost use Rattle.append_text.specs.Machinery.Pairings.{op_of, style_or_by, is_alone, HasTaken, Ends, MayNotEnd};

use crate::history::{History, Label, PassedOver};
use crate::name::Names;
use crate::operation::{Kind, Op};
use crate::read_fault::{Problem, Refusal};
use append_values::{Operation, Outcome, Transaction};
use std::alloc::{AllocError, Global};
use std::collections::BTreeMap;

/// Whether the operations of a text are invoked. Its first one decides.
#[derive(Clone, Copy)]
enum Style {
    /// There was no operation.
    Undecided,
    /// Each is invoked, and then completed or not.
    Invoked,
    /// Each is a completion, which stands for its transaction alone.
    Completed,
}

/// Makes transactions of operations, in the order of the text.
#[derive(Drop)]
pub(crate) struct Pairing {
    alloc: Global,
    style: Style,
    transactions: Vec<Transaction>,
    labels: Vec<Label>,
    /// The place of the transaction that a process has invoked and not completed.
    waiting: BTreeMap<i64, usize>,
}

impl Pairing {
    /// A pairing of no operations.
    pub(crate) fn new(alloc: Global) -> Pairing
        ensures { HasTaken result [] }
    {
        Pairing {
            alloc,
            style: Style::Undecided,
            transactions: Vec::new(alloc),
            labels: Vec::new(alloc),
            waiting: BTreeMap::new(alloc),
        }
    }

    /// Takes the next operation, unless it can't come after those before or memory runs out.
    pub(crate) fn take(&mut self, op: Op) -> Result<(), Refusal>
        ensures taken { OnOk result ((ops : List Plain) → HasTaken self.old ops
            → MayFollow ops (op_of op) × HasTaken self.new (ops ++ op_of op ∷ [])) }
        ensures refused { IfErr result (λ e. (ops : List Plain) → HasTaken self.old ops
            → (e ≡ Refusal.Memory) ⊎ (MayFollow ops (op_of op) → ⊥)) }
    {
        self.style = self.style.or_by(op.kind);
        let is_invocation = is_invoke(op.kind);
        if self.style.is_alone() {
            if is_invocation {
                return Err(Refusal::Problem(Problem::LateInvocation));
            }
            return Ok(self.add(op.label, outcome_of(op.kind), op.steps)?);
        }
        if is_invocation {
            return self.invoke(op.label, op.steps);
        }
        self.complete(op)
    }

    /// Returns the history of the operations so far.
    pub(crate) fn finish(self, names: Names, passed_over: PassedOver) -> History
        ensures transactions { result.transactions ≡ self.transactions }
        ensures labels { result.labels ≡ self.labels }
        ensures names { result.names ≡ names }
        ensures passed_over { result.passed_over ≡ passed_over }
    {
        History {
            transactions: self.transactions,
            labels: self.labels,
            names,
            passed_over,
        }
    }

    /// Adds a transaction. Unless it committed, its reads claim nothing.
    fn add(
        &mut self,
        label: Label,
        outcome: Outcome,
        steps: Vec<Operation>,
    ) -> Result<(), AllocError>
        ensures transactions { OnOk result (map transaction_of self.new.transactions.items
            ≡ map transaction_of self.old.transactions.items ++ Spec.told outcome (map operation_of steps.items) ∷ []) }
        ensures labels { OnOk result (self.new.labels.items ≡ self.old.labels.items ++ label ∷ []) }
        ensures others { (self.new.waiting ≡ self.old.waiting) × (self.new.style ≡ self.old.style) }
    {
        let operations = known_steps(self.alloc, outcome, steps)?;
        self.transactions.push(Transaction {
            outcome,
            operations,
        })?;
        self.labels.push(label)?;
        Ok(())
    }

    /// Adds a transaction that its process invokes.
    fn invoke(&mut self, label: Label, steps: Vec<Operation>) -> Result<(), Refusal>
        ensures transactions { OnOk result (map transaction_of self.new.transactions.items
            ≡ map transaction_of self.old.transactions.items ++ Spec.told Unknown (map operation_of steps.items) ∷ []) }
        ensures labels { OnOk result (self.new.labels.items ≡ self.old.labels.items ++ label ∷ []) }
        ensures style { self.new.style ≡ self.old.style }
        ensures waited { OnOk result (get int_cmp self.old.waiting label.process ≡ None) }
        ensures waits { OnOk result (Updates int_cmp self.old.waiting self.new.waiting label.process
            (Some (length self.old.transactions.items))) }
        ensures refused { IfErr result (λ e. (e ≡ Refusal.Memory)
            ⊎ (is_some (get int_cmp self.old.waiting label.process) ≡ true)) }
    {
        if self.waiting.contains_key(&label.process) {
            return Err(Refusal::Problem(Problem::TwoInvocations));
        }
        let process = label.process;
        let place = self.transactions.len();
        self.add(label, Outcome::Unknown, steps)?;
        self.waiting.insert(process, place)?;
        Ok(())
    }

    /// Completes the transaction that the process of the operation has invoked.
    fn complete(&mut self, op: Op) -> Result<(), Refusal>
        ensures style { self.new.style ≡ self.old.style }
        ensures waits { OnOk result (Updates int_cmp self.old.waiting self.new.waiting op.label.process None) }
        ensures ended { OnOk result (Ends self.old self.new (op_of op)) }
        ensures refused { IfErr result (λ e. MayNotEnd self.old (op_of op)) }
    {
        let Some(place) = self.waiting.remove(&op.label.process) else {
            return Err(Refusal::Problem(Problem::NoInvocation));
        };
        let Some(transaction) = self.transactions.get_mut(place) else {
            return Err(Refusal::Problem(Problem::NoInvocation));
        };
        end_transaction(transaction, op.kind, op.steps)?;
        if let Some(known) = self.labels.get_mut(place) {
            *known = op.label;
        }
        Ok(())
    }
}

/// Ends an invoked transaction as the operation says. `OtherSteps` if it committed other steps than were invoked, in
/// which case nothing changes.
fn end_transaction(
    transaction: &mut Transaction,
    kind: Kind,
    steps: Vec<Operation>,
) -> Result<(), Refusal>
    ensures ok { OnOk result (transaction_of transaction.new
        ≡ Spec.ended kind (transaction_of transaction.old) (map operation_of steps.items)) }
    ensures may { OnOk result (MayEnd kind (map operation_of transaction.old.operations.items) (map operation_of steps.items)) }
    ensures err { OnErr result (transaction.new ≡ transaction.old) }
    ensures may_not { OnErr result (MayEnd kind (map operation_of transaction.old.operations.items) (map operation_of steps.items) → ⊥) }
{
    match kind {
        Kind::Ok => {
            if !are_same(&transaction.operations, &steps) {
                return Err(Refusal::Problem(Problem::OtherSteps));
            }
            transaction.operations = steps;
        }
        Kind::Invoke | Kind::Fail | Kind::Info => {}
    }
    transaction.outcome = outcome_of(kind);
    Ok(())
}

impl Style {
    /// Returns this style; if it is undecided, that of a text whose first operation is of this kind.
    fn or_by(self, kind: Kind) -> Style
        ensures { result ≡ style_or_by self kind }
    {
        match self {
            Style::Undecided if is_invoke(kind) => Style::Invoked,
            Style::Undecided => Style::Completed,
            decided => decided,
        }
    }

    /// Returns whether operations stand for their transactions alone.
    fn is_alone(&self) -> bool
        ensures { result ≡ is_alone self.now }
    {
        matches!(self, Style::Completed)
    }
}

fn is_invoke(kind: Kind) -> bool
    ensures { result ≡ is_invoke kind }
{
    matches!(kind, Kind::Invoke)
}

/// Returns how a transaction ended after an operation of this kind.
fn outcome_of(kind: Kind) -> Outcome
    ensures { result ≡ Spec.outcome_of kind }
{
    match kind {
        Kind::Ok => Outcome::Committed,
        Kind::Fail => Outcome::Aborted,
        Kind::Invoke | Kind::Info => Outcome::Unknown,
    }
}

/// Returns what is known of the steps of a transaction that ended so.
fn known_steps(
    alloc: Global,
    outcome: Outcome,
    steps: Vec<Operation>,
) -> Result<Vec<Operation>, AllocError>
    ensures { IfOk result (λ v. map operation_of v.items ≡ Spec.known_steps outcome (map operation_of steps.items)) }
{
    match outcome {
        Outcome::Committed => Ok(steps),
        Outcome::Aborted | Outcome::Unknown => without_results(alloc, &steps),
    }
}

/// Returns the steps, with nothing known of what their reads got.
fn without_results(alloc: Global, steps: &[Operation]) -> Result<Vec<Operation>, AllocError>
    ensures { IfOk result (λ v. map operation_of v.items ≡ map Spec.without_result (map operation_of steps.now)) }
{
    let mut kept = Vec::new(alloc);
    for step in steps {
        kept.push(without_result(step))?;
    }
    Ok(kept)
}

fn without_result(step: &Operation) -> Operation
    ensures { operation_of result ≡ Spec.without_result (operation_of step.now) }
{
    match step {
        Operation::Append { key, element } => Operation::Append {
            key: *key,
            element: *element,
        },
        Operation::Read { key, .. } | Operation::LostRead { key } => {
            Operation::LostRead { key: *key }
        }
    }
}

/// Returns whether these are the same steps but for what reads got.
fn are_same(some: &[Operation], others: &[Operation]) -> bool
    ensures same { OnTrue result (AreSame (map operation_of some.now) (map operation_of others.now)) }
    ensures differ { OnFalse result (AreSame (map operation_of some.now) (map operation_of others.now) → ⊥) }
{
    if some.len() != others.len() {
        return false;
    }
    for i in 0..some.len() {
        if !is_same(&some[i], &others[i]) {
            return false;
        }
    }
    true
}

fn is_same(step: &Operation, other: &Operation) -> bool
    ensures { result ≡ Spec.is_same (operation_of step.now) (operation_of other.now) }
{
    match (step, other) {
        (
            Operation::Append { key, element },
            Operation::Append {
                key: other_key,
                element: other_element,
            },
        ) => key == other_key && element == other_element,
        (
            Operation::Read { key, .. } | Operation::LostRead { key },
            Operation::Read { key: other_key, .. } | Operation::LostRead { key: other_key },
        ) => key == other_key,
        _ => false,
    }
}

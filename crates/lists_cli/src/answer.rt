//! The answer, as people read it and as programs do.

ghost use Rattle.std.specs.Prelude.{IfOk};
ghost use Rattle.lists_verdicts.specs.Meaning.Status.{answer_of};
ghost use Rattle.lists_cli.specs.Clauses.Faults.{BeginsSo};

use crate::basis::Basis;
use crate::explanation::{Explanation, appends_in_words, nothing_in_words};
use crate::page::Page;
use append_check::{Counted, Findings, Link, Reason, Verdict};
use append_text::History;
use lists_verdicts::{Answer, Phenomenon, name_of_link};
use serde_json::{Value, json, push};
use std::alloc::{AllocError, Global};

/// Returns the answer in words: its first line, and the sentences that say why. Each line ends with a line feed.
pub(crate) fn in_words(
    alloc: Global,
    history: &History,
    findings: &Findings,
) -> Result<Vec<u8>, AllocError>
    ensures { IfOk result (λ text. BeginsSo (answer_of history.now.transactions.items findings.now.verdict) text.items) }
{
    let answer = Answer::of(history.transactions.as_slice(), &findings.verdict);
    let mut text = Vec::from_slice(alloc, answer.words().as_bytes())?;
    text.extend_from_slice(rest_in_words(alloc, history, findings)?.as_slice())?;
    Ok(text)
}

/// Returns what follows the words with which the answer begins.
fn rest_in_words(
    alloc: Global,
    history: &History,
    findings: &Findings,
) -> Result<Vec<u8>, AllocError> {
    let mut page = Page::new(alloc);
    match &findings.verdict {
        Verdict::Serializable(_) => {
            page.words("\n")?;
            page.text(nothing_in_words(alloc, history)?.as_slice())?;
        }
        Verdict::AppendedTwice { key, element } => {
            page.words("\n")?;
            page.text(appends_in_words(alloc, history, *key, *element)?.as_slice())?;
        }
        Verdict::NotSerializable(reason) => {
            page.words(": ")?;
            page.words(name(history, reason))?;
            page.words("\n")?;
            reasons_in_words(alloc, history, findings, reason, &mut page)?;
        }
    }
    Ok(page.bytes)
}

// The sentences of the reason that decides, how many faults there are beside it, and one of each other kind.
fn reasons_in_words(
    alloc: Global,
    history: &History,
    findings: &Findings,
    reason: &Reason,
    page: &mut Page,
) -> Result<(), AllocError> {
    let mut explanation = Explanation::new(alloc, history);
    page.text(explanation.of(reason)?.as_slice())?;
    if !findings.is_searched {
        page.words(
            "the search for cycles was cut off: there may be a shorter one, or one of a worse kind\n",
        )?;
    }
    let mut begins = "also: ";
    if findings.times > 1 {
        page.words(begins)?;
        count(
            page,
            history,
            findings.times.saturating_sub(1),
            " more ",
            reason,
        )?;
        begins = ", ";
    }
    for counted in &findings.others {
        page.words(begins)?;
        count(page, history, counted.times, " ", &counted.reason)?;
        begins = ", ";
    }
    if begins == ", " {
        page.words("\n")?;
    }
    for counted in &findings.others {
        let sentences = explanation.of(&counted.reason)?;
        for line in sentences.split(|byte| *byte == b'\n') {
            if !line.is_empty() {
                page.words(name(history, &counted.reason))?;
                page.words(": ")?;
                page.text(line)?;
                page.words("\n")?;
            }
        }
    }
    Ok(())
}

// 3 aborted reads (G1a)
fn count(
    page: &mut Page,
    history: &History,
    times: u64,
    between: &str,
    reason: &Reason,
) -> Result<(), AllocError> {
    let phenomenon = Phenomenon::of(history.transactions.as_slice(), reason);
    page.number(times)?;
    page.words(between)?;
    page.words(phenomenon.noun())?;
    if times != 1 {
        page.words("s")?;
    }
    if phenomenon.noun() != phenomenon.name() {
        page.words(" (")?;
        page.words(phenomenon.name())?;
        page.words(")")?;
    }
    Ok(())
}

/// Returns the answer as an object of JSON on a line of its own: `answer` is the first line without the kind; an order
/// stands in `order`; after a reason `kind` has its name, `times` how many of the kind were found, `explanation` the
/// sentences and, if it is a cycle, `cycle` its links and `shortest` whether the search for cycles came to its end: if not,
/// there may be a shorter one, or one of a worse kind. `also` has the same of the other kinds. `rests_on` has what was
/// counted. A transaction is named by its index.
pub(crate) fn in_json(
    alloc: Global,
    history: &History,
    findings: &Findings,
) -> Result<Vec<u8>, AllocError> {
    let answer = Answer::of(history.transactions.as_slice(), &findings.verdict);
    let basis = rests_on(alloc, &Basis::of(history))?;
    let object = match &findings.verdict {
        Verdict::Serializable(order) if answer == Answer::Serializable => {
            let order = indexes(alloc, history, order.as_slice())?;
            json!(in alloc; {"answer": answer.words(), "order": order, "rests_on": basis})?
        }
        Verdict::Serializable(_) => {
            let lines = lines(alloc, nothing_in_words(alloc, history)?.as_slice())?;
            json!(in alloc; {"answer": answer.words(), "explanation": lines, "rests_on": basis})?
        }
        Verdict::AppendedTwice { key, element } => {
            let why = appends_in_words(alloc, history, *key, *element)?;
            let lines = lines(alloc, why.as_slice())?;
            json!(in alloc; {"answer": answer.words(), "explanation": lines, "rests_on": basis})?
        }
        Verdict::NotSerializable(reason) => with_reasons(alloc, history, findings, reason, basis)?,
    };
    let mut text = object.to_vec(alloc)?;
    text.push(b'\n')?;
    Ok(text)
}

fn with_reasons(
    alloc: Global,
    history: &History,
    findings: &Findings,
    reason: &Reason,
    basis: Value,
) -> Result<Value, AllocError> {
    let mut explanation = Explanation::new(alloc, history);
    let kind = name(history, reason);
    let why = lines(alloc, explanation.of(reason)?.as_slice())?;
    let mut also = Vec::new(alloc);
    for counted in &findings.others {
        push(
            &mut also,
            other(
                alloc,
                history,
                counted,
                &mut explanation,
                findings.is_searched,
            )?,
        )?;
    }
    match reason {
        Reason::Cycle(links) => {
            let cycle = cycle(alloc, history, links.as_slice())?;
            json!(in alloc; {
                "answer": "not serializable", "kind": kind, "times": findings.times, "explanation": why,
                "cycle": cycle, "shortest": findings.is_searched, "also": also, "rests_on": basis
            })
        }
        _ => json!(in alloc; {
            "answer": "not serializable", "kind": kind, "times": findings.times, "explanation": why,
            "also": also, "rests_on": basis
        }),
    }
}

fn other(
    alloc: Global,
    history: &History,
    counted: &Counted,
    explanation: &mut Explanation<'_>,
    is_searched: bool,
) -> Result<Value, AllocError> {
    let kind = name(history, &counted.reason);
    let why = lines(alloc, explanation.of(&counted.reason)?.as_slice())?;
    match &counted.reason {
        Reason::Cycle(links) => {
            let cycle = cycle(alloc, history, links.as_slice())?;
            json!(in alloc; {
                "kind": kind, "times": counted.times, "explanation": why, "cycle": cycle, "shortest": is_searched
            })
        }
        _ => json!(in alloc; {"kind": kind, "times": counted.times, "explanation": why}),
    }
}

fn rests_on(alloc: Global, basis: &Basis) -> Result<Value, AllocError> {
    let passed_over = json!(in alloc; {
        "f": basis.passed_over.other_function, "process": basis.passed_over.other_process
    })?;
    json!(in alloc; {
        "ok": basis.ok, "info": basis.info, "fail": basis.fail,
        "reads": basis.reads, "elements": basis.elements, "passed_over": passed_over
    })
}

fn name(history: &History, reason: &Reason) -> &'static str {
    Phenomenon::of(history.transactions.as_slice(), reason).name()
}

fn indexes(alloc: Global, history: &History, order: &[u32]) -> Result<Vec<Value>, AllocError> {
    let mut indexes = Vec::new(alloc);
    for place in order {
        push(&mut indexes, Value::from(index(history, *place)))?;
    }
    Ok(indexes)
}

// The lines of the text. A byte that is no character becomes the replacement character.
fn lines(alloc: Global, text: &[u8]) -> Result<Vec<Value>, AllocError> {
    let mut lines = Vec::new(alloc);
    for line in text.split(|byte| *byte == b'\n') {
        if !line.is_empty() {
            let words = String::from_utf8_lossy(alloc, line)?;
            push(&mut lines, json!(in alloc; words.as_str())?)?;
        }
    }
    Ok(lines)
}

fn cycle(alloc: Global, history: &History, links: &[Link]) -> Result<Vec<Value>, AllocError> {
    let mut cycle = Vec::new(alloc);
    for link in links {
        let from = index(history, link.from);
        let to = index(history, link.to);
        let kind = name_of_link(link);
        push(
            &mut cycle,
            json!(in alloc; {"from": from, "to": to, "kind": kind})?,
        )?;
    }
    Ok(cycle)
}

// The index of the transaction at this place.
fn index(history: &History, place: u32) -> u64 {
    match history.labels.get(place as usize) {
        Some(label) => label.index,
        None => u64::from(place),
    }
}

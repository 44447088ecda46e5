//! With as much memory as they ask for, the calls of this crate give an answer.

use crate::{ListFault, answered_list, audited, certified_run};
use adya_audit::Verdict;
use std::alloc::Global;
use std::process::Abort;
use std::test::Fail;

/// Asserts that the answer to this text begins so, and that this order is written.
fn is_answered(
    rt: &impl Abort,
    alloc: Global,
    text: &[u8],
    words: &[u8],
    order: &[u8],
) -> Result<(), ListFault> {
    let answered = answered_list(alloc, None, text)?;
    assert!(rt; answered.answer.starts_with(words));
    assert_eq!(rt; answered.order.as_slice(), order);
    Ok(())
}

#[test]
fn lists_are_answered(rt: HostRuntime) -> Result<(), Fail> {
    let own = b"{:type :ok, :f :txn, :process 0, :index 3, :value [[:append 5 1] [:r 5 [1]]]}";
    is_answered(&rt, rt.alloc(), own, b"serializable", b"3\n")?;
    let unwritten = b"{:type :ok, :f :txn, :process 0, :index 0, :value [[:r 5 [1]]]}";
    is_answered(&rt, rt.alloc(), unwritten, b"not serializable", b"")?;
    is_answered(&rt, rt.alloc(), b"", b"nothing to check", b"")?;
    let repeated = b"{:type :ok, :f :txn, :process 0, :value [[:append 5 1]]}\n\
        {:type :ok, :f :txn, :process 0, :value [[:append 5 1]]}";
    is_answered(&rt, rt.alloc(), repeated, b"appended twice", b"")?;
    Ok(())
}

#[test]
fn a_text_of_no_history_is_refused(rt: HostRuntime) -> Result<(), Fail> {
    let answered = answered_list(rt.alloc(), None, b"{:type :ok");
    assert!(rt; matches!(answered, Err(ListFault::Text { .. })));
    Ok(())
}

#[test]
fn a_run_is_certified(rt: HostRuntime) -> Result<(), Fail> {
    let left = certified_run(rt.alloc(), b"begin A\nput A x 5\ncommit A\nstop\n")?;
    assert_eq!(rt;
        left.replies.as_slice(),
        b"begun 1\ndone\ncommitted\nstopped\n".as_slice()
    );
    assert!(rt; matches!(audited(rt.alloc(), &left)?, Verdict::Yes));
    Ok(())
}

// The rows of a table, and how a rule is asked for each.
use rules::{Job, Rule};
use std::cmp::Ordering;
use std::process::Abort;

// Two jobs, and how they are ordered: `Less` where the first goes first, `Greater` where the second does, and else `Equal`.
#[derive(Clone, Copy)]
pub(crate) struct Row {
    a: Job,
    b: Job,
    order: Ordering,
}

// A job of a task of a mode, with its release tick and D.
pub(crate) fn job(mode: u8, task: u8, release: u32, deadline: u16) -> Job {
    Job {
        mode,
        task,
        release,
        deadline,
    }
}

// Three constructors, so that a table reads as sentences: the first of two jobs goes before the second.
pub(crate) fn ahead(a: Job, b: Job) -> Row {
    Row {
        a,
        b,
        order: Ordering::Less,
    }
}

// The second of two jobs goes before the first.
pub(crate) fn behind(a: Job, b: Job) -> Row {
    Row {
        a,
        b,
        order: Ordering::Greater,
    }
}

// A job does not go before itself.
pub(crate) fn itself(a: Job) -> Row {
    Row {
        a,
        b: a,
        order: Ordering::Equal,
    }
}

// The rule answers both ways round as each row says.
pub(crate) fn agrees<R: Rule>(rt: &impl Abort, rule: &R, rows: &[Row]) {
    for row in rows {
        assert_eq!(rt; rule.goes_before(&row.a, &row.b), row.order.is_lt());
        assert_eq!(rt; rule.goes_before(&row.b, &row.a), row.order.is_gt());
    }
}

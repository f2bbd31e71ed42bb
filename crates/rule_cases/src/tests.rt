// The tables, one for each rule. A job stands as mode, task, release tick, D.
use crate::rows::*;
use ordering::first_in_order;
use own_rule::LatestFirst;
use plan::{MODES, Mode, Plan};
use rules::{ByMode, DeadlineMonotonic, EarliestDeadline, FileRank, Rule};
use std::process::Abort;

// D, then task, release tick, mode.
#[test]
fn deadline_monotonic(rt: HostRuntime) {
    let rows = [
        ahead(job(3, 9, 50, 4), job(0, 0, 0, 5)),
        ahead(job(3, 1, 50, 7), job(0, 2, 0, 7)),
        ahead(job(3, 2, 10, 7), job(0, 2, 11, 7)),
        ahead(job(0, 2, 10, 7), job(1, 2, 10, 7)),
        behind(
            job(255, 255, 4294967295, 65535),
            job(254, 255, 4294967295, 65535),
        ),
        itself(job(1, 2, 10, 7)),
    ];
    agrees(&rt, &DeadlineMonotonic, &rows);
}

// Release tick plus D, then task, release tick, mode. A sum may have more than 32 bits.
#[test]
fn earliest_deadline(rt: HostRuntime) {
    let rows = [
        ahead(job(3, 9, 5, 10), job(0, 0, 0, 16)),
        behind(job(0, 0, 10, 7), job(3, 9, 0, 16)),
        ahead(job(3, 1, 9, 6), job(0, 2, 5, 10)),
        ahead(job(3, 2, 5, 10), job(0, 2, 6, 9)),
        ahead(job(0, 2, 5, 10), job(1, 2, 5, 10)),
        behind(job(0, 0, 4294967295, 1), job(0, 0, 0, 5)),
        behind(job(0, 0, 4294967295, 65535), job(0, 0, 4294967295, 65534)),
        itself(job(1, 2, 5, 10)),
    ];
    agrees(&rt, &EarliestDeadline, &rows);
}

// Task, then release tick, mode, D.
#[test]
fn file_rank(rt: HostRuntime) {
    let rows = [
        ahead(job(3, 1, 50, 9), job(0, 2, 0, 1)),
        ahead(job(3, 2, 10, 9), job(0, 2, 11, 1)),
        ahead(job(0, 2, 10, 9), job(1, 2, 10, 1)),
        ahead(job(1, 2, 10, 3), job(1, 2, 10, 4)),
        behind(
            job(255, 255, 4294967295, 65535),
            job(255, 255, 4294967295, 65534),
        ),
        itself(job(1, 2, 10, 3)),
    ];
    agrees(&rt, &FileRank, &rows);
}

// The larger release tick, then task, mode, D.
#[test]
fn latest_first(rt: HostRuntime) {
    let rows = [
        ahead(job(3, 9, 11, 60), job(0, 0, 10, 1)),
        ahead(job(3, 1, 10, 60), job(0, 2, 10, 1)),
        ahead(job(0, 2, 10, 60), job(1, 2, 10, 1)),
        ahead(job(1, 2, 10, 3), job(1, 2, 10, 4)),
        itself(job(1, 2, 10, 3)),
    ];
    agrees(&rt, &LatestFirst, &rows);
}

// A plan whose modes have these codes.
fn plan_with(codes: [u8; 3]) -> Plan {
    let mut modes = [Mode::BLANK; MODES];
    for (mode, code) in modes.iter_mut().zip(codes) {
        mode.rule = code;
    }
    Plan {
        processors: 1,
        start: 0,
        count: 3,
        modes,
    }
}

// By-mode for such a plan, with the rules in the seats in the order of their codes.
fn by_mode_with(codes: [u8; 3]) -> ByMode<DeadlineMonotonic, EarliestDeadline, FileRank> {
    ByMode::new(
        &plan_with(codes),
        DeadlineMonotonic,
        EarliestDeadline,
        FileRank,
    )
}

// Modes 0, 1 and 2 go by deadline monotonic, earliest deadline and file rank, whatever seats these are in. In each of the first
// three rows the other two rules put the second job first.
fn each_mode_by_its_rule<R: Rule>(rt: &impl Abort, rule: &R) {
    let rows = [
        ahead(job(0, 9, 50, 4), job(0, 0, 0, 5)),
        ahead(job(1, 9, 0, 16), job(1, 0, 10, 7)),
        ahead(job(2, 1, 50, 60), job(2, 2, 0, 1)),
        itself(job(1, 9, 0, 16)),
        ahead(job(0, 9, 50, 60), job(1, 0, 0, 1)),
        ahead(job(2, 9, 50, 60), job(3, 0, 0, 1)),
        behind(job(255, 0, 0, 1), job(254, 9, 50, 60)),
    ];
    agrees(rt, rule, &rows);
}

#[test]
fn by_mode(rt: HostRuntime) {
    let rule = by_mode_with([0, 1, 2]);
    each_mode_by_its_rule(&rt, &rule);
    // Modes that are not in the plan go by the third seat, here file rank.
    let rows = [
        ahead(job(3, 1, 50, 60), job(3, 2, 0, 1)),
        ahead(job(7, 1, 50, 60), job(7, 2, 0, 1)),
        ahead(job(8, 1, 50, 60), job(8, 2, 0, 1)),
        ahead(job(255, 1, 50, 60), job(255, 2, 0, 1)),
    ];
    agrees(&rt, &rule, &rows);
}

#[test]
fn by_mode_with_the_seats_in_another_order(rt: HostRuntime) {
    let rule = ByMode::new(
        &plan_with([0, 1, 2]),
        FileRank,
        EarliestDeadline,
        DeadlineMonotonic,
    );
    each_mode_by_its_rule(&rt, &rule);
    // The third seat is deadline monotonic now.
    agrees(&rt, &rule, &[ahead(job(3, 9, 50, 4), job(3, 0, 0, 5))]);
}

// No seat has the code of mode 0, so the third decides: earliest deadline, where each of the others would put the second job first.
#[test]
fn by_mode_where_no_seat_has_the_code(rt: HostRuntime) {
    let rule = ByMode::new(
        &plan_with([2, 1, 0]),
        DeadlineMonotonic,
        LatestFirst,
        EarliestDeadline,
    );
    agrees(&rt, &rule, &[ahead(job(0, 9, 0, 16), job(0, 0, 10, 7))]);
}

// Two seats have the code of mode 0, so the first of them decides. These are themselves by-mode, for plans whose mode 0 goes by
// deadline monotonic and by file rank.
#[test]
fn by_mode_where_two_seats_have_the_code(rt: HostRuntime) {
    let first = by_mode_with([0, 0, 0]);
    let second = by_mode_with([2, 2, 2]);
    let rule = ByMode::new(&plan_with([3, 3, 3]), first, second, FileRank);
    agrees(&rt, &rule, &[ahead(job(0, 9, 50, 4), job(0, 0, 0, 5))]);
}

// Each rule puts another of these jobs first: those with the least D, due tick and task, and with the latest release.
#[test]
fn first_of_several(rt: HostRuntime) {
    let jobs = [
        job(0, 3, 0, 18),
        job(0, 2, 12, 7),
        job(0, 1, 14, 12),
        job(0, 0, 10, 30),
    ];
    assert_eq!(rt; first_in_order(&DeadlineMonotonic, &jobs), Some(1));
    assert_eq!(rt; first_in_order(&EarliestDeadline, &jobs), Some(0));
    assert_eq!(rt; first_in_order(&FileRank, &jobs), Some(3));
    assert_eq!(rt; first_in_order(&LatestFirst, &jobs), Some(2));
    assert_eq!(rt; first_in_order(&FileRank, &[]), None);
}

// A rule has this code, as generic code asks for it.
fn has_code<R: Rule>(rt: &impl Abort, code: u8) {
    assert_eq!(rt; R::CODE, code);
}

#[test]
fn codes(rt: HostRuntime) {
    has_code::<DeadlineMonotonic>(&rt, 0);
    has_code::<EarliestDeadline>(&rt, 1);
    has_code::<FileRank>(&rt, 2);
    has_code::<ByMode<DeadlineMonotonic, EarliestDeadline, FileRank>>(&rt, 3);
    has_code::<LatestFirst>(&rt, 100);
}

use crate::judging::{judge, prune_and_judge};
use crate::plans;
use crate::trying::what_if;
use planner::{Planner, Token, TokenRefused};
use queries::Table;
use std::process::Abort;
use std::test::Fail;
use stores::{BitStore, STARTS, Store};
use tickets::{Collection, PlannerRefusal, Terms};

/// A ticket's terms.
fn terms(first: u8, last: u8, length: u8, weight: u16) -> Terms {
    Terms {
        first,
        last,
        length,
        weight,
    }
}

fn day_one_tickets() -> [Terms; 4] {
    [
        terms(0, 10, 5, 10),
        terms(4, 8, 2, 10),
        terms(5, 9, 4, 12),
        terms(13, 15, 2, 8),
    ]
}

/// A word that is no cut.
const NO_CUT: u16 = u16::MAX;

/// A collection of these tickets under this ceiling.
fn posted(tickets: &[Terms], ceiling: u32) -> Result<Collection, Fail> {
    let mut collection = Collection::new();
    for terms in tickets {
        collection
            .post(*terms)
            .map_err(|_| Fail::new("a ticket is refused"))?;
    }
    collection
        .set_ceiling(ceiling)
        .map_err(|_| Fail::new("the ceiling is refused"))?;
    Ok(collection)
}

/// A planner of these tickets under this ceiling, with the stamp 7.
fn sealed(tickets: &[Terms], ceiling: u32) -> Result<Planner<BitStore>, Fail> {
    Ok(Planner::seal(posted(tickets, ceiling)?, BitStore::empty(), 7))
}

/// The row has the starts from each first to its last, and no others.
fn same_row<S: Store>(rt: &impl Abort, store: &S, row: usize, ranges: &[(usize, usize)]) {
    for start in 0..STARTS {
        let wanted = ranges
            .iter()
            .any(|(first, last)| *first <= start && start <= *last);
        assert_eq!(rt;
            store.holds(row, start),
            wanted,
            "start {start} of ticket {row}"
        );
    }
}

/// The words are those of the list, in any order, and the other words of the list are no cuts.
fn same_cuts(rt: &impl Abort, cuts: &[u16], wanted: &[u16]) {
    for word in wanted {
        assert!(rt; cuts.contains(word), "{word} is not listed");
    }
    let listed = cuts.iter().filter(|word| **word != NO_CUT).count();
    assert_eq!(rt; listed, wanted.len());
}

/// The rows of day one as they were posted.
fn day_one_posted<S: Store>(rt: &impl Abort, store: &S) {
    same_row(rt, store, 0, &[(0, 10)]);
    same_row(rt, store, 1, &[(4, 8)]);
    same_row(rt, store, 2, &[(5, 9)]);
    same_row(rt, store, 3, &[(13, 15)]);
}

#[test]
fn day_one(rt: HostRuntime) -> Result<(), Fail> {
    let mut planner = sealed(&day_one_tickets(), 372)?;
    let mut cuts = [NO_CUT; 20];
    assert_eq!(rt;
        planner.prune(&mut cuts[..19]),
        Err(PlannerRefusal::TooShort)
    );
    same_cuts(&rt, &cuts, &[]);
    assert_eq!(rt; planner.prune(&mut cuts), Ok(16));
    let wanted = [1, 2, 3, 4, 5, 6, 7, 8, 9, 10, 262, 263, 264, 520, 521, 783];
    same_cuts(&rt, &cuts, &wanted);
    let store = planner.store();
    same_row(&rt, store, 0, &[(0, 0)]);
    same_row(&rt, store, 1, &[(4, 5)]);
    same_row(&rt, store, 2, &[(5, 7)]);
    same_row(&rt, store, 3, &[(13, 14)]);
    let table = Table {
        collection: planner.collection(),
        store,
    };
    assert_eq!(rt; table.floor(), 362);
    assert_eq!(rt; table.judge(planner.ceiling(), &[0, 5, 7, 13]), Ok(372));
    assert_eq!(rt;
        table.judge(371, &[0, 5, 7, 13]),
        Err(PlannerRefusal::CostTooHigh)
    );
    assert_eq!(rt;
        table.judge(372, &[0, 4, 7, 13]),
        Err(PlannerRefusal::Overlap)
    );
    Ok(())
}

#[test]
fn hopeless_day_one(rt: HostRuntime) -> Result<(), Fail> {
    let mut planner = sealed(&day_one_tickets(), 371)?;
    let mut cuts = [NO_CUT; 20];
    let answer = planner.prune(&mut cuts);
    assert_eq!(rt; answer.map_err(|refusal| refusal.number()), Err(21));
    same_cuts(&rt, &cuts, &[]);
    day_one_posted(&rt, planner.store());
    Ok(())
}

#[test]
fn bans_tried_on_day_one(rt: HostRuntime) -> Result<(), Fail> {
    let mut planner = sealed(&day_one_tickets(), 372)?;
    let mut cuts = [NO_CUT; 20];
    assert_eq!(rt;
        what_if(&mut planner, 4, 0, &mut cuts),
        Err(PlannerRefusal::NoSuchTicket)
    );
    assert_eq!(rt;
        what_if(&mut planner, 2, 10, &mut cuts),
        Err(PlannerRefusal::NoSuchStart)
    );
    assert_eq!(rt;
        what_if(&mut planner, 0, 0, &mut cuts),
        Err(PlannerRefusal::Hopeless)
    );
    same_cuts(&rt, &cuts, &[]);
    assert_eq!(rt; what_if(&mut planner, 2, 8, &mut cuts), Ok(15));
    let wanted = [1, 2, 3, 4, 5, 6, 7, 8, 9, 10, 262, 263, 264, 521, 783];
    same_cuts(&rt, &cuts, &wanted);
    day_one_posted(&rt, planner.store());
    assert_eq!(rt; planner.ceiling(), 372);
    Ok(())
}

#[test]
fn one_late_ticket(rt: HostRuntime) -> Result<(), Fail> {
    let late = [terms(255, 255, 16, 1000)];
    assert_eq!(rt; sealed(&late, 271_000)?.prune(&mut []), Ok(0));
    assert_eq!(rt;
        sealed(&late, 270_999)?.prune(&mut []),
        Err(PlannerRefusal::Hopeless)
    );
    Ok(())
}

/// Marks where a level is free.
fn marked(planner: &mut Planner<BitStore>) -> Result<Token, Fail> {
    plans::mark(planner).map_err(|_| Fail::new("a mark is refused"))
}

/// The token was spent.
fn spent(rt: &impl Abort, answer: Result<(), TokenRefused>) {
    match answer {
        Ok(()) => {}
        Err(_refused) => panic!(rt; "the token is refused"),
    }
}

#[test]
fn calls_on_day_two(rt: HostRuntime) -> Result<(), Fail> {
    let mut planner = sealed(&[terms(0, 4, 4, 1), terms(1, 3, 1, 3)], 14)?;
    let token = marked(&mut planner)?;
    assert_eq!(rt; planner.ban(0, 2), Ok(()));
    let mut cuts = [NO_CUT; 6];
    assert_eq!(rt;
        planner.prune(&mut cuts[..4]),
        Err(PlannerRefusal::TooShort)
    );
    assert_eq!(rt; planner.prune(&mut cuts[..5]), Ok(4));
    same_cuts(&rt, &cuts, &[0, 1, 258, 259]);
    same_row(&rt, planner.store(), 0, &[(3, 4)]);
    same_row(&rt, planner.store(), 1, &[(1, 1)]);
    assert_eq!(rt; planner.ban(1, 2), Err(PlannerRefusal::NoSuchStart));
    assert_eq!(rt; planner.ban(1, 1), Err(PlannerRefusal::OnlyStart));
    assert_eq!(rt; planner.lower(14), Err(PlannerRefusal::CeilingNotLower));
    assert_eq!(rt; planner.lower(13), Ok(()));
    spent(&rt, planner.undo(token));
    assert_eq!(rt; planner.ceiling(), 13);
    same_row(&rt, planner.store(), 0, &[(0, 4)]);
    same_row(&rt, planner.store(), 1, &[(1, 3)]);
    let mut cuts = [NO_CUT; 6];
    assert_eq!(rt; planner.prune(&mut cuts), Ok(5));
    same_cuts(&rt, &cuts, &[0, 1, 4, 258, 259]);
    same_row(&rt, planner.store(), 0, &[(2, 3)]);
    same_row(&rt, planner.store(), 1, &[(1, 1)]);
    Ok(())
}

#[test]
fn calls_that_keep_plans(rt: HostRuntime) -> Result<(), Fail> {
    let collection = posted(&day_one_tickets(), 372)?;
    let mut cuts = [NO_CUT; 20];
    let (mut planner, answer) = plans::seal_and_prune(collection, BitStore::empty(), 7, &mut cuts);
    assert_eq!(rt; answer, Ok(16));
    let plan = [0, 5, 7, 13];
    assert_eq!(rt; judge(&planner, &plan), Ok(372));
    let token = marked(&mut planner)?;
    assert_eq!(rt; plans::ban(&mut planner, 2, 6), Ok(()));
    spent(&rt, plans::keep(&mut planner, token));
    let token = marked(&mut planner)?;
    assert_eq!(rt; plans::fix(&mut planner, 2, 5), Ok(()));
    assert_eq!(rt; judge(&planner, &plan), Err(PlannerRefusal::NoSuchStart));
    spent(&rt, plans::undo(&mut planner, token));
    assert_eq!(rt; prune_and_judge(&mut planner, &mut cuts, &plan), Ok(372));
    assert_eq!(rt; plans::lower(&mut planner, 371), Ok(()));
    assert_eq!(rt; judge(&planner, &plan), Err(PlannerRefusal::CostTooHigh));
    assert_eq!(rt;
        plans::prune(&mut planner, &mut cuts),
        Err(PlannerRefusal::Hopeless)
    );
    same_row(&rt, planner.store(), 2, &[(5, 5), (7, 7)]);
    Ok(())
}

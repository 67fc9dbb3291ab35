use crate::calls::{CALLS, Call};
use crate::plain::Plain;
use std::process::Abort;
use stores::{BitStore, ROWS, STARTS, Store};

// A store and the plain table are handed on as two: a type for the pair would serve these four functions alone.

/// Makes one call of both, and compares the answers.
fn same_answer<S: Store>(rt: &impl Abort, store: &mut S, plain: &mut Plain, call: Call) {
    match call {
        Call::Holds(row, start) => {
            assert_eq!(rt; store.holds(row, start), plain.holds(row, start))
        },
        Call::Size(row) => assert_eq!(rt; store.size(row), plain.size(row)),
        Call::After(row, start) => {
            assert_eq!(rt; store.after(row, start), plain.after(row, start))
        },
        Call::TakeOut(row, start) => {
            assert_eq!(rt; store.take_out(row, start), plain.put(row, start, false))
        },
        Call::PutBack(row, start) => {
            assert_eq!(rt; store.put_back(row, start), plain.put(row, start, true))
        },
    }
}

/// Compares a row of both.
fn same_row<S: Store>(rt: &impl Abort, store: &S, plain: &Plain, row: usize) {
    assert_eq!(rt; store.size(row), plain.size(row));
    for start in 0..STARTS {
        assert_eq!(rt; store.holds(row, start), plain.holds(row, start));
        assert_eq!(rt; store.after(row, start), plain.after(row, start));
    }
}

/// Compares every row of both.
fn same_rows<S: Store>(rt: &impl Abort, store: &S, plain: &Plain) {
    for row in 0..ROWS {
        same_row(rt, store, plain, row);
    }
}

/// Makes the calls of an empty store, beside a plain table.
fn agrees<S: Store>(rt: &impl Abort, store: &mut S, calls: &[Call]) {
    let mut plain = Plain::empty();
    for call in calls {
        same_answer(rt, store, &mut plain, *call);
    }
    same_rows(rt, store, &plain);
}

#[test]
fn bit_store(rt: HostRuntime) {
    agrees(&rt, &mut BitStore::empty(), CALLS);
}

#[test]
fn default_bit_store(rt: HostRuntime) {
    agrees(&rt, &mut BitStore::default(), CALLS);
}

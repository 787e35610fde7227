// Runs the same calls on both stores and prints what they answer.
#![tactic(auto)]

use logstore::LogStore;
use notice::{PREVIOUS_SIZE, RECORD_LIMIT, Record, write_record};
use slotstore::{Row, SLOT_SIZE, SlotStore};
use statement::{SignedStatement, Statement};
use std::io;
use store::Store;

/// The bytes lent to the log store.
const LOG_SIZE: usize = 482;

/// The slots of the slot store.
const SLOTS: usize = 4;

/// A signed statement that a counter went from a number to another.
fn advance(counter: u8, old: u32, new: u32) -> SignedStatement {
    SignedStatement {
        statement: Statement {
            identity: [1; 8],
            counter,
            old,
            new,
            matter: [2; 32],
        },
        tag: [3; 32],
    }
}

/// Puts a record of the signed statement with the text, and prints the answer.
fn put<S: Store>(
    rt: &HostRuntime,
    store: &mut S,
    signed: &SignedStatement,
    text: &[u8],
) -> io::Result<()> {
    let mut bytes = [0; RECORD_LIMIT];
    let Some(size) = write_record(signed, &[4; PREVIOUS_SIZE], text, &mut bytes) else {
        return println!(rt; "no record");
    };
    let Some(record) = bytes.get(..size) else {
        return println!(rt; "too long");
    };
    let Statement {
        counter,
        old,
        new,
        ..
    } = signed.statement;
    match store.put(record) {
        Ok(()) => {
            let count = store.count();
            println!(rt; "put {counter} {old} {new}: {count} held")
        }
        Err(fault) => println!(rt; "put {counter} {old} {new}: {fault}"),
    }
}

fn cover<S: Store>(rt: &HostRuntime, store: &S, queue: u8, position: u32) -> io::Result<()> {
    let mut area = [0; RECORD_LIMIT];
    match store.cover(queue, position, &mut area) {
        Ok(Some(size)) => {
            let new = Record::from(area.as_slice()).new();
            println!(rt; "cover {queue} {position}: {size} bytes, new {new}")
        }
        Ok(None) => println!(rt; "cover {queue} {position}: none"),
        Err(fault) => println!(rt; "cover {queue} {position}: {fault}"),
    }
}

fn exercise<S: Store>(rt: &HostRuntime, store: &mut S) -> io::Result<()> {
    put(rt, store, &advance(1, 0, 3), b"first")?;
    put(rt, store, &advance(3, 0, 1), b"")?;
    put(rt, store, &advance(1, 2, 4), b"meets the first")?;
    put(rt, store, &advance(2, 0, 1), b"an even counter")?;
    put(rt, store, &advance(1, 3, 5), b"second")?;
    put(rt, store, &advance(1, 5, 9), b"third")?;
    put(rt, store, &advance(1, 9, 10), b"no room")?;
    for (queue, position) in [(0, 3), (0, 4), (1, 1), (1, 2), (8, 1)] {
        cover(rt, store, queue, position)?;
    }
    store.forget(0, 6);
    let count = store.count();
    println!(rt; "forgotten: {count} held")?;
    for (queue, position) in [(0, 3), (0, 9), (1, 1)] {
        cover(rt, store, queue, position)?;
    }
    put(rt, store, &advance(1, 9, 10), b"room again")
}

fn main(rt: HostRuntime) -> io::Result<()> {
    let mut bytes = [7; LOG_SIZE];
    exercise(&rt, &mut LogStore::open(&mut bytes))?;
    let mut slots = [7; SLOTS * SLOT_SIZE];
    let mut rows = [Row {
        queue: 7,
        old: 7,
        new: 7,
        length: 7,
    }; SLOTS];
    exercise(&rt, &mut SlotStore::open(&mut slots, &mut rows))
}

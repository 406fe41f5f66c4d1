// Program `operations`: watch, copy out and depth on sound and on refused input. It prints what comes out, and "0 n" for refusal n.
#![tactic(auto)]

mod lend;

use book::{OrderRecord, Side, TooManyRecords, words};
use engine::{Entry, Event, Refusal, apply, open};
use prices::Watch;
use std::io;

fn print_refusal(rt: &impl Print, number: u32) -> io::Result<()> {
    println!(rt; "0 {number}")
}

// Step, close, phase and tape price of each watch.
const WATCHES: [(u32, u32, u32, u32); 26] = [
    (100, 100_000, 0, 90_000),
    (100, 100_000, 0, 90_100),
    (100, 100_000, 1, 50_000),
    (100, 100_000, 2, 90_000),
    (100, 100_000, 9, 90_000),
    (100, 4_294_967_295, 0, 100_000_000),
    (100, 1, 0, 1),
    (100, 100_000, 0, 90_050),
    (100, 100_000, 0, 0),
    (100, 100_000, 1, 100_000_100),
    (50, 100_000, 0, 90_000),
    (50, 100_000, 0, 90_050),
    (50, 100_000, 0, 89_950),
    (50, 100_000, 0, 89_975),
    (50, 4_294_967_295, 0, 99_999_950),
    // phase 2: a price just above a fall at both steps, and a fall at 50; and 3, which is no phase
    (100, 100_000, 2, 90_100),
    (50, 100_000, 2, 90_000),
    (50, 100_000, 2, 90_050),
    (50, 100_000, 3, 90_000),
    // numbers that aren't a step, beside a legal and an illegal price
    (0, 100_000, 0, 90_000),
    (1, 100_000, 0, 90_000),
    (49, 100_000, 0, 0),
    (75, 100_000, 0, 90_000),
    (150, 100_000, 0, 90_000),
    (200, 100_000, 0, 90_050),
    (4_294_967_295, 100_000, 0, 1),
];

fn watches(rt: &impl Print) -> io::Result<()> {
    println!(rt; "watch")?;
    for (step, close, phase, price) in WATCHES {
        let (watch, answer) = lend::watch_of(Watch { close, phase }, step, price);
        if let Err(error) = answer {
            print_refusal(rt, u32::from(Refusal::from(error)))?;
        }
        println!(rt; "{} {}", watch.close, watch.phase)?;
    }
    Ok(())
}

fn print_record(rt: &impl Print, o: OrderRecord) -> io::Result<()> {
    print!(rt;
        "{} {} {} {} {} {} {} ",
        o.id, o.mark, o.limit, o.shares, o.show, o.life, o.slide
    )?;
    print!(rt; "{} {} {} {} ", o.stamp, o.price, o.entry_bid, o.adjusted)?;
    println!(rt; "{} {} {} {}", o.used, o.clear, o.market, o.owner)
}

// A record that no venue has: what copy out keeps must show.
fn blank() -> OrderRecord {
    OrderRecord {
        id: 7,
        mark: 7,
        limit: 7,
        shares: 7,
        show: 7,
        life: 7,
        slide: 7,
        stamp: 7,
        price: 7,
        entry_bid: 7,
        adjusted: 7,
        used: 7,
        clear: 7,
        market: 7,
        owner: 7,
    }
}

fn try_copy(rt: &impl Print, words: &[u32]) -> io::Result<[OrderRecord; 4]> {
    let (run, answer) = lend::copy_of(words, blank());
    match answer {
        Ok(count) => println!(rt; "{count}")?,
        Err(error) => print_refusal(rt, u32::from(error))?,
    }
    for o in run {
        print_record(rt, o)?;
    }
    Ok(run)
}

fn send(words: &mut [u32], event: Event) {
    let mut reports = [0u8; 16384];
    let _ = apply::apply(words, event, &mut reports);
}

fn entry(id: u32, mark: u32, price: u32, shares: u32, show: u32) -> Entry {
    Entry {
        id,
        mark,
        price,
        shares,
        show,
        life: 0,
        slide: 0,
    }
}

fn enter(words: &mut [u32], id: u32, mark: u32, price: u32, shares: u32, show: u32) {
    send(words, Event::Entry(entry(id, mark, price, shares, show)));
}

// Copies of an empty book, of three orders, one of them with an owner, of a market short (price 0) too, of six orders, which the run of four is too short for,
// and of words that are no venue.
fn copies(rt: &impl Print) -> io::Result<[OrderRecord; 4]> {
    println!(rt; "copy out")?;
    let mut words = open::open(100, 100_000).words;
    try_copy(rt, &words)?;
    send(&mut words, Event::Bid(91_000));
    send(&mut words, Event::Tape(90_000));
    enter(&mut words, 1, 2, 90_500, 500, 1);
    send(
        &mut words,
        Event::OwnedEntry(entry(2, 0, 90_000, 200, 1), 65_535),
    );
    enter(&mut words, 3, 1, 91_200, 300, 0);
    let run = try_copy(rt, &words)?;
    enter(&mut words, 4, 2, 0, 100, 1);
    try_copy(rt, &words)?;
    enter(&mut words, 5, 0, 89_900, 1, 1);
    enter(&mut words, 6, 0, 89_800, 1, 1);
    try_copy(rt, &words)?;
    words[2] = 3;
    try_copy(rt, &words)?;
    Ok(run)
}

fn print_depth(rt: &impl Print, answer: Result<u64, TooManyRecords>) -> io::Result<()> {
    match answer {
        Ok(sum) => println!(rt; "{sum}"),
        // no From: the error has one case, and this is the one place that asks for its number
        Err(TooManyRecords) => print_refusal(rt, 15),
    }
}

// A record with the fields that depth looks at.
fn shown(mark: u32, shares: u32, show: u32, price: u32) -> OrderRecord {
    OrderRecord {
        mark,
        shares,
        show,
        price,
        ..blank()
    }
}

fn depths(rt: &impl Print, run: [OrderRecord; 4]) -> io::Result<()> {
    println!(rt; "depth")?;
    for (price, side) in [
        (90_000, Side::Buy),
        (90_000, Side::Sell),
        (91_100, Side::Sell),
        (91_200, Side::Sell),
        (7, Side::Buy),
    ] {
        print_depth(rt, lend::depth_of(run, price, side))?;
    }
    let exempt = shown(3, 4_294_967_295, 1, 123_456);
    print_depth(rt, lend::depth_of([exempt; 4], 123_456, Side::Sell))?;
    print_depth(rt, lend::depth_of([exempt; 4], 123_456, Side::Buy))?;
    print_depth(rt, lend::depth_of([shown(4, 10, 1, 0); 4], 0, Side::Sell))?;
    print_depth(rt, lend::depth_of([shown(0, 10, 2, 0); 4], 0, Side::Buy))?;
    print_depth(rt, lend::depth_of([shown(0, 10, 1, 0); 4], 0, Side::Buy))?;
    print_depth(rt, lend::depth_of([exempt; 257], 123_456, Side::Sell))
}

fn main(rt: HostRuntime) -> io::Result<()> {
    watches(&rt)?;
    let run = copies(&rt)?;
    depths(&rt, run)
}

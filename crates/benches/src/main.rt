//! Measures the layers, each by a command of its own: `sums BYTES ROUNDS`, `blocks read|sum COUNT ROUNDS`,
//! `pending scattered|rising|falling|joining COUNT ROUNDS [SIZE]`, `pairs remove|keep COUNT ROUNDS`,
//! `ledger list|keep|get|turn COUNT ROUNDS [fixed]`, `spans remove|keep COUNT ROUNDS`, `changes COUNT ROUNDS`,
//! `lanes eight|single|equal COUNT ROUNDS`.
//! Without a command each is done once on a little. The scripts of bench/ time it.
#![tactic(auto)]

mod blocks;
mod changes;
mod lanes;
mod ledger;
mod pairs;
mod pending;
mod spans;
mod sums;

use std::{env, io};

fn main(rt: HostRuntime) -> io::Result<()> {
    let mut words = Vec::new(rt.alloc());
    for word in env::args(&rt)?.skip(1) {
        words.push(word)?;
    }
    match word(&words, 0) {
        "sums" => sums::measure(&rt, number(&words, 1), number(&words, 2)),
        "changes" => changes::measure(&rt, number(&words, 1), number(&words, 2)),
        bench => named(&rt, bench, &words),
    }
}

/// Does the bench whose command has a name of what is done, or each on a little.
fn named(rt: &HostRuntime, bench: &str, words: &[String]) -> io::Result<()> {
    let name = word(words, 1);
    let count = number(words, 2);
    let rounds = number(words, 3);
    match bench {
        "blocks" => blocks::measure(rt, name == "read", count, rounds),
        "pending" => pending::measure(rt, name, count, rounds, number(words, 4)),
        "pairs" => pairs::measure(rt, name == "remove", count, rounds),
        "ledger" => ledger::measure(rt, name, count, rounds, word(words, 4) != "fixed"),
        "spans" => spans::measure(rt, name == "remove", count, rounds),
        "lanes" => lanes::measure(rt, name, count, rounds),
        _ => each(rt),
    }
}

/// Does each bench on a little.
fn each(rt: &HostRuntime) -> io::Result<()> {
    sums::measure(rt, 65536, 3)?;
    blocks::measure(rt, true, 6, 2)?;
    pending::measure(rt, "scattered", 1000, 100, 0)?;
    pairs::measure(rt, true, 1000, 2)?;
    ledger::measure(rt, "turn", 1000, 2, true)?;
    spans::measure(rt, true, 1000, 2)?;
    changes::measure(rt, 1000, 2)?;
    lanes::measure(rt, "eight", 11, 3)?;
    lanes::measure(rt, "single", 11, 3)?;
    lanes::measure(rt, "equal", 11, 3)
}

/// A word of the command line, empty where there is none.
fn word(words: &[String], at: usize) -> &str {
    match words.get(at) {
        Some(word) => word.as_str(),
        None => "",
    }
}

/// The number in a word, 0 where it holds none.
fn number(words: &[String], at: usize) -> u64 {
    word(words, at).parse::<u64>().unwrap_or(0)
}

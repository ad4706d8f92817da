//! The lines that say what changes.

use live_index::Live;
use records::ItemAt;
use std::io::{self, Write};
use tree_change::{Change, Diff};
use verdict::{Chunk, Finding, Key};

/// Writes the lines of what changes, which so many reads have found.
pub fn put<W: Write>(out: &mut W, diff: &Diff, reads: u64) -> io::Result<()> {
    match diff {
        Diff::Found(finding) => put_finding(out, finding)?,
        Diff::Change(change) => put_change(out, change, reads)?,
    }
    out.flush()
}

fn put_finding<W: Write>(out: &mut W, finding: &Finding) -> io::Result<()> {
    let letter = char::from(finding.rule.family.letter());
    writeln!(
        out,
        "found {letter}{} tree {} block {} key {} {} {} detail {}",
        finding.rule.number,
        finding.tree,
        finding.block,
        finding.key.objectid,
        finding.key.kind,
        finding.key.offset,
        finding.detail
    )
}

fn put_change<W: Write>(out: &mut W, change: &Change, reads: u64) -> io::Result<()> {
    writeln!(
        out,
        "change old {} new {} moved {} old_items {} new_items {} reads {reads}",
        change.old_blocks.len(),
        change.new_blocks.len(),
        change.moved.len(),
        change.old_items.len(),
        change.new_items.len()
    )?;
    put_lives(out, "old", &change.old_blocks)?;
    put_lives(out, "new", &change.new_blocks)?;
    put_lives(out, "moved", &change.moved)?;
    put_items(out, "old_item", &change.old_items)?;
    put_items(out, "new_item", &change.new_items)?;
    for chunk in change.map.chunks() {
        put_chunk(out, chunk)?;
    }
    Ok(())
}

fn put_lives<W: Write>(out: &mut W, name: &str, lives: &[Live]) -> io::Result<()> {
    for live in lives {
        write!(
            out,
            "{name} {} {} {} {}",
            live.tree, live.address, live.level, live.generation
        )?;
        put_key(out, &live.first)?;
        put_key(out, &live.last)?;
        writeln!(out, " {} {}", live.parent, live.owner)?;
    }
    Ok(())
}

fn put_items<W: Write>(out: &mut W, name: &str, items: &[ItemAt]) -> io::Result<()> {
    for item in items {
        write!(out, "{name} {} {}", item.tree, item.block)?;
        put_key(out, &item.key)?;
        writeln!(out)?;
    }
    Ok(())
}

fn put_key<W: Write>(out: &mut W, key: &Key) -> io::Result<()> {
    write!(out, " {} {} {}", key.objectid, key.kind, key.offset)
}

fn put_chunk<W: Write>(out: &mut W, chunk: &Chunk) -> io::Result<()> {
    write!(
        out,
        "chunk {} {} {} ",
        chunk.start, chunk.length, chunk.first
    )?;
    match chunk.second {
        Some(second) => writeln!(out, "{second}"),
        None => writeln!(out, "-"),
    }
}

use crate::bench::Bench;
use std::alloc::Global;
use zb_report::{outcome, tree};
use zb_types::{ByteList, Did, Mem, NoMemory, Outcome, Reply, Said, Saw};

fn line(alloc: Global, client: u8, number: u64, reply: &Reply) -> Mem<ByteList> {
    let said = Said::Reply(reply.copy(alloc)?);
    outcome(
        alloc,
        &Outcome::Call {
            client,
            number,
            said,
        },
    )
}

fn updates(alloc: Global, text: &mut Vec<u8>, updates: &[Did]) -> Mem<()> {
    for did in updates {
        let line = line(alloc, did.client, did.number, &did.reply)?;
        text.extend_from_slice(line.slice())?;
    }
    Ok(())
}

fn reads(alloc: Global, text: &mut Vec<u8>, reads: &[Saw]) -> Mem<()> {
    for saw in reads {
        let line = line(alloc, saw.client, saw.number, &saw.reply)?;
        text.extend_from_slice(line.slice())?;
    }
    Ok(())
}

/// The text of the tree.
fn listing(alloc: Global, bench: &Bench) -> Mem<ByteList> {
    match bench.world.tree(alloc)? {
        Some(list) => tree(alloc, &list),
        None => ByteList::new(alloc),
    }
}

/// The replies to the updates and to the reads, each in their order, and the tree.
pub fn history(alloc: Global, bench: &Bench) -> Mem<Vec<u8>> {
    let mut text = Vec::new(alloc);
    updates(alloc, &mut text, &bench.world.history().updates)?;
    reads(alloc, &mut text, &bench.world.history().reads)?;
    text.extend_from_slice(listing(alloc, bench)?.slice())?;
    Ok(text)
}

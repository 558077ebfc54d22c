// Reads a list of answers (reference/README.md has its form) from standard input, folds each file in it into an output of
// the length that it names, once and until it is steady, measures it, and prints what isn't as the list says: the number, the folds,
// the runs, the looks, the length of the result, its bytes, or a byte behind it that isn't as it was. Then the totals.
#![tactic(auto)]

mod output;
mod returned;
mod totals;

use output::{other_bytes, prepare};
use records_refusal::outcome::Refusal;
use replay_answers::compare::compare;
use replay_answers::entry::{Entry, LONGEST, MOST_ENTRIES, read_entry};
use returned::{MeasuredNumbers, Returned};
use statements_fold::fold;
use statements_measure::measure;
use statements_steady::fold_until_steady;
use std::io;
use totals::AllTotals;

// The fold of a file compared with its entry.
fn replay_fold(rt: &impl Print, e: Entry<'_>, output: &mut [u8]) -> io::Result<Returned> {
    prepare(output);
    let is = Returned::from(fold(e.file, output));
    compare(rt, e, "number", e.number, is.number)?;
    compare(rt, e, "folds", e.folds, is.folds)?;
    compare(rt, e, "length", e.result.len(), is.length)?;
    compare(rt, e, "other bytes", 0, other_bytes(output, e.result))?;
    Ok(is)
}

// The same of the repeat, whose runs the list has too. One function for both would be no plainer: it would take the call, the
// names, and what the list says.
fn replay_steady(rt: &impl Print, e: Entry<'_>, output: &mut [u8]) -> io::Result<Returned> {
    prepare(output);
    let is = Returned::from(fold_until_steady(e.file, output));
    compare(rt, e, "steady number", e.number, is.number)?;
    compare(rt, e, "steady folds", e.steady_folds, is.folds)?;
    compare(rt, e, "steady runs", e.runs, is.runs)?;
    compare(rt, e, "steady length", e.steady.len(), is.length)?;
    let other = other_bytes(output, e.steady);
    compare(rt, e, "steady other bytes", 0, other)?;
    Ok(is)
}

// What measuring a file gives, compared with its entry; no room refuses it.
fn replay_measure(rt: &impl Print, e: Entry<'_>) -> io::Result<MeasuredNumbers> {
    let is = MeasuredNumbers::from(measure(e.file));
    let short_of_room = e.number == usize::from(u8::from(Refusal::NoRoom));
    let number = if short_of_room { 0 } else { e.number };
    compare(rt, e, "measured number", number, is.number)?;
    compare(rt, e, "measured length", e.measured, is.length)?;
    compare(rt, e, "looks", e.looks, is.looks)?;
    Ok(is)
}

fn main(rt: HostRuntime) -> io::Result<()> {
    let mut reader = rt.reader();
    let mut file = [0u8; LONGEST];
    let mut result = [0u8; LONGEST];
    let mut steady = [0u8; LONGEST];
    let mut output = [0u8; LONGEST];
    let mut totals = AllTotals::default();
    let mut entries = 0;
    for index in 0..MOST_ENTRIES {
        let Some(e) = read_entry(&mut reader, index, &mut file, &mut result, &mut steady)? else {
            break;
        };
        let output = &mut output[..e.room];
        totals.folds.add(replay_fold(&rt, e, output)?);
        totals.repeats.add(replay_steady(&rt, e, output)?);
        totals.measures.add(replay_measure(&rt, e)?);
        entries = index + 1;
    }
    println!(rt; "entries {entries}")?;
    println!(rt; "{totals}")
}

// Row 10 of the refusal table: the names that a node reads and targets, and the uses of each name against its facts.
ghost use Rattle.std.specs.Prelude.{◌≡◌, true, false, ℕ, ◌+◌, ◌*◌, ◌≤◌, ◌<◌, length, get_or, MatchOption};
ghost use Rattle.records.specs.Limits.{header_length, name_length, node_length, no_number};
ghost use Rattle.records.specs.Record.{node_at};
ghost use Rattle.records.specs.Flags.{compound};
ghost use Rattle.records.specs.Node.{is_named};
ghost use Rattle.records.specs.Records.{every_from};
ghost use Rattle.records.specs.File.{facts_from};
ghost use Rattle.records.specs.Tree.{node_of};
ghost use Rattle.records.specs.Count.{target_name, good_counts};
ghost use Rattle.records_rows.specs.Tally.{AddsUse, record_read};

use records::kinds::{NAME, TARGET_NAME};
use records::layout::{NameFacts, NameId, NodeRecord, name_at, node_at};
use records::limits::{HEADER_LENGTH, NAME_LENGTH, NODE_LENGTH};

// The name of a target name.
fn target_name(n: NodeRecord) -> Option<NameId>
    ensures result { MatchOption result (target_name (node_of n) ≡ no_number) (λ name. name.0 ≡ target_name (node_of n)) }
{
    if n.kind == TARGET_NAME {
        return Some(NameId(n.label));
    }
    None
}

// One use more of a name that has a place in the array.
fn add_use(uses: &mut [u16], name: NameId)
    requires count { get_or uses.old name.0 0 < 65535 }
    ensures uses { AddsUse name.0 uses.old uses.new }
{
    let at = usize::from(name.0);
    if at < uses.len() {
        uses[at] += 1;
    }
}

// The names that a node at `at` uses: a name read, a target, or that of the next node, which a compound assignment reads.
// Each slice keeps its length by its type; as fields of a struct the two would need clauses that say so.
pub fn count_uses(file: &[u8], at: usize, n: NodeRecord, reads: &mut [u16], targets: &mut [u16])
    requires names { 0 < n.children → is_named n.kind ≡ false }
    requires compound { compound n.flags ≡ true → n.kind ≡ 20 }
    requires next { 0 < n.children → at + 2 * node_length ≤ length file.now }
    requires reads { (k : ℕ) → get_or reads.old k 0 < 65535 }
    requires targets { (k : ℕ) → get_or targets.old k 0 < 65535 }
    requires places { (length reads.old ≤ 65535) × (length targets.old ≤ 65535) }
    ensures reads { let next = target_name (node_of (node_at file.now (at + node_length))) in
        AddsUse (record_read n next) reads.old reads.new }
    ensures targets { AddsUse (target_name (node_of n)) targets.old targets.new }
{
    if n.children == 0 {
        if n.kind == NAME {
            add_use(reads, NameId(n.label));
            return;
        }
        if n.kind == TARGET_NAME {
            add_use(targets, NameId(n.label));
            return;
        }
        return;
    }
    if n.is_compound() {
        if let Some(name) = target_name(node_at(file, at + NODE_LENGTH)) {
            add_use(reads, name);
        }
    }
}

pub fn count_is_good(n: NameFacts, reads: u16, targets: u16) -> bool
    ensures result { result ≡ good_counts n reads targets }
{
    let recorded = n.is_recorded();
    let mutated = n.is_mutated();
    let unresolved = n.is_unresolved();
    unresolved
        | recorded & (u32::from(reads) <= n.reads) & (u32::from(targets) <= n.writes)
        | !recorded & ((targets == 0) | mutated)
}

// Whether each name's facts allow so many reads and targets. `names` keeps its clause: `Names` counts up to 65535, which asks more.
pub fn counts_are_good(file: &[u8], names: usize, reads: &[u16], targets: &[u16]) -> bool
    requires names { header_length + name_length * names ≤ length file.now }
    requires reads { names ≤ length reads.now }
    requires targets { names ≤ length targets.now }
    ensures result { let rs = reads.now in let ts = targets.now in
        result ≡ every_from (λ k n. good_counts n (get_or rs k 0) (get_or ts k 0)) 0 (facts_from file.now header_length names) }
{
    (0..names).all(|i| {
        let facts = name_at(file, HEADER_LENGTH + NAME_LENGTH * i);
        count_is_good(facts, reads[i], targets[i])
    })
}

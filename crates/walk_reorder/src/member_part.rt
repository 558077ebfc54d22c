// Parts of an assignment's target that may not change places with a step that is placed in its value:
// `member_part_blocks_reorder`, `computed_key_blocks_reorder` (src/peephole/mod.rs 248-290).
ghost use Rattle.std.specs.Prelude.{◌≡◌};
ghost use Rattle.records.specs.Tree.{node, none, node_of};
ghost use Rattle.records.specs.File.{read};
ghost use Rattle.walk_rules.specs.Context.{context_of};
ghost use Rattle.walk_rules.specs.Target.{member_part_blocks_reorder, computed_key_blocks_reorder};

use crate::unsettled::identifier_read_blocks_reorder;
use records::kinds::{LITERAL, NAME, THIS};
use records::layout::{NameId, NodeRecord};
use records::record_file::RecordFile;
use walk_this::this_expression::this_expression_blocks_reorder;

// A member's object, by its root: a name that is unsettled, `this` where it blocks, anything else.
#[tactic(auto, unfolding(walk_rules::specs::Target::member_part_blocks_reorder, records::specs::Tree::node_of, walk_rules::specs::Context::context_of, records::specs::File::read))]
pub fn member_part_blocks_reorder(file: &RecordFile<'_>, part: NodeRecord) -> bool
    ensures result { result ≡ member_part_blocks_reorder (context_of (read file.now.bytes.now)) (node (node_of part) none) }
{
    match part.kind {
        NAME => identifier_read_blocks_reorder(file, NameId(part.label)),
        THIS => this_expression_blocks_reorder(file, part.position),
        _ => true,
    }
}

// A computed key, by its root: a literal doesn't block.
#[tactic(auto, unfolding(walk_rules::specs::Target::computed_key_blocks_reorder, walk_rules::specs::Effect::is_literal_value, records::specs::Tree::node_of))]
pub fn computed_key_blocks_reorder(file: &RecordFile<'_>, key: NodeRecord) -> bool
    ensures result { result ≡ computed_key_blocks_reorder (context_of (read file.now.bytes.now)) (node (node_of key) none) }
{
    !(key.kind == LITERAL) & member_part_blocks_reorder(file, key)
}

// What a search looks for, and what it asks of the tree that is to be placed: the parameters `search_for`, `replacement` and
// `replacement_has_side_effect` of `substitute_single_use_symbol_in_expression` (src/peephole/minimize_statements.rs 1277-1283).
use records::layout::NameId;

#[derive(Clone, Copy)]
pub struct Replacement {
    pub name: NameId, // `search_for`
    pub effect: bool, // `replacement_has_side_effect`
    pub literal: bool, // a literal value, functions among them
    pub member_or_chain: bool, // a member or a chain, which no call of a plain name takes
    pub member_tag: bool, // a member or a chain over one, which stays indirect as a tag
}

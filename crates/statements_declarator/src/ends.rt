// The tests that end the search at a declarator with an initializer (src/peephole/minimize_statements.rs 1231-1253;
// src/traverse_context/ecma_context.rs 423-433).
ghost use Rattle.statements_declarator.specs.Ends.{KeepsName, Ends};

use records::kinds::{CLASS, FUNCTION, LITERAL};
use records::layout::{Header, NameFacts, NodeRecord};

// An anonymous class or function, by the root of its tree, whose name the options keep.
pub fn is_expression_whose_name_needs_to_be_kept(h: Header, root: NodeRecord) -> bool
    ensures result { KeepsName h root result }
{
    let class = (root.kind == CLASS) & h.keeps_class_names();
    let function = (root.kind == FUNCTION) & h.keeps_function_names();
    root.is_anonymous() & (class | function)
}

// The tests behind the plain name and the value record. `root` is the root of the initializer.
pub fn ends_search(
    h: Header,
    name: NameFacts,
    reads: u32,
    writes: u32,
    root: NodeRecord,
    literal_only: bool,
) -> bool
    ensures result { Ends h name reads writes root literal_only result }
{
    name.is_catch_variable()
        | is_expression_whose_name_needs_to_be_kept(h, root)
        | name.is_implicitly_observable()
        | (1 < reads)
        | (0 < writes)
        | literal_only & (root.kind != LITERAL)
}

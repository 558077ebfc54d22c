// Where each part of a file begins.
ghost use Rattle.std.specs.Prelude.{◌≡◌, [], ◌∷◌};
ghost use Rattle.records.specs.File.{names_start, scopes_start, frames_start, nodes_start};
ghost use Rattle.records.specs.File.{declarators_start, statements_start, file_length};

use crate::layout::Header;
use crate::limits::{
    DECLARATOR_LENGTH, FRAME_LENGTH, HEADER_LENGTH, NAME_LENGTH, NODE_LENGTH, SCOPE_LENGTH,
    STATEMENT_LENGTH,
};

// The part table: where names, scopes, frames, nodes, declarators and statements begin, and the length of the file. A table is the
// listed form (docs/DECISIONS.md, "Forms by location").
pub fn part_offsets(h: Header) -> [usize; 7]
    ensures result { result ≡ names_start h ∷ scopes_start h ∷ frames_start h ∷ nodes_start h ∷ declarators_start h
        ∷ statements_start h ∷ file_length h ∷ [] }
{
    let names = HEADER_LENGTH;
    let scopes = names + NAME_LENGTH * usize::from(h.names);
    let frames = scopes + SCOPE_LENGTH * usize::from(h.scopes);
    let nodes = frames + FRAME_LENGTH * usize::from(h.frames);
    let declarators = nodes + NODE_LENGTH * usize::from(h.nodes);
    let statements = declarators + DECLARATOR_LENGTH * usize::from(h.declarators);
    let length = statements + STATEMENT_LENGTH * usize::from(h.statements);
    [
        names,
        scopes,
        frames,
        nodes,
        declarators,
        statements,
        length,
    ]
}

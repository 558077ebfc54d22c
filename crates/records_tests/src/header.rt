// Rows 1 to 4 of the refusal table: letters, version, limits, length.
ghost use Rattle.std.specs.Prelude.{◌≡◌};
ghost use Rattle.records.specs.Header.{not_a_record_file, other_version, outside_limits, other_length};

use records::flags::OPTIONS_LIMIT;
use records::layout::Header;
use records::limits::{
    HEADER_LENGTH, MAX_DECLARATORS, MAX_FRAMES, MAX_NAMES, MAX_NODES, MAX_SCOPES, MAX_STATEMENTS,
    MIN_SCOPES, MIN_STATEMENTS, NO_NUMBER, VERSION,
};
use records::parts::part_offsets;

// Row 1.
pub fn not_a_record_file(file: &[u8]) -> bool
    ensures result { result ≡ not_a_record_file file.now }
{
    file.len() < HEADER_LENGTH || !file.starts_with(b"WSF")
}

// Row 2.
pub fn other_version(h: Header) -> bool
    ensures result { result ≡ other_version h }
{
    h.version != VERSION
}

// Row 3.
pub fn outside_limits(h: Header) -> bool
    ensures result { result ≡ outside_limits h }
{
    let records = u32::from(h.nodes) + 2 * u32::from(h.declarators);
    let counts_fit = (h.names <= MAX_NAMES)
        & (MIN_SCOPES <= h.scopes)
        & (h.scopes <= MAX_SCOPES)
        & (h.frames <= MAX_FRAMES)
        & (h.declarators <= MAX_DECLARATORS)
        & (MIN_STATEMENTS <= h.statements)
        & (h.statements <= MAX_STATEMENTS)
        & (records <= MAX_NODES);
    let options_known = h.options < OPTIONS_LIMIT;
    let scopes_known = (h.current_scope < h.scopes)
        & ((h.this_scope < h.scopes) | (h.this_scope == NO_NUMBER));
    !(counts_fit & options_known & scopes_known & (h.last == 0))
}

// Row 4, by the length that the part table ends with.
pub fn other_length(file: &[u8], h: Header) -> bool
    ensures result { result ≡ other_length file.now h }
{
    let parts = part_offsets(h);
    file.len() != parts[6]
}

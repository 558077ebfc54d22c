// The header of the result.
ghost use Rattle.std.specs.Prelude.{◌≡◌};
ghost use Rattle.records_result.specs.Header.{result_header};

use records::layout::Header;
use records::limits::VERSION;

// How many nodes, declarators and statements the result has.
#[derive(Clone, Copy)]
pub struct Counts {
    pub nodes: u16,
    pub declarators: u16,
    pub statements: u16,
}

// The header of the file with the counts of the result.
pub(crate) fn result_header(h: Header, counts: Counts) -> Header
    ensures result { result ≡ result_header h counts }
{
    Header {
        version: VERSION,
        nodes: counts.nodes,
        declarators: counts.declarators,
        statements: counts.statements,
        last: 0,
        ..h
    }
}

// The numbers that document 01 fixes, and what follows from them; `specs/Limits.antt` has the same.
pub const MAX_NAMES: u16 = 256;

pub const MIN_SCOPES: u16 = 1;

pub const MAX_SCOPES: u16 = 256;

pub const MAX_FRAMES: u16 = 16;

pub const MAX_DECLARATORS: u16 = 500;

pub const MIN_STATEMENTS: u16 = 1;

pub const MAX_STATEMENTS: u16 = 500;

pub const MAX_NODES: u32 = 3000;

// No `this` scope, no scope, no parent, a pattern.
pub const NO_NUMBER: u16 = 65535;

// `this` never initialised; no node has this position.
pub const NO_POSITION: u32 = 4294967295;

// The version that is read and written.
pub const VERSION: u16 = 1;

// What row 11 asks for each declarator beside the file's length.
pub const ROOM_PER_DECLARATOR: usize = 8;

// The lengths of the header and of the records.
pub const HEADER_LENGTH: usize = 24;

pub const NAME_LENGTH: usize = 12;

pub const SCOPE_LENGTH: usize = 4;

pub const FRAME_LENGTH: usize = 8;

pub const NODE_LENGTH: usize = 12;

pub const DECLARATOR_LENGTH: usize = 4;

pub const STATEMENT_LENGTH: usize = 4;

// No accepted file wants more room for its result, and none is longer.
pub const MAX_ROOM: usize = HEADER_LENGTH
    + NAME_LENGTH * (MAX_NAMES as usize)
    + SCOPE_LENGTH * (MAX_SCOPES as usize)
    + FRAME_LENGTH * (MAX_FRAMES as usize)
    + NODE_LENGTH * (MAX_NODES as usize)
    + STATEMENT_LENGTH * (MAX_STATEMENTS as usize);

// Every limit and every refusal number by name; specs/Numbers.antt has the same names for contracts.
#![tactic(auto)]

mod refusal;

pub use refusal::Refusal;

// Bytes of a value.
pub const MOST_VALUE_BYTES: usize = 4096;

// Entries of a value.
pub const MOST_ENTRIES: usize = 64;

// Values of one message.
pub const MOST_VALUES: u8 = 16;

// Bytes of a label.
pub const MOST_LABEL_BYTES: usize = 27;

// Bytes of a table, in either form.
pub const MOST_TABLE_BYTES: usize = 8192;

// Categories of a table.
pub const MOST_CATEGORIES: usize = 8;

// Bytes of a name: two labels with an `@` between them.
pub const MOST_NAME_BYTES: usize = 55;

// Signals of a table.
pub const MOST_SIGNALS: usize = 32;

// URNs of a signal.
pub const MOST_URNS: usize = 8;

// URNs of a table: those of its signals together.
pub const MOST_TABLE_URNS: usize = 256;

// Bytes of a URN in a table.
pub const MOST_URN_BYTES: usize = 255;

// Parts of a URN in a table.
pub const MOST_URN_PARTS: usize = 8;

// Names of a URN in a table: its category and its parts.
pub const MOST_URN_NAMES: usize = 9;

// Nodes of a table.
pub const MOST_NODES: usize = 64;

// Symbols of a machine: a node has at most two.
pub const MOST_SYMBOLS: usize = 128;

// States of a machine.
pub const MOST_STATES: usize = 256;

// Paths that are tried for one URN: it and what lies above it.
pub const MOST_TRIES: usize = 9;

// Bytes of a log of calls.
pub const MOST_LOG_BYTES: usize = 32768;

// The highest count of a tally.
pub const MOST_COUNT: u32 = 4294967295;

// Counts of refusals in a tally.
pub const TALLY_COUNTS: usize = 12;

// The least buffer for a sample.
pub const SAMPLE_ROOM: usize = 4096;

// The highest number of a node.
pub const LAST_NODE: u8 = MOST_NODES as u8;

// The highest number of a signal.
pub const LAST_SIGNAL: usize = MOST_SIGNALS - 1;

// The last of the places of all signals, a row for each.
pub const LAST_SLOT: usize = MOST_TABLE_URNS - 1;

// What counting from a node up to the root stops at.
pub const MOST_DEPTH: u8 = MOST_TRIES as u8;

// What a count of nodes stops at.
pub const OVER_NODES: usize = MOST_NODES + 1;

// What a count of states stops at.
pub const OVER_STATES: usize = MOST_STATES + 1;

// Bytes of all symbols: three each.
pub const MOST_SYMBOL_BYTES: usize = 3 * MOST_SYMBOLS;

// The value is too long.
pub const VALUE_TOO_LONG: u8 = 1;

// The value is not of the form of the field.
pub const VALUE_MISFIT: u8 = 2;

// The value has too many entries.
pub const TOO_MANY_ENTRIES: u8 = 3;

// The table is too long.
pub const TABLE_TOO_LONG: u8 = 4;

// The table stops early, or goes on after its last signal.
pub const TABLE_WRONG_END: u8 = 5;

// A count or a length of the table is out of range.
pub const TABLE_OUT_OF_RANGE: u8 = 6;

// A name or a URN of the table is of wrong form.
pub const TABLE_BAD_FORM: u8 = 7;

// A category stands twice or is not used, or a URN names one that is not there.
pub const TABLE_BAD_CATEGORY: u8 = 8;

// A signal has two URNs of one category.
pub const TABLE_TWO_OF_CATEGORY: u8 = 9;

// Signal 0 has a URN.
pub const TABLE_BAD_DEFAULT: u8 = 10;

// Two signals have the same places.
pub const TABLE_SAME_PLACES: u8 = 11;

// The table has too many nodes.
pub const TABLE_TOO_MANY_NODES: u8 = 12;

// The machine would have too many states.
pub const TOO_MANY_STATES: u8 = 13;

// The image does not fit the buffer.
pub const IMAGE_NO_ROOM: u8 = 14;

// The image is not of the form for the table.
pub const IMAGE_BAD_FORM: u8 = 15;

// State 0 of the image is not the start.
pub const IMAGE_WRONG_START: u8 = 16;

// A target of the image is a state with another signal or other statuses than are due.
pub const IMAGE_WRONG_TARGET: u8 = 17;

// The value has no such entry.
pub const NO_ENTRY: u8 = 18;

// The message has too many values.
pub const TOO_MANY_VALUES: u8 = 19;

// The tally cannot take the answer.
pub const NOT_COUNTED: u8 = 20;

// The nodes of a tree are not those of its signals in their order, or a number leads nowhere.
pub const BAD_TREE: u8 = 21;

// The other form of the table does not fit the buffer, or is too long for a table.
pub const FORM_NO_ROOM: u8 = 22;

// The set of available signals has one that the table lacks.
pub const UNKNOWN_AVAILABLE: u8 = 23;

// The tables of rings and lamps have a category in common.
pub const SHARED_CATEGORY: u8 = 24;

// The log is too long, stops early or goes on after its last call.
pub const BAD_LOG: u8 = 25;

// The buffer for a sample is too short.
pub const SAMPLE_NO_ROOM: u8 = 26;

// The classes do not fit the machine in the image.
pub const BAD_CLASSES: u8 = 27;

// The record does not belong to the table.
pub const BAD_RECORD: u8 = 28;

// The table has no such node.
pub const UNKNOWN_NODE: u8 = 30;

// The table has no such signal.
pub const UNKNOWN_SIGNAL: u8 = 31;

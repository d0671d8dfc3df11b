// What a URI is to a table: the deepest node that is its URN or above it.
//
// In: a table's bytes, the table as it was decoded, a URI. Out: nothing if it is skipped, or its category, its node, whether it
// is that whole node, and the bytes compared to find it.
//
//   decoded.rt  a decoded table, which the search goes by
//   uses.rt     the search
//   marks.rt    what the search keeps of each node
//   texts.rt    the text at an index of arrays: a category's name, a node's path, a URN
#![tactic(auto)]

pub mod decoded;
pub mod marks;
pub mod texts;
pub mod uses;

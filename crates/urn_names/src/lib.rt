// Alert URNs as bytes: the forms of labels, names and URNs.
//
// In: the bytes of a URI, of a name or of a URN of a table. Out: whether they have their form.
//
//   names.rt  labels and names, over which bytes may stand in them
//   urn.rt    alert URNs in a value, without regard to letter case, and what a table stores
#![tactic(auto)]

mod names;
pub mod urn;

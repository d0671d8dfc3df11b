// Texts: cut, searched, and compared with or without regard to letter case.
//
// In: the bytes of one text or two. Out: where a part lies, whether they are the same, or how much they have in common.
//
//   cut.rt          texts cut, and searched for a byte
//   compare.rt      texts compared byte by byte
//   letter_case.rt  texts compared without regard to letter case
#![tactic(auto)]

pub mod compare;
pub mod cut;
pub mod letter_case;

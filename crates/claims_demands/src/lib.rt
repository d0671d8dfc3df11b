// This crate has no code: it shows what is demanded of the whole software, over the definitions that the crates beneath it promise.
//
//   specs/Demands    the three demands
//   specs/Feeding    what feeding several values comes to
//   specs/Tried      the plain resolver's tries
//   specs/Examples   eleven values and an image marked by hand; that no claim is empty stands in DemandExample, FieldsExample and
//                    EarlyExample, and that 9 tries are needed in TriedExample
#![tactic(auto)]
